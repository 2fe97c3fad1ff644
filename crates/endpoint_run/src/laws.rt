//! Laws of every run.

ghost use Rattle.std.specs.Prelude.{◌≡◌, ◌≤◌, ◌+◌, ◌++◌, ◌∷◌, [], ℕ, List, true, Some, None};
ghost use Rattle.mux_items.specs.Items.{is_running};
ghost use Rattle.mux_run.specs.Run.{Terms, SideTerms, RunSide};
ghost use Rattle.mux_run.specs.Fed.{LieWithin};
ghost use Rattle.endpoint_items.specs.Items.{EndItem};
ghost use Rattle.endpoint_items.specs.declared.call.Call.TheVariants as call;
ghost use Rattle.mux_items.specs.declared.channel.ChannelKey.{ChannelKey};
ghost use Rattle.mux_run.specs.declared.steps.Side.{Side};
ghost use Rattle.endpoint_items.specs.Layers.{mux_of};
ghost use Rattle.endpoint_run.specs.Next.{next_item, settled_in};
ghost use Rattle.endpoint_run.specs.Run.{EndSide, EndStep, EndWorld, side_of, in_step, end_run};
ghost use Rattle.endpoint_run.specs.Answers.{TellsOfNew, made_step, run, world_by};
ghost use Rattle.endpoint_run.specs.declared.steps.Step.{Step};
ghost use Rattle.endpoint_run.specs.declared.steps.Step.TheVariants as step;
ghost use Rattle.endpoint_run.specs.Moments.{HasGrown, Moment, at_moment};
ghost use Rattle.endpoint_run.specs.Finer.{IsFinerRun};
ghost use Rattle.endpoint_run.specs.Safe.{IsSafeRun, KeepsRulesRun};
ghost use Rattle.endpoint_run.specs.Settled.{IsSettled, TakesTurnsEnough, IsWithinRun};
ghost use Rattle.endpoint_run.specs.Quiet.{DeliversAll};
ghost use Rattle.endpoint_run.specs.Midway.{all_applied, IsMidway, GoesOn, BeginsMidway};
ghost use Rattle.endpoint_run.specs.Exchange.{IsExchangeIn, IsExchangeRun, SayMessages};
ghost use Rattle.endpoint_run.specs.Handles.{HandlesRestRun};

/// At each moment of every run the multiplexing ends are those of a run of finer steps.
pub fn every_run_is_a_finer_run()
    ensures { (terms : Terms) (steps : List EndStep) → IsFinerRun terms steps }
{}

/// Every run is safe and keeps its credit at each moment, and each of its requests has one outcome.
pub fn every_run_is_safe()
    ensures { (terms : Terms) (steps : List EndStep) → IsSafeRun terms steps }
{}

/// From each moment of a run to each later one items are only added: within a step, turn after turn, and from step to step.
pub fn items_are_only_added()
    ensures step { (terms : Terms) (turns : ℕ) (s : EndStep) (w : EndWorld) → HasGrown w (in_step terms turns s w) }
    ensures turns { (terms : Terms) (fewer turns : ℕ) (s : EndStep) (w : EndWorld) → fewer ≤ turns → HasGrown (in_step terms fewer s w) (in_step terms turns s w) }
    ensures run { (terms : Terms) (steps more : List EndStep) → HasGrown (end_run terms steps) (end_run terms (steps ++ more)) }
{}

/// At each moment of every run each item at both sides was allowed where it stands. So what is proved of the items of one
/// end that keep the rules holds of both.
pub fn every_run_keeps_the_rules()
    ensures { (terms : Terms) (steps : List EndStep) → KeepsRulesRun terms steps }
{}

/// At each moment of every run a handle was released once at most at either side, by its own call or by a message of the peer;
/// and once it had ended there, it was neither released nor called.
pub fn every_run_lets_handles_rest()
    ensures { (terms : Terms) (steps : List EndStep) → HandlesRestRun terms steps }
{}

/// After each step of every run nothing whole is left to either side: no handshake or frame of what was delivered to it, and
/// no message of what its connections read. The step takes turns enough for that, so that more of them change nothing.
pub fn every_step_applies_all_that_is_whole()
    ensures settled { (terms : Terms) (steps : List EndStep) → IsSettled terms (end_run terms steps) }
    ensures enough { (terms : Terms) (steps : List EndStep) (s : EndStep) → TakesTurnsEnough terms s (end_run terms steps) }
{}

/// At each moment of every run what a running side applied lies in what was delivered to it, and that in what the other
/// side emitted.
pub fn every_run_applies_what_was_delivered()
    ensures { (terms : Terms) (steps : List EndStep) → IsWithinRun terms steps }
{}

/// The side of a step applies one item after the other. Each takes a byte at least, is a turn, and leads where the step does;
/// where no item is next the side is there. On its way all frames that it applied lie in what was delivered to it.
pub fn items_are_applied_one_by_one()
    ensures begins { (terms : Terms) (steps : List EndStep) (s : EndStep) → BeginsMidway terms (side_of s) s (end_run terms steps) }
    ensures goes_on { (w : SideTerms) (given : ℕ) (y : RunSide) (item : EndItem) (items : List EndItem) → IsMidway w given y items → next_item w given y items ≡ Some item → GoesOn w given y items item }
    ensures turn { (w : SideTerms) (given : ℕ) (y : RunSide) (turns : ℕ) (item : EndItem) (items : List EndItem) → next_item w given y (settled_in w given y turns items) ≡ Some item → settled_in w given y (turns + 1) items ≡ item ∷ settled_in w given y turns items }
    ensures ends { (w : SideTerms) (given : ℕ) (y : RunSide) (items : List EndItem) → next_item w given y items ≡ None → all_applied w given y items ≡ items }
    ensures lies { (w : SideTerms) (given : ℕ) (y : RunSide) (items : List EndItem) → IsMidway w given y items → is_running (mux_of w.version items) ≡ true → LieWithin w given (mux_of w.version items) y }
{}

/// A question changes nothing: the run goes on as without it. Each other step adds items to its side and tells the
/// events of just these.
pub fn steps_tell_of_what_they_add()
    ensures question { (terms : Terms) (side : Side) (c : ChannelKey) (n : ℕ) (steps : List Step) → run terms (steps ++ step.Call side (call.Outcome c n) ∷ []) ≡ run terms steps }
    ensures goes_on { (terms : Terms) (s : Step) (steps : List Step) → run terms (steps ++ s ∷ []) ≡ world_by terms (made_step s) (run terms steps) }
    ensures events { (w : SideTerms) (s : EndStep) (x y : EndSide) → TellsOfNew w s x y }
{}

/// Where after the steps of a run both ends run, all that each emitted was delivered and nothing is unread, all that was
/// written on a channel that is live at both was handed over.
pub fn quiet_runs_deliver_all()
    ensures { (terms : Terms) (steps : List EndStep) → DeliversAll terms steps }
{}

/// Where all that both sides said are messages of the code: on each channel that two connections share from its first byte,
/// in the same terms, the messages that one side took are the first that the other said, in order and each as it is read,
/// each request is answered once at most, and of each sequence the values that were answered with what it took are a front,
/// in order and each once. So at a moment of any run; and if they are at the end of a run, at each of its moments.
pub fn every_run_exchanges_messages()
    ensures moment { (terms : Terms) (steps : List EndStep) (moment : Moment) → SayMessages terms (at_moment terms steps moment) → IsExchangeIn terms (at_moment terms steps moment) }
    ensures run { (terms : Terms) (steps : List EndStep) → SayMessages terms (end_run terms steps) → IsExchangeRun terms steps }
{}
