//! Laws of every run.

ghost use Rattle.std.specs.Prelude.{◌≡◌, ◌∷◌, List, ℕ, false, true};
ghost use Rattle.wire_base.specs.declared.frame.Version.{Version};
ghost use Rattle.wire_base.specs.declared.state.Cause.{Cause};
ghost use Rattle.mux_items.specs.declared.call.Call.{Call};
ghost use Rattle.mux_items.specs.declared.party.Party.{Party};
ghost use Rattle.mux_items.specs.Bodies.{ChannelFrame, flip};
ghost use Rattle.mux_items.specs.Calls.{called};
ghost use Rattle.mux_items.specs.Items.{Item, Hello, End, is_running};
ghost use Rattle.mux_items.specs.Applying.{IsGreeting, IsTaken, apply_frame};
ghost use Rattle.mux_run.specs.Run.{RunSide, SideTerms, Terms, runs, side_after};
ghost use Rattle.mux_run.specs.Between.{ahead, Between};
ghost use Rattle.mux_run.specs.Moments.{IsMomentOf};
ghost use Rattle.mux_run.specs.Safe.{IsSafeRun};
ghost use Rattle.mux_run.specs.Spending.{RunStep, IsMomentThrough, IsSafeThrough, is_read};
ghost use Rattle.mux_run.specs.declared.steps.Step.{Step};

/// Every run is safe, also one in which an end is spent.
pub fn every_run_is_safe()
    ensures run { (terms : Terms) (steps : List Step) → IsSafeRun terms steps }
    ensures through { (terms : Terms) (steps : List RunStep) → IsSafeThrough terms steps }
{}

/// At every moment of every run each end has applied the first frames that were due at the other. A call, the
/// handshake, the next frame and the end keep that; the frame is then no longer ahead.
pub fn moments_are_between()
    ensures moment { (terms : Terms) (steps : List Step) (a b : List Item) → IsMomentOf terms steps a b → Between terms.version a b }
    ensures through { (terms : Terms) (steps : List RunStep) (a b : List Item) → IsMomentThrough terms steps a b → Between terms.version a b }
    ensures turned { (v : Version) (x y : List Item) → Between v x y → Between v y x }
    ensures call { (v : Version) (c : Call) (x y : List Item) → Between v x y → Between v (called v c x) y }
    ensures handshake { (v : Version) (party : Party) (x y : List Item) → Between v x y → IsGreeting v party x → Between v (Hello party ∷ x) y }
    ensures frame { (v : Version) (place : ℕ) (x y : List Item) (f : ChannelFrame) (rest : List ChannelFrame)
        → Between v x y → IsTaken v (flip f).key f.body x → ahead v x y ≡ f ∷ rest
        → Between v (apply_frame v place (flip f).key f.body x) y × (ahead v (apply_frame v place (flip f).key f.body x) y ≡ rest) }
    ensures end { (v : Version) (cause : Cause) (x y : List Item) → Between v x y → is_running x ≡ true → Between v (End cause ∷ x) y }
{}

/// A side that was spent, or that ended in another way, takes no step but reads: each other one leaves it as it is.
pub fn an_ended_side_stays()
    ensures { (w : SideTerms) (s : Step) (x y : RunSide) → runs x ≡ false → is_read s ≡ false → side_after w s x y ≡ x }
{}
