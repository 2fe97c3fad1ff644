//! Laws of two ends and the frames between them.

ghost use Rattle.std.specs.Prelude.{◌≡◌, ◌∷◌, ℕ, List, true};
ghost use Rattle.wire_base.specs.declared.frame.Version.{Version};
ghost use Rattle.mux_items.specs.declared.channel.ChannelKey.{ChannelKey};
ghost use Rattle.mux_items.specs.Bodies.{ChannelFrame, flip};
ghost use Rattle.mux_items.specs.Items.{Item, is_running};
ghost use Rattle.mux_items.specs.Refusals.{is_ready};
ghost use Rattle.mux_items.specs.Applying.{apply_frame};
ghost use Rattle.mux_run.specs.Run.{Terms};
ghost use Rattle.mux_run.specs.Between.{ahead, Between};
ghost use Rattle.mux_run.specs.Spending.{RunStep};
ghost use Rattle.mux_run.specs.declared.steps.Step.{Step};
ghost use Rattle.mux_credit.specs.Credit.{HasCredit, TakesNext};
ghost use Rattle.mux_credit.specs.Runs.{KeepsCreditRun, KeepsCreditThrough};

/// Between two ends no credit is lost, neither refuses what the other sent, and taking it keeps them so.
pub fn two_ends_keep_credit()
    ensures credit { (v : Version) (c : ChannelKey) (x y : List Item) → Between v x y → HasCredit v c x y }
    ensures takes { (v : Version) (x y : List Item) → Between v x y → TakesNext v x y }
    ensures keeps { (v : Version) (place : ℕ) (x y : List Item) (f : ChannelFrame) (rest : List ChannelFrame)
        → Between v x y → is_running x ≡ true → is_ready v x ≡ true → ahead v x y ≡ f ∷ rest
        → Between v (apply_frame v place (flip f).key f.body x) y }
{}

/// The credit law holds of every run, also of one in which an end is spent.
pub fn every_run_keeps_credit()
    ensures run { (terms : Terms) (steps : List Step) → KeepsCreditRun terms steps }
    ensures through { (terms : Terms) (steps : List RunStep) → KeepsCreditThrough terms steps }
{}
