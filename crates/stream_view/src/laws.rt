//! Laws of views.

ghost use Rattle.frame_text.specs.Reading.{front};
ghost use Rattle.frame_text.specs.Spelling.{AreFrames, IsBrokenStream};
ghost use Rattle.mux_handshake.specs.Handshake.{Whole};
ghost use Rattle.mux_items.specs.declared.party.Party.{Party};
ghost use Rattle.std.specs.List.{flat_map};
ghost use Rattle.std.specs.Prelude.{◌≡◌, ◌-◌, ◌++◌, ℕ, List, length, take, drop, Some, codes};
ghost use Rattle.stream_view.specs.Lines.{frame_line, hello_line};
ghost use Rattle.stream_view.specs.View.{greeting, left_line, stream_behind, view_text, view_refusal};
ghost use Rattle.wire_base.specs.declared.frame.Frame.{Frame};
ghost use Rattle.wire_base.specs.declared.frame.Version.{Version};
ghost use Rattle.wire_base.specs.declared.reason.Reason.{Reason};

/// Behind a whole handshake a view has a line for each frame that is spelled there, at its place, and no other.
#[tactic(auto, using(crate::proofs::Spelled::spelled))]
pub fn view_has_the_frames()
    ensures frames { (v : Version) (bytes : List ℕ) (party : Party) (size : ℕ) → greeting v bytes ≡ Whole party size →
        AreFrames v size (drop size bytes) (stream_behind v size bytes).frames (stream_behind v size bytes).rest }
    ensures lines { (v : Version) (bytes : List ℕ) (party : Party) (size : ℕ) (frames : List (ℕ × Frame)) (rest : List ℕ) →
        greeting v bytes ≡ Whole party size → AreFrames v size (drop size bytes) frames rest →
        view_text v bytes ≡ codes "view 1\n" ++ (hello_line v (take size bytes) ++ (flat_map (λ x. frame_line x.0 x.1) frames
        ++ left_line (length bytes - length rest) (length rest) (front v rest))) ++ codes "end\n" }
    // What is refused is the first token of the stream that breaks a rule.
    ensures refused { (v : Version) (bytes : List ℕ) (party : Party) (size place : ℕ) (reason : Reason) → greeting v bytes ≡ Whole party size →
        view_refusal v bytes ≡ Some (place, reason) → IsBrokenStream v size (drop size bytes) place reason }
{}
