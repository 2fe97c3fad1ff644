//! Laws of the reading of streams.

ghost use Rattle.frame_reader.specs.Reads.{Begins, BreaksAfter, Follows, HasNone, Reads};
ghost use Rattle.frame_reader.specs.Unread.{Unread};
ghost use Rattle.frame_reader.specs.declared.next_frame.NextFrame.{NextFrame};
ghost use Rattle.frame_reader.specs.declared.next_frame.NextFrame.TheVariants as next;
ghost use Rattle.frame_text.specs.Spelling.{AreFrames, IsBrokenStream};
ghost use Rattle.std.specs.List.{concat};
ghost use Rattle.std.specs.Prelude.{◌≡◌, ◌≢◌, ◌≤◌, ◌++◌, ℕ, List, length};
ghost use Rattle.wire_base.specs.declared.frame.Frame.{Frame};
ghost use Rattle.wire_base.specs.declared.frame.Version.{Version};
ghost use Rattle.wire_base.specs.declared.place.Place.{Place};
ghost use Rattle.wire_base.specs.declared.reason.Reason.{Reason};

/// What is given and what is left depend on the stream alone, and not on the pieces that it came in.
#[tactic(auto, using(crate::proofs::OneStream::one_stream))]
pub fn pieces_are_one_stream()
    // Of two readers of a stream, one gave the first of the frames that the other gave.
    ensures given { (a b : Unread) (start : ℕ) (pieces others : List (List ℕ)) (given more : List (ℕ × Frame)) →
        a.version ≡ b.version → concat pieces ≡ concat others →
        Reads a start (concat pieces) given → Reads b start (concat others) more → length given ≤ length more →
        (later : List (ℕ × Frame)) × (more ≡ given ++ later) }
    // If they gave as many, they are equal, but that one may have answered a refusal.
    ensures left { (a b : Unread) (start : ℕ) (pieces others : List (List ℕ)) (given more : List (ℕ × Frame)) →
        a.version ≡ b.version → concat pieces ≡ concat others →
        Reads a start (concat pieces) given → Reads b start (concat others) more → length given ≡ length more →
        (given ≡ more) × (a ≡ record b { begun = a.begun }) }
{}

/// What is answered is determined by the stream and by how much of it was given, and nothing that comes later changes it.
#[tactic(auto, using(crate::proofs::OneStream::answers))]
pub fn stream_has_one_answer()
    ensures one { (v : Version) (start : ℕ) (stream : List ℕ) (given : List (ℕ × Frame)) (a b : NextFrame) →
        Follows v start stream given a → Follows v start stream given b →
        a ≢ next.OutOfMemory → b ≢ next.OutOfMemory → a ≡ b }
    ensures frame_stays { (v : Version) (start : ℕ) (stream more : List ℕ) (given : List (ℕ × Frame)) (place : Place) (frame : Frame) →
        Follows v start stream given (next.Frame place frame) → Follows v start (stream ++ more) given (next.Frame place frame) }
    ensures refused_stays { (v : Version) (start : ℕ) (stream more : List ℕ) (given : List (ℕ × Frame)) (place : Place) (reason : Reason) →
        Follows v start stream given (next.Refused place reason) → Follows v start (stream ++ more) given (next.Refused place reason) }
    // Where no whole frame stands behind some frames of the stream, any others are the first of them.
    ensures all { (v : Version) (start : ℕ) (stream : List ℕ) (given more : List (ℕ × Frame)) (rest left : List ℕ) →
        Begins v start stream given rest → HasNone v rest → Begins v start stream more left →
        (later : List (ℕ × Frame)) × (given ≡ more ++ later) }
{}

/// What is read of a stream is what is spelled there.
#[tactic(auto, using(crate::proofs::Spelled::spelled))]
pub fn frames_are_spelled()
    ensures frames { (v : Version) (start : ℕ) (stream : List ℕ) (given : List (ℕ × Frame)) (rest : List ℕ) →
        Begins v start stream given rest → HasNone v rest → AreFrames v start stream given rest }
    ensures begins { (v : Version) (start : ℕ) (stream : List ℕ) (given : List (ℕ × Frame)) (rest : List ℕ) →
        AreFrames v start stream given rest → Begins v start stream given rest × HasNone v rest }
    ensures refused { (v : Version) (start : ℕ) (stream : List ℕ) (given : List (ℕ × Frame)) (place : ℕ) (reason : Reason) →
        BreaksAfter v start stream given place reason → IsBrokenStream v start stream place reason }
    ensures broken { (v : Version) (start : ℕ) (stream : List ℕ) (place : ℕ) (reason : Reason) →
        IsBrokenStream v start stream place reason → (given : List (ℕ × Frame)) × BreaksAfter v start stream given place reason }
{}
