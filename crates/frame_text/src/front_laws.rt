//! Laws of the reading and of the spellings of frames.

ghost use Rattle.frame_text.specs.Codec.{is_packed};
ghost use Rattle.frame_text.specs.Front.{Broken, Short, Whole};
ghost use Rattle.frame_text.specs.Frames.{fits, text};
ghost use Rattle.frame_text.specs.Reading.{front};
ghost use Rattle.frame_text.specs.Rules.{first_refusal};
ghost use Rattle.frame_text.specs.Spelling.{AreBytes, FrameIs};
ghost use Rattle.std.specs.Prelude.{◌≡◌, ◌<◌, ◌≤◌, ◌++◌, ℕ, List, [], length, take, true, Some};
ghost use Rattle.wire_base.specs.declared.frame.Frame.{Frame};
ghost use Rattle.wire_base.specs.declared.frame.Version.{Version};
ghost use Rattle.wire_base.specs.declared.reason.Reason.{Reason};

use wire_base::FRAME_BOUND;

/// A frame takes a byte at least, and stands within the bytes; so does what breaks a rule.
#[tactic(auto, using(crate::proofs::Laws::withins))]
pub fn front_stands_within()
    ensures front_within { (v : Version) (bytes : List ℕ) (f : Frame) (size : ℕ) →
        front v bytes ≡ Whole f size → (0 < size) × (size ≤ length bytes) }
    ensures broken_within { (v : Version) (bytes : List ℕ) (offset : ℕ) (reason : Reason) →
        front v bytes ≡ Broken offset reason → offset ≤ length bytes }
    ensures front_near { (v : Version) (bytes : List ℕ) (f : Frame) (size : ℕ) → is_packed v ≡ true →
        front v bytes ≡ Whole f size → size ≤ FRAME_BOUND }
    ensures broken_near { (v : Version) (bytes : List ℕ) (offset : ℕ) (reason : Reason) → is_packed v ≡ true →
        front v bytes ≡ Broken offset reason → offset ≤ FRAME_BOUND }
{}

/// What stands at the front stays so, whatever follows. Of less than a whole frame there are too few bytes to tell.
#[tactic(auto, using(crate::proofs::Laws::stays))]
pub fn front_is_steady()
    ensures front_stays { (v : Version) (bytes more : List ℕ) (f : Frame) (size : ℕ) →
        front v bytes ≡ Whole f size → front v (bytes ++ more) ≡ Whole f size }
    ensures broken_stays { (v : Version) (bytes more : List ℕ) (offset : ℕ) (reason : Reason) →
        front v bytes ≡ Broken offset reason → front v (bytes ++ more) ≡ Broken offset reason }
    ensures front_cut { (v : Version) (a b : List ℕ) (f : Frame) (size : ℕ) →
        front v (a ++ b) ≡ Whole f size → length a < size → front v a ≡ Short }
{}

/// What is read is what is spelled, and the text is a spelling.
#[tactic(auto, using(crate::proofs::Laws::spellings))]
pub fn front_is_spelled()
    ensures front_spelled { (v : Version) (bytes : List ℕ) (f : Frame) (size : ℕ) →
        front v bytes ≡ Whole f size → FrameIs v f (take size bytes) }
    ensures spelled_front { (v : Version) (f : Frame) (b rest : List ℕ) →
        FrameIs v f b → front v (b ++ rest) ≡ Whole f (length b) }
    ensures front_text { (v : Version) (f : Frame) (rest : List ℕ) → fits v f ≡ true →
        front v (text v f ++ rest) ≡ Whole f (length (text v f)) }
    ensures shortest { (v : Version) (f : Frame) (b : List ℕ) → AreBytes b →
        FrameIs v f b → length (text v f) ≤ length b }
    // A spelling that begins another is that one, of the same frame.
    ensures one_spelling { (v : Version) (f g : Frame) (b more : List ℕ) →
        FrameIs v f b → FrameIs v g (b ++ more) → (f ≡ g) × (more ≡ []) }
{}

/// What is read of bytes fits.
#[tactic(auto, using(crate::proofs::Laws::every_front_fits))]
pub fn front_has_text()
    ensures { (v : Version) (bytes : List ℕ) (f : Frame) (size : ℕ) → AreBytes bytes →
        front v bytes ≡ Whole f size → fits v f ≡ true }
{}

/// A frame is refused at its first token that breaks a rule, for that rule's reason, and only there.
#[tactic(auto, using(crate::proofs::Refused::refusals))]
pub fn front_refuses_the_first()
    ensures refused { (v : Version) (bytes : List ℕ) (offset : ℕ) (reason : Reason) →
        front v bytes ≡ Broken offset reason → first_refusal v bytes ≡ Some (offset, reason) }
    ensures refuses { (v : Version) (bytes : List ℕ) (offset : ℕ) (reason : Reason) →
        first_refusal v bytes ≡ Some (offset, reason) → front v bytes ≡ Broken offset reason }
{}
