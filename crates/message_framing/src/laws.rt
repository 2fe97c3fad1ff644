//! Laws of framed messages and of their reading.

ghost use Rattle.message_framing.specs.declared.framing.Framing.{Framing};
ghost use Rattle.message_framing.specs.declared.framing.Framing.TheVariants as framing;
ghost use Rattle.message_framing.specs.declared.front.Front.TheVariants.{Whole, Short, Broken};
ghost use Rattle.message_framing.specs.declared.next_body.NextBody.{NextBody};
ghost use Rattle.message_framing.specs.declared.next_body.NextBody.TheVariants as next;
ghost use Rattle.message_framing.specs.Framed.{BreaksARule, HasContent};
ghost use Rattle.message_framing.specs.Front.{front, IsMessage};
ghost use Rattle.message_framing.specs.Lines.{HasPart, header_lines};
ghost use Rattle.message_framing.specs.Reads.{Begins, Follows, HasNone, Reads};
ghost use Rattle.message_framing.specs.Unread.{Unread};
ghost use Rattle.message_framing.specs.Wrapped.{head_text, wrapped};
ghost use Rattle.std.specs.List.{concat};
ghost use Rattle.std.specs.Prelude.{◌≡◌, ◌≢◌, ◌+◌, ◌<◌, ◌≤◌, ◌++◌, ◌↔◌, ℕ, List, Some, length, take, drop};
ghost use Rattle.wire_base.specs.declared.limits.TheConstants.{MAX_BODY};
ghost use Rattle.wire_base.specs.declared.place.Place.{Place};
ghost use Rattle.wire_base.specs.declared.reason.Reason.{Reason};

/// A header's lines are those of the header part that stands in front.
pub fn headers_are_parts()
    ensures { (bytes : List ℕ) (lines : List (List ℕ)) → (header_lines bytes ≡ Some lines) ↔ HasPart bytes lines }
{}

/// What stands at the front where messages have header parts.
pub fn header_fronts_are_known()
    ensures whole { (bytes : List ℕ) (start size : ℕ) → (front framing.Header bytes ≡ Whole start size) ↔ HasContent bytes start size }
    ensures broken { (bytes : List ℕ) (offset : ℕ) (reason : Reason) → (front framing.Header bytes ≡ Broken offset reason) ↔ BreaksARule bytes offset reason }
{}

/// What stands at the front is told by its own bytes, and stays whatever follows; fewer are too few to tell.
pub fn fronts_stay()
    ensures within { (f : Framing) (b : List ℕ) (start size : ℕ) → front f b ≡ Whole start size → (0 < size) × (start + size ≤ length b) }
    ensures whole { (f : Framing) (b more : List ℕ) (start size : ℕ) → front f b ≡ Whole start size → front f (b ++ more) ≡ Whole start size }
    ensures broken { (f : Framing) (b more : List ℕ) (offset : ℕ) (reason : Reason) → front f b ≡ Broken offset reason → front f (b ++ more) ≡ Broken offset reason }
    ensures cut { (f : Framing) (b more : List ℕ) (start size : ℕ) → front f (b ++ more) ≡ Whole start size → length b < start + size → front f b ≡ Short }
{}

/// What is wrapped is read back, whatever follows, and a front of it is too few bytes to tell.
pub fn wrapped_is_read()
    ensures whole { (f : Framing) (body more : List ℕ) → 0 < length body → length body ≤ MAX_BODY →
        front f (wrapped f body ++ more) ≡ Whole (length (head_text f (length body))) (length body) }
    ensures body { (f : Framing) (body more : List ℕ) →
        take (length body) (drop (length (head_text f (length body))) (wrapped f body ++ more)) ≡ body }
    ensures cut { (f : Framing) (body : List ℕ) (n : ℕ) → 0 < length body → length body ≤ MAX_BODY → n < length (wrapped f body) →
        front f (take n (wrapped f body)) ≡ Short }
{}

/// No framed message begins another.
pub fn messages_are_apart()
    ensures { (f : Framing) (b c x y : List ℕ) → IsMessage f b → IsMessage f c → b ++ x ≡ c ++ y → b ≡ c }
{}

/// What is given and what is left depend on the stream alone, and not on the pieces that it came in.
pub fn pieces_are_one_stream()
    // Of two readers of a stream, one gave the first of the bodies that the other gave.
    ensures given { (a b : Unread) (pieces others : List (List ℕ)) (given more : List (ℕ × List ℕ)) →
        a.framing ≡ b.framing → concat pieces ≡ concat others →
        Reads a (concat pieces) given → Reads b (concat others) more → length given ≤ length more →
        (later : List (ℕ × List ℕ)) × (more ≡ given ++ later) }
    // If they gave as many, they are equal.
    ensures left { (a b : Unread) (pieces others : List (List ℕ)) (given more : List (ℕ × List ℕ)) →
        a.framing ≡ b.framing → concat pieces ≡ concat others →
        Reads a (concat pieces) given → Reads b (concat others) more → length given ≡ length more →
        (given ≡ more) × (a ≡ b) }
{}

/// What is answered is determined by the stream and by how much of it was given, and nothing that comes later changes it.
pub fn stream_has_one_answer()
    ensures one { (f : Framing) (stream : List ℕ) (given : List (ℕ × List ℕ)) (a b : NextBody) →
        Follows f stream given a → Follows f stream given b →
        a ≢ next.OutOfMemory → b ≢ next.OutOfMemory → a ≡ b }
    ensures body_stays { (f : Framing) (stream more : List ℕ) (given : List (ℕ × List ℕ)) (place : Place) (body : List ℕ) →
        Follows f stream given (next.Body place body) → Follows f (stream ++ more) given (next.Body place body) }
    ensures refused_stays { (f : Framing) (stream more : List ℕ) (given : List (ℕ × List ℕ)) (place : Place) (reason : Reason) →
        Follows f stream given (next.Refused place reason) → Follows f (stream ++ more) given (next.Refused place reason) }
    // Where no whole message stands behind some bodies of the stream, any others are the first of them.
    ensures all { (f : Framing) (stream : List ℕ) (given more : List (ℕ × List ℕ)) (rest left : List ℕ) →
        Begins f 0 stream given rest → HasNone f rest → Begins f 0 stream more left →
        (later : List (ℕ × List ℕ)) × (given ≡ more ++ later) }
{}
