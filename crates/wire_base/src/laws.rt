//! Laws of heads, for the crates above to call.

ghost use Rattle.std.specs.Prelude.{◌≡◌, ◌<◌, ◌≤◌, ◌^◌, ◌++◌, ℕ, ℤ, List, length, take, pos};
ghost use Rattle.wire_base.specs.declared.reason.Reason.{Reason};
ghost use Rattle.wire_base.specs.declared.token.TokenHead.{TokenHead};
ghost use Rattle.wire_base.specs.Head.{head_of};
ghost use Rattle.wire_base.specs.Shortest.{unsigned_text, whole_text, str_head, bin_head, array_head, map_head};
ghost use Rattle.wire_base.specs.Whole.{IsWhole};

use crate::reason::Reason;
use crate::token::{HeadStep, TokenHead};

/// A head is told by its own bytes, and by no fewer.
pub fn heads_stay()
    ensures within { (b : List ℕ) (h : TokenHead) (n : ℕ) → head_of b ≡ HeadStep.Got h n → (0 < n) × (n ≤ length b) }
    ensures got { (b more : List ℕ) (h : TokenHead) (n : ℕ) → head_of b ≡ HeadStep.Got h n → head_of (b ++ more) ≡ HeadStep.Got h n }
    ensures refused { (b more : List ℕ) (r : Reason) → head_of b ≡ HeadStep.Refused r → head_of (b ++ more) ≡ HeadStep.Refused r }
    ensures front { (b : List ℕ) (h : TokenHead) (n : ℕ) → head_of b ≡ HeadStep.Got h n → head_of (take n b) ≡ HeadStep.Got h n }
    ensures cut { (b more : List ℕ) (h : TokenHead) (n : ℕ) → head_of (b ++ more) ≡ HeadStep.Got h n → length b < n → head_of b ≡ HeadStep.Short }
{}

/// A shortest head is a head, whatever follows it.
#[tactic(auto, using(crate::proofs::ShortestLemmas::shortest))]
pub fn shortest_heads_are_heads()
    ensures unsigned { (n : ℕ) (more : List ℕ) → n < 2 ^ 64 → head_of (unsigned_text n ++ more) ≡ HeadStep.Got (TokenHead.Whole (pos n)) (length (unsigned_text n)) }
    ensures whole { (z : ℤ) (more : List ℕ) → IsWhole z → head_of (whole_text z ++ more) ≡ HeadStep.Got (TokenHead.Whole z) (length (whole_text z)) }
    ensures str { (n : ℕ) (more : List ℕ) → n < 2 ^ 32 → head_of (str_head n ++ more) ≡ HeadStep.Got (TokenHead.Str n) (length (str_head n)) }
    ensures bin { (n : ℕ) (more : List ℕ) → n < 2 ^ 32 → head_of (bin_head n ++ more) ≡ HeadStep.Got (TokenHead.Bin n) (length (bin_head n)) }
    ensures array { (n : ℕ) (more : List ℕ) → n < 2 ^ 32 → head_of (array_head n ++ more) ≡ HeadStep.Got (TokenHead.Array n) (length (array_head n)) }
    ensures map { (n : ℕ) (more : List ℕ) → n < 2 ^ 32 → head_of (map_head n ++ more) ≡ HeadStep.Got (TokenHead.Map n) (length (map_head n)) }
{}
