//! What holds of spellings, of every value and all bytes.

ghost use Rattle.std.specs.Prelude.{◌≡◌, ◌≤◌, ◌++◌, ◌↔◌, ℕ, List, length, true};
ghost use Rattle.wire_base.specs.Tree.{Tree};
ghost use Rattle.wire_base.specs.declared.reason.Reason.{Reason};
ghost use Rattle.wire_base.specs.Values.{max_nesting, nesting};
ghost use Rattle.pack_value.specs.Spelling.{IsSpelling};
ghost use Rattle.pack_value.specs.Tokens.{IsRefused};
ghost use Rattle.pack_value.specs.Answer.{IsAtFront, IsUndecided, front, Whole, Short, Broken};
ghost use Rattle.pack_value.specs.Shortest.{IsValue, lengths_fit, shortest};

/// The shortest spelling is a spelling, and the value is read from it, whatever follows.
pub fn shortest_is_read()
    ensures spelled { (t : Tree) → IsValue t → nesting t ≤ max_nesting → IsSpelling t (shortest t) }
    ensures read { (t : Tree) (rest : List ℕ) → IsValue t → nesting t ≤ max_nesting → front (shortest t ++ rest) ≡ Whole t (length (shortest t)) }
{}

/// No spelling is a proper front of another, and no two values have one spelling.
pub fn spellings_are_apart()
    ensures { (t u : Tree) (b c x y : List ℕ) → IsSpelling t b → IsSpelling u c → b ++ x ≡ c ++ y → (b ≡ c) × (t ≡ u) }
{}

/// A spelled value is within the limits.
pub fn spelled_fits()
    ensures { (t : Tree) (b : List ℕ) → IsSpelling t b → lengths_fit t ≡ true }
{}

/// What is refused stays refused in the same way, whatever follows, and in no other; and it spells nothing.
pub fn refusals_stay()
    ensures stays { (bytes more : List ℕ) (k : ℕ) (r : Reason) → IsRefused bytes k r → IsRefused (bytes ++ more) k r }
    ensures one { (bytes : List ℕ) (k j : ℕ) (r s : Reason) → IsRefused bytes k r → IsRefused bytes j s → (k ≡ j) × (r ≡ s) }
    ensures unspelled { (bytes : List ℕ) (k n : ℕ) (r : Reason) (t : Tree) → IsRefused bytes k r → IsAtFront bytes t n → ⊥ }
{}

/// What `front` says, by the spellings and by the rules on tokens.
pub fn fronts_are_known()
    ensures found { (bytes : List ℕ) (t : Tree) (n : ℕ) → (front bytes ≡ Whole t n) ↔ IsAtFront bytes t n }
    ensures broken { (bytes : List ℕ) (k : ℕ) (r : Reason) → (front bytes ≡ Broken k r) ↔ IsRefused bytes k r }
    ensures short { (bytes : List ℕ) → (front bytes ≡ Short) ↔ IsUndecided bytes }
{}
