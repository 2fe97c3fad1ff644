//! What holds of normal forms and of texts, of every value and all bytes.

ghost use Rattle.std.specs.Prelude.{◌≡◌, ◌≤◌, ℕ, List, option_map, false};
ghost use Rattle.wire_base.specs.Tree.{Tree, no_pairs, pairs_of, pair_list_of};
ghost use Rattle.wire_base.specs.Find.{last_of};
ghost use Rattle.wire_base.specs.Values.{max_nesting, nesting, holds_bytes};
ghost use Rattle.json_value.specs.Value.{IsValue};
ghost use Rattle.json_value.specs.Normal.{norm, norm_onto, IsNormal};
ghost use Rattle.json_value.specs.Json.{with_hex, shown, json_text};
ghost use Rattle.json_value.specs.Reading.{IsReading, HasNoReading, HasFloat};

/// A normal form has ordered keys, each with the last of its values, and is no deeper. What has ordered keys is its
/// own normal form.
pub fn norms_are_normal()
    ensures normal { (t : Tree) → IsNormal (norm t) }
    ensures same { (t : Tree) → IsNormal t → norm t ≡ t }
    ensures again { (t : Tree) → norm (norm t) ≡ norm t }
    ensures last { (k : List ℕ) (ps : List (List ℕ × Tree)) → last_of k (pair_list_of (norm_onto no_pairs (pairs_of ps))) ≡ option_map norm (last_of k ps) }
    ensures shallow { (t : Tree) → nesting (norm t) ≤ nesting t }
{}

/// What is written for a value is read as its normal form.
pub fn written_is_read()
    ensures { (t : Tree) → IsValue t → nesting t ≤ max_nesting → holds_bytes t ≡ false → IsReading (json_text t) (norm t) }
{}

/// A value is shown by the JSON text of the same value with its bytes as maps of their hex. That text is read as their
/// normal form, and values that are shown alike have one such form, however deep they are.
pub fn shown_is_read()
    ensures text { (t : Tree) → shown t ≡ json_text (with_hex t) }
    ensures no_bytes { (t : Tree) → holds_bytes (with_hex t) ≡ false }
    ensures read { (t : Tree) → IsValue t → nesting (with_hex t) ≤ max_nesting → IsReading (shown t) (norm (with_hex t)) }
    ensures one { (t u : Tree) → IsValue t → IsValue u → shown t ≡ shown u → norm (with_hex t) ≡ norm (with_hex u) }
{}

/// Bytes are JSON of one value at most, and then neither without a reading nor with a float.
pub fn readings_are_one()
    ensures one { (b : List ℕ) (t u : Tree) → IsReading b t → IsReading b u → t ≡ u }
    ensures json { (b : List ℕ) (t : Tree) → IsReading b t → HasNoReading b → ⊥ }
    ensures whole { (b : List ℕ) (t : Tree) → IsReading b t → HasFloat b → ⊥ }
{}
