//! What holds of the words of every form.

ghost use Rattle.std.specs.Prelude.{◌≡◌, ℕ, List, Some, true};
ghost use Rattle.text_words.specs.Forms.{Form, FormValue, read_form, write_form, is_value};
ghost use Rattle.text_words.specs.Written.{is_text_word};

/// Each value that has a word is what its word is read as, and a word that is read is the word of its value.
pub fn words_are_read_as_written()
    ensures read { (f : Form) (x : FormValue f) → is_value f x ≡ true → read_form f (write_form f x) ≡ Some x }
    ensures written { (f : Form) (word : List ℕ) (x : FormValue f) → is_text_word word ≡ true → read_form f word ≡ Some x → (write_form f x ≡ word) × (is_value f x ≡ true) }
    ensures text { (f : Form) (x : FormValue f) → is_value f x ≡ true → is_text_word (write_form f x) ≡ true }
{}
