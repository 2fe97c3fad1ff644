//! What holds of scripts and their texts.

ghost use Rattle.std.specs.Prelude.{◌≡◌, ◌≢◌, ◌≤◌, ◌↔◌, ◌+◌, ◌⊎◌, ◌++◌, ℕ, List, true, length};
ghost use Rattle.endpoint_run.specs.declared.steps.Step.{Step};
ghost use Rattle.mux_run.specs.Run.{Terms};
ghost use Rattle.script.specs.declared.reason.ScriptReason.{ScriptReason};
ghost use Rattle.script.specs.declared.reason.ScriptReason.TheVariants as reason;
ghost use Rattle.script.specs.Found.{script_in, steps_from, reads, breaks, IsScriptOf};
ghost use Rattle.script.specs.Lines.{lines_of};
ghost use Rattle.script.specs.Rules.{IsHeadRefused, IsStepRefused, IsWorded};
ghost use Rattle.script.specs.Spelling.{StepLine, AreTerms, AreScripted, is_spellable, is_worded, line_text, head_lines, head_text, script_text, steps_of, filled_in};
ghost use Rattle.script.specs.Steps.{step_in, begins_step};
ghost use Rattle.text_words.specs.Reading.{words_of};
ghost use Rattle.text_words.specs.Written.{is_line_text};

/// What is read is the text of what was read. What is written is read. Behind the text of a script the next line
/// decides.
pub fn scripts_are_their_texts()
    ensures read { (bytes : List ℕ) (terms : Terms) (steps : List Step) → script_in bytes ≡ reads terms steps → IsScriptOf bytes terms steps }
    ensures written { (terms : Terms) (lines : List StepLine) → AreTerms terms → AreScripted lines → script_in (script_text terms lines) ≡ reads terms (steps_of lines) }
    ensures goes_on { (terms : Terms) (lines : List StepLine) (rest : List ℕ) → AreTerms terms → AreScripted lines
        → script_in (script_text terms lines ++ rest) ≡ steps_from terms (steps_of lines) (filled_in lines) (length lines + length (head_lines terms) + 1) (lines_of rest) }
{}

/// A script is refused at its first line that breaks a rule, for that rule's reason, and only there: in its head, or
/// behind the lines of a script. A text that is refused in its head begins with none, and a head has four lines at most.
pub fn script_refuses_the_first()
    ensures refused { (bytes : List ℕ) (number : ℕ) (why : ScriptReason) → script_in bytes ≡ breaks number why
        → IsHeadRefused (lines_of bytes) number why ⊎ IsStepRefused (lines_of bytes) number why }
    ensures refuses { (bytes : List ℕ) (number : ℕ) (why : ScriptReason) → IsHeadRefused (lines_of bytes) number why ⊎ IsStepRefused (lines_of bytes) number why
        → script_in bytes ≡ breaks number why }
    ensures headless { (bytes : List ℕ) (number : ℕ) (why : ScriptReason) → IsHeadRefused (lines_of bytes) number why
        → (number ≤ 4) × ((terms : Terms) (rest : List ℕ) → AreTerms terms → bytes ≢ head_text terms ++ rest) }
{}

/// A line has a bad word exactly if it begins with a step word and is the text of no step whose words are of their forms,
/// whatever the rest of it is.
pub fn bad_words_are_of_no_step()
    ensures { (text : List ℕ) → is_line_text text ≡ true → (step_in (words_of text) ≡ Err reason.BadWord)
        ↔ ((begins_step (words_of text) ≡ true) × ((line : StepLine) → is_worded line ≡ true → line_text line ≢ text)) }
{}

/// A line is refused for its rest exactly if its words are of their forms and it is the text of no step.
pub fn bad_rests_are_of_no_step()
    ensures { (text : List ℕ) → is_line_text text ≡ true → (step_in (words_of text) ≡ Err reason.BadJson)
        ↔ (IsWorded text × ((line : StepLine) → is_spellable line ≡ true → line_text line ≢ text)) }
{}
