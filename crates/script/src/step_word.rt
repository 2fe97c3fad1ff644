//! The words that steps begin with.

ghost use Rattle.std.specs.Prelude.{◌≡◌};
ghost use Rattle.script.specs.Steps.{step_word_in};

/// The first word of a step.
#[derive(Clone, Copy, Debug, PartialEq, Eq)]
pub enum StepWord {
    Offer,
    Accept,
    Write,
    Fill,
    Read,
    Complete,
    Terminate,
    Attach,
    Request,
    Notify,
    Result,
    Object,
    Sequence,
    Fault,
    Cancel,
    Report,
    Reports,
    Next,
    Abort,
    Invoke,
    Release,
    Outcome,
    Forget,
    Deliver,
    End,
}

#[tactic(auto, unfolding(crate::specs::Steps::step_word_in))]
pub fn step_word(word: &str) -> Option<StepWord>
    ensures { result ≡ step_word_in word.now }
{
    match word {
        "offer" => Some(StepWord::Offer),
        "accept" => Some(StepWord::Accept),
        "write" => Some(StepWord::Write),
        "fill" => Some(StepWord::Fill),
        "read" => Some(StepWord::Read),
        "complete" => Some(StepWord::Complete),
        "terminate" => Some(StepWord::Terminate),
        "attach" => Some(StepWord::Attach),
        "request" => Some(StepWord::Request),
        "notify" => Some(StepWord::Notify),
        "result" => Some(StepWord::Result),
        "object" => Some(StepWord::Object),
        "sequence" => Some(StepWord::Sequence),
        "fault" => Some(StepWord::Fault),
        "cancel" => Some(StepWord::Cancel),
        "report" => Some(StepWord::Report),
        "reports" => Some(StepWord::Reports),
        "next" => Some(StepWord::Next),
        "abort" => Some(StepWord::Abort),
        "invoke" => Some(StepWord::Invoke),
        "release" => Some(StepWord::Release),
        "outcome" => Some(StepWord::Outcome),
        "forget" => Some(StepWord::Forget),
        "deliver" => Some(StepWord::Deliver),
        "end" => Some(StepWord::End),
        _ => None,
    }
}
