//! Why a script is refused.

ghost use Rattle.std.specs.Prelude.{◌≡◌};
ghost use Rattle.script.specs.Numbers.{script_reason_number};

/// Why a script is refused.
#[derive(Clone, Copy, Debug, PartialEq, Eq)]
pub enum ScriptReason {
    /// 90: a line of the head is missing or wrong. A missing line has the number after the last.
    BadHead,
    /// 91: the line's first word is no step word of the format.
    UnknownStep,
    /// 92: a word is missing, too many or not of its form.
    BadWord,
    /// 93: behind words of their forms the rest of the line isn't the JSON text that it has to be.
    BadJson,
    /// 95: the line isn't UTF-8.
    NotUtf8,
    /// 96: the script has more than 100,000 steps.
    TooManySteps,
    /// 97: the last line has no line feed.
    NoLineEnd,
}

impl ScriptReason {
    /// The number that status lines print.
    pub fn number(&self) -> u32
        ensures { result ≡ script_reason_number self.now }
    {
        match self {
            ScriptReason::BadHead => 90,
            ScriptReason::UnknownStep => 91,
            ScriptReason::BadWord => 92,
            ScriptReason::BadJson => 93,
            ScriptReason::NotUtf8 => 95,
            ScriptReason::TooManySteps => 96,
            ScriptReason::NoLineEnd => 97,
        }
    }
}
