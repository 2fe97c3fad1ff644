//! The commands, and the words that ask for them.

ghost use Rattle.std.specs.Prelude.{◌≡◌};
ghost use Rattle.muxrpc_app.specs.Words.{version_in, joined_in, alone_in, joined_command_in, parted_command_in, command_in};

use wire_base::{Text, Version};

/// What the words ask for: a script to be replayed, or a captured stream of a version to be shown.
#[derive(Clone, Copy, Debug, PartialEq, Eq)]
pub enum Command {
    Replay,
    View(Version),
}

fn version(word: &str) -> Option<Version>
    ensures { result ≡ version_in word.now }
{
    match word {
        "1" => Some(Version::One),
        "2" => Some(Version::Two),
        "3" => Some(Version::Three),
        _ => None,
    }
}

/// The version of an option in one word.
fn joined(word: &str) -> Option<Version>
    ensures { result ≡ joined_in word.now }
{
    match word {
        "--version=1" => Some(Version::One),
        "--version=2" => Some(Version::Two),
        "--version=3" => Some(Version::Three),
        _ => None,
    }
}

/// The command that one word is.
fn alone(word: &str) -> Option<Command>
    ensures { result ≡ alone_in word.now }
{
    match word {
        "replay" => Some(Command::Replay),
        _ => None,
    }
}

/// The command of a word and an option in one word.
fn joined_command(word: &str, option: &str) -> Option<Command>
    ensures { result ≡ joined_command_in word.now option.now }
{
    match word {
        "view" => Some(Command::View(joined(option)?)),
        _ => None,
    }
}

/// The command of a word and an option in two words.
fn parted_command(word: &str, option: &str, number: &str) -> Option<Command>
    ensures { result ≡ parted_command_in word.now option.now number.now }
{
    if word == "view" && option == "--version" {
        Some(Command::View(version(number)?))
    } else {
        None
    }
}

/// The command that the words are, of which the first is the program's name.
pub(crate) fn command_of(words: &[Text]) -> Option<Command>
    ensures { result ≡ command_in words.now }
{
    match words {
        [_, word] => alone(word.as_str()),
        [_, word, option] => joined_command(word.as_str(), option.as_str()),
        [_, word, option, number] => {
            parted_command(word.as_str(), option.as_str(), number.as_str())
        }
        _ => None,
    }
}
