//! What the words say, done.

ghost use Rattle.std.specs.Prelude.{◌≡◌, ◌≤◌, ◌↔◌, ◌⊎◌, ℕ, List, length, Some, None};
ghost use Rattle.wire_base.specs.Causes.{Rose};
ghost use Rattle.wire_base.specs.declared.frame.Version.{Version};
ghost use Rattle.mux_run.specs.Run.{Terms};
ghost use Rattle.endpoint_run.specs.declared.steps.Step.{Step};
ghost use Rattle.script.specs.Found.{script_in, reads};
ghost use Rattle.stream_view.specs.View.{view_refusal};
ghost use Rattle.muxrpc_app.specs.Words.{command_in};
ghost use Rattle.muxrpc_app.specs.Streams.{most_input};
ghost use Rattle.muxrpc_app.specs.Outcome.{Does, view_status};
ghost use Rattle.muxrpc_app.specs.declared.words.Command.{Command as TheCommand};

use crate::replay::replay;
use crate::status::Status;
use crate::view::view;
use crate::words::{Command, command_of};
use std::alloc::Global;
use wire_base::{Sink, Source, Text};

/// Does what the words say: `replay` reads a script from the input and writes the report of its run to the output;
/// `view` reads a captured stream and writes its view.
///
/// The first word is the program's name. Nothing is written but the report or the view.
#[tactic(auto, using(crate::proofs::Captures::completes))]
pub fn run_plain<S: Source, K: Sink>(
    alloc: Global,
    words: &[Text],
    input: &mut S,
    output: &mut K,
) -> Status
    // Usage comes exactly where the words are no command, and then nothing is read or written.
    ensures usage { (result ≡ Status.Usage) ↔ (command_in words.now ≡ None) }
    ensures untouched { result ≡ Status.Usage → (input.new ≡ input.old) × (output.new ≡ output.old) }

    // What was read and written, and the cause of every other status.
    ensures outcome { (c : TheCommand) → command_in words.now ≡ Some c → Does c
        (record { held = S.held input.old; faults = S.faults input.old; ended = S.ended input.old })
        (record { held = S.held input.new; faults = S.faults input.new; ended = S.ended input.new })
        (record { given = K.given output.old; faults = K.faults output.old; flushed = K.flushed output.old })
        (record { given = K.given output.new; faults = K.faults output.new; flushed = K.flushed output.new })
        result }

    // A script within the limit is replayed, unless a call of the input or the output failed or memory ran out.
    ensures complete { (bytes : List ℕ) (terms : Terms) (steps : List Step) → command_in words.now ≡ Some Command.Replay →
        S.held input.old ≡ Some bytes → length bytes ≤ most_input → script_in bytes ≡ reads terms steps →
        ¬ (Rose (S.faults input.old) (S.faults input.new)) → ¬ (Rose (K.faults output.old) (K.faults output.new)) →
        (result ≡ Status.Done) ⊎ (result ≡ Status.OutOfMemory) }

    // So is a capture viewed, and the status is that of the first token that breaks a rule, if there is one.
    ensures complete_view { (bytes : List ℕ) (version : Version) → command_in words.now ≡ Some (Command.View version) →
        S.held input.old ≡ Some bytes → length bytes ≤ most_input →
        ¬ (Rose (S.faults input.old) (S.faults input.new)) → ¬ (Rose (K.faults output.old) (K.faults output.new)) →
        (result ≡ view_status (view_refusal version bytes)) ⊎ (result ≡ Status.OutOfMemory) }
{
    match command_of(words) {
        None => Status::Usage,
        Some(Command::Replay) => replay(alloc, input, output),
        Some(Command::View(version)) => view(alloc, version, input, output),
    }
}
