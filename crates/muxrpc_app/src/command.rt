//! The whole program over its words and streams.

ghost use Rattle.std.specs.Prelude.{◌≡◌, ◌≤◌, ◌⊎◌, ℕ, List, length, Some};
ghost use Rattle.wire_base.specs.Causes.{Rose};
ghost use Rattle.mux_run.specs.Run.{Terms};
ghost use Rattle.endpoint_run.specs.declared.steps.Step.{Step};
ghost use Rattle.script.specs.Found.{script_in, reads};
ghost use Rattle.stream_view.specs.View.{view_refusal};
ghost use Rattle.wire_base.specs.declared.frame.Version.{Version};
ghost use Rattle.muxrpc_app.specs.Words.{command_in};
ghost use Rattle.muxrpc_app.specs.Streams.{most_input};
ghost use Rattle.muxrpc_app.specs.Outcome.{Exits, view_status};
ghost use Rattle.muxrpc_app.specs.StatusText.{status_code};
ghost use Rattle.muxrpc_app.specs.declared.words.Command.TheVariants.{Replay, View};

use crate::run::run_plain;
use crate::standard_error::tell;
use std::alloc::Global;
use wire_base::{Sink, Source, Text};

/// Does what the words say, writes a line to `errors` where that didn't go well, and answers the exit status of the
/// process.
pub fn run_command<S: Source, K: Sink, E: Sink>(
    alloc: Global,
    words: &[Text],
    input: &mut S,
    output: &mut K,
    errors: &mut E,
) -> u8
    // The exit status is the code of the status with which the words ran, and its line is written.
    ensures exits { Exits words.now
        (record { held = S.held input.old; faults = S.faults input.old; ended = S.ended input.old })
        (record { held = S.held input.new; faults = S.faults input.new; ended = S.ended input.new })
        (record { given = K.given output.old; faults = K.faults output.old; flushed = K.flushed output.old })
        (record { given = K.given output.new; faults = K.faults output.new; flushed = K.flushed output.new })
        (record { given = E.given errors.old; faults = E.faults errors.old; flushed = E.flushed errors.old })
        (record { given = E.given errors.new; faults = E.faults errors.new; flushed = E.flushed errors.new })
        result }

    // A script within the limit is replayed, unless a call of the input or the output failed or memory ran out.
    ensures complete { (bytes : List ℕ) (terms : Terms) (steps : List Step) → command_in words.now ≡ Some Replay →
        S.held input.old ≡ Some bytes → length bytes ≤ most_input → script_in bytes ≡ reads terms steps →
        ¬ (Rose (S.faults input.old) (S.faults input.new)) → ¬ (Rose (K.faults output.old) (K.faults output.new)) →
        (result ≡ 0) ⊎ (result ≡ 7) }

    // So is a capture viewed, and the code is that of the first token that breaks a rule, if there is one.
    ensures complete_view { (bytes : List ℕ) (version : Version) → command_in words.now ≡ Some (View version) →
        S.held input.old ≡ Some bytes → length bytes ≤ most_input →
        ¬ (Rose (S.faults input.old) (S.faults input.new)) → ¬ (Rose (K.faults output.old) (K.faults output.new)) →
        (result ≡ status_code (view_status (view_refusal version bytes))) ⊎ (result ≡ 7) }
{
    let status = run_plain(alloc, words, input, output);
    tell(&status, errors)
}
