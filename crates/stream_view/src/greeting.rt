//! The handshake at the front of a captured stream.

ghost use Rattle.stream_view.specs.Answers.{Greets};
ghost use Rattle.stream_view.specs.View.{greeting};

use mux_handshake::{Shaken, shake};
use wire_base::{Reason, Version};

/// What stands at the front of the bytes, whatever the nonce. An end whose own nonce it is would refuse it, and then another end doesn't.
#[tactic(auto, using(crate::proofs::Nonces::greetings))]
pub(crate) fn greeting(version: Version, bytes: &[u8]) -> Shaken
    ensures { Greets result bytes.now (greeting version bytes.now) }
{
    match shake(version, &[0; 16], bytes) {
        Shaken::Refused(place, reason) => match reason {
            Reason::SameNonce => shake(version, &[1; 16], bytes),
            _ => Shaken::Refused(place, reason),
        },
        shaken => shaken,
    }
}
