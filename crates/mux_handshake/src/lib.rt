//! The handshakes of versions 1 and 2, which tell by their nonces which side's ids are odd.
#![tactic(auto)]

mod greeting;
mod laws;
mod shaken;
mod shaking;

pub use greeting::hello;
pub use laws::{handshake_is_steady, handshake_refuses_the_first, hello_is_a_handshake};
pub use shaken::Shaken;
pub use shaking::shake;
