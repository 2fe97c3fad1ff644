//! Objects that are passed by handle: the handles that this end made, and those that it adopted from the peer.
#![tactic(auto)]

mod both;
mod holder;
mod laws;
mod members;
mod offered;
mod own_handle;
mod owner;
mod peer_handle;

pub use both::{check_handle, on_release, release, standing};
pub use holder::Holder;
pub use laws::adopted_handles_have_rising_numbers;
pub use offered::{Offered, offered_in};
pub use owner::Owner;
