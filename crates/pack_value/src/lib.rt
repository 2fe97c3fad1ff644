//! Values as MessagePack, both ways.
#![tactic(auto)]

mod decoder;
mod encode_fault;
mod encoder;
mod laws;
mod limits;
mod step;

pub use decoder::decode;
pub use encode_fault::EncodeFault;
pub use encoder::encode;
pub use laws::{
    fronts_are_known, refusals_stay, shortest_is_read, spelled_fits, spellings_are_apart,
};
pub use step::Step;
