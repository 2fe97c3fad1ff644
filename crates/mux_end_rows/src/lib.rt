//! What happens at a multiplexing end, as tables: each row is a call or a frame of the peer, its answer, and the bytes that
//! are sent then. Only tests and their helpers live here.
#![tactic(auto)]

#[cfg(test)]
mod answers;
#[cfg(test)]
mod closing;
#[cfg(test)]
mod crowds;
#[cfg(test)]
mod frames;
#[cfg(test)]
mod many;
#[cfg(test)]
mod refusals;
#[cfg(test)]
mod rows;
#[cfg(test)]
mod words;
#[cfg(test)]
mod worked;
