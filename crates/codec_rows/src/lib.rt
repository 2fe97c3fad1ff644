//! Frames of each version with their spellings, handshakes, and bytes that are refused, as tables, and the views of
//! worked captures. Only tests and their helpers live here.
#![tactic(auto)]

#[cfg(test)]
mod any;
#[cfg(test)]
mod fixed;
#[cfg(test)]
mod fronts;
#[cfg(test)]
mod handshakes;
#[cfg(test)]
mod pack;
#[cfg(test)]
mod rows;
#[cfg(test)]
mod views;
