//! Trials of two joined ends over long scripts of drawn steps. Only tests and their helpers live here: they look at an
//! end through its public calls and at the bytes that it emits, read by the layouts alone.
#![tactic(auto)]

#[cfg(test)]
mod channels;
#[cfg(test)]
mod draws;
#[cfg(test)]
mod flight;
#[cfg(test)]
mod losses;
#[cfg(test)]
mod moves;
#[cfg(test)]
mod sums;
#[cfg(test)]
mod tests;
#[cfg(test)]
mod trial;
