//! The life of a channel as a table: what happens, how it is answered, where the channel stands then, and what is sent.
//! Only tests and their helpers live here.
#![tactic(auto)]

#[cfg(test)]
mod answers;
#[cfg(test)]
mod lives;
#[cfg(test)]
mod rows;
