//! What an end of a connection answers and says, and what a message is to it, as tables. Only tests and their helpers live
//! here.
#![tactic(auto)]

#[cfg(test)]
mod answers;
#[cfg(test)]
mod calls;
#[cfg(test)]
mod ending;
#[cfg(test)]
mod exchanges;
#[cfg(test)]
mod heeding;
#[cfg(test)]
mod messages;
#[cfg(test)]
mod objects;
#[cfg(test)]
mod pieces;
#[cfg(test)]
mod refusing;
#[cfg(test)]
mod rows;
#[cfg(test)]
mod sequences;
#[cfg(test)]
mod words;
