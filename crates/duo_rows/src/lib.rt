//! Two joined ends, what their steps answer and what is told then, as tables. Only tests and their helpers live here.
#![tactic(auto)]

#[cfg(test)]
mod answers;
#[cfg(test)]
mod channels;
#[cfg(test)]
mod connections;
#[cfg(test)]
mod rows;
#[cfg(test)]
mod steps;
#[cfg(test)]
mod streams;
#[cfg(test)]
mod versions;
