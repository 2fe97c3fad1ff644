//! Messages with their bodies and their framings, what methods ask for, and what calls say, as tables. Only tests and their helpers
//! live here: `rows` reads a table, `words` says what its words stand for, and `tells` what is told of a row.
#![tactic(auto)]

#[cfg(test)]
mod bodies;
#[cfg(test)]
mod calls;
#[cfg(test)]
mod framings;
#[cfg(test)]
mod messages;
#[cfg(test)]
mod methods;
#[cfg(test)]
mod rows;
#[cfg(test)]
mod tells;
#[cfg(test)]
mod words;
