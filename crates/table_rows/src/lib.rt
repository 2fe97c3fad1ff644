//! Requests, sequences with their limits, and handles, as tables. Only tests and their helpers live here.
//!
//! `rows` reads the rows, of which each is a call and what a table answers; `values` reads words that `row_words` doesn't, and
//! `answers` tells such answers. The calls of `sides`, the handles of both sides of a connection, stand alone; those of the
//! other tables stand above their rows.
#![tactic(auto)]

#[cfg(test)]
mod answers;
#[cfg(test)]
mod handles;
#[cfg(test)]
mod limits;
#[cfg(test)]
mod requests;
#[cfg(test)]
mod rows;
#[cfg(test)]
mod sequences;
#[cfg(test)]
mod sides;
#[cfg(test)]
mod values;
