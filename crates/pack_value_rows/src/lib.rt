//! Values with their spellings in MessagePack, and bytes that are refused, as tables. Only tests and their helpers live here.
//!
//! `spellings` and `limits` hold the tables, `rows` reads them. `values` makes values, writes them and tells what decoding
//! answers.
#![tactic(auto)]

#[cfg(test)]
mod limits;
#[cfg(test)]
mod rows;
#[cfg(test)]
mod spellings;
#[cfg(test)]
mod values;
