//! Heads of tokens, numbers, texts and values of wire_base, and its sources and sinks at work, as tables. Only tests and their
//! helpers live here.
//!
//! `heads`, `texts`, `streams` and `standard` hold the tables. `rows` reads the first two, by `tokens`, `text_calls`, `values`
//! and `names`, and `calls` reads those of sources and sinks. `words` has the numbers that `row_text` hasn't.
#![tactic(auto)]

#[cfg(test)]
mod calls;
#[cfg(test)]
mod heads;
#[cfg(test)]
mod names;
#[cfg(test)]
mod rows;
#[cfg(test)]
mod standard;
#[cfg(test)]
mod streams;
#[cfg(test)]
mod text_calls;
#[cfg(test)]
mod texts;
#[cfg(test)]
mod tokens;
#[cfg(test)]
mod values;
#[cfg(test)]
mod words;
