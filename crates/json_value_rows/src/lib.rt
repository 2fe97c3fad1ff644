//! Values with their JSON texts, and texts that are refused, as tables. Only tests and their helpers live here.
#![tactic(auto)]

#[cfg(test)]
mod rows;
