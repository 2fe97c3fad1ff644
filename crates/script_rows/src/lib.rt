//! Scripts with what they say, as tables. Only tests and their helpers live here.
#![tactic(auto)]

#[cfg(test)]
mod limits;
#[cfg(test)]
mod refusing;
#[cfg(test)]
mod scripts;
#[cfg(test)]
mod steps;
