//! What the program answers and writes, as tables: scripts with their reports, captured streams with their views, and words
//! with their statuses. Only tests and their helpers live here.
#![tactic(auto)]

#[cfg(test)]
mod connections;
#[cfg(test)]
mod long_scripts;
#[cfg(test)]
mod objects;
#[cfg(test)]
mod other_makes;
#[cfg(test)]
mod progress;
#[cfg(test)]
mod releases;
#[cfg(test)]
mod reports;
#[cfg(test)]
mod runs;
#[cfg(test)]
mod scripts;
#[cfg(test)]
mod sequences;
#[cfg(test)]
mod statuses;
#[cfg(test)]
mod views;
