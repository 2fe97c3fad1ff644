//! Two ends with connections, what each of them answers and what comes to it, as tables. Only tests and their helpers live
//! here.
#![tactic(auto)]

#[cfg(test)]
mod answers;
#[cfg(test)]
mod attaching;
#[cfg(test)]
mod calls;
#[cfg(test)]
mod closing;
#[cfg(test)]
mod objects;
#[cfg(test)]
mod order;
#[cfg(test)]
mod pieces;
#[cfg(test)]
mod progress;
#[cfg(test)]
mod refusing;
#[cfg(test)]
mod rows;
#[cfg(test)]
mod sequences;
#[cfg(test)]
mod values;
#[cfg(test)]
mod words;
