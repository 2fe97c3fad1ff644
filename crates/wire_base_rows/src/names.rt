//! Numbers and names of reasons and refusals.

use std::alloc::Global;
use std::test::Fail;
use wire_base::{Cause, Reason, Refusal};

fn numbered(alloc: Global, number: u32, name: &str) -> Result<String, Fail> {
    Ok(format!(in alloc; "{number} {name}")?)
}

fn number_of_reason(reason: Reason) -> u32 {
    reason.number()
}

fn name_of_reason(reason: Reason) -> &'static str {
    reason.name()
}

fn of_reason(alloc: Global, reason: Reason) -> Result<String, Fail> {
    numbered(alloc, number_of_reason(reason), name_of_reason(reason))
}

fn number_of_refusal(refusal: Refusal) -> u32 {
    refusal.number()
}

fn name_of_refusal(refusal: Refusal) -> &'static str {
    refusal.name()
}

fn of_refusal(alloc: Global, refusal: Refusal) -> Result<String, Fail> {
    numbered(alloc, number_of_refusal(refusal), name_of_refusal(refusal))
}

/// The number and the name of what a word stands for.
pub fn of_name(alloc: Global, word: &str) -> Result<String, Fail> {
    match word {
        "Unused" => of_reason(alloc, Reason::Unused),
        "BadShape" => of_reason(alloc, Reason::BadShape),
        "BadShape2" => of_reason(alloc, Reason::BadShape2),
        "WindowExceeded" => of_reason(alloc, Reason::WindowExceeded),
        "BadId62" => of_reason(alloc, Reason::BadId62),
        "DuplicateRequest" => of_reason(alloc, Reason::DuplicateRequest),
        "NotOpen" => of_refusal(alloc, Refusal::NotOpen),
        "InputEnded" => of_refusal(alloc, Refusal::Ended(Cause::InputEnded)),
        "BadPage" => of_refusal(alloc, Refusal::BadPage),
        _ => Err(Fail::new("no such name")),
    }
}
