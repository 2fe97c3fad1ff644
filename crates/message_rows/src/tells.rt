//! What is told of a case: each names what is done, and with which words.

mod bodies;
mod calls;
mod messages;
mod methods;
pub mod readers;

use row_text::{first, word};
use std::alloc::Global;
use std::test::Fail;

fn of_body(alloc: Global, name: &str, words: &str) -> Result<String, Fail> {
    match name {
        "writes" => bodies::writes(alloc, words),
        "rewrites" => bodies::rewrites(alloc, words),
        "reads" => bodies::reads(alloc, words),
        "nests" => bodies::nests(alloc, words),
        "fills" => bodies::fills(alloc, words),
        _ => word(alloc, "no such case"),
    }
}

fn of_call(alloc: Global, name: &str, words: &str) -> Result<String, Fail> {
    match name {
        "asks" => calls::asks(alloc),
        "invokes" => calls::invokes(alloc, words),
        "releases" => calls::releases(alloc, words),
        "gives" => calls::gives(alloc, words),
        _ => of_body(alloc, name, words),
    }
}

fn of_stream(alloc: Global, name: &str, words: &str) -> Result<String, Fail> {
    match name {
        "streams" => readers::streams(alloc, words),
        "pieces" => readers::pieces(alloc, words),
        "fronts" => readers::fronts(alloc, words),
        "wraps" => readers::wraps(alloc, words),
        _ => of_call(alloc, name, words),
    }
}

pub fn told(alloc: Global, case: &str) -> Result<String, Fail> {
    let (name, words) = first(case);
    match name {
        "packs" => messages::packs(alloc, words),
        "unpacks" => messages::unpacks(alloc, words),
        "means" => methods::means(alloc, words),
        "reserves" => methods::reserves(alloc, words),
        "reserves-value" => methods::reserves_value(alloc, words),
        _ => of_stream(alloc, name, words),
    }
}
