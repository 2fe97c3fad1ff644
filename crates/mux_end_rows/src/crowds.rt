//! Many channels in one row: the row names the first and the last id, and then a window.

use crate::rows::{comes, goes_out, offers};
use mux_end::MuxEnd;
use row_text::{first, size, word};
use std::alloc::Global;
use std::test::Fail;

/// Whether an offer draws this id. What is sent isn't looked at.
fn draws(alloc: Global, end: &mut MuxEnd, id: u32, window: u32) -> Result<bool, Fail> {
    let wanted = format!(in alloc; "own{id}")?;
    let told = offers(alloc, end, "a", window)?;
    goes_out(end);
    Ok(told.as_str() == wanted.as_str())
}

/// Whether the arrival of a frame is told so.
fn is_told(alloc: Global, end: &mut MuxEnd, frame: &str, wanted: &str) -> Result<bool, Fail> {
    let told = comes(alloc, end, frame)?;
    Ok(told.as_str() == wanted)
}

/// Whether the peer's offer with this id is heard.
fn is_offered(alloc: Global, end: &mut MuxEnd, id: u32) -> Result<bool, Fail> {
    let frame = format!(in alloc; "9400cd{id:04x}01c40492a16108")?;
    let wanted = format!(in alloc; "offered peer{id}")?;
    is_told(alloc, end, frame.as_str(), wanted.as_str())
}

/// Whether the peer's termination closes this own channel. What is sent isn't looked at.
fn is_closed(alloc: Global, end: &mut MuxEnd, id: u32) -> Result<bool, Fail> {
    let frame = format!(in alloc; "9304cd{id:04x}ff")?;
    let wanted = format!(in alloc; "closed own{id}")?;
    let closed = is_told(alloc, end, frame.as_str(), wanted.as_str())?;
    goes_out(end);
    Ok(closed)
}

fn happens(
    alloc: Global,
    end: &mut MuxEnd,
    name: &str,
    id: u32,
    window: u32,
) -> Result<bool, Fail> {
    match name {
        "all-draw" => draws(alloc, end, id, window),
        "all-are-offered" => is_offered(alloc, end, id),
        _ => is_closed(alloc, end, id),
    }
}

/// Whether this happens to all ids from the first to the last.
fn all_happen(
    alloc: Global,
    end: &mut MuxEnd,
    name: &str,
    (from, to): (u32, u32),
    window: u32,
) -> Result<bool, Fail> {
    for id in from..=to {
        if !happens(alloc, end, name, id, window)? {
            return Ok(false);
        }
    }
    Ok(true)
}

pub fn crowds(alloc: Global, end: &mut MuxEnd, name: &str, words: &str) -> Result<String, Fail> {
    let (from, words) = first(words);
    let (to, window) = first(words);
    let ids = (size(from), size(to));
    let all = all_happen(alloc, end, name, ids, size(window))?;
    word(alloc, if all { "ok" } else { "not all" })
}
