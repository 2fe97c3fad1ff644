//! Rows of text: a case, and what is told of it.

use crate::tells::{readers, told};
use message_framing::{Framing, MessageReader};
use row_text::parted;
use std::alloc::Global;
use std::process::Abort;
use std::test::Fail;

fn is_told(rt: &impl Abort, told: &str, wanted: &str, row: &str) {
    assert_eq!(rt; told, wanted, "at {row}");
}

/// A row is a case, and what is to be told of it, behind a bar.
fn holds_once(rt: &impl Abort, alloc: Global, row: &str) -> Result<(), Fail> {
    let (case, wanted) = parted(row);
    is_told(rt, told(alloc, case)?.as_str(), wanted, row);
    Ok(())
}

/// Each row holds by itself.
pub fn hold(rt: &impl Abort, alloc: Global, rows: &str) -> Result<(), Fail> {
    for row in rows.lines() {
        if !row.trim().is_empty() {
            holds_once(rt, alloc, row)?;
        }
    }
    Ok(())
}

fn lives_once(
    rt: &impl Abort,
    alloc: Global,
    reader: &mut MessageReader,
    row: &str,
) -> Result<(), Fail> {
    let (case, wanted) = parted(row);
    is_told(
        rt,
        readers::happens(alloc, reader, case)?.as_str(),
        wanted,
        row,
    );
    Ok(())
}

fn lives(
    rt: &impl Abort,
    alloc: Global,
    reader: &mut MessageReader,
    rows: &str,
) -> Result<(), Fail> {
    for row in rows.lines() {
        if !row.trim().is_empty() {
            lives_once(rt, alloc, reader, row)?;
        }
    }
    Ok(())
}

/// One reader of messages behind header parts lives through the rows.
pub fn a_life(rt: &impl Abort, alloc: Global, rows: &str) -> Result<(), Fail> {
    let mut reader = readers::start(alloc, Framing::Header);
    lives(rt, alloc, &mut reader, rows)
}

/// The bodies of the rows, each behind its header part, are read in pieces of this size, each at its place.
pub fn is_exchanged(rt: &impl Abort, alloc: Global, size: usize, rows: &str) -> Result<(), Fail> {
    let told = readers::exchanged(alloc, size, rows)?;
    is_told(rt, told.as_str(), rows, "the exchange");
    Ok(())
}
