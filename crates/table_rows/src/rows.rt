//! Rows of text, and the table that lives through them.

use row_text::{parted, word};
use std::alloc::Global;
use std::process::Abort;
use std::test::Fail;

/// What a connection keeps, by the words of its calls.
pub trait Table: Drop {
    /// What a new connection keeps.
    fn empty(alloc: Global) -> Self;

    /// What this call answers.
    fn call(&mut self, alloc: Global, call: &str) -> Result<String, Fail>;
}

fn begins_anew<T: Table>(alloc: Global, table: &mut T) -> Result<String, Fail> {
    *table = T::empty(alloc);
    word(alloc, "ok")
}

fn told<T: Table>(alloc: Global, table: &mut T, call: &str) -> Result<String, Fail> {
    match call {
        "anew" => begins_anew(alloc, table),
        call => table.call(alloc, call),
    }
}

fn is_told(rt: &impl Abort, told: &str, wanted: &str, row: &str) {
    assert_eq!(rt; told, wanted, "at {row}");
}

/// A row is a call, and what it answers, behind a bar.
fn lives_once<T: Table>(
    rt: &impl Abort,
    alloc: Global,
    table: &mut T,
    row: &str,
) -> Result<(), Fail> {
    let (call, wanted) = parted(row);
    let told = told(alloc, table, call)?;
    is_told(rt, told.as_str(), wanted, row);
    Ok(())
}

fn lives<T: Table>(rt: &impl Abort, alloc: Global, table: &mut T, rows: &str) -> Result<(), Fail> {
    for row in rows.lines() {
        if !row.trim().is_empty() {
            lives_once(rt, alloc, table, row)?;
        }
    }
    Ok(())
}

fn live<T: Table>(
    rt: &impl Abort,
    alloc: Global,
    table: &mut T,
    parts: &[&str],
) -> Result<(), Fail> {
    for rows in parts {
        lives(rt, alloc, table, rows)?;
    }
    Ok(())
}

/// A table lives through the rows of each part. The call `anew` puts an empty one in its place.
pub fn a_life<T: Table>(rt: &impl Abort, alloc: Global, parts: &[&str]) -> Result<(), Fail> {
    let mut table = T::empty(alloc);
    live(rt, alloc, &mut table, parts)
}
