//! Texts and values, and the names of reasons and refusals.

use crate::rows::{Claim, hold};
use std::test::Fail;

/// The last two end inside a character, and spell a surrogate.
#[test]
fn texts_are_utf8(rt: HostRuntime) -> Result<(), Fail> {
    let rows = r#"
        utf8 68c3a9     | "hé"
        texts 68c3a9 hé | same
        names 68c3a9    | same
        utf8 c328       | BadUtf8
        utf8 c3         | BadUtf8
        utf8 eda080     | BadUtf8
        faults          | the bytes are not UTF-8, out of memory"#;
    hold(&rt, rt.alloc(), Claim::Calls, rows)
}

#[test]
fn the_last_pair_of_a_key_counts(rt: HostRuntime) -> Result<(), Fail> {
    let rows = "
        a a=false b=false a=true | true
        b a=false b=false a=true | false
        c a=false b=false a=true | none";
    hold(&rt, rt.alloc(), Claim::Last, rows)
}

#[test]
fn values_are_copied(rt: HostRuntime) -> Result<(), Fail> {
    let items = "map:key=-1 bytes:x text:y nil";
    hold(&rt, rt.alloc(), Claim::Copies, items)
}

#[test]
fn reasons_have_numbers_and_names(rt: HostRuntime) -> Result<(), Fail> {
    let rows = "
        Unused           | 1 Unused
        BadShape         | 11 BadShape
        BadShape2        | 23 BadShape
        WindowExceeded   | 32 WindowExceeded
        BadId62          | 62 BadId
        DuplicateRequest | 72 DuplicateRequest
        NotOpen          | 30 NotOpen
        InputEnded       | 42 Ended
        BadPage          | 89 BadPage";
    hold(&rt, rt.alloc(), Claim::Names, rows)
}

#[test]
fn nothing_takes_no_memory(rt: HostRuntime) -> Result<(), Fail> {
    let rows = r#"
        bytes |
        text  | ""
        utf8  | ""
        items | 0
        pairs | 0"#;
    hold(&rt, rt.alloc(), Claim::Calls, rows)
}
