//! Values at the limits and past them, large bodies, and what is written behind old bytes.

use crate::rows::{Claim, hold};
use std::test::Fail;

#[test]
fn the_greatest_length_is_taken(rt: HostRuntime) -> Result<(), Fail> {
    let spelled = "zeros16777216 | c601000000 00000000000000000000000000000000*1048576";
    hold(&rt, rt.alloc(), Claim::Spells, spelled)?;
    let spelling = "c601000000 00000000000000000000000000000000*1048576";
    hold(&rt, rt.alloc(), Claim::ReadsBack, spelling)
}

#[test]
fn values_past_the_limits_are_refused(rt: HostRuntime) -> Result<(), Fail> {
    let rows = "
        1 in 128             | too deep | 6f6c64
        zeros16777217        | too long | 6f6c64
        zeros16777217 in 128 | too deep | 6f6c64";
    hold(&rt, rt.alloc(), Claim::Appends, rows)
}

#[test]
fn a_map_is_appended(rt: HostRuntime) -> Result<(), Fail> {
    let row = "é=-33 | written | 6f6c64 81a2c3a9d0df";
    hold(&rt, rt.alloc(), Claim::Appends, row)
}

// 16 MiB each: small maps in an array, and pairs in one map.
#[test]
fn a_large_body_is_read(rt: HostRuntime) -> Result<(), Fail> {
    let rows = "
        dd00155555 82a16101a3626364930102c0*1398101
        df00333333 a26b319190*3355443";
    hold(&rt, rt.alloc(), Claim::ReadsBack, rows)
}
