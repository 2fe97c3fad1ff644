//! Heads of tokens and numbers, read and written.

use crate::rows::{Claim, hold};
use std::test::Fail;

#[test]
fn heads_are_read_whole_or_cut(rt: HostRuntime) -> Result<(), Fail> {
    let rows = "
        00 | 0
        7f | 127
        80 | map 0
        8f | map 15
        90 | array 0
        9f | array 15
        a0 | str 0
        bf | str 31
        c0 | nil
        c2 | false
        c3 | true
        c4ff | bin 255
        c50102 | bin 258
        c600010002 | bin 65538
        cc80 | 128
        cd1234 | 4660
        cefffffffe | 4294967294
        cf0102030405060708 | 72623859790382856
        cfffffffffffffffff | 18446744073709551615
        d080 | -128
        d005 | 5
        d1fffe | -2
        d280000000 | -2147483648
        d38000000000000000 | -9223372036854775808
        d920 | str 32
        da0100 | str 256
        dbffffffff | str 4294967295
        dc0010 | array 16
        dd00010000 | array 65536
        de0010 | map 16
        df00010000 | map 65536
        e0 | -32
        f0 | -16
        ff | -1";
    hold(&rt, rt.alloc(), Claim::Reads, rows)
}

#[test]
fn heads_are_refused_by_the_first_byte(rt: HostRuntime) -> Result<(), Fail> {
    let rows = "
        c1 | refused Unused
        c7 | refused Ext
        c9 | refused Ext
        ca | refused Float
        cb | refused Float
        d4 | refused Ext
        d8 | refused Ext";
    hold(&rt, rt.alloc(), Claim::Fronts, rows)
}

#[test]
fn numbers_are_appended_shortest(rt: HostRuntime) -> Result<(), Fail> {
    let rows = "
        0 | 00
        127 | 7f
        128 | cc80
        255 | ccff
        256 | cd0100
        65535 | cdffff
        65536 | ce00010000
        4294967295 | ceffffffff
        4294967296 | cf0000000100000000
        18446744073709551615 | cfffffffffffffffff
        -1 | ff
        -32 | e0
        -33 | d0df
        -128 | d080
        -129 | d1ff7f
        -32768 | d18000
        -32769 | d2ffff7fff
        -2147483648 | d280000000
        -2147483649 | d3ffffffff7fffffff
        -9223372036854775808 | d38000000000000000";
    hold(&rt, rt.alloc(), Claim::Spells, rows)
}

#[test]
fn lengths_are_appended_shortest(rt: HostRuntime) -> Result<(), Fail> {
    let rows = "
        str 31 32 256 65536 | bfd920da0100db00010000
        bin 0 256 65536     | c400c50100c600010000
        array 15 16 65536   | 9fdc0010dd00010000
        map 15 16 65536     | 8fde0010df00010000";
    hold(&rt, rt.alloc(), Claim::Lengths, rows)
}
