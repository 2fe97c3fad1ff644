//! Values with their spellings, and bytes that are refused.

use crate::rows::{Claim, hold};
use std::test::Fail;

#[test]
fn numbers_at_the_edges(rt: HostRuntime) -> Result<(), Fail> {
    let rows = "
        0 | 00
        127 | 7f
        128 | cc80
        255 | ccff
        256 | cd0100
        300 | cd012c
        65535 | cdffff
        65536 | ce00010000
        4294967295 | ceffffffff
        4294967296 | cf0000000100000000
        9223372036854775807 | cf7fffffffffffffff
        9223372036854775808 | cf8000000000000000
        18446744073709551615 | cfffffffffffffffff
        -1 | ff
        -31 | e1
        -32 | e0
        -33 | d0df
        -127 | d081
        -128 | d080
        -129 | d1ff7f
        -32768 | d18000
        -32769 | d2ffff7fff
        -2147483648 | d280000000
        -2147483649 | d3ffffffff7fffffff
        -9223372036854775807 | d38000000000000001
        -9223372036854775808 | d38000000000000000";
    hold(&rt, rt.alloc(), Claim::Spells, rows)
}

#[test]
fn every_width_is_read(rt: HostRuntime) -> Result<(), Fail> {
    let rows = "
        c0 | c0
        c2 | c2
        c3 | c3
        7f | 7f
        e0 | e0
        cc05 | 05
        cd0005 | 05
        ce0000012c | cd012c
        cf00000000000000c8 | ccc8
        cfffffffffffffffff | cfffffffffffffffff
        d005 | 05
        d0ff | ff
        d1ff80 | d080
        d10100 | cd0100
        d200000005 | 05
        d2ffffffdf | d0df
        d3ffffffffffffffe0 | e0
        d37fffffffffffffff | cf7fffffffffffffff
        a0 | a0
        d90161 | a161
        da0002c3a9 | a2c3a9
        db00000000 | a0
        c402ffc1 | c402ffc1
        c5000180 | c40180
        c600000000 | c400
        90 | 90
        93c09101a162 | 93c09101a162
        dc000201cc02 | 920102
        dd00000001c3 | 91c3
        80 | 80
        81a16b90 | 81a16b90
        de0001d9016bc2 | 81a16bc2
        df00000001db000000016bff | 81a16bff
        82a16b01a16b02 | 82a16b01a16b02
        81a16201 | 81a16201
        82a17a01a16102 | 82a17a01a16102
        9181a092c080 | 9181a092c080";
    hold(&rt, rt.alloc(), Claim::Reads, rows)
}

#[test]
fn lengths_at_the_edges(rt: HostRuntime) -> Result<(), Fail> {
    let rows = "
        a0 61*0
        bf 61*31
        d920 61*32
        d9ff 61*255
        da0100 61*256
        daffff 61*65535
        db00010000 61*65536
        c400 ff*0
        c4ff ff*255
        c50100 ff*256
        c5ffff ff*65535
        c600010000 ff*65536
        90 c0*0
        9f c0*15
        dc0010 c0*16
        dcffff c0*65535
        dd00010000 c0*65536
        80 a0c0*0
        8f a0c0*15
        de0010 a0c0*16
        deffff a0c0*65535
        df00010000 a0c0*65536";
    hold(&rt, rt.alloc(), Claim::Edge, rows)
}

/// The first texts that aren't UTF-8 end inside a character, begin inside one, and spell a surrogate.
#[test]
fn refusals_come_when_they_are_known(rt: HostRuntime) -> Result<(), Fail> {
    let rows = "
        c1           |          | 0 Unused
        9201c1       |          | 2 Unused
        81c1         |          | 1 Unused
        81a16bc1     |          | 3 Unused
        ca           |          | 0 Float
        cb           |          | 0 Float
        81ca         |          | 1 Float
        c7           |          | 0 Ext
        c8           |          | 0 Ext
        c9           |          | 0 Ext
        d4           |          | 0 Ext
        d5           |          | 0 Ext
        d6           |          | 0 Ext
        d7           |          | 0 Ext
        d8           |          | 0 Ext
        91d8         |          | 1 Ext
        a2c328       |          | 0 BadUtf8
        d90180       |          | 0 BadUtf8
        da0003eda080 |          | 0 BadUtf8
        92a1ff       | c1       | 1 BadUtf8
        81a180       | c0       | 1 BadUtf8
        8101         | c0       | 1 KeyNotText
        81c0         |          | 1 KeyNotText
        81c3         |          | 1 KeyNotText
        81ff         |          | 1 KeyNotText
        81c4         | 00       | 1 KeyNotText
        8180         |          | 1 KeyNotText
        81cf         |          | 1 KeyNotText
        81dc         |          | 1 KeyNotText
        81dd         | 01000001 | 1 KeyNotText
        82a16b0102   |          | 4 KeyNotText
        db01000001   |          | 0 TooLong
        c601000001   |          | 0 TooLong
        92dd01000001 |          | 1 TooLong
        dfffffffff   |          | 0 TooLong
        81db01000001 |          | 1 TooLong";
    hold(&rt, rt.alloc(), Claim::Refuses, rows)
}

#[test]
fn the_128th_level_is_refused_by_its_first_byte(rt: HostRuntime) -> Result<(), Fail> {
    let rows = "
        91*127           | 127 TooDeep
        81a0*127         | 254 TooDeep
        91 81a091*63     | 190 TooDeep
        81a0 9181a16b*63 | 254 TooDeep";
    hold(&rt, rt.alloc(), Claim::Deepest, rows)
}

#[test]
fn an_array_in_a_keys_place(rt: HostRuntime) -> Result<(), Fail> {
    let rows = "
        91*125 81dd | 126 KeyNotText
        91*126 81dd | 127 TooDeep";
    hold(&rt, rt.alloc(), Claim::Tells, rows)
}
