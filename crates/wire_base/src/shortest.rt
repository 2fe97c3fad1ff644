//! Shortest heads of MessagePack tokens, appended to bytes.

ghost use Rattle.std.specs.Prelude.{◌≡◌, ◌++◌, ◌∷◌, OnOk, OnErr, pos, ◌<ℤ◌};
ghost use Rattle.std.specs.Int.{w16, w32, w64, to_be_bytes};
ghost use Rattle.wire_base.specs.Shortest.{unsigned_text, whole_text, str_head, bin_head, array_head, map_head};

use crate::out_of_memory::OutOfMemory;
use crate::whole::Whole;

fn push_bytes(out: &mut Vec<u8>, bytes: &[u8]) -> Result<(), OutOfMemory>
    ensures ok { OnOk result (out.new.items ≡ out.old.items ++ bytes.now) }
    ensures err { OnErr result (out.new.items ≡ out.old.items) }
{
    out.extend_from_slice(bytes)?;
    Ok(())
}

fn push_u16(out: &mut Vec<u8>, first: u8, n: u16) -> Result<(), OutOfMemory>
    ensures ok { OnOk result (out.new.items ≡ out.old.items ++ first ∷ to_be_bytes w16 n) }
    ensures err { OnErr result (out.new.items ≡ out.old.items) }
{
    let [a, b] = n.to_be_bytes();
    push_bytes(out, &[first, a, b])
}

fn push_u32(out: &mut Vec<u8>, first: u8, n: u32) -> Result<(), OutOfMemory>
    ensures ok { OnOk result (out.new.items ≡ out.old.items ++ first ∷ to_be_bytes w32 n) }
    ensures err { OnErr result (out.new.items ≡ out.old.items) }
{
    let [a, b, c, d] = n.to_be_bytes();
    push_bytes(out, &[first, a, b, c, d])
}

fn push_u64(out: &mut Vec<u8>, first: u8, n: u64) -> Result<(), OutOfMemory>
    ensures ok { OnOk result (out.new.items ≡ out.old.items ++ first ∷ to_be_bytes w64 n) }
    ensures err { OnErr result (out.new.items ≡ out.old.items) }
{
    let [a, b, c, d, e, f, g, h] = n.to_be_bytes();
    push_bytes(out, &[first, a, b, c, d, e, f, g, h])
}

/// Appends the token of a number that isn't negative. After an error `out` is as it was, here and below.
pub fn push_unsigned(out: &mut Vec<u8>, n: u64) -> Result<(), OutOfMemory>
    ensures ok { OnOk result (out.new.items ≡ out.old.items ++ unsigned_text n) }
    ensures err { OnErr result (out.new.items ≡ out.old.items) }
{
    if n < 0x80 {
        push_bytes(out, &[n as u8])
    } else if n < 0x100 {
        push_bytes(out, &[0xcc, n as u8])
    } else if n < 0x1_0000 {
        push_u16(out, 0xcd, n as u16)
    } else if n < 0x1_0000_0000 {
        push_u32(out, 0xce, n as u32)
    } else {
        push_u64(out, 0xcf, n)
    }
}

fn push_negative(out: &mut Vec<u8>, n: i64) -> Result<(), OutOfMemory>
    requires { n <ℤ pos 0 }
    ensures ok { OnOk result (out.new.items ≡ out.old.items ++ whole_text n) }
    ensures err { OnErr result (out.new.items ≡ out.old.items) }
{
    if n >= -0x20 {
        push_bytes(out, &[(n as i8).cast_unsigned()])
    } else if n >= -0x80 {
        push_bytes(out, &[0xd0, (n as i8).cast_unsigned()])
    } else if n >= -0x8000 {
        push_u16(out, 0xd1, (n as i16).cast_unsigned())
    } else if n >= -0x8000_0000 {
        push_u32(out, 0xd2, (n as i32).cast_unsigned())
    } else {
        push_u64(out, 0xd3, n.cast_unsigned())
    }
}

/// Appends the token of a whole number.
pub fn push_whole(out: &mut Vec<u8>, n: Whole) -> Result<(), OutOfMemory>
    ensures ok { OnOk result (out.new.items ≡ out.old.items ++ whole_text n) }
    ensures err { OnErr result (out.new.items ≡ out.old.items) }
{
    let n = n.get();
    if n < 0 {
        push_negative(out, n as i64)
    } else {
        push_unsigned(out, n as u64)
    }
}

/// Appends the head of a str of n bytes.
pub fn push_str_head(out: &mut Vec<u8>, n: u32) -> Result<(), OutOfMemory>
    ensures ok { OnOk result (out.new.items ≡ out.old.items ++ str_head n) }
    ensures err { OnErr result (out.new.items ≡ out.old.items) }
{
    if n < 0x20 {
        push_bytes(out, &[0xa0 + n as u8])
    } else if n < 0x100 {
        push_bytes(out, &[0xd9, n as u8])
    } else if n < 0x1_0000 {
        push_u16(out, 0xda, n as u16)
    } else {
        push_u32(out, 0xdb, n)
    }
}

/// Appends the head of a bin of n bytes.
pub fn push_bin_head(out: &mut Vec<u8>, n: u32) -> Result<(), OutOfMemory>
    ensures ok { OnOk result (out.new.items ≡ out.old.items ++ bin_head n) }
    ensures err { OnErr result (out.new.items ≡ out.old.items) }
{
    if n < 0x100 {
        push_bytes(out, &[0xc4, n as u8])
    } else if n < 0x1_0000 {
        push_u16(out, 0xc5, n as u16)
    } else {
        push_u32(out, 0xc6, n)
    }
}

/// Appends the head of an array of n elements.
pub fn push_array_head(out: &mut Vec<u8>, n: u32) -> Result<(), OutOfMemory>
    ensures ok { OnOk result (out.new.items ≡ out.old.items ++ array_head n) }
    ensures err { OnErr result (out.new.items ≡ out.old.items) }
{
    if n < 0x10 {
        push_bytes(out, &[0x90 + n as u8])
    } else if n < 0x1_0000 {
        push_u16(out, 0xdc, n as u16)
    } else {
        push_u32(out, 0xdd, n)
    }
}

/// Appends the head of a map of n pairs.
pub fn push_map_head(out: &mut Vec<u8>, n: u32) -> Result<(), OutOfMemory>
    ensures ok { OnOk result (out.new.items ≡ out.old.items ++ map_head n) }
    ensures err { OnErr result (out.new.items ≡ out.old.items) }
{
    if n < 0x10 {
        push_bytes(out, &[0x80 + n as u8])
    } else if n < 0x1_0000 {
        push_u16(out, 0xde, n as u16)
    } else {
        push_u32(out, 0xdf, n)
    }
}
