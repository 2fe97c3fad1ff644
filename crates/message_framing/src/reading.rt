//! What stands at the front of bytes.

ghost use Rattle.std.specs.Prelude.{◌≡◌, ◌≤◌, length, take, IfSome};
ghost use Rattle.message_framing.specs.Front.{behind, by_header, length_in, header_front, length_front, IsWithin, front};

use crate::framing::Framing;
use crate::front::Front;
use crate::header::{Broken, Header, header_part};
use wire_base::{MAX_BODY, Reason};

/// The most bytes of a header part.
const MAX_HEADER: usize = 4_096;

/// Of so many bytes, those before the content part and the length that they give.
fn behind(len: usize, start: usize, length: Result<u32, Broken>) -> Front
    requires { start ≤ len }
    ensures { result ≡ behind len start length }
{
    match length {
        Ok(size) if len - start < size as usize => Front::Short,
        Ok(size) => Front::Whole(start, size as usize),
        Err((offset, reason)) => Front::Broken(offset, reason),
    }
}

/// Of so many bytes, the header among the first of them.
fn by_header(len: usize, header: Option<Header>) -> Front
    requires { IfSome header (λ h. h.size ≤ len) }
    ensures { result ≡ by_header len header }
{
    match header {
        Some(header) => behind(len, header.size, header.length),
        None if len < MAX_HEADER => Front::Short,
        None => Front::Broken(0, Reason::HeaderTooLong),
    }
}

/// The length that four bytes say.
fn length_in(number: i32) -> Result<u32, Broken>
    ensures { result ≡ length_in number }
{
    match u32::try_from(number) {
        Ok(length) if length > MAX_BODY => Err((0, Reason::LengthTooBig)),
        Ok(0) | Err(_) => Err((0, Reason::BadLength)),
        Ok(length) => Ok(length),
    }
}

/// As many of the bytes as a header part may have.
fn first_bytes(bytes: &[u8]) -> &[u8]
    ensures value { result.now ≡ take MAX_HEADER bytes.now }
    ensures within { length result.now ≤ length bytes.now }
{
    if bytes.len() < MAX_HEADER {
        bytes
    } else {
        &bytes[..MAX_HEADER]
    }
}

fn header_front(bytes: &[u8]) -> Front
    ensures { result ≡ header_front bytes.now }
{
    by_header(bytes.len(), header_part(first_bytes(bytes)))
}

fn length_front(bytes: &[u8]) -> Front
    ensures { result ≡ length_front bytes.now }
{
    match bytes.first_chunk::<4>() {
        Some(length) => behind(bytes.len(), 4, length_in(i32::from_be_bytes(*length))),
        None => Front::Short,
    }
}

/// What stands at the front of the bytes.
#[tactic(auto, unfolding(crate::specs::Front::front))]
pub fn front(framing: Framing, bytes: &[u8]) -> Front
    ensures answer { result ≡ front framing bytes.now }
    ensures within { IsWithin (length bytes.now) result }
{
    match framing {
        Framing::Header => header_front(bytes),
        Framing::Length => length_front(bytes),
    }
}
