//! The view of a captured stream.

ghost use Rattle.std.specs.Prelude.{◌≡◌, ◌≤◌, ◌++◌, length, take, OnOk, OnErr, IfOk};
ghost use Rattle.wire_base.specs.Appends.{AppendsFront};
ghost use Rattle.stream_view.specs.Answers.{refusal_of, Views};
ghost use Rattle.stream_view.specs.Lines.{frame_line, hello_line, rest_line, refused_line};
ghost use Rattle.stream_view.specs.View.{greeting, lines_by, refusal_by, stream_behind, stream_lines, stream_refusal, view_text, view_refusal};

use crate::greeting::greeting;
use crate::lines::{frame_line, hello_line, refused_line, rest_line};
use any_codec::AnyCodec;
use frame_text::FrameCodec;
use mux_handshake::Shaken;
use std::alloc::Global;
use wire_base::{Frame, FrameStep, MAX_FED, OutOfMemory, Place, Reason, Version};

/// How a view ended: the bytes are whole but for a rest, or a token at a place breaks a rule, or memory ran out.
#[derive(Clone, Copy, Debug, PartialEq, Eq)]
pub enum ViewEnd {
    Whole,
    Refused(Place, Reason),
    OutOfMemory,
}

/// Appends a line. After an error `out` is as it was, here and in the next four.
fn push_line(out: &mut Vec<u8>, line: &[u8]) -> Result<(), OutOfMemory>
    ensures ok { OnOk result (out.new.items ≡ out.old.items ++ line.now) }
    ensures err { OnErr result (out.new.items ≡ out.old.items) }
{
    out.extend_from_slice(line)?;
    Ok(())
}

fn push_hello(
    alloc: Global,
    out: &mut Vec<u8>,
    version: Version,
    handshake: &[u8],
) -> Result<(), OutOfMemory>
    ensures ok { OnOk result (out.new.items ≡ out.old.items ++ hello_line version handshake.now) }
    ensures err { OnErr result (out.new.items ≡ out.old.items) }
{
    let line = hello_line(alloc, version, handshake)?;
    push_line(out, line.as_slice())
}

fn push_frame(
    alloc: Global,
    out: &mut Vec<u8>,
    place: Place,
    frame: Frame,
) -> Result<(), OutOfMemory>
    ensures ok { OnOk result (out.new.items ≡ out.old.items ++ frame_line place.0 frame) }
    ensures err { OnErr result (out.new.items ≡ out.old.items) }
{
    let line = frame_line(alloc, place, &frame)?;
    push_line(out, line.as_slice())
}

fn push_rest(
    alloc: Global,
    out: &mut Vec<u8>,
    place: Place,
    count: usize,
) -> Result<(), OutOfMemory>
    ensures ok { OnOk result (out.new.items ≡ out.old.items ++ rest_line place.0 count) }
    ensures err { OnErr result (out.new.items ≡ out.old.items) }
{
    let line = rest_line(alloc, place, count)?;
    push_line(out, line.as_slice())
}

fn push_refused(
    alloc: Global,
    out: &mut Vec<u8>,
    place: Place,
    reason: Reason,
) -> Result<(), OutOfMemory>
    ensures ok { OnOk result (out.new.items ≡ out.old.items ++ refused_line place.0 reason) }
    ensures err { OnErr result (out.new.items ≡ out.old.items) }
{
    let line = refused_line(alloc, place, reason)?;
    push_line(out, line.as_slice())
}

/// Appends the lines of what stands behind a handshake of so many bytes, and tells where that is refused.
#[tactic(auto, using(crate::proofs::Told::told))]
fn push_stream(
    alloc: Global,
    out: &mut Vec<u8>,
    version: Version,
    bytes: &[u8],
    size: usize,
) -> Result<Option<(Place, Reason)>, OutOfMemory>
    requires within { size ≤ length bytes.now }
    requires most { length bytes.now ≤ MAX_FED }
    ensures text { OnOk result (out.new.items ≡ out.old.items ++ stream_lines version (stream_behind version size bytes.now)) }
    ensures refusal { IfOk result (λ r. refusal_of r ≡ stream_refusal version (stream_behind version size bytes.now)) }
    ensures cut { OnErr result (AppendsFront out.old.items out.new.items (stream_lines version (stream_behind version size bytes.now))) }
{
    let codec = AnyCodec::new(version);
    let mut at = size;
    'frames: loop {
        let rest = &bytes[at..];
        let place = Place(at as u64);
        match codec.decode(alloc, rest, place) {
            FrameStep::Got(frame, size) => {
                push_frame(alloc, out, place, frame)?;
                at += size;
            }
            FrameStep::Short => {
                push_rest(alloc, out, place, rest.len())?;
                return Ok(None);
            }
            FrameStep::Refused(place, reason) => {
                push_refused(alloc, out, place, reason)?;
                return Ok(Some((place, reason)));
            }
            FrameStep::OutOfMemory => return Err(OutOfMemory),
        }
    }
}

/// Appends the line of a whole handshake of so many bytes, and the lines of what stands behind it.
#[tactic(auto, using(wire_base::proofs::AppendsLemmas::appends, wire_base::proofs::AppendsLemmas::appends_both))]
fn push_greeted(
    alloc: Global,
    out: &mut Vec<u8>,
    version: Version,
    bytes: &[u8],
    size: usize,
) -> Result<Option<(Place, Reason)>, OutOfMemory>
    requires within { size ≤ length bytes.now }
    requires most { length bytes.now ≤ MAX_FED }
    ensures text { OnOk result (out.new.items ≡ out.old.items ++ (hello_line version (take size bytes.now) ++ stream_lines version (stream_behind version size bytes.now))) }
    ensures refusal { IfOk result (λ r. refusal_of r ≡ stream_refusal version (stream_behind version size bytes.now)) }
    ensures cut { OnErr result (AppendsFront out.old.items out.new.items (hello_line version (take size bytes.now) ++ stream_lines version (stream_behind version size bytes.now))) }
{
    push_hello(alloc, out, version, &bytes[..size])?;
    push_stream(alloc, out, version, bytes, size)
}

/// Appends the lines of the bytes, and tells where they are refused.
#[tactic(auto, using(wire_base::proofs::AppendsLemmas::appends))]
fn push_lines(
    alloc: Global,
    out: &mut Vec<u8>,
    version: Version,
    bytes: &[u8],
) -> Result<Option<(Place, Reason)>, OutOfMemory>
    requires { length bytes.now ≤ MAX_FED }
    ensures text { OnOk result (out.new.items ≡ out.old.items ++ lines_by version bytes.now (greeting version bytes.now)) }
    ensures refusal { IfOk result (λ r. refusal_of r ≡ refusal_by version bytes.now (greeting version bytes.now)) }
    ensures cut { OnErr result (AppendsFront out.old.items out.new.items (lines_by version bytes.now (greeting version bytes.now))) }
{
    match greeting(version, bytes) {
        Shaken::Done(_, size) => push_greeted(alloc, out, version, bytes, size),
        Shaken::Short => {
            push_rest(alloc, out, Place(0), bytes.len())?;
            Ok(None)
        }
        Shaken::Refused(place, reason) => {
            push_refused(alloc, out, place, reason)?;
            Ok(Some((place, reason)))
        }
    }
}

/// Appends the view of the bytes, and tells where they are refused.
#[tactic(auto, using(wire_base::proofs::AppendsLemmas::appends))]
fn push_view(
    alloc: Global,
    out: &mut Vec<u8>,
    version: Version,
    bytes: &[u8],
) -> Result<Option<(Place, Reason)>, OutOfMemory>
    requires { length bytes.now ≤ MAX_FED }
    ensures text { OnOk result (out.new.items ≡ out.old.items ++ view_text version bytes.now) }
    ensures refusal { IfOk result (λ r. refusal_of r ≡ view_refusal version bytes.now) }
    ensures cut { OnErr result (AppendsFront out.old.items out.new.items (view_text version bytes.now)) }
{
    push_line(out, b"view 1\n")?;
    let refusal = push_lines(alloc, out, version, bytes)?;
    push_line(out, b"end\n")?;
    Ok(refusal)
}

/// Appends the view of one direction's bytes of a stream: the handshake, the frames from left to right, and what is
/// left. It says where the bytes are refused; the rules that ask for the state of a channel aren't applied. After want of
/// memory a front of the view is appended.
pub fn view_text(alloc: Global, version: Version, bytes: &[u8], out: &mut Vec<u8>) -> ViewEnd
    requires { length bytes.now ≤ MAX_FED }
    ensures { Views result version bytes.now out.old.items out.new.items }
{
    match push_view(alloc, out, version, bytes) {
        Ok(None) => ViewEnd::Whole,
        Ok(Some((place, reason))) => ViewEnd::Refused(place, reason),
        Err(OutOfMemory) => ViewEnd::OutOfMemory,
    }
}
