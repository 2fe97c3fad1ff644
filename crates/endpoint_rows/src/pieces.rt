//! Content that comes early, late or in pieces.

use crate::rows::{LIVE, a_life};
use std::alloc::Global;
use std::process::Abort;
use std::test::Fail;

#[test]
fn content_before_the_connection_is_read_by_it(rt: HostRuntime) -> Result<(), Fail> {
    let rows = r#"
        A says A1 {"id":1,"jsonrpc":"2.0","method":"run"}   | ok
        A begins A1 {"id":2,"jsonrpc":"2.0","method":"run"} | ok
        B hears                                             | content A1 43; content A1 42
        B view A1                                           | Live 85
        B attaches A1 length json                           | ok
        B view A1                                           | Live 0
        B steps                                             | A1 asked 1 run absent
        B steps                                             | Short
        A hears                                             | credit A1 85"#;
    a_life(&rt, rt.alloc(), &[LIVE, rows])
}

/// B has a connection on the channel, and A none.
const ATTACHED: &str = "B attaches A1 length json | ok";

/// A message whose framed form has 43 bytes.
const RUN: &str = r#"{"id":1,"jsonrpc":"2.0","method":"run"}"#;

/// Its two parts go in one content each.
fn in_two_parts(alloc: Global, at: usize) -> Result<String, Fail> {
    let (body, rest) = (RUN, 43usize.saturating_sub(at));
    Ok(format!(in alloc;
        "A writes A1 0 {at} {body} | ok
        A writes A1 {at} 43 {body} | ok
        B hears | content A1 {at}; content A1 {rest}; A1 asked 1 run absent"
    )?)
}

fn is_heard_in_two_parts(rt: &impl Abort, alloc: Global, at: usize) -> Result<(), Fail> {
    let rows = in_two_parts(alloc, at)?;
    a_life(rt, alloc, &[LIVE, ATTACHED, rows.as_str()])
}

/// A message is heard once its last byte came, wherever the content is cut.
#[test]
fn content_is_cut_at_each_byte(rt: HostRuntime) -> Result<(), Fail> {
    for at in 1..43 {
        is_heard_in_two_parts(&rt, rt.alloc(), at)?;
    }
    Ok(())
}

/// A asks on its own new connection.
const ASKED: &str = "
    A attaches A1 length json | ok
    A asks A1 run             | 1";

/// What comes up to this byte of the stream, and behind it.
fn in_two_pieces(alloc: Global, at: usize) -> Result<String, Fail> {
    let whole = "content A1 43; A1 asked 1 run absent";
    let (front, rest) = if at < 49 { ("", whole) } else { (whole, "") };
    Ok(format!(in alloc; "B hears-of {at} | {front}\nB hears | {rest}")?)
}

fn is_heard_in_two_pieces(rt: &impl Abort, alloc: Global, at: usize) -> Result<(), Fail> {
    let rows = in_two_pieces(alloc, at)?;
    a_life(rt, alloc, &[LIVE, ATTACHED, ASKED, rows.as_str()])
}

/// The message is heard when its whole frame came, which has 6 bytes more than the 43 of its content.
#[test]
fn the_stream_is_cut_at_each_byte(rt: HostRuntime) -> Result<(), Fail> {
    for at in 0..=49 {
        is_heard_in_two_pieces(&rt, rt.alloc(), at)?;
    }
    Ok(())
}
