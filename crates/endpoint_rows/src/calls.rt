//! Calls between two ends.

use crate::rows::{LIVE, a_life, a_life_in};
use std::test::Fail;
use wire_base::Version;

#[test]
fn a_call_is_answered_in_every_form(rt: HostRuntime) -> Result<(), Fail> {
    let by_length_in_json = "
        A attaches A1 length json | ok
        B attaches A1 length json | ok
        A asks A1 add 2 3         | 1
        A outcome A1 1            | not yet
        B hears                   | content A1 58; A1 asked 1 add list 2
        B answers A1 1 5          | ok
        A outcome A1 1            | not yet
        A hears                   | credit A1 58; content A1 39; A1 answered 1
        A outcome A1 1            | 5
        A outcome A1 2            | NoRequest
        A last A1                 | 1
        B last A1                 | 0
        B hears                   | credit A1 39";
    let by_length_in_pack = "
        A attaches A1 length pack | ok
        B attaches A1 length pack | ok
        A asks A1 add 2 3         | 1
        B hears                   | content A1 42; A1 asked 1 add list 2
        B answers A1 1 5          | ok
        A hears                   | credit A1 42; content A1 29; A1 answered 1
        A outcome A1 1            | 5";
    let by_header_in_json = "
        A attaches A1 header json | ok
        B attaches A1 header json | ok
        A asks A1 add 2 3         | 1
        B hears                   | content A1 76; A1 asked 1 add list 2
        B answers A1 1 5          | ok
        A hears                   | credit A1 76; content A1 57; A1 answered 1
        A outcome A1 1            | 5";
    let by_header_in_pack = "
        A attaches A1 header pack | ok
        B attaches A1 header pack | ok
        A asks A1 add 2 3         | 1
        B hears                   | content A1 60; A1 asked 1 add list 2
        B answers A1 1 5          | ok
        A hears                   | credit A1 60; content A1 47; A1 answered 1
        A outcome A1 1            | 5";
    for rows in [
        by_length_in_json,
        by_length_in_pack,
        by_header_in_json,
        by_header_in_pack,
    ] {
        a_life(&rt, rt.alloc(), &[LIVE, rows])?;
    }
    Ok(())
}

#[test]
fn calls_go_in_content_frames(rt: HostRuntime) -> Result<(), Fail> {
    let in_pack = r#"
        A attaches A1 length pack | ok
        B attaches A1 header pack | ok
        A asks A1 add 2 3         | 1
        B asks A1 add 2 3         | 1
        A sends                   | \x94\x02\x01\x01\xc4*\x00\x00\x00&\x84\xa7jsonrpc\xa32.0\xa2id\x01\xa6method\xa3add\xa6params\x92\x02\x03
        B sends                   | \x94\x02\x01\xff\xc4<Content-Length: 38\x0d\x0a\x0d\x0a\x84\xa7jsonrpc\xa32.0\xa2id\x01\xa6method\xa3add\xa6params\x92\x02\x03"#;
    let in_json = r#"
        A attaches A1 length json | ok
        B attaches A1 header json | ok
        A asks A1 add 2 3         | 1
        B asks A1 add 2 3         | 1
        A sends                   | \x94\x02\x01\x01\xc4:\x00\x00\x006{"id":1,"jsonrpc":"2.0","method":"add","params":[2,3]}
        B sends                   | \x94\x02\x01\xff\xc4LContent-Length: 54\x0d\x0a\x0d\x0a{"id":1,"jsonrpc":"2.0","method":"add","params":[2,3]}"#;
    a_life(&rt, rt.alloc(), &[LIVE, in_pack])?;
    a_life(&rt, rt.alloc(), &[LIVE, in_json])
}

/// What is read is acknowledged before the answer to it.
#[test]
fn an_answer_goes_behind_the_credit(rt: HostRuntime) -> Result<(), Fail> {
    let rows = r#"
        A attaches A1 length pack | ok
        B attaches A1 length pack | ok
        A asks A1 add 2 3         | 1
        B hears                   | content A1 42; A1 asked 1 add list 2
        B answers A1 1 5          | ok
        A sends                   |
        B sends                   | \x94\x05\x01\xff\xc4\x02\x91*\x94\x02\x01\xff\xc4\x1d\x00\x00\x00\x19\x83\xa7jsonrpc\xa32.0\xa2id\x01\xa6result\x05"#;
    a_life(&rt, rt.alloc(), &[LIVE, rows])
}

/// Version 1 has no credit, and the sides draw odd and even ids.
#[test]
fn a_call_is_answered_in_version_1(rt: HostRuntime) -> Result<(), Fail> {
    let rows = "
        A hears                   | ready
        B hears                   | ready
        B offers a 100            | B2
        A hears                   | offered B2
        A accepts B2 100          | ok
        B hears                   | accepted B2
        A attaches B2 length pack | ok
        B attaches B2 length pack | ok
        A asks B2 add 2 3         | 1
        B hears                   | content B2 42; B2 asked 1 add list 2
        B answers B2 1 5          | ok
        A hears                   | content B2 29; B2 answered 1
        A outcome B2 1            | 5";
    a_life_in(&rt, rt.alloc(), Version::One, &[rows])
}

#[test]
fn errors_and_notifications_come(rt: HostRuntime) -> Result<(), Fail> {
    let rows = "
        A attaches A1 length json | ok
        B attaches A1 length json | ok
        A asks A1 work            | 1
        A tells A1 log            | ok
        B hears                   | content A1 44; A1 asked 1 work absent; content A1 36; A1 told log absent
        B fails A1 1 -1           | ok
        B fails A1 1 -1           | NoRequest
        B tells A1 note           | ok
        A hears                   | credit A1 44; credit A1 36; content A1 63; A1 answered 1; content A1 37; A1 told note absent
        A outcome A1 1            | failed -1 no";
    a_life(&rt, rt.alloc(), &[LIVE, rows])
}

/// A method that an end keeps for itself is answered at once.
#[test]
fn what_a_message_makes_an_end_say_is_written_on_its_channel(rt: HostRuntime) -> Result<(), Fail> {
    let rows = r#"
        A offers b 100            | A2
        B hears                   | offered A2
        B accepts A2 100          | ok
        A hears                   | accepted A2
        B attaches A1 length json | ok
        B attaches A2 length json | ok
        A says A2 {"id":1,"jsonrpc":"2.0","method":"$/other"} | ok
        B hears                   | content A2 47; A2 handled $/other
        A hears                   | credit A2 47; content A2 74
        A reads A1 100            | 0 []
        A view A2                 | Live 74"#;
    a_life(&rt, rt.alloc(), &[LIVE, rows])
}
