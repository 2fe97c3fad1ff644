//! Steps on channels that A offered.

use crate::rows::{LIVE, a_life};
use std::test::Fail;

/// Content goes as far as the window and what was acknowledged.
pub const CREDIT: &str = r"
    A writes A1 hello | Done []                                                          | \x94\x02\x01\x01\xc4\x04hell;
    B delivers        | 10 [Happened(Mux(Content(ChannelKey { id: 1, own: false }, 4)))] |;
    B reads A1 2      | 'he' []                                                          | \x94\x05\x01\xff\xc4\x02\x91\x02;
    A delivers        | 8 [Happened(Mux(Credit(ChannelKey { id: 1, own: true }, 2)))]    | \x94\x02\x01\x01\xc4\x01o;
    B delivers        | 7 [Happened(Mux(Content(ChannelKey { id: 1, own: false }, 1)))]  |;
    B reads A1 10     | 'llo' []                                                         | \x94\x05\x01\xff\xc4\x02\x91\x03;";

/// Terminated by A, while content of B is on its way.
const CROSSING: &str = r"
    A terminates A1 | Done []                                                     | \x93\x04\x01\x01;
    B writes A1 x   | Done []                                                     | \x94\x02\x01\xff\xc4\x01x;
    A delivers      | 7 [Happened(Mux(Ignored(ChannelKey { id: 1, own: true })))] |;
    B delivers      | 4 [Happened(Mux(Closed(ChannelKey { id: 1, own: false })))] | \x93\x04\x01\xff;
    A delivers      | 4 [Happened(Mux(Closed(ChannelKey { id: 1, own: true })))]  |;
    A writes A1 x   | Refused(NoChannel) []                                       |;";

/// Completed by both.
const COMPLETIONS: &str = r"
    A completes A1 | Done [] | \x93\x03\x01\x01;
    B completes A1 | Done [] | \x93\x03\x01\xff;
    B delivers
        | 4 [Happened(Mux(Completed(ChannelKey { id: 1, own: false })))]
        | \x93\x04\x01\xff;
    A delivers
        | 8 [Happened(Mux(Completed(ChannelKey { id: 1, own: true }))), Happened(Mux(Closed(ChannelKey { id: 1, own: true })))]
        | \x93\x04\x01\x01;
    B delivers
        | 4 [Happened(Mux(Closed(ChannelKey { id: 1, own: false })))]
        |;";

/// The stream into B ends, later that into A.
const ENDS: &str = r"
    A writes A1 hello | Done []                       | \x94\x02\x01\x01\xc4\x04hell;
    B ends            | ended                         |;
    B delivers        | 0 []                          |;
    B reads A1 10     | '' []                         |;
    B terminates A1   | Refused(Ended(InputEnded)) [] |;
    A terminates A1   | Done []                       | \x93\x04\x01\x01;
    A ends            | ended                         |;
    A completes A1    | Refused(Ended(InputEnded)) [] |;";

#[test]
fn content_goes_as_far_as_credit(rt: HostRuntime) -> Result<(), Fail> {
    a_life(&rt, rt.alloc(), &[LIVE, CREDIT])
}

#[test]
fn a_termination_crosses_content(rt: HostRuntime) -> Result<(), Fail> {
    a_life(&rt, rt.alloc(), &[LIVE, CROSSING])
}

#[test]
fn completions_by_both_close(rt: HostRuntime) -> Result<(), Fail> {
    a_life(&rt, rt.alloc(), &[LIVE, COMPLETIONS])
}

#[test]
fn streams_end(rt: HostRuntime) -> Result<(), Fail> {
    a_life(&rt, rt.alloc(), &[LIVE, ENDS])
}
