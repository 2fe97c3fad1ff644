//! Calls of connections on a channel that A offered.

use crate::rows::a_life;
use std::test::Fail;

/// A channel with windows of 100, and a connection at both sides.
const ATTACHED: &str = r"
    A offers a 100   | Made(ChannelKey { id: 1, own: true }) []                      | \x94\x00\x01\x01\xc4\x04\x92\xa1ad;
    B delivers       | 10 [Happened(Mux(Offered(ChannelKey { id: 1, own: false })))] |;
    B accepts A1 100 | Done []                                                       | \x94\x01\x01\xff\xc4\x02\x91d;
    A delivers       | 8 [Happened(Mux(Accepted(ChannelKey { id: 1, own: true })))]  |;
    A attaches A1    | Done []                                                       |;
    B attaches A1    | Done []                                                       |;";

/// A request, and its answer. What is read is acknowledged.
const CALLS: &str = r#"
    A asks A1 add
        | Number(1) []
        | \x94\x02\x01\x01\xc4\x20\x00\x00\x00\x1c\x83\xa7jsonrpc\xa32.0\xa2id\x01\xa6method\xa3add;
    A outcome A1 1
        | NotYet []
        |;
    B delivers
        | 38 [Happened(Mux(Content(ChannelKey { id: 1, own: false }, 32))), Happened(Rpc(ChannelKey { id: 1, own: false }, Asked(Number(1), Root, Text { inner: "add" }, Absent)))]
        | \x94\x05\x01\xff\xc4\x02\x91\x20;
    B answers A1 1 5
        | Done []
        | \x94\x02\x01\xff\xc4\x1d\x00\x00\x00\x19\x83\xa7jsonrpc\xa32.0\xa2id\x01\xa6result\x05;
    A delivers
        | 43 [Happened(Mux(Credit(ChannelKey { id: 1, own: true }, 32))), Happened(Mux(Content(ChannelKey { id: 1, own: true }, 29))), Happened(Rpc(ChannelKey { id: 1, own: true }, Answered(1)))]
        | \x94\x05\x01\x01\xc4\x02\x91\x1d;
    A outcome A1 1
        | Known(Replied(Datum { node: Whole(Whole { inner: 5 }) })) []
        |;"#;

/// The answer to a request is an object, which A calls. Then both sides release its handle, before they hear of each other:
/// what comes ends nothing more, and the object isn't called again.
const OBJECTS: &str = r#"
    A asks A1 add
        | Number(1) []
        | \x94\x02\x01\x01\xc4\x20\x00\x00\x00\x1c\x83\xa7jsonrpc\xa32.0\xa2id\x01\xa6method\xa3add;
    B delivers
        | 38 [Happened(Mux(Content(ChannelKey { id: 1, own: false }, 32))), Happened(Rpc(ChannelKey { id: 1, own: false }, Asked(Number(1), Root, Text { inner: "add" }, Absent)))]
        | \x94\x05\x01\xff\xc4\x02\x91\x20;
    B gives A1 1 7
        | Done []
        | \x94\x02\x01\xff\xc4L\x00\x00\x00H\x83\xa7jsonrpc\xa32.0\xa2id\x01\xa6result\x83\xb3__jsonrpc_marshaled\x01\xa6handle\x01\xa8lifetime\xa8explicit;
    A delivers
        | 90 [Happened(Mux(Credit(ChannelKey { id: 1, own: true }, 32))), Happened(Mux(Content(ChannelKey { id: 1, own: true }, 76))), Happened(Rpc(ChannelKey { id: 1, own: true }, Answered(1)))]
        | \x94\x05\x01\x01\xc4\x02\x91L;
    A invokes A1 1 add
        | Number(2) []
        | \x94\x02\x01\x01\xc40\x00\x00\x00,\x83\xa7jsonrpc\xa32.0\xa2id\x02\xa6method\xb3$/invokeProxy/1/add;
    B delivers
        | 62 [Happened(Mux(Credit(ChannelKey { id: 1, own: false }, 76))), Happened(Mux(Content(ChannelKey { id: 1, own: false }, 48))), Happened(Rpc(ChannelKey { id: 1, own: false }, Asked(Number(2), Object(7, 1), Text { inner: "add" }, Absent)))]
        | \x94\x05\x01\xff\xc4\x02\x910;
    A delivers
        | 8 [Happened(Mux(Credit(ChannelKey { id: 1, own: true }, 48)))]
        |;
    A releases A1 peer 1
        | Done []
        | \x94\x02\x01\x01\xc4P\x00\x00\x00L\x83\xa7jsonrpc\xa32.0\xa6method\xb8$/releaseMarshaledObject\xa6params\x82\xa6handle\x01\xadownedBySender\xc2;
    B releases A1 own 1
        | Done []
        | \x94\x02\x01\xff\xc4P\x00\x00\x00L\x83\xa7jsonrpc\xa32.0\xa6method\xb8$/releaseMarshaledObject\xa6params\x82\xa6handle\x01\xadownedBySender\xc3;
    A delivers
        | 86 [Happened(Mux(Content(ChannelKey { id: 1, own: true }, 80))), Happened(Rpc(ChannelKey { id: 1, own: true }, Handled(Text { inner: "$/releaseMarshaledObject" })))]
        | \x94\x05\x01\x01\xc4\x02\x91P;
    B delivers
        | 94 [Happened(Mux(Content(ChannelKey { id: 1, own: false }, 80))), Happened(Rpc(ChannelKey { id: 1, own: false }, Handled(Text { inner: "$/releaseMarshaledObject" }))), Happened(Mux(Credit(ChannelKey { id: 1, own: false }, 80)))]
        | \x94\x05\x01\xff\xc4\x02\x91P;
    A invokes A1 1 add
        | Refused(Released) []
        |;
    B releases A1 own 1
        | Refused(Released) []
        |;"#;

#[test]
fn a_request_is_answered(rt: HostRuntime) -> Result<(), Fail> {
    a_life(&rt, rt.alloc(), &[ATTACHED, CALLS])
}

#[test]
fn an_object_is_called_and_released(rt: HostRuntime) -> Result<(), Fail> {
    a_life(&rt, rt.alloc(), &[ATTACHED, OBJECTS])
}
