//! Worked methods, with their parameters in MessagePack.

use crate::rows::hold;
use std::test::Fail;

#[test]
fn methods_are_known_whole(rt: HostRuntime) -> Result<(), Fail> {
    let rows = r"
    means | Serves
    means $ | Serves
    means $work | Serves
    means work/$/cancelRequest \x91\x07 | Serves
    means $/ | Unknown
    means $/work | Unknown
    means $/cancelRequests \x91\x07 | Unknown
    means $/cancelrequest \x91\x07 | Unknown
    means $/enumerator \x91\x07 | Unknown
";
    hold(&rt, rt.alloc(), rows)
}

#[test]
fn one_argument_is_an_id(rt: HostRuntime) -> Result<(), Fail> {
    let rows = r#"
    means $/cancelRequest \x81\xa2id\x07 | Cancels(Number(7))
    means $/cancelRequest \x91\xff | Cancels(Number(-1))
    means $/cancelRequest \x91\xa1x | Cancels(Name(Text { inner: "x" }))
    means $/cancelRequest \x83\xa2id\x07\xa2id\x08\xa5other\xc0 | Cancels(Number(8))
    means $/cancelRequest | Mistakes
    means $/cancelRequest \x90 | Mistakes
    means $/cancelRequest \x92\x01\x02 | Mistakes
    means $/cancelRequest \x91\xc0 | Mistakes
    means $/cancelRequest \x81\xa5token\x07 | Mistakes
    means $/enumerator/next \x81\xa5token\x03 | Turns(Number(3))
    means $/enumerator/next \x81\xa2id\x03 | Mistakes
    means $/enumerator/abort \x91\x03 | Aborts(Number(3))
    means $/enumerator/abort \x91\xc3 | Mistakes
"#;
    hold(&rt, rt.alloc(), rows)
}

#[test]
fn reports_have_a_token_and_a_value(rt: HostRuntime) -> Result<(), Fail> {
    let rows = r"
    means $/progress \x82\xa5value\xc0\xa5token\x07 | Reports(Number(7), Datum { node: Nil })
    means $/progress \x92\x07\xc3 | Reports(Number(7), Datum { node: Flag(true) })
    means $/progress \x81\xa5token\x07 | Mistakes
    means $/progress \x81\xa5value\x07 | Mistakes
    means $/progress \x91\x07 | Mistakes
    means $/progress \x93\x07\xc3\xc3 | Mistakes
    means $/progress \x92\xc3\xc3 | Mistakes
";
    hold(&rt, rt.alloc(), rows)
}

/// What its sender made is the peer's here.
#[test]
fn releases_name_a_handle(rt: HostRuntime) -> Result<(), Fail> {
    let rows = r"
    means $/releaseMarshaledObject \x82\xa6handle\x03\xadownedBySender\xc3 | Releases(HandleKey { number: 3, own: false })
    means $/releaseMarshaledObject \x83\xadownedBySender\xc2\xa6handle\x03\xa6handle\x04 | Releases(HandleKey { number: 4, own: true })
    means $/releaseMarshaledObject \x92\xcf\x7f\xff\xff\xff\xff\xff\xff\xff\xc3 | Releases(HandleKey { number: 9223372036854775807, own: false })
    means $/releaseMarshaledObject \x92\xcf\x80\x00\x00\x00\x00\x00\x00\x00\xc3 | Mistakes
    means $/releaseMarshaledObject \x92\xff\xc3 | Mistakes
    means $/releaseMarshaledObject \x92\xa13\xc3 | Mistakes
    means $/releaseMarshaledObject \x92\x03\x01 | Mistakes
    means $/releaseMarshaledObject \x91\x03 | Mistakes
    means $/releaseMarshaledObject \x81\xa6handle\x03 | Mistakes
";
    hold(&rt, rt.alloc(), rows)
}

#[test]
fn calls_name_a_handle(rt: HostRuntime) -> Result<(), Fail> {
    let rows = r#"
    means $/invokeProxy/1/a | Calls(1, Text { inner: "a" })
    means $/invokeProxy/12/a/b \x91\x07 | Calls(12, Text { inner: "a/b" })
    means $/invokeProxy/12/ | Calls(12, Text { inner: "" })
    means $/invokeProxy/0000000000000000012/a | Calls(12, Text { inner: "a" })
    means $/invokeProxy/9999999999999999999/ü | Calls(9999999999999999999, Text { inner: "ü" })
    means $/invokeProxy/00000000000000000012/a | Unknown
    means $/invokeProxy//a | Unknown
    means $/invokeProxy/12 | Unknown
    means $/invokeProxy/+1/a | Unknown
    means $/invokeProxy/1a/b | Unknown
    means $/invokeProxy | Unknown
"#;
    hold(&rt, rt.alloc(), rows)
}

#[test]
fn callers_may_not_use(rt: HostRuntime) -> Result<(), Fail> {
    let rows = r"
    reserves $/ | true
    reserves $/work | true
    reserves $ | false
    reserves /$/ | false
    reserves-value \x81\xb3__jsonrpc_marshaled\xc0 | true
    reserves-value \x82\xa1a\x01\xb3__jsonrpc_marshaled\x01 | true
    reserves-value \x81\xa1a\x81\xb3__jsonrpc_marshaled\x01 | false
    reserves-value \x91\xb3__jsonrpc_marshaled | false
";
    hold(&rt, rt.alloc(), rows)
}
