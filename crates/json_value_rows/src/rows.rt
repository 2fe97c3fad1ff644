//! Values and their texts.

use json_value::{JsonFault, JsonWrite, read, show, write};
use std::alloc::Global;
use std::test::Fail;
use wire_base::{Blob, Datum, DatumList, Node, PairList, Text};

/// The value is written so.
fn writes(alloc: Global, value: &Datum, expected: &[u8]) -> bool {
    let mut out = Vec::new(alloc);
    write(alloc, value, &mut out).is_ok() && out.as_slice() == expected
}

/// The value is shown so, behind what stood there.
fn shows(alloc: Global, value: &Datum, expected: &[u8]) -> Result<bool, Fail> {
    let mut out = Vec::from_slice(alloc, b"reply ")?;
    Ok(show(alloc, value, &mut out).is_ok() && out.as_slice() == expected)
}

/// What is read of the text is written so.
fn rewrites(alloc: Global, text: &[u8], expected: &[u8]) -> bool {
    match read(alloc, text) {
        Ok(value) => writes(alloc, &value, expected),
        Err(_) => false,
    }
}

fn read_fault(alloc: Global, text: &[u8]) -> Option<JsonFault> {
    read(alloc, text).err()
}

fn write_fault(alloc: Global, value: &Datum) -> Option<JsonWrite> {
    let mut out = Vec::new(alloc);
    write(alloc, value, &mut out).err()
}

#[test]
fn what_is_read_is_written_compact(rt: HostRuntime) -> Result<(), Fail> {
    let table: [(&str, &str); 22] = [
        ("{\"b\":1,\"a\":2,\"a\":3}", "{\"a\":3,\"b\":1}"),
        ("{\"a\":1.5,\"a\":2}", "{\"a\":2}"),
        ("null", "null"),
        (" true ", "true"),
        ("false", "false"),
        ("0", "0"),
        ("-1", "-1"),
        ("9223372036854775807", "9223372036854775807"),
        ("9223372036854775808", "9223372036854775808"),
        ("18446744073709551615", "18446744073709551615"),
        ("-9223372036854775808", "-9223372036854775808"),
        ("\"\"", "\"\""),
        ("\"a\\u000ab\"", "\"a\\nb\""),
        ("\"\\u00e9\\ud83d\\ude00\"", "\"\u{e9}\u{1f600}\""),
        ("\"\\/\\\"\\\\\\u001f\"", "\"/\\\"\\\\\\u001f\""),
        ("[]", "[]"),
        ("[ 1 , [ 2 , null ] , \"x\" ]", "[1,[2,null],\"x\"]"),
        ("{}", "{}"),
        ("{\"\":{\"z\":[],\"\":0}}", "{\"\":{\"\":0,\"z\":[]}}"),
        // byte order, not the order of letters
        ("{\"a\":1,\"B\":2,\"aa\":3}", "{\"B\":2,\"a\":1,\"aa\":3}"),
        ("{\"\u{e9}\":1,\"z\":2}", "{\"z\":2,\"\u{e9}\":1}"),
        (
            "{\"k\":1,\"j\":{\"y\":1,\"x\":2,\"y\":3},\"k\":[4]}",
            "{\"j\":{\"x\":2,\"y\":3},\"k\":[4]}",
        ),
    ];
    for (given, compact) in table {
        let same = rewrites(rt.alloc(), given.as_bytes(), compact.as_bytes());
        assert!(rt; same, "of {given}");
    }
    Ok(())
}

#[test]
fn bytes_that_are_no_json_are_told_from_floats(rt: HostRuntime) -> Result<(), Fail> {
    let table: [(&[u8], JsonFault); 20] = [
        (b"1.0", JsonFault::Float),
        (b"-0", JsonFault::Float),
        (b"1e2", JsonFault::Float),
        (b"18446744073709551616", JsonFault::Float),
        (b"-9223372036854775809", JsonFault::Float),
        (b"[1,[2.5]]", JsonFault::Float),
        (b"{\"a\":2,\"a\":1.5}", JsonFault::Float),
        (b"1e400", JsonFault::NotJson),
        (b"[1", JsonFault::NotJson),
        (b"", JsonFault::NotJson),
        (b" ", JsonFault::NotJson),
        (b"1 2", JsonFault::NotJson),
        (b"01", JsonFault::NotJson),
        (b"+1", JsonFault::NotJson),
        (b"[1,]", JsonFault::NotJson),
        (b"{1:2}", JsonFault::NotJson),
        (b"'a'", JsonFault::NotJson),
        (b"\"\\ud800\"", JsonFault::NotJson),
        (b"\"\xff\"", JsonFault::NotJson),
        (b"[1.5", JsonFault::NotJson),
    ];
    for (given, fault) in table {
        assert_eq!(rt; read_fault(rt.alloc(), given), Some(fault), "of {given:?}");
    }
    Ok(())
}

/// So many brackets, and as many that close them.
fn brackets(alloc: Global, depth: usize) -> Result<Vec<u8>, Fail> {
    let mut bytes = Vec::new(alloc);
    for _ in 0..depth {
        bytes.push(b'[')?;
    }
    for _ in 0..depth {
        bytes.push(b']')?;
    }
    Ok(bytes)
}

fn array_of(alloc: Global, item: Datum) -> Result<Datum, Fail> {
    let mut items = DatumList::new(alloc);
    items.push(item)?;
    Ok(Datum {
        node: Node::Items(items),
    })
}

/// The innermost array is empty.
fn nested(alloc: Global, depth: usize) -> Result<Datum, Fail> {
    let mut value = Datum {
        node: Node::Items(DatumList::new(alloc)),
    };
    for _ in 1..depth {
        value = array_of(alloc, value)?;
    }
    Ok(value)
}

#[test]
fn nesting_ends_at_127(rt: HostRuntime) -> Result<(), Fail> {
    let most = brackets(rt.alloc(), 127)?;
    assert!(rt; rewrites(rt.alloc(), most.as_slice(), most.as_slice()));
    let value = nested(rt.alloc(), 127)?;
    assert!(rt; writes(rt.alloc(), &value, most.as_slice()));
    let more = brackets(rt.alloc(), 128)?;
    let fault = read_fault(rt.alloc(), more.as_slice());
    assert_eq!(rt; fault, Some(JsonFault::NotJson));
    let value = nested(rt.alloc(), 128)?;
    assert_eq!(rt; write_fault(rt.alloc(), &value), Some(JsonWrite::TooDeep));
    Ok(())
}

fn bytes_value(alloc: Global, bytes: &[u8]) -> Result<Datum, Fail> {
    Ok(Datum {
        node: Node::Bytes(Blob::from_bytes(alloc, bytes)?),
    })
}

fn member(alloc: Global, key: &str, value: Datum) -> Result<Datum, Fail> {
    let mut pairs = PairList::new(alloc);
    pairs.push((Text::from_str(alloc, key)?, value))?;
    Ok(Datum {
        node: Node::Pairs(pairs),
    })
}

#[test]
fn bytes_are_shown_and_not_written(rt: HostRuntime) -> Result<(), Fail> {
    let table: [(&[u8], &str); 3] = [
        (&[], "reply {\"x\":[{\"$bytes\":\"-\"}]}"),
        (&[0], "reply {\"x\":[{\"$bytes\":\"00\"}]}"),
        (
            &[0xab, 0xff, 0x10],
            "reply {\"x\":[{\"$bytes\":\"abff10\"}]}",
        ),
    ];
    for (bytes, line) in table {
        let value = bytes_value(rt.alloc(), bytes)?;
        let value = member(rt.alloc(), "x", array_of(rt.alloc(), value)?)?;
        let fault = write_fault(rt.alloc(), &value);
        assert_eq!(rt; fault, Some(JsonWrite::BytesInJson), "of {line}");
        assert!(rt; shows(rt.alloc(), &value, line.as_bytes())?, "of {line}");
    }
    Ok(())
}

fn words_value(alloc: Global, text: &str) -> Result<Datum, Fail> {
    Ok(Datum {
        node: Node::Words(Text::from_str(alloc, text)?),
    })
}

#[test]
fn texts_are_shown_with_escapes(rt: HostRuntime) -> Result<(), Fail> {
    let table: [(&str, &str); 6] = [
        ("", "reply \"\""),
        ("a b/c", "reply \"a b/c\""),
        ("\"\\", "reply \"\\\"\\\\\""),
        ("\u{8}\t\n\u{c}\r", "reply \"\\b\\t\\n\\f\\r\""),
        ("\0\u{1f}\u{7f}", "reply \"\\u0000\\u001f\u{7f}\""),
        ("\u{e9}\u{1f600}", "reply \"\u{e9}\u{1f600}\""),
    ];
    for (text, line) in table {
        let value = words_value(rt.alloc(), text)?;
        assert!(rt; shows(rt.alloc(), &value, line.as_bytes())?, "of {line}");
    }
    Ok(())
}

/// No value is too deep to be shown.
#[test]
fn a_value_is_shown_at_any_depth(rt: HostRuntime) -> Result<(), Fail> {
    for depth in [1, 127, 128, 300] {
        let value = nested(rt.alloc(), depth)?;
        let mut line = Vec::from_slice(rt.alloc(), b"reply ")?;
        line.append(&mut brackets(rt.alloc(), depth)?)?;
        assert!(rt; shows(rt.alloc(), &value, line.as_slice())?, "at {depth}");
    }
    Ok(())
}

/// At nesting 127 a value with bytes is told to have them; one level more is told first.
#[test]
fn too_deep_comes_before_bytes(rt: HostRuntime) -> Result<(), Fail> {
    let table = [(127, JsonWrite::BytesInJson), (128, JsonWrite::TooDeep)];
    for (depth, fault) in table {
        let mut value = bytes_value(rt.alloc(), b"x")?;
        for _ in 0..depth {
            value = array_of(rt.alloc(), value)?;
        }
        assert_eq!(rt; write_fault(rt.alloc(), &value), Some(fault), "at {depth}");
    }
    Ok(())
}

#[test]
fn faults_have_texts(rt: HostRuntime) -> Result<(), Fail> {
    let alloc = rt.alloc();
    let read_faults: [(JsonFault, &str); 3] = [
        (JsonFault::NotJson, "the bytes are not JSON"),
        (JsonFault::Float, "a number is no whole number of 64 bits"),
        (JsonFault::OutOfMemory, "memory ran out"),
    ];
    for (fault, line) in read_faults {
        assert_eq!(rt; format!(in alloc; "{fault}")?.as_str(), line);
    }
    let write_faults: [(JsonWrite, &str); 3] = [
        (
            JsonWrite::TooDeep,
            "arrays and maps nest more than 127 deep",
        ),
        (JsonWrite::BytesInJson, "JSON has no bytes"),
        (JsonWrite::OutOfMemory, "memory ran out"),
    ];
    for (fault, line) in write_faults {
        assert_eq!(rt; format!(in alloc; "{fault}")?.as_str(), line);
    }
    Ok(())
}
