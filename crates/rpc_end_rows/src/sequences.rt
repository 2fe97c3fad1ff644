//! Sequences in pages: those that an end answers, and those that it follows.

use crate::rows::a_life;
use std::test::Fail;

/// With more first values than there are, as many, fewer, and none: only what is left has a token.
#[test]
fn answers_begin_sequences(rt: HostRuntime) -> Result<(), Fail> {
    let rows = r#"
        comes {"id":1,"jsonrpc":"2.0","method":"list"}   | asked 1 list absent   |
        pages 1 1 3 5 6                                  | ok                    | {"id":1,"jsonrpc":"2.0","result":{"values":[5,6]}}
        comes {"id":1,"jsonrpc":"2.0","method":"list"}   | asked 1 list absent   |
        pages 1 1 2 5 6                                  | ok                    | {"id":1,"jsonrpc":"2.0","result":{"values":[5,6]}}
        comes {"id":1,"jsonrpc":"2.0","method":"list"}   | asked 1 list absent   |
        pages 1 1 1 5 6                                  | ok                    | {"id":1,"jsonrpc":"2.0","result":{"token":1,"values":[5]}}
        comes {"id":1,"jsonrpc":"2.0","method":"list"}   | asked 1 list absent   |
        pages 1 4294967295 0 5 6                         | ok                    | {"id":1,"jsonrpc":"2.0","result":{"token":2,"values":[]}}
        comes {"id":1,"jsonrpc":"2.0","method":"list"}   | asked 1 list absent   |
        pages 1 1 0                                      | ok                    | {"id":1,"jsonrpc":"2.0","result":{"values":[]}}
        comes {"id":"a","jsonrpc":"2.0","method":"list"} | asked "a" list absent |
        pages "a" 1 0 5                                  | ok                    | {"id":"a","jsonrpc":"2.0","result":{"token":3,"values":[]}}
        pages "a" 1 0 5                                  | NoRequest             |"#;
    a_life(&rt, rt.alloc(), rows)
}

/// Pages of one value; of two, of which the last is full; and one of all that is left and more.
#[test]
fn pages_are_of_their_size(rt: HostRuntime) -> Result<(), Fail> {
    let ones = r#"
        comes {"id":1,"jsonrpc":"2.0","method":"list"}                                   | asked 1 list absent       |
        pages 1 1 1 5 6 7                                                                | ok                        | {"id":1,"jsonrpc":"2.0","result":{"token":1,"values":[5]}}
        comes {"id":2,"jsonrpc":"2.0","method":"$/enumerator/next","params":{"token":1}} | handled $/enumerator/next | {"id":2,"jsonrpc":"2.0","result":{"finished":false,"values":[6]}}
        comes {"id":2,"jsonrpc":"2.0","method":"$/enumerator/next","params":{"token":1}} | handled $/enumerator/next | {"id":2,"jsonrpc":"2.0","result":{"finished":true,"values":[7]}}
        comes {"id":2,"jsonrpc":"2.0","method":"$/enumerator/next","params":{"token":1}} | handled $/enumerator/next | {"error":{"code":-32001,"message":"no sequence"},"id":2,"jsonrpc":"2.0"}"#;
    let twos = r#"
        comes {"id":1,"jsonrpc":"2.0","method":"list"}                           | asked 1 list absent       |
        pages 1 2 0 4 5 6 7                                                      | ok                        | {"id":1,"jsonrpc":"2.0","result":{"token":1,"values":[]}}
        comes {"id":2,"jsonrpc":"2.0","method":"$/enumerator/next","params":[1]} | handled $/enumerator/next | {"id":2,"jsonrpc":"2.0","result":{"finished":false,"values":[4,5]}}
        comes {"id":3,"jsonrpc":"2.0","method":"$/enumerator/next","params":[1]} | handled $/enumerator/next | {"id":3,"jsonrpc":"2.0","result":{"finished":true,"values":[6,7]}}
        comes {"id":4,"jsonrpc":"2.0","method":"$/enumerator/next","params":[1]} | handled $/enumerator/next | {"error":{"code":-32001,"message":"no sequence"},"id":4,"jsonrpc":"2.0"}"#;
    let all = r#"
        comes {"id":1,"jsonrpc":"2.0","method":"list"}                                     | asked 1 list absent       |
        pages 1 4294967295 0 4 5                                                           | ok                        | {"id":1,"jsonrpc":"2.0","result":{"token":1,"values":[]}}
        comes {"id":"n","jsonrpc":"2.0","method":"$/enumerator/next","params":{"token":1}} | handled $/enumerator/next | {"id":"n","jsonrpc":"2.0","result":{"finished":true,"values":[4,5]}}
        comes {"id":"n","jsonrpc":"2.0","method":"$/enumerator/next","params":{"token":1}} | handled $/enumerator/next | {"error":{"code":-32001,"message":"no sequence"},"id":"n","jsonrpc":"2.0"}"#;
    a_life(&rt, rt.alloc(), ones)?;
    a_life(&rt, rt.alloc(), twos)?;
    a_life(&rt, rt.alloc(), all)
}

/// Nor have wrong arguments. A notification turns no page.
#[test]
fn other_tokens_have_no_page(rt: HostRuntime) -> Result<(), Fail> {
    let rows = r#"
        comes {"id":2,"jsonrpc":"2.0","method":"$/enumerator/next","params":{"token":1}}   | handled $/enumerator/next | {"error":{"code":-32001,"message":"no sequence"},"id":2,"jsonrpc":"2.0"}
        comes {"id":1,"jsonrpc":"2.0","method":"list"}                                     | asked 1 list absent       |
        pages 1 1 0 5                                                                      | ok                        | {"id":1,"jsonrpc":"2.0","result":{"token":1,"values":[]}}
        comes {"id":2,"jsonrpc":"2.0","method":"$/enumerator/next","params":{"token":2}}   | handled $/enumerator/next | {"error":{"code":-32001,"message":"no sequence"},"id":2,"jsonrpc":"2.0"}
        comes {"id":3,"jsonrpc":"2.0","method":"$/enumerator/next","params":{"token":"1"}} | handled $/enumerator/next | {"error":{"code":-32001,"message":"no sequence"},"id":3,"jsonrpc":"2.0"}
        comes {"id":4,"jsonrpc":"2.0","method":"$/enumerator/next","params":{"token":-1}}  | handled $/enumerator/next | {"error":{"code":-32001,"message":"no sequence"},"id":4,"jsonrpc":"2.0"}
        comes {"id":5,"jsonrpc":"2.0","method":"$/enumerator/next","params":{"tokens":1}}  | handled $/enumerator/next | {"error":{"code":-32602,"message":"bad arguments"},"id":5,"jsonrpc":"2.0"}
        comes {"jsonrpc":"2.0","method":"$/enumerator/next","params":{"token":1}}          | handled $/enumerator/next |
        comes {"id":6,"jsonrpc":"2.0","method":"$/enumerator/next","params":{"token":1}}   | handled $/enumerator/next | {"id":6,"jsonrpc":"2.0","result":{"finished":true,"values":[5]}}"#;
    a_life(&rt, rt.alloc(), rows)
}

/// It does before, between and after their pages, by a notification and by a request. Another sequence goes on.
#[test]
fn the_peer_gives_sequences_up(rt: HostRuntime) -> Result<(), Fail> {
    let rows = r#"
        comes {"id":1,"jsonrpc":"2.0","method":"list"}                                   | asked 1 list absent        |
        pages 1 1 0 5                                                                    | ok                         | {"id":1,"jsonrpc":"2.0","result":{"token":1,"values":[]}}
        comes {"id":1,"jsonrpc":"2.0","method":"list"}                                   | asked 1 list absent        |
        pages 1 1 0 6 7                                                                  | ok                         | {"id":1,"jsonrpc":"2.0","result":{"token":2,"values":[]}}
        comes {"jsonrpc":"2.0","method":"$/enumerator/abort","params":[1]}               | handled $/enumerator/abort |
        comes {"id":2,"jsonrpc":"2.0","method":"$/enumerator/next","params":{"token":1}} | handled $/enumerator/next  | {"error":{"code":-32001,"message":"no sequence"},"id":2,"jsonrpc":"2.0"}
        comes {"id":2,"jsonrpc":"2.0","method":"$/enumerator/next","params":{"token":2}} | handled $/enumerator/next  | {"id":2,"jsonrpc":"2.0","result":{"finished":false,"values":[6]}}
        comes {"id":3,"jsonrpc":"2.0","method":"$/enumerator/abort","params":[2,2]}      | handled $/enumerator/abort | {"error":{"code":-32602,"message":"bad arguments"},"id":3,"jsonrpc":"2.0"}
        comes {"id":3,"jsonrpc":"2.0","method":"$/enumerator/abort","params":[2]}        | handled $/enumerator/abort | {"id":3,"jsonrpc":"2.0","result":null}
        comes {"id":4,"jsonrpc":"2.0","method":"$/enumerator/next","params":{"token":2}} | handled $/enumerator/next  | {"error":{"code":-32001,"message":"no sequence"},"id":4,"jsonrpc":"2.0"}
        comes {"id":5,"jsonrpc":"2.0","method":"$/enumerator/abort","params":[2]}        | handled $/enumerator/abort | {"id":5,"jsonrpc":"2.0","result":null}"#;
    a_life(&rt, rt.alloc(), rows)
}

/// Each but the last breaks the rule of its row, and most break a later one too.
#[test]
fn answers_that_are_no_sequences(rt: HostRuntime) -> Result<(), Fail> {
    let rows = r#"
        comes {"id":7,"jsonrpc":"2.0","method":"run"} | asked 7 run absent |
        pages 8 0 0 bytes                             | NoRequest          |
        pages 7 0 0 bytes                             | BadPage            |
        pages 7 0 0                                   | BadPage            |
        pages 7 1 0 bytes                             | BytesInJson        |
        pages 7 1 1 deep125 bytes                     | BytesInJson        |
        pages 7 1 0 5 deep125                         | TooDeep            |
        pages 7 1 1 deep125                           | TooDeep            |
        pages 7 1 0 5 deep124                         | ok                 | {"id":7,"jsonrpc":"2.0","result":{"token":1,"values":[]}}"#;
    a_life(&rt, rt.alloc(), rows)
}

/// No page is asked for before the sequence is there, while another one is on its way, or after the last.
#[test]
fn pages_are_asked_for_one_by_one(rt: HostRuntime) -> Result<(), Fail> {
    let rows = r#"
        seeks list                                                              | 1               | {"id":1,"jsonrpc":"2.0","method":"list"}
        turns 1                                                                 | NoEnumerable    |
        aborts 1                                                                | NoEnumerable    |
        comes {"id":1,"jsonrpc":"2.0","result":{"token":7,"values":[4]}}        | answered 1      |
        turns 2                                                                 | NoEnumerable    |
        turns 1                                                                 | 2               | {"id":2,"jsonrpc":"2.0","method":"$/enumerator/next","params":{"token":7}}
        turns 1                                                                 | NextOutstanding |
        aborts 1                                                                | NextOutstanding |
        turns 2                                                                 | NoEnumerable    |
        comes {"id":2,"jsonrpc":"2.0","result":{"finished":false,"values":[5]}} | answered 2      |
        turns 1                                                                 | 3               | {"id":3,"jsonrpc":"2.0","method":"$/enumerator/next","params":{"token":7}}
        comes {"id":3,"jsonrpc":"2.0","result":{"finished":true,"values":[6]}}  | answered 3      |
        turns 1                                                                 | NoEnumerable    |
        aborts 1                                                                | NoEnumerable    |"#;
    a_life(&rt, rt.alloc(), rows)
}

/// One is before its pages, and one between them.
#[test]
fn sequences_are_given_up(rt: HostRuntime) -> Result<(), Fail> {
    let rows = r#"
        seeks list                                                              | 1            | {"id":1,"jsonrpc":"2.0","method":"list"}
        seeks list                                                              | 2            | {"id":2,"jsonrpc":"2.0","method":"list"}
        comes {"id":1,"jsonrpc":"2.0","result":{"token":"t","values":[]}}       | answered 1   |
        comes {"id":2,"jsonrpc":"2.0","result":{"token":9,"values":[]}}         | answered 2   |
        aborts 1                                                                | ok           | {"jsonrpc":"2.0","method":"$/enumerator/abort","params":{"token":"t"}}
        aborts 1                                                                | NoEnumerable |
        turns 1                                                                 | NoEnumerable |
        turns 2                                                                 | 3            | {"id":3,"jsonrpc":"2.0","method":"$/enumerator/next","params":{"token":9}}
        comes {"id":3,"jsonrpc":"2.0","result":{"finished":false,"values":[5]}} | answered 3   |
        aborts 2                                                                | ok           | {"jsonrpc":"2.0","method":"$/enumerator/abort","params":{"token":9}}
        turns 2                                                                 | NoEnumerable |"#;
    a_life(&rt, rt.alloc(), rows)
}

/// Nor is one that was asked for as a value. One with a token and without values is.
#[test]
fn results_without_a_token_are_no_sequences(rt: HostRuntime) -> Result<(), Fail> {
    let rows = r#"
        asks list                                                           | 1            | {"id":1,"jsonrpc":"2.0","method":"list"}
        comes {"id":1,"jsonrpc":"2.0","result":{"token":7,"values":[4]}}    | answered 1   |
        turns 1                                                             | NoEnumerable |
        seeks list                                                          | 2            | {"id":2,"jsonrpc":"2.0","method":"list"}
        comes {"id":2,"jsonrpc":"2.0","result":{"values":[4]}}              | answered 2   |
        turns 2                                                             | NoEnumerable |
        seeks list                                                          | 3            | {"id":3,"jsonrpc":"2.0","method":"list"}
        comes {"id":3,"jsonrpc":"2.0","result":{"token":true,"values":[4]}} | answered 3   |
        turns 3                                                             | NoEnumerable |
        seeks list                                                          | 4            | {"id":4,"jsonrpc":"2.0","method":"list"}
        comes {"error":{"code":-1,"message":"no"},"id":4,"jsonrpc":"2.0"}   | answered 4   |
        turns 4                                                             | NoEnumerable |
        seeks list                                                          | 5            | {"id":5,"jsonrpc":"2.0","method":"list"}
        comes {"id":5,"jsonrpc":"2.0","result":{"token":7}}                 | answered 5   |
        turns 5                                                             | 6            | {"id":6,"jsonrpc":"2.0","method":"$/enumerator/next","params":{"token":7}}"#;
    a_life(&rt, rt.alloc(), rows)
}

/// A page that does not tell that it is the last has more behind it, and an error in place of a page is the end.
#[test]
fn other_pages(rt: HostRuntime) -> Result<(), Fail> {
    let rows = r#"
        seeks list                                                                     | 1            | {"id":1,"jsonrpc":"2.0","method":"list"}
        comes {"id":1,"jsonrpc":"2.0","result":{"token":7,"values":[]}}                | answered 1   |
        turns 1                                                                        | 2            | {"id":2,"jsonrpc":"2.0","method":"$/enumerator/next","params":{"token":7}}
        comes {"id":2,"jsonrpc":"2.0","result":5}                                      | answered 2   |
        turns 1                                                                        | 3            | {"id":3,"jsonrpc":"2.0","method":"$/enumerator/next","params":{"token":7}}
        comes {"id":3,"jsonrpc":"2.0","result":{"finished":1}}                         | answered 3   |
        turns 1                                                                        | 4            | {"id":4,"jsonrpc":"2.0","method":"$/enumerator/next","params":{"token":7}}
        comes {"error":{"code":-32001,"message":"no sequence"},"id":4,"jsonrpc":"2.0"} | answered 4   |
        turns 1                                                                        | NoEnumerable |"#;
    a_life(&rt, rt.alloc(), rows)
}

/// Having ended or stopped, they neither ask for pages nor answer in pages.
#[test]
fn ends_that_do_not_run_have_no_sequences(rt: HostRuntime) -> Result<(), Fail> {
    let ended = r#"
        seeks list                                                      | 1                   | {"id":1,"jsonrpc":"2.0","method":"list"}
        comes {"id":1,"jsonrpc":"2.0","method":"list"}                  | asked 1 list absent |
        comes {"id":1,"jsonrpc":"2.0","result":{"token":7,"values":[]}} | answered 1          |
        ends                                                            | ok                  |
        turns 1                                                         | Ended(InputEnded)   |
        aborts 1                                                        | Ended(InputEnded)   |
        pages 1 0 0 5                                                   | Ended(InputEnded)   |
        pages 2 0 0 5                                                   | Ended(InputEnded)   |"#;
    let stopped = r#"
        seeks list                                                      | 1          | {"id":1,"jsonrpc":"2.0","method":"list"}
        comes {"id":1,"jsonrpc":"2.0","result":{"token":7,"values":[]}} | answered 1 |
        stops                                                           | ok         |
        turns 1                                                         | Stopped    |
        aborts 1                                                        | Stopped    |
        turns 2                                                         | Stopped    |
        pages 1 0 0 5                                                   | Stopped    |"#;
    a_life(&rt, rt.alloc(), ended)?;
    a_life(&rt, rt.alloc(), stopped)
}
