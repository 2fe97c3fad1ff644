//! Worked scripts with connections, and their reports.

use crate::reports::{are_reported_on_it, is_reported};
use std::test::Fail;

/// A message that is refused ends its connection, whose channel is terminated. The other channel goes on.
const REFUSED: &str = "script 1
version 3
offer A a 102400
offer A b 102400
deliver B all
accept B A1 102400
accept B A2 102400
deliver A all
attach B A1 header json
write A A1 436f6e74656e742d4c656e6774683a2035360d0a0d0a7b226964223a312c226a736f6e727063223a22322e30222c226d6574686f64223a22616464222c22706172616d73223a5b322c332e355d7d
deliver B all
deliver A all
write A A2 78
deliver B all
attach B A1 header json
";

const REFUSED_REPORT: &str = "report 1
0 start
1 channel A1
 A> 94000101c40892a161ce00019000
2 channel A2
 A> 94000201c40892a162ce00019000
3 delivered 28
 B offered A1
 B offered A2
4 ok
 B> 940101ffc40691ce00019000
5 ok
 B> 940102ffc40691ce00019000
6 delivered 24
 A accepted A1
 A accepted A2
7 ok
8 ok
 A> 94020101c44e436f6e74656e742d4c656e6774683a2035360d0a0d0a7b226964223a312c226a736f6e727063223a22322e30222c226d6574686f64223a22616464222c22706172616d73223a5b322c332e355d7d
9 delivered 84
 B content A1 78
 B rpc-ended A1 22 2 Float
 B> 940501ffc402914e930401ff
10 delivered 12
 A credit A1 78
 A closed A1
 A> 93040101
11 ok
 A> 94020201c40178
12 delivered 11
 B closed A1
 B content A2 1
13 refused 40 NoChannel
state
A running
A A1 closed written 78 emitted 78 taken 0 handed 0
A A2 live written 1 emitted 1 taken 0 handed 0
B running
B A1 closed written 0 emitted 0 taken 78 handed 78
B A2 live written 0 emitted 0 taken 1 handed 0
end
";

/// A call whose reply is cut by the end of the stream, a byte before its last: it is lost.
const CUT: &str = "attach A A1 header json
attach B A1 header json
request A A1 add plain [2,3]
deliver B all
deliver A all
result B A1 1 5
deliver A 62
end A
outcome A A1 1
";

const CUT_REPORT: &str = "5 ok
6 ok
7 request 1
 A> 94020101c44c436f6e74656e742d4c656e6774683a2035340d0a0d0a7b226964223a312c226a736f6e727063223a22322e30222c226d6574686f64223a22616464222c22706172616d73223a5b322c335d7d
8 delivered 82
 B content A1 76
 B asked A1 1 add
 B> 940501ffc402914c
9 delivered 8
 A credit A1 76
10 ok
 B> 940201ffc439436f6e74656e742d4c656e6774683a2033350d0a0d0a7b226964223a312c226a736f6e727063223a22322e30222c22726573756c74223a357d
11 delivered 62
12 ended
13 lost
state
A ended input
A A1 live written 76 emitted 76 taken 0 handed 0
A A1 request 1 lost
B running
B A1 live written 57 emitted 57 taken 76 handed 76
end
";

/// The same with the last byte: the reply is there, and stays.
const ANSWERED: &str = "attach A A1 header json
attach B A1 header json
request A A1 add plain [2,3]
deliver B all
deliver A all
result B A1 1 5
deliver A 63
end A
outcome A A1 1
";

const ANSWERED_REPORT: &str = "5 ok
6 ok
7 request 1
 A> 94020101c44c436f6e74656e742d4c656e6774683a2035340d0a0d0a7b226964223a312c226a736f6e727063223a22322e30222c226d6574686f64223a22616464222c22706172616d73223a5b322c335d7d
8 delivered 82
 B content A1 76
 B asked A1 1 add
 B> 940501ffc402914c
9 delivered 8
 A credit A1 76
10 ok
 B> 940201ffc439436f6e74656e742d4c656e6774683a2033350d0a0d0a7b226964223a312c226a736f6e727063223a22322e30222c22726573756c74223a357d
11 delivered 63
 A content A1 57
 A answered A1 1
 A> 94050101c4029139
12 ended
13 replied 5
state
A ended input
A A1 live written 76 emitted 76 taken 57 handed 57
A A1 request 1 replied 5
B running
B A1 live written 57 emitted 57 taken 76 handed 76
end
";

/// The same call in MessagePack, behind four-byte lengths.
const PACKED: &str = "attach A A1 length pack
attach B A1 length pack
request A A1 add plain [2,3]
deliver B all
result B A1 1 5
deliver A all
outcome A A1 1
";

const PACKED_REPORT: &str = "5 ok
6 ok
7 request 1
 A> 94020101c42a0000002684a76a736f6e727063a3322e30a2696401a66d6574686f64a3616464a6706172616d73920203
8 delivered 48
 B content A1 42
 B asked A1 1 add
 B> 940501ffc402912a
9 ok
 B> 940201ffc41d0000001983a76a736f6e727063a3322e30a2696401a6726573756c7405
10 delivered 43
 A credit A1 42
 A content A1 29
 A answered A1 1
 A> 94050101c402911d
11 replied 5
state
A running
A A1 live written 42 emitted 42 taken 29 handed 29
A A1 request 1 replied 5
B running
B A1 live written 29 emitted 29 taken 42 handed 42
end
";

/// A request whose id is spelled in nine bytes is the same request.
const WIDE_ID: &str = "attach B A1 length pack
write A A1 0000002e84a76a736f6e727063a3322e30a26964cf0000000000000001a66d6574686f64a3616464a6706172616d73920203
deliver B all
result B A1 1 5
";

const WIDE_ID_REPORT: &str = "5 ok
6 ok
 A> 94020101c4320000002e84a76a736f6e727063a3322e30a26964cf0000000000000001a66d6574686f64a3616464a6706172616d73920203
7 delivered 56
 B content A1 50
 B asked A1 1 add
 B> 940501ffc4029132
8 ok
 B> 940201ffc41d0000001983a76a736f6e727063a3322e30a2696401a6726573756c7405
state
A running
A A1 live written 50 emitted 50 taken 0 handed 0
B running
B A1 live written 29 emitted 29 taken 50 handed 50
end
";

/// Notifications, an error, and calls that are refused.
const ERRORS: &str = "attach A A1 header json
attach B A1 header json
notify A A1 log [\"x\"]
request A A1 find plain {\"b\":null,\"a\":1}
request A A1 ping plain -
outcome A A1 1
outcome A A1 3
deliver B all
fault B A1 1 -32601 \"no method\"
result B A1 1 5
result B A1 3 5
deliver A all
outcome A A1 1
forget A A1 1
outcome A A1 1
forget A A1 2
request A A1 $/x plain []
write A A1 78
request A B1 m plain []
end B
result B A1 2 5
deliver B all
";

const ERRORS_REPORT: &str = "5 ok
6 ok
7 ok
 A> 94020101c445436f6e74656e742d4c656e6774683a2034370d0a0d0a7b226a736f6e727063223a22322e30222c226d6574686f64223a226c6f67222c22706172616d73223a5b2278225d7d
8 request 1
 A> 94020101c458436f6e74656e742d4c656e6774683a2036360d0a0d0a7b226964223a312c226a736f6e727063223a22322e30222c226d6574686f64223a2266696e64222c22706172616d73223a7b2261223a312c2262223a6e756c6c7d7d
9 request 2
 A> 94020101c43e436f6e74656e742d4c656e6774683a2034300d0a0d0a7b226964223a322c226a736f6e727063223a22322e30222c226d6574686f64223a2270696e67227d
10 pending
11 refused 70 NoRequest
12 delivered 237
 B content A1 69
 B told A1 log
 B content A1 88
 B asked A1 1 find
 B content A1 62
 B asked A1 2 ping
 B> 940501ffc4029145940501ffc4029158940501ffc402913e
13 ok
 B> 940201ffc45c436f6e74656e742d4c656e6774683a2037300d0a0d0a7b226572726f72223a7b22636f6465223a2d33323630312c226d657373616765223a226e6f206d6574686f64227d2c226964223a312c226a736f6e727063223a22322e30227d
14 refused 70 NoRequest
15 refused 70 NoRequest
16 delivered 122
 A credit A1 69
 A credit A1 88
 A credit A1 62
 A content A1 92
 A answered A1 1
 A> 94050101c402915c
17 failed -32601 \"no method\"
18 ok
19 refused 70 NoRequest
20 refused 70 NoRequest
21 refused 82 ReservedMethod
22 refused 49 Attached
23 refused 81 NotAttached
24 ended
25 refused 42 Ended
26 delivered 0
state
A running
A A1 live written 219 emitted 219 taken 92 handed 92
A A1 request 2 pending
B ended input
B A1 live written 92 emitted 92 taken 219 handed 219
end
";

/// Methods of the extensions that aren't known, and a response to nothing.
const EXTENSIONS: &str = "attach B A1 header json
write A A1 436f6e74656e742d4c656e6774683a2035300d0a0d0a7b226964223a22785c2279222c226a736f6e727063223a22322e30222c226d6574686f64223a22242f756e6b6e6f776e227d
write A A1 436f6e74656e742d4c656e6774683a2033380d0a0d0a7b226a736f6e727063223a22322e30222c226d6574686f64223a22242f756e6b6e6f776e227d
write A A1 436f6e74656e742d4c656e6774683a2033380d0a0d0a7b226964223a372c226a736f6e727063223a22322e30222c22726573756c74223a6e756c6c7d
deliver B all
";

const EXTENSIONS_REPORT: &str = "5 ok
6 ok
 A> 94020101c448436f6e74656e742d4c656e6774683a2035300d0a0d0a7b226964223a22785c2279222c226a736f6e727063223a22322e30222c226d6574686f64223a22242f756e6b6e6f776e227d
7 ok
 A> 94020101c43c436f6e74656e742d4c656e6774683a2033380d0a0d0a7b226a736f6e727063223a22322e30222c226d6574686f64223a22242f756e6b6e6f776e227d
8 ok
 A> 94020101c43c436f6e74656e742d4c656e6774683a2033380d0a0d0a7b226964223a372c226a736f6e727063223a22322e30222c22726573756c74223a6e756c6c7d
9 delivered 210
 B content A1 72
 B handled A1 $/unknown
 B content A1 60
 B handled A1 $/unknown
 B content A1 60
 B stray A1
 B> 940501ffc4029148940201ffc461436f6e74656e742d4c656e6774683a2037350d0a0d0a7b226572726f72223a7b22636f6465223a2d33323630312c226d657373616765223a226e6f206d6574686f64227d2c226964223a22785c2279222c226a736f6e727063223a22322e30227d940501ffc402913c940501ffc402913c
state
A running
A A1 live written 192 emitted 192 taken 0 handed 0
B running
B A1 live written 97 emitted 97 taken 192 handed 192
end
";

const ROWS: &[(&str, &str)] = &[
    (CUT, CUT_REPORT),
    (ANSWERED, ANSWERED_REPORT),
    (PACKED, PACKED_REPORT),
    (WIDE_ID, WIDE_ID_REPORT),
    (ERRORS, ERRORS_REPORT),
    (EXTENSIONS, EXTENSIONS_REPORT),
];

#[test]
fn scripts_with_connections_have_their_reports(rt: HostRuntime) -> Result<(), Fail> {
    are_reported_on_it(&rt, rt.alloc(), ROWS)
}

#[test]
fn a_refused_message_ends_its_channel_alone(rt: HostRuntime) -> Result<(), Fail> {
    is_reported(&rt, rt.alloc(), REFUSED, REFUSED_REPORT)
}
