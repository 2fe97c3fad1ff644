//! Worked scripts with cancellation and progress, and their reports.

use crate::reports::are_reported_on_it;
use std::test::Fail;

/// A cancellation that crosses the reply: the peer has answered, and the outcome stays.
const LATE_CANCEL: &str = "attach A A1 header json
attach B A1 header json
request A A1 add plain [2,3]
deliver B all
deliver A all
result B A1 1 5
cancel A A1 1
deliver A all
deliver B all
outcome A A1 1
cancel A A1 1
";

const LATE_CANCEL_REPORT: &str = "5 ok
6 ok
7 request 1
 A> 94020101c44c436f6e74656e742d4c656e6774683a2035340d0a0d0a7b226964223a312c226a736f6e727063223a22322e30222c226d6574686f64223a22616464222c22706172616d73223a5b322c335d7d
8 delivered 82
 B content A1 76
 B asked A1 1 add
 B> 940501ffc402914c
9 delivered 8
 A credit A1 76
10 ok
 B> 940201ffc439436f6e74656e742d4c656e6774683a2033350d0a0d0a7b226964223a312c226a736f6e727063223a22322e30222c22726573756c74223a357d
11 ok
 A> 94020101c454436f6e74656e742d4c656e6774683a2036320d0a0d0a7b226a736f6e727063223a22322e30222c226d6574686f64223a22242f63616e63656c52657175657374222c22706172616d73223a7b226964223a317d7d
12 delivered 63
 A content A1 57
 A answered A1 1
 A> 94050101c4029139
13 delivered 98
 B content A1 84
 B handled A1 $/cancelRequest
 B credit A1 57
 B> 940501ffc4029154
14 replied 5
15 refused 70 NoRequest
state
A running
A A1 live written 160 emitted 160 taken 57 handed 57
A A1 request 1 replied 5
B running
B A1 live written 57 emitted 57 taken 160 handed 160
end
";

/// A request that is cancelled while it waits, and is answered by the code for that.
const CANCELLED: &str = "attach A A1 header json
attach B A1 header json
request A A1 find plain [\"x\"]
cancel A A1 1
cancel A A1 1
cancel A A1 2
deliver B all
fault B A1 1 -32800 \"cancelled\"
deliver A all
outcome A A1 1
reports A A1 1
reports A A1 2
";

const CANCELLED_REPORT: &str = "5 ok
6 ok
7 request 1
 A> 94020101c44d436f6e74656e742d4c656e6774683a2035350d0a0d0a7b226964223a312c226a736f6e727063223a22322e30222c226d6574686f64223a2266696e64222c22706172616d73223a5b2278225d7d
8 ok
 A> 94020101c454436f6e74656e742d4c656e6774683a2036320d0a0d0a7b226a736f6e727063223a22322e30222c226d6574686f64223a22242f63616e63656c52657175657374222c22706172616d73223a7b226964223a317d7d
9 refused 71 AlreadyCancelled
10 refused 70 NoRequest
11 delivered 173
 B content A1 77
 B asked A1 1 find
 B content A1 84
 B cancelled A1 1
 B> 940501ffc402914d940501ffc4029154
12 ok
 B> 940201ffc45c436f6e74656e742d4c656e6774683a2037300d0a0d0a7b226572726f72223a7b22636f6465223a2d33323830302c226d657373616765223a2263616e63656c6c6564227d2c226964223a312c226a736f6e727063223a22322e30227d
13 delivered 114
 A credit A1 77
 A credit A1 84
 A content A1 92
 A answered A1 1
 A> 94050101c402915c
14 failed -32800 \"cancelled\"
15 refused 73 NoToken
16 refused 70 NoRequest
state
A running
A A1 live written 161 emitted 161 taken 92 handed 92
A A1 request 1 failed -32800 \"cancelled\"
B running
B A1 live written 92 emitted 92 taken 161 handed 161
end
";

/// A report on a request that gave its number as the token of its progress.
const PROGRESS: &str = "attach A A1 header json
attach B A1 header json
request A A1 work plain [{\"$progress\":true}]
deliver B all
report B A1 1 1 50
deliver A all
reports A A1 1
reports A A1 1
";

const PROGRESS_REPORT: &str = "5 ok
6 ok
7 request 1
 A> 94020101c44b436f6e74656e742d4c656e6774683a2035330d0a0d0a7b226964223a312c226a736f6e727063223a22322e30222c226d6574686f64223a22776f726b222c22706172616d73223a5b315d7d
8 delivered 81
 B content A1 75
 B asked A1 1 work
 B> 940501ffc402914b
9 ok
 B> 940201ffc45d436f6e74656e742d4c656e6774683a2037310d0a0d0a7b226a736f6e727063223a22322e30222c226d6574686f64223a22242f70726f6772657373222c22706172616d73223a7b22746f6b656e223a312c2276616c7565223a35307d7d
10 delivered 107
 A credit A1 75
 A content A1 93
 A reported A1 1
 A> 94050101c402915d
11 report 50
12 report none
state
A running
A A1 live written 75 emitted 75 taken 93 handed 93
A A1 request 1 pending
B running
B A1 live written 93 emitted 93 taken 75 handed 75
end
";

/// What was reported can be taken after the reply too, until the request is forgotten.
const KEPT: &str = "attach A A1 header json
attach B A1 header json
request A A1 work plain [{\"$progress\":true}]
deliver B all
report B A1 1 1 50
result B A1 1 0
deliver A all
deliver B all
reports A A1 1
report B A1 1 1 60
forget A A1 1
reports A A1 1
";

const KEPT_REPORT: &str = "5 ok
6 ok
7 request 1
 A> 94020101c44b436f6e74656e742d4c656e6774683a2035330d0a0d0a7b226964223a312c226a736f6e727063223a22322e30222c226d6574686f64223a22776f726b222c22706172616d73223a5b315d7d
8 delivered 81
 B content A1 75
 B asked A1 1 work
 B> 940501ffc402914b
9 ok
 B> 940201ffc45d436f6e74656e742d4c656e6774683a2037310d0a0d0a7b226a736f6e727063223a22322e30222c226d6574686f64223a22242f70726f6772657373222c22706172616d73223a7b22746f6b656e223a312c2276616c7565223a35307d7d
10 ok
 B> 940201ffc439436f6e74656e742d4c656e6774683a2033350d0a0d0a7b226964223a312c226a736f6e727063223a22322e30222c22726573756c74223a307d
11 delivered 170
 A credit A1 75
 A content A1 93
 A reported A1 1
 A content A1 57
 A answered A1 1
 A> 94050101c402915d94050101c4029139
12 delivered 16
 B credit A1 93
 B credit A1 57
13 report 50
14 refused 70 NoRequest
15 ok
16 refused 70 NoRequest
state
A running
A A1 live written 75 emitted 75 taken 150 handed 150
B running
B A1 live written 150 emitted 150 taken 75 handed 75
end
";

/// In MessagePack: reports are kept in their order, and only where their token is the number of a request with progress.
const TOKENS: &str = "attach A A1 length pack
attach B A1 length pack
request A A1 work plain [7,{\"$progress\":true}]
request A A1 ping plain -
deliver B all
report B A1 1 1 {\"done\": 50}
report B A1 1 2 1
report B A1 2 \"x\" null
report B A1 1 1 51
deliver A all
reports A A1 1
reports A A1 1
reports A A1 1
reports A A1 2
";

const TOKENS_REPORT: &str = "5 ok
6 ok
7 request 1
 A> 94020101c42b0000002784a76a736f6e727063a3322e30a2696401a66d6574686f64a4776f726ba6706172616d73920701
8 request 2
 A> 94020101c4210000001d83a76a736f6e727063a3322e30a2696402a66d6574686f64a470696e67
9 delivered 88
 B content A1 43
 B asked A1 1 work
 B content A1 33
 B asked A1 2 ping
 B> 940501ffc402912b940501ffc4029121
10 ok
 B> 940201ffc43f0000003b83a76a736f6e727063a3322e30a66d6574686f64aa242f70726f6772657373a6706172616d7382a5746f6b656e01a576616c756581a4646f6e6532
11 ok
 B> 940201ffc4390000003583a76a736f6e727063a3322e30a66d6574686f64aa242f70726f6772657373a6706172616d7382a5746f6b656e02a576616c756501
12 ok
 B> 940201ffc43a0000003683a76a736f6e727063a3322e30a66d6574686f64aa242f70726f6772657373a6706172616d7382a5746f6b656ea178a576616c7565c0
13 ok
 B> 940201ffc4390000003583a76a736f6e727063a3322e30a66d6574686f64aa242f70726f6772657373a6706172616d7382a5746f6b656e01a576616c756533
14 delivered 275
 A credit A1 43
 A credit A1 33
 A content A1 63
 A reported A1 1
 A content A1 57
 A handled A1 $/progress
 A content A1 58
 A handled A1 $/progress
 A content A1 57
 A reported A1 1
 A> 94050101c402913f94050101c402913994050101c402913a94050101c4029139
15 report {\"done\":50}
16 report 51
17 report none
18 refused 73 NoToken
state
A running
A A1 live written 76 emitted 76 taken 235 handed 235
A A1 request 1 pending
A A1 request 2 pending
B running
B A1 live written 235 emitted 235 taken 76 handed 76
end
";

/// Arguments in order, requests in place of notifications, and wrong arguments; and calls that are refused.
const OTHER_MAKE: &str = "attach B A1 header json
write A A1 436f6e74656e742d4c656e6774683a2035320d0a0d0a7b226964223a312c226a736f6e727063223a22322e30222c226d6574686f64223a22776f726b222c22706172616d73223a5b5d7d
write A A1 436f6e74656e742d4c656e6774683a2036360d0a0d0a7b226964223a2263222c226a736f6e727063223a22322e30222c226d6574686f64223a22242f63616e63656c52657175657374222c22706172616d73223a5b315d7d
write A A1 436f6e74656e742d4c656e6774683a2036320d0a0d0a7b226a736f6e727063223a22322e30222c226d6574686f64223a22242f63616e63656c52657175657374222c22706172616d73223a7b226964223a327d7d
write A A1 436f6e74656e742d4c656e6774683a2036370d0a0d0a7b226964223a332c226a736f6e727063223a22322e30222c226d6574686f64223a22242f70726f6772657373222c22706172616d73223a7b22746f6b656e223a317d7d
write A A1 436f6e74656e742d4c656e6774683a2035320d0a0d0a7b226a736f6e727063223a22322e30222c226d6574686f64223a22242f70726f6772657373222c22706172616d73223a5b355d7d
write A A1 436f6e74656e742d4c656e6774683a2036340d0a0d0a7b226964223a342c226a736f6e727063223a22322e30222c226d6574686f64223a22242f70726f6772657373222c22706172616d73223a5b312c6e756c6c5d7d
deliver B all
notify B A1 log [{\"$progress\":true}]
cancel A A1 1
report A A1 1 1 5
reports A A1 1
";

const OTHER_MAKE_REPORT: &str = "5 ok
6 ok
 A> 94020101c44a436f6e74656e742d4c656e6774683a2035320d0a0d0a7b226964223a312c226a736f6e727063223a22322e30222c226d6574686f64223a22776f726b222c22706172616d73223a5b5d7d
7 ok
 A> 94020101c458436f6e74656e742d4c656e6774683a2036360d0a0d0a7b226964223a2263222c226a736f6e727063223a22322e30222c226d6574686f64223a22242f63616e63656c52657175657374222c22706172616d73223a5b315d7d
8 ok
 A> 94020101c454436f6e74656e742d4c656e6774683a2036320d0a0d0a7b226a736f6e727063223a22322e30222c226d6574686f64223a22242f63616e63656c52657175657374222c22706172616d73223a7b226964223a327d7d
9 ok
 A> 94020101c459436f6e74656e742d4c656e6774683a2036370d0a0d0a7b226964223a332c226a736f6e727063223a22322e30222c226d6574686f64223a22242f70726f6772657373222c22706172616d73223a7b22746f6b656e223a317d7d
10 ok
 A> 94020101c44a436f6e74656e742d4c656e6774683a2035320d0a0d0a7b226a736f6e727063223a22322e30222c226d6574686f64223a22242f70726f6772657373222c22706172616d73223a5b355d7d
11 ok
 A> 94020101c456436f6e74656e742d4c656e6774683a2036340d0a0d0a7b226964223a342c226a736f6e727063223a22322e30222c226d6574686f64223a22242f70726f6772657373222c22706172616d73223a5b312c6e756c6c5d7d
12 delivered 531
 B content A1 74
 B asked A1 1 work
 B content A1 88
 B cancelled A1 1
 B content A1 84
 B handled A1 $/cancelRequest
 B content A1 89
 B handled A1 $/progress
 B content A1 74
 B handled A1 $/progress
 B content A1 86
 B handled A1 $/progress
 B> 940501ffc402914a940501ffc4029158940201ffc43e436f6e74656e742d4c656e6774683a2034300d0a0d0a7b226964223a2263222c226a736f6e727063223a22322e30222c22726573756c74223a6e756c6c7d940501ffc4029154940501ffc4029159940201ffc460436f6e74656e742d4c656e6774683a2037340d0a0d0a7b226572726f72223a7b22636f6465223a2d33323630322c226d657373616765223a2262616420617267756d656e7473227d2c226964223a332c226a736f6e727063223a22322e30227d940501ffc402914a940501ffc4029156940201ffc43c436f6e74656e742d4c656e6774683a2033380d0a0d0a7b226964223a342c226a736f6e727063223a22322e30222c22726573756c74223a6e756c6c7d
13 refused 83 NeedsRequest
14 refused 81 NotAttached
15 refused 81 NotAttached
16 refused 81 NotAttached
state
A running
A A1 live written 495 emitted 495 taken 0 handed 0
B running
B A1 live written 218 emitted 218 taken 495 handed 495
end
";

const ROWS: &[(&str, &str)] = &[
    (LATE_CANCEL, LATE_CANCEL_REPORT),
    (CANCELLED, CANCELLED_REPORT),
    (PROGRESS, PROGRESS_REPORT),
    (KEPT, KEPT_REPORT),
    (TOKENS, TOKENS_REPORT),
    (OTHER_MAKE, OTHER_MAKE_REPORT),
];

#[test]
fn scripts_with_cancellation_and_progress_have_their_reports(rt: HostRuntime) -> Result<(), Fail> {
    are_reported_on_it(&rt, rt.alloc(), ROWS)
}
