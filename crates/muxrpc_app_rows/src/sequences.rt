//! Worked scripts with sequences in pages, and their reports.

use crate::reports::are_reported_on_it;
use std::test::Fail;

/// Five values, two in a page: the first answer has none of them, and the third page is the last.
const FIVE: &str = "attach A A1 header json
attach B A1 header json
request A A1 count sequence []
deliver B all
sequence B A1 1 2 0 [1,2,3,4,5]
deliver A all
outcome A A1 1
next A A1 1
deliver B all
deliver A all
outcome A A1 2
next A A1 1
deliver B all
deliver A all
outcome A A1 3
next A A1 1
deliver B all
deliver A all
outcome A A1 4
next A A1 1
abort A A1 1
";

const FIVE_REPORT: &str = "5 ok
6 ok
7 request 1
 A> 94020101c44b436f6e74656e742d4c656e6774683a2035330d0a0d0a7b226964223a312c226a736f6e727063223a22322e30222c226d6574686f64223a22636f756e74222c22706172616d73223a5b5d7d
8 delivered 81
 B content A1 75
 B asked A1 1 count
 B> 940501ffc402914b
9 ok
 B> 940201ffc44f436f6e74656e742d4c656e6774683a2035370d0a0d0a7b226964223a312c226a736f6e727063223a22322e30222c22726573756c74223a7b22746f6b656e223a312c2276616c756573223a5b5d7d7d
10 delivered 93
 A credit A1 75
 A content A1 79
 A answered A1 1
 A> 94050101c402914f
11 replied {\"token\":1,\"values\":[]}
12 request 2
 A> 94020101c460436f6e74656e742d4c656e6774683a2037340d0a0d0a7b226964223a322c226a736f6e727063223a22322e30222c226d6574686f64223a22242f656e756d657261746f722f6e657874222c22706172616d73223a7b22746f6b656e223a317d7d
13 delivered 110
 B credit A1 79
 B content A1 96
 B handled A1 $/enumerator/next
 B> 940501ffc4029160940201ffc459436f6e74656e742d4c656e6774683a2036370d0a0d0a7b226964223a322c226a736f6e727063223a22322e30222c22726573756c74223a7b2266696e6973686564223a66616c73652c2276616c756573223a5b312c325d7d7d
14 delivered 103
 A credit A1 96
 A content A1 89
 A answered A1 2
 A> 94050101c4029159
15 replied {\"finished\":false,\"values\":[1,2]}
16 request 3
 A> 94020101c460436f6e74656e742d4c656e6774683a2037340d0a0d0a7b226964223a332c226a736f6e727063223a22322e30222c226d6574686f64223a22242f656e756d657261746f722f6e657874222c22706172616d73223a7b22746f6b656e223a317d7d
17 delivered 110
 B credit A1 89
 B content A1 96
 B handled A1 $/enumerator/next
 B> 940501ffc4029160940201ffc459436f6e74656e742d4c656e6774683a2036370d0a0d0a7b226964223a332c226a736f6e727063223a22322e30222c22726573756c74223a7b2266696e6973686564223a66616c73652c2276616c756573223a5b332c345d7d7d
18 delivered 103
 A credit A1 96
 A content A1 89
 A answered A1 3
 A> 94050101c4029159
19 replied {\"finished\":false,\"values\":[3,4]}
20 request 4
 A> 94020101c460436f6e74656e742d4c656e6774683a2037340d0a0d0a7b226964223a342c226a736f6e727063223a22322e30222c226d6574686f64223a22242f656e756d657261746f722f6e657874222c22706172616d73223a7b22746f6b656e223a317d7d
21 delivered 110
 B credit A1 89
 B content A1 96
 B handled A1 $/enumerator/next
 B> 940501ffc4029160940201ffc456436f6e74656e742d4c656e6774683a2036340d0a0d0a7b226964223a342c226a736f6e727063223a22322e30222c22726573756c74223a7b2266696e6973686564223a747275652c2276616c756573223a5b355d7d7d
22 delivered 100
 A credit A1 96
 A content A1 86
 A answered A1 4
 A> 94050101c4029156
23 replied {\"finished\":true,\"values\":[5]}
24 refused 74 NoEnumerable
25 refused 74 NoEnumerable
state
A running
A A1 live written 363 emitted 363 taken 343 handed 343
A A1 request 1 replied {\"token\":1,\"values\":[]}
A A1 request 2 replied {\"finished\":false,\"values\":[1,2]}
A A1 request 3 replied {\"finished\":false,\"values\":[3,4]}
A A1 request 4 replied {\"finished\":true,\"values\":[5]}
B running
B A1 live written 343 emitted 343 taken 363 handed 363
end
";

/// While a page is on its way, neither another one can be asked for nor the sequence be given up. Then it can.
const OUTSTANDING: &str = "attach A A1 header json
attach B A1 header json
request A A1 count sequence []
deliver B all
sequence B A1 1 2 0 [1,2,3,4,5]
deliver A all
next A A1 1
next A A1 1
abort A A1 1
deliver B all
deliver A all
abort A A1 1
next A A1 1
abort A A1 1
deliver B all
";

const OUTSTANDING_REPORT: &str = "5 ok
6 ok
7 request 1
 A> 94020101c44b436f6e74656e742d4c656e6774683a2035330d0a0d0a7b226964223a312c226a736f6e727063223a22322e30222c226d6574686f64223a22636f756e74222c22706172616d73223a5b5d7d
8 delivered 81
 B content A1 75
 B asked A1 1 count
 B> 940501ffc402914b
9 ok
 B> 940201ffc44f436f6e74656e742d4c656e6774683a2035370d0a0d0a7b226964223a312c226a736f6e727063223a22322e30222c22726573756c74223a7b22746f6b656e223a312c2276616c756573223a5b5d7d7d
10 delivered 93
 A credit A1 75
 A content A1 79
 A answered A1 1
 A> 94050101c402914f
11 request 2
 A> 94020101c460436f6e74656e742d4c656e6774683a2037340d0a0d0a7b226964223a322c226a736f6e727063223a22322e30222c226d6574686f64223a22242f656e756d657261746f722f6e657874222c22706172616d73223a7b22746f6b656e223a317d7d
12 refused 75 NextOutstanding
13 refused 75 NextOutstanding
14 delivered 110
 B credit A1 79
 B content A1 96
 B handled A1 $/enumerator/next
 B> 940501ffc4029160940201ffc459436f6e74656e742d4c656e6774683a2036370d0a0d0a7b226964223a322c226a736f6e727063223a22322e30222c22726573756c74223a7b2266696e6973686564223a66616c73652c2276616c756573223a5b312c325d7d7d
15 delivered 103
 A credit A1 96
 A content A1 89
 A answered A1 2
 A> 94050101c4029159
16 ok
 A> 94020101c45a436f6e74656e742d4c656e6774683a2036380d0a0d0a7b226a736f6e727063223a22322e30222c226d6574686f64223a22242f656e756d657261746f722f61626f7274222c22706172616d73223a7b22746f6b656e223a317d7d
17 refused 74 NoEnumerable
18 refused 74 NoEnumerable
19 delivered 104
 B credit A1 89
 B content A1 90
 B handled A1 $/enumerator/abort
 B> 940501ffc402915a
state
A running
A A1 live written 261 emitted 261 taken 168 handed 168
A A1 request 1 replied {\"token\":1,\"values\":[]}
A A1 request 2 replied {\"finished\":false,\"values\":[1,2]}
B running
B A1 live written 168 emitted 168 taken 261 handed 261
end
";

/// In MessagePack: pages of two sequences by turns. A result that has all its values has no token, and one that was asked for as a value is not followed.
const BY_TURNS: &str = "attach A A1 length pack
attach B A1 length pack
request A A1 list sequence -
request A A1 list sequence -
request A A1 list sequence -
request A A1 list sequence -
request A A1 list plain -
deliver B all
sequence B A1 1 1 1 [[],{\"k\":null},\"x\"]
sequence B A1 2 4294967295 2 [1,-1,300,-300]
sequence B A1 3 1 4294967295 [1, 2]
sequence B A1 4 1 0 []
sequence B A1 5 1 0 [true]
deliver A all
outcome A A1 1
outcome A A1 2
outcome A A1 3
outcome A A1 4
outcome A A1 5
next A A1 2
next A A1 1
deliver B all
deliver A all
outcome A A1 6
outcome A A1 7
next A A1 1
next A A1 2
next A A1 3
next A A1 4
next A A1 5
next A A1 6
deliver B all
deliver A all
outcome A A1 8
next A A1 1
";

const BY_TURNS_REPORT: &str = "5 ok
6 ok
7 request 1
 A> 94020101c4210000001d83a76a736f6e727063a3322e30a2696401a66d6574686f64a46c697374
8 request 2
 A> 94020101c4210000001d83a76a736f6e727063a3322e30a2696402a66d6574686f64a46c697374
9 request 3
 A> 94020101c4210000001d83a76a736f6e727063a3322e30a2696403a66d6574686f64a46c697374
10 request 4
 A> 94020101c4210000001d83a76a736f6e727063a3322e30a2696404a66d6574686f64a46c697374
11 request 5
 A> 94020101c4210000001d83a76a736f6e727063a3322e30a2696405a66d6574686f64a46c697374
12 delivered 195
 B content A1 33
 B asked A1 1 list
 B content A1 33
 B asked A1 2 list
 B content A1 33
 B asked A1 3 list
 B content A1 33
 B asked A1 4 list
 B content A1 33
 B asked A1 5 list
 B> 940501ffc4029121940501ffc4029121940501ffc4029121940501ffc4029121940501ffc4029121
13 ok
 B> 940201ffc42d0000002983a76a736f6e727063a3322e30a2696401a6726573756c7482a5746f6b656e01a676616c7565739190
14 ok
 B> 940201ffc42e0000002a83a76a736f6e727063a3322e30a2696402a6726573756c7482a5746f6b656e02a676616c7565739201ff
15 ok
 B> 940201ffc4270000002383a76a736f6e727063a3322e30a2696403a6726573756c7481a676616c756573920102
16 ok
 B> 940201ffc4250000002183a76a736f6e727063a3322e30a2696404a6726573756c7481a676616c75657390
17 ok
 B> 940201ffc42c0000002883a76a736f6e727063a3322e30a2696405a6726573756c7482a5746f6b656e03a676616c75657390
18 delivered 281
 A credit A1 33
 A credit A1 33
 A credit A1 33
 A credit A1 33
 A credit A1 33
 A content A1 45
 A answered A1 1
 A content A1 46
 A answered A1 2
 A content A1 39
 A answered A1 3
 A content A1 37
 A answered A1 4
 A content A1 44
 A answered A1 5
 A> 94050101c402912d94050101c402912e94050101c402912794050101c402912594050101c402912c
19 replied {\"token\":1,\"values\":[[]]}
20 replied {\"token\":2,\"values\":[1,-1]}
21 replied {\"values\":[1,2]}
22 replied {\"values\":[]}
23 replied {\"token\":3,\"values\":[]}
24 request 6
 A> 94020101c43d0000003984a76a736f6e727063a3322e30a2696406a66d6574686f64b1242f656e756d657261746f722f6e657874a6706172616d7381a5746f6b656e02
25 request 7
 A> 94020101c43d0000003984a76a736f6e727063a3322e30a2696407a66d6574686f64b1242f656e756d657261746f722f6e657874a6706172616d7381a5746f6b656e01
26 delivered 174
 B credit A1 45
 B credit A1 46
 B credit A1 39
 B credit A1 37
 B credit A1 44
 B content A1 61
 B handled A1 $/enumerator/next
 B content A1 61
 B handled A1 $/enumerator/next
 B> 940501ffc402913d940201ffc4350000003183a76a736f6e727063a3322e30a2696406a6726573756c7482a866696e6973686564c3a676616c75657392cd012cd1fed4940501ffc402913d940201ffc4330000002f83a76a736f6e727063a3322e30a2696407a6726573756c7482a866696e6973686564c2a676616c7565739181a16bc0
27 delivered 132
 A credit A1 61
 A content A1 53
 A answered A1 6
 A credit A1 61
 A content A1 51
 A answered A1 7
 A> 94050101c402913594050101c4029133
28 replied {\"finished\":true,\"values\":[300,-300]}
29 replied {\"finished\":false,\"values\":[{\"k\":null}]}
30 request 8
 A> 94020101c43d0000003984a76a736f6e727063a3322e30a2696408a66d6574686f64b1242f656e756d657261746f722f6e657874a6706172616d7381a5746f6b656e01
31 refused 74 NoEnumerable
32 refused 74 NoEnumerable
33 refused 74 NoEnumerable
34 refused 74 NoEnumerable
35 refused 74 NoEnumerable
36 delivered 83
 B credit A1 53
 B credit A1 51
 B content A1 61
 B handled A1 $/enumerator/next
 B> 940501ffc402913d940201ffc4310000002d83a76a736f6e727063a3322e30a2696408a6726573756c7482a866696e6973686564c3a676616c75657391a178
37 delivered 63
 A credit A1 61
 A content A1 49
 A answered A1 8
 A> 94050101c4029131
38 replied {\"finished\":true,\"values\":[\"x\"]}
39 refused 74 NoEnumerable
state
A running
A A1 live written 348 emitted 348 taken 364 handed 364
A A1 request 1 replied {\"token\":1,\"values\":[[]]}
A A1 request 2 replied {\"token\":2,\"values\":[1,-1]}
A A1 request 3 replied {\"values\":[1,2]}
A A1 request 4 replied {\"values\":[]}
A A1 request 5 replied {\"token\":3,\"values\":[]}
A A1 request 6 replied {\"finished\":true,\"values\":[300,-300]}
A A1 request 7 replied {\"finished\":false,\"values\":[{\"k\":null}]}
A A1 request 8 replied {\"finished\":true,\"values\":[\"x\"]}
B running
B A1 live written 364 emitted 364 taken 348 handed 348
end
";

/// Answers that are refused as sequences, a token that the other side has not drawn, and requests whose results are no sequences.
const NO_SEQUENCE: &str = "attach A A1 header json
attach B A1 header json
request A A1 count sequence -
request A A1 count sequence -
next A A1 1
abort A A1 1
next A A1 3
deliver B all
sequence B A1 3 1 0 [1]
sequence B A1 3 0 0 [1]
sequence B A1 1 0 0 [1]
sequence B A1 1 0 0 []
sequence B A1 1 1 0 [0,[[[[[[[[[[[[[[[[[[[[[[[[[[[[[[[[[[[[[[[[[[[[[[[[[[[[[[[[[[[[[[[[[[[[[[[[[[[[[[[[[[[[[[[[[[[[[[[[[[[[[[[[[[[[[[[[[[[[[[[[[[[[[]]]]]]]]]]]]]]]]]]]]]]]]]]]]]]]]]]]]]]]]]]]]]]]]]]]]]]]]]]]]]]]]]]]]]]]]]]]]]]]]]]]]]]]]]]]]]]]]]]]]]]]]]]]]]]]]]]]]]]]]]]]]]]
result B A1 1 {\"token\":\"t\"}
fault B A1 2 -1 \"none\"
sequence B A1 1 1 0 [1]
deliver A all
outcome A A1 1
next A A1 2
next A A1 1
deliver B all
deliver A all
outcome A A1 3
next A A1 1
";

const NO_SEQUENCE_REPORT: &str = "5 ok
6 ok
7 request 1
 A> 94020101c43f436f6e74656e742d4c656e6774683a2034310d0a0d0a7b226964223a312c226a736f6e727063223a22322e30222c226d6574686f64223a22636f756e74227d
8 request 2
 A> 94020101c43f436f6e74656e742d4c656e6774683a2034310d0a0d0a7b226964223a322c226a736f6e727063223a22322e30222c226d6574686f64223a22636f756e74227d
9 refused 74 NoEnumerable
10 refused 74 NoEnumerable
11 refused 74 NoEnumerable
12 delivered 138
 B content A1 63
 B asked A1 1 count
 B content A1 63
 B asked A1 2 count
 B> 940501ffc402913f940501ffc402913f
13 refused 70 NoRequest
14 refused 70 NoRequest
15 refused 89 BadPage
16 refused 89 BadPage
17 refused 79 TooDeep
18 ok
 B> 940201ffc445436f6e74656e742d4c656e6774683a2034370d0a0d0a7b226964223a312c226a736f6e727063223a22322e30222c22726573756c74223a7b22746f6b656e223a2274227d7d
19 ok
 B> 940201ffc453436f6e74656e742d4c656e6774683a2036310d0a0d0a7b226572726f72223a7b22636f6465223a2d312c226d657373616765223a226e6f6e65227d2c226964223a322c226a736f6e727063223a22322e30227d
20 refused 70 NoRequest
21 delivered 180
 A credit A1 63
 A credit A1 63
 A content A1 69
 A answered A1 1
 A content A1 83
 A answered A1 2
 A> 94050101c402914594050101c4029153
22 replied {\"token\":\"t\"}
23 refused 74 NoEnumerable
24 request 3
 A> 94020101c462436f6e74656e742d4c656e6774683a2037360d0a0d0a7b226964223a332c226a736f6e727063223a22322e30222c226d6574686f64223a22242f656e756d657261746f722f6e657874222c22706172616d73223a7b22746f6b656e223a2274227d7d
25 delivered 120
 B credit A1 69
 B credit A1 83
 B content A1 98
 B handled A1 $/enumerator/next
 B> 940501ffc4029162940201ffc45e436f6e74656e742d4c656e6774683a2037320d0a0d0a7b226572726f72223a7b22636f6465223a2d33323030312c226d657373616765223a226e6f2073657175656e6365227d2c226964223a332c226a736f6e727063223a22322e30227d
26 delivered 108
 A credit A1 98
 A content A1 94
 A answered A1 3
 A> 94050101c402915e
27 failed -32001 \"no sequence\"
28 refused 74 NoEnumerable
state
A running
A A1 live written 224 emitted 224 taken 246 handed 246
A A1 request 1 replied {\"token\":\"t\"}
A A1 request 2 failed -1 \"none\"
A A1 request 3 failed -32001 \"no sequence\"
B running
B A1 live written 246 emitted 246 taken 224 handed 224
end
";

/// The end of a stream ends what is followed, and the request for a page is lost.
const ENDED: &str = "attach A A1 header json
attach B A1 header json
request A A1 count sequence []
deliver B all
sequence B A1 1 2 0 [1,2,3,4,5]
deliver A all
next A A1 1
end A
outcome A A1 2
next A A1 1
abort A A1 1
deliver B all
";

const ENDED_REPORT: &str = "5 ok
6 ok
7 request 1
 A> 94020101c44b436f6e74656e742d4c656e6774683a2035330d0a0d0a7b226964223a312c226a736f6e727063223a22322e30222c226d6574686f64223a22636f756e74222c22706172616d73223a5b5d7d
8 delivered 81
 B content A1 75
 B asked A1 1 count
 B> 940501ffc402914b
9 ok
 B> 940201ffc44f436f6e74656e742d4c656e6774683a2035370d0a0d0a7b226964223a312c226a736f6e727063223a22322e30222c22726573756c74223a7b22746f6b656e223a312c2276616c756573223a5b5d7d7d
10 delivered 93
 A credit A1 75
 A content A1 79
 A answered A1 1
 A> 94050101c402914f
11 request 2
 A> 94020101c460436f6e74656e742d4c656e6774683a2037340d0a0d0a7b226964223a322c226a736f6e727063223a22322e30222c226d6574686f64223a22242f656e756d657261746f722f6e657874222c22706172616d73223a7b22746f6b656e223a317d7d
12 ended
13 lost
14 refused 42 Ended
15 refused 42 Ended
16 delivered 110
 B credit A1 79
 B content A1 96
 B handled A1 $/enumerator/next
 B> 940501ffc4029160940201ffc459436f6e74656e742d4c656e6774683a2036370d0a0d0a7b226964223a322c226a736f6e727063223a22322e30222c22726573756c74223a7b2266696e6973686564223a66616c73652c2276616c756573223a5b312c325d7d7d
state
A ended input
A A1 live written 171 emitted 171 taken 79 handed 79
A A1 request 1 replied {\"token\":1,\"values\":[]}
A A1 request 2 lost
B running
B A1 live written 168 emitted 168 taken 171 handed 171
end
";

const ROWS: &[(&str, &str)] = &[
    (FIVE, FIVE_REPORT),
    (OUTSTANDING, OUTSTANDING_REPORT),
    (BY_TURNS, BY_TURNS_REPORT),
    (NO_SEQUENCE, NO_SEQUENCE_REPORT),
    (ENDED, ENDED_REPORT),
];

#[test]
fn scripts_with_sequences_have_their_reports(rt: HostRuntime) -> Result<(), Fail> {
    are_reported_on_it(&rt, rt.alloc(), ROWS)
}
