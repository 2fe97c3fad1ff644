//! Worked scripts with objects that are passed by handle, and their reports.

use crate::reports::are_reported_on_it;
use std::test::Fail;

/// Two objects that a service hands out. One is called and released by its holder, and the other lives on.
const HANDED_OUT: &str = "attach A A1 header json
attach B A1 header json
request A A1 make plain [3]
request A A1 make plain [4]
deliver B all
object B A1 1 40
object B A1 2 50
object B A1 2 60
deliver A all
outcome A A1 1
invoke A A1 1 bump plain [2]
deliver B all
result B A1 3 5
deliver A all
outcome A A1 3
release A A1 peer 1
deliver B all
invoke A A1 1 bump plain [2]
release A A1 peer 1
release B A1 own 1
invoke A A1 2 bump plain {\"by\":-1}
deliver B all
fault B A1 4 -32602 \"bad arguments\"
deliver A all
";

const HANDED_OUT_REPORT: &str = "5 ok
6 ok
7 request 1
 A> 94020101c44b436f6e74656e742d4c656e6774683a2035330d0a0d0a7b226964223a312c226a736f6e727063223a22322e30222c226d6574686f64223a226d616b65222c22706172616d73223a5b335d7d
8 request 2
 A> 94020101c44b436f6e74656e742d4c656e6774683a2035330d0a0d0a7b226964223a322c226a736f6e727063223a22322e30222c226d6574686f64223a226d616b65222c22706172616d73223a5b345d7d
9 delivered 162
 B content A1 75
 B asked A1 1 make
 B content A1 75
 B asked A1 2 make
 B> 940501ffc402914b940501ffc402914b
10 ok
 B> 940201ffc472436f6e74656e742d4c656e6774683a2039320d0a0d0a7b226964223a312c226a736f6e727063223a22322e30222c22726573756c74223a7b225f5f6a736f6e7270635f6d61727368616c6564223a312c2268616e646c65223a312c226c69666574696d65223a226578706c69636974227d7d
11 ok
 B> 940201ffc472436f6e74656e742d4c656e6774683a2039320d0a0d0a7b226964223a322c226a736f6e727063223a22322e30222c22726573756c74223a7b225f5f6a736f6e7270635f6d61727368616c6564223a312c2268616e646c65223a322c226c69666574696d65223a226578706c69636974227d7d
12 refused 70 NoRequest
13 delivered 256
 A credit A1 75
 A credit A1 75
 A content A1 114
 A answered A1 1
 A content A1 114
 A answered A1 2
 A> 94050101c402917294050101c4029172
14 replied {\"__jsonrpc_marshaled\":1,\"handle\":1,\"lifetime\":\"explicit\"}
15 request 3
 A> 94020101c45b436f6e74656e742d4c656e6774683a2036390d0a0d0a7b226964223a332c226a736f6e727063223a22322e30222c226d6574686f64223a22242f696e766f6b6550726f78792f312f62756d70222c22706172616d73223a5b325d7d
16 delivered 113
 B credit A1 114
 B credit A1 114
 B content A1 91
 B asked A1 3 object 40 bump
 B> 940501ffc402915b
17 ok
 B> 940201ffc439436f6e74656e742d4c656e6774683a2033350d0a0d0a7b226964223a332c226a736f6e727063223a22322e30222c22726573756c74223a357d
18 delivered 71
 A credit A1 91
 A content A1 57
 A answered A1 3
 A> 94050101c4029139
19 replied 5
20 ok
 A> 94020101c477436f6e74656e742d4c656e6774683a2039370d0a0d0a7b226a736f6e727063223a22322e30222c226d6574686f64223a22242f72656c656173654d61727368616c65644f626a656374222c22706172616d73223a7b2268616e646c65223a312c226f776e6564427953656e646572223a66616c73657d7d
21 delivered 133
 B credit A1 57
 B content A1 119
 B handled A1 $/releaseMarshaledObject
 B> 940501ffc4029177
22 refused 77 Released
23 refused 77 Released
24 refused 77 Released
25 request 4
 A> 94020101c461436f6e74656e742d4c656e6774683a2037350d0a0d0a7b226964223a342c226a736f6e727063223a22322e30222c226d6574686f64223a22242f696e766f6b6550726f78792f322f62756d70222c22706172616d73223a7b226279223a2d317d7d
26 delivered 103
 B content A1 97
 B asked A1 4 object 50 bump
 B> 940501ffc4029161
27 ok
 B> 940201ffc460436f6e74656e742d4c656e6774683a2037340d0a0d0a7b226572726f72223a7b22636f6465223a2d33323630322c226d657373616765223a2262616420617267756d656e7473227d2c226964223a342c226a736f6e727063223a22322e30227d
28 delivered 118
 A credit A1 119
 A credit A1 97
 A content A1 96
 A answered A1 4
 A> 94050101c4029160
state
A running
A A1 live written 457 emitted 457 taken 381 handed 381
A A1 request 1 replied {\"__jsonrpc_marshaled\":1,\"handle\":1,\"lifetime\":\"explicit\"}
A A1 request 2 replied {\"__jsonrpc_marshaled\":1,\"handle\":2,\"lifetime\":\"explicit\"}
A A1 request 3 replied 5
A A1 request 4 failed -32602 \"bad arguments\"
A A1 handle peer 1 released
A A1 handle peer 2 live
B running
B A1 live written 381 emitted 381 taken 457 handed 457
B A1 handle own 1 released
B A1 handle own 2 live
end
";

/// In MessagePack: an object as an argument, as a result, and as an argument of a call on an object. Both sides have handles
/// of the same numbers, which are told apart.
const PACKED: &str = "attach A A1 length pack
attach B A1 length pack
request A A1 open sequence [{\"$object\":[9,\"call\"]},{\"path\":\"a\"},{\"$object\":[18446744073709551615,\"explicit\"]}]
deliver B all
object B A1 1 0
deliver A all
outcome A A1 1
next A A1 1
invoke A A1 1 read plain [{\"$object\":[11,\"call\"]},{\"$handed\":1}]
invoke B A1 2 ready plain -
deliver A all
deliver B all
invoke B A1 3 done plain [[{\"__jsonrpc_marshaled\":1,\"handle\":5,\"lifetime\":\"explicit\"}]]
invoke B A1 1 late plain []
result B A1 2 {\"object\":{\"__jsonrpc_marshaled\":1,\"handle\":6,\"lifetime\":\"explicit\"}}
deliver A all
result A A1 1 true
fault A A1 2 -1 \"too late\"
deliver B all
outcome B A1 1
outcome B A1 2
release B A1 own 1
release A A1 own 2
deliver A all
deliver B all
";

const PACKED_REPORT: &str = "5 ok
6 ok
7 request 1
 A> 94020101c48d0000008984a76a736f6e727063a3322e30a2696401a66d6574686f64a46f70656ea6706172616d739383b35f5f6a736f6e7270635f6d61727368616c656401a668616e646c6501a86c69666574696d65a463616c6c81a470617468a16183b35f5f6a736f6e7270635f6d61727368616c656401a668616e646c6502a86c69666574696d65a86578706c69636974
8 delivered 147
 B content A1 141
 B asked A1 1 open
 B> 940501ffc40391cc8d
9 ok
 B> 940201ffc44c0000004883a76a736f6e727063a3322e30a2696401a6726573756c7483b35f5f6a736f6e7270635f6d61727368616c656401a668616e646c6501a86c69666574696d65a86578706c69636974
10 delivered 91
 A credit A1 141
 A content A1 76
 A answered A1 1
 A> 94050101c402914c
11 replied {\"__jsonrpc_marshaled\":1,\"handle\":1,\"lifetime\":\"explicit\"}
12 refused 74 NoEnumerable
13 request 2
 A> 94020101c4830000007f84a76a736f6e727063a3322e30a2696402a66d6574686f64b4242f696e766f6b6550726f78792f312f72656164a6706172616d739283b35f5f6a736f6e7270635f6d61727368616c656401a668616e646c6503a86c69666574696d65a463616c6c82b35f5f6a736f6e7270635f6d61727368616c656400a668616e646c6501
14 request 1
 B> 940201ffc4320000002e83a76a736f6e727063a3322e30a2696401a66d6574686f64b5242f696e766f6b6550726f78792f322f7265616479
15 delivered 56
 A content A1 50
 A asked A1 1 object 18446744073709551615 ready
 A> 94050101c4029132
16 delivered 153
 B credit A1 76
 B content A1 131
 B asked A1 2 object 0 read
 B credit A1 50
 B> 940501ffc40391cc83
17 request 2
 B> 940201ffc46a0000006684a76a736f6e727063a3322e30a2696402a66d6574686f64b4242f696e766f6b6550726f78792f332f646f6e65a6706172616d73919183b35f5f6a736f6e7270635f6d61727368616c656401a668616e646c6505a86c69666574696d65a86578706c69636974
18 refused 77 Released
19 ok
 B> 940201ffc4540000005083a76a736f6e727063a3322e30a2696402a6726573756c7481a66f626a65637483b35f5f6a736f6e7270635f6d61727368616c656401a668616e646c6506a86c69666574696d65a86578706c69636974
20 delivered 211
 A credit A1 131
 A content A1 106
 A asked A1 2 object 11 done
 A content A1 84
 A answered A1 2
 A> 94050101c402916a94050101c4029154
21 ok
 A> 94020101c41d0000001983a76a736f6e727063a3322e30a2696401a6726573756c74c3
22 ok
 A> 94020101c4330000002f83a76a736f6e727063a3322e30a2696402a56572726f7282a4636f6465ffa76d657373616765a8746f6f206c617465
23 delivered 108
 B credit A1 106
 B credit A1 84
 B content A1 29
 B answered A1 1
 B content A1 51
 B answered A1 2
 B> 940501ffc402911d940501ffc4029133
24 replied true
25 failed -1 \"too late\"
26 ok
 B> 940201ffc4500000004c83a76a736f6e727063a3322e30a66d6574686f64b8242f72656c656173654d61727368616c65644f626a656374a6706172616d7382a668616e646c6501ad6f776e6564427953656e646572c3
27 ok
 A> 94020101c4500000004c83a76a736f6e727063a3322e30a66d6574686f64b8242f72656c656173654d61727368616c65644f626a656374a6706172616d7382a668616e646c6502ad6f776e6564427953656e646572c3
28 delivered 102
 A credit A1 29
 A credit A1 51
 A content A1 80
 A handled A1 $/releaseMarshaledObject
 A> 94050101c4029150
29 delivered 94
 B content A1 80
 B handled A1 $/releaseMarshaledObject
 B credit A1 80
 B> 940501ffc4029150
state
A running
A A1 live written 432 emitted 432 taken 396 handed 396
A A1 request 1 replied {\"__jsonrpc_marshaled\":1,\"handle\":1,\"lifetime\":\"explicit\"}
A A1 request 2 replied {\"object\":{\"__jsonrpc_marshaled\":1,\"handle\":6,\"lifetime\":\"explicit\"}}
A A1 handle own 1 released
A A1 handle own 2 released
A A1 handle own 3 released
A A1 handle peer 1 released
B running
B A1 live written 396 emitted 396 taken 432 handed 432
B A1 request 1 replied true
B A1 request 2 failed -1 \"too late\"
B A1 handle own 1 released
B A1 handle peer 1 released
B A1 handle peer 2 released
B A1 handle peer 3 released
end
";

/// Whole arguments and whole results are objects, and values within them are not.
const WHOLE: &str = "attach A A1 header json
attach B A1 header json
request A A1 keep plain [{\"$object\":[8,\"explicit\"]},[{\"__jsonrpc_marshaled\":1,\"handle\":5,\"lifetime\":\"explicit\"}],{\"a\":{\"__jsonrpc_marshaled\":1,\"handle\":6,\"lifetime\":\"explicit\"}}]
notify A A1 log [{\"$object\":[9,\"explicit\"]},7]
deliver B all
result B A1 1 [{\"__jsonrpc_marshaled\":1,\"handle\":5,\"lifetime\":\"explicit\"}]
deliver A all
invoke B A1 5 poke plain []
invoke A A1 5 poke plain []
invoke B A1 2 poke plain {\"a\":[]}
deliver A all
";

const WHOLE_REPORT: &str = "5 ok
6 ok
7 request 1
 A> 94020101c50103436f6e74656e742d4c656e6774683a203233360d0a0d0a7b226964223a312c226a736f6e727063223a22322e30222c226d6574686f64223a226b656570222c22706172616d73223a5b7b225f5f6a736f6e7270635f6d61727368616c6564223a312c2268616e646c65223a312c226c69666574696d65223a226578706c69636974227d2c5b7b225f5f6a736f6e7270635f6d61727368616c6564223a312c2268616e646c65223a352c226c69666574696d65223a226578706c69636974227d5d2c7b2261223a7b225f5f6a736f6e7270635f6d61727368616c6564223a312c2268616e646c65223a362c226c69666574696d65223a226578706c69636974227d7d5d7d
8 ok
 A> 94020101c47f436f6e74656e742d4c656e6774683a203130340d0a0d0a7b226a736f6e727063223a22322e30222c226d6574686f64223a226c6f67222c22706172616d73223a5b7b225f5f6a736f6e7270635f6d61727368616c6564223a312c2268616e646c65223a322c226c69666574696d65223a226578706c69636974227d2c375d7d
9 delivered 399
 B content A1 259
 B asked A1 1 keep
 B content A1 127
 B told A1 log
 B> 940501ffc40491cd0103940501ffc402917f
10 ok
 B> 940201ffc474436f6e74656e742d4c656e6774683a2039340d0a0d0a7b226964223a312c226a736f6e727063223a22322e30222c22726573756c74223a5b7b225f5f6a736f6e7270635f6d61727368616c6564223a312c2268616e646c65223a352c226c69666574696d65223a226578706c69636974227d5d7d
11 delivered 140
 A credit A1 259
 A credit A1 127
 A content A1 116
 A answered A1 1
 A> 94050101c4029174
12 refused 76 NoHandle
13 refused 76 NoHandle
14 request 1
 B> 940201ffc460436f6e74656e742d4c656e6774683a2037340d0a0d0a7b226964223a312c226a736f6e727063223a22322e30222c226d6574686f64223a22242f696e766f6b6550726f78792f322f706f6b65222c22706172616d73223a7b2261223a5b5d7d7d
15 delivered 102
 A content A1 96
 A asked A1 1 object 9 poke
 A> 94050101c4029160
state
A running
A A1 live written 386 emitted 386 taken 212 handed 212
A A1 request 1 replied [{\"__jsonrpc_marshaled\":1,\"handle\":5,\"lifetime\":\"explicit\"}]
A A1 handle own 1 live
A A1 handle own 2 live
B running
B A1 live written 212 emitted 212 taken 386 handed 386
B A1 request 1 pending
B A1 handle peer 1 live
B A1 handle peer 2 live
end
";

/// A handle that goes back to its owner is a value there. An object has methods of any name, and calls on it are reported on
/// and cancelled as others are.
const BACK: &str = "attach A A1 header json
attach B A1 header json
notify A A1 here [{\"$object\":[7,\"explicit\"]}]
deliver B all
request B A1 compare plain [{\"$handed\":1},{\"$progress\":true},{\"$handed\":1}]
invoke B A1 1 a/b plain [{\"$handed\":1}]
invoke B A1 1 $/x plain []
deliver A all
report A A1 1 1 50
result A A1 1 true
result A A1 3 null
deliver B all
reports B A1 1
cancel B A1 2
deliver A all
fault A A1 2 -32800 \"cancelled\"
deliver B all
outcome B A1 2
";

const BACK_REPORT: &str = "5 ok
6 ok
7 ok
 A> 94020101c47e436f6e74656e742d4c656e6774683a203130330d0a0d0a7b226a736f6e727063223a22322e30222c226d6574686f64223a2268657265222c22706172616d73223a5b7b225f5f6a736f6e7270635f6d61727368616c6564223a312c2268616e646c65223a312c226c69666574696d65223a226578706c69636974227d5d7d
8 delivered 132
 B content A1 126
 B told A1 here
 B> 940501ffc402917e
9 request 1
 B> 940201ffc499436f6e74656e742d4c656e6774683a203133300d0a0d0a7b226964223a312c226a736f6e727063223a22322e30222c226d6574686f64223a22636f6d70617265222c22706172616d73223a5b7b225f5f6a736f6e7270635f6d61727368616c6564223a302c2268616e646c65223a317d2c312c7b225f5f6a736f6e7270635f6d61727368616c6564223a302c2268616e646c65223a317d5d7d
10 request 2
 B> 940201ffc47e436f6e74656e742d4c656e6774683a203130330d0a0d0a7b226964223a322c226a736f6e727063223a22322e30222c226d6574686f64223a22242f696e766f6b6550726f78792f312f612f62222c22706172616d73223a5b7b225f5f6a736f6e7270635f6d61727368616c6564223a302c2268616e646c65223a317d5d7d
11 request 3
 B> 940201ffc459436f6e74656e742d4c656e6774683a2036370d0a0d0a7b226964223a332c226a736f6e727063223a22322e30222c226d6574686f64223a22242f696e766f6b6550726f78792f312f242f78222c22706172616d73223a5b5d7d
12 delivered 394
 A credit A1 126
 A content A1 153
 A asked A1 1 compare
 A content A1 126
 A asked A1 2 object 7 a/b
 A content A1 89
 A asked A1 3 object 7 $/x
 A> 94050101c40391cc9994050101c402917e94050101c4029159
13 ok
 A> 94020101c45d436f6e74656e742d4c656e6774683a2037310d0a0d0a7b226a736f6e727063223a22322e30222c226d6574686f64223a22242f70726f6772657373222c22706172616d73223a7b22746f6b656e223a312c2276616c7565223a35307d7d
14 ok
 A> 94020101c43c436f6e74656e742d4c656e6774683a2033380d0a0d0a7b226964223a312c226a736f6e727063223a22322e30222c22726573756c74223a747275657d
15 ok
 A> 94020101c43c436f6e74656e742d4c656e6774683a2033380d0a0d0a7b226964223a332c226a736f6e727063223a22322e30222c22726573756c74223a6e756c6c7d
16 delivered 256
 B credit A1 153
 B credit A1 126
 B credit A1 89
 B content A1 93
 B reported A1 1
 B content A1 60
 B answered A1 1
 B content A1 60
 B answered A1 3
 B> 940501ffc402915d940501ffc402913c940501ffc402913c
17 report 50
18 ok
 B> 940201ffc454436f6e74656e742d4c656e6774683a2036320d0a0d0a7b226a736f6e727063223a22322e30222c226d6574686f64223a22242f63616e63656c52657175657374222c22706172616d73223a7b226964223a327d7d
19 delivered 114
 A credit A1 93
 A credit A1 60
 A credit A1 60
 A content A1 84
 A cancelled A1 2
 A> 94050101c4029154
20 ok
 A> 94020101c45c436f6e74656e742d4c656e6774683a2037300d0a0d0a7b226572726f72223a7b22636f6465223a2d33323830302c226d657373616765223a2263616e63656c6c6564227d2c226964223a322c226a736f6e727063223a22322e30227d
21 delivered 106
 B credit A1 84
 B content A1 92
 B answered A1 2
 B> 940501ffc402915c
22 failed -32800 \"cancelled\"
state
A running
A A1 live written 431 emitted 431 taken 452 handed 452
A A1 handle own 1 live
B running
B A1 live written 452 emitted 452 taken 431 handed 431
B A1 request 1 replied true
B A1 request 2 failed -32800 \"cancelled\"
B A1 request 3 replied null
B A1 handle peer 1 live
end
";

const ROWS: &[(&str, &str)] = &[
    (HANDED_OUT, HANDED_OUT_REPORT),
    (PACKED, PACKED_REPORT),
    (WHOLE, WHOLE_REPORT),
    (BACK, BACK_REPORT),
];

#[test]
fn scripts_with_objects_have_their_reports(rt: HostRuntime) -> Result<(), Fail> {
    are_reported_on_it(&rt, rt.alloc(), ROWS)
}
