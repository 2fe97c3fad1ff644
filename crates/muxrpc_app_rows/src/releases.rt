//! Worked scripts with handles whose life ends, by a release, by an answer or by the end of a stream, and their reports.

use crate::reports::are_reported_on_it;
use std::test::Fail;

/// Both sides release one handle, and the two releases cross. Neither tells the other anything new, and the handle rests.
const BOTH_RELEASE: &str = "attach A A1 header json
attach B A1 header json
request A A1 keep plain [{\"$object\":[7,\"explicit\"]}]
deliver B all
release A A1 own 1
release B A1 peer 1
deliver A all
deliver B all
invoke B A1 1 poke plain []
";

const BOTH_RELEASE_REPORT: &str = "5 ok
6 ok
7 request 1
 A> 94020101c485436f6e74656e742d4c656e6774683a203131300d0a0d0a7b226964223a312c226a736f6e727063223a22322e30222c226d6574686f64223a226b656570222c22706172616d73223a5b7b225f5f6a736f6e7270635f6d61727368616c6564223a312c2268616e646c65223a312c226c69666574696d65223a226578706c69636974227d5d7d
8 delivered 139
 B content A1 133
 B asked A1 1 keep
 B> 940501ffc40391cc85
9 ok
 A> 94020101c476436f6e74656e742d4c656e6774683a2039360d0a0d0a7b226a736f6e727063223a22322e30222c226d6574686f64223a22242f72656c656173654d61727368616c65644f626a656374222c22706172616d73223a7b2268616e646c65223a312c226f776e6564427953656e646572223a747275657d7d
10 ok
 B> 940201ffc477436f6e74656e742d4c656e6774683a2039370d0a0d0a7b226a736f6e727063223a22322e30222c226d6574686f64223a22242f72656c656173654d61727368616c65644f626a656374222c22706172616d73223a7b2268616e646c65223a312c226f776e6564427953656e646572223a66616c73657d7d
11 delivered 134
 A credit A1 133
 A content A1 119
 A handled A1 $/releaseMarshaledObject
 A> 94050101c4029177
12 delivered 132
 B content A1 118
 B handled A1 $/releaseMarshaledObject
 B credit A1 119
 B> 940501ffc4029176
13 refused 77 Released
state
A running
A A1 live written 251 emitted 251 taken 119 handed 119
A A1 request 1 pending
A A1 handle own 1 released
B running
B A1 live written 119 emitted 119 taken 251 handed 251
B A1 handle peer 1 released
end
";

/// A handle whose lifetime is a call: the peer calls it while the request that carried it waits, and no more once that is
/// answered. A call that was on its way is answered all the same.
const CALL_LIFETIME: &str = "attach A A1 header json
attach B A1 header json
request A A1 keep plain [{\"$object\":[7,\"call\"]}]
deliver B all
invoke B A1 1 poke plain []
result B A1 1 null
invoke B A1 1 poke plain []
deliver A all
result A A1 1 5
deliver B all
outcome B A1 1
release B A1 peer 1
release A A1 own 1
";

const CALL_LIFETIME_REPORT: &str = "5 ok
6 ok
7 request 1
 A> 94020101c481436f6e74656e742d4c656e6774683a203130360d0a0d0a7b226964223a312c226a736f6e727063223a22322e30222c226d6574686f64223a226b656570222c22706172616d73223a5b7b225f5f6a736f6e7270635f6d61727368616c6564223a312c2268616e646c65223a312c226c69666574696d65223a2263616c6c227d5d7d
8 delivered 135
 B content A1 129
 B asked A1 1 keep
 B> 940501ffc40391cc81
9 request 1
 B> 940201ffc45a436f6e74656e742d4c656e6774683a2036380d0a0d0a7b226964223a312c226a736f6e727063223a22322e30222c226d6574686f64223a22242f696e766f6b6550726f78792f312f706f6b65222c22706172616d73223a5b5d7d
10 ok
 B> 940201ffc43c436f6e74656e742d4c656e6774683a2033380d0a0d0a7b226964223a312c226a736f6e727063223a22322e30222c22726573756c74223a6e756c6c7d
11 refused 77 Released
12 delivered 171
 A credit A1 129
 A content A1 90
 A asked A1 1 object 7 poke
 A content A1 60
 A answered A1 1
 A> 94050101c402915a94050101c402913c
13 ok
 A> 94020101c439436f6e74656e742d4c656e6774683a2033350d0a0d0a7b226964223a312c226a736f6e727063223a22322e30222c22726573756c74223a357d
14 delivered 79
 B credit A1 90
 B credit A1 60
 B content A1 57
 B answered A1 1
 B> 940501ffc4029139
15 replied 5
16 refused 77 Released
17 refused 77 Released
state
A running
A A1 live written 186 emitted 186 taken 150 handed 150
A A1 request 1 replied null
A A1 handle own 1 released
B running
B A1 live written 150 emitted 150 taken 186 handed 186
B A1 request 1 replied 5
B A1 handle peer 1 released
end
";

/// A call that crosses the release of its object is answered that there is none.
const CROSSING: &str = "attach A A1 header json
attach B A1 header json
request A A1 make plain -
deliver B all
object B A1 1 40
deliver A all
invoke A A1 1 bump plain [2]
release B A1 own 1
deliver B all
deliver A all
outcome A A1 2
release A A1 peer 1
";

const CROSSING_REPORT: &str = "5 ok
6 ok
7 request 1
 A> 94020101c43e436f6e74656e742d4c656e6774683a2034300d0a0d0a7b226964223a312c226a736f6e727063223a22322e30222c226d6574686f64223a226d616b65227d
8 delivered 68
 B content A1 62
 B asked A1 1 make
 B> 940501ffc402913e
9 ok
 B> 940201ffc472436f6e74656e742d4c656e6774683a2039320d0a0d0a7b226964223a312c226a736f6e727063223a22322e30222c22726573756c74223a7b225f5f6a736f6e7270635f6d61727368616c6564223a312c2268616e646c65223a312c226c69666574696d65223a226578706c69636974227d7d
10 delivered 128
 A credit A1 62
 A content A1 114
 A answered A1 1
 A> 94050101c4029172
11 request 2
 A> 94020101c45b436f6e74656e742d4c656e6774683a2036390d0a0d0a7b226964223a322c226a736f6e727063223a22322e30222c226d6574686f64223a22242f696e766f6b6550726f78792f312f62756d70222c22706172616d73223a5b325d7d
12 ok
 B> 940201ffc476436f6e74656e742d4c656e6774683a2039360d0a0d0a7b226a736f6e727063223a22322e30222c226d6574686f64223a22242f72656c656173654d61727368616c65644f626a656374222c22706172616d73223a7b2268616e646c65223a312c226f776e6564427953656e646572223a747275657d7d
13 delivered 105
 B credit A1 114
 B content A1 91
 B handled A1 $/invokeProxy/1/bump
 B> 940501ffc402915b940201ffc45c436f6e74656e742d4c656e6774683a2037300d0a0d0a7b226572726f72223a7b22636f6465223a2d33323030312c226d657373616765223a226e6f206f626a656374227d2c226964223a322c226a736f6e727063223a22322e30227d
14 delivered 230
 A content A1 118
 A handled A1 $/releaseMarshaledObject
 A credit A1 91
 A content A1 92
 A answered A1 2
 A> 94050101c402917694050101c402915c
15 failed -32001 \"no object\"
16 refused 77 Released
state
A running
A A1 live written 153 emitted 153 taken 324 handed 324
A A1 request 1 replied {\"__jsonrpc_marshaled\":1,\"handle\":1,\"lifetime\":\"explicit\"}
A A1 request 2 failed -32001 \"no object\"
A A1 handle peer 1 released
B running
B A1 live written 324 emitted 324 taken 153 handed 153
B A1 handle own 1 released
end
";

/// Calls that are refused, each by the first rule that it breaks. None of them draws a handle.
const REFUSED: &str = "attach A A1 header json
attach B A1 header json
request A A1 keep plain [{\"$object\":[7,\"explicit\"]}]
deliver B all
release B A1 peer 1
invoke B A1 2 poke plain [{\"__jsonrpc_marshaled\":1}]
invoke B A1 1 poke plain [{\"__jsonrpc_marshaled\":1}]
release B A1 own 1
release A A1 own 2
release A A1 peer 1
release B A1 peer 1
request A A1 keep plain [{\"__jsonrpc_marshaled\":null}]
request A A1 keep plain {\"a\":5,\"b\":{\"__jsonrpc_marshaled\":1,\"handle\":1}}
request B A1 keep plain [{\"$handed\":1},{\"$handed\":2}]
request B A1 keep plain [{\"$handed\":1}]
request B A1 keep plain [{\"$handed\":2},{\"__jsonrpc_marshaled\":0,\"handle\":1}]
notify A A1 log [{\"$object\":[8,\"call\"]}]
notify A A1 log [{\"__jsonrpc_marshaled\":1},{\"$object\":[8,\"call\"]}]
notify A A1 log [{\"__jsonrpc_marshaled\":1},{\"$object\":[8,\"explicit\"]}]
notify B A1 log [{\"$handed\":0}]
result B A1 1 {\"__jsonrpc_marshaled\":1,\"handle\":1,\"lifetime\":\"explicit\"}
result B A1 1 {\"__jsonrpc_marshaled\":1}
object B A1 2 1
object A A1 1 1
";

const REFUSED_REPORT: &str = "5 ok
6 ok
7 request 1
 A> 94020101c485436f6e74656e742d4c656e6774683a203131300d0a0d0a7b226964223a312c226a736f6e727063223a22322e30222c226d6574686f64223a226b656570222c22706172616d73223a5b7b225f5f6a736f6e7270635f6d61727368616c6564223a312c2268616e646c65223a312c226c69666574696d65223a226578706c69636974227d5d7d
8 delivered 139
 B content A1 133
 B asked A1 1 keep
 B> 940501ffc40391cc85
9 ok
 B> 940201ffc477436f6e74656e742d4c656e6774683a2039370d0a0d0a7b226a736f6e727063223a22322e30222c226d6574686f64223a22242f72656c656173654d61727368616c65644f626a656374222c22706172616d73223a7b2268616e646c65223a312c226f776e6564427953656e646572223a66616c73657d7d
10 refused 76 NoHandle
11 refused 77 Released
12 refused 76 NoHandle
13 refused 76 NoHandle
14 refused 76 NoHandle
15 refused 77 Released
16 refused 88 ReservedMember
17 refused 88 ReservedMember
18 refused 76 NoHandle
19 refused 77 Released
20 refused 88 ReservedMember
21 refused 83 NeedsRequest
22 refused 83 NeedsRequest
23 refused 88 ReservedMember
24 refused 76 NoHandle
25 refused 88 ReservedMember
26 refused 88 ReservedMember
27 refused 70 NoRequest
28 refused 70 NoRequest
state
A running
A A1 live written 133 emitted 133 taken 0 handed 0
A A1 request 1 pending
A A1 handle own 1 live
B running
B A1 live written 119 emitted 119 taken 133 handed 133
B A1 handle peer 1 released
end
";

/// The end of a stream ends all handles of that side.
const ENDED: &str = "attach A A1 header json
attach B A1 header json
request A A1 keep plain [{\"$object\":[7,\"explicit\"]},{\"$object\":[8,\"call\"]}]
request B A1 make plain -
deliver B all
deliver A all
object A A1 1 9
deliver B all
end B
invoke B A1 1 poke plain []
release B A1 peer 1
release B A1 own 1
object B A1 1 5
release A A1 own 2
";

const ENDED_REPORT: &str = "5 ok
6 ok
7 request 1
 A> 94020101c4bc436f6e74656e742d4c656e6774683a203136350d0a0d0a7b226964223a312c226a736f6e727063223a22322e30222c226d6574686f64223a226b656570222c22706172616d73223a5b7b225f5f6a736f6e7270635f6d61727368616c6564223a312c2268616e646c65223a312c226c69666574696d65223a226578706c69636974227d2c7b225f5f6a736f6e7270635f6d61727368616c6564223a312c2268616e646c65223a322c226c69666574696d65223a2263616c6c227d5d7d
8 request 1
 B> 940201ffc43e436f6e74656e742d4c656e6774683a2034300d0a0d0a7b226964223a312c226a736f6e727063223a22322e30222c226d6574686f64223a226d616b65227d
9 delivered 194
 B content A1 188
 B asked A1 1 keep
 B> 940501ffc40391ccbc
10 delivered 77
 A content A1 62
 A asked A1 1 make
 A credit A1 188
 A> 94050101c402913e
11 ok
 A> 94020101c472436f6e74656e742d4c656e6774683a2039320d0a0d0a7b226964223a312c226a736f6e727063223a22322e30222c22726573756c74223a7b225f5f6a736f6e7270635f6d61727368616c6564223a312c2268616e646c65223a332c226c69666574696d65223a226578706c69636974227d7d
12 delivered 128
 B credit A1 62
 B content A1 114
 B answered A1 1
 B> 940501ffc4029172
13 ended
14 refused 42 Ended
15 refused 42 Ended
16 refused 42 Ended
17 refused 42 Ended
18 ok
 A> 94020101c476436f6e74656e742d4c656e6774683a2039360d0a0d0a7b226a736f6e727063223a22322e30222c226d6574686f64223a22242f72656c656173654d61727368616c65644f626a656374222c22706172616d73223a7b2268616e646c65223a322c226f776e6564427953656e646572223a747275657d7d
state
A running
A A1 live written 420 emitted 420 taken 62 handed 62
A A1 request 1 pending
A A1 handle own 1 live
A A1 handle own 2 released
A A1 handle own 3 live
B ended input
B A1 live written 62 emitted 62 taken 302 handed 302
B A1 request 1 replied {\"__jsonrpc_marshaled\":1,\"handle\":3,\"lifetime\":\"explicit\"}
B A1 handle peer 1 released
B A1 handle peer 2 released
B A1 handle peer 3 released
end
";

const ROWS: &[(&str, &str)] = &[
    (BOTH_RELEASE, BOTH_RELEASE_REPORT),
    (CALL_LIFETIME, CALL_LIFETIME_REPORT),
    (CROSSING, CROSSING_REPORT),
    (REFUSED, REFUSED_REPORT),
    (ENDED, ENDED_REPORT),
];

#[test]
fn scripts_with_releases_have_their_reports(rt: HostRuntime) -> Result<(), Fail> {
    are_reported_on_it(&rt, rt.alloc(), ROWS)
}
