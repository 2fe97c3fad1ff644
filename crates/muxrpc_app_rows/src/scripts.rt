//! Worked scripts with their reports.

use crate::reports::are_reported;
use std::test::Fail;

/// Nothing happens.
const EMPTY: &str = "script 1
version 3
";

const EMPTY_REPORT: &str = "report 1
0 start
state
A running
B running
end
";

/// Five bytes go in two frames, because the peer's window has room for four.
pub const CREDIT: &str = "script 1
version 3
offer A a 8
deliver B all
accept B A1 4
deliver A all
write A A1 68656c6c6f
deliver B all
read B A1 2
deliver A all
deliver B all
read B A1 10
";

const CREDIT_REPORT: &str = "report 1
0 start
1 channel A1
 A> 94000101c40492a16108
2 delivered 10
 B offered A1
3 ok
 B> 940101ffc4029104
4 delivered 8
 A accepted A1
5 ok
 A> 94020101c40468656c6c
6 delivered 10
 B content A1 4
7 bytes 6865
 B> 940501ffc4029102
8 delivered 8
 A credit A1 2
 A> 94020101c4016f
9 delivered 7
 B content A1 1
10 bytes 6c6c6f
 B> 940501ffc4029103
state
A running
A A1 live written 5 emitted 5 taken 0 handed 0
B running
B A1 live written 0 emitted 0 taken 5 handed 5
end
";

/// Version 1, whose odd side has the greater nonce: no offer goes before the peer's handshake is applied, and content goes without windows.
const VERSION_1: &str = "script 1
version 1
nonce A 00000000000000000000000000000000
nonce B 01010101010101010101010101010101
offer B a 8
deliver B all
offer B a 8
deliver A all
offer A a 8
accept A B1 8
deliver B all
write B B1 68656c6c6f
deliver A all
read A B1 10
";

const VERSION_1_REPORT: &str = "report 1
0 start
 A> 2fdf1d5000000000000000000000000000000000
 B> 2fdf1d5001010101010101010101010101010101
1 refused 48 NotReady
2 delivered 20
 B ready
3 channel B1
 B> 0000000001000161
4 delivered 28
 A ready
 A offered B1
5 channel A2
 A> 0000000002000161
6 ok
 A> 01000000010000
7 delivered 15
 B offered A2
 B accepted B1
8 ok
 B> 0200000001000568656c6c6f
9 delivered 12
 A content B1 5
10 bytes 68656c6c6f
state
A running
A A2 waiting written 0 emitted 0 taken 0 handed 0
A B1 live written 0 emitted 0 taken 5 handed 5
B running
B A2 heard written 0 emitted 0 taken 0 handed 0
B B1 live written 5 emitted 5 taken 0 handed 0
end
";

/// Version 2, in which A has the greater nonce.
const VERSION_2: &str = "script 1
version 2
nonce A 01010101010101010101010101010101
nonce B 00000000000000000000000000000000
deliver A all
deliver B all
offer A a 8
";

const VERSION_2_REPORT: &str = "report 1
0 start
 A> 92920200c41001010101010101010101010101010101
 B> 92920200c41000000000000000000000000000000000
1 delivered 22
 A ready
2 delivered 22
 B ready
3 channel A1
 A> 930001c40492a16108
state
A running
A A1 waiting written 0 emitted 0 taken 0 handed 0
B running
end
";

/// Version 2 with equal nonces.
const SAME_NONCES: &str = "script 1
version 2
nonce A 000102030405060708090a0b0c0d0e0f
nonce B 000102030405060708090a0b0c0d0e0f
deliver B all
offer B a 8
";

const SAME_NONCES_REPORT: &str = "report 1
0 start
 A> 92920200c410000102030405060708090a0b0c0d0e0f
 B> 92920200c410000102030405060708090a0b0c0d0e0f
1 delivered 22
 B ended 6 22 SameNonce
2 refused 42 Ended
state
A running
B ended 6 22 SameNonce
end
";

/// A termination crosses content, which is ignored.
const CROSSING: &str = "script 1
version 3
offer A a 4
deliver B all
accept B A1 8
deliver A all
terminate A A1
write B A1 78
deliver A all
deliver B all
deliver A all
write A A1 00
";

const CROSSING_REPORT: &str = "report 1
0 start
1 channel A1
 A> 94000101c40492a16104
2 delivered 10
 B offered A1
3 ok
 B> 940101ffc4029108
4 delivered 8
 A accepted A1
5 ok
 A> 93040101
6 ok
 B> 940201ffc40178
7 delivered 7
 A ignored A1
8 delivered 4
 B closed A1
 B> 930401ff
9 delivered 4
 A closed A1
10 refused 40 NoChannel
state
A running
A A1 closed written 0 emitted 0 taken 0 handed 0
B running
B A1 closed written 1 emitted 1 taken 0 handed 0
end
";

/// Both complete, and the channel is closed at both ends.
const BOTH_COMPLETE: &str = "script 1
version 3
offer A a 8
deliver B all
accept B A1 8
deliver A all
complete A A1
complete B A1
deliver B all
deliver A all
deliver B all
";

const BOTH_COMPLETE_REPORT: &str = "report 1
0 start
1 channel A1
 A> 94000101c40492a16108
2 delivered 10
 B offered A1
3 ok
 B> 940101ffc4029108
4 delivered 8
 A accepted A1
5 ok
 A> 93030101
6 ok
 B> 930301ff
7 delivered 4
 B completed A1
 B> 930401ff
8 delivered 8
 A completed A1
 A closed A1
 A> 93040101
9 delivered 4
 B closed A1
state
A running
A A1 closed written 0 emitted 0 taken 0 handed 0
B running
B A1 closed written 0 emitted 0 taken 0 handed 0
end
";

/// The stream into a side ends, and the other goes on.
const ENDS: &str = "script 1
version 3
offer A a 8
deliver B all
end B
deliver B all
end B
accept B A1 4
offer A b 8
end A
write A A1 61
";

const ENDS_REPORT: &str = "report 1
0 start
1 channel A1
 A> 94000101c40492a16108
2 delivered 10
 B offered A1
3 ended
4 delivered 0
5 ended
6 refused 42 Ended
7 channel A2
 A> 94000201c40492a16208
8 ended
9 refused 42 Ended
state
A ended input
A A1 waiting written 0 emitted 0 taken 0 handed 0
A A2 waiting written 0 emitted 0 taken 0 handed 0
B ended input
B A1 heard written 0 emitted 0 taken 0 handed 0
end
";

const ROWS: &[(&str, &str)] = &[
    (EMPTY, EMPTY_REPORT),
    (CREDIT, CREDIT_REPORT),
    (VERSION_1, VERSION_1_REPORT),
    (VERSION_2, VERSION_2_REPORT),
    (SAME_NONCES, SAME_NONCES_REPORT),
    (CROSSING, CROSSING_REPORT),
    (BOTH_COMPLETE, BOTH_COMPLETE_REPORT),
    (ENDS, ENDS_REPORT),
];

#[test]
fn scripts_have_their_reports(rt: HostRuntime) -> Result<(), Fail> {
    are_reported(&rt, rt.alloc(), ROWS)
}
