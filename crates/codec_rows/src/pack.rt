//! Frames of versions 2 and 3.

use crate::fronts::{Codec, Front};
use crate::rows::{reads, tells};
use std::test::Fail;
use wire_base::Version;

#[test]
fn reads_every_width_of_version_3(rt: HostRuntime) -> Result<(), Fail> {
    let rows = "
        94000101c40492a16108 | Offer 1 | 94000101c40492a16108
        dd00000004cf0000000000000000cf0000000000000001cf0000000000000001c600000014dd00000002db0000000161cf0000000000000008 | Offer 1 | 94000101c40492a16108
        94d000d10001d200000001c5000492a16108 | Offer 1 | 94000101c40492a16108
        94000101c40391a161 | Offer 1 | 94000101c40391a161
        dc0004cc00cd0001ce00000001c5000592d9016108 | Offer 1 | 94000101c40492a16108
        940101ffc4029104 | OfferAccepted 1 | 940101ffc4029104
        dd00000004d30000000000000001d30000000000000001d3ffffffffffffffffc60000000edd00000001d30000000000000004 | OfferAccepted 1 | 940101ffc4029104
        940101d0ffc40190 | OfferAccepted 1 | 940101ffc40190
        940101d1ffffc403dc0000 | OfferAccepted 1 | 940101ffc40190
        94020101c40468656c6c | Content 1 | 94020101c40468656c6c
        dd00000004cf0000000000000002cf0000000000000001cf0000000000000001c60000000468656c6c | Content 1 | 94020101c40468656c6c
        93020101 | Content 1 | 93020101
        94020101c400 | Content 1 | 93020101
        93030101 | ContentWritingCompleted 1 | 93030101
        dd00000004cf0000000000000003cf0000000000000001cf0000000000000001c600000002ffff | ContentWritingCompleted 1 | 93030101
        930401ff | ChannelTerminated 1 | 930401ff
        dd00000004d30000000000000004d30000000000000001d3ffffffffffffffffc600000000 | ChannelTerminated 1 | 930401ff
        940501ffc4029102 | ContentProcessed 1 | 940501ffc4029102
        dd00000004cf0000000000000005cf0000000000000001d3ffffffffffffffffc60000000edd00000001cf0000000000000002 | ContentProcessed 1 | 940501ffc4029102
        9402cf7fffffffffffffff01c40161 | Content 9223372036854775807 | 9402cf7fffffffffffffff01c40161";
    reads(&rt, rt.alloc(), Codec::Packed(Version::Three), rows)
}

#[test]
fn reads_every_width_of_version_2(rt: HostRuntime) -> Result<(), Fail> {
    let rows = "
        930004c40492a16108 | Offer 4 | 930004c40492a16108
        dd00000003cf0000000000000000cf0000000000000004c600000014dd00000002db0000000161cf0000000000000008 | Offer 4 | 930004c40492a16108
        930104c4029104 | OfferAccepted 4 | 930104c4029104
        dd00000003d30000000000000001d30000000000000004c60000000edd00000001d30000000000000004 | OfferAccepted 4 | 930104c4029104
        930204c40468656c6c | Content 4 | 930204c40468656c6c
        dd00000003cf0000000000000002cf0000000000000004c60000000468656c6c | Content 4 | 930204c40468656c6c
        920304 | ContentWritingCompleted 4 | 920304
        dd00000003cf0000000000000003cf0000000000000004c600000000 | ContentWritingCompleted 4 | 920304
        920404 | ChannelTerminated 4 | 920404
        dd00000002d30000000000000004d30000000000000004 | ChannelTerminated 4 | 920404
        930504c4029102 | ContentProcessed 4 | 930504c4029102
        dd00000003cf0000000000000005cf0000000000000004c60000000edd00000001cf0000000000000002 | ContentProcessed 4 | 930504c4029102";
    reads(&rt, rt.alloc(), Codec::Packed(Version::Two), rows)
}

/// Each front is refused as soon as it is in, whatever stands behind it, and not before.
#[test]
fn refuses_the_first_token_of_version_3(rt: HostRuntime) -> Result<(), Fail> {
    let rows = "
        c1                     |        | 0 Unused
        cb                     |        | 0 Float
        d4                     |        | 0 Ext
        80                     |        | 0 BadShape
        de                     |        | 0 BadShape
        95                     |        | 0 BadShape
        92                     |        | 0 BadShape
        dc0005                 |        | 0 BadShape
        94a0                   |        | 1 BadCode
        9406                   | 0101   | 1 BadCode
        94ff                   |        | 1 BadCode
        94cd0100               |        | 1 BadCode
        94c7                   |        | 1 Ext
        940200                 |        | 2 BadId
        9402c0                 |        | 2 BadId
        9402ff                 |        | 2 BadId
        9402cf8000000000000000 |        | 2 BadId
        9402d3ffffffffffffffff |        | 2 BadId
        94020102               |        | 3 BadSource
        94020100               |        | 3 BadSource
        940201fe               |        | 3 BadSource
        940201d0fe             |        | 3 BadSource
        940201c4               |        | 3 BadSource
        94020101ca             |        | 4 Float
        94020101a0             |        | 4 BadShape
        94020101c0             |        | 4 BadShape
        94020101c600100001     |        | 4 PayloadTooLong
        93000101               |        | 4 BadOffer
        94000101c400           |        | 6 BadOffer
        94000101c403916161     |        | 7 BadOffer
        94000101c4029160       |        | 7 BadOffer
        94000101c401dc         |        | 6 BadOffer
        94000101c40190         |        | 6 BadOffer
        94000101c40193         |        | 6 BadOffer
        94000101c401a0         |        | 6 BadOffer
        94000101c401c1         |        | 6 Unused
        94000101c40391a261     |        | 7 BadOffer
        94000101c40391a1ff     |        | 7 BadName
        94000101c40291c7       |        | 7 Ext
        94000101c40292a0       |        | 8 BadOffer
        94000101c40492a161ff   |        | 9 BadOffer
        94000101c40c92a161cf8000000000000000 |        | 9 BadOffer
        94000101c40491a16100   |        | 9 BadOffer
        94000101c40491a161c1   |        | 9 Unused
        930101ff               |        | 4 BadAcceptance
        940101ffc40192         |        | 6 BadAcceptance
        940101ffc4029000       |        | 7 BadAcceptance
        940101ffc40191         |        | 7 BadAcceptance
        940101ffc40291a0       |        | 7 BadAcceptance
        930501ff               |        | 4 BadProcessed
        940501ffc40190         |        | 6 BadProcessed
        940501ffc40291a0       |        | 7 BadProcessed
        940501ffc4039102cb     |        | 8 Float";
    let front = Front::Frame(Codec::Packed(Version::Three));
    tells(&rt, rt.alloc(), &front, rows)
}

/// Each front is refused as soon as it is in, whatever stands behind it, and not before.
#[test]
fn refuses_the_first_token_of_version_2(rt: HostRuntime) -> Result<(), Fail> {
    let rows = "
        91       |        | 0 BadShape
        94       |        | 0 BadShape
        920004   |        | 3 BadOffer
        920104   |        | 3 BadAcceptance
        920504   |        | 3 BadProcessed
        93020401 |        | 3 BadShape
        9206     |        | 1 BadCode
        920200   |        | 2 BadId";
    let front = Front::Frame(Codec::Packed(Version::Two));
    tells(&rt, rt.alloc(), &front, rows)
}
