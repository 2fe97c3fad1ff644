//! Worked handles.

use crate::rows::a_life;
use crate::sides::Sides;
use std::test::Fail;

/// An owner of three handles: of object 10 until the response to request 1, of object 20 until that to request 2, and of object
/// 30.
const OWNER: &str = "
    owner offers 10 1 | ok
    owner offers 20 2 | ok
    owner offers 30   | ok";

/// A holder of handles 5, 3 and 9: the first ends with the response to request 8, the others with none.
const HOLDER: &str = "
    holder adopts 5 8 | ok
    holder adopts 3   | ok
    holder adopts 9   | ok";

#[test]
fn objects_are_offered_by_whole_values(rt: HostRuntime) -> Result<(), Fail> {
    let rows = "
        offered 1 7          | 7 Explicit
        offered 1 7 explicit | 7 Explicit
        offered 1 0 call     | 0 Call
        offered 0 7          | none
        offered 2 7 call     | none
        offered 1 -1 call    | none
        offered 1 7 Call     | none";
    a_life::<Sides>(&rt, rt.alloc(), &[rows])
}

#[test]
fn handles_are_drawn_in_order(rt: HostRuntime) -> Result<(), Fail> {
    let rows = "
        owner drawn               | 3
        owner objects             | none 10 20 30 none
        owner has-room 4294967292 | ok
        owner has-room 4294967293 | TooManyHandles";
    a_life::<Sides>(&rt, rt.alloc(), &[OWNER, rows])
}

#[test]
fn handles_end_with_their_response(rt: HostRuntime) -> Result<(), Fail> {
    let rows = "
        owner answered 3 | ok
        owner objects    | none 10 20 30 none
        owner answered 1 | ok
        owner objects    | none none 20 30 none
        owner ends       | ok
        owner objects    | none none none none none";
    a_life::<Sides>(&rt, rt.alloc(), &[OWNER, rows])
}

#[test]
fn an_ended_handle_is_used_no_more(rt: HostRuntime) -> Result<(), Fail> {
    let rows = "
        owner releases 3    | ok
        owner can-release 2 | ok
        owner can-release 3 | Released
        owner can-release 4 | NoHandle
        owner offers 40     | ok
        owner objects       | none 10 20 none 40";
    a_life::<Sides>(&rt, rt.alloc(), &[OWNER, rows])
}

/// Objects 10 and 20 are arguments of request 1, the first of them for the time of that call.
#[test]
fn arguments_draw_handles_in_order(rt: HostRuntime) -> Result<(), Fail> {
    let rows = "
        owner offers-all 1 call:10 progress explicit:20 | ok
        owner can-offer call:10                         | ok
        owner objects                                   | none 10 20 none none
        owner answered 1                                | ok
        owner objects                                   | none none 20 none none";
    a_life::<Sides>(&rt, rt.alloc(), &[rows])
}

#[test]
fn a_handle_stays_as_it_was_adopted(rt: HostRuntime) -> Result<(), Fail> {
    let rows = "
        holder adopts 3 8  | ok
        holder adopts 5    | ok
        holder numbers     | 3 5 9 none
        holder responded 8 | ok
        holder looks 3     | lives
        holder looks 5     | ended
        holder looks 9     | lives
        holder adopts 5    | ok
        holder looks 3     | lives
        holder looks 5     | ended
        holder looks 9     | lives
        holder ends        | ok
        holder looks 3     | ended
        holder looks 5     | ended
        holder looks 9     | ended";
    a_life::<Sides>(&rt, rt.alloc(), &[HOLDER, rows])
}

/// An argument that is no handle is told before one that has ended, wherever it is.
#[test]
fn arguments_go_back_while_they_live(rt: HostRuntime) -> Result<(), Fail> {
    let rows = "
        holder releases 5                          | ok
        holder can-hand handed:3 progress handed:9 | ok
        holder can-hand handed:5 progress handed:3 | Released
        holder can-hand handed:9 progress handed:5 | Released
        holder can-hand handed:3 progress handed:4 | NoHandle
        holder can-hand handed:5 progress handed:4 | NoHandle
        holder can-hand handed:4 progress handed:5 | NoHandle";
    a_life::<Sides>(&rt, rt.alloc(), &[HOLDER, rows])
}

#[test]
fn objects_of_a_call_come_in_requests(rt: HostRuntime) -> Result<(), Fail> {
    let rows = "
        holder adopts-value 1 1 7 call        | ok
        holder looks 7                        | lives
        anew                                  | ok
        holder adopts-value none 1 7 call     | ok
        holder looks 7                        | none
        anew                                  | ok
        holder adopts-value none 1 7 explicit | ok
        holder looks 7                        | lives
        anew                                  | ok
        holder adopts-value none 1 7          | ok
        holder looks 7                        | lives
        anew                                  | ok
        holder adopts-value 1 1 7 other       | ok
        holder looks 7                        | none";
    a_life::<Sides>(&rt, rt.alloc(), &[rows])
}

/// Of a repeated key the last value alone is an argument.
#[test]
fn arguments_offer_objects(rt: HostRuntime) -> Result<(), Fail> {
    let rows = "
        holder adopts-named a:1 1, b:1 3, a:1 2 | ok
        holder numbers                          | 2 3 none none";
    a_life::<Sides>(&rt, rt.alloc(), &[rows])
}

/// A release that crosses another one ends nothing, and those of the two sides are told apart.
#[test]
fn releases_can_cross(rt: HostRuntime) -> Result<(), Fail> {
    let rows = "
        peer-releases peer 3 | true
        peer-releases peer 3 | false
        owner objects        | none 10 20 30 none
        owner releases 3     | ok
        peer-releases own 3  | false
        holder looks 3       | ended
        holder looks 5       | lives
        holder looks 9       | lives";
    a_life::<Sides>(&rt, rt.alloc(), &[OWNER, HOLDER, rows])
}

#[test]
fn handles_stand_while_they_live(rt: HostRuntime) -> Result<(), Fail> {
    let rows = "
        owner releases 1  | ok
        holder releases 3 | ok
        stands own 0      | none
        stands own 1      | ended
        stands own 3      | lives
        stands own 4      | none
        stands peer 1     | none
        stands peer 3     | ended
        stands peer 9     | lives";
    a_life::<Sides>(&rt, rt.alloc(), &[OWNER, HOLDER, rows])
}
