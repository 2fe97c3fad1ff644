//! Messages, as in JSON-RPC 2.0, "Request object", "Notification" and "Response object".

use wire_base::{Datum, DatumList, Id, PairList, Text};

/// The parameters of a call: none, in order, or by name.
#[derive(Debug, Drop)]
pub enum Params {
    Absent,
    List(DatumList),
    Named(PairList),
}

/// A request, a notification, or one of the two forms of a response. An error may be without an id.
#[derive(Debug, Drop)]
pub enum Message {
    Request(Id, Text, Params),
    Notification(Text, Params),
    Result(Id, Datum),
    Error(Option<Id>, i64, Text, Option<Datum>),
}
