//! What an end with connections is asked to do.

ghost use Rattle.std.specs.Prelude.{◌≡◌, IfOk};

use mux_items::ChannelKey;
use rpc_end::{Answer, Arguments, Expect, HandleKey, Terms};
use std::alloc::Global;
use wire_base::{Datum, Id, OutOfMemory, Text};

/// A call of an end with connections.
#[derive(Debug, Drop)]
pub enum Call {
    /// One of its multiplexing end.
    Mux(mux_items::Call),
    /// A connection is attached to a channel, to write and read its messages so.
    Attach(ChannelKey, Terms),
    /// The connection of a channel says a request.
    Request(ChannelKey, Text, Arguments, Expect),
    /// It says a notification.
    Notify(ChannelKey, Text, Arguments),
    /// It says the one response to a request of the peer.
    Respond(ChannelKey, Id, Answer),
    /// It asks the peer to give up one of its requests.
    Cancel(ChannelKey, u64),
    /// It reports a value on a request of the peer that waits, by the token of that request's progress.
    Report(ChannelKey, Id, Id, Datum),
    /// The next report that came on one of its requests is taken, where one is left.
    TakeReport(ChannelKey, u64),
    /// The next page is asked for of the sequence that is the result of one of its requests.
    Next(ChannelKey, u64),
    /// That sequence is given up.
    Abort(ChannelKey, u64),
    /// It says a request to the object of a handle of the peer.
    Invoke(ChannelKey, u64, Text, Arguments, Expect),
    /// It releases a handle of either side.
    Release(ChannelKey, HandleKey),
    /// What became of one of its requests is asked for. This changes nothing.
    Outcome(ChannelKey, u64),
    /// A known outcome is dropped.
    Forget(ChannelKey, u64),
}

fn copied(alloc: Global, call: &mux_items::Call) -> Result<mux_items::Call, OutOfMemory>
    ensures { IfOk result (λ c. c ≡ call.now) }
{
    match call {
        mux_items::Call::Offer(name, window) => {
            Ok(mux_items::Call::Offer(name.copy(alloc)?, *window))
        }
        mux_items::Call::Accept(key, window) => Ok(mux_items::Call::Accept(*key, *window)),
        mux_items::Call::Write(key, bytes) => {
            Ok(mux_items::Call::Write(*key, bytes.copy(alloc)?))
        }
        mux_items::Call::Read(key, max) => Ok(mux_items::Call::Read(*key, *max)),
        mux_items::Call::Complete(key) => Ok(mux_items::Call::Complete(*key)),
        mux_items::Call::Terminate(key) => Ok(mux_items::Call::Terminate(*key)),
    }
}

impl Call {
    /// An equal value of its own.
    pub fn copy(&self, alloc: Global) -> Result<Call, OutOfMemory>
        ensures { IfOk result (λ c. c ≡ self.now) }
    {
        match self {
            Call::Mux(call) => Ok(Call::Mux(copied(alloc, call)?)),
            Call::Attach(key, terms) => Ok(Call::Attach(*key, *terms)),
            Call::Request(key, method, args, expect) => {
                let method = method.copy(alloc)?;
                Ok(Call::Request(*key, method, args.copy(alloc)?, *expect))
            }
            Call::Notify(key, method, args) => {
                let method = method.copy(alloc)?;
                Ok(Call::Notify(*key, method, args.copy(alloc)?))
            }
            Call::Respond(key, id, answer) => {
                let id = id.copy(alloc)?;
                Ok(Call::Respond(*key, id, answer.copy(alloc)?))
            }
            Call::Cancel(key, n) => Ok(Call::Cancel(*key, *n)),
            Call::Report(key, id, token, value) => {
                let id = id.copy(alloc)?;
                let token = token.copy(alloc)?;
                Ok(Call::Report(*key, id, token, value.copy(alloc)?))
            }
            Call::TakeReport(key, n) => Ok(Call::TakeReport(*key, *n)),
            Call::Next(key, n) => Ok(Call::Next(*key, *n)),
            Call::Abort(key, n) => Ok(Call::Abort(*key, *n)),
            Call::Invoke(key, handle, method, args, expect) => {
                let method = method.copy(alloc)?;
                Ok(Call::Invoke(*key, *handle, method, args.copy(alloc)?, *expect))
            }
            Call::Release(key, handle) => Ok(Call::Release(*key, *handle)),
            Call::Outcome(key, n) => Ok(Call::Outcome(*key, *n)),
            Call::Forget(key, n) => Ok(Call::Forget(*key, *n)),
        }
    }
}
