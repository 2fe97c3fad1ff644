//! A call of an end as one value.

ghost use Rattle.call_table.specs.Table.{shown};
ghost use Rattle.endpoint.specs.Applied.{Applies, StaysStopped, TellsOf, as_reply};
ghost use Rattle.endpoint.specs.Stands.{Stands};
ghost use Rattle.endpoint_items.specs.Items.{EndItem};
ghost use Rattle.mux_end.specs.Replies.{KeepsTerms};
ghost use Rattle.mux_items.specs.declared.call.Call.TheVariants as mux_call;
ghost use Rattle.std.specs.Prelude.{◌≡◌, List, IsOkAnd, MatchResult, ℕ};

use crate::endpoint::Endpoint;
use endpoint_items::{Call, Reply};
use mux_end::ChannelKey;
use rpc_end::Look;
use std::alloc::Global;
use wire_base::{Blob, CallFault, Refusal};

/// The reply to a call that answers nothing more.
fn done(answer: Result<(), CallFault>) -> Result<Reply, CallFault>
    ensures { MatchResult answer (λ _. IsOkAnd result (λ r. r ≡ Reply.Done)) (λ e. result ≡ Err e) }
{
    match answer {
        Ok(()) => Ok(Reply::Done),
        Err(fault) => Err(fault),
    }
}

/// What is told of a request.
fn reply_of(alloc: Global, look: Look<'_>) -> Result<Reply, CallFault>
    ensures { TellsOf (shown look.entry) result }
{
    match look {
        Look::Known(outcome) => match outcome.copy(alloc) {
            Ok(outcome) => Ok(Reply::Known(outcome)),
            Err(_) => Err(CallFault::OutOfMemory),
        },
        Look::NotYet => Ok(Reply::NotYet),
        Look::NoRequest => Err(CallFault::Refused(Refusal::NoRequest)),
    }
}

impl Endpoint {
    /// Makes a call: the one of that name, or the question what became of a request. A stopped end refuses each. Where
    /// memory runs out the end is stopped.
    pub fn apply(&mut self, call: Call) -> Reply
        ensures applies { (items : List EndItem) (at : ℕ) (rest : List ℕ) → Stands self.old items at rest → Applies self.old self.new items at rest call result }
        ensures stopped { StaysStopped self.old self.new result }
        ensures terms { KeepsTerms self.old.mux self.new.mux }
    {
        match self.try_call(call) {
            Ok(reply) => reply,
            Err(CallFault::Refused(refusal)) => Reply::Refused(refusal),
            Err(CallFault::OutOfMemory) => Reply::OutOfMemory,
        }
    }

    fn try_call(&mut self, call: Call) -> Result<Reply, CallFault>
        ensures applies { (items : List EndItem) (at : ℕ) (rest : List ℕ) → Stands self.old items at rest → Applies self.old self.new items at rest call (as_reply result) }
        ensures stopped { StaysStopped self.old self.new (as_reply result) }
        ensures terms { KeepsTerms self.old.mux self.new.mux }
    {
        match call {
            Call::Mux(call) => self.try_mux_call(call),
            Call::Attach(key, terms) => done(self.attach(key, terms.framing, terms.encoding)),
            Call::Request(key, method, args, expect) => {
                self.request(key, &method, args, expect).map(Reply::Number)
            }
            Call::Notify(key, method, args) => done(self.notify(key, &method, args)),
            Call::Respond(key, id, answer) => done(self.respond(key, &id, answer)),
            Call::Cancel(key, n) => done(self.cancel(key, n)),
            Call::Report(key, id, token, value) => done(self.report(key, &id, &token, &value)),
            Call::TakeReport(key, n) => self.take_report(key, n).map(Reply::Report),
            Call::Next(key, n) => self.next(key, n).map(Reply::Number),
            Call::Abort(key, n) => done(self.abort(key, n)),
            Call::Invoke(key, handle, method, args, expect) => self
                .invoke(key, handle, &method, args, expect)
                .map(Reply::Number),
            Call::Release(key, handle) => done(self.release(key, handle)),
            Call::Outcome(key, n) => self.tell(key, n),
            Call::Forget(key, n) => done(self.forget(key, n)),
        }
    }

    /// Makes a call of the multiplexing end.
    fn try_mux_call(&mut self, call: mux_items::Call) -> Result<Reply, CallFault>
        ensures applies { (items : List EndItem) (at : ℕ) (rest : List ℕ) → Stands self.old items at rest → Applies self.old self.new items at rest (Call.Mux call) (as_reply result) }
        ensures stopped { StaysStopped self.old self.new (as_reply result) }
        ensures terms { KeepsTerms self.old.mux self.new.mux }
    {
        match call {
            mux_items::Call::Offer(name, window) => self.offer(&name, window).map(Reply::Made),
            mux_items::Call::Accept(key, window) => done(self.accept(key, window)),
            mux_items::Call::Write(key, bytes) => done(self.write(key, bytes.as_bytes())),
            mux_items::Call::Read(key, max) => self.read_bytes(key, max),
            mux_items::Call::Complete(key) => done(self.complete(key)),
            mux_items::Call::Terminate(key) => done(self.terminate(key)),
        }
    }

    /// Reads, and keeps what was read.
    fn read_bytes(&mut self, key: ChannelKey, max: u32) -> Result<Reply, CallFault>
        ensures applies { (items : List EndItem) (at : ℕ) (rest : List ℕ) → Stands self.old items at rest → Applies self.old self.new items at rest (Call.Mux (mux_call.Read key max)) (as_reply result) }
        ensures stopped { StaysStopped self.old self.new (as_reply result) }
        ensures terms { KeepsTerms self.old.mux self.new.mux }
    {
        let mut bytes = Vec::new(self.alloc);
        self.read(key, max as usize, &mut bytes)?;
        match Blob::from_bytes(self.alloc, bytes.as_slice()) {
            Ok(read) => Ok(Reply::Bytes(read)),
            Err(_) => self.finish(Err(CallFault::OutOfMemory)),
        }
    }

    /// Tells what became of a request of the connection of a channel.
    fn tell(&mut self, key: ChannelKey, n: u64) -> Result<Reply, CallFault>
        ensures applies { (items : List EndItem) (at : ℕ) (rest : List ℕ) → Stands self.old items at rest → Applies self.old self.new items at rest (Call.Outcome key n) (as_reply result) }
        ensures stopped { StaysStopped self.old self.new (as_reply result) }
        ensures terms { KeepsTerms self.old.mux self.new.mux }
    {
        self.check_attached(key)?;
        let told = reply_of(self.alloc, self.outcome(key, n));
        self.finish(told)
    }
}
