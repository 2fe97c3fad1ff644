//! The table and its calls.

ghost use Rattle.rpc_items.specs.Checks.{Checks};
ghost use Rattle.std.specs.Prelude.{◌≡◌, ◌<◌, ◌≤◌, ◌+◌, ◌∷◌, [], filter, false, length, not, slice_get, true, Bool, List, ℕ, Some, OnErr, OnOk};
ghost use Rattle.std.specs.List.{list_any};
ghost use Rattle.std.specs.Option.{option_copied};
ghost use Rattle.rpc_items.specs.Drawn.{drawn, with_number};
ghost use Rattle.rpc_items.specs.Ids.{same_id};
ghost use Rattle.rpc_items.specs.declared.calls.Outcome.TheVariants as outcomes;
ghost use Rattle.rpc_items.specs.Items.{RpcItem, Cancel, Did, End, Forget, Got, Respond, TakeReport};
ghost use Rattle.rpc_items.specs.Meanings.{meaning};
ghost use Rattle.rpc_items.specs.Waiting.{asks, is_waiting};
ghost use Rattle.rpc_items.specs.declared.calls.Answer.{Answer};
ghost use Rattle.rpc_items.specs.declared.messages.Message.{Message};
ghost use Rattle.rpc_items.specs.declared.messages.Message.TheVariants.{Request};
ghost use Rattle.rpc_items.specs.declared.messages.Params.{Params};
ghost use Rattle.wire_base.specs.declared.state.Cause.{Cause};
ghost use Rattle.rpc_items.specs.Outcomes.{is_known, outcome};
ghost use Rattle.call_table.specs.declared.answers.Heard.TheVariants as answers;
ghost use Rattle.call_table.specs.Replies.{Does, Draws, Hears, KeepsReport, Takes, cancel_refusal, full_refusal, take_refusal, unless_there};
ghost use Rattle.call_table.specs.Stands.{IsReport, TableStands, StandsDrawn, response_of, settling};
ghost use Rattle.call_table.specs.Table.{answered, begun, empty, heard, left_in, look_in, named_in, over, reported_in, settled, settled_in, shown, waits_in, with_cancelled, with_forgotten, with_kept, with_report, with_taken};

use crate::answers::{Heard, Look, Settled};
use crate::entry::{Entry, Kept};
use crate::reports::Reports;
use rpc_items::{Expect, MOST_DRAWN, Outcome};
use std::alloc::Global;
use std::marker::Model;
use wire_base::{CallFault, Datum, Id, OutOfMemory, Refusal};

/// The most requests that are drawn.
const MOST_REQUESTS: usize = MOST_DRAWN as usize;

/// The requests of one connection.
#[derive(Drop)]
pub struct CallTable {
    alloc: Global,
    /// Own requests: request 1 first.
    requests: Vec<Entry>,
    /// What becomes of those that have no response, once none can come.
    rest: Option<Outcome>,
    /// The ids of the peer's requests that wait.
    waiting: Vec<Id>,
}

impl Model for CallTable {
    ghost use Rattle.call_table.specs.Codes.{coded_table};
    ghost use Rattle.call_table.specs.Stands.{TableStands, StandsDrawn, response_of, settling};
    ghost use Rattle.call_table.specs.Table.{TableValue};

    ghost Value = { TableValue };

    ghost coded = { coded_table };

    ghost view = { λ t. record { requests = t.requests.items; rest = t.rest; waiting = t.waiting.items } };
}

/// Whether two ids are the same.
fn is_same(a: &Id, b: &Id) -> bool
    ensures { result ≡ same_id a.now b.now }
{
    match (a, b) {
        (Id::Number(a), Id::Number(b)) => a == b,
        (Id::Name(a), Id::Name(b)) => a == b,
        _ => false,
    }
}

/// Whether an id is among these.
fn is_among(id: &Id, waiting: &[Id]) -> bool
    ensures { result ≡ list_any (same_id id.now) waiting.now }
{
    waiting.iter().any(|waiting| is_same(id, waiting))
}

/// Removes an id from those that wait.
fn remove(waiting: &mut Vec<Id>, id: &Id)
    ensures { waiting.new.items ≡ filter (λ waiting. not (same_id waiting id.now)) waiting.old.items }
{
    waiting.retain(|waiting| !is_same(waiting, id));
}

impl CallTable {
    /// A table with nothing in it. It takes no memory.
    pub fn new(alloc: Global) -> CallTable
        ensures value { result ≡ empty }
        ensures stands { TableStands false result [] }
    {
        CallTable {
            alloc,
            requests: Vec::new(alloc),
            rest: None,
            waiting: Vec::new(alloc),
        }
    }

    /// The last number that was drawn, 0 before the first.
    pub fn drawn(&self) -> u64
        ensures value { result ≡ length self.now.requests }
        ensures stands { (stopped : Bool) (items : List RpcItem) → TableStands stopped self.now items → result ≡ drawn items }
    {
        self.requests.len() as u64
    }

    /// The request with this number.
    fn find(&self, n: u64) -> Option<&Entry>
        ensures { option_copied result ≡ with_number n self.now.requests }
    {
        if n == 0 {
            None
        } else {
            self.requests.get(n as usize - 1)
        }
    }

    /// The request without a response that an id names.
    fn named(&self, id: &Id) -> Option<u64>
        ensures { result ≡ named_in id.now self.now }
    {
        match (&self.rest, id) {
            (None, Id::Number(n)) if 0 < *n => {
                let n = *n as u64;
                match self.find(n) {
                    Some(entry) if matches!(entry.kept, Kept::Waiting) => Some(n),
                    _ => None,
                }
            }
            _ => None,
        }
    }

    /// Keeps this of a request.
    fn keep(&mut self, n: u64, kept: Kept)
        requires above { 0 < n }
        requires drawn { n ≤ length self.old.requests }
        ensures { self.new ≡ with_kept n kept self.old }
    {
        self.requests[n as usize - 1].kept = kept;
    }

    /// Keeps nothing of a request, nor of what was reported on it.
    fn clear(&mut self, n: u64)
        requires above { 0 < n }
        requires drawn { n ≤ length self.old.requests }
        ensures { self.new ≡ with_forgotten n self.old }
    {
        let reports = Reports::new(self.alloc);
        let entry = &mut self.requests[n as usize - 1];
        entry.kept = Kept::Forgotten;
        entry.reports = reports;
    }

    /// Notes that a request was cancelled here.
    fn mark_cancelled(&mut self, n: u64)
        requires above { 0 < n }
        requires drawn { n ≤ length self.old.requests }
        ensures { self.new ≡ with_cancelled n self.old }
    {
        self.requests[n as usize - 1].cancelled = true;
    }

    /// Keeps one more report on a request.
    fn push_report(&mut self, n: u64, value: Datum) -> Result<(), OutOfMemory>
        requires above { 0 < n }
        requires drawn { n ≤ length self.old.requests }
        ensures ok { OnOk result (self.new ≡ with_report n value self.old) }
        ensures err { OnErr result (self.new ≡ self.old) }
    {
        self.requests[n as usize - 1].reports.push(value)?;
        Ok(())
    }

    /// Hands over the oldest report on a request, where one is left.
    fn next_report(&mut self, n: u64) -> Option<Datum>
        requires above { 0 < n }
        requires drawn { n ≤ length self.old.requests }
        ensures answer { result ≡ slice_get (left_in n self.old) 0 }
        ensures value { self.new ≡ with_taken n self.old }
    {
        self.requests[n as usize - 1].reports.take()
    }

    /// What a response with this id would be to the requests.
    pub fn foresee(&self, id: &Id) -> Settled
        ensures value { result ≡ settled_in id.now self.now }
        ensures stands { (items : List RpcItem) → TableStands false self.now items → result ≡ settling id.now items }
    {
        match self.named(id) {
            Some(n) => match self.find(n) {
                Some(entry) => Settled::First(n, entry.expect),
                None => Settled::Stray,
            },
            None => Settled::Stray,
        }
    }

    /// What can be told of a request. It takes no memory.
    pub fn outcome(&self, n: u64) -> Look<'_>
        ensures value { shown result ≡ look_in n self.now }
        ensures stands { (stopped : Bool) (items : List RpcItem) → TableStands stopped self.now items → shown result ≡ outcome stopped n items }
    {
        match self.find(n) {
            Some(entry) => match &entry.kept {
                Kept::Waiting => match &self.rest {
                    Some(outcome) => Look::Known(outcome),
                    None => Look::NotYet,
                },
                Kept::Answered(outcome) => Look::Known(outcome),
                Kept::Forgotten => Look::NoRequest,
            },
            None => Look::NoRequest,
        }
    }

    /// The request without a response for which a report with this token is kept.
    fn reported(&self, token: &Id) -> Option<u64>
        ensures { result ≡ reported_in token.now self.now }
    {
        match self.named(token) {
            Some(n) => match self.find(n) {
                Some(entry) if entry.progress => Some(n),
                _ => None,
            },
            None => None,
        }
    }

    /// Whether a request can be cancelled: it can get a response, and wasn't cancelled here. It takes no memory.
    pub fn check_cancel(&self, n: u64) -> Result<(), Refusal>
        ensures { Checks (cancel_refusal n self.now) result }
    {
        match (&self.rest, self.find(n)) {
            (None, Some(entry)) if matches!(entry.kept, Kept::Waiting) => {
                if entry.cancelled {
                    Err(Refusal::AlreadyCancelled)
                } else {
                    Ok(())
                }
            }
            _ => Err(Refusal::NoRequest),
        }
    }

    /// Refuses a request that there isn't or that was forgotten, and one that asked for no reports.
    fn check_reports(&self, n: u64) -> Result<(), Refusal>
        ensures { Checks (take_refusal n self.now) result }
    {
        match self.find(n) {
            Some(entry) => match entry.kept {
                Kept::Forgotten => Err(Refusal::NoRequest),
                _ if entry.progress => Ok(()),
                _ => Err(Refusal::NoToken),
            },
            None => Err(Refusal::NoRequest),
        }
    }

    /// Whether the peer's request of this id waits.
    pub fn waits(&self, id: &Id) -> bool
        ensures value { result ≡ waits_in id.now self.now }
        ensures stands { (stopped : Bool) (items : List RpcItem) → TableStands stopped self.now items → result ≡ is_waiting id.now items }
    {
        is_among(id, self.waiting.as_slice())
    }

    /// Adds a request at the end.
    fn add(&mut self, expect: Expect, progress: bool) -> Result<(), OutOfMemory>
        ensures ok { OnOk result (self.new ≡ begun expect progress self.old) }
        ensures err { OnErr result (self.new ≡ self.old) }
    {
        self.requests.push(Entry {
            expect,
            progress,
            kept: Kept::Waiting,
            cancelled: false,
            reports: Reports::new(self.alloc),
        })?;
        Ok(())
    }

    /// Draws the number of a request: 1, 2, 3 and so on.
    pub fn begin(&mut self, expect: Expect, progress: bool) -> Result<u64, CallFault>
        ensures value { Draws (full_refusal self.old) (length self.old.requests + 1) self.old self.new (begun expect progress self.old) result }
        ensures stands { (items : List RpcItem) → TableStands false self.old items → OnOk result (StandsDrawn expect progress self.new items) }
    {
        if MOST_REQUESTS <= self.requests.len() {
            return Err(CallFault::Refused(Refusal::TooManyRequests));
        }
        match self.add(expect, progress) {
            Ok(()) => Ok(self.drawn()),
            Err(_) => Err(CallFault::OutOfMemory),
        }
    }

    /// Keeps what the first response to a request tells. It takes no memory.
    pub fn settle(&mut self, id: &Id, outcome: Outcome) -> Settled
        ensures answer { result ≡ settled_in id.now self.old }
        ensures value { self.new ≡ settled (settled_in id.now self.old) outcome self.old }
        ensures stands { (items : List RpcItem) (place : ℕ) (message : Message) → TableStands false self.old items → response_of id.now outcome ≡ Some message →
            TableStands false self.new (Got place message ∷ items) }
    {
        let settled = self.foresee(id);
        if let Settled::First(n, _) = settled {
            self.keep(n, Kept::Answered(outcome));
        }
        settled
    }

    /// Notes that a request without a response is cancelled. It takes no memory.
    pub fn cancel(&mut self, n: u64) -> Result<(), Refusal>
        ensures value { Does (cancel_refusal n self.old) self.old self.new (with_cancelled n self.old) result }
        ensures stands { (items : List RpcItem) → TableStands false self.old items → OnOk result (TableStands false self.new (Did (Cancel n) ∷ items)) }
    {
        self.check_cancel(n)?;
        self.mark_cancelled(n);
        Ok(())
    }

    /// Keeps a report for the request that its token names, where that has no response and asked for reports, and answers
    /// whether it was kept.
    pub fn report(&mut self, token: &Id, value: Datum) -> Result<bool, OutOfMemory>
        ensures value { KeepsReport (reported_in token.now self.old) value self.old self.new result }
        ensures stands { (items : List RpcItem) (place : ℕ) (message : Message) → TableStands false self.old items → IsReport token.now value message items →
            OnOk result (TableStands false self.new (Got place message ∷ items)) }
    {
        match self.reported(token) {
            Some(n) => {
                self.push_report(n, value)?;
                Ok(true)
            }
            None => Ok(false),
        }
    }

    /// Hands over the oldest report on a request that asked for reports, where one is left. It takes no memory.
    pub fn take_report(&mut self, n: u64) -> Result<Option<Datum>, Refusal>
        ensures value { Takes (take_refusal n self.old) n self.old self.new result }
        ensures stands { (items : List RpcItem) → TableStands false self.old items → OnOk result (TableStands false self.new (Did (TakeReport n) ∷ items)) }
    {
        self.check_reports(n)?;
        Ok(self.next_report(n))
    }

    /// Adds the id of a request of the peer.
    fn await_answer(&mut self, id: Id) -> Result<(), OutOfMemory>
        ensures ok { OnOk result (self.new ≡ heard id self.old) }
        ensures err { OnErr result (self.new ≡ self.old) }
    {
        self.waiting.push(id)?;
        Ok(())
    }

    /// Notes a request of the peer that waits from now on.
    pub fn hear(&mut self, id: Id) -> Heard
        ensures value { Hears (waits_in id self.old) id self.old self.new (heard id self.old) result }
        ensures stands { (items : List RpcItem) (place : ℕ) (method : List ℕ) (params : Params) → TableStands false self.old items → asks (meaning method params) items ≡ true →
            result ≡ answers.New → TableStands false self.new (Got place (Request id method params) ∷ items) }
    {
        if self.waits(&id) {
            return Heard::Duplicate(id);
        }
        match self.await_answer(id) {
            Ok(()) => Heard::New,
            Err(_) => Heard::OutOfMemory,
        }
    }

    /// Notes that a request of the peer is answered. It takes no memory.
    pub fn answer(&mut self, id: &Id) -> Result<(), Refusal>
        ensures value { Does (unless_there (waits_in id.now self.old)) self.old self.new (answered id.now self.old) result }
        ensures stands { (items : List RpcItem) (answer : Answer) → TableStands false self.old items →
            OnOk result (TableStands false self.new (Did (Respond id.now answer) ∷ items)) }
    {
        if !self.waits(id) {
            return Err(Refusal::NoRequest);
        }
        remove(&mut self.waiting, id);
        Ok(())
    }

    /// Keeps a known outcome no longer, nor reports on its request. It takes no memory.
    pub fn forget(&mut self, n: u64) -> Result<(), Refusal>
        ensures value { Does (unless_there (is_known (look_in n self.old))) self.old self.new (with_forgotten n self.old) result }
        ensures stands { (items : List RpcItem) → TableStands false self.old items → OnOk result (TableStands false self.new (Did (Forget n) ∷ items)) }
    {
        match self.outcome(n) {
            Look::Known(_) => {
                self.clear(n);
                Ok(())
            }
            Look::NotYet | Look::NoRequest => Err(Refusal::NoRequest),
        }
    }

    /// Requests without a response get this.
    fn end(&mut self, rest: Outcome)
        ensures { self.new ≡ over rest self.old }
    {
        if self.rest.is_none() {
            self.rest = Some(rest);
        }
    }

    #[tactic(auto, using(crate::proofs::After::lost_after))]
    /// Notes that the connection ended: requests without a response are lost. It takes no memory.
    pub fn lose_all(&mut self)
        ensures value { self.new ≡ over outcomes.Lost self.old }
        ensures stands { (items : List RpcItem) (cause : Cause) → TableStands false self.old items → TableStands false self.new (End cause ∷ items) }
    {
        self.end(Outcome::Lost);
    }

    #[tactic(auto, using(crate::proofs::After::starved_after))]
    /// Notes that the connection stopped: requests without a response are starved. It takes no memory.
    pub fn starve_all(&mut self)
        ensures value { self.new ≡ over outcomes.Starved self.old }
        ensures stands { (items : List RpcItem) → TableStands false self.old items → TableStands true self.new items }
    {
        self.end(Outcome::Starved);
    }
}
