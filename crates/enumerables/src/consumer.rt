//! The sequences that are results of own requests.

ghost use Rattle.enumerables.specs.Consumer.{adopted, cleared, following_refusal, found, paged, settled, token_at, turning, without};
ghost use Rattle.enumerables.specs.Stands.{ConsumerStands};
ghost use Rattle.rpc_items.specs.Checks.{Checks};
ghost use Rattle.rpc_items.specs.Drawn.{asked_at, drawn};
ghost use Rattle.rpc_items.specs.Items.{Abort, Did, End, Got, Next, RpcItem};
ghost use Rattle.rpc_items.specs.Outcomes.{is_unanswered, response_in};
ghost use Rattle.rpc_items.specs.Refusals.{turn_refusal};
ghost use Rattle.rpc_items.specs.Sequences.{expects_sequence, is_sequence, sequence_of};
ghost use Rattle.rpc_items.specs.declared.messages.Message.{Message};
ghost use Rattle.std.specs.Option.{option_copied};
ghost use Rattle.std.specs.Prelude.{◌≡◌, ◌+◌, ◌∷◌, [], IfOk, List, None, OnErr, OnOk, Some, true, ℕ};
ghost use Rattle.wire_base.specs.declared.state.Cause.{Cause};

use crate::followed::Followed;
use crate::pages::{is_last_page, token_of};
use rpc_items::{Expect, Outcome};
use std::alloc::Global;
use std::marker::Model;
use wire_base::{Id, OutOfMemory, Refusal};

/// The live sequences that are results of this end's requests.
#[derive(Drop)]
pub struct Consumer {
    alloc: Global,
    followed: Vec<Followed>,
}

impl Model for Consumer {
    ghost use Rattle.enumerables.specs.Codes.{coded_followed};
    ghost use Rattle.enumerables.specs.declared.followed.Followed.{Followed};
    ghost use Rattle.std.specs.Prelude.{List};

    ghost Value = { List Followed };

    ghost coded = { coded_followed };

    ghost view = { λ c. c.followed.items };
}

impl Consumer {
    /// No sequence. It takes no memory.
    pub fn new(alloc: Global) -> Consumer
        ensures value { result ≡ [] }
        ensures stands { ConsumerStands result [] }
    {
        Consumer {
            alloc,
            followed: Vec::new(alloc),
        }
    }

    /// The live sequence of a request.
    fn find(&self, n: u64) -> Option<&Followed>
        ensures { option_copied result ≡ found n self.now }
    {
        for followed in self.followed.iter() {
            if followed.request == n {
                return Some(followed);
            }
        }
        None
    }

    /// The token of a request's sequence, where its next page can be asked for, and it can be given up. It takes no memory.
    pub fn check(&self, n: u64) -> Result<&Id, Refusal>
        ensures answer { Checks (following_refusal (found n self.now)) result }
        ensures token { IfOk result (λ token. token_at (found n self.now) ≡ Some token.now) }
        ensures stands { (items : List RpcItem) → ConsumerStands self.now items → Checks (turn_refusal n items) result }
        ensures names { (items : List RpcItem) → ConsumerStands self.now items → IfOk result (λ token. sequence_of n items ≡ Some token.now) }
    {
        self.token(n)
    }

    /// The token of a request's sequence, where no page of it is asked for.
    fn token(&self, n: u64) -> Result<&Id, Refusal>
        ensures answer { Checks (following_refusal (found n self.now)) result }
        ensures token { IfOk result (λ token. token_at (found n self.now) ≡ Some token.now) }
    {
        match self.find(n) {
            Some(followed) => match followed.turn {
                None => Ok(&followed.token),
                Some(_) => Err(Refusal::NextOutstanding),
            },
            None => Err(Refusal::NoEnumerable),
        }
    }

    /// Notes that the next page of a request's sequence is asked for, by the request with this number. It takes no memory.
    pub fn turn(&mut self, n: u64, number: u64)
        ensures value { self.new ≡ turning n number self.old }
        ensures stands { (items : List RpcItem) → ConsumerStands self.old items → turn_refusal n items ≡ None → number ≡ drawn items + 1 →
            ConsumerStands self.new (Did (Next n) ∷ items) }
    {
        self.ask(n, number);
    }

    /// The next page of a request's sequence is asked for, by the request with this number.
    fn ask(&mut self, n: u64, number: u64)
        ensures { self.new ≡ turning n number self.old }
    {
        for followed in self.followed.iter_mut() {
            followed.ask(n, number);
        }
    }

    /// Follows a request's sequence no longer. It takes no memory.
    pub fn give_up(&mut self, n: u64)
        ensures value { self.new ≡ without n self.old }
        ensures stands { (items : List RpcItem) → ConsumerStands self.old items → turn_refusal n items ≡ None → ConsumerStands self.new (Did (Abort n) ∷ items) }
    {
        self.leave(n);
    }

    /// A request's sequence is followed no longer.
    fn leave(&mut self, n: u64)
        ensures { self.new ≡ without n self.old }
    {
        self.followed.retain(|followed| followed.request != n);
    }

    /// Notes what became of an unanswered request: its result may be a sequence, or it was asked for a page.
    pub fn settle(
        &mut self,
        number: u64,
        expect: Expect,
        outcome: &Outcome,
    ) -> Result<(), OutOfMemory>
        ensures ok { OnOk result (self.new ≡ settled number expect outcome.now self.old) }
        ensures err { OnErr result (self.new ≡ self.old) }
        ensures stands { (items : List RpcItem) (place : ℕ) (message : Message) → ConsumerStands self.old items → is_unanswered number items ≡ true →
            is_sequence expect ≡ expects_sequence (asked_at number items) → response_in number message ≡ Some outcome.now →
            OnOk result (ConsumerStands self.new (Got place message ∷ items)) }
    {
        if let Expect::Sequence = expect {
            self.adopt(number, outcome)?;
        }
        self.page(number, is_last_page(outcome));
        Ok(())
    }

    /// Follows the sequence that a request's result is, where it is one with values left.
    fn adopt(&mut self, number: u64, outcome: &Outcome) -> Result<(), OutOfMemory>
        ensures ok { OnOk result (self.new ≡ adopted number outcome.now self.old) }
        ensures err { OnErr result (self.new ≡ self.old) }
    {
        if let Some(token) = token_of(self.alloc, outcome)? {
            self.followed.push(Followed {
                request: number,
                token,
                turn: None,
            })?;
        }
        Ok(())
    }

    /// A page that was asked for by this request is answered, and may be the last.
    fn page(&mut self, number: u64, last: bool)
        ensures { self.new ≡ paged number last self.old }
    {
        if last {
            self.finish(number);
        } else {
            self.clear(number);
        }
    }

    /// The last page, that was asked for by this request, is answered.
    fn finish(&mut self, number: u64)
        ensures { self.new ≡ paged number true self.old }
    {
        self.followed
            .retain(|followed| !followed.is_turn_of(number));
    }

    /// A page that was asked for by this request is answered.
    fn clear(&mut self, number: u64)
        ensures { self.new ≡ cleared number self.old }
    {
        for followed in self.followed.iter_mut() {
            followed.rest(number);
        }
    }

    /// Follows no sequence any longer. It takes no memory.
    pub fn end_all(&mut self)
        ensures value { self.new ≡ [] }
        ensures stands { (items : List RpcItem) (cause : Cause) → ConsumerStands self.old items → ConsumerStands self.new (End cause ∷ items) }
    {
        self.followed.clear();
    }
}
