//! The sequences that this end answered.

ghost use Rattle.enumerables.specs.Producer.{all_ended, changed, ending, given_up, named_in, page_in, page_of, paging, produce_refusal, turned, with_sequence};
ghost use Rattle.enumerables.specs.Stands.{IsAbort, ProducerStands, next_page};
ghost use Rattle.rpc_items.specs.Checks.{Checks};
ghost use Rattle.rpc_items.specs.Drawn.{with_number};
ghost use Rattle.rpc_items.specs.Items.{Did, End, Got, Respond, RpcItem, is_running};
ghost use Rattle.rpc_items.specs.Meanings.{meaning};
ghost use Rattle.rpc_items.specs.Produced.{last_token};
ghost use Rattle.rpc_items.specs.Refusals.{answer_refusal};
ghost use Rattle.rpc_items.specs.declared.calls.Answer.TheVariants as answer;
ghost use Rattle.rpc_items.specs.declared.messages.Message.{Message};
ghost use Rattle.rpc_items.specs.declared.messages.Message.TheVariants.{Request};
ghost use Rattle.rpc_items.specs.declared.messages.Params.{Params};
ghost use Rattle.rpc_items.specs.declared.methods.Meaning.TheVariants.{Turns};
ghost use Rattle.std.specs.Option.{option_copied};
ghost use Rattle.std.specs.Prelude.{◌≡◌, ◌<◌, ◌≤◌, ◌∷◌, [], IfOk, List, OnErr, OnOk, Some, length, true, ℕ};
ghost use Rattle.wire_base.specs.declared.state.Cause.{Cause};

use crate::left::Left;
use crate::pages::page_value;
use crate::sequence::Sequence;
use rpc_items::MOST_DRAWN;
use std::alloc::Global;
use std::marker::Model;
use wire_base::{Datum, DatumList, Id, OutOfMemory, Refusal};

/// The most tokens that are drawn.
const MOST_TOKENS: usize = MOST_DRAWN as usize;

/// The sequences that this end answered with a token.
#[derive(Drop)]
pub struct Producer {
    alloc: Global,
    /// The sequence of token 1 first.
    sequences: Vec<Sequence>,
}

impl Model for Producer {
    ghost use Rattle.enumerables.specs.Codes.{coded_sequences};
    ghost use Rattle.enumerables.specs.declared.sequence.Sequence.{Sequence};
    ghost use Rattle.std.specs.Prelude.{List};

    ghost Value = { List Sequence };

    ghost coded = { coded_sequences };

    ghost view = { λ p. p.sequences.items };
}

impl Producer {
    /// No sequence. It takes no memory.
    pub fn new(alloc: Global) -> Producer
        ensures value { result ≡ [] }
        ensures stands { ProducerStands result [] }
    {
        Producer {
            alloc,
            sequences: Vec::new(alloc),
        }
    }

    /// The last token that was drawn, 0 before the first.
    pub fn drawn(&self) -> u64
        ensures value { result ≡ length self.now }
        ensures stands { (items : List RpcItem) → ProducerStands self.now items → result ≡ last_token items }
    {
        self.sequences.len() as u64
    }

    /// The sequence with this token.
    fn find(&self, token: u64) -> Option<&Sequence>
        ensures { option_copied result ≡ with_number token self.now }
    {
        if token == 0 {
            None
        } else {
            self.sequences.get(token as usize - 1)
        }
    }

    /// The live token that an id is.
    fn named(&self, id: &Id) -> Option<u64>
        ensures { result ≡ named_in id.now self.now }
    {
        match id {
            Id::Number(token) if 0 < *token => {
                let token = *token as u64;
                match self.find(token) {
                    Some(sequence) if 0 < sequence.left.len() => Some(token),
                    _ => None,
                }
            }
            _ => None,
        }
    }

    /// Why an answer that is a sequence is refused: an empty page, or no more tokens where it needs one. It takes no
    /// memory.
    pub fn check(&self, values: &DatumList, page: u32, first: u32) -> Result<(), Refusal>
        ensures value { Checks (produce_refusal (length values.now) page first self.now) result }
        ensures stands { (items : List RpcItem) → ProducerStands self.now items → Checks (answer_refusal (answer.Sequence values.now page first) items) result }
    {
        if page == 0 {
            return Err(Refusal::BadPage);
        }
        if (first as usize) < values.len() && MOST_TOKENS <= self.sequences.len() {
            return Err(Refusal::TooManySequences);
        }
        Ok(())
    }

    /// Keeps what is left of a sequence behind its first values; its token is the next one. Where nothing is left, none is
    /// drawn.
    pub fn produce(&mut self, values: DatumList, page: u32, first: u32) -> Result<(), OutOfMemory>
        ensures ok { OnOk result (self.new ≡ with_sequence values page first self.old) }
        ensures err { OnErr result (self.new ≡ self.old) }
        ensures stands { (items : List RpcItem) (id : Id) → is_running items ≡ true → ProducerStands self.old items →
            OnOk result (ProducerStands self.new (Did (Respond id (answer.Sequence values page first)) ∷ items)) }
    {
        if (first as usize) < values.len() {
            let left = Left::new(values, first as usize);
            self.sequences.push(Sequence { page, left })?;
        }
        Ok(())
    }

    /// The next page of a live token. None exactly for another one.
    pub fn next_page(&self, token: &Id) -> Result<Option<Datum>, OutOfMemory>
        ensures value { IfOk result (λ page. page ≡ page_in token.now self.now) }
        ensures stands { (items : List RpcItem) → ProducerStands self.now items → IfOk result (λ page. page ≡ next_page token.now items) }
    {
        self.page_in(token)
    }

    /// The next page of the live token that an id is.
    fn page_in(&self, token: &Id) -> Result<Option<Datum>, OutOfMemory>
        ensures { IfOk result (λ page. page ≡ page_in token.now self.now) }
    {
        let Some(token) = self.named(token) else {
            return Ok(None);
        };
        match self.find(token) {
            Some(sequence) => Ok(Some(self.page_of(sequence)?)),
            None => Ok(None),
        }
    }

    /// The next page of a sequence.
    fn page_of(&self, sequence: &Sequence) -> Result<Datum, OutOfMemory>
        ensures { IfOk result (λ page. page ≡ page_of sequence.now) }
    {
        let left = sequence.left.as_slice();
        let size = left.len().min(sequence.page as usize);
        page_value(
            self.alloc,
            left.len() <= sequence.page as usize,
            &left[..size],
        )
    }

    /// Notes that the next page of a token is answered: the token ends with its last value. It takes no memory.
    pub fn turn(&mut self, token: &Id)
        ensures value { self.new ≡ turned token.now self.old }
        ensures stands { (items : List RpcItem) (place : ℕ) (id : Id) (method : List ℕ) (params : Params) → ProducerStands self.old items → meaning method params ≡ Turns token.now →
            ProducerStands self.new (Got place (Request id method params) ∷ items) }
    {
        if let Some(token) = self.named(token) {
            self.end_page(token);
        }
    }

    /// A page of this token is answered.
    fn end_page(&mut self, token: u64)
        requires above { 0 < token }
        requires drawn { token ≤ length self.now }
        ensures { self.new ≡ changed (Some token) paging self.old }
    {
        self.sequences[token as usize - 1].turn();
    }

    /// Ends a token, where it is a live one. It takes no memory.
    pub fn give_up(&mut self, token: &Id)
        ensures value { self.new ≡ given_up token.now self.old }
        ensures stands { (items : List RpcItem) (place : ℕ) (message : Message) → ProducerStands self.old items → IsAbort token.now message → ProducerStands self.new (Got place message ∷ items) }
    {
        if let Some(token) = self.named(token) {
            self.end(token);
        }
    }

    /// Nothing of this token is left.
    fn end(&mut self, token: u64)
        requires above { 0 < token }
        requires drawn { token ≤ length self.now }
        ensures { self.new ≡ changed (Some token) ending self.old }
    {
        self.sequences[token as usize - 1].end(self.alloc);
    }

    /// Ends every token. It takes no memory.
    pub fn end_all(&mut self)
        ensures value { self.new ≡ all_ended self.old }
        ensures stands { (items : List RpcItem) (cause : Cause) → ProducerStands self.old items → ProducerStands self.new (End cause ∷ items) }
    {
        self.end_each();
    }

    /// Nothing of any token is left.
    fn end_each(&mut self)
        ensures { self.new ≡ all_ended self.old }
    {
        for sequence in self.sequences.iter_mut() {
            sequence.end(self.alloc);
        }
    }
}
