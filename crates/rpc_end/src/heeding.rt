//! What messages are to a running end.

ghost use Rattle.call_table.specs.Table.{heard, reported, reported_in, settled_in, waits_in};
ghost use Rattle.enumerables.specs.Producer.{page_in};
ghost use Rattle.marshalled_handles.specs.Holder.{adopting_all};
ghost use Rattle.message_body.specs.AsRead.{AreMessages, IsMessage};
ghost use Rattle.message_body.specs.Written.{encoder};
ghost use Rattle.rpc_end.specs.Calls.{with_released};
ghost use Rattle.rpc_end.specs.Ends.{with_holder, with_producer, with_said, with_table};
ghost use Rattle.rpc_end.specs.Heeding.{HasId, adopted_by, answers_by, asks_in, broken_by, event_by, extension_event, named_event, page_answer, report_event, said_by, settled_event, turned_by, with_extended, with_heeded, with_kept, with_named, with_settled};
ghost use Rattle.rpc_items.specs.Automatic.{fault};
ghost use Rattle.rpc_items.specs.Bodies.{body_refusal};
ghost use Rattle.rpc_items.specs.Fitting.{IsNamed};
ghost use Rattle.rpc_items.specs.Meanings.{meaning};
ghost use Rattle.rpc_items.specs.Objects.{whole_arguments};
ghost use Rattle.rpc_items.specs.Told.{HasNamedId};
ghost use Rattle.rpc_items.specs.Writing.{message_value};
ghost use Rattle.rpc_items.specs.declared.calls.Outcome.TheVariants as outcomes;
ghost use Rattle.rpc_items.specs.declared.calls.RpcEvent.TheVariants as events;
ghost use Rattle.rpc_items.specs.declared.messages.Message.TheVariants as messages;
ghost use Rattle.rpc_items.specs.declared.methods.Meaning.TheVariants as meanings;
ghost use Rattle.sequence_limits.specs.Fitting.{PagesFit};
ghost use Rattle.std.specs.Prelude.{◌≡◌, ◌∷◌, IfOk, None, OnErr, OnOk, Some, [], false};

use crate::end::RpcEnd;
use call_table::{Heard, Outcome, Settled};
use marshalled_handles::on_release;
use rpc_items::{HandleKey, Meaning, Message, Params, RpcEvent, Target};
use rpc_methods::meaning_of;
use std::alloc::Global;
use wire_base::{CallFault, Datum, Id, Node, OutOfMemory, Reason, Text};

/// The code of an answer that names no sequence or object.
const NOTHING_THERE: i64 = -32_001;

/// The code of an answer to an extension with other arguments.
const BAD_ARGUMENTS: i64 = -32_602;

/// The code of an answer to a reserved method that isn't known.
const NO_METHOD: i64 = -32_601;

/// An error that has no data.
fn fault(alloc: Global, id: Id, code: i64, text: &str) -> Result<Message, OutOfMemory>
    ensures { IfOk result (λ m. m ≡ fault id code text.now) }
{
    Ok(Message::Error(Some(id), code, Text::from_str(alloc, text)?, None))
}

impl RpcEnd {
    /// The rule that a message breaks: the id of a request isn't that of one that waits.
    pub(crate) fn broken_rule(&self, message: &Message) -> Option<Reason>
        ensures { result ≡ broken_by message.now self.now.table }
    {
        match message {
            Message::Request(id, _, _) if self.table.waits(id) => Some(Reason::DuplicateRequest),
            _ => None,
        }
    }

    /// Does what a message asks for that breaks no rule, and answers what it was to this end.
    pub(crate) fn heed(&mut self, message: Message) -> Result<RpcEvent, OutOfMemory>
        requires new { broken_by message self.old.table ≡ None }
        requires named { HasId message }
        ensures ok { IfOk result (λ event. event ≡ event_by message self.old) }
        ensures made { OnOk result (self.new ≡ with_heeded message self.old) }
        ensures said { OnOk result (AreMessages (said_by message self.old)) }
        ensures err { OnErr result (self.new.terms ≡ self.old.terms) }
    {
        match message {
            Message::Request(id, method, params) => self.heed_request(id, method, params),
            Message::Notification(method, params) => self.heed_notification(method, params),
            Message::Result(id, value) => self.settle_result(&id, value),
            Message::Error(id, code, text, more) => {
                self.settle_named(id, Outcome::Failed(code, text, more))
            }
        }
    }

    /// Keeps what an error tells, which may be without an id.
    fn settle_named(&mut self, id: Option<Id>, outcome: Outcome) -> Result<RpcEvent, OutOfMemory>
        ensures ok { IfOk result (λ event. event ≡ named_event id self.old.table) }
        ensures made { OnOk result (self.new ≡ with_named id outcome self.old) }
        ensures err { OnErr result (self.new.terms ≡ self.old.terms) }
    {
        match id {
            Some(id) => self.settle(&id, outcome),
            None => Ok(RpcEvent::Stray),
        }
    }

    /// Keeps what a result tells, and adopts the object that it may offer, where it is the first to its request.
    fn settle_result(&mut self, id: &Id, value: Datum) -> Result<RpcEvent, OutOfMemory>
        ensures ok { IfOk result (λ event. event ≡ settled_event (settled_in id.now self.old.table)) }
        ensures made { OnOk result (self.new ≡ with_settled id.now (outcomes.Replied value) (with_holder (adopted_by (settled_in id.now self.old.table) value self.old.holder) self.old)) }
        ensures err { OnErr result (self.new.terms ≡ self.old.terms) }
    {
        if let Settled::First(_, _) = self.table.foresee(id) {
            self.holder.adopt_value(&value, None)?;
        }
        self.settle(id, Outcome::Replied(value))
    }

    /// Keeps what a response tells, where it is the first to its request: of that request, of the sequence that it is or that
    /// it has a page of, and of the handles that end with it.
    fn settle(&mut self, id: &Id, outcome: Outcome) -> Result<RpcEvent, OutOfMemory>
        ensures ok { IfOk result (λ event. event ≡ settled_event (settled_in id.now self.old.table)) }
        ensures made { OnOk result (self.new ≡ with_settled id.now outcome self.old) }
        ensures err { OnErr result (self.new.terms ≡ self.old.terms) }
    {
        match self.table.foresee(id) {
            Settled::First(n, expect) => {
                self.consumer.settle(n, expect, &outcome)?;
                self.table.settle(id, outcome);
                self.owner.answered(n);
                Ok(RpcEvent::Answered(n))
            }
            Settled::Stray => Ok(RpcEvent::Stray),
        }
    }

    fn heed_notification(&mut self, method: Text, params: Params) -> Result<RpcEvent, OutOfMemory>
        ensures ok { IfOk result (λ event. event ≡ event_by (messages.Notification method params) self.old) }
        ensures made { OnOk result (self.new ≡ with_kept (messages.Notification method params) self.old) }
        ensures err { OnErr result (self.new.terms ≡ self.old.terms) }
    {
        match meaning_of(self.alloc, &method, &params)? {
            Meaning::Serves => {
                self.holder.adopt_arguments(&params, None)?;
                Ok(RpcEvent::Told(method, params))
            }
            meaning => self.extend(meaning, method),
        }
    }

    /// Does what an extension asks for, and answers what it is to this end: a request that waits or a sequence may be given
    /// up, a report may be kept, a handle may be released, and nothing is told of the others.
    fn extend(&mut self, meaning: Meaning, method: Text) -> Result<RpcEvent, OutOfMemory>
        ensures ok { IfOk result (λ event. event ≡ extension_event meaning method self.old) }
        ensures made { OnOk result (self.new ≡ with_extended meaning self.old) }
        ensures err { OnErr result (self.new ≡ self.old) }
    {
        match meaning {
            Meaning::Aborts(token) => {
                self.producer.give_up(&token);
                Ok(RpcEvent::Handled(method))
            }
            Meaning::Cancels(id) => {
                if self.table.waits(&id) {
                    Ok(RpcEvent::Cancelled(id))
                } else {
                    Ok(RpcEvent::Handled(method))
                }
            }
            Meaning::Reports(token, value) => self.keep_report(&token, value, method),
            Meaning::Releases(key) => Ok(self.let_end(key, method)),
            _ => Ok(RpcEvent::Handled(method)),
        }
    }

    /// A handle of either side ends that the peer releases. The service hears of it where its own object lived.
    fn let_end(&mut self, key: HandleKey, method: Text) -> RpcEvent
        ensures event { result ≡ extension_event (meanings.Releases key) method self.old }
        ensures made { self.new ≡ with_released key self.old }
    {
        let lived = on_release(&mut self.owner, &mut self.holder, key);
        if key.own && lived {
            RpcEvent::Released(key)
        } else {
            RpcEvent::Handled(method)
        }
    }

    /// Keeps a report, where its token names a request that it is kept for.
    fn keep_report(
        &mut self,
        token: &Id,
        value: Datum,
        method: Text,
    ) -> Result<RpcEvent, OutOfMemory>
        ensures ok { IfOk result (λ event. event ≡ report_event (reported_in token.now self.old.table) method) }
        ensures made { OnOk result (self.new ≡ with_table (reported (reported_in token.now self.old.table) value self.old.table) self.old) }
        ensures err { OnErr result (self.new ≡ self.old) }
    {
        let named = self.table.foresee(token);
        if !self.table.report(token, value)? {
            return Ok(RpcEvent::Handled(method));
        }
        match named {
            Settled::First(n, _) => Ok(RpcEvent::Reported(n)),
            Settled::Stray => unreachable!(),
        }
    }

    fn heed_request(
        &mut self,
        id: Id,
        method: Text,
        params: Params,
    ) -> Result<RpcEvent, OutOfMemory>
        requires new { waits_in id self.old.table ≡ false }
        requires named { IsNamed id }
        ensures ok { IfOk result (λ event. event ≡ event_by (messages.Request id method params) self.old) }
        ensures made { OnOk result (self.new ≡ with_heeded (messages.Request id method params) self.old) }
        ensures said { OnOk result (AreMessages (answers_by id (meaning method params) self.old)) }
        ensures err { OnErr result (self.new.terms ≡ self.old.terms) }
    {
        match meaning_of(self.alloc, &method, &params)? {
            Meaning::Serves => self.hear(id, Target::Root, method, params),
            Meaning::Calls(handle, called) => self.hear_on(id, handle, called, method, params),
            meaning => self.heed_extension(id, meaning, method),
        }
    }

    /// A request with the method of an extension gets its answer.
    fn heed_extension(
        &mut self,
        id: Id,
        meaning: Meaning,
        method: Text,
    ) -> Result<RpcEvent, OutOfMemory>
        requires extension { asks_in meaning self.old.owner ≡ false }
        requires named { IsNamed id }
        ensures ok { IfOk result (λ event. event ≡ extension_event meaning method self.old) }
        ensures made { OnOk result (self.new ≡ with_said (answers_by id meaning self.old) (with_extended meaning (with_producer (turned_by meaning self.old.producer) self.old))) }
        ensures said { OnOk result (AreMessages (answers_by id meaning self.old)) }
        ensures err { OnErr result (self.new.terms ≡ self.old.terms) }
    {
        self.answer_at_once(id, &meaning)?;
        self.turn_page(&meaning);
        self.extend(meaning, method)
    }

    /// A call on an object waits from now on, where the object lives, and is answered else.
    fn hear_on(
        &mut self,
        id: Id,
        handle: u64,
        called: Text,
        method: Text,
        params: Params,
    ) -> Result<RpcEvent, OutOfMemory>
        requires new { waits_in id self.old.table ≡ false }
        requires named { IsNamed id }
        requires calls { meaning method params ≡ meanings.Calls handle called }
        ensures ok { IfOk result (λ event. event ≡ event_by (messages.Request id method params) self.old) }
        ensures made { OnOk result (self.new ≡ with_heeded (messages.Request id method params) self.old) }
        ensures said { OnOk result (AreMessages (answers_by id (meaning method params) self.old)) }
        ensures err { OnErr result (self.new.terms ≡ self.old.terms) }
    {
        match self.owner.object(handle) {
            Some(object) => self.hear(id, Target::Object(object, handle), called, params),
            None => self.heed_extension(id, Meaning::Calls(handle, called), method),
        }
    }

    /// A request to the service or to an object waits from now on, and the objects are adopted that it offers.
    fn hear(
        &mut self,
        id: Id,
        target: Target,
        method: Text,
        params: Params,
    ) -> Result<RpcEvent, OutOfMemory>
        requires { waits_in id self.old.table ≡ false }
        ensures ok { IfOk result (λ event. event ≡ events.Asked id target method params) }
        ensures made { OnOk result (self.new ≡ with_holder (adopting_all (Some id) (whole_arguments params) self.old.holder) (with_table (heard id self.old.table) self.old)) }
        ensures err { OnErr result (self.new.terms ≡ self.old.terms) }
    {
        self.holder.adopt_arguments(&params, Some(&id))?;
        match self.table.hear(id.copy(self.alloc)?) {
            Heard::New => Ok(RpcEvent::Asked(id, target, method, params)),
            _ => Err(OutOfMemory),
        }
    }

    /// A request gets the answer that it gets by itself.
    fn answer_at_once(&mut self, id: Id, meaning: &Meaning) -> Result<(), OutOfMemory>
        requires extension { asks_in meaning.now self.old.owner ≡ false }
        requires named { IsNamed id }
        ensures made { OnOk result (self.new ≡ with_said (answers_by id meaning.now self.old) self.old) }
        ensures said { OnOk result (AreMessages (answers_by id meaning.now self.old)) }
        ensures err { OnErr result (self.new ≡ self.old) }
    {
        let answer = self.answer_to(id, meaning)?;
        self.say_message(&answer)
    }

    /// The answer that a request gets by itself where it isn't for the service.
    fn answer_to(&self, id: Id, meaning: &Meaning) -> Result<Message, OutOfMemory>
        requires { asks_in meaning.now self.now.owner ≡ false }
        ensures answer { IfOk result (λ answer. answers_by id meaning.now self.now ≡ answer ∷ []) }
        ensures pages { PagesFit (encoder self.now.terms.encoding) self.now.producer }
    {
        let alloc = self.alloc;
        match meaning {
            Meaning::Turns(token) => self.page_answer(id, token),
            Meaning::Calls(_, _) => fault(alloc, id, NOTHING_THERE, "no object"),
            Meaning::Mistakes => fault(alloc, id, BAD_ARGUMENTS, "bad arguments"),
            Meaning::Unknown => fault(alloc, id, NO_METHOD, "no method"),
            _ => Ok(Message::Result(id, Datum { node: Node::Nil })),
        }
    }

    /// The answer to a request for a page: the next page of a live token.
    fn page_answer(&self, id: Id, token: &Id) -> Result<Message, OutOfMemory>
        ensures { IfOk result (λ answer. answer ≡ page_answer id (page_in token.now self.now.producer)) }
    {
        match self.producer.next_page(token)? {
            Some(page) => Ok(Message::Result(id, page)),
            None => fault(self.alloc, id, NOTHING_THERE, "no sequence"),
        }
    }

    /// A request for a page was answered: its values go from what is left.
    fn turn_page(&mut self, meaning: &Meaning)
        ensures { self.new ≡ with_producer (turned_by meaning.now self.old.producer) self.old }
    {
        if let Meaning::Turns(token) = meaning {
            self.producer.turn(token);
        }
    }

    /// Says a message that no rule refuses.
    fn say_message(&mut self, message: &Message) -> Result<(), OutOfMemory>
        requires { body_refusal (encoder self.old.terms.encoding) (message_value message.now) ≡ None }
        ensures made { OnOk result (self.new ≡ with_said (message.now ∷ []) self.old) }
        ensures message { OnOk result (HasNamedId message.now → IsMessage message.now) }
        ensures err { OnErr result (self.new ≡ self.old) }
    {
        match self.text_of(message) {
            Ok(text) => self.say(text.as_slice()),
            Err(CallFault::OutOfMemory) => Err(OutOfMemory),
            Err(CallFault::Refused(_)) => unreachable!(),
        }
    }
}
