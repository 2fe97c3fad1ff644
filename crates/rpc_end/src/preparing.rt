//! Texts of calls, where nothing refuses them.

ghost use Rattle.call_messages.specs.Messages.{is_plain_answer, release_message};
ghost use Rattle.call_table.specs.Replies.{cancel_refusal, full_refusal, unless_there};
ghost use Rattle.call_table.specs.Table.{waits_in};
ghost use Rattle.enumerables.specs.Consumer.{following_refusal, found, token_at};
ghost use Rattle.marshalled_handles.specs.Both.{end_in};
ghost use Rattle.marshalled_handles.specs.Replies.{seen_refusal};
ghost use Rattle.message_body.specs.AsRead.{AreMessages};
ghost use Rattle.message_body.specs.Replies.{Writes};
ghost use Rattle.message_body.specs.Written.{encoder};
ghost use Rattle.rpc_end.specs.Calls.{Prepares, Tests, arguments_refusal, asking_refusal, drawing_refusal, invoking_refusal, member_refusal, needs_refusal, next_notification, next_number, next_request, page_asked, pages_left, responding_refusal, response_by, told_refusal, unwritten};
ghost use Rattle.rpc_end.specs.Texts.{message_texts};
ghost use Rattle.rpc_items.specs.Bodies.{body_refusal, first_refusal};
ghost use Rattle.rpc_items.specs.Arguments.{most_drawn};
ghost use Rattle.rpc_items.specs.Drawn.{arg_list};
ghost use Rattle.rpc_items.specs.Fitting.{IsNamed};
ghost use Rattle.rpc_items.specs.Items.{Cancel, Did, Report};
ghost use Rattle.rpc_items.specs.Made.{made_in};
ghost use Rattle.rpc_items.specs.Methods.{proxy_method};
ghost use Rattle.rpc_items.specs.Refusals.{reserved_refusal};
ghost use Rattle.rpc_items.specs.Saying.{result_of_sequence, said};
ghost use Rattle.rpc_items.specs.Writing.{message_value};
ghost use Rattle.rpc_items.specs.Pages.{page_values};
ghost use Rattle.rpc_items.specs.declared.calls.Answer.TheVariants as answers;
ghost use Rattle.sequence_limits.specs.Limits.{pages_refusal, values_refusal};
ghost use Rattle.std.specs.Prelude.{◌≡◌, ◌==◌, ◌≤◌, ◌<◌, ◌+◌, ◌∷◌, [], IfOk, None, OnOk, Some, drop, false, if◌then◌else◌, length, nat_lt, true};
ghost use Rattle.wire_base.specs.Options.{or_else};

use crate::end::RpcEnd;
use call_messages::{
    abort, cancellation, has_needy, has_reserved, in_order, notification, object_response,
    proxy_name, release, report, request, response, turn,
};
use enumerables::sequence_value;
use marshalled_handles::check_handle;
use rpc_items::{Answer, Arguments, HandleKey, MOST_DRAWN, Message};
use rpc_methods::{is_reserved, is_reserved_value};
use sequence_limits::{check_pages, check_values as check_sequence};
use wire_base::{CallFault, Datum, DatumList, Id, OutOfMemory, Refusal, Text};

/// Refuses methods that callers may not use.
fn check_method(method: &Text) -> Result<(), CallFault>
    ensures { Tests (reserved_refusal method.now) result }
{
    if is_reserved(method) {
        return Err(CallFault::Refused(Refusal::ReservedMethod));
    }
    Ok(())
}

/// Refuses values that callers may not use.
fn check_values(args: &Arguments) -> Result<(), CallFault>
    ensures { Tests (member_refusal args.now) result }
{
    if has_reserved(args) {
        return Err(CallFault::Refused(Refusal::ReservedMember));
    }
    Ok(())
}

/// Refuses arguments that are for requests alone.
fn check_needs(args: &Arguments) -> Result<(), CallFault>
    ensures { Tests (needs_refusal args.now) result }
{
    if has_needy(args) {
        return Err(CallFault::Refused(Refusal::NeedsRequest));
    }
    Ok(())
}

impl RpcEnd {
    /// Refuses arguments: values that callers may not use, handles that can't go back to their owner, and more objects than
    /// there are handles for.
    fn check_arguments(&self, args: &Arguments) -> Result<(), CallFault>
        ensures answer { Tests (arguments_refusal args.now self.now) result }
        ensures handles { OnOk result (length self.now.owner + length (made_in None (arg_list args.now)) ≤ most_drawn) }
    {
        check_values(args)?;
        if let Err(refusal) = self.holder.check_arguments(in_order(args)) {
            return Err(CallFault::Refused(refusal));
        }
        if let Err(refusal) = self.owner.check_arguments(in_order(args)) {
            return Err(CallFault::Refused(refusal));
        }
        Ok(())
    }

    /// Refuses the method or the arguments of a notification.
    fn check_notification(&self, method: &Text, args: &Arguments) -> Result<(), CallFault>
        ensures answer { Tests (told_refusal method.now args.now self.now) result }
        ensures handles { OnOk result (length self.now.owner + length (made_in None (arg_list args.now)) ≤ most_drawn) }
    {
        check_method(method)?;
        check_needs(args)?;
        self.check_arguments(args)
    }

    /// The number of the next request.
    fn next_number(&self) -> Result<u64, CallFault>
        ensures answer { Tests (full_refusal self.now.table) result }
        ensures number { IfOk result (λ n. n ≡ next_number self.now) }
        ensures bound { IfOk result (λ n. n ≤ most_drawn) }
    {
        let drawn = self.table.drawn();
        if MOST_DRAWN <= drawn {
            return Err(CallFault::Refused(Refusal::TooManyRequests));
        }
        Ok(drawn + 1)
    }

    /// The number of the next request, where nothing refuses one with these arguments.
    fn check_drawing(&self, args: &Arguments) -> Result<u64, CallFault>
        ensures answer { Tests (drawing_refusal args.now self.now) result }
        ensures number { IfOk result (λ n. n ≡ next_number self.now) }
        ensures bound { IfOk result (λ n. n ≤ most_drawn) }
        ensures handles { OnOk result (length self.now.owner + length (made_in None (arg_list args.now)) ≤ most_drawn) }
    {
        self.check_arguments(args)?;
        self.next_number()
    }

    /// The number of the next request, where nothing refuses this one to the service before its text is written.
    fn check_request(&self, method: &Text, args: &Arguments) -> Result<u64, CallFault>
        ensures answer { Tests (asking_refusal method.now args.now self.now) result }
        ensures number { IfOk result (λ n. n ≡ next_number self.now) }
        ensures bound { IfOk result (λ n. n ≤ most_drawn) }
        ensures handles { OnOk result (length self.now.owner + length (made_in None (arg_list args.now)) ≤ most_drawn) }
    {
        check_method(method)?;
        self.check_drawing(args)
    }

    /// The number of the next request, where nothing refuses this call on a handle of the peer before its text is written.
    fn check_invocation(&self, handle: u64, args: &Arguments) -> Result<u64, CallFault>
        ensures answer { Tests (invoking_refusal handle args.now self.now) result }
        ensures number { IfOk result (λ n. n ≡ next_number self.now) }
        ensures bound { IfOk result (λ n. n ≤ most_drawn) }
        ensures handles { OnOk result (length self.now.owner + length (made_in None (arg_list args.now)) ≤ most_drawn) }
    {
        if let Err(refusal) = self.holder.check_handle(handle) {
            return Err(CallFault::Refused(refusal));
        }
        self.check_drawing(args)
    }

    /// The next request, as it is sent.
    fn numbered_text(
        &self,
        number: u64,
        method: &Text,
        args: &Arguments,
    ) -> Result<Vec<u8>, CallFault>
        requires number { number ≡ next_number self.now }
        requires bound { number ≤ most_drawn }
        requires handles { length self.now.owner + length (made_in None (arg_list args.now)) ≤ most_drawn }
        ensures ok { IfOk result (λ text. text.items ≡ message_texts self.now.terms (next_request method.now args.now self.now)) }
        ensures answer { Prepares None (first_refusal (encoder self.now.terms.encoding) (next_request method.now args.now self.now)) result }
        ensures said { OnOk result (AreMessages (next_request method.now args.now self.now)) }
    {
        let handles = self.owner.drawn();
        let Ok(message) = request(self.alloc, number, handles, method, args) else {
            return Err(CallFault::OutOfMemory);
        };
        self.text_of(&message)
    }

    /// A request to the service, as it is sent.
    pub(crate) fn request_text(&self, method: &Text, args: &Arguments) -> Result<Vec<u8>, CallFault>
        ensures ok { IfOk result (λ text. text.items ≡ message_texts self.now.terms (next_request method.now args.now self.now)) }
        ensures answer { Prepares (asking_refusal method.now args.now self.now) (first_refusal (encoder self.now.terms.encoding) (next_request method.now args.now self.now)) result }
        ensures said { OnOk result (AreMessages (next_request method.now args.now self.now)) }
    {
        let number = self.check_request(method, args)?;
        self.numbered_text(number, method, args)
    }

    /// A call on a handle of the peer, as it is sent.
    pub(crate) fn invocation_text(
        &self,
        handle: u64,
        method: &Text,
        args: &Arguments,
    ) -> Result<Vec<u8>, CallFault>
        ensures ok { IfOk result (λ text. text.items ≡ message_texts self.now.terms (next_request (proxy_method handle method.now) args.now self.now)) }
        ensures answer { Prepares (invoking_refusal handle args.now self.now) (first_refusal (encoder self.now.terms.encoding) (next_request (proxy_method handle method.now) args.now self.now)) result }
        ensures said { OnOk result (AreMessages (next_request (proxy_method handle method.now) args.now self.now)) }
    {
        let number = self.check_invocation(handle, args)?;
        let Ok(name) = proxy_name(self.alloc, handle, method) else {
            return Err(CallFault::OutOfMemory);
        };
        self.numbered_text(number, &name, args)
    }

    /// A notification, as it is sent.
    pub(crate) fn notification_text(
        &self,
        method: &Text,
        args: &Arguments,
    ) -> Result<Vec<u8>, CallFault>
        ensures ok { IfOk result (λ text. text.items ≡ message_texts self.now.terms (next_notification method.now args.now self.now)) }
        ensures answer { Prepares (told_refusal method.now args.now self.now) (first_refusal (encoder self.now.terms.encoding) (next_notification method.now args.now self.now)) result }
        ensures said { OnOk result (AreMessages (next_notification method.now args.now self.now)) }
    {
        self.check_notification(method, args)?;
        let handles = self.owner.drawn();
        let Ok(message) = notification(self.alloc, handles, method, args) else {
            return Err(CallFault::OutOfMemory);
        };
        self.text_of(&message)
    }

    /// A release of a handle, as it is sent.
    pub(crate) fn release_text(&self, key: HandleKey) -> Result<Vec<u8>, CallFault>
        ensures ok { IfOk result (λ text. text.items ≡ message_texts self.now.terms (release_message key ∷ [])) }
        ensures answer { Prepares (seen_refusal (end_in key self.now.owner self.now.holder)) (first_refusal (encoder self.now.terms.encoding) (release_message key ∷ [])) result }
        ensures said { OnOk result (AreMessages (release_message key ∷ [])) }
    {
        if let Err(refusal) = check_handle(&self.owner, &self.holder, key) {
            return Err(CallFault::Refused(refusal));
        }
        let Ok(message) = release(self.alloc, key) else {
            return Err(CallFault::OutOfMemory);
        };
        self.text_of(&message)
    }

    /// Refuses an answer to no waiting request, and values that callers may not use.
    fn check_answer(&self, id: &Id, answer: &Answer) -> Result<(), CallFault>
        requires { is_plain_answer answer.now ≡ true }
        ensures { Tests (responding_refusal id.now answer.now self.now) result }
    {
        if !self.table.waits(id) {
            return Err(CallFault::Refused(Refusal::NoRequest));
        }
        match answer {
            Answer::Value(value) if is_reserved_value(value) => {
                Err(CallFault::Refused(Refusal::ReservedMember))
            }
            _ => Ok(()),
        }
    }

    /// A response, as it is sent.
    pub(crate) fn response_text(&self, id: &Id, answer: Answer) -> Result<Vec<u8>, CallFault>
        requires { is_plain_answer answer ≡ true }
        ensures ok { IfOk result (λ text. text.items ≡ message_texts self.now.terms (response_by id.now answer self.now ∷ [])) }
        ensures answer { Prepares (responding_refusal id.now answer self.now) (unwritten id.now answer self.now) result }
        ensures said { OnOk result (IsNamed id.now → AreMessages (response_by id.now answer self.now ∷ [])) }
    {
        self.check_answer(id, &answer)?;
        let Ok(message) = response(self.alloc, id, answer) else {
            return Err(CallFault::OutOfMemory);
        };
        self.text_of(&message)
    }

    /// The next handle, where an object can be the answer to this request.
    fn check_object(&self, id: &Id, object: u64) -> Result<u64, CallFault>
        ensures answer { Tests (responding_refusal id.now (answers.Object object) self.now) result }
        ensures handle { IfOk result (λ handle. handle ≡ length self.now.owner + 1) }
    {
        if !self.table.waits(id) {
            return Err(CallFault::Refused(Refusal::NoRequest));
        }
        match self.owner.check(1) {
            Ok(()) => Ok(self.owner.drawn() + 1),
            Err(refusal) => Err(CallFault::Refused(refusal)),
        }
    }

    /// A response that is an object, as it is sent.
    pub(crate) fn object_text(&self, id: &Id, object: u64) -> Result<Vec<u8>, CallFault>
        ensures ok { IfOk result (λ text. text.items ≡ message_texts self.now.terms (response_by id.now (answers.Object object) self.now ∷ [])) }
        ensures answer { Prepares (responding_refusal id.now (answers.Object object) self.now) (unwritten id.now (answers.Object object) self.now) result }
        ensures said { OnOk result (IsNamed id.now → AreMessages (response_by id.now (answers.Object object) self.now ∷ [])) }
    {
        let handle = self.check_object(id, object)?;
        let Ok(message) = object_response(self.alloc, id, handle) else {
            return Err(CallFault::OutOfMemory);
        };
        self.text_of(&message)
    }

    /// A response that begins a sequence, as it is sent, where each later page can be written too.
    pub(crate) fn pages_text(
        &self,
        id: &Id,
        values: &DatumList,
        page: u32,
        first: u32,
    ) -> Result<Vec<u8>, CallFault>
        ensures ok { IfOk result (λ text. text.items ≡ message_texts self.now.terms (response_by id.now (answers.Sequence values.now page first) self.now ∷ [])) }
        ensures answer { Prepares (responding_refusal id.now (answers.Sequence values.now page first) self.now)
            (unwritten id.now (answers.Sequence values.now page first) self.now) result }
        ensures said { OnOk result (IsNamed id.now → AreMessages (response_by id.now (answers.Sequence values.now page first) self.now ∷ [])) }
        ensures page { OnOk result ((page == 0) ≡ false) }
        ensures values { OnOk result (values_refusal (encoder self.now.terms.encoding) values.now ≡ None) }
        ensures pages { OnOk result (pages_refusal (encoder self.now.terms.encoding) (page_values (length values.now) page (drop first values.now)) ≡ None) }
    {
        self.check_sequence_answer(id, values, page, first)?;
        if let Err(refusal) = check_sequence(self.terms.encoding, values.as_slice()) {
            return Err(CallFault::Refused(refusal));
        }
        let text = self.first_text(id, values, first)?;
        check_pages(
            self.alloc,
            self.terms.encoding,
            values.as_slice(),
            page,
            first,
        )?;
        Ok(text)
    }

    /// Refuses a sequence as an answer to no waiting request, with pages of no value, and where no more tokens can be drawn.
    fn check_sequence_answer(
        &self,
        id: &Id,
        values: &DatumList,
        page: u32,
        first: u32,
    ) -> Result<(), CallFault>
        ensures answer { Tests (responding_refusal id.now (answers.Sequence values.now page first) self.now) result }
        ensures page { OnOk result ((page == 0) ≡ false) }
        ensures token { OnOk result (first < length values.now → length self.now.producer < most_drawn) }
    {
        if !self.table.waits(id) {
            return Err(CallFault::Refused(Refusal::NoRequest));
        }
        match self.producer.check(values, page, first) {
            Ok(()) => Ok(()),
            Err(refusal) => Err(CallFault::Refused(refusal)),
        }
    }

    /// The response that begins a sequence, as it is sent.
    fn first_text(&self, id: &Id, values: &DatumList, first: u32) -> Result<Vec<u8>, CallFault>
        requires { first < length values.now → length self.now.producer < most_drawn }
        ensures ok { IfOk result (λ text. text.items ≡ message_texts self.now.terms (Message.Result id.now (result_of_sequence values.now first (length self.now.producer + 1)) ∷ [])) }
        ensures answer { Writes (body_refusal (encoder self.now.terms.encoding) (message_value (Message.Result id.now (result_of_sequence values.now first (length self.now.producer + 1))))) result }
        ensures said { OnOk result (IsNamed id.now → AreMessages (Message.Result id.now (result_of_sequence values.now first (length self.now.producer + 1)) ∷ [])) }
    {
        let Ok(message) = self.first_page(id, values, first) else {
            return Err(CallFault::OutOfMemory);
        };
        self.text_of(&message)
    }

    /// The response that begins a sequence: its token, where values are left, and its first values.
    fn first_page(&self, id: &Id, values: &DatumList, first: u32) -> Result<Message, OutOfMemory>
        requires { first < length values.now → length self.now.producer < most_drawn }
        ensures { IfOk result (λ message. message ≡ Message.Result id.now (result_of_sequence values.now first (length self.now.producer + 1))) }
    {
        let size = values.len().min(first as usize);
        let token = self.next_token(values, first);
        let value = sequence_value(self.alloc, token, &values.as_slice()[..size])?;
        Ok(Message::Result(id.copy(self.alloc)?, value))
    }

    /// The token of a sequence that is answered next, where it has more values than its first ones.
    fn next_token(&self, values: &DatumList, first: u32) -> Option<u64>
        requires { first < length values.now → length self.now.producer < most_drawn }
        ensures { result ≡ (if nat_lt first (length values.now) then Some (length self.now.producer + 1) else None) }
    {
        if (first as usize) < values.len() {
            Some(self.producer.drawn() + 1)
        } else {
            None
        }
    }

    /// The token of a request's sequence, where no page of it is asked for.
    fn followed_token(&self, n: u64) -> Result<&Id, CallFault>
        ensures answer { Tests (following_refusal (found n self.now.consumer)) result }
        ensures token { IfOk result (λ token. token_at (found n self.now.consumer) ≡ Some token.now) }
    {
        match self.consumer.check(n) {
            Ok(token) => Ok(token),
            Err(refusal) => Err(CallFault::Refused(refusal)),
        }
    }

    /// A request for a page, as it is sent.
    pub(crate) fn turn_text(&self, n: u64) -> Result<Vec<u8>, CallFault>
        ensures ok { IfOk result (λ text. text.items ≡ message_texts self.now.terms (page_asked n (next_number self.now) self.now.consumer)) }
        ensures answer { Prepares (or_else (following_refusal (found n self.now.consumer)) (full_refusal self.now.table))
            (first_refusal (encoder self.now.terms.encoding) (page_asked n (next_number self.now) self.now.consumer)) result }
        ensures said { OnOk result (AreMessages (page_asked n (next_number self.now) self.now.consumer)) }
    {
        let token = self.followed_token(n)?;
        let number = self.next_number()?;
        let Ok(message) = turn(self.alloc, number, token) else {
            return Err(CallFault::OutOfMemory);
        };
        self.text_of(&message)
    }

    /// A notification that gives a sequence up, as it is sent.
    pub(crate) fn abort_text(&self, n: u64) -> Result<Vec<u8>, CallFault>
        ensures ok { IfOk result (λ text. text.items ≡ message_texts self.now.terms (pages_left n self.now.consumer)) }
        ensures answer { Prepares (following_refusal (found n self.now.consumer)) (first_refusal (encoder self.now.terms.encoding) (pages_left n self.now.consumer)) result }
        ensures said { OnOk result (AreMessages (pages_left n self.now.consumer)) }
    {
        let token = self.followed_token(n)?;
        let Ok(message) = abort(self.alloc, token) else {
            return Err(CallFault::OutOfMemory);
        };
        self.text_of(&message)
    }

    /// A cancellation, as it is sent.
    pub(crate) fn cancellation_text(&self, n: u64) -> Result<Vec<u8>, CallFault>
        ensures ok { IfOk result (λ text. text.items ≡ message_texts self.now.terms (said (Did (Cancel n)) [])) }
        ensures answer { Prepares (cancel_refusal n self.now.table) (first_refusal (encoder self.now.terms.encoding) (said (Did (Cancel n)) [])) result }
        ensures said { OnOk result (AreMessages (said (Did (Cancel n)) [])) }
    {
        if let Err(refusal) = self.table.check_cancel(n) {
            return Err(CallFault::Refused(refusal));
        }
        let Ok(message) = cancellation(self.alloc, n) else {
            return Err(CallFault::OutOfMemory);
        };
        self.text_of(&message)
    }

    /// A report, as it is sent.
    pub(crate) fn report_text(
        &self,
        id: &Id,
        token: &Id,
        value: &Datum,
    ) -> Result<Vec<u8>, CallFault>
        ensures ok { IfOk result (λ text. text.items ≡ message_texts self.now.terms (said (Did (Report id.now token.now value.now)) [])) }
        ensures answer { Prepares (unless_there (waits_in id.now self.now.table)) (first_refusal (encoder self.now.terms.encoding) (said (Did (Report id.now token.now value.now)) [])) result }
        ensures said { OnOk result (AreMessages (said (Did (Report id.now token.now value.now)) [])) }
    {
        if !self.table.waits(id) {
            return Err(CallFault::Refused(Refusal::NoRequest));
        }
        let Ok(message) = report(self.alloc, token, value) else {
            return Err(CallFault::OutOfMemory);
        };
        self.text_of(&message)
    }
}
