//! The calls of an end.

ghost use Rattle.call_messages.specs.Messages.{is_plain_answer, release_message};
ghost use Rattle.call_table.specs.Replies.{cancel_refusal, full_refusal, unless_there};
ghost use Rattle.call_table.specs.Table.{begun, waits_in, with_cancelled};
ghost use Rattle.enumerables.specs.Consumer.{following_refusal, found, turning, without};
ghost use Rattle.enumerables.specs.Producer.{with_sequence};
ghost use Rattle.marshalled_handles.specs.Both.{end_in};
ghost use Rattle.marshalled_handles.specs.Replies.{seen_refusal};
ghost use Rattle.message_body.specs.AsRead.{AreMessages};
ghost use Rattle.message_body.specs.Written.{encoder};
ghost use Rattle.rpc_end.specs.Calls.{Calls, Responds, Tests, asking_refusal, finished, invoking_refusal, next_notification, next_number, next_request, page_asked, pages_left, response_by, running_refusal, told_refusal, with_objects, with_released, with_replied, with_request};
ghost use Rattle.rpc_end.specs.Ends.{Makes, with_consumer, with_output, with_producer, with_said, with_table};
ghost use Rattle.rpc_end.specs.Replies.{Answers, RefusesStopped};
ghost use Rattle.rpc_end.specs.Stands.{RpcStands};
ghost use Rattle.rpc_items.specs.Bodies.{first_refusal};
ghost use Rattle.rpc_items.specs.Drawn.{drawn};
ghost use Rattle.rpc_items.specs.Fitting.{IsNamed};
ghost use Rattle.rpc_items.specs.Items.{Abort, Ask, Cancel, Did, Forget, Invoke, Next, Release, Report, Respond, RpcItem, TakeReport, Tell};
ghost use Rattle.rpc_items.specs.Methods.{proxy_method};
ghost use Rattle.rpc_items.specs.Pages.{page_values};
ghost use Rattle.rpc_items.specs.Reports.{reports};
ghost use Rattle.rpc_items.specs.Saying.{said};
ghost use Rattle.rpc_items.specs.declared.calls.Answer.TheVariants as answers;
ghost use Rattle.rpc_items.specs.declared.calls.Expect.TheVariants.{Plain};
ghost use Rattle.sequence_limits.specs.Limits.{pages_refusal, values_refusal};
ghost use Rattle.std.specs.Prelude.{◌≡◌, ◌==◌, ◌+◌, ◌∷◌, ◌++◌, [], List, None, OnOk, drop, false, length, slice_get, true, ℕ};
ghost use Rattle.wire_base.specs.Options.{or_else};

use crate::end::RpcEnd;
use call_messages::{has_progress, in_order};
use marshalled_handles::release;
use rpc_items::{Answer, Arguments, Expect, HandleKey};
use wire_base::{CallFault, Datum, DatumList, EndState, Id, Refusal, Text};

impl RpcEnd {
    /// Says a request, and answers its number, which is its id and the token of its progress. Each object among its arguments
    /// gets the next handle.
    pub fn request(
        &mut self,
        method: &Text,
        args: Arguments,
        expect: Expect,
    ) -> Result<u64, CallFault>
        ensures answers { (items : List RpcItem) (at : ℕ) (rest : List ℕ) → RpcStands self.old items at rest →
            Answers self.old self.new items at rest (Ask method.now args expect) (λ n. n ≡ drawn items + 1) result }
        ensures stopped { RefusesStopped self.old self.new result }
        ensures terms { self.new.terms ≡ self.old.terms }
    {
        self.check_running()?;
        let asked = self.ask(method, args, expect);
        self.finish(asked)
    }

    /// Says a notification. Each object among its arguments gets the next handle.
    pub fn notify(&mut self, method: &Text, args: Arguments) -> Result<(), CallFault>
        ensures answers { (items : List RpcItem) (at : ℕ) (rest : List ℕ) → RpcStands self.old items at rest →
            Answers self.old self.new items at rest (Tell method.now args) (λ _. Unit {0}) result }
        ensures stopped { RefusesStopped self.old self.new result }
        ensures terms { self.new.terms ≡ self.old.terms }
    {
        self.check_running()?;
        let told = self.tell(method, args);
        self.finish(told)
    }

    /// Says the one response to a request of the peer. Where that is a sequence, it has the first values of it, and the token by
    /// which the peer asks for the others, page after page.
    pub fn respond(&mut self, id: &Id, answer: Answer) -> Result<(), CallFault>
        ensures answers { (items : List RpcItem) (at : ℕ) (rest : List ℕ) → RpcStands self.old items at rest →
            Answers self.old self.new items at rest (Respond id.now answer) (λ _. Unit {0}) result }
        ensures stopped { RefusesStopped self.old self.new result }
        ensures terms { self.new.terms ≡ self.old.terms }
    {
        self.check_running()?;
        let answered = self.answer(id, answer);
        self.finish(answered)
    }

    /// Asks the peer to give up a request that has no response. Its outcome is that of its response all the same.
    pub fn cancel(&mut self, n: u64) -> Result<(), CallFault>
        ensures answers { (items : List RpcItem) (at : ℕ) (rest : List ℕ) → RpcStands self.old items at rest →
            Answers self.old self.new items at rest (Cancel n) (λ _. Unit {0}) result }
        ensures stopped { RefusesStopped self.old self.new result }
        ensures terms { self.new.terms ≡ self.old.terms }
    {
        self.check_running()?;
        let cancelled = self.give_up(n);
        self.finish(cancelled)
    }

    /// Reports by this token on a request of the peer that waits for its response.
    pub fn report(&mut self, id: &Id, token: &Id, value: &Datum) -> Result<(), CallFault>
        ensures answers { (items : List RpcItem) (at : ℕ) (rest : List ℕ) → RpcStands self.old items at rest →
            Answers self.old self.new items at rest (Report id.now token.now value.now) (λ _. Unit {0}) result }
        ensures stopped { RefusesStopped self.old self.new result }
        ensures terms { self.new.terms ≡ self.old.terms }
    {
        self.check_running()?;
        let reported = self.tell_progress(id, token, value);
        self.finish(reported)
    }

    /// Asks for the next page of the sequence that is the result of a request, and answers the number of the request for it.
    pub fn next(&mut self, n: u64) -> Result<u64, CallFault>
        ensures answers { (items : List RpcItem) (at : ℕ) (rest : List ℕ) → RpcStands self.old items at rest →
            Answers self.old self.new items at rest (Next n) (λ number. number ≡ drawn items + 1) result }
        ensures stopped { RefusesStopped self.old self.new result }
        ensures terms { self.new.terms ≡ self.old.terms }
    {
        self.check_running()?;
        let asked = self.ask_page(n);
        self.finish(asked)
    }

    /// Gives the sequence up that is the result of a request: no page of it can be asked for any more.
    pub fn abort(&mut self, n: u64) -> Result<(), CallFault>
        ensures answers { (items : List RpcItem) (at : ℕ) (rest : List ℕ) → RpcStands self.old items at rest →
            Answers self.old self.new items at rest (Abort n) (λ _. Unit {0}) result }
        ensures stopped { RefusesStopped self.old self.new result }
        ensures terms { self.new.terms ≡ self.old.terms }
    {
        self.check_running()?;
        let left = self.leave_pages(n);
        self.finish(left)
    }

    /// Says a request to the object of a handle of the peer, and answers its number. Each object among its arguments gets the
    /// next handle.
    pub fn invoke(
        &mut self,
        handle: u64,
        method: &Text,
        args: Arguments,
        expect: Expect,
    ) -> Result<u64, CallFault>
        ensures answers { (items : List RpcItem) (at : ℕ) (rest : List ℕ) → RpcStands self.old items at rest →
            Answers self.old self.new items at rest (Invoke handle method.now args expect) (λ n. n ≡ drawn items + 1) result }
        ensures stopped { RefusesStopped self.old self.new result }
        ensures terms { self.new.terms ≡ self.old.terms }
    {
        self.check_running()?;
        let asked = self.ask_object(handle, method, args, expect);
        self.finish(asked)
    }

    /// Releases a handle of either side, and tells the peer.
    pub fn release(&mut self, key: HandleKey) -> Result<(), CallFault>
        ensures answers { (items : List RpcItem) (at : ℕ) (rest : List ℕ) → RpcStands self.old items at rest →
            Answers self.old self.new items at rest (Release key) (λ _. Unit {0}) result }
        ensures stopped { RefusesStopped self.old self.new result }
        ensures terms { self.new.terms ≡ self.old.terms }
    {
        self.check_running()?;
        let released = self.let_go(key);
        self.finish(released)
    }

    /// Hands over the oldest report on a request that asked for progress, where one is left, also after the end. It takes no
    /// memory.
    pub fn take_report(&mut self, n: u64) -> Result<Option<Datum>, CallFault>
        ensures answers { (items : List RpcItem) (at : ℕ) (rest : List ℕ) → RpcStands self.old items at rest →
            Answers self.old self.new items at rest (TakeReport n) (λ report. report ≡ slice_get (reports n items) 0) result }
        ensures stopped { RefusesStopped self.old self.new result }
        ensures terms { self.new.terms ≡ self.old.terms }
    {
        if let EndState::Stopped = self.state {
            return Err(CallFault::Refused(Refusal::Stopped));
        }
        match self.table.take_report(n) {
            Ok(report) => Ok(report),
            Err(refusal) => Err(CallFault::Refused(refusal)),
        }
    }

    /// Drops a known outcome, also after the end. It takes no memory.
    pub fn forget(&mut self, n: u64) -> Result<(), CallFault>
        ensures answers { (items : List RpcItem) (at : ℕ) (rest : List ℕ) → RpcStands self.old items at rest →
            Answers self.old self.new items at rest (Forget n) (λ _. Unit {0}) result }
        ensures stopped { RefusesStopped self.old self.new result }
        ensures terms { self.new.terms ≡ self.old.terms }
    {
        if let EndState::Stopped = self.state {
            return Err(CallFault::Refused(Refusal::Stopped));
        }
        if let Err(refusal) = self.table.forget(n) {
            return Err(CallFault::Refused(refusal));
        }
        Ok(())
    }

    /// Refuses a call of an end that doesn't run.
    fn check_running(&self) -> Result<(), CallFault>
        ensures { Tests (running_refusal self.now.state) result }
    {
        match self.state {
            EndState::Running => Ok(()),
            EndState::Ended(cause) => Err(CallFault::Refused(Refusal::Ended(cause))),
            EndState::Stopped => Err(CallFault::Refused(Refusal::Stopped)),
        }
    }

    /// Stops the end where memory ran out.
    fn finish<A>(&mut self, given: Result<A, CallFault>) -> Result<A, CallFault>
        ensures answer { result ≡ given }
        ensures state { self.new ≡ finished given self.old }
    {
        match given {
            Err(CallFault::OutOfMemory) => {
                self.stop();
                Err(CallFault::OutOfMemory)
            }
            given => given,
        }
    }

    /// Says a request of a running end.
    fn ask(&mut self, method: &Text, args: Arguments, expect: Expect) -> Result<u64, CallFault>
        ensures calls { Calls self.old self.new (asking_refusal method.now args self.old) (next_request method.now args self.old) (with_request args expect self.old) (next_number self.old) result }
        ensures said { OnOk result (AreMessages (next_request method.now args self.old)) }
    {
        let text = self.request_text(method, &args)?;
        self.note_request(&args, expect, text.as_slice())
    }

    /// Says a request of a running end to the object of a handle of the peer.
    fn ask_object(
        &mut self,
        handle: u64,
        method: &Text,
        args: Arguments,
        expect: Expect,
    ) -> Result<u64, CallFault>
        ensures calls { Calls self.old self.new (invoking_refusal handle args self.old) (next_request (proxy_method handle method.now) args self.old) (with_request args expect self.old) (next_number self.old) result }
        ensures said { OnOk result (AreMessages (next_request (proxy_method handle method.now) args self.old)) }
    {
        let text = self.invocation_text(handle, method, &args)?;
        self.note_request(&args, expect, text.as_slice())
    }

    /// Draws the number of a request and handles for its objects, and says it.
    fn note_request(
        &mut self,
        args: &Arguments,
        expect: Expect,
        text: &[u8],
    ) -> Result<u64, CallFault>
        requires { full_refusal self.old.table ≡ None }
        ensures { Makes self.old self.new None None (with_output (self.old.output ++ text.now) (with_request args.now expect self.old)) (next_number self.old) result }
    {
        let number = self.draw(expect, has_progress(args), text)?;
        self.offer(args, Some(number))?;
        Ok(number)
    }

    /// Draws handles for the objects among arguments.
    fn offer(&mut self, args: &Arguments, request: Option<u64>) -> Result<(), CallFault>
        ensures { Makes self.old self.new None None (with_objects request args.now self.old) tt result }
    {
        match self.owner.offer_all(in_order(args), request) {
            Ok(()) => Ok(()),
            Err(_) => Err(CallFault::OutOfMemory),
        }
    }

    /// Says a notification of a running end.
    fn tell(&mut self, method: &Text, args: Arguments) -> Result<(), CallFault>
        ensures calls { Calls self.old self.new (told_refusal method.now args self.old) (next_notification method.now args self.old) (with_objects None args self.old) tt result }
        ensures said { OnOk result (AreMessages (next_notification method.now args self.old)) }
    {
        let text = self.notification_text(method, &args)?;
        self.send(text.as_slice())?;
        self.offer(&args, None)
    }

    /// Says that a handle is released.
    fn let_go(&mut self, key: HandleKey) -> Result<(), CallFault>
        ensures calls { Calls self.old self.new (seen_refusal (end_in key self.old.owner self.old.holder)) (release_message key ∷ []) (with_released key self.old) tt result }
        ensures said { OnOk result (AreMessages (release_message key ∷ [])) }
    {
        let text = self.release_text(key)?;
        self.send(text.as_slice())?;
        release(&mut self.owner, &mut self.holder, key);
        Ok(())
    }

    /// Says a response of a running end.
    fn answer(&mut self, id: &Id, answer: Answer) -> Result<(), CallFault>
        ensures responds { Responds self.old self.new id.now answer tt result }
        ensures said { OnOk result (IsNamed id.now → AreMessages (response_by id.now answer self.old ∷ [])) }
    {
        match answer {
            Answer::Sequence(values, page, first) => self.answer_in_pages(id, values, page, first),
            Answer::Object(object) => self.answer_by_handle(id, object),
            answer => self.answer_whole(id, answer),
        }
    }

    /// Says a response of a running end that is a value or an error.
    fn answer_whole(&mut self, id: &Id, answer: Answer) -> Result<(), CallFault>
        requires { is_plain_answer answer ≡ true }
        ensures responds { Responds self.old self.new id.now answer tt result }
        ensures said { OnOk result (IsNamed id.now → AreMessages (response_by id.now answer self.old ∷ [])) }
    {
        let text = self.response_text(id, answer)?;
        self.reply(id, text.as_slice())
    }

    /// Says a response of a running end that is an object, which gets the next handle.
    fn answer_by_handle(&mut self, id: &Id, object: u64) -> Result<(), CallFault>
        ensures responds { Responds self.old self.new id.now (answers.Object object) tt result }
        ensures said { OnOk result (IsNamed id.now → AreMessages (response_by id.now (answers.Object object) self.old ∷ [])) }
    {
        let text = self.object_text(id, object)?;
        if self.owner.offer(object, None).is_err() {
            return Err(CallFault::OutOfMemory);
        }
        self.reply(id, text.as_slice())
    }

    /// Says a response of a running end that begins a sequence, and keeps the values that are left.
    fn answer_in_pages(
        &mut self,
        id: &Id,
        values: DatumList,
        page: u32,
        first: u32,
    ) -> Result<(), CallFault>
        ensures responds { Responds self.old self.new id.now (answers.Sequence values page first) tt result }
        ensures said { OnOk result (IsNamed id.now → AreMessages (response_by id.now (answers.Sequence values page first) self.old ∷ [])) }
    {
        let text = self.pages_text(id, &values, page, first)?;
        self.reply_in_pages(id, values, page, first, text.as_slice())
    }

    /// Keeps the values that are left of a sequence, and says the response that begins it.
    fn reply_in_pages(
        &mut self,
        id: &Id,
        values: DatumList,
        page: u32,
        first: u32,
        text: &[u8],
    ) -> Result<(), CallFault>
        requires waits { waits_in id.now self.old.table ≡ true }
        requires page { (page == 0) ≡ false }
        requires values { values_refusal (encoder self.old.terms.encoding) values ≡ None }
        requires pages { pages_refusal (encoder self.old.terms.encoding) (page_values (length values) page (drop first values)) ≡ None }
        ensures { Makes self.old self.new None None
            (with_output (self.old.output ++ text.now) (with_producer (with_sequence values page first self.old.producer) (with_replied id.now self.old))) tt result }
    {
        if self.producer.produce(values, page, first).is_err() {
            return Err(CallFault::OutOfMemory);
        }
        self.reply(id, text)
    }

    /// Asks for a page of a sequence that a running end follows.
    fn ask_page(&mut self, n: u64) -> Result<u64, CallFault>
        ensures makes { Makes self.old self.new (or_else (following_refusal (found n self.old.consumer)) (full_refusal self.old.table))
            (first_refusal (encoder self.old.terms.encoding) (page_asked n (next_number self.old) self.old.consumer))
            (with_said (page_asked n (next_number self.old) self.old.consumer) (with_consumer (turning n (next_number self.old) self.old.consumer) (with_table (begun Plain false self.old.table) self.old)))
            (next_number self.old) result }
        ensures said { OnOk result (AreMessages (page_asked n (next_number self.old) self.old.consumer)) }
    {
        let text = self.turn_text(n)?;
        self.note_turn(n, text.as_slice())
    }

    /// Draws the number of the request for a page, and says it.
    fn note_turn(&mut self, n: u64, text: &[u8]) -> Result<u64, CallFault>
        requires { full_refusal self.old.table ≡ None }
        ensures { Makes self.old self.new None None
            (with_output (self.old.output ++ text.now) (with_consumer (turning n (next_number self.old) self.old.consumer) (with_table (begun Plain false self.old.table) self.old)))
            (next_number self.old) result }
    {
        let number = self.draw(Expect::Plain, false, text)?;
        self.consumer.turn(n, number);
        Ok(number)
    }

    /// Gives a sequence up that a running end follows.
    fn leave_pages(&mut self, n: u64) -> Result<(), CallFault>
        ensures makes { Makes self.old self.new (following_refusal (found n self.old.consumer)) (first_refusal (encoder self.old.terms.encoding) (pages_left n self.old.consumer))
            (with_said (pages_left n self.old.consumer) (with_consumer (without n self.old.consumer) self.old)) tt result }
        ensures said { OnOk result (AreMessages (pages_left n self.old.consumer)) }
    {
        let text = self.abort_text(n)?;
        self.send(text.as_slice())?;
        self.consumer.give_up(n);
        Ok(())
    }

    /// Says that a request of a running end is cancelled.
    fn give_up(&mut self, n: u64) -> Result<(), CallFault>
        ensures calls { Calls self.old self.new (cancel_refusal n self.old.table) (said (Did (Cancel n)) []) (with_table (with_cancelled n self.old.table) self.old) tt result }
        ensures said { OnOk result (AreMessages (said (Did (Cancel n)) [])) }
    {
        let text = self.cancellation_text(n)?;
        self.note_cancelled(n, text.as_slice())
    }

    /// Says a report of a running end.
    fn tell_progress(&mut self, id: &Id, token: &Id, value: &Datum) -> Result<(), CallFault>
        ensures calls { Calls self.old self.new (unless_there (waits_in id.now self.old.table)) (said (Did (Report id.now token.now value.now)) []) self.old tt result }
        ensures said { OnOk result (AreMessages (said (Did (Report id.now token.now value.now)) [])) }
    {
        let text = self.report_text(id, token, value)?;
        self.send(text.as_slice())
    }

    /// Notes that a request is cancelled, and says so.
    fn note_cancelled(&mut self, n: u64, text: &[u8]) -> Result<(), CallFault>
        requires { cancel_refusal n self.old.table ≡ None }
        ensures makes { Makes self.old self.new None None (with_output (self.old.output ++ text.now) (with_table (with_cancelled n self.old.table) self.old)) tt result }
    {
        if let Err(refusal) = self.table.cancel(n) {
            return Err(CallFault::Refused(refusal));
        }
        self.send(text)?;
        Ok(())
    }

    /// Draws the number of a request, and says it.
    fn draw(&mut self, expect: Expect, progress: bool, text: &[u8]) -> Result<u64, CallFault>
        requires { full_refusal self.old.table ≡ None }
        ensures makes { Makes self.old self.new None None (with_output (self.old.output ++ text.now) (with_table (begun expect progress self.old.table) self.old)) (next_number self.old) result }
    {
        let number = self.table.begin(expect, progress)?;
        self.send(text)?;
        Ok(number)
    }

    /// Notes that a request of the peer is answered, with whose response handles may end, and says the response.
    fn reply(&mut self, id: &Id, text: &[u8]) -> Result<(), CallFault>
        requires { waits_in id.now self.old.table ≡ true }
        ensures { Makes self.old self.new None None (with_output (self.old.output ++ text.now) (with_replied id.now self.old)) tt result }
    {
        if let Err(refusal) = self.table.answer(id) {
            return Err(CallFault::Refused(refusal));
        }
        self.holder.responded(id);
        self.send(text)?;
        Ok(())
    }

    /// Says a text, as a part of a call.
    fn send(&mut self, text: &[u8]) -> Result<(), CallFault>
        ensures { Makes self.old self.new None None (with_output (self.old.output ++ text.now) self.old) tt result }
    {
        match self.say(text) {
            Ok(()) => Ok(()),
            Err(_) => Err(CallFault::OutOfMemory),
        }
    }
}
