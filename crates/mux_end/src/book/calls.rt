//! The calls on the channels of an end.

ghost use Rattle.mux_end.specs.ChannelCalls.{item_of, test_of};
ghost use Rattle.mux_end.specs.Known.{Leaves, count_found, unread_found};
ghost use Rattle.mux_items.specs.Bodies.{frame_texts};
ghost use Rattle.mux_items.specs.Items.{DidAccept, DidRead};
ghost use Rattle.mux_items.specs.Refusals.{unless_ended};
ghost use Rattle.mux_state.specs.Book.{due_of_book, found, kept_in, next_book, windows_in};
ghost use Rattle.mux_state.specs.Tests.{accept_test, on_kept, read_test};
ghost use Rattle.std.specs.Prelude.{◌≡◌, ◌++◌, Err, IfOk, OnOk, take};
ghost use Rattle.wire_base.specs.declared.refusal.Refusal.{Refusal};

use crate::book::ChannelBook;
use crate::channel_call::ChannelCall;
use mux_items::ChannelKey;
use wire_base::{CallFault, Refusal};

impl ChannelBook {
    pub fn accept(
        &mut self,
        key: ChannelKey,
        window: u32,
        out: &mut Vec<u8>,
    ) -> Result<(), CallFault>
        ensures leaves { Leaves (unless_ended self.old.cause (on_kept (kept_in (found key self.old)) (accept_test (windows_in self.old) window))) self.old (next_book (DidAccept key window) self.old) self.new result }
        ensures output { OnOk result (out.new.items ≡ out.old.items ++ frame_texts self.old.version (due_of_book (DidAccept key window) self.old)) }
        ensures unwritten { (refusal : Refusal) → result ≡ Err (CallFault.Refused refusal) → out.new.items ≡ out.old.items }
        ensures one_version { self.new.version ≡ self.old.version }
        ensures one_party { self.new.party ≡ self.old.party }
    {
        match self.cause {
            Some(cause) => Err(CallFault::Refused(Refusal::Ended(cause))),
            None => self
                .channels
                .accept(self.alloc, self.version, key, window, out),
        }
    }

    pub fn call(
        &mut self,
        key: ChannelKey,
        call: ChannelCall<'_>,
        out: &mut Vec<u8>,
    ) -> Result<(), CallFault>
        ensures leaves { Leaves (unless_ended self.old.cause (on_kept (kept_in (found key self.old)) (test_of call.entry))) self.old (next_book (item_of key call.entry) self.old) self.new result }
        ensures output { OnOk result (out.new.items ≡ out.old.items ++ frame_texts self.old.version (due_of_book (item_of key call.entry) self.old)) }
        ensures unwritten { (refusal : Refusal) → result ≡ Err (CallFault.Refused refusal) → out.new.items ≡ out.old.items }
        ensures one_version { self.new.version ≡ self.old.version }
        ensures one_party { self.new.party ≡ self.old.party }
    {
        match self.cause {
            Some(cause) => Err(CallFault::Refused(Refusal::Ended(cause))),
            None => self.channels.call(self.alloc, self.version, key, call, out),
        }
    }

    pub fn read(
        &mut self,
        key: ChannelKey,
        max: usize,
        into: &mut Vec<u8>,
        out: &mut Vec<u8>,
    ) -> Result<usize, CallFault>
        ensures leaves { Leaves (on_kept (kept_in (found key self.old)) read_test) self.old (next_book (DidRead key max) self.old) self.new result }
        ensures count { IfOk result (λ n. n ≡ count_found max (found key self.old)) }
        ensures bytes { OnOk result (into.new.items ≡ into.old.items ++ take max (unread_found (found key self.old))) }
        ensures refused { (refusal : Refusal) → result ≡ Err (CallFault.Refused refusal) → into.new.items ≡ into.old.items }
        ensures output { OnOk result (out.new.items ≡ out.old.items ++ frame_texts self.old.version (due_of_book (DidRead key max) self.old)) }
        ensures unwritten { (refusal : Refusal) → result ≡ Err (CallFault.Refused refusal) → out.new.items ≡ out.old.items }
        ensures one_version { self.new.version ≡ self.old.version }
        ensures one_party { self.new.party ≡ self.old.party }
    {
        let running = self.cause.is_none();
        self.channels
            .read(self.version, key, running, max, into, out)
    }
}
