//! Messages that are said.

ghost use Rattle.message_body.specs.AsRead.{IsMessage};
ghost use Rattle.message_body.specs.Replies.{Writes};
ghost use Rattle.message_body.specs.Written.{encoder};
ghost use Rattle.rpc_end.specs.Ends.{with_output};
ghost use Rattle.rpc_end.specs.Texts.{message_text};
ghost use Rattle.rpc_items.specs.Bodies.{body_refusal};
ghost use Rattle.rpc_items.specs.Told.{HasNamedId};
ghost use Rattle.rpc_items.specs.Writing.{message_value};
ghost use Rattle.std.specs.Prelude.{◌≡◌, ◌++◌, IfOk, OnErr, OnOk};

use crate::end::RpcEnd;
use message_body::write;
use message_framing::wrap;
use rpc_items::Message;
use wire_base::{CallFault, OutOfMemory};

impl RpcEnd {
    /// A message as it is sent, with its head.
    pub(crate) fn text_of(&self, message: &Message) -> Result<Vec<u8>, CallFault>
        ensures ok { IfOk result (λ text. text.items ≡ message_text self.now.terms message.now) }
        ensures answer { Writes (body_refusal (encoder self.now.terms.encoding) (message_value message.now)) result }
        ensures message { OnOk result (HasNamedId message.now → IsMessage message.now) }
    {
        let mut body = Vec::new(self.alloc);
        write(self.alloc, self.terms.encoding, message, &mut body)?;
        let mut text = Vec::new(self.alloc);
        match wrap(self.terms.framing, body.as_slice(), &mut text) {
            Ok(()) => Ok(text),
            Err(_) => Err(CallFault::OutOfMemory),
        }
    }

    /// Adds the text of a message to the output.
    pub(crate) fn say(&mut self, text: &[u8]) -> Result<(), OutOfMemory>
        ensures ok { OnOk result (self.new ≡ with_output (self.old.output ++ text.now) self.old) }
        ensures err { OnErr result (self.new ≡ self.old) }
    {
        self.output.extend_from_slice(text)?;
        Ok(())
    }
}
