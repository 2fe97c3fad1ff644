//! What holds of bodies, of all bytes and every message.

ghost use Rattle.std.specs.Prelude.{◌≡◌, ◌↔◌, ◌<◌, ℕ, List, length, Ok, Err};
ghost use Rattle.wire_base.specs.Tree.{Tree};
ghost use Rattle.wire_base.specs.declared.reason.Reason.{Reason};
ghost use Rattle.wire_base.specs.declared.reason.Reason.TheVariants.{NotJson, Float, NotOneValue};
ghost use Rattle.json_value.specs.Reading.{IsReading, HasNoReading, HasFloat};
ghost use Rattle.pack_value.specs.Answer.{IsAtFront, IsUndecided};
ghost use Rattle.pack_value.specs.Spelling.{IsSpelling};
ghost use Rattle.pack_value.specs.Tokens.{IsRefused};
ghost use Rattle.rpc_items.specs.Fitting.{IsFair};
ghost use Rattle.rpc_items.specs.declared.messages.Message.{Message};
ghost use Rattle.message_body.specs.AsRead.{as_read, IsWritable};
ghost use Rattle.message_body.specs.declared.encoding.Encoding.{Encoding};
ghost use Rattle.message_body.specs.Found.{body_in, json_in, pack_in};
ghost use Rattle.message_body.specs.Written.{body_text, encoder};

/// What is found in bytes as JSON, by the relations that say what the crate `serde_json` reads.
pub fn readings_are_found()
    ensures value { (b : List ℕ) (t : Tree) → (json_in b ≡ Ok t) ↔ IsReading b t }
    ensures none { (b : List ℕ) → (json_in b ≡ Err NotJson) ↔ HasNoReading b }
    ensures float { (b : List ℕ) → (json_in b ≡ Err Float) ↔ HasFloat b }
{}

/// What is found in bytes as MessagePack, by spellings and by the rules on tokens. One of the four is so of any bytes.
pub fn spellings_are_found()
    ensures value { (b : List ℕ) (t : Tree) → (pack_in b ≡ Ok t) ↔ IsSpelling t b }
    ensures broken { (b : List ℕ) (k : ℕ) (r : Reason) → IsRefused b k r → pack_in b ≡ Err (k, r) }
    ensures shorter { (b : List ℕ) → IsUndecided b → pack_in b ≡ Err (length b, NotOneValue) }
    ensures longer { (b : List ℕ) (t : Tree) (n : ℕ) → IsAtFront b t n → n < length b → pack_in b ≡ Err (n, NotOneValue) }
{}

/// Each encoding leaves room for the id of a response, and for the answers that a connection gives by itself.
pub fn encodings_are_fair()
    ensures { (e : Encoding) → IsFair (encoder e) }
{}

/// A message that no rule refuses as a body is read again from what it is written as: in MessagePack itself, and in JSON
/// with its data in normal form, which stays the same when it is read once more.
pub fn written_bodies_are_read()
    ensures read { (e : Encoding) (m : Message) → IsWritable e m → body_in e (body_text e m) ≡ Ok (as_read e m) }
    ensures again { (e : Encoding) (m : Message) → as_read e (as_read e m) ≡ as_read e m }
{}
