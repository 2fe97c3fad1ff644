//! What a multiplexing end does for the connections on its channels.

ghost use Rattle.endpoint.specs.Changes.{MovesIf};
ghost use Rattle.endpoint.specs.Refusing.{TellsMemory};
ghost use Rattle.endpoint_items.specs.Following.{complete_once, followed};
ghost use Rattle.endpoint_items.specs.Following as follows;
ghost use Rattle.mux_end.specs.Replies.{KeepsTerms};
ghost use Rattle.mux_end.specs.Stands.{MuxStands};
ghost use Rattle.mux_items.specs.Calls.{called};
ghost use Rattle.mux_items.specs.Items.{Item};
ghost use Rattle.mux_items.specs.Kept.{is_kept};
ghost use Rattle.mux_items.specs.Lists.{unread};
ghost use Rattle.mux_items.specs.Refusals.{read_refusal};
ghost use Rattle.mux_items.specs.declared.call.Call.TheVariants as call;
ghost use Rattle.std.specs.Prelude.{◌≡◌, IfOk, List, None, length, true, ℕ};

use mux_end::{ChannelKey, MuxEnd};
use std::alloc::Global;
use wire_base::{CallFault, OutOfMemory};

/// A refused call changes nothing.
fn unless_refused<T: Drop>(answer: Result<T, CallFault>) -> Result<(), OutOfMemory>
    ensures { TellsMemory answer result }
{
    match answer {
        Err(CallFault::OutOfMemory) => Err(OutOfMemory),
        _ => Ok(()),
    }
}

/// Writes bytes on a channel, unless writing was completed there.
pub(crate) fn write(mux: &mut MuxEnd, key: ChannelKey, bytes: &[u8]) -> Result<(), OutOfMemory>
    ensures moves { (items : List Item) (at : ℕ) (rest : List ℕ) → MuxStands mux.old items at rest →
        MovesIf mux.old mux.new items (called mux.old.version (call.Write key bytes.now) items) at rest result }
    ensures terms { KeepsTerms mux.old mux.new }
{
    unless_refused(mux.write(key, bytes))
}

/// Completes writing on a channel, unless it was before.
pub(crate) fn complete(mux: &mut MuxEnd, key: ChannelKey) -> Result<(), OutOfMemory>
    ensures moves { (items : List Item) (at : ℕ) (rest : List ℕ) → MuxStands mux.old items at rest →
        MovesIf mux.old mux.new items (followed mux.old.version (complete_once key items) items) at rest result }
    ensures terms { KeepsTerms mux.old mux.new }
{
    unless_refused(mux.complete(key))
}

/// Terminates a channel.
pub(crate) fn terminate(mux: &mut MuxEnd, key: ChannelKey) -> Result<(), OutOfMemory>
    ensures moves { (items : List Item) (at : ℕ) (rest : List ℕ) → MuxStands mux.old items at rest →
        MovesIf mux.old mux.new items (called mux.old.version (call.Terminate key) items) at rest result }
    ensures terms { KeepsTerms mux.old mux.new }
{
    unless_refused(mux.terminate(key))
}

/// How many bytes are unread on a kept channel.
fn unread_count(mux: &MuxEnd, key: ChannelKey) -> usize
    ensures { (items : List Item) (at : ℕ) (rest : List ℕ) → MuxStands mux.now items at rest → is_kept mux.now.version key items ≡ true → result ≡ length (unread mux.now.version key items) }
{
    match mux.view(key) {
        Some(view) => view.unread,
        None => 0,
    }
}

/// Reads all that is unread on a channel.
pub(crate) fn read_all(
    mux: &mut MuxEnd,
    alloc: Global,
    key: ChannelKey,
) -> Result<Vec<u8>, OutOfMemory>
    ensures moves { (items : List Item) (at : ℕ) (rest : List ℕ) → MuxStands mux.old items at rest →
        MovesIf mux.old mux.new items (called mux.old.version (follows.read_all mux.old.version key items) items) at rest result }
    ensures bytes { (items : List Item) (at : ℕ) (rest : List ℕ) → MuxStands mux.old items at rest → read_refusal mux.old.version key items ≡ None →
        IfOk result (λ piece. piece.items ≡ unread mux.old.version key items) }
    ensures terms { KeepsTerms mux.old mux.new }
{
    let count = unread_count(mux, key);
    let mut piece = Vec::new(alloc);
    unless_refused(mux.read(key, count, &mut piece))?;
    Ok(piece)
}
