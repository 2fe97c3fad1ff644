//! Handles of both sides.

ghost use Rattle.marshalled_handles.specs.Both.{end_in, holder_released, owner_released};
ghost use Rattle.marshalled_handles.specs.Replies.{seen_living, seen_refusal};
ghost use Rattle.marshalled_handles.specs.Stands.{HolderStands, IsRelease, OwnerStands, standing};
ghost use Rattle.rpc_items.specs.Checks.{Checks};
ghost use Rattle.rpc_items.specs.Handles.{is_live};
ghost use Rattle.rpc_items.specs.Items.{Did, Got, Release, RpcItem};
ghost use Rattle.rpc_items.specs.Refusals.{handle_refusal};
ghost use Rattle.rpc_items.specs.declared.messages.Message.{Message};
ghost use Rattle.std.specs.Prelude.{◌≡◌, ◌∷◌, List, ℕ};

use crate::holder::Holder;
use crate::owner::Owner;
use rpc_items::HandleKey;
use wire_base::Refusal;

/// Whether a handle of either side has ended, where it is known.
fn end_of(owner: &Owner, holder: &Holder, key: HandleKey) -> Option<bool>
    ensures { result ≡ end_in key owner.now holder.now }
{
    if key.own {
        owner.look(key.number)
    } else {
        holder.look(key.number)
    }
}

/// Whether a handle of either side lives, where it was made or adopted. It takes no memory.
pub fn standing(owner: &Owner, holder: &Holder, key: HandleKey) -> Option<bool>
    ensures { (items : List RpcItem) → OwnerStands owner.now items → HolderStands holder.now items → result ≡ standing key items }
{
    let ended = end_of(owner, holder, key)?;
    Some(!ended)
}

/// Whether a handle of either side can be released. It takes no memory.
pub fn check_handle(owner: &Owner, holder: &Holder, key: HandleKey) -> Result<(), Refusal>
    ensures value { Checks (seen_refusal (end_in key owner.now holder.now)) result }
    ensures stands { (items : List RpcItem) → OwnerStands owner.now items → HolderStands holder.now items → Checks (handle_refusal key items) result }
{
    usable(owner, holder, key)
}

/// Whether a handle of either side is known and lives.
fn usable(owner: &Owner, holder: &Holder, key: HandleKey) -> Result<(), Refusal>
    ensures { Checks (seen_refusal (end_in key owner.now holder.now)) result }
{
    match end_of(owner, holder, key) {
        Some(false) => Ok(()),
        Some(true) => Err(Refusal::Released),
        None => Err(Refusal::NoHandle),
    }
}

fn lives(owner: &Owner, holder: &Holder, key: HandleKey) -> bool
    ensures { result ≡ seen_living (end_in key owner.now holder.now) }
{
    match end_of(owner, holder, key) {
        Some(ended) => !ended,
        None => false,
    }
}

/// A handle of either side ends, where it is known.
fn end(owner: &mut Owner, holder: &mut Holder, key: HandleKey)
    ensures owner { owner.new ≡ owner_released key owner.old }
    ensures holder { holder.new ≡ holder_released key holder.old }
{
    if key.own {
        owner.release(key.number);
    } else {
        holder.release(key.number);
    }
}

/// Ends a handle of either side, where it is known. It takes no memory.
pub fn release(owner: &mut Owner, holder: &mut Holder, key: HandleKey)
    ensures owner { owner.new ≡ owner_released key owner.old }
    ensures holder { holder.new ≡ holder_released key holder.old }
    ensures owner_stands { (items : List RpcItem) → OwnerStands owner.old items → OwnerStands owner.new (Did (Release key) ∷ items) }
    ensures holder_stands { (items : List RpcItem) → HolderStands holder.old items → HolderStands holder.new (Did (Release key) ∷ items) }
{
    end(owner, holder, key);
}

/// Notes that the peer releases a handle of either side, and tells whether this ends one that lived. It takes no memory.
pub fn on_release(owner: &mut Owner, holder: &mut Holder, key: HandleKey) -> bool
    ensures owner { owner.new ≡ owner_released key owner.old }
    ensures holder { holder.new ≡ holder_released key holder.old }
    ensures answer { result ≡ seen_living (end_in key owner.old holder.old) }
    ensures owner_stands { (items : List RpcItem) (place : ℕ) (message : Message) → OwnerStands owner.old items → IsRelease key message → OwnerStands owner.new (Got place message ∷ items) }
    ensures holder_stands { (items : List RpcItem) (place : ℕ) (message : Message) → HolderStands holder.old items → IsRelease key message → HolderStands holder.new (Got place message ∷ items) }
    ensures tells { (items : List RpcItem) → OwnerStands owner.old items → HolderStands holder.old items → result ≡ is_live key items }
{
    let lived = lives(owner, holder, key);
    end(owner, holder, key);
    lived
}
