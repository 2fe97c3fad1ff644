//! A handle that was adopted from the peer.

ghost use Rattle.marshalled_handles.specs.Holder.{ending, responding};
ghost use Rattle.rpc_items.specs.Ids.{same_id};
ghost use Rattle.rpc_items.specs.PeerHandles.{is_until};
ghost use Rattle.std.specs.Prelude.{◌≡◌};

use wire_base::Id;

/// What is kept of a handle that the peer made.
#[derive(Drop)]
pub struct PeerHandle {
    pub number: u64,
    /// The peer's request with whose response it ends.
    pub until: Option<Id>,
    pub ended: bool,
}

/// Whether two ids are the same.
fn is_same(a: &Id, b: &Id) -> bool
    ensures { result ≡ same_id a.now b.now }
{
    match (a, b) {
        (Id::Number(a), Id::Number(b)) => a == b,
        (Id::Name(a), Id::Name(b)) => a == b,
        _ => false,
    }
}

impl PeerHandle {
    /// It lives no longer.
    pub fn end(&mut self)
        ensures { self.new ≡ ending self.old }
    {
        self.ended = true;
    }

    /// Whether it ends with the response to the peer's request of this id.
    pub fn is_until(&self, id: &Id) -> bool
        ensures { result ≡ is_until self.now.until id.now }
    {
        match &self.until {
            Some(until) => is_same(until, id),
            None => false,
        }
    }

    /// It ends, where it does with the response to the peer's request of this id.
    pub fn respond(&mut self, id: &Id)
        ensures { self.new ≡ responding id.now self.old }
    {
        if self.is_until(id) {
            self.end();
        }
    }
}
