//! What holds of the handles that were adopted from the peer.

ghost use Rattle.marshalled_handles.specs.Numbers.{adopted_numbers};
ghost use Rattle.rpc_items.specs.Items.{RpcItem};
ghost use Rattle.rpc_items.specs.PeerHandles.{adopted};
ghost use Rattle.std.specs.List.{list_any};
ghost use Rattle.std.specs.List.Sorted.{IsStrictlyIncreasing};
ghost use Rattle.std.specs.Prelude.{◌≡◌, ◌==◌, List, is_some, ℕ};

/// The numbers of adopted handles rise, and a number is among them exactly where it was adopted.
pub fn adopted_handles_have_rising_numbers()
    ensures rise { (items : List RpcItem) → IsStrictlyIncreasing (adopted_numbers items) }
    ensures among { (number : ℕ) (items : List RpcItem) → list_any (λ n. n == number) (adopted_numbers items) ≡ is_some (adopted number items) }
{}
