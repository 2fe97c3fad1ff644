//! Laws of handshakes.

ghost use Rattle.frame_text.specs.Hello.{hello};
ghost use Rattle.mux_handshake.specs.Handshake.{handshake, Whole, Short, Broken};
ghost use Rattle.mux_handshake.specs.Rules.{first_refusal};
ghost use Rattle.mux_items.specs.Limits.{nonce_size};
ghost use Rattle.mux_items.specs.Parties.{party_by};
ghost use Rattle.mux_items.specs.declared.party.Party.{Party};
ghost use Rattle.std.specs.Prelude.{◌≡◌, ◌≢◌, ◌<◌, ◌≤◌, ◌-◌, ◌++◌, ℕ, List, length, take, Some};
ghost use Rattle.wire_base.specs.declared.frame.Version.{Version};
ghost use Rattle.wire_base.specs.declared.frame.Version.TheVariants.{Three};
ghost use Rattle.wire_base.specs.declared.reason.Reason.{Reason};
ghost use Rattle.wire_base.specs.declared.reason.Reason.TheVariants.{SameNonce};

/// What stands at the front stays so, whatever follows. Of less than a whole handshake there are too few bytes to tell. In versions
/// 1 and 2 it takes a byte at least.
#[tactic(auto, using(crate::proofs::Steady::steady))]
pub fn handshake_is_steady()
    ensures within { (v : Version) (own bytes : List ℕ) (party : Party) (size : ℕ) →
        handshake v own bytes ≡ Whole party size → size ≤ length bytes }
    ensures some { (v : Version) (own bytes : List ℕ) (party : Party) (size : ℕ) → v ≢ Three →
        handshake v own bytes ≡ Whole party size → 0 < size }
    ensures whole_stays { (v : Version) (own bytes more : List ℕ) (party : Party) (size : ℕ) →
        handshake v own bytes ≡ Whole party size → handshake v own (bytes ++ more) ≡ Whole party size }
    ensures broken_stays { (v : Version) (own bytes more : List ℕ) (offset : ℕ) (reason : Reason) →
        handshake v own bytes ≡ Broken offset reason → handshake v own (bytes ++ more) ≡ Broken offset reason }
    ensures whole_cut { (v : Version) (own a b : List ℕ) (party : Party) (size : ℕ) →
        handshake v own (a ++ b) ≡ Whole party size → length a < size → handshake v own a ≡ Short }
{}

/// The peer's hello is a handshake, that of versions 1 and 2 once it is whole. Equal nonces are refused at the first byte of the peer's.
#[tactic(auto, using(crate::proofs::Hellos::hellos))]
pub fn hello_is_a_handshake()
    ensures other { (v : Version) (own peer rest : List ℕ) → v ≢ Three → length peer ≡ nonce_size → own ≢ peer →
        handshake v own (hello v peer ++ rest) ≡ Whole (party_by own peer) (length (hello v peer)) }
    ensures same { (v : Version) (own rest : List ℕ) → v ≢ Three → length own ≡ nonce_size →
        handshake v own (hello v own ++ rest) ≡ Broken (length (hello v own) - nonce_size) SameNonce }
    ensures cut { (v : Version) (own peer : List ℕ) (n : ℕ) → v ≢ Three → length peer ≡ nonce_size → n < length (hello v peer) →
        handshake v own (take n (hello v peer)) ≡ Short }
{}

/// A handshake is refused at its first token that breaks a rule, for that rule's reason, and only there.
#[tactic(auto, using(crate::proofs::Refused::refusals))]
pub fn handshake_refuses_the_first()
    ensures refused { (v : Version) (own bytes : List ℕ) (offset : ℕ) (reason : Reason) →
        handshake v own bytes ≡ Broken offset reason → first_refusal v own bytes ≡ Some (offset, reason) }
    ensures refuses { (v : Version) (own bytes : List ℕ) (offset : ℕ) (reason : Reason) →
        first_refusal v own bytes ≡ Some (offset, reason) → handshake v own bytes ≡ Broken offset reason }
{}
