//! A sequence that is the result of an own request.

ghost use Rattle.enumerables.specs.Consumer.{asking, is_turn_of, rested};
ghost use Rattle.std.specs.Prelude.{◌≡◌};

use wire_base::Id;

/// What is kept of a live sequence of the peer.
#[derive(Drop)]
pub struct Followed {
    /// The request whose result it is.
    pub request: u64,
    /// The token by which its pages are asked for.
    pub token: Id,
    /// The request for a page that is unanswered.
    pub turn: Option<u64>,
}

impl Followed {
    /// Whether a page was asked for by the request with this number.
    pub fn is_turn_of(&self, number: u64) -> bool
        ensures { result ≡ is_turn_of number self.now.turn }
    {
        match self.turn {
            Some(turn) => turn == number,
            None => false,
        }
    }

    /// A page is asked for by the request with this number, where it is request n's sequence.
    pub fn ask(&mut self, n: u64, number: u64)
        ensures { self.new ≡ asking n number self.old }
    {
        if self.request == n {
            self.turn = Some(number);
        }
    }

    /// No page is asked for any longer, where it was by the request with this number.
    pub fn rest(&mut self, number: u64)
        ensures { self.new ≡ rested number self.old }
    {
        if self.is_turn_of(number) {
            self.turn = None;
        }
    }
}
