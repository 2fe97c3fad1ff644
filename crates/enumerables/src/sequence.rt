//! A sequence that this end answered.

ghost use Rattle.enumerables.specs.Producer.{ending, paging};
ghost use Rattle.std.specs.Prelude.{◌≡◌};

use crate::left::Left;
use std::alloc::Global;

/// What is kept of a sequence that was answered with a token. Where no value is left, the token has ended.
#[derive(Drop)]
pub struct Sequence {
    /// The most values of a page.
    pub page: u32,
    pub left: Left,
}

impl Sequence {
    /// A page is answered.
    pub fn turn(&mut self)
        ensures { self.new ≡ paging self.old }
    {
        self.left.drop_first(self.page as usize);
    }

    /// Nothing is left. It takes no memory.
    pub fn end(&mut self, alloc: Global)
        ensures { self.new ≡ ending self.old }
    {
        self.left = Left::none(alloc);
    }
}
