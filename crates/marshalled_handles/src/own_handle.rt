//! A handle that this end made.

ghost use Rattle.marshalled_handles.specs.Owner.{answering, ending, is_until};
ghost use Rattle.std.specs.Prelude.{◌≡◌};

/// What is kept of a handle that this end made.
#[derive(Drop)]
pub struct OwnHandle {
    /// The object that is called by it.
    pub object: u64,
    /// The own request with whose response it ends.
    pub until: Option<u64>,
    pub ended: bool,
}

impl OwnHandle {
    /// It lives no longer.
    pub fn end(&mut self)
        ensures { self.new ≡ ending self.old }
    {
        self.ended = true;
    }

    /// Whether it ends with the response to this own request.
    pub fn is_until(&self, request: u64) -> bool
        ensures { result ≡ is_until request self.now.until }
    {
        match self.until {
            Some(until) => until == request,
            None => false,
        }
    }

    /// It ends, where it does with the response to this own request.
    pub fn answer(&mut self, request: u64)
        ensures { self.new ≡ answering request self.old }
    {
        if self.is_until(request) {
            self.end();
        }
    }
}
