//! The statuses of the program.

ghost use Rattle.std.specs.Prelude.{◌≡◌};
ghost use Rattle.muxrpc_app.specs.StatusText.{status_code};

use wire_base::{Place, Reason};

/// How a run of the program ended.
#[derive(Clone, Copy, Debug, PartialEq, Eq)]
pub enum Status {
    Done,
    Usage,
    /// A script is broken first in this line, by the reason with this number.
    ScriptRefused(u64, u32),
    StreamRefused(Place, Reason),
    ReadFault,
    WriteFault,
    LinkFault,
    OutOfMemory,
    TooLong,
    LinkEnded,
}

impl Status {
    /// The exit status of the process.
    pub fn code(&self) -> u8
        ensures { result ≡ status_code self.now }
    {
        match self {
            Status::Done => 0,
            Status::Usage => 1,
            Status::ScriptRefused(_, _) => 2,
            Status::StreamRefused(_, _) => 3,
            Status::ReadFault => 4,
            Status::WriteFault => 5,
            Status::LinkFault => 6,
            Status::OutOfMemory => 7,
            Status::TooLong => 8,
            Status::LinkEnded => 9,
        }
    }
}
