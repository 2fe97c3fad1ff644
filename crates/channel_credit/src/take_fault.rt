use wire_base::Reason;

/// Content was refused, or memory ran out.
#[derive(Clone, Copy, Debug, PartialEq, Eq)]
pub enum TakeFault {
    Refused(Reason),
    OutOfMemory,
}
