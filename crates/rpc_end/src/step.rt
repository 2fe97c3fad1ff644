use rpc_items::RpcEvent;
use wire_base::Cause;

/// What a step of an end answers.
#[derive(Debug, Drop)]
pub enum RpcStep {
    /// A message was applied.
    Event(RpcEvent),
    /// No message is whole.
    Short,
    Ended(Cause),
    Stopped,
    OutOfMemory,
}
