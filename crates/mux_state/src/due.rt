/// The next frame that a channel writes: content of so many bytes, the end of writing, the end of the channel, or none.
#[derive(Clone, Copy, Debug, PartialEq, Eq)]
pub enum Due {
    Content(usize),
    Completed,
    Terminated,
    Nothing,
}
