/// How the bodies of messages are told apart.
#[derive(Clone, Copy, Debug, PartialEq, Eq)]
pub enum Framing {
    /// Lines of a header stand before each body, and `Content-Length` is one of them.
    Header,
    /// The length stands before each body, as four bytes, big-endian and signed.
    Length,
}
