/// Which ids are an end's own: the odd ones, the even ones, or in version 3, where each side counts its own offers, neither.
#[derive(Clone, Copy, Debug, PartialEq, Eq)]
pub enum Party {
    Odd,
    Even,
    Neither,
}
