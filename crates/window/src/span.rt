// The numbers of a window.

// The entries from `start` on, at most `len` of them.
#[derive(Clone, Copy, PartialEq, Eq, Debug)]
pub struct Span {
    pub start: usize,
    pub len: usize,
}
