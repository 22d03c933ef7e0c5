use arrayvec::ArrayVec;

// No report is longer than this, whatever its numbers.
pub(crate) const ROOM: usize = 288;

// A text as it grows.
#[derive(Drop)]
pub(crate) struct Text {
    pub(crate) bytes: ArrayVec<u8, ROOM>,
}
