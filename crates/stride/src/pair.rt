// The count and the step of a stride.
ghost use Rattle.std.specs.Prelude.{◌<◌, ◌≤◌};
ghost use Rattle.stride.specs.Divisors.{Apart};

use thiserror::Error;

// Entry i of a stride is entry (step × i) mod n below. Since the two share no divisor above 1, no two entries lie at one place.
#[derive(Clone, Copy, PartialEq, Eq, Debug)]
pub struct StridePair {
    pub(crate) n: usize,
    pub(crate) step: usize,
    ghost some: { 0 < step },
    ghost within: { step ≤ n },
    ghost most: { n ≤ 65536 },
    ghost apart: { Apart step n },
}

#[derive(Clone, Copy, PartialEq, Eq, Debug, Error)]
pub enum StrideFault {
    // The step is 0 or above n, the two share a divisor above 1, or n is above 65,536.
    #[error("no stride has this count and step")]
    NoStride,
}
