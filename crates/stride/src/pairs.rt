// Making a pair of n and step.
ghost use Rattle.std.specs.Prelude.{Decides};
ghost use Rattle.stride.specs.Divisors.{Apart};
ghost use Rattle.stride.specs.PairAnswers.{PairAnswer, stride_fault_code};

use crate::pair::{StrideFault, StridePair};
use fault::{Fault, FaultCode, Part};

const MOST_ENTRIES: usize = 65_536;

impl StridePair {
    pub fn new(n: usize, step: usize) -> Result<StridePair, StrideFault>
        ensures { PairAnswer n step result }
    {
        if step == 0 || step > n || n > MOST_ENTRIES || !share_none(step, n) {
            return Err(StrideFault::NoStride);
        }
        Ok(StridePair { n, step })
    }
}

// Whether `a` and `b` share no divisor above 1: they share what the smaller and the remainder share.
fn share_none(a: usize, b: usize) -> bool
    ensures { Decides result (Apart a b) }
{
    // No index: the pair of numbers itself goes from step to step until one is 0.
    let mut x = a;
    let mut y = b;
    while y != 0 {
        (x, y) = (y, x % y);
    }
    x == 1
}

impl Fault for StrideFault {
    ghost coded = { stride_fault_code };

    fn code(&self) -> FaultCode {
        match self {
            StrideFault::NoStride => Part::Store.refusal(12, 0),
        }
    }
}
