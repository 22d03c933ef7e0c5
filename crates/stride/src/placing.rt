// Where the entries of a stride lie.
ghost use Rattle.std.specs.Prelude.{◌≤◌, refl};
ghost use Rattle.stride.specs.Strides.{StrideHidden, stride_meaning, stride_hidden};
ghost use Rattle.stride.specs.Shown.{stride_sound};

use crate::pair::StridePair;
use layer::Placing;

impl Placing for StridePair {
    ghost view = { λ p m. stride_meaning m p.n p.step };

    ghost Hidden = { StrideHidden };

    ghost hidden = { λ p m. stride_hidden m p.n p.step };

    ghost Room = { λ _ n. n ≤ 65536 };

    fn shown(&self, below: usize) -> usize {
        if below < self.n { 0 } else { self.n }
    }

    fn place(&self, below: usize, i: usize) -> Option<usize> {
        if i < self.shown(below) {
            Some(self.step * i % self.n)
        } else {
            None
        }
    }

    ghost alphabet = { λ p m. refl };

    ghost sound = { λ p m. stride_sound m p.n p.step };
}
