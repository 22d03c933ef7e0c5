// What every refusal tells: the part that refuses, its number, and a position.
#![tactic(auto)]

ghost use Rattle.std.specs.Prelude.{◌≡◌};
ghost use Rattle.fault.specs.declared.code.FaultCode.{FaultCode};

mod code;

pub use code::{FaultCode, Part};

// A refusal of any part. A refusal that passes through an upper part is kept whole inside the upper part's.
pub trait Fault {
    // The number and the values of each case.
    ghost coded: { Self → FaultCode };

    fn code(&self) -> FaultCode
        ensures { result ≡ coded self.now };

    fn part(&self) -> Part
        ensures { result ≡ (coded self.now).part }
    {
        self.code().part
    }

    fn number(&self) -> u8
        ensures { result ≡ (coded self.now).number }
    {
        self.code().number
    }

    fn position(&self) -> usize
        ensures { result ≡ (coded self.now).position }
    {
        self.code().position
    }
}
