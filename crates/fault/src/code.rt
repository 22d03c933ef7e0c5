ghost use Rattle.std.specs.Prelude.{◌≡◌};

#[derive(Clone, Copy, PartialEq, Eq, Debug)]
pub enum Part {
    Shape,
    Store,
    Plate,
    Line,
    Text,
}

// A refusal as it is told outside the code, where docs/refusals.md gives each its number. Code matches on the enums of the parts.
// `position` is the entry or place asked for, the index from 0 of the coefficient, coordinate, mark or word, else 0.
#[derive(Clone, Copy, PartialEq, Eq, Debug)]
pub struct FaultCode {
    pub part: Part,
    pub number: u8,
    pub position: usize,
}

impl Part {
    // A refusal of this part.
    pub fn refusal(self, number: u8, position: usize) -> FaultCode
        ensures { result ≡ record { part = self; number = number; position = position } }
    {
        FaultCode {
            part: self,
            number,
            position,
        }
    }
}
