// Worked examples, on one sheet.
#![tactic(auto)]

ghost use Rattle.examples.specs.Examples.{Examples};

// The coefficients of a sheet over five residues, of degree 2 in the coordinates x0 to x2. The worked examples hold of it.
#[tactic(auto, using(crate::proofs::Stand::examples))]
pub fn sheet() -> [u8; 6]
    ensures { Examples result }
{
    [1, 2, 0, 0, 3, 1]
}
