// The fields of residues modulo 2, 3, 5, 7, 11 and 13.
#![tactic(auto)]

mod fields;

pub use fields::{
    Eleven, Five, Modulus, R2, R3, R5, R7, R11, R13, Residue, Seven, Thirteen, Three, Two,
};
