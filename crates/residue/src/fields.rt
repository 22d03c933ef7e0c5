ghost use Rattle.std.specs.Prelude.{◌≡◌, ℕ};
ghost use Rattle.field.specs.Algebra.{Lawful};
ghost use Rattle.residue.specs.Residue.{residues};
ghost use Rattle.std.proofs.Common.{rules, lit<};
ghost use Rattle.residue.specs.Remainders.{residues_lawful};

use field::Field;
use std::marker::PhantomData;

// A modulus at which the residues are a field.
pub trait Modulus {
    ghost Q: { ℕ };

    const Q: u8;

    ghost lawful: { Lawful (residues Q) };
}

// The residues of a modulus.
pub struct Residue<M> {
    modulus: PhantomData<M>,
}

impl<M: Modulus> Field for Residue<M> {
    ghost algebra = { residues M.Q };

    ghost Q = { M.Q };

    ghost lawful = { Prim.search rules };

    ghost sized = { Prim.search rules };

    const Q: u8 = M::Q;

    // `mul` repeats it with *: a helper that takes the operation would need clauses on it, and be longer than both.
    fn add(a: u8, b: u8) -> u8 {
        if a < Self::Q && b < Self::Q {
            ((a as u16 + b as u16) % Self::Q as u16) as u8
        } else {
            0
        }
    }

    fn neg(a: u8) -> u8 {
        if a < Self::Q {
            (Self::Q - a) % Self::Q
        } else {
            0
        }
    }

    fn mul(a: u8, b: u8) -> u8 {
        if a < Self::Q && b < Self::Q {
            ((a as u16 * b as u16) % Self::Q as u16) as u8
        } else {
            0
        }
    }
}

// A type for each modulus, and no const parameter: so another crate can add a modulus by a type of its own.
pub struct Two;

impl Modulus for Two {
    ghost Q = { 2 };

    ghost lawful = { residues_lawful 2 (lit< tt) tt };

    const Q: u8 = 2;
}

pub type R2 = Residue<Two>;

pub struct Three;

impl Modulus for Three {
    ghost Q = { 3 };

    ghost lawful = { residues_lawful 3 (lit< tt) tt };

    const Q: u8 = 3;
}

pub type R3 = Residue<Three>;

pub struct Five;

impl Modulus for Five {
    ghost Q = { 5 };

    ghost lawful = { residues_lawful 5 (lit< tt) tt };

    const Q: u8 = 5;
}

pub type R5 = Residue<Five>;

pub struct Seven;

impl Modulus for Seven {
    ghost Q = { 7 };

    ghost lawful = { residues_lawful 7 (lit< tt) tt };

    const Q: u8 = 7;
}

pub type R7 = Residue<Seven>;

pub struct Eleven;

impl Modulus for Eleven {
    ghost Q = { 11 };

    ghost lawful = { residues_lawful 11 (lit< tt) tt };

    const Q: u8 = 11;
}

pub type R11 = Residue<Eleven>;

pub struct Thirteen;

impl Modulus for Thirteen {
    ghost Q = { 13 };

    ghost lawful = { residues_lawful 13 (lit< tt) tt };

    const Q: u8 = 13;
}

pub type R13 = Residue<Thirteen>;
