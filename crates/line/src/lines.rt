// A line is asked for, then gathered, then answered. Each step takes the line, and none may be forgotten.
ghost use Rattle.std.specs.Prelude.{◌≡◌};
ghost use Rattle.std.proofs.Props.{props};
ghost use Rattle.space.specs.Places.{Normal};

use arrayvec::ArrayVec;
use decode::POINTS;
use field::Field;
use readings::Reading;
use space::Shape;
use std::marker::PhantomData;

// What is asked: the place whose symbol is wanted, the direction of the line through it, and the marks to read.
#[derive(Clone, Copy)]
pub struct LineRequest<'a> {
    pub place: usize,
    pub direction: usize,
    pub marks: &'a [u8],
}

// Where a mark of a line is read, and the divisor there.
#[derive(Clone, Copy, Default)]
pub struct Target {
    pub mark: u8,
    pub place: usize,
    pub divisor: u8,
}

// The normal points of a line's first place and of its direction, in a shape over the field.
#[derive(Drop)]
pub(crate) struct Ends<F: Field> {
    pub(crate) shape: Shape,
    pub(crate) first: [u8; 4],
    pub(crate) second: [u8; 4],
    pub(crate) field: PhantomData<F>,
    ghost same: { shape.q ≡ F.algebra.size },
    ghost normal: { Normal shape.q shape.m first × Normal shape.q shape.m second } by { Prim.hlevel props },
}

// A line to be gathered.
pub struct AskedLine<F> {
    pub(crate) d: usize,
    pub(crate) targets: ArrayVec<Target, POINTS>,
    pub(crate) field: PhantomData<F>,
}

// A line to be answered.
pub struct GatheredLine<F> {
    pub(crate) d: usize,
    pub(crate) readings: ArrayVec<Reading, POINTS>,
    pub(crate) field: PhantomData<F>,
}
