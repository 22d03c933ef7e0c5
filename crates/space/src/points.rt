// A point is four codes by value, [x0, x1, x2, x3]; those past xm are 0.

// A point over its divisor, its first coordinate that is not 0.
#[derive(Clone, Copy)]
pub struct NormalForm {
    pub point: [u8; 4],
    pub divisor: u8,
}

// Where a point's normal form stands, and its divisor.
#[derive(Clone, Copy)]
pub struct Location {
    pub place: usize,
    pub divisor: u8,
}
