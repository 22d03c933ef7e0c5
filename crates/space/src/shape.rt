ghost use Rattle.std.specs.Prelude.{◌≡◌, ◌<◌, ◌≤◌, true};
ghost use Rattle.space.specs.Counts.{cells, has_column};

// Forms of degree d over q symbols in the coordinates x0 to xm, and n, how many places their codeword has.
#[derive(Copy, Clone)]
pub struct Shape {
    pub q: u8,
    pub m: usize,
    pub d: usize,
    pub n: usize,
    ghost column: { has_column q ≡ true },
    ghost symbols: { (1 < q) × (q ≤ 16) },
    ghost wide: { (0 < m) × (m ≤ 3) },
    ghost steep: { (0 < d) × (d < q) },
    ghost counted: { n ≡ cells q m },
}
