// The numbers of a pile.
use stride::StridePair;
use window::Span;

// A stride of a pair over a window of a span.
#[derive(Clone, Copy, PartialEq, Eq, Debug)]
pub struct Pile {
    pub span: Span,
    pub pair: StridePair,
}
