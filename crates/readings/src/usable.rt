// Readings that have an answer.
ghost use Rattle.std.specs.Prelude.{◌≡◌, ◌+◌, ◌*◌, ◌^◌, ◌<◌, ◌≤◌, map, true, length, if◌then◌else◌};
ghost use Rattle.decode.specs.Width.{points_most};
ghost use Rattle.readings.specs.Counts.{bits};
ghost use Rattle.readings.specs.Readings.{Answers, OneExplains, NearAnswered, marked, missings, usable};
ghost use Rattle.readings.specs.Points.{misses_reading, points_of};

use crate::kinds::{AnswerFault, AnsweredLine, Reading};
use crate::points::{lacks_symbol, misses, point};
use crate::tellable::tellable;
use arrayvec::ArrayVec;
use cells::Entry;
use decode::{POINTS, decode};
use field::Field;
use std::marker::PhantomData;

// Bit i more, where the lower ones stand.
fn with_bit(marks: u32, i: usize, set: bool) -> u32
    requires low { marks < 2 ^ i }
    requires few { i < 32 }
    ensures { result ≡ marks + (if set then 1 else 0) * 2 ^ i }
{
    if set { marks | (1 << i) } else { marks }
}

// Readings whose marks can be told apart, of a line on which a polynomial of degree at most d is looked for.
#[derive(Drop)]
pub(crate) struct Usable<'a, F: Field> {
    d: usize,
    readings: &'a [Reading],
    field: PhantomData<F>,
    ghost few: { length readings.now ≤ points_most },
    ghost told: { marked F.algebra.size readings.now ≡ true },
}

impl<'a, F: Field> Usable<'a, F> {
    // The readings, or none where they are too many or their marks cannot be told apart.
    pub(crate) fn new(d: usize, readings: &'a [Reading]) -> Self
        ensures same { result.d ≡ d }
        ensures usable { result.readings.now ≡ usable F.algebra.size readings.now }
    {
        let told = readings.len() <= POINTS && tellable(F::Q, readings);
        Usable {
            d,
            readings: if told { readings } else { &[] },
            field: PhantomData,
        }
    }

    // The points of the symbols that were read.
    fn points(&self) -> ArrayVec<(u8, u8), POINTS>
        ensures { result.items ≡ points_of F.algebra self.now.d self.now.readings.now }
    {
        let mut points = ArrayVec::new();
        for reading in self.readings {
            if let Entry::Symbol(y) = reading.entry {
                points.push(point::<F>(self.d, *reading, y));
            }
        }
        points
    }

    // The readings whose points the polynomial misses, and those without a symbol.
    fn marks(&self, g: &[u8]) -> (u32, u32)
        ensures wrong { result.0 ≡ bits (map (misses_reading F.algebra self.now.d g.now) self.now.readings.now) }
        ensures missing { result.1 ≡ bits (missings self.now.readings.now) }
    {
        let mut wrong = 0;
        let mut missing = 0;
        for (i, reading) in self.readings.iter().enumerate() {
            wrong = with_bit(wrong, i, misses::<F>(self.d, g, *reading));
            missing = with_bit(missing, i, lacks_symbol(*reading));
        }
        (wrong, missing)
    }

    // What the polynomial that few of the points miss says, or why there is no answer.
    pub(crate) fn decide(&self) -> Result<AnsweredLine, AnswerFault>
        ensures answer { Answers F.algebra self.now.d self.now.readings.now result }
        ensures one { OneExplains F.algebra self.now.d self.now.readings.now }
        ensures near { NearAnswered F.algebra self.now.d self.now.readings.now result }
    {
        let points = self.points();
        let read = points.len();
        if read <= self.d {
            return Err(AnswerFault::TooFewSymbols);
        }
        let g = decode::<F>(self.d, &points).ok_or(AnswerFault::NoPolynomial)?;
        let (wrong, missing) = self.marks(&g);
        Ok(AnsweredLine {
            symbol: g[self.d],
            wrong,
            missing,
        })
    }
}
