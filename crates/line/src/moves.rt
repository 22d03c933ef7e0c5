// The moves of a line.
ghost use Rattle.std.specs.Prelude.{◌≡◌, ◌+◌, ◌-◌, ◌<◌, ◌≤◌, map, length};
ghost use Rattle.readings.specs.Readings.{Answers, OneExplains, NearAnswered, usable};
ghost use Rattle.line.specs.Asking.{asked_targets};
ghost use Rattle.line.specs.Lines.{seen as seen_entry, reading_of, targets_of, readings_of};

use crate::lines::{AskedLine, Ends, GatheredLine, LineRequest, Target};
use arrayvec::ArrayVec;
use cells::{Entry, Store};
use field::Field;
use readings::{AnswerFault, AnsweredLine, Reading, answer};
use space::Shape;
use std::marker::PhantomData;

// What is read at a target.
fn read_target<S: Store>(store: &mut S, q: u8, target: Target) -> Reading
    ensures reading { result ≡ reading_of q (S.meaning store.old).entries target }
    ensures same { S.meaning store.new ≡ S.meaning store.old }
    ensures kept { S.kept store.new ≡ S.kept store.old }
    ensures lent { S.lent store.new ≡ S.lent store.old }
{
    let entry = store.read(target.place).unwrap_or(Entry::Missing);
    Reading {
        mark: target.mark,
        divisor: target.divisor,
        entry: seen(q, entry),
    }
}

// A symbol of q or more counts as missing.
fn seen(q: u8, entry: Entry) -> Entry
    ensures { result ≡ seen_entry q entry }
{
    match entry {
        Entry::Symbol(s) if s < q => entry,
        Entry::Symbol(_) | Entry::Missing => Entry::Missing,
    }
}

impl<F: Field> AskedLine<F> {
    // The line of the request. It never refuses: where the line may not be asked for, it has no marks.
    pub fn new(shape: Shape, request: &LineRequest) -> AskedLine<F>
        ensures targets { targets_of result ≡ asked_targets F.algebra shape.q shape.m shape.d request.now.place request.now.direction request.now.marks.now }
        ensures degree { result.d ≡ shape.d }
    {
        let targets = match Ends::<F>::asked(shape, request) {
            Ok(ends) => ends.targets(request.marks),
            Err(_) => ArrayVec::new(),
        };
        AskedLine {
            d: shape.d,
            targets,
            field: PhantomData,
        }
    }

    // Reads the cells of the line. It changes none.
    pub fn gather<S: Store>(self, store: &mut S) -> GatheredLine<F>
        ensures readings { readings_of result ≡ map (reading_of F.algebra.size (S.meaning store.old).entries) (targets_of self) }
        ensures degree { result.d ≡ self.d }
        ensures same { S.meaning store.new ≡ S.meaning store.old }
        ensures kept { S.kept store.new ≡ S.kept store.old }
        ensures lent { S.lent store.new ≡ S.lent store.old }
    {
        let AskedLine { d, targets, field } = self;
        let mut readings = ArrayVec::new();
        for target in targets.as_slice() {
            readings.push(read_target(store, F::Q, *target));
        }
        GatheredLine { d, readings, field }
    }
}

impl<F: Field> GatheredLine<F> {
    // The symbol at the line's first place, and which readings are wrong or missing.
    pub fn answer(self) -> Result<AnsweredLine, AnswerFault>
        ensures answer { Answers F.algebra self.d (usable F.algebra.size (readings_of self)) result }
        ensures one { OneExplains F.algebra self.d (usable F.algebra.size (readings_of self)) }
        ensures near { NearAnswered F.algebra self.d (usable F.algebra.size (readings_of self)) result }
    {
        let GatheredLine {
            d,
            readings,
            field: _,
        } = self;
        answer::<F>(d, readings.as_slice())
    }
}
