// Asking a line: which arguments are sound.
ghost use Rattle.std.specs.Prelude.{◌≡◌, ◌+◌, ◌-◌, ◌<◌, ◌≤◌, [], length, map, Some, None, IfOk, Ok, MatchResult};
ghost use Rattle.space.specs.Places.{divisor, point_of};
ghost use Rattle.decode.specs.Width.{points_most};
ghost use Rattle.line.specs.declared.faults.LineFault.TheVariants.{NoAnswer};
ghost use Rattle.line.specs.Asking.{line_fault_code, point_on, target_at, mark_fault, marks_fault, ends_fault, ask_fault, unless};

use crate::faults::LineFault;
use crate::lines::{Ends, LineRequest, Target};
use arrayvec::ArrayVec;
use decode::POINTS;
use fault::{Fault, FaultCode, Part};
use field::Field;
use readings::AnswerFault;
use space::{Shape, combine, divisor_of, locate, point_of};
use std::marker::PhantomData;

impl Fault for LineFault {
    ghost coded = { line_fault_code };

    fn code(&self) -> FaultCode {
        match *self {
            LineFault::OtherField => Part::Plate.refusal(20, 0),
            LineFault::NoPlace { place } => Part::Line.refusal(30, place),
            LineFault::NoDirection { place } => Part::Line.refusal(31, place),
            LineFault::SamePlace { place } => Part::Line.refusal(32, place),
            LineFault::TooFewMarks => Part::Line.refusal(33, 0),
            LineFault::TooManyMarks => Part::Line.refusal(34, 0),
            LineFault::NotAMark { position } => Part::Line.refusal(35, position),
            LineFault::RepeatedMark { position } => Part::Line.refusal(36, position),
            LineFault::ZeroPoint { position } => Part::Line.refusal(37, position),
            LineFault::NoAnswer(fault) => fault.code(),
        }
    }
}

// By hand: what a derive writes does not tell the proofs which fault comes of a `?`.
impl From<AnswerFault> for LineFault {
    ghost from_gives = { λ f r. r ≡ NoAnswer f };

    fn from(cause: AnswerFault) -> LineFault {
        LineFault::NoAnswer(cause)
    }
}

impl<F: Field> Ends<F> {
    // Of w and v, where both are places and differ.
    fn new(shape: Shape, w: usize, v: usize) -> Result<Ends<F>, LineFault>
        ensures answer { MatchResult result (λ _. ends_fault F.algebra shape.q shape.m w v ≡ None) (λ f. ends_fault F.algebra shape.q shape.m w v ≡ Some f) }
        ensures shape { IfOk result (λ e. e.shape ≡ shape) }
        ensures first { IfOk result (λ e. e.first ≡ point_of shape.q shape.m w) }
        ensures second { IfOk result (λ e. e.second ≡ point_of shape.q shape.m v) }
    {
        if shape.q != F::Q {
            return Err(LineFault::OtherField);
        }
        let first = point_of::<F>(shape, w).map_err(|_| LineFault::NoPlace { place: w })?;
        let second = point_of::<F>(shape, v).map_err(|_| LineFault::NoDirection { place: v })?;
        if v == w {
            return Err(LineFault::SamePlace { place: v });
        }
        Ok(Ends {
            shape,
            first,
            second,
            field: PhantomData,
        })
    }

    // Of the line that is asked for, where it may be.
    pub(crate) fn asked(shape: Shape, request: &LineRequest) -> Result<Ends<F>, LineFault>
        ensures answer { let fault = ask_fault F.algebra shape.q shape.m shape.d request.now.place request.now.direction request.now.marks.now in MatchResult result (λ _. fault ≡ None) (λ f. fault ≡ Some f) }
        ensures shape { IfOk result (λ e. e.shape ≡ shape) }
        ensures first { IfOk result (λ e. e.first ≡ point_of shape.q shape.m request.now.place) }
        ensures second { IfOk result (λ e. e.second ≡ point_of shape.q shape.m request.now.direction) }
    {
        let ends = Ends::<F>::new(shape, request.place, request.direction)?;
        if request.marks.len() <= shape.d {
            return Err(LineFault::TooFewMarks);
        }
        if request.marks.len() > shape.q as usize {
            return Err(LineFault::TooManyMarks);
        }
        ends.check_marks(request.marks)?;
        Ok(ends)
    }

    // The point at which mark t reads the line.
    fn point_on(&self, t: u8) -> [u8; 4]
        ensures { result ≡ point_on F.algebra self.now.first self.now.second t }
    {
        if t == F::Q {
            self.second
        } else {
            combine::<F>(self.first, t, self.second)
        }
    }

    // Whether t may stand after the marks before it.
    fn check_mark(&self, before: &[u8], t: u8) -> Result<(), LineFault>
        ensures { result ≡ unless (mark_fault F.algebra self.now.first self.now.second before.now (length before.now) t) (Ok tt) }
    {
        let position = before.len();
        if t < 1 || t > F::Q {
            return Err(LineFault::NotAMark { position });
        }
        if before.contains(&t) {
            return Err(LineFault::RepeatedMark { position });
        }
        if divisor_of(self.point_on(t)) == 0 {
            return Err(LineFault::ZeroPoint { position });
        }
        Ok(())
    }

    fn check_marks(&self, marks: &[u8]) -> Result<(), LineFault>
        ensures { result ≡ unless (marks_fault F.algebra self.now.first self.now.second [] 0 marks.now) (Ok tt) }
    {
        for (i, t) in marks.iter().enumerate() {
            self.check_mark(&marks[..i], *t)?;
        }
        Ok(())
    }

    // Where mark t is read.
    fn target(&self, t: u8) -> Target
        requires { 0 < divisor (point_on F.algebra self.now.first self.now.second t) }
        ensures { result ≡ target_at F.algebra self.now.shape.m self.now.first self.now.second t }
    {
        let location = locate::<F>(self.shape, self.point_on(t)).unwrap();
        Target {
            mark: t,
            place: location.place,
            divisor: location.divisor,
        }
    }

    // Where each of the marks is read.
    pub(crate) fn targets(&self, marks: &[u8]) -> ArrayVec<Target, POINTS>
        requires few { length marks.now ≤ points_most }
        requires sound { marks_fault F.algebra self.now.first self.now.second [] 0 marks.now ≡ None }
        ensures { result.items ≡ map (target_at F.algebra self.now.shape.m self.now.first self.now.second) marks.now }
    {
        let mut targets = ArrayVec::new();
        for t in marks {
            targets.push(self.target(*t));
        }
        targets
    }
}

// Whether a line may be asked for.
pub fn check_line<F: Field>(shape: Shape, request: &LineRequest) -> Result<(), LineFault>
    ensures { result ≡ unless (ask_fault F.algebra shape.q shape.m shape.d request.now.place request.now.direction request.now.marks.now) (Ok tt) }
{
    Ends::<F>::asked(shape, request)?;
    Ok(())
}
