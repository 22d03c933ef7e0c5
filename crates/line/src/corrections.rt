ghost use Rattle.std.specs.Prelude.{◌≡◌, ℕ, List, None, Ok};
ghost use Rattle.form.specs.Sheets.{form_fault};
ghost use Rattle.readings.specs.Readings.{Answers};
ghost use Rattle.line.specs.Asking.{ask_fault};
ghost use Rattle.line.specs.Lines.{line_readings, Corrects};
ghost use Rattle.line.specs.Fair.{Fair, restored, FairRestored};

use crate::ask::check_line;
use crate::faults::LineFault;
use crate::lines::{AskedLine, LineRequest};
use cells::Store;
use field::Field;
use readings::{AnswerFault, AnsweredLine};
use space::Shape;

// The answer of a line that may be asked for.
fn gathered_answer<F: Field, S: Store>(
    shape: Shape,
    store: &mut S,
    request: &LineRequest,
) -> Result<AnsweredLine, AnswerFault>
    requires { ask_fault F.algebra shape.q shape.m shape.d request.now.place request.now.direction request.now.marks.now ≡ None }
    ensures answer { Answers F.algebra shape.d (line_readings F.algebra shape.m (S.meaning store.old).entries request.now.place request.now.direction request.now.marks.now) result }
    ensures fair { (form : List ℕ) → form_fault F.algebra shape.q shape.m shape.d form ≡ None → Fair F.algebra shape.m shape.d form (S.meaning store.old).entries request.now.place request.now.direction request.now.marks.now → result ≡ Ok (restored F.algebra shape.m shape.d form (S.meaning store.old).entries request.now.place request.now.direction request.now.marks.now) }
    ensures same { S.meaning store.new ≡ S.meaning store.old }
    ensures kept { S.kept store.new ≡ S.kept store.old }
    ensures lent { S.lent store.new ≡ S.lent store.old }
{
    AskedLine::<F>::new(shape, request).gather(store).answer()
}

// Asks, gathers and answers the line. It changes no cell.
pub fn correct<F: Field, S: Store>(
    shape: Shape,
    store: &mut S,
    request: &LineRequest,
) -> Result<AnsweredLine, LineFault>
    ensures answer { Corrects F.algebra shape.q shape.m shape.d (S.meaning store.old).entries request.now.place request.now.direction request.now.marks.now result }
    ensures fair { FairRestored F.algebra shape.q shape.m shape.d (S.meaning store.old).entries request.now.place request.now.direction request.now.marks.now result }
    ensures same { S.meaning store.new ≡ S.meaning store.old }
    ensures kept { S.kept store.new ≡ S.kept store.old }
    ensures lent { S.lent store.new ≡ S.lent store.old }
{
    check_line::<F>(shape, request)?;
    Ok(gathered_answer::<F, S>(shape, store, request)?)
}
