ghost use Rattle.std.specs.Prelude.{◌≡◌, map, MatchResult};
ghost use Rattle.plate.specs.Settings.{setting_of};
ghost use Rattle.plate.specs.Asked.{request};
ghost use Rattle.runs.specs.Laws.{LawfulRun};

use cells::{Store, WritableStore};
use field::Field;
use plate::{Call, Plate, PlateFault, Reply};
use std::alloc::{AllocError, Global};

// Makes each call in turn and gives what they answered. Room for the answers is taken first: where there is none, no call is made.
pub fn run<F: Field, S: WritableStore>(
    heap: Global,
    plate: &mut Plate<F, S>,
    calls: &[Call],
) -> Result<Vec<Result<Reply, PlateFault>>, AllocError>
    ensures law { MatchResult result
        (λ said. LawfulRun (setting_of F.algebra plate.old.shape (S.meaning plate.old.store)) (S.meaning plate.old.store).entries (map request calls.now) said.items (S.meaning plate.new.store).entries)
        (λ _. S.meaning plate.new.store ≡ S.meaning plate.old.store) }
    ensures alphabet { (S.meaning plate.new.store).alphabet ≡ (S.meaning plate.old.store).alphabet }
    ensures shape { plate.new.shape ≡ plate.old.shape }
    ensures kept { S.kept plate.new.store ≡ S.kept plate.old.store }
    ensures lent { S.lent plate.new.store ≡ S.lent plate.old.store }
{
    let mut answers = Vec::with_capacity(heap, calls.len())?;
    for call in calls {
        let answer = plate.call(call);
        answers.push_reserved(answer);
    }
    Ok(answers)
}
