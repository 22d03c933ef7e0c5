// A run of calls on a plate over a stride over a window over bytes.
use crate::shown::{ShownAnswer, ShownCall};
use byte_store::ByteStore;
use cells::{Entry, Store, WritableStore};
use field::Field;
use line::LineRequest;
use plate::{Call, Plate};
use runs::run;
use space::Shape;
use stride::{Stride, StridePair};
use window::{Span, Window};

// Cells of other sheets stand before and after the window.
const START: usize = 5;

const STEP: usize = 7;

// Makes the calls on a plate over a stride over a window of the store, and prints each with its answer.
fn show_run<F: Field, S: WritableStore + Drop>(
    rt: HostRuntime,
    shape: Shape,
    store: S,
    calls: &[Call],
) -> anyhow::Result<()> {
    let pair = StridePair::new(shape.n, STEP)?;
    let span = Span {
        start: START,
        len: shape.n,
    };
    let pile = Stride::new(Window::new(store, span), pair);
    let mut plate = Plate::<F, Stride<Window<S>>>::new(shape, pile);
    let answers = run(rt.alloc(), &mut plate, calls)?;
    println!(rt; "a run of calls")?;
    for (call, answer) in calls.iter().zip(answers.iter()) {
        println!(rt; "{}: {}", ShownCall(call), ShownAnswer(answer))?;
    }
    Ok(())
}

// Burns, damages, corrects, mends and reads; the last call is refused.
pub(crate) fn show_story<'a, F: Field>(
    rt: HostRuntime,
    shape: Shape,
    coefficients: &'a [u8],
    marks: &'a [u8],
) -> anyhow::Result<()> {
    let mut bytes = [255; 40];
    let correct = Call::Correct(LineRequest {
        place: 7,
        direction: 28,
        marks,
    });
    let calls = [
        Call::Burn(coefficients),
        Call::Spoil {
            place: 10,
            entry: Entry::Symbol(4),
        },
        correct,
        Call::Mend(LineRequest {
            place: 10,
            direction: 28,
            marks,
        }),
        Call::Read { place: 10 },
        Call::Spoil {
            place: 18,
            entry: Entry::Missing,
        },
        correct,
        Call::Correct(LineRequest {
            place: 7,
            direction: 7,
            marks,
        }),
    ];
    show_run::<F, ByteStore>(rt, shape, ByteStore::new(&mut bytes), &calls)
}
