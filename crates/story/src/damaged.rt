// A cell worked out from a damaged line, straight on a plate over bytes.
use byte_store::ByteStore;
use cells::{Entry, Store};
use field::Field;
use line::LineRequest;
use plate::Plate;
use space::{Location, Shape, combine, locate, point_of};

const PLACE: usize = 7;

const DIRECTION: usize = 28;

// The place that a mark of the line reads, and its divisor.
fn target<F: Field>(shape: Shape, mark: u8) -> anyhow::Result<Location> {
    if mark == F::Q {
        return Ok(Location {
            place: DIRECTION,
            divisor: 1,
        });
    }
    let w = point_of::<F>(shape, PLACE)?;
    let v = point_of::<F>(shape, DIRECTION)?;
    let location = locate::<F>(shape, combine::<F>(w, mark, v))?;
    Ok(location)
}

fn show_reading<F: Field, S: Store>(
    rt: HostRuntime,
    plate: &mut Plate<F, S>,
    shape: Shape,
    mark: u8,
) -> anyhow::Result<()> {
    let Location { place, divisor } = target::<F>(shape, mark)?;
    let entry = plate.read(place)?;
    println!(rt; "{mark} {place} {divisor} {entry}")?;
    Ok(())
}

// Burns the sheet, damages cell 10, and works out cell 7 from a line that reads cell 10.
pub(crate) fn show_line<F: Field>(
    rt: HostRuntime,
    shape: Shape,
    coefficients: &[u8],
    marks: &[u8],
) -> anyhow::Result<()> {
    let mut bytes = [255; 31];
    let mut plate = Plate::<F, ByteStore>::new(shape, ByteStore::new(&mut bytes));
    plate.burn(coefficients)?;
    plate.spoil(10, Entry::Symbol(4))?;
    println!(rt; "line through {PLACE} in the direction {DIRECTION}")?;
    println!(rt; "mark place divisor read")?;
    for mark in marks {
        show_reading(rt, &mut plate, shape, *mark)?;
    }
    let request = LineRequest {
        place: PLACE,
        direction: DIRECTION,
        marks,
    };
    let answered = plate.correct(&request)?;
    println!(rt; "concluded {answered}")?;
    Ok(())
}
