// Prints what a damaged line says of a cell, and a run of calls with their answers.
#![tactic(auto)]

mod damaged;
mod shown;
mod story;

use damaged::show_line;
use examples::sheet;
use residue::R5;
use space::Shape;
use story::show_story;

fn main(rt: HostRuntime) -> anyhow::Result<()> {
    let coefficients = sheet();
    let marks = [1, 2, 3, 4, 5];
    let shape = Shape::new::<R5>(2, 2)?;
    show_line::<R5>(rt, shape, &coefficients, &marks)?;
    show_story::<R5>(rt, shape, &coefficients, &marks)
}
