// Prints the codeword of a sheet: each place with its normal point and symbol, and the shape's numbers.
#![tactic(auto)]

use field::Field;
use form::{Form, coefficient_count, gap};
use residue::R5;
use space::{Shape, point_of};

// The coefficients of `examples::sheet`, said here again: that crate stands on plates and runs, which this program has no use for.
const FORM: [u8; 6] = [1, 2, 0, 0, 3, 1];

fn show_place<F: Field>(rt: HostRuntime, form: &Form, place: usize) -> anyhow::Result<()> {
    let [x0, x1, x2, _] = point_of::<F>(form.shape, place)?;
    let symbol = form.symbol::<F>(place)?;
    println!(rt; "{place} ({x0},{x1},{x2}) {symbol}")?;
    Ok(())
}

fn show_codeword<F: Field>(rt: HostRuntime, form: &Form) -> anyhow::Result<()> {
    println!(rt; "place point symbol")?;
    for place in 0..form.shape.n {
        show_place::<F>(rt, form, place)?;
    }
    Ok(())
}

fn show_numbers(rt: HostRuntime, shape: Shape) -> anyhow::Result<()> {
    println!(rt; "cells {}", shape.n)?;
    println!(rt; "coefficients {}", coefficient_count(shape))?;
    println!(rt; "gap {}", gap(shape))?;
    Ok(())
}

fn run<F: Field>(rt: HostRuntime) -> anyhow::Result<()> {
    let shape = Shape::new::<F>(2, 2)?;
    let form = Form::new(shape, &FORM);
    show_codeword::<F>(rt, &form)?;
    show_numbers(rt, shape)
}

fn main(rt: HostRuntime) -> anyhow::Result<()> {
    run::<R5>(rt)
}
