//! The swatches beside the drawing: the shades that the boxes of each first-level row have.

use crate::boxes::PayloadBox;
use crate::colour::{Class, Colour};
use crate::scale::Tenths;
use std::alloc::{AllocError, Global};

// How wide a swatch is, in tenths of a unit.
const WIDTH: u128 = 224;

// How far its name is behind where it begins.
const TO_NAME: u128 = 252;

// How far the next one is.
const TO_NEXT: u128 = 700;

/// The swatches of the first-level rows that the drawing shows, each with its name.
pub(crate) fn print_swatches(
    alloc: Global,
    text: &mut String,
    boxes: &[PayloadBox],
    classes: u128,
) -> Result<(), AllocError> {
    let mut x = 400;
    for row in 5..64 {
        let shades = shades_of(alloc, boxes, row, classes)?;
        if !shades.is_empty() {
            print_swatch(text, x, &shades)?;
            print_name(text, x.saturating_add(TO_NAME), row)?;
            x = x.saturating_add(TO_NEXT);
        }
    }
    Ok(())
}

// The classes of a first-level row that a box has, from the darkest one to the lightest one.
fn shades_of(
    alloc: Global,
    boxes: &[PayloadBox],
    row: u32,
    classes: u128,
) -> Result<Vec<Class>, AllocError> {
    let mut shades = Vec::new(alloc);
    for part in 0..classes {
        let class = Class { row, part, classes };
        if boxes.iter().any(|payload| class.has(payload.len)) {
            shades.push(class)?;
        }
    }
    Ok(shades)
}

// A swatch: stripes of the same width, one for each shade.
fn print_swatch(text: &mut String, x: u128, shades: &[Class]) -> Result<(), AllocError> {
    let width = WIDTH / (shades.len() as u128).max(1);
    let mut x = x;
    for class in shades {
        let (left, across, fill) = (Tenths(x), Tenths(width), Colour::Class(*class));
        writeln!(
            text,
            "<rect x='{left}' y='712' width='{across}' height='14' fill='{fill}'/>"
        )?;
        x = x.saturating_add(width);
    }
    Ok(())
}

// The name of a first-level row.
fn print_name(text: &mut String, x: u128, row: u32) -> Result<(), AllocError> {
    let left = Tenths(x);
    writeln!(text, "<text x='{left}' y='724'>2^{row}</text>")
}
