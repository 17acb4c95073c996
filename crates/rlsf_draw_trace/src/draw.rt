//! The drawing.

use crate::boxes::PayloadBox;
use crate::colour::{Class, Colour};
use crate::legend::{LeftOut, Legend, print_denied_list, print_pool_list};
use crate::pools::{Part, Pool};
use crate::scale::{HEIGHT, Scale, TOP, Tenths};
use crate::swatches::print_swatches;
use crate::window::Window;
use rlsf_trace_runs::BlockInfo;
use std::alloc::{AllocError, Global};

/// What is drawn beside payloads, and how.
const KINDS: &str = "<rect x='40' y='612' width='14' height='14' fill='#eeeeee'/>
<text x='58' y='624'>free block, or the header of a used block</text>
<rect x='380' y='618' width='14' height='1.5' fill='#444444'/>
<text x='398' y='624'>sentinel: the end of a chunk</text>
<rect x='636' y='613' width='1.5' height='12' fill='black'/>
<text x='644' y='624'>a call that finds no room</text>
";

/// What the colours mean, and the end of the drawing.
const FOOT: &str =
    "<text x='40' y='752'>coloured: the payload of a used block. 2^n: its block has from 2^n bytes to less than twice as many; longer blocks are lighter</text>
</svg>
";

/// What is drawn.
#[derive(Clone, Copy)]
pub(crate) struct Scene<'a> {
    /// The calls of the drawing.
    pub(crate) window: Window,
    /// The parts of all pools of the trace.
    pub(crate) parts: &'a [Part],
    /// These pools.
    pub(crate) pools: &'a [Pool],
    /// The payloads of the window.
    pub(crate) boxes: &'a [PayloadBox],
    /// The blocks after the last call.
    pub(crate) blocks: &'a [BlockInfo],
    /// The indices of the calls of the drawing that found no room.
    pub(crate) denied: &'a [usize],
    /// The numbers beside the drawing.
    pub(crate) legend: Legend,
}

/// The complete drawing, as SVG.
pub(crate) fn drawing(alloc: Global, scene: &Scene) -> Result<String, AllocError> {
    let mut text = String::new(alloc);
    print_drawing(alloc, &mut text, scene)?;
    Ok(text)
}

fn print_drawing(alloc: Global, text: &mut String, scene: &Scene) -> Result<(), AllocError> {
    print_head(text, scene.window)?;
    print_shapes(text, scene)?;
    print_legend(text, scene)?;
    print_swatches(alloc, text, scene.boxes, scene.legend.classes)?;
    text.push_str(FOOT)
}

fn print_head(text: &mut String, window: Window) -> Result<(), AllocError> {
    writeln!(
        text,
        "<?xml version='1.0' encoding='UTF-8'?>
<svg xmlns='http://www.w3.org/2000/svg' viewBox='0 0 1200 770' font-family='sans-serif' font-size='14'>
<title>A pool, {window}</title>
<rect width='1200' height='770' fill='white'/>"
    )
}

// All that has a place on the scale.
fn print_shapes(text: &mut String, scene: &Scene) -> Result<(), AllocError> {
    let scale = Scale::new(scene.window, scene.parts);
    print_parts(text, scale, scene.parts, scene.window)?;
    print_boxes(text, scale, scene.boxes, scene.legend.classes)?;
    print_sentinels(text, scale, scene.blocks)?;
    print_denied(text, scale, scene.denied)?;
    print_axes(text, scale, scene.window)
}

fn print_parts(
    text: &mut String,
    scale: Scale,
    parts: &[Part],
    window: Window,
) -> Result<(), AllocError> {
    for part in parts {
        if part.since < window.end {
            let calls = (part.since, window.end);
            let addrs = (part.start, part.end);
            let rect = scale.rect(calls, addrs, Colour::Free);
            writeln!(text, "{rect}/>")?;
        }
    }
    Ok(())
}

fn print_boxes(
    text: &mut String,
    scale: Scale,
    boxes: &[PayloadBox],
    classes: u128,
) -> Result<(), AllocError> {
    for payload in boxes {
        print_box(text, scale, *payload, classes)?;
    }
    Ok(())
}

fn print_box(
    text: &mut String,
    scale: Scale,
    payload: PayloadBox,
    classes: u128,
) -> Result<(), AllocError> {
    let PayloadBox {
        name,
        addr,
        len,
        since,
        until,
    } = payload;
    let low = addr as u128;
    let addrs = (low, low + len as u128);
    let fill = Colour::Class(Class::of(len, classes));
    let rect = scale.rect((since, until), addrs, fill);
    let outline = rect.outline();
    let line = since as u128 + 2;
    writeln!(
        text,
        "{rect}{outline}><title>{name}: {len} bytes at {addr}, from line {line}</title></rect>"
    )
}

// A line behind each block that isn't followed by another one: at the end, a chunk's sentinel is there.
fn print_sentinels(
    text: &mut String,
    scale: Scale,
    blocks: &[BlockInfo],
) -> Result<(), AllocError> {
    for (index, block) in blocks.iter().enumerate() {
        let range = block.as_ptr();
        let end = range.start as u128 + range.len as u128;
        let next = blocks
            .get(index.saturating_add(1))
            .map(|block| block.as_ptr().start as u128);
        if next != Some(end) {
            let rect = scale.line_at(end, Colour::Sentinel);
            writeln!(text, "{rect}/>")?;
        }
    }
    Ok(())
}

// A black line below the addresses for each call that found no room.
fn print_denied(text: &mut String, scale: Scale, denied: &[usize]) -> Result<(), AllocError> {
    let y = Tenths(TOP + HEIGHT + 20);
    for index in denied {
        let x = Tenths(scale.x(*index));
        writeln!(
            text,
            "<rect x='{x}' y='{y}' width='1.5' height='12' fill='black'/>"
        )?;
    }
    Ok(())
}

// The two axes: which way each goes, where it begins and ends, and three addresses between.
fn print_axes(text: &mut String, scale: Scale, window: Window) -> Result<(), AllocError> {
    let (first, last) = (window.first as u128 + 2, window.end as u128 + 1);
    let (low, high) = (scale.low(), scale.high());
    let [quarter, half, three_quarters] = [scale.between(1), scale.between(2), scale.between(3)];
    writeln!(
        text,
        "<text x='40' y='592'>line {first}</text>
<text x='600' y='592' text-anchor='middle'>calls &#8594;</text>
<text x='1160' y='592' text-anchor='end'>line {last}</text>
<g transform='translate(32 560) rotate(-90)'>
<text x='0' y='0'>{low}</text>
<text x='130' y='0' text-anchor='middle'>{quarter}</text>
<text x='260' y='0' text-anchor='middle'>{half}</text>
<text x='390' y='0' text-anchor='middle'>{three_quarters}</text>
<text x='520' y='0' text-anchor='end'>{high}</text>
<text x='260' y='-16' text-anchor='middle'>addresses &#8594;</text>
</g>
<path d='M34 430h6M34 300h6M34 170h6' stroke='black'/>"
    )
}

fn print_legend(text: &mut String, scene: &Scene) -> Result<(), AllocError> {
    print_title(text, scene.window, scene.legend)?;
    let (pools, denied) = (scene.pools.len(), scene.denied.len());
    let most_usable = scene.legend.most_usable;
    write!(text, "<text x='40' y='650'>pools: {pools}")?;
    print_pool_list(text, scene.pools)?;
    write!(
        text,
        "</text>
<text x='40' y='672'>usable bytes of all payloads: at most {most_usable}, in the complete trace</text>
<text x='40' y='694'>no room: {denied} times"
    )?;
    print_denied_list(text, scene.denied)?;
    text.push_str("</text>\n")
}

// What is drawn and how, and what it is a drawing of.
fn print_title(text: &mut String, window: Window, legend: Legend) -> Result<(), AllocError> {
    let (configuration, left_out) = (legend.configuration, LeftOut(legend.left_out));
    writeln!(
        text,
        "{KINDS}<text x='40' y='25'>{configuration}, {window}{left_out}</text>"
    )
}
