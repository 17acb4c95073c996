//! Where calls and addresses are on the drawing.

use crate::colour::Colour;
use crate::pools::Part;
use crate::window::Window;
use std::fmt;

/// A length on the drawing, in tenths of a unit.
#[derive(Clone, Copy)]
pub(crate) struct Tenths(pub(crate) u128);

impl fmt::Display for Tenths {
    fn fmt<W: fmt::Write>(&self, f: &mut fmt::Formatter<W>) -> fmt::Result {
        write!(f, "{}.{}", self.0 / 10, self.0 % 10)
    }
}

/// A rectangle, as SVG begins it. The text after it closes it.
#[derive(Clone, Copy)]
pub(crate) struct Rect {
    x: Tenths,
    y: Tenths,
    width: Tenths,
    height: Tenths,
    fill: Colour,
}

impl Rect {
    /// The outline of a box, as SVG has it. A low box has none, since its colour would be hidden.
    pub(crate) fn outline(self) -> &'static str {
        if self.height.0 < LEAST_OUTLINED {
            ""
        } else {
            " stroke='white' stroke-width='0.3'"
        }
    }
}

impl fmt::Display for Rect {
    fn fmt<W: fmt::Write>(&self, f: &mut fmt::Formatter<W>) -> fmt::Result {
        let Rect {
            x,
            y,
            width,
            height,
            fill,
        } = *self;
        write!(
            f,
            "<rect x='{x}' y='{y}' width='{width}' height='{height}' fill='{fill}'"
        )
    }
}

/// The left edge and the top of the calls' part of the drawing, its width and its height, in tenths of a unit. The axes that
/// `print_axes` labels lie along its left and its lower edge.
const LEFT: u128 = 400;

pub(crate) const TOP: u128 = 400;

const WIDTH: u128 = 11200;

pub(crate) const HEIGHT: u128 = 5200;

// How thick a line is.
const LINE: u128 = 15;

// How high the lowest box with an outline is.
const LEAST_OUTLINED: u128 = 20;

/// The calls and the addresses that the drawing shows.
#[derive(Clone, Copy)]
pub(crate) struct Scale {
    first: u128,
    calls: u128,
    low: u128,
    bytes: u128,
}

impl Scale {
    /// The scale of a window, and of all addresses from the first pool to the last one's end.
    pub(crate) fn new(window: Window, parts: &[Part]) -> Scale {
        let low = parts.iter().map(|part| part.start).min().unwrap_or(0);
        let high = parts.iter().map(|part| part.end).max().unwrap_or(0);
        Scale {
            first: window.first as u128,
            calls: (window.len() as u128).max(1),
            low,
            bytes: high.saturating_sub(low).max(1),
        }
    }

    /// Where the call of an index begins, from left to right.
    pub(crate) fn x(self, index: usize) -> u128 {
        let passed = (index as u128).saturating_sub(self.first).min(self.calls);
        LEFT.saturating_add(passed.saturating_mul(WIDTH) / self.calls.max(1))
    }

    /// The least address.
    pub(crate) fn low(self) -> u128 {
        self.low
    }

    /// The address behind the greatest one.
    pub(crate) fn high(self) -> u128 {
        self.low.saturating_add(self.bytes)
    }

    /// The address that so many quarters of the addresses lie below.
    pub(crate) fn between(self, quarters: u128) -> u128 {
        self.low
            .saturating_add(self.bytes.saturating_mul(quarters) / 4)
    }

    /// Where an address is, from bottom to top: the greater the address, the less is what SVG calls `y`.
    pub(crate) fn y(self, addr: u128) -> u128 {
        let passed = addr.saturating_sub(self.low).min(self.bytes);
        let above = passed.saturating_mul(HEIGHT) / self.bytes.max(1);
        (TOP + HEIGHT).saturating_sub(above)
    }

    /// The rectangle from a call to another one and from an address to another one. None is so small that nothing is seen of it.
    pub(crate) fn rect(self, calls: (usize, usize), addrs: (u128, u128), fill: Colour) -> Rect {
        let (x, right) = (self.x(calls.0), self.x(calls.1));
        let (y, bottom) = (self.y(addrs.1), self.y(addrs.0));
        Rect {
            x: Tenths(x),
            y: Tenths(y),
            width: Tenths(right.saturating_sub(x).max(1)),
            height: Tenths(bottom.saturating_sub(y).max(1)),
            fill,
        }
    }

    /// A line just above an address, through all calls.
    pub(crate) fn line_at(self, addr: u128, fill: Colour) -> Rect {
        Rect {
            x: Tenths(LEFT),
            y: Tenths(self.y(addr).saturating_sub(LINE)),
            width: Tenths(WIDTH),
            height: Tenths(LINE),
            fill,
        }
    }
}
