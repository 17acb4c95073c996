//! Payloads as boxes: from the call that placed one to the call that ended, moved or resized it.

use crate::window::Window;
use rlsf_trace_runs::Watched;
use rlsf_trace_text::{Answer, Op};
use std::alloc::{AllocError, Global};
use std::collections::BTreeMap;

/// How many boxes are drawn at most.
const MOST_BOXES: usize = 2000;

/// A payload while it has one place and one size.
#[derive(Clone, Copy)]
pub(crate) struct PayloadBox {
    /// Its name.
    pub(crate) name: usize,
    /// Its address.
    pub(crate) addr: usize,
    /// Its usable bytes.
    pub(crate) len: usize,
    /// The index of the call that placed it.
    pub(crate) since: usize,
    /// The index of the call that ended it, or that behind the last one.
    pub(crate) until: usize,
}

/// The boxes of a window.
#[derive(Drop)]
pub(crate) struct Boxes {
    /// Those that are drawn.
    pub(crate) boxes: Vec<PayloadBox>,
    /// How many more there are.
    pub(crate) left_out: u128,
    // The live payloads by their names, without an end.
    live: BTreeMap<usize, PayloadBox>,
    // Their usable bytes, after the last call.
    usable: u128,
}

/// The boxes of a window.
pub(crate) fn boxes_of(
    alloc: Global,
    ops: &[Op],
    watched: &Watched,
    window: Window,
) -> Result<Boxes, AllocError> {
    let mut boxes = Boxes {
        boxes: Vec::new(alloc),
        left_out: 0,
        live: BTreeMap::new(alloc),
        usable: 0,
    };
    boxes.pass_all(ops, watched, window)?;
    boxes.end_all(window)?;
    Ok(boxes)
}

// A call, with the usable bytes of the live payloads after it.
#[derive(Clone, Copy)]
struct Call {
    index: usize,
    op: Op,
    answer: Answer,
    usable: u128,
}

// The call of an index, where the trace has one.
fn call_at(ops: &[Op], watched: &Watched, index: usize) -> Option<Call> {
    Some(Call {
        index,
        op: *ops.get(index)?,
        answer: *watched.answers.get(index)?,
        usable: watched.moments.get(index)?.usable,
    })
}

impl Boxes {
    // Takes the calls before the end of the window into account.
    fn pass_all(
        &mut self,
        ops: &[Op],
        watched: &Watched,
        window: Window,
    ) -> Result<(), AllocError> {
        for index in 0..window.end {
            if let Some(call) = call_at(ops, watched, index) {
                self.pass(call, window)?;
                self.usable = call.usable;
            }
        }
        Ok(())
    }

    // Takes a call into account.
    fn pass(&mut self, call: Call, window: Window) -> Result<(), AllocError> {
        let Some(name) = changed_name(call.op, call.answer) else {
            return Ok(());
        };
        let old_len = match self.live.remove(&name) {
            Some(payload) => {
                self.end(payload, call.index, window)?;
                payload.len as u128
            }
            None => 0,
        };
        if let Answer::Placed(Some(addr)) = call.answer {
            let len = (call.usable.saturating_add(old_len)).saturating_sub(self.usable);
            let payload = PayloadBox {
                name,
                addr: addr.get(),
                len: usize::try_from(len).unwrap_or(usize::MAX),
                since: call.index,
                until: call.index,
            };
            self.live.insert(name, payload)?;
        }
        Ok(())
    }

    // Ends a payload, and draws it if the window has a part of it.
    fn end(&mut self, payload: PayloadBox, until: usize, window: Window) -> Result<(), AllocError> {
        if until <= window.first {
            return Ok(());
        }
        if self.boxes.len() >= MOST_BOXES {
            self.left_out = self.left_out.saturating_add(1);
            return Ok(());
        }
        self.boxes.push(PayloadBox { until, ..payload })?;
        Ok(())
    }

    // Ends the payloads that are live behind the window.
    fn end_all(&mut self, window: Window) -> Result<(), AllocError> {
        for _ in 0..self.live.len() {
            if let Some((_, payload)) = self.live.pop_first() {
                self.end(payload, window.end, window)?;
            }
        }
        Ok(())
    }
}

// The name of the payload that a call placed, ended, moved or resized.
fn changed_name(op: Op, answer: Answer) -> Option<usize> {
    match (op, answer) {
        (
            Op::Alloc(name, _) | Op::Realloc(name, _) | Op::ReallocNoMove(name, _),
            Answer::Placed(Some(_)),
        ) => Some(name),
        (Op::Free(name) | Op::FreeUnknown(name), Answer::Done) => Some(name),
        _ => None,
    }
}
