//! Kinds of calls.

use rlsf_trace_text::Op;
use std::fmt;

/// A kind of calls: a command of the trace's text.
#[derive(Clone, Copy, PartialEq, Eq)]
pub(crate) enum Kind {
    Insert,
    Append,
    Alloc,
    Free,
    FreeUnknown,
    Realloc,
    ReallocNoMove,
    Fill,
    Put,
    Get,
    Usable,
    Block,
    Trim,
}

/// All kinds, in the order of the table.
pub(crate) const KINDS: [Kind; 13] = [
    Kind::Insert,
    Kind::Append,
    Kind::Alloc,
    Kind::Free,
    Kind::FreeUnknown,
    Kind::Realloc,
    Kind::ReallocNoMove,
    Kind::Fill,
    Kind::Put,
    Kind::Get,
    Kind::Usable,
    Kind::Block,
    Kind::Trim,
];

impl Kind {
    /// The kind of an op.
    pub(crate) fn of(op: Op) -> Kind {
        match op {
            Op::Insert(_) => Kind::Insert,
            Op::Append(_) => Kind::Append,
            Op::Alloc(_, _) => Kind::Alloc,
            Op::Free(_) => Kind::Free,
            Op::FreeUnknown(_) => Kind::FreeUnknown,
            Op::Realloc(_, _) => Kind::Realloc,
            Op::ReallocNoMove(_, _) => Kind::ReallocNoMove,
            Op::Fill(_, _) => Kind::Fill,
            Op::Put(_, _, _) => Kind::Put,
            Op::Get(_, _) => Kind::Get,
            Op::Usable(_) => Kind::Usable,
            Op::Block(_, _) => Kind::Block,
            Op::Trim => Kind::Trim,
        }
    }
}

/// The command, as the trace's text has it.
impl fmt::Display for Kind {
    fn fmt<W: fmt::Write>(&self, f: &mut fmt::Formatter<W>) -> fmt::Result {
        f.pad(match self {
            Kind::Insert => "insert",
            Kind::Append => "append",
            Kind::Alloc => "alloc",
            Kind::Free => "free",
            Kind::FreeUnknown => "ufree",
            Kind::Realloc => "realloc",
            Kind::ReallocNoMove => "nrealloc",
            Kind::Fill => "fill",
            Kind::Put => "put",
            Kind::Get => "get",
            Kind::Usable => "usable",
            Kind::Block => "block",
            Kind::Trim => "trim",
        })
    }
}
