//! Frames.

use thr_remainder::unwinding::Unwinding;
use thr_values::exception::Exc;
use thr_values::history::What;
use thr_values::number::NameId;

/// What a frame is of (docs/machine.md, "Frames").
#[derive(Clone, Copy)]
pub enum Kind {
    /// A call: the local of its caller that takes the value, and how many locals the caller has.
    Call {
        place: Option<u8>,
        count: u8,
    },
    /// A try in its body, whose clauses begin at the line `first`.
    Try {
        scope: u64,
        first: u32,
    },
    Catch {
        scope: u64,
        caught: Exc,
    },
    Finally {
        scope: u64,
        pending: Option<Unwinding>,
    },
    Once {
        scope: u64,
        block: NameId,
        routine: NameId,
    },
    Barrier {
        scope: u64,
        key: NameId,
        routine: NameId,
    },
}

/// A frame, and the line where the frame below goes on after it.
#[derive(Clone, Copy)]
pub struct Frame {
    pub kind: Kind,
    pub back: u32,
}

/// What an unwinding does at a frame (docs/machine.md, "Unwindings").
#[derive(Clone, Copy)]
pub enum Met {
    /// The frame is dropped, and the unwinding goes on.
    Drops,
    /// A body begins at this line in the frame's place.
    Begins(Kind, u32, What),
    /// The frame is a once block's.
    Undoes,
    /// The frame is dropped, and the unwinding is lost.
    Loses(What),
}
