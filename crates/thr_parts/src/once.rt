//! Once blocks.

use thr_values::number::Tid;

/// A once block that a thread runs, or that is done (docs/machine.md, "Once blocks").
#[derive(Clone, Copy, Debug, PartialEq, Eq)]
pub enum OnceBlock {
    Running(Tid),
    Done,
}
