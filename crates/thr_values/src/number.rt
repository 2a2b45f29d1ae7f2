//! Numbers that name a thread, a line or a declared name.

/// The number of a thread, from 1 on (docs/machine.md, "Threads").
#[derive(Clone, Copy, Debug, PartialEq, Eq, PartialOrd, Ord)]
pub struct Tid(pub u32);

/// The number of a line of the canonical script, from 1 on (docs/script.md, "The canonical text").
#[derive(Clone, Copy, Debug, PartialEq, Eq, PartialOrd, Ord)]
pub struct Line(pub u32);

/// The place of a name among the names of its script, from 0 on: the ten built-in exceptions, and then the declared
/// names in their order (docs/script.md, "Names").
#[derive(Clone, Copy, Debug, PartialEq, Eq, PartialOrd, Ord)]
pub struct NameId(pub u16);

/// Memory could not be found. No clause says when that is.
#[derive(Clone, Copy, Debug, PartialEq, Eq)]
pub struct NoMemory;
