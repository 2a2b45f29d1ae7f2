//! Statuses.

/// What the program ends with (README.md, "Statuses").
#[derive(Clone, Copy, Debug, PartialEq, Eq)]
pub struct Status(pub u8);
