//! Rows: the lines of a script with those that belong to them.

use thr_syntax::form::Form;
use thr_values::number::Line;

/// A line of the canonical script, and the lines that belong to it, each None where there is none (docs/machine.md, "The
/// lines of a script").
#[derive(Drop)]
pub struct Row {
    pub form: Form,
    /// The line that closes the block which this line opens, or opens the block which it closes.
    pub partner: Option<Line>,
    /// The next clause, `else` or closing line of the block.
    pub next: Option<Line>,
    /// The line after the block: at a clause or an `else`, after the try or the `if` to which it belongs.
    pub after: Option<Line>,
}
