//! What names can be the names of.

/// The kind of a declared name (docs/script.md, "Names").
#[derive(Clone, Copy, Debug, PartialEq, Eq)]
pub enum Object {
    Shared,
    /// An address exception or a status exception, built in or not.
    Exception,
    Mutex,
    Mutexattr,
    Cond,
    Attr,
    Key,
    Once,
    Pipe,
    Routine,
}
