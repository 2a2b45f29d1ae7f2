//! What a turn works on, and what it leaves of its thread.

use thr_services::{Gifts, Services};
use thr_shared::SharedVariables;
use thr_stack::notes::Notes;
use thr_syntax::tree::Interface;
use thr_values::history::Entry;
use thr_values::number::{NameId, Tid};

/// What a turn works on beside the stack of its thread. Notes and gifts are cleared before they are used.
#[derive(Drop)]
pub struct Workings {
    pub services: Services,
    pub shared: SharedVariables,
    pub notes: Notes,
    pub gifts: Gifts,
    /// The lines of the history.
    pub entries: Vec<Entry>,
    /// The interface of the script.
    pub interface: Interface,
}

/// What a turn leaves of its thread.
#[derive(Clone, Copy, Debug, PartialEq, Eq)]
pub enum Left {
    Goes,
    /// It goes on and has made a thread, which begins at this routine with this argument.
    Begins(Tid, NameId, i64),
    Ended,
}
