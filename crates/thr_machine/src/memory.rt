//! The memory for one event.

ghost use Rattle.std.specs.Prelude.{◌≡◌, ◌-◌, ◌≤◌, ◌<◌, nat_le, ℤ, OnOk, OnErr, IfSome, is_some, true, false, vec_len, vec_capacity};
ghost use Rattle.thr_remainder.specs.Remainders.{Remainder};
ghost use Rattle.thr_parts.specs.Tables.{Table};
ghost use Rattle.thr_services.specs.Views.{state_with};
ghost use Rattle.thr_machine.specs.Books.{has_memory, most_lines, IsSpare};

use crate::opening::spare_stack;
use std::alloc::Global;
use thr_frames::stack::Stack;
use thr_services::Services;
use thr_turns::workings::Workings;
use thr_values::history::Entry;
use thr_values::number::NoMemory;

/// How many lines an event writes at most.
const MOST_LINES: usize = 1160;

/// There is room for the lines of one event.
fn has_lines(entries: &Vec<Entry>) -> bool
    ensures { result ≡ nat_le most_lines (vec_capacity entries.now - vec_len entries.now) }
{
    entries.capacity() - entries.len() >= MOST_LINES
}

/// There is memory for one event.
pub fn has_memory(workings: &Workings, spare: &Option<Stack>) -> bool
    ensures { result ≡ has_memory workings.now spare.now }
{
    has_lines(&workings.entries) && (spare.is_some() && workings.services.has_room())
}

/// Takes a stack for the next thread that begins, where there is none.
fn take_spare(alloc: Global, spare: &mut Option<Stack>) -> Result<(), NoMemory>
    requires { IfSome spare.old IsSpare }
    ensures kept { IfSome spare.new IsSpare }
    ensures ok { OnOk result (is_some spare.new ≡ true) }
    ensures err { OnErr result ((spare.new ≡ spare.old) × (is_some spare.old ≡ false)) }
{
    if spare.is_some() {
        return Ok(());
    }
    let stack = spare_stack(alloc)?;
    *spare = Some(stack);
    Ok(())
}

/// Gives the service room for a value of a key, where it has none.
fn take_value(services: &mut Services) -> Result<(), NoMemory>
    ensures same { (remainders : Table Remainder) (shared : Table ℤ) → state_with services.new remainders shared ≡ state_with services.old remainders shared }
    ensures ok { OnOk result (1 ≤ services.new.onces.room) }
    ensures err { OnErr result ((services.new ≡ services.old) × (services.old.onces.room < 1)) }
{
    if services.has_room() {
        return Ok(());
    }
    services.make_room()
}

/// Takes the memory for one event.
pub fn take_memory(
    alloc: Global,
    workings: &mut Workings,
    spare: &mut Option<Stack>,
) -> Result<(), NoMemory>
    requires spare { IfSome spare.old IsSpare }
    ensures kept { IfSome spare.new IsSpare }
    ensures items { workings.new.entries.items ≡ workings.old.entries.items }
    ensures len { vec_len workings.new.entries ≡ vec_len workings.old.entries }
    ensures shared { workings.new.shared ≡ workings.old.shared }
    ensures interface { workings.new.interface ≡ workings.old.interface }
    ensures same { (remainders : Table Remainder) (shared : Table ℤ) → state_with workings.new.services remainders shared ≡ state_with workings.old.services remainders shared }
    ensures ok { OnOk result (has_memory workings.new spare.new ≡ true) }
    ensures err { OnErr result (has_memory workings.new spare.new ≡ has_memory workings.old spare.old) }
{
    if workings.entries.reserve(MOST_LINES).is_err() {
        return Err(NoMemory);
    }
    take_spare(alloc, spare)?;
    take_value(&mut workings.services)
}
