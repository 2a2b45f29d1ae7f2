//! What a book is opened with.

ghost use Rattle.std.specs.Prelude.{◌≡◌, ◌≤◌, ◌<◌, ◌^◌, ℤ, codes, length, pos, position, IfOk};
ghost use Rattle.std.specs.Str.{bytes_eq};
ghost use Rattle.thr_remainder.specs.Remainders.{Remainder};
ghost use Rattle.thr_text.specs.Reading.{Formed};
ghost use Rattle.thr_parts.specs.Tables.{Table};
ghost use Rattle.thr_parts.specs.Rows.{thread};
ghost use Rattle.thr_model.specs.Histories.{limit_in};
ghost use Rattle.thr_model.specs.States.{main_of, declared_values};
ghost use Rattle.thr_shared.specs.Shared.{FitTables};
ghost use Rattle.thr_pipes.specs.Opening as pipes;
ghost use Rattle.thr_services.specs.Views.{state_with, opened};
ghost use Rattle.thr_frames.specs.Stacks.{IsRoutine};
ghost use Rattle.thr_syntax.specs.declared.tree.Script.{Script};
ghost use Rattle.thr_machine.specs.Books.{main_in, most_size, IsSpare};
ghost use Rattle.thr_machine.specs.Stepping.{HasBegun, HasFirst, OpensOn};

use std::alloc::Global;
use thr_frames::stack::Stack;
use thr_lines::lines::Lines;
use thr_services::{Gifts, Services};
use thr_shared::SharedVariables;
use thr_stack::notes::Notes;
use thr_stacks::Stacks;
use thr_syntax::tree::{Item, Script};
use thr_trees::laws::{lines_and_names_are_few, names_are_of_their_kinds, scripts_have_a_main};
use thr_turns::interface_of;
use thr_turns::workings::Workings;
use thr_values::name::Name;
use thr_values::number::{NameId, NoMemory, Tid};

/// The limit on lines where the script sets none.
const LIMIT: u64 = 100_000;

/// For how many frames a stack has memory.
const MOST_SIZE: u32 = 1024;

/// How many frames fit the stack of the first thread.
const FRAMES: u32 = 256;

/// The limit on lines that these declarations set.
pub fn limit_of(items: &[Item]) -> u64
    ensures { result ≡ limit_in items.now }
{
    for item in items {
        if let Item::Limit(limit) = item {
            return u64::from(*limit);
        }
    }
    LIMIT
}

/// The place of the name `main`.
fn place_of_main(names: &[Name]) -> Option<usize>
    ensures { result ≡ position (λ name. bytes_eq name (codes "main")) names.now }
{
    names
        .iter()
        .position(|name| name.as_slice() == b"main".as_slice())
}

/// The name `main`, which each script that keeps the rules has.
fn main_of(names: &[Name]) -> NameId
    requires { length names.now ≤ 2 ^ 16 }
    ensures { result ≡ main_in names.now }
{
    match place_of_main(names) {
        Some(place) => NameId(place as u16),
        None => NameId(0),
    }
}

/// The names of shared variables and of pipes fit tables by names.
pub fn names_fit()
    ensures shared { (s : Script) → Formed s → FitTables s.items }
    ensures pipes { (s : Script) → Formed s → pipes.FitTables s.items }
{
    names_are_of_their_kinds();
    lines_and_names_are_few();
}

/// The shared variables of a script, with the values that it declares.
fn first_values(alloc: Global, script: &Script) -> Result<SharedVariables, NoMemory>
    requires { Formed script.now }
    ensures { IfOk result (λ shared. shared ≡ declared_values script.now.items) }
{
    names_fit();
    SharedVariables::new(alloc, script.items.as_slice())
}

/// The service as a machine opens with it.
fn first_services(alloc: Global, script: &Script) -> Result<Services, NoMemory>
    requires { Formed script.now }
    ensures { IfOk result (λ v. (remainders : Table Remainder) (shared : Table ℤ)
        → state_with v remainders shared ≡ opened script.now.items remainders shared) }
{
    names_fit();
    Services::new(alloc, script.items.as_slice())
}

/// What the turns of a machine that opens work on.
pub fn first_workings(alloc: Global, script: &Script) -> Result<Workings, NoMemory>
    requires formed { Formed script.now }
    ensures { IfOk result (OpensOn script.now) }
{
    let shared = first_values(alloc, script)?;
    let services = first_services(alloc, script)?;
    let notes = Notes::new(alloc)?;
    let gifts = Gifts::new(alloc)?;
    let interface = interface_of(script);
    Ok(Workings {
        services,
        shared,
        notes,
        gifts,
        entries: Vec::new(alloc),
        interface,
    })
}

/// A stack that no thread has, with memory for the most frames.
pub fn spare_stack(alloc: Global) -> Result<Stack, NoMemory>
    ensures { IfOk result IsSpare }
{
    Stack::new(alloc, MOST_SIZE)
}

/// The stack is that of this thread from now on, which has so many frames and begins at this routine.
pub fn begin_on(stack: &mut Stack, lines: &Lines, u: Tid, size: u32, routine: NameId, arg: i64)
    requires routine { IsRoutine lines.now routine }
    requires spare { IsSpare stack.old }
    requires some { 0 < size }
    requires few { size ≤ most_size }
    ensures { HasBegun lines.now u size routine arg stack.new }
{
    stack.set_size(size);
    stack.set_me(u);
    stack.start(lines, routine, arg);
}

/// The stack of thread 1, which begins at the routine `main` with argument 0.
fn first_stack(alloc: Global, lines: &Lines) -> Result<Stack, NoMemory>
    requires { Formed lines.now }
    ensures { IfOk result (HasBegun lines.now (thread 1) 256 (main_of lines.now) (pos 0)) }
{
    scripts_have_a_main();
    lines_and_names_are_few();
    let main = main_of(lines.script().names.as_slice());
    let mut stack = spare_stack(alloc)?;
    begin_on(&mut stack, lines, Tid(1), FRAMES, main, 0);
    Ok(stack)
}

/// The table of stacks with that of thread 1 alone.
pub fn first_stacks(alloc: Global, lines: &Lines) -> Result<Stacks, NoMemory>
    requires formed { Formed lines.now }
    ensures { IfOk result (HasFirst lines.now) }
{
    let stack = first_stack(alloc, lines)?;
    let mut stacks = Stacks::new(alloc)?;
    stacks.put(Tid(1), stack);
    Ok(stacks)
}
