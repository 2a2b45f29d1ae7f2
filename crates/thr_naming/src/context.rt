//! What stands above a line.

ghost use Rattle.std.specs.Prelude.{◌≡◌, ◌+◌, ◌<◌, ◌≤◌, ◌^◌, length, OnOk, IfOk, IfErr, Some};
ghost use Rattle.thr_text.specs.declared.fault.ParseFault.TheVariants as ParseFault;
ghost use Rattle.thr_text.specs.Tables.{declared_in};
ghost use Rattle.thr_text.specs.NameFaults.{locals_below, depth_below};
ghost use Rattle.thr_naming.specs.Judging.{start, after, is_interface, is_limit};

use crate::brought::{declared, own_name};
use crate::table::{Table, builtin_table, note_line};
use sqlite_items::Items;
use std::alloc::Global;
use thr_lexer::line::Line;
use thr_text::block::Shape;
use thr_text::fault::ParseFault;
use thr_text::head::Head;
use thr_values::name::Name;

/// What the lines above a line leave: the names that are declared, built-in ones with them, the parameter and the locals in
/// force, the number of open blocks, how many lines declare a name, and whether there is an `interface` and a `limit` line.
#[derive(Drop)]
pub struct Context {
    pub names: Table,
    pub locals: Items<Name>,
    pub depth: usize,
    pub count: usize,
    pub has_interface: bool,
    pub has_limit: bool,
}

/// Goes past a line with the parameter and the locals in force.
pub fn pass_locals(alloc: Global, locals: &mut Items<Name>, line: &Line) -> Result<(), ParseFault>
    ensures ok { OnOk result (locals.new ≡ locals_below locals.old line.now.1) }
    ensures fault { IfErr result (λ f. f ≡ ParseFault.NoMemory) }
{
    if matches!(line.head(), Head::Routine) {
        *locals = Items::new(alloc);
    }
    if let Some(name) = own_name(line) {
        locals.push(name.clone()?)?;
    }
    Ok(())
}

fn depth_below(depth: usize, shape: Shape) -> usize
    requires { depth + 1 < 2 ^ 64 }
    ensures depth { result ≡ depth_below depth shape }
    ensures one { result ≤ depth + 1 }
{
    match shape {
        Shape::OpensRoutine | Shape::OpensIf | Shape::OpensWhile | Shape::OpensTry => depth + 1,
        Shape::Closes | Shape::ClosesTry => depth.saturating_sub(1),
        _ => depth,
    }
}

fn is_interface(head: Head) -> bool
    ensures { result ≡ is_interface (Some head) }
{
    matches!(head, Head::Interface)
}

fn is_limit(head: Head) -> bool
    ensures { result ≡ is_limit (Some head) }
{
    matches!(head, Head::Limit)
}

/// How many names a line declares for the whole script.
pub fn declares(line: &Line) -> usize
    ensures count { result ≡ length (declared_in line.now.1) }
    ensures one { result ≤ 1 }
{
    match declared(line) {
        Some(_) => 1,
        None => 0,
    }
}

impl Context {
    pub fn new(alloc: Global) -> Result<Context, ParseFault>
        ensures ok { IfOk result (λ c. c ≡ start) }
        ensures fault { IfErr result (λ f. f ≡ ParseFault.NoMemory) }
    {
        Ok(Context {
            names: builtin_table(alloc)?,
            locals: Items::new(alloc),
            depth: 0,
            count: 0,
            has_interface: false,
            has_limit: false,
        })
    }

    /// Goes past a line.
    #[tactic(auto, unfolding(crate::specs::Judging::after))]
    pub fn pass(&mut self, alloc: Global, line: &Line) -> Result<(), ParseFault>
        requires depth { self.old.depth + 1 < 2 ^ 64 }
        requires count { self.old.count + 1 < 2 ^ 64 }
        ensures ok { OnOk result (self.new ≡ after self.old line.now.1) }
        ensures depth { OnOk result (self.new.depth ≤ self.old.depth + 1) }
        ensures count { OnOk result (self.new.count ≤ self.old.count + 1) }
        ensures fault { IfErr result (λ f. f ≡ ParseFault.NoMemory) }
    {
        note_line(&mut self.names, line)?;
        pass_locals(alloc, &mut self.locals, line)?;
        self.depth = depth_below(self.depth, line.head().shape());
        self.count += declares(line);
        self.has_interface |= is_interface(line.head());
        self.has_limit |= is_limit(line.head());
        Ok(())
    }
}
