//! Routines that run in a scope of their own.

ghost use Rattle.std.specs.Prelude.{◌≡◌, ◌+◌, ◌<◌, ◌≤◌, ◌^◌, length};
ghost use Rattle.thr_remainder.specs.Starts.{begins_once, begins_destructor};
ghost use Rattle.thr_stack.specs.Begins.{IsScope, Begins};
ghost use Rattle.thr_stack.specs.Standing.{IsGood, IsRoutine, Makes, remainder_of, setting_of};

use crate::context::Context;
use crate::frame::{Frame, Kind};
use crate::notes::Notes;
use crate::valued::enter_routine;
use thr_lines::lines::Lines;
use thr_values::history::What;
use thr_values::number::NameId;

/// A scope of this kind is opened, in which a routine begins with this argument. The end of the routine closes it.
fn begin(
    lines: &Lines,
    context: &mut Context,
    notes: &mut Notes,
    kind: Kind,
    routine: NameId,
    n: i64,
    what: What,
)
    requires good { IsGood lines.now context.old }
    requires kind { IsScope kind }
    requires routine { IsRoutine lines.now routine }
    requires frames { length context.old.frames.items + 2 ≤ context.old.frames.size }
    requires scopes { context.old.scopes + 1 < 2 ^ 64 }
    requires room { length notes.old < 136 }
    ensures { Begins lines.now kind routine n what context.old context.new notes.old notes.new }
{
    let close = match lines.start(routine) {
        Some(start) => start.close.0,
        None => unreachable!(),
    };
    context.frames.push(Frame {
        kind,
        back: context.line,
    });
    context.scopes += 1;
    enter_routine(lines, context, routine, None, close, n);
    notes.push(what);
}

/// The routine of a once block begins.
pub fn begin_once(
    lines: &Lines,
    context: &mut Context,
    notes: &mut Notes,
    block: NameId,
    routine: NameId,
)
    requires good { IsGood lines.now context.old }
    requires routine { IsRoutine lines.now routine }
    requires frames { length context.old.frames.items + 2 ≤ context.old.frames.size }
    requires scopes { context.old.scopes + 1 < 2 ^ 64 }
    requires room { length notes.old < 136 }
    ensures { Makes lines.now (begins_once (setting_of lines.now context.old) block routine (remainder_of lines.now context.old)) context.old context.new notes.old notes.new }
{
    let scope = context.scopes + 1;
    let kind = Kind::Once {
        scope,
        block,
        routine,
    };
    begin(
        lines,
        context,
        notes,
        kind,
        routine,
        0,
        What::Once(scope, block),
    );
}

/// The destructor of a key begins, with the thread's value.
pub fn begin_destructor(
    lines: &Lines,
    context: &mut Context,
    notes: &mut Notes,
    key: NameId,
    routine: NameId,
    n: i64,
)
    requires good { IsGood lines.now context.old }
    requires routine { IsRoutine lines.now routine }
    requires frames { length context.old.frames.items + 2 ≤ context.old.frames.size }
    requires scopes { context.old.scopes + 1 < 2 ^ 64 }
    requires room { length notes.old < 136 }
    ensures { Makes lines.now (begins_destructor (setting_of lines.now context.old) key routine n (remainder_of lines.now context.old)) context.old context.new notes.old notes.new }
{
    let scope = context.scopes + 1;
    let kind = Kind::Barrier {
        scope,
        key,
        routine,
    };
    begin(
        lines,
        context,
        notes,
        kind,
        routine,
        n,
        What::Destroy(scope, key, n),
    );
}
