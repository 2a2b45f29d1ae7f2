//! The quiet part of a turn.

ghost use Rattle.std.specs.Prelude.{◌≡◌, ◌≤◌, ◌+◌, vec_len, vec_capacity};
ghost use Rattle.thr_text.specs.Reading.{Formed};
ghost use Rattle.thr_frames.specs.Stacks.{remainder_of, IsStack, CanNumber};
ghost use Rattle.thr_turns.specs.Steps.{HasRun};

use crate::writing::write_all;
use thr_frames::stack::{Stack, local_run};
use thr_frames::stopped::Stopped;
use thr_lines::lines::Lines;
use thr_stack::notes::Notes;
use thr_trees::laws::named_routines_are_there;
use thr_values::history::Entry;
use thr_values::number::Tid;
use thr_values::scheduling::Mode;

/// Runs the quiet part of a turn and writes its lines. Answers what ends it.
pub fn run_quietly(
    entries: &mut Vec<Entry>,
    notes: &mut Notes,
    lines: &Lines,
    stack: &mut Stack,
    t: Tid,
    mode: Mode,
) -> Stopped
    requires formed { Formed lines.now }
    requires stack { IsStack lines.now stack.old }
    requires numbers { CanNumber (remainder_of lines.now stack.old) 200 }
    requires room { vec_len entries.old + 130 ≤ vec_capacity entries.old }
    ensures ran { HasRun lines.now mode t stack.old stack.new entries.old.items entries.new.items result }
    ensures numbers { CanNumber (remainder_of lines.now stack.new) 2 }
    ensures few { vec_len entries.new ≤ vec_len entries.old + 130 }
    ensures capacity { vec_capacity entries.new ≡ vec_capacity entries.old }
{
    named_routines_are_there();
    notes.clear();
    let stopped = local_run(lines, stack, &mode, notes);
    write_all(entries, t, notes.lines());
    stopped
}
