//! Lines of a history as a turn writes them.

ghost use Rattle.std.specs.Prelude.{◌≡◌, ◌<◌, ◌≤◌, ◌+◌, [], ◌∷◌, ◌++◌, length, map, vec_len, vec_capacity};
ghost use Rattle.thr_model.specs.Turns.{thread_line, gift_lines};

use thr_values::history::{Entry, What, Who};
use thr_values::number::{NameId, Tid};

/// Writes a line of a thread, for which there is room.
pub fn write(entries: &mut Vec<Entry>, t: Tid, what: What)
    requires { vec_len entries.old < vec_capacity entries.old }
    ensures items { entries.new.items ≡ entries.old.items ++ thread_line t what ∷ [] }
    ensures len { vec_len entries.new ≡ vec_len entries.old + 1 }
    ensures capacity { vec_capacity entries.new ≡ vec_capacity entries.old }
{
    entries.push_reserved(Entry {
        who: Who::Thread(t),
        what,
    });
}

/// Writes lines of a thread, for which there is room.
pub fn write_all(entries: &mut Vec<Entry>, t: Tid, lines: &[What])
    requires { vec_len entries.old + length lines.now ≤ vec_capacity entries.old }
    ensures items { entries.new.items ≡ entries.old.items ++ map (thread_line t) lines.now }
    ensures len { vec_len entries.new ≡ vec_len entries.old + length lines.now }
    ensures capacity { vec_capacity entries.new ≡ vec_capacity entries.old }
{
    for what in lines {
        write(entries, t, *what);
    }
}

/// Writes the lines of threads that were given a mutex, for which there is room.
pub fn write_gifts(entries: &mut Vec<Entry>, gifts: &[(Tid, Option<NameId>)])
    requires { vec_len entries.old + length gifts.now ≤ vec_capacity entries.old }
    ensures items { entries.new.items ≡ entries.old.items ++ gift_lines gifts.now }
    ensures len { vec_len entries.new ≡ vec_len entries.old + length gifts.now }
    ensures capacity { vec_capacity entries.new ≡ vec_capacity entries.old }
{
    for gift in gifts {
        write(entries, gift.0, What::Gift(gift.1));
    }
}
