//! Lines of a history as they are written.

ghost use Rattle.std.specs.Prelude.{◌≡◌, ◌<◌, ◌≤◌, ◌+◌, [], ◌∷◌, ◌++◌, length, vec_len, vec_capacity};
ghost use Rattle.thr_model.specs.Turns.{gift_lines};

use thr_values::history::{Entry, What, Who};
use thr_values::number::{NameId, Tid};

/// Writes a line, for which there is room.
pub fn write(entries: &mut Vec<Entry>, who: Who, what: What)
    requires { vec_len entries.old < vec_capacity entries.old }
    ensures items { entries.new.items ≡ entries.old.items ++ record { who = who; what = what } ∷ [] }
    ensures len { vec_len entries.new ≡ vec_len entries.old + 1 }
    ensures capacity { vec_capacity entries.new ≡ vec_capacity entries.old }
{
    entries.push_reserved(Entry { who, what });
}

/// Writes the lines of threads that were given a mutex, for which there is room.
pub fn write_gifts(entries: &mut Vec<Entry>, gifts: &[(Tid, Option<NameId>)])
    requires { vec_len entries.old + length gifts.now ≤ vec_capacity entries.old }
    ensures items { entries.new.items ≡ entries.old.items ++ gift_lines gifts.now }
    ensures len { vec_len entries.new ≡ vec_len entries.old + length gifts.now }
    ensures capacity { vec_capacity entries.new ≡ vec_capacity entries.old }
{
    for gift in gifts {
        let (t, m) = *gift;
        write(entries, Who::Thread(t), What::Gift(m));
    }
}
