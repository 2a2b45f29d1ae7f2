//! The places of a line, each read from the words that are left.

ghost use Rattle.std.specs.Prelude.{◌≡◌, ◌≤◌, length};
ghost use Rattle.std.specs.Option.{option_map};
ghost use Rattle.thr_journals.specs.Fields.{line_in, lettered, thread_in, numbered_who, who_in, gift_in, count, value, place, thread, name, exception};
ghost use Rattle.thr_journal_lines.specs.Known.{entries_in};

use crate::names::{Known, name_in};
use crate::number::{long, short, value_of};
use crate::words::Words;
use thr_text::object::Object;
use thr_values::exception::Exc;
use thr_values::history::Who;
use thr_values::number::{Line, NameId, Tid};

/// The number of a line of the script.
fn line_in(text: &[u8]) -> Option<Line>
    ensures { result ≡ line_in text.now }
{
    match short(text) {
        Some(n) => Some(Line(n)),
        None => None,
    }
}

/// A number behind this letter.
fn lettered(letter: u8, text: &[u8]) -> Option<u32>
    ensures { result ≡ lettered letter text.now }
{
    match text {
        [] => None,
        [first, rest @ ..] => { if *first == letter { short(rest) } else { None } }
    }
}

/// A thread.
fn thread_in(text: &[u8]) -> Option<Tid>
    ensures { result ≡ thread_in text.now }
{
    match lettered(b't', text) {
        Some(n) => Some(Tid(n)),
        None => None,
    }
}

fn numbered_who(text: &[u8]) -> Option<Who>
    ensures { result ≡ numbered_who text.now }
{
    match lettered(b'p', text) {
        Some(p) => Some(Who::Proc(p)),
        None => match thread_in(text) {
            Some(t) => Some(Who::Thread(t)),
            None => None,
        },
    }
}

/// Whose line it is.
pub(crate) fn who_in(text: &[u8]) -> Option<Who>
    ensures { result ≡ who_in text.now }
{
    if text == b"clock".as_slice() {
        Some(Who::Clock)
    } else {
        numbered_who(text)
    }
}

/// The number of a scope or of an unwinding.
pub(crate) fn count(words: &mut Words) -> Option<u64>
    ensures { count words.old ≡ option_map (λ n. (n, words.new)) result }
{
    let text = words.next()?;
    long(text)
}

/// A value.
pub(crate) fn value(words: &mut Words) -> Option<i64>
    ensures { value words.old ≡ option_map (λ n. (n, words.new)) result }
{
    let text = words.next()?;
    value_of(text)
}

/// A line of the script.
pub(crate) fn place(words: &mut Words) -> Option<Line>
    ensures { place words.old ≡ option_map (λ l. (l, words.new)) result }
{
    let text = words.next()?;
    line_in(text)
}

/// A thread.
pub(crate) fn thread(words: &mut Words) -> Option<Tid>
    ensures { thread words.old ≡ option_map (λ t. (t, words.new)) result }
{
    let text = words.next()?;
    thread_in(text)
}

/// A name of this kind.
pub(crate) fn name(words: &mut Words, known: &[Known], kind: Object) -> Option<NameId>
    requires { length known.now ≤ 65536 }
    ensures { name (entries_in known.now) kind words.old ≡ option_map (λ n. (n, words.new)) result }
{
    let text = words.next()?;
    name_in(known, kind, text)
}

/// The mutex that was given, or the global lock.
pub(crate) fn gift_in(known: &[Known], text: &[u8]) -> Option<Option<NameId>>
    requires { length known.now ≤ 65536 }
    ensures { result ≡ gift_in (entries_in known.now) text.now }
{
    if text == b"global".as_slice() {
        return Some(None);
    }
    match name_in(known, Object::Mutex, text) {
        Some(name) => Some(Some(name)),
        None => None,
    }
}

/// An exception.
pub(crate) fn exception(words: &mut Words, known: &[Known]) -> Option<Exc>
    requires { length known.now ≤ 65536 }
    ensures { exception (entries_in known.now) words.old ≡ option_map (λ x. (x, words.new)) result }
{
    let text = words.next()?;
    if text == b"status".as_slice() {
        let n = value(words)?;
        Some(Exc::Status(n))
    } else {
        let name = name_in(known, Object::Exception, text)?;
        Some(Exc::Address(name))
    }
}
