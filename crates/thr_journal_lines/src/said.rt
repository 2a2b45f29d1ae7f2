//! What lines say, by their first words.

ghost use Rattle.std.specs.Prelude.{◌≡◌, ◌≤◌, length, codes};
ghost use Rattle.std.specs.Option.{option_map};
ghost use Rattle.thr_text.specs.declared.object.Object.TheVariants as object;
ghost use Rattle.thr_journals.specs.Numbers.{short_in};
ghost use Rattle.thr_journals.specs.Fields.{both, alone, word_as, gift_in, exception, equals_reply, count, value, place, thread, name};
ghost use Rattle.thr_journals.specs.Lines.{said_by, said_with, said, dispatched, said_of, entry, deadlock, stop};
ghost use Rattle.thr_journal_lines.specs.Known.{entries_in};

use crate::calls::called;
use crate::fields::{count, exception, gift_in, name, place, thread, value, who_in};
use crate::names::Known;
use crate::number::short;
use crate::replies::equals_reply;
use crate::words::Words;
use thr_journals::texts::{call_in, word_in};
use thr_journals::word::LineWord;
use thr_text::object::Object;
use thr_values::call::CallWord;
use thr_values::event::Stop;
use thr_values::exception::Exc;
use thr_values::history::{Entry, What, Who};
use thr_values::number::{Line, NameId, Tid};
use thr_values::reply::Reply;

// ---- all of the words, by their shape

fn reply_alone(words: &mut Words) -> Option<Reply>
    ensures { result ≡ alone equals_reply words.old }
{
    let reply = equals_reply(words)?;
    if words.is_empty() { Some(reply) } else { None }
}

fn gift_alone(words: &mut Words, known: &[Known]) -> Option<Option<NameId>>
    requires { length known.now ≤ 65536 }
    ensures { result ≡ alone (word_as (gift_in (entries_in known.now))) words.old }
{
    let text = words.next()?;
    let gift = gift_in(known, text)?;
    if words.is_empty() { Some(gift) } else { None }
}

fn value_alone(words: &mut Words) -> Option<i64>
    ensures { result ≡ alone value words.old }
{
    let n = value(words)?;
    if words.is_empty() { Some(n) } else { None }
}

fn count_alone(words: &mut Words) -> Option<u64>
    ensures { result ≡ alone count words.old }
{
    let n = count(words)?;
    if words.is_empty() { Some(n) } else { None }
}

fn thread_alone(words: &mut Words) -> Option<Tid>
    ensures { result ≡ alone thread words.old }
{
    let t = thread(words)?;
    if words.is_empty() { Some(t) } else { None }
}

fn place_and_value(words: &mut Words) -> Option<(Line, i64)>
    ensures { result ≡ alone (both place value) words.old }
{
    let l = place(words)?;
    let n = value(words)?;
    if words.is_empty() { Some((l, n)) } else { None }
}

fn count_and_exception(words: &mut Words, known: &[Known]) -> Option<(u64, Exc)>
    requires { length known.now ≤ 65536 }
    ensures { result ≡ alone (both count (exception (entries_in known.now))) words.old }
{
    let n = count(words)?;
    let x = exception(words, known)?;
    if words.is_empty() { Some((n, x)) } else { None }
}

fn count_and_place(words: &mut Words) -> Option<(u64, Line)>
    ensures { result ≡ alone (both count place) words.old }
{
    let n = count(words)?;
    let l = place(words)?;
    if words.is_empty() { Some((n, l)) } else { None }
}

fn count_and_value(words: &mut Words) -> Option<(u64, i64)>
    ensures { result ≡ alone (both count value) words.old }
{
    let n = count(words)?;
    let v = value(words)?;
    if words.is_empty() { Some((n, v)) } else { None }
}

fn two_counts(words: &mut Words) -> Option<(u64, u64)>
    ensures { result ≡ alone (both count count) words.old }
{
    let s = count(words)?;
    let n = count(words)?;
    if words.is_empty() { Some((s, n)) } else { None }
}

fn two_counts_and_place(words: &mut Words) -> Option<(u64, (u64, Line))>
    ensures { result ≡ alone (both count (both count place)) words.old }
{
    let s = count(words)?;
    let n = count(words)?;
    let l = place(words)?;
    if words.is_empty() {
        Some((s, (n, l)))
    } else {
        None
    }
}

fn count_and_once(words: &mut Words, known: &[Known]) -> Option<(u64, NameId)>
    requires { length known.now ≤ 65536 }
    ensures { result ≡ alone (both count (name (entries_in known.now) object.Once)) words.old }
{
    let s = count(words)?;
    let o = name(words, known, Object::Once)?;
    if words.is_empty() { Some((s, o)) } else { None }
}

fn count_key_and_value(words: &mut Words, known: &[Known]) -> Option<(u64, (NameId, i64))>
    requires { length known.now ≤ 65536 }
    ensures { result ≡ alone (both count (both (name (entries_in known.now) object.Key) value)) words.old }
{
    let s = count(words)?;
    let k = name(words, known, Object::Key)?;
    let v = value(words)?;
    if words.is_empty() {
        Some((s, (k, v)))
    } else {
        None
    }
}

// ---- what a thread says

/// What a thread says behind this word.
#[tactic(auto, unfolding(thr_journals::specs::Lines::said_by))]
fn said_by(words: &mut Words, known: &[Known], word: LineWord) -> Option<What>
    requires { length known.now ≤ 65536 }
    ensures { result ≡ said_by (entries_in known.now) word words.old }
{
    match word {
        LineWord::Ret => reply_alone(words).map(|r| What::Ret(r)),
        LineWord::Gift => gift_alone(words, known).map(|m| What::Gift(m)),
        LineWord::Say => value_alone(words).map(|n| What::Say(n)),
        LineWord::Set => place_and_value(words).map(|x| What::Set(x.0, x.1)),
        LineWord::If => place_and_value(words).map(|x| What::If(x.0, x.1)),
        LineWord::While => place_and_value(words).map(|x| What::While(x.0, x.1)),
        LineWord::Call => place_and_value(words).map(|x| What::CallAt(x.0, x.1)),
        LineWord::Return => place_and_value(words).map(|x| What::Return(x.0, x.1)),
        LineWord::Raise => count_and_exception(words, known).map(|x| What::Raise(x.0, x.1)),
        LineWord::Reraise => count_and_exception(words, known).map(|x| What::Reraise(x.0, x.1)),
        LineWord::Deliver => count_and_place(words).map(|x| What::Deliver(x.0, x.1)),
        LineWord::Exit => count_and_value(words).map(|x| What::Exit(x.0, x.1)),
        LineWord::Try => count_and_place(words).map(|x| What::Try(x.0, x.1)),
        LineWord::Endtry => count_alone(words).map(|s| What::Endtry(s)),
        LineWord::Catch => two_counts_and_place(words).map(|x| What::Catch(x.0, x.1.0, x.1.1)),
        LineWord::Endcatch => count_alone(words).map(|s| What::Endcatch(s)),
        LineWord::Finally => two_counts(words).map(|x| What::Finally(x.0, x.1)),
        LineWord::Endfin => count_alone(words).map(|s| What::Endfin(s)),
        LineWord::Once => count_and_once(words, known).map(|x| What::Once(x.0, x.1)),
        LineWord::Done => count_alone(words).map(|s| What::Done(s)),
        LineWord::Undone => two_counts(words).map(|x| What::Undone(x.0, x.1)),
        LineWord::Destroy => {
            count_key_and_value(words, known).map(|x| What::Destroy(x.0, x.1.0, x.1.1))
        }
        LineWord::Enddes => count_alone(words).map(|s| What::Enddes(s)),
        LineWord::Lost => two_counts(words).map(|x| What::Lost(x.0, x.1)),
        LineWord::Bottom => count_and_value(words).map(|x| What::Bottom(x.0, x.1)),
        LineWord::Pause => if words.is_empty() {
            Some(What::Pause)
        } else {
            None
        },
        LineWord::End => value_alone(words).map(|v| What::End(v)),
    }
}

fn said_with(
    words: &mut Words,
    known: &[Known],
    word: Option<LineWord>,
    call: Option<CallWord>,
) -> Option<What>
    requires { length known.now ≤ 65536 }
    ensures { result ≡ said_with (entries_in known.now) word call words.old }
{
    match word {
        Some(word) => said_by(words, known, word),
        None => match call {
            Some(call) => called(words, known, call),
            None => None,
        },
    }
}

/// What a thread says.
fn said(words: &mut Words, known: &[Known]) -> Option<What>
    requires { length known.now ≤ 65536 }
    ensures { result ≡ said (entries_in known.now) words.old }
{
    let text = words.next()?;
    said_with(words, known, word_in(text), call_in(text))
}

/// A dispatch.
fn dispatched(words: &mut Words) -> Option<What>
    ensures { result ≡ dispatched words.old }
{
    let text = words.next()?;
    if text == b"run".as_slice() {
        thread_alone(words).map(|t| What::Run(t))
    } else {
        None
    }
}

/// What a line of a processor, of the clock or of a thread says.
fn said_of(words: &mut Words, known: &[Known], who: Who) -> Option<What>
    requires { length known.now ≤ 65536 }
    ensures { result ≡ said_of (entries_in known.now) who words.old }
{
    match who {
        Who::Proc(_) => dispatched(words),
        Who::Clock => value_alone(words).map(|n| What::Clock(n)),
        Who::Thread(_) => said(words, known),
    }
}

/// A line behind its number.
pub(crate) fn entry(words: &mut Words, known: &[Known]) -> Option<Entry>
    requires { length known.now ≤ 65536 }
    ensures { result ≡ entry (entries_in known.now) words.old }
{
    let text = words.next()?;
    let who = who_in(text)?;
    let what = said_of(words, known, who)?;
    Some(Entry { who, what })
}

// ---- the stop line

/// How many threads have not ended, and the least of them.
fn deadlock(words: &mut Words) -> Option<Stop>
    ensures { result ≡ deadlock words.old }
{
    let text = words.next()?;
    let count = short(text)?;
    let least = thread(words)?;
    if words.is_empty() {
        Some(Stop::Deadlock(count, least))
    } else {
        None
    }
}

/// Why the history ends, behind the word `stop`.
pub(crate) fn stop(words: &mut Words) -> Option<Stop>
    ensures { result ≡ stop words.old }
{
    let text = words.next()?;
    if text == b"deadlock".as_slice() {
        return deadlock(words);
    }
    if !words.is_empty() {
        return None;
    }
    if text == b"finished".as_slice() {
        Some(Stop::Finished)
    } else if text == b"limit".as_slice() {
        Some(Stop::Limit)
    } else if text == b"memory".as_slice() {
        Some(Stop::Memory)
    } else {
        None
    }
}
