//! What lines say, by the shape of their words.

#![tactic(auto, using(thr_grammar::proofs::SpacedLaws::line_laws))]

ghost use Rattle.std.specs.Prelude.{◌≡◌, ◌++◌, ◌∷◌, [], OnOk};
ghost use Rattle.std.specs.Fmt.{decimal, signed_decimal};
ghost use Rattle.thr_text.specs.Journals.{name_word, thread_word, gift_word, exception_words, at_line, what_words, reply_word};
ghost use Rattle.thr_grammar.specs.Printing.{spaced};
ghost use Rattle.thr_journals.specs.Lines.{line_word};
ghost use Rattle.std.specs.Prelude.{codes};

use crate::printing::call::{add_call, add_reply};
use crate::printing::word::{add_count, add_name, add_number, add_place, add_thread, add_word};
use std::alloc::AllocError;
use thr_journals::texts::line_text;
use thr_journals::word::LineWord;
use thr_values::exception::Exc;
use thr_values::history::What;
use thr_values::name::Name;
use thr_values::number::{Line, NameId, Tid};
use thr_values::reply::Reply;

/// Adds a word alone.
fn add_bare(out: &mut Vec<u8>, word: LineWord) -> Result<(), AllocError>
    ensures { OnOk result (out.new.items ≡ out.old.items ++ spaced (line_word word ∷ [])) }
{
    add_word(out, line_text(word))
}

/// Adds a word and a value.
fn add_with_number(out: &mut Vec<u8>, word: LineWord, n: i64) -> Result<(), AllocError>
    ensures { OnOk result (out.new.items ≡ out.old.items ++ spaced (line_word word ∷ signed_decimal n ∷ [])) }
{
    add_bare(out, word)?;
    add_number(out, n)
}

/// Adds a word, a line of the script and a value.
fn add_at_line(out: &mut Vec<u8>, word: LineWord, line: Line, n: i64) -> Result<(), AllocError>
    ensures { OnOk result (out.new.items ≡ out.old.items ++ spaced (at_line (line_word word) line n)) }
{
    add_bare(out, word)?;
    add_place(out, line)?;
    add_number(out, n)
}

/// Adds a word and the number of a scope or an unwinding.
fn add_with_count(out: &mut Vec<u8>, word: LineWord, n: u64) -> Result<(), AllocError>
    ensures { OnOk result (out.new.items ≡ out.old.items ++ spaced (line_word word ∷ decimal n ∷ [])) }
{
    add_bare(out, word)?;
    add_count(out, n)
}

/// Adds a word, the number of a scope and that of an unwinding.
fn add_with_two_counts(out: &mut Vec<u8>, word: LineWord, s: u64, n: u64) -> Result<(), AllocError>
    ensures { OnOk result (out.new.items ≡ out.old.items ++ spaced (line_word word ∷ decimal s ∷ decimal n ∷ [])) }
{
    add_with_count(out, word, s)?;
    add_count(out, n)
}

/// Adds a word, the number of a scope or an unwinding and a line of the script.
fn add_with_count_at(
    out: &mut Vec<u8>,
    word: LineWord,
    n: u64,
    line: Line,
) -> Result<(), AllocError>
    ensures { OnOk result (out.new.items ≡ out.old.items ++ spaced (line_word word ∷ decimal n ∷ decimal line.0 ∷ [])) }
{
    add_with_count(out, word, n)?;
    add_place(out, line)
}

/// Adds a word, the number of an unwinding and a value.
fn add_with_count_and_number(
    out: &mut Vec<u8>,
    word: LineWord,
    n: u64,
    value: i64,
) -> Result<(), AllocError>
    ensures { OnOk result (out.new.items ≡ out.old.items ++ spaced (line_word word ∷ decimal n ∷ signed_decimal value ∷ [])) }
{
    add_with_count(out, word, n)?;
    add_number(out, value)
}

/// Adds a word, the number of a scope and a name.
fn add_with_count_and_name(
    out: &mut Vec<u8>,
    names: &[Name],
    word: LineWord,
    s: u64,
    name: NameId,
) -> Result<(), AllocError>
    ensures { OnOk result (out.new.items ≡ out.old.items ++ spaced (line_word word ∷ decimal s ∷ name_word names.now name ∷ [])) }
{
    add_with_count(out, word, s)?;
    add_name(out, names, name)
}

/// Adds an exception.
fn add_exception(out: &mut Vec<u8>, names: &[Name], exception: Exc) -> Result<(), AllocError>
    ensures { OnOk result (out.new.items ≡ out.old.items ++ spaced (exception_words names.now exception)) }
{
    match exception {
        Exc::Address(name) => add_name(out, names, name),
        Exc::Status(n) => {
            add_word(out, b"status")?;
            add_number(out, n)
        }
    }
}

/// Adds a word, the number of an unwinding and its exception.
fn add_with_exception(
    out: &mut Vec<u8>,
    names: &[Name],
    word: LineWord,
    n: u64,
    exception: Exc,
) -> Result<(), AllocError>
    ensures { OnOk result (out.new.items ≡ out.old.items ++ spaced (line_word word ∷ decimal n ∷ exception_words names.now exception)) }
{
    add_with_count(out, word, n)?;
    add_exception(out, names, exception)
}

/// Adds a dispatch.
fn add_run(out: &mut Vec<u8>, thread: Tid) -> Result<(), AllocError>
    ensures { OnOk result (out.new.items ≡ out.old.items ++ spaced (codes "run" ∷ thread_word thread ∷ [])) }
{
    add_word(out, b"run")?;
    add_thread(out, thread)
}

/// Adds a return with its reply.
fn add_ret(out: &mut Vec<u8>, reply: Reply) -> Result<(), AllocError>
    ensures { OnOk result (out.new.items ≡ out.old.items ++ spaced (line_word LineWord.Ret ∷ codes "=" ∷ reply_word reply ∷ [])) }
{
    add_bare(out, LineWord::Ret)?;
    add_reply(out, reply)
}

/// Adds a gift: the mutex that was given, or the global lock.
fn add_gift(out: &mut Vec<u8>, names: &[Name], mutex: Option<NameId>) -> Result<(), AllocError>
    ensures { OnOk result (out.new.items ≡ out.old.items ++ spaced (line_word LineWord.Gift ∷ gift_word names.now mutex ∷ [])) }
{
    add_bare(out, LineWord::Gift)?;
    match mutex {
        None => add_word(out, b"global"),
        Some(name) => add_name(out, names, name),
    }
}

/// Adds a catch: its scope, its unwinding and the line of its clause.
fn add_catch(out: &mut Vec<u8>, s: u64, n: u64, line: Line) -> Result<(), AllocError>
    ensures { OnOk result (out.new.items ≡ out.old.items ++ spaced (line_word LineWord.Catch ∷ decimal s ∷ decimal n ∷ decimal line.0 ∷ [])) }
{
    add_with_two_counts(out, LineWord::Catch, s, n)?;
    add_place(out, line)
}

/// Adds a destructor: its scope, its key and the value.
fn add_destroy(
    out: &mut Vec<u8>,
    names: &[Name],
    s: u64,
    key: NameId,
    value: i64,
) -> Result<(), AllocError>
    ensures { OnOk result (out.new.items ≡ out.old.items ++ spaced (line_word LineWord.Destroy ∷ decimal s ∷ name_word names.now key ∷ signed_decimal value ∷ [])) }
{
    add_with_count_and_name(out, names, LineWord::Destroy, s, key)?;
    add_number(out, value)
}

/// Adds what a line says.
#[tactic(auto, unfolding(thr_journals::specs::Lines::line_word))]
pub(crate) fn add_what(out: &mut Vec<u8>, names: &[Name], what: &What) -> Result<(), AllocError>
    ensures { OnOk result (out.new.items ≡ out.old.items ++ spaced (what_words names.now what.now)) }
{
    match what {
        What::Run(t) => add_run(out, *t),
        What::Clock(n) => add_number(out, *n),
        What::Call { call, args, reply } => add_call(out, names, *call, args, *reply),
        What::Ret(reply) => add_ret(out, *reply),
        What::Gift(mutex) => add_gift(out, names, *mutex),
        What::Say(n) => add_with_number(out, LineWord::Say, *n),
        What::Set(l, n) => add_at_line(out, LineWord::Set, *l, *n),
        What::If(l, n) => add_at_line(out, LineWord::If, *l, *n),
        What::While(l, n) => add_at_line(out, LineWord::While, *l, *n),
        What::CallAt(l, n) => add_at_line(out, LineWord::Call, *l, *n),
        What::Return(l, n) => add_at_line(out, LineWord::Return, *l, *n),
        What::Raise(n, x) => add_with_exception(out, names, LineWord::Raise, *n, *x),
        What::Reraise(n, x) => add_with_exception(out, names, LineWord::Reraise, *n, *x),
        What::Deliver(n, l) => add_with_count_at(out, LineWord::Deliver, *n, *l),
        What::Exit(n, v) => add_with_count_and_number(out, LineWord::Exit, *n, *v),
        What::Try(s, l) => add_with_count_at(out, LineWord::Try, *s, *l),
        What::Endtry(s) => add_with_count(out, LineWord::Endtry, *s),
        What::Catch(s, n, l) => add_catch(out, *s, *n, *l),
        What::Endcatch(s) => add_with_count(out, LineWord::Endcatch, *s),
        What::Finally(s, n) => add_with_two_counts(out, LineWord::Finally, *s, *n),
        What::Endfin(s) => add_with_count(out, LineWord::Endfin, *s),
        What::Once(s, o) => add_with_count_and_name(out, names, LineWord::Once, *s, *o),
        What::Done(s) => add_with_count(out, LineWord::Done, *s),
        What::Undone(s, n) => add_with_two_counts(out, LineWord::Undone, *s, *n),
        What::Destroy(s, k, v) => add_destroy(out, names, *s, *k, *v),
        What::Enddes(s) => add_with_count(out, LineWord::Enddes, *s),
        What::Lost(s, n) => add_with_two_counts(out, LineWord::Lost, *s, *n),
        What::Bottom(n, v) => add_with_count_and_number(out, LineWord::Bottom, *n, *v),
        What::Pause => add_bare(out, LineWord::Pause),
        What::End(v) => add_with_number(out, LineWord::End, *v),
    }
}
