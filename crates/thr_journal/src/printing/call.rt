//! The words of calls: their arguments and their replies.

#![tactic(auto, using(thr_grammar::proofs::SpacedLaws::line_laws))]

ghost use Rattle.std.specs.Prelude.{◌≡◌, ◌++◌, ◌∷◌, [], OnOk, map, slice_get, unwrap_or, codes};
ghost use Rattle.thr_values.specs.Words.{call_word};
ghost use Rattle.thr_text.specs.Journals.{arg_words, args_words, fixed_words, reply_word};
ghost use Rattle.thr_text.specs.Slots.{absent_word, choice_words};
ghost use Rattle.thr_grammar.specs.Printing.{spaced};

use crate::printing::word::{add_name, add_number, add_word};
use std::alloc::AllocError;
use thr_journals::texts::{absent_text, choice_texts, reply_text};
use thr_text::head::{Choice, Head};
use thr_text::object::Object;
use thr_values::call::{Arg, CallWord};
use thr_values::name::Name;
use thr_values::reply::Reply;

/// The word at a place, empty where there is none.
fn word_at<'a>(words: &[&'a [u8]], place: usize) -> &'a [u8]
    ensures { result.now ≡ unwrap_or (slice_get (map (λ w. w.now) words.now) place) [] }
{
    match words.get(place) {
        Some(word) => *word,
        None => b"",
    }
}

/// The word among these at a place, empty where there is none.
fn choice_at(choice: Choice, place: usize) -> &'static [u8]
    ensures { result.now ≡ unwrap_or (slice_get (choice_words choice) place) [] }
{
    word_at(choice_texts(choice), place)
}

/// The word that says that there is no object of this kind, at the first place.
fn absent_at(kind: Object, place: usize) -> &'static [u8]
    ensures { result.now ≡ unwrap_or (slice_get (absent_word kind ∷ []) place) [] }
{
    match place {
        0 => absent_text(kind),
        _ => b"",
    }
}

/// The fixed word at a place of those that may stand in a call (docs/journal.md, "Calls").
fn fixed_word(call: CallWord, place: usize) -> &'static [u8]
    ensures { result.now ≡ unwrap_or (slice_get (fixed_words call) place) [] }
{
    match call {
        CallWord::AttrSetsched => choice_at(Choice::Policy, place),
        CallWord::AttrSetinheritsched => choice_at(Choice::Inherit, place),
        CallWord::Create => absent_at(Object::Attr, place),
        CallWord::Setcancel => choice_at(Choice::Cancel, place),
        CallWord::Setasynccancel => choice_at(Choice::Cancel, place),
        CallWord::Setscheduler => choice_at(Choice::Policy, place),
        CallWord::MutexattrSetkindNp => choice_at(Choice::MutexKind, place),
        CallWord::MutexInit => absent_at(Object::Mutexattr, place),
        CallWord::Keycreate => absent_at(Object::Routine, place),
        _ => b"",
    }
}

/// Adds an argument of a call, if there is one.
fn add_argument(
    out: &mut Vec<u8>,
    names: &[Name],
    call: CallWord,
    argument: Arg,
) -> Result<(), AllocError>
    ensures { OnOk result (out.new.items ≡ out.old.items ++ spaced (arg_words names.now call argument)) }
{
    match argument {
        Arg::Nothing => Ok(()),
        Arg::Name(name) => add_name(out, names, name),
        Arg::Num(n) => add_number(out, n),
        Arg::Word(place) => add_word(out, fixed_word(call, usize::from(place))),
    }
}

/// Adds the arguments of a call.
fn add_arguments(
    out: &mut Vec<u8>,
    names: &[Name],
    call: CallWord,
    arguments: &[Arg],
) -> Result<(), AllocError>
    ensures { OnOk result (out.new.items ≡ out.old.items ++ spaced (args_words names.now call arguments.now)) }
{
    for argument in arguments {
        add_argument(out, names, call, *argument)?;
    }
    Ok(())
}

/// Adds a reply and the `=` before it.
pub(crate) fn add_reply(out: &mut Vec<u8>, reply: Reply) -> Result<(), AllocError>
    ensures { OnOk result (out.new.items ≡ out.old.items ++ spaced (codes "=" ∷ reply_word reply ∷ [])) }
{
    add_word(out, b"=")?;
    match reply {
        Reply::Value(n) => add_number(out, n),
        _ => add_word(out, reply_text(reply)),
    }
}

/// Adds a call with its arguments and its reply.
#[tactic(auto, using(thr_grammar::proofs::SpacedLaws::line_laws), unfolding(thr_text::specs::Heads::head_word))]
pub(crate) fn add_call(
    out: &mut Vec<u8>,
    names: &[Name],
    call: CallWord,
    arguments: &[Arg],
    reply: Reply,
) -> Result<(), AllocError>
    ensures { OnOk result (out.new.items ≡ out.old.items ++ spaced (call_word call ∷ (args_words names.now call arguments.now ++ codes "=" ∷ reply_word reply ∷ []))) }
{
    add_word(out, Head::Dce(call).text())?;
    add_arguments(out, names, call, arguments)?;
    add_reply(out, reply)
}
