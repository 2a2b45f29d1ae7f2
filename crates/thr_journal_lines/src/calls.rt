//! Calls: their arguments and their replies.

ghost use Rattle.std.specs.Prelude.{◌≡◌, ◌≤◌, ◌<◌, length, drop, map, position, IfSome};
ghost use Rattle.std.specs.List.{filter};
ghost use Rattle.std.specs.Option.{option_map};
ghost use Rattle.std.specs.Str.{bytes_eq};
ghost use Rattle.thr_journals.specs.Fields.{word_as, name_in};
ghost use Rattle.thr_journals.specs.Lines.{fixed_in, argument_in, arguments, call_places, takes_argument, called};
ghost use Rattle.thr_journal_lines.specs.Arguments.{filled_up, first_place, in_front};
ghost use Rattle.thr_journal_lines.specs.Known.{entries_in};

use crate::names::{Known, name_in};
use crate::number::value_of;
use crate::replies::equals_reply;
use crate::words::Words;
use thr_journals::texts::{absent_text, choice_texts};
use thr_text::head::{Head, Slot};
use thr_text::object::Object;
use thr_values::call::{Arg, CallWord};
use thr_values::history::What;

fn is_text(text: &[u8], word: &[u8]) -> bool
    ensures { result ≡ bytes_eq text.now word.now }
{
    text == word
}

fn place_among(words: &[&[u8]], text: &[u8]) -> Option<usize>
    ensures place { result ≡ position (λ w. bytes_eq text.now w.now) words.now }
    ensures within { IfSome result (λ p. p < length words.now) }
{
    words.iter().position(|w| is_text(text, *w))
}

fn place_of(words: &[&[u8]], text: &[u8]) -> Option<usize>
    ensures place { result ≡ position (bytes_eq text.now) (map (λ w. w.now) words.now) }
    ensures within { IfSome result (λ p. p < length words.now) }
{
    place_among(words, text)
}

/// A fixed word by its place among these.
fn fixed_in(words: &[&[u8]], text: &[u8]) -> Option<Arg>
    requires { length words.now ≤ 256 }
    ensures { result ≡ fixed_in (map (λ w. w.now) words.now) text.now }
{
    let place = place_of(words, text)?;
    Some(Arg::Word(place as u8))
}

fn named(known: &[Known], kind: Object, text: &[u8]) -> Option<Arg>
    requires { length known.now ≤ 65536 }
    ensures { result ≡ option_map Arg.Name (name_in (entries_in known.now) kind text.now) }
{
    name_in(known, kind, text).map(|name| Arg::Name(name))
}

/// An argument as its place asks for it.
fn argument_in(known: &[Known], place: Slot, text: &[u8]) -> Option<Arg>
    requires { length known.now ≤ 65536 }
    ensures { result ≡ argument_in (entries_in known.now) place text.now }
{
    match place {
        Slot::Object(kind) => named(known, kind, text),
        Slot::ObjectOr(kind) => {
            if text == absent_text(kind) {
                Some(Arg::Word(0))
            } else {
                named(known, kind, text)
            }
        }
        Slot::Fixed(choice) => fixed_in(choice_texts(choice), text),
        Slot::Expression => value_of(text).map(|n| Arg::Num(n)),
        _ => None,
    }
}

fn takes_argument(place: Slot) -> bool
    ensures { result ≡ takes_argument place }
{
    !matches!(place, Slot::Variable)
}

/// The first of these places.
fn first_place(places: &[Slot]) -> Option<Slot>
    ensures { result ≡ first_place places.now }
{
    match places {
        [] => None,
        [place, ..] => Some(*place),
    }
}

/// The places behind the first.
fn other_places(places: &[Slot]) -> &[Slot]
    ensures { result.now ≡ drop 1 places.now }
{
    if places.is_empty() {
        places
    } else {
        &places[1..]
    }
}

/// The argument at this place.
fn argument(words: &mut Words, known: &[Known], place: Slot) -> Option<Arg>
    requires { length known.now ≤ 65536 }
    ensures { word_as (argument_in (entries_in known.now) place) words.old ≡ option_map (λ a. (a, words.new)) result }
{
    let text = words.next()?;
    argument_in(known, place, text)
}

/// An argument and then three others.
fn in_front(first: Arg, others: [Arg; 4]) -> [Arg; 4]
    ensures { result ≡ in_front first others }
{
    [first, others[0], others[1], others[2]]
}

/// The arguments at those of these places that take one, and nothing behind them.
#[tactic(auto, using(crate::proofs::ArgumentLaws::no_place, crate::proofs::ArgumentLaws::passed_over, crate::proofs::ArgumentLaws::fewer, crate::proofs::ArgumentLaws::no_argument, crate::proofs::ArgumentLaws::no_others, crate::proofs::ArgumentLaws::one_argument))]
fn arguments(words: &mut Words, known: &[Known], places: &[Slot]) -> Option<[Arg; 4]>
    requires names { length known.now ≤ 65536 }
    requires places { length places.now ≤ 4 }
    ensures { filled_up (arguments (entries_in known.now) (filter takes_argument places.now) words.old) ≡ option_map (λ a. (a, words.new)) result }
{
    let Some(place) = first_place(places) else {
        return Some([Arg::Nothing; 4]);
    };
    let rest = other_places(places);
    if !takes_argument(place) {
        return arguments(words, known, rest);
    }
    let first = argument(words, known, place)?;
    let others = arguments(words, known, rest)?;
    Some(in_front(first, others))
}

/// The arguments of a call.
#[tactic(auto, using(crate::proofs::CallSlots::slots_of_call, crate::proofs::CallSlots::few_slots))]
fn call_arguments(words: &mut Words, known: &[Known], call: CallWord) -> Option<[Arg; 4]>
    requires { length known.now ≤ 65536 }
    ensures { filled_up (arguments (entries_in known.now) (call_places call) words.old) ≡ option_map (λ a. (a, words.new)) result }
{
    arguments(words, known, Head::Dce(call).slots())
}

/// What a call's line says behind the call's word.
pub(crate) fn called(words: &mut Words, known: &[Known], call: CallWord) -> Option<What>
    requires { length known.now ≤ 65536 }
    ensures { result ≡ called (entries_in known.now) call words.old }
{
    let args = call_arguments(words, known, call)?;
    let reply = equals_reply(words)?;
    if words.is_empty() {
        Some(What::Call { call, args, reply })
    } else {
        None
    }
}
