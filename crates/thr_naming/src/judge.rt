//! Judging the lines, one after the other.

ghost use Rattle.std.specs.Prelude.{◌≡◌, ◌+◌, ◌<◌, ◌≤◌, ◌^◌, ◌||◌, ◌&&◌, ◌==◌, nat_lt, nat_le, [], length, codes, Some, IfOk, IfErr, OnOk};
ghost use Rattle.std.specs.List.{list_any};
ghost use Rattle.thr_text.specs.declared.fault.ParseFault.TheVariants as ParseFault;
ghost use Rattle.thr_text.specs.declared.object.Object.TheVariants as Object;
ghost use Rattle.thr_text.specs.Tables.{declared_in, kind_in, entries_of};
ghost use Rattle.thr_text.specs.NameFaults.{is_again_word, is_undeclared, is_misused, is_out_of_range, is_of_kind, sense_of_kind, words_in, name_faults};
ghost use Rattle.thr_text.specs.Refusals.{IsFirst};
ghost use Rattle.thr_naming.specs.Judging.{is_misnamed, is_further, start, after, limit_number, pipe_number, is_beyond_range, least, misfit, first_misfit, or_no_main, or_too_long, place_of, table_of};
ghost use Rattle.thr_naming.specs.Placing.{seen};

use crate::context::{Context, declares};
use crate::places::{Placed, Places, place, rest};
use crate::sense::{is_among, is_misnamed, is_misused, is_undeclared};
use crate::table::{Table, table_of};
use std::alloc::Global;
use thr_lexer::line::Line;
use thr_text::fault::{ParseFault, Place};
use thr_text::head::{Head, Slot};
use thr_text::object::Object;
use thr_text::word::Word;
use thr_values::name::Name;

/// Whether the word brings in a name that stands for something else.
fn is_again_word(whole: &Table, context: &Context, x: &Placed) -> bool
    ensures { result ≡ is_again_word (seen x.now).0 (seen x.now).1 whole.now context.now.names context.now.locals }
{
    let Word::Name(name) = x.word else {
        return false;
    };
    match x.slot {
        Slot::Declared(_) => context.names.has(name),
        Slot::Parameter => whole.has(name),
        Slot::Local => whole.has(name) || is_among(context.locals.as_slice(), name),
        _ => false,
    }
}

fn has_again(whole: &Table, context: &Context, words: &[Placed]) -> bool
    ensures { result ≡ list_any (λ x. is_again_word (seen x).0 (seen x).1 whole.now context.now.names context.now.locals) words.now }
{
    words.iter().any(|x| is_again_word(whole, context, x))
}

fn has_undeclared(whole: &Table, locals: &[Name], words: &[Placed]) -> bool
    ensures { result ≡ list_any (λ x. is_undeclared whole.now locals.now (seen x)) words.now }
{
    words.iter().any(|x| is_undeclared(whole, locals, x))
}

fn has_misused(whole: &Table, locals: &[Name], words: &[Placed]) -> bool
    ensures { result ≡ list_any (λ x. is_misused whole.now locals.now (seen x)) words.now }
{
    words.iter().any(|x| is_misused(whole, locals, x))
}

fn has_misnamed(whole: &Table, locals: &[Name], words: &[Placed]) -> bool
    ensures { result ≡ list_any (λ x. is_misnamed whole.now locals.now (seen x)) words.now }
{
    words.iter().any(|x| is_misnamed(whole, locals, x))
}

/// Whether a name is undeclared, and whether one is misused. Most lines have neither, and there each name is looked up once.
#[tactic(auto, using(crate::proofs::SenseLaws::none_first, crate::proofs::SenseLaws::none_last))]
fn misnamed(whole: &Table, locals: &[Name], words: &[Placed]) -> (bool, bool)
    ensures undeclared { result.0 ≡ list_any (λ x. is_undeclared whole.now locals.now (seen x)) words.now }
    ensures misused { result.1 ≡ list_any (λ x. is_misused whole.now locals.now (seen x)) words.now }
{
    if !has_misnamed(whole, locals, words) {
        return (false, false);
    }
    (
        has_undeclared(whole, locals, words),
        has_misused(whole, locals, words),
    )
}

fn is_further(context: &Context, head: Head) -> bool
    ensures { result ≡ is_further context.now (Some head) }
{
    match head {
        Head::Interface => context.has_interface,
        Head::Limit => context.has_limit,
        _ => false,
    }
}

fn limit_number(words: &[Word]) -> Option<i64>
    ensures { result ≡ limit_number words.now }
{
    match words {
        [Word::Num(number)] => Some(*number),
        _ => None,
    }
}

fn pipe_number(words: &[Word]) -> Option<i64>
    ensures { result ≡ pipe_number words.now }
{
    match words {
        [Word::Name(_), Word::Num(number)] => Some(*number),
        _ => None,
    }
}

fn is_beyond_range(number: Option<i64>, high: u32) -> bool
    ensures { result ≡ is_beyond_range number high }
{
    match number {
        Some(number) => number < 1 || number > i64::from(high),
        None => false,
    }
}

/// Whether the number of a `limit` or `pipe` line, whose words after the first these are, is out of range.
fn is_out_of_range(head: Head, words: &[Word]) -> bool
    ensures { result ≡ is_out_of_range (Some head) words.now }
{
    match head {
        Head::Limit => is_beyond_range(limit_number(words), 1_000_000),
        Head::Pipe => is_beyond_range(pipe_number(words), 4096),
        _ => false,
    }
}

/// Whether the line brings in a name that stands for something else, or is a further `interface` or `limit` line.
fn is_again(whole: &Table, context: &Context, head: Head, words: &[Placed]) -> bool
    ensures { result ≡ (list_any (λ x. is_again_word (seen x).0 (seen x).1 whole.now context.now.names context.now.locals) words.now || is_further context.now (Some head)) }
{
    has_again(whole, context, words) || is_further(context, head)
}

/// Whether the line declares a name below 1,000 others.
fn is_one_more(context: &Context, line: &Line) -> bool
    ensures { result ≡ (nat_lt 0 (length (declared_in line.now.1)) && nat_le 1000 context.now.count) }
{
    declares(line) > 0 && context.count >= 1000
}

/// Whether there are too many blocks or locals.
fn is_full(context: &Context) -> bool
    ensures { result ≡ (nat_lt 32 context.now.depth || nat_lt 16 (length context.now.locals)) }
{
    context.depth > 32 || context.locals.len() > 16
}

/// The least of the faults that there are.
fn least(again: bool, undeclared: bool, misused: bool, beyond: bool) -> Option<u8>
    ensures { result ≡ least again undeclared misused beyond }
{
    if again {
        Some(15)
    } else if undeclared {
        Some(16)
    } else if misused {
        Some(17)
    } else if beyond {
        Some(18)
    } else {
        None
    }
}

/// The least fault of a line, which it goes past.
fn judge_line<'a>(
    alloc: Global,
    whole: &Table,
    context: &mut Context,
    places: &mut Places<'a>,
    line: &'a Line,
) -> Result<Option<u8>, ParseFault>
    requires depth { context.old.depth + 1 < 2 ^ 64 }
    requires count { context.old.count + 1 < 2 ^ 64 }
    ensures misfit { IfOk result (λ n. n ≡ misfit whole.now context.old line.now.1) }
    ensures after { OnOk result (context.new ≡ after context.old line.now.1) }
    ensures depth { OnOk result (context.new.depth ≤ context.old.depth + 1) }
    ensures count { OnOk result (context.new.count ≤ context.old.count + 1) }
    ensures fault { IfErr result (λ f. f ≡ ParseFault.NoMemory) }
{
    let head = line.head();
    let words = rest(line.words().as_slice());
    place(&mut places.open, &mut places.words, head, words)?;
    let placed = places.words.as_slice();
    let again = is_again(whole, context, head, placed);
    let one_more = is_one_more(context, line);
    context.pass(alloc, line)?;
    let locals = context.locals.as_slice();
    let (undeclared, misused) = misnamed(whole, locals, placed);
    let full = is_full(context);
    let outside = is_out_of_range(head, words);
    Ok(least(again, undeclared, misused, outside | (one_more | full)))
}

/// The first of the lines that has a fault of its own, with the least of these.
fn first_misfit(alloc: Global, whole: &Table, lines: &[Line]) -> Result<Option<Place>, ParseFault>
    ensures place { IfOk result (λ p. place_of p ≡ first_misfit whole.now start lines.now) }
    ensures fault { IfErr result (λ f. f ≡ ParseFault.NoMemory) }
{
    let mut context = Context::new(alloc)?;
    let mut places = Places::new(alloc);
    let _count = lines.len();
    for line in lines {
        if let Some(number) = judge_line(alloc, whole, &mut context, &mut places, line)? {
            return Ok(Some(Place {
                number,
                line: line.number(),
            }));
        }
    }
    Ok(None)
}

/// Whether the name `main` is that of a routine.
fn has_main(alloc: Global, whole: &Table) -> Result<bool, ParseFault>
    ensures ok { IfOk result (λ b. b ≡ is_of_kind Object.Routine (sense_of_kind (kind_in whole.now (codes "main")))) }
    ensures fault { IfErr result (λ f. f ≡ ParseFault.NoMemory) }
{
    let name = Name::from_slice(alloc, b"main")?;
    match whole.kind(&name) {
        Some(Object::Routine) => Ok(true),
        _ => Ok(false),
    }
}

fn or_no_main(end: u32, has_main: bool, fault: Option<Place>) -> Option<Place>
    ensures { place_of result ≡ or_no_main end has_main (place_of fault) }
{
    match fault {
        Some(place) => Some(place),
        None => {
            if has_main {
                None
            } else {
                Some(Place {
                    number: 18,
                    line: end,
                })
            }
        }
    }
}

/// Whether a fault comes before that of line 20,001.
fn is_before_last(place: Place) -> bool
    ensures { result ≡ (nat_lt place.line 20001 || ((place.line == 20001) && nat_lt place.number 18)) }
{
    place.line < 20001 || (place.line == 20001 && place.number < 18)
}

fn or_too_long(end: u32, fault: Option<Place>) -> Option<Place>
    ensures { place_of result ≡ or_too_long end (place_of fault) }
{
    if end <= 20001 {
        return fault;
    }
    match fault {
        Some(place) if is_before_last(place) => Some(place),
        _ => Some(Place {
            number: 18,
            line: 20001,
        }),
    }
}

/// The third pass: the names of a script whose lines keep the rules for names and the limits, or the first fault. The lines
/// are those of a text that has passed the first two passes, and `end` is the number of the line after its last
/// (docs/script.md, "Faults"). Each line is looked at twice, for as long as its words times the locals in force take.
pub fn judge_lines(alloc: Global, lines: &[Line], end: u32) -> Result<Table, ParseFault>
    ensures ok { IfOk result (λ t. name_faults end lines.now ≡ []) }
    ensures names { IfOk result (λ t. t ≡ entries_of (words_in lines.now)) }
    ensures few { IfOk result (λ t. length t ≤ 1010) }
    ensures fault { IfErr result (λ f. IsFirst f (name_faults end lines.now)) }
{
    let whole = table_of(alloc, lines)?;
    let fault = first_misfit(alloc, &whole, lines)?;
    let has_main = has_main(alloc, &whole)?;
    match or_too_long(end, or_no_main(end, has_main, fault)) {
        Some(place) => Err(ParseFault::Refused(place)),
        None => Ok(whole),
    }
}
