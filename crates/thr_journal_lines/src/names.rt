//! The names of a script with what they are the names of.

ghost use Rattle.std.specs.Prelude.{◌≡◌, ◌≤◌, ◌<◌, length, position, IfSome};
ghost use Rattle.std.specs.Option.{option_map};
ghost use Rattle.std.specs.Map.{keys_of};
ghost use Rattle.std.specs.Str.{bytes_eq};
ghost use Rattle.thr_text.specs.Tables.{kind_in};
ghost use Rattle.thr_text.specs.NameFaults.{same_kind};
ghost use Rattle.thr_journals.specs.Fields.{name_in};
ghost use Rattle.thr_journal_lines.specs.Known.{entries_in};

use thr_text::object::Object;
use thr_values::name::Name;
use thr_values::number::NameId;

/// A name of a script, built in or declared, with its kind (docs/script.md, "Names").
#[derive(Drop)]
pub struct Known {
    pub name: Name,
    pub kind: Object,
}

fn is_same(a: Object, b: Object) -> bool
    ensures { result ≡ same_kind a b }
{
    a == b
}

fn is_named(known: &Known, text: &[u8]) -> bool
    ensures { result ≡ bytes_eq text.now known.now.name }
{
    text == known.name.as_slice()
}

fn place_in(known: &[Known], text: &[u8]) -> Option<usize>
    ensures place { result ≡ position (λ k. bytes_eq text.now k.name) known.now }
    ensures within { IfSome result (λ p. p < length known.now) }
{
    known.iter().position(|k| is_named(k, text))
}

/// The place of a name, the first at 0, and what it is the name of.
fn found_in(known: &[Known], text: &[u8]) -> Option<(usize, Object)>
    ensures place { option_map (λ x. x.0) result ≡ position (bytes_eq text.now) (keys_of (entries_in known.now)) }
    ensures kind { option_map (λ x. x.1) result ≡ kind_in (entries_in known.now) text.now }
    ensures within { IfSome result (λ x. x.0 < length known.now) }
{
    let place = place_in(known, text)?;
    Some((place, known[place].kind))
}

/// The name with this text, where it is one of this kind.
pub(crate) fn name_in(known: &[Known], kind: Object, text: &[u8]) -> Option<NameId>
    requires { length known.now ≤ 65536 }
    ensures { result ≡ name_in (entries_in known.now) kind text.now }
{
    let (place, found) = found_in(known, text)?;
    if !is_same(kind, found) {
        return None;
    }
    Some(NameId(place as u16))
}
