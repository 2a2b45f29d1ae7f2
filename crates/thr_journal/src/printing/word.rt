//! Words of lines, each after a space.

ghost use Rattle.std.specs.Prelude.{◌≡◌, ◌++◌, ◌∷◌, [], OnOk};
ghost use Rattle.std.specs.Fmt.{decimal, signed_decimal};
ghost use Rattle.thr_text.specs.Journals.{name_word, thread_word, who_word};
ghost use Rattle.thr_syntax.specs.Spelling.{name_at};
ghost use Rattle.thr_grammar.specs.Printing.{spaced};

use std::alloc::AllocError;
use thr_values::history::Who;
use thr_values::name::Name;
use thr_values::number::{Line, NameId, Tid};

/// Adds a word.
pub(crate) fn add_word(out: &mut Vec<u8>, word: &[u8]) -> Result<(), AllocError>
    ensures { OnOk result (out.new.items ≡ out.old.items ++ spaced (word.now ∷ [])) }
{
    out.push(b' ')?;
    out.extend_from_slice(word)?;
    Ok(())
}

/// Adds a number that has no sign.
pub(crate) fn add_count(out: &mut Vec<u8>, n: u64) -> Result<(), AllocError>
    ensures { OnOk result (out.new.items ≡ out.old.items ++ spaced (decimal n ∷ [])) }
{
    let text = n.to_string(*out.allocator())?;
    add_word(out, text.as_bytes())
}

/// Adds a number that may have a sign.
pub(crate) fn add_number(out: &mut Vec<u8>, n: i64) -> Result<(), AllocError>
    ensures { OnOk result (out.new.items ≡ out.old.items ++ spaced (signed_decimal n ∷ [])) }
{
    let text = n.to_string(*out.allocator())?;
    add_word(out, text.as_bytes())
}

/// Adds the number of a line of the script.
pub(crate) fn add_place(out: &mut Vec<u8>, line: Line) -> Result<(), AllocError>
    ensures { OnOk result (out.new.items ≡ out.old.items ++ spaced (decimal line.0 ∷ [])) }
{
    add_count(out, u64::from(line.0))
}

/// Adds a letter with a number behind it.
fn add_lettered(out: &mut Vec<u8>, letter: u8, n: u32) -> Result<(), AllocError>
    ensures { OnOk result (out.new.items ≡ out.old.items ++ spaced ((letter ∷ decimal n) ∷ [])) }
{
    let text = n.to_string(*out.allocator())?;
    out.push(b' ')?;
    out.push(letter)?;
    out.extend_from_slice(text.as_bytes())?;
    Ok(())
}

/// Adds a thread.
pub(crate) fn add_thread(out: &mut Vec<u8>, thread: Tid) -> Result<(), AllocError>
    ensures { OnOk result (out.new.items ≡ out.old.items ++ spaced (thread_word thread ∷ [])) }
{
    add_lettered(out, b't', thread.0)
}

/// Adds whose line it is.
pub(crate) fn add_who(out: &mut Vec<u8>, who: Who) -> Result<(), AllocError>
    ensures { OnOk result (out.new.items ≡ out.old.items ++ spaced (who_word who ∷ [])) }
{
    match who {
        Who::Proc(p) => add_lettered(out, b'p', p),
        Who::Thread(t) => add_thread(out, t),
        Who::Clock => add_word(out, b"clock"),
    }
}

fn name_at(names: &[Name], place: usize) -> &[u8]
    ensures { result.now ≡ name_at names.now place }
{
    match names.get(place) {
        Some(name) => name.as_slice(),
        None => b"",
    }
}

/// Adds a name of the script.
pub(crate) fn add_name(out: &mut Vec<u8>, names: &[Name], name: NameId) -> Result<(), AllocError>
    ensures { OnOk result (out.new.items ≡ out.old.items ++ spaced (name_word names.now name ∷ [])) }
{
    add_word(out, name_at(names, usize::from(name.0)))
}
