//! The words of a line with the slots in which they stand.

ghost use Rattle.std.specs.Prelude.{◌≡◌, ◌∷◌, ◌++◌, [], map, reverse, OnOk, IfOk, IfErr, IfNone, IfSome};
ghost use Rattle.std.specs.List.{list_any};
ghost use Rattle.std.specs.Str.{bytes_eq};
ghost use Rattle.thr_text.specs.declared.fault.ParseFault.TheVariants as ParseFault;
ghost use Rattle.thr_text.specs.Slots.{is_one_of, operands_of, slots_behind, slots_of};
ghost use Rattle.thr_text.specs.Tables.{placed, rest_of};
ghost use Rattle.thr_naming.specs.Placing.{seen};

use std::alloc::Global;
use std::marker::Model;
use thr_text::fault::ParseFault;
use thr_text::head::{Head, Slot};
use thr_text::operands::operands;
use thr_text::word::Word;

/// A word of a line with the slot in which it stands.
#[derive(Clone, Copy)]
pub struct Placed<'a> {
    pub slot: Slot,
    pub word: &'a Word,
}

pub fn slots_behind(slot: Slot, word: &Word) -> &'static [Slot]
    ensures { result.now ≡ slots_behind slot word.now }
{
    match slot {
        Slot::Expression => operands(word),
        _ => &[],
    }
}

fn push_reversed(stack: &mut Vec<Slot>, slots: &[Slot]) -> Result<(), ParseFault>
    ensures ok { OnOk result (reverse stack.new.items ≡ slots.now ++ reverse stack.old.items) }
    ensures fault { IfErr result (λ f. f ≡ ParseFault.NoMemory) }
{
    let mut left = slots.len();
    while left > 0 {
        left -= 1;
        stack.push(slots[left])?;
    }
    Ok(())
}

/// The slots of a line that no word stands in yet, the next first.
#[derive(Drop)]
pub struct Open {
    stack: Vec<Slot>,
}

impl Model for Open {
    ghost use Rattle.std.specs.Prelude.{List, reverse};
    ghost use Rattle.thr_text.specs.declared.head.Slot.{Slot};

    ghost Value = { List Slot };

    ghost view = { λ o. reverse o.stack.items };
}

impl Open {
    pub fn new(alloc: Global) -> Open
        ensures { result ≡ [] }
    {
        Open {
            stack: Vec::new(alloc),
        }
    }

    pub fn pop(&mut self) -> Option<Slot>
        ensures none { IfNone result (self.old ≡ []) }
        ensures some { IfSome result (λ slot. self.old ≡ slot ∷ self.new) }
        ensures same { IfNone result (self.new ≡ self.old) }
    {
        self.stack.pop()
    }

    /// Closes those that are open.
    pub fn clear(&mut self)
        ensures { self.new ≡ [] }
    {
        self.stack.clear();
    }

    /// Opens slots before those that are open.
    pub fn push(&mut self, slots: &[Slot]) -> Result<(), ParseFault>
        ensures ok { OnOk result (self.new ≡ slots.now ++ self.old) }
        ensures fault { IfErr result (λ f. f ≡ ParseFault.NoMemory) }
    {
        push_reversed(&mut self.stack, slots)
    }
}

/// The words after the first.
pub fn rest(words: &[Word]) -> &[Word]
    ensures { result.now ≡ rest_of words.now }
{
    if words.is_empty() { words } else { &words[1..] }
}

/// The words of a line with their slots, and the memory for them, which each line uses anew.
#[derive(Drop)]
pub struct Places<'a> {
    pub open: Open,
    pub words: Vec<Placed<'a>>,
}

impl<'a> Places<'a> {
    pub fn new(alloc: Global) -> Places<'a> {
        Places {
            open: Open::new(alloc),
            words: Vec::new(alloc),
        }
    }
}

/// Each of the words after the first with its slot, as far as there are slots. What was in the list before is taken out.
pub fn place<'a>(
    left: &mut Open,
    all: &mut Vec<Placed<'a>>,
    head: Head,
    words: &'a [Word],
) -> Result<(), ParseFault>
    ensures ok { OnOk result (map seen all.new.items ≡ placed (slots_of head) words.now) }
    ensures fault { IfErr result (λ f. f ≡ ParseFault.NoMemory) }
{
    left.clear();
    all.clear();
    left.push(head.slots())?;
    for word in words {
        let Some(slot) = left.pop() else {
            return Ok(());
        };
        all.push(Placed { slot, word })?;
        left.push(slots_behind(slot, word))?;
    }
    Ok(())
}
