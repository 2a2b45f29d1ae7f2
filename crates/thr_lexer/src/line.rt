//! A line that has a form.

ghost use Rattle.std.specs.Prelude.{◌≡◌, Some, None};
ghost use Rattle.thr_text.specs.Slots.{head_of_line, form_fault};

use crate::words::Words;
use std::marker::Model;
use thr_text::head::Head;

/// A line of a text of a script, after its first, that has a form (docs/script.md, "Lines"). Contracts see its number and
/// its words.
#[derive(Drop)]
pub struct Line {
    number: u32,
    head: Head,
    words: Words,
}

impl Model for Line {
    ghost use Rattle.std.specs.Prelude.{ℕ, List, ◌≡◌, Some, None};
    ghost use Rattle.thr_text.specs.Blocks.{Line};
    ghost use Rattle.thr_text.specs.Slots.{head_of_line, form_fault};

    ghost Value = { Line };

    ghost view = { λ l. (l.number, l.words) };

    ghost invariant = { λ l. (head_of_line l.words ≡ Some l.head) × (form_fault l.words ≡ None) };
}

impl Line {
    /// A line at its number in the text, from 1 on; `head` is what its first word says.
    pub fn new(number: u32, head: Head, words: Words) -> Line
        requires head { head_of_line words ≡ Some head }
        requires form { form_fault words ≡ None }
        ensures { result ≡ (number, words) }
    {
        Line {
            number,
            head,
            words,
        }
    }

    /// The number of the line in the text, from 1 on.
    pub fn number(&self) -> u32
        ensures { result ≡ self.now.0 }
    {
        self.number
    }

    /// What the first word says.
    pub fn head(&self) -> Head
        ensures head { head_of_line self.now.1 ≡ Some result }
        ensures form { form_fault self.now.1 ≡ None }
    {
        self.head
    }

    pub fn words(&self) -> &Words
        ensures { result.now ≡ self.now.1 }
    {
        &self.words
    }
}
