//! The words of a line, one after the other.

ghost use Rattle.std.specs.Prelude.{◌≡◌, ◌==◌, ◌∷◌, position, length};
ghost use Rattle.thr_journals.specs.Lines.{is_space, line_words};
ghost use Rattle.thr_journal_lines.specs.Words.{words_left, words_with};

use std::marker::Model;

/// The words of a line that are left, which contracts see as a list.
#[derive(Drop)]
pub(crate) struct Words<'a> {
    rest: Option<&'a [u8]>,
}

impl<'a> Model for Words<'a> {
    ghost use Rattle.std.specs.Prelude.{List, ℕ};
    ghost use Rattle.thr_journal_lines.specs.Words.{words_left};

    ghost Value = { List (List ℕ) };

    ghost view = { λ w. words_left w.rest };
}

fn space_in(text: &[u8]) -> Option<usize>
    ensures { result ≡ position is_space text.now }
{
    text.iter().position(|b| *b == b' ')
}

/// The first word, and the text behind the space that ends it, if one does.
#[tactic(auto, using(crate::proofs::Cuts::cut_first, crate::proofs::Cuts::uncut))]
fn first_word(text: &[u8]) -> (&[u8], Option<&[u8]>)
    ensures { line_words text.now ≡ result.0.now ∷ words_left result.1 }
{
    match space_in(text) {
        Some(at) => (&text[..at], Some(&text[at + 1..])),
        None => (text, None),
    }
}

impl<'a> Words<'a> {
    /// The words of a line.
    pub fn of(line: &'a [u8]) -> Words<'a>
        ensures { result ≡ line_words line.now }
    {
        Words { rest: Some(line) }
    }

    /// Takes the next word.
    pub fn next(&mut self) -> Option<&'a [u8]>
        ensures { self.old ≡ words_with result self.new }
    {
        let text = self.rest?;
        let (word, rest) = first_word(text);
        self.rest = rest;
        Some(word)
    }

    /// Whether no word is left.
    #[tactic(auto, using(crate::proofs::Cuts::some_words))]
    pub fn is_empty(&self) -> bool
        ensures { result ≡ (length self.now == 0) }
    {
        match self.rest {
            None => true,
            Some(_) => false,
        }
    }
}
