//! The words of one line, in their order.

ghost use Rattle.std.specs.Prelude.{◌≡◌, ◌==◌, ◌<◌, [], ◌∷◌, ◌++◌, length, slice_get, OnOk, OnSome, IfErr};
ghost use Rattle.std.specs.Option.{option_copied};
ghost use Rattle.thr_lexer.specs.declared.fault.LexFault.TheVariants as LexFault;

use crate::fault::LexFault;
use smallvec::SmallVec;
use std::alloc::Global;
use std::marker::Model;
use thr_text::word::Word;

/// The words of a line, which contracts see as a list. Two stand in the line itself; a line with more takes memory by its words.
#[derive(Drop)]
pub struct Words {
    words: SmallVec<Word, 2>,
}

impl Model for Words {
    ghost use Rattle.std.specs.Prelude.{List};
    ghost use Rattle.thr_text.specs.declared.word.Word.{Word};

    ghost Value = { List Word };

    ghost view = { λ w. w.words.items };
}

impl Words {
    /// No words.
    pub(crate) fn new(alloc: Global) -> Words
        ensures { result ≡ [] }
    {
        Words {
            words: SmallVec::new(alloc),
        }
    }

    /// Puts a word behind the others. The first that has no room in the line itself takes memory for so many words.
    pub(crate) fn push(&mut self, word: Word, room: usize) -> Result<(), LexFault>
        ensures ok { OnOk result (self.new ≡ self.old ++ word ∷ []) }
        ensures fault { IfErr result (λ f. f ≡ LexFault.NoMemory) }
    {
        if self.words.len() == 2 {
            self.words.reserve_exact(room.saturating_sub(2))?;
        }
        self.words.push(word)?;
        Ok(())
    }

    pub fn as_slice(&self) -> &[Word]
        ensures { result.now ≡ self.now }
    {
        self.words.as_slice()
    }

    pub fn len(&self) -> usize
        ensures { result ≡ length self.now }
    {
        self.words.len()
    }

    pub fn is_empty(&self) -> bool
        ensures { result ≡ (length self.now == 0) }
    {
        self.words.is_empty()
    }

    /// The word at a place, the first at 0.
    pub fn get(&self, at: usize) -> Option<&Word>
        ensures value { option_copied result ≡ slice_get self.now at }
        ensures within { OnSome result (at < length self.now) }
    {
        self.as_slice().get(at)
    }
}
