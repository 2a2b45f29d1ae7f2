//! The words that the program is given, and the status that it ends with.

ghost use Rattle.std.specs.Prelude.{◌≡◌, ◌≢◌, ◌<◌, ◌≤◌, ◌^◌, ◌↔◌, ℕ, IsTrue, MatchOption, string_bytes};
ghost use Rattle.std.specs.Fmt.{decimal};
ghost use Rattle.thr_top.specs.Answers.{IsRun, AsksRun, IsMake, AsksMake, IsTrial, AsksTrial, NeedsWorkers, IsCheck, IsReport, IsVerify};

use itoa::Buffer;
use std::marker::Model;
pub use thr_endings::Status;

/// How many workers a run has at most.
const MOST_PROCESSORS: u32 = 16;

/// How many workers a made script has at most.
const MOST_MADE: u32 = 64;

/// A word of the command line, which contracts see as its bytes.
#[derive(Drop)]
pub struct Word {
    text: String,
}

impl Model for Word {
    ghost use Rattle.std.specs.Prelude.{List, ℕ, string_bytes};

    ghost Value = { List ℕ };

    ghost view = { λ w. string_bytes w.text };
}

impl Word {
    pub fn new(text: String) -> Word
        ensures { result ≡ string_bytes text }
    {
        Word { text }
    }

    fn is(&self, text: &str) -> bool
        ensures { IsTrue result ↔ (self.now ≡ text.now) }
    {
        self.text.as_str() == text
    }
}

/// The number of 32 bits that is written in the word as the program writes numbers, if one is.
fn number_of(word: &Word) -> Option<u32>
    ensures { MatchOption result ((n : ℕ) → n < 2 ^ 32 → word.now ≢ decimal n) (λ n. word.now ≡ decimal n) }
{
    let Ok(n) = word.text.as_str().parse::<u32>() else {
        return None;
    };
    let mut buffer = Buffer::new();
    if word.is(buffer.format(n)) {
        Some(n)
    } else {
        None
    }
}

/// The same of a number from 1 on and up to another.
fn number_up_to(most: u32, word: &Word) -> Option<u32>
    ensures { MatchOption result ((n : ℕ) → 1 ≤ n → n ≤ most → word.now ≢ decimal n) (λ n. (1 ≤ n) × (n ≤ most) × (word.now ≡ decimal n)) }
{
    let n = number_of(word)?;
    if 1 <= n && n <= most { Some(n) } else { None }
}

/// On how many workers the words ask to run a script, if they do.
pub fn workers_of(words: &[Word]) -> Option<u32>
    ensures { MatchOption result (¬ (AsksRun words.now)) (IsRun words.now) }
{
    match words {
        [run, workers] => {
            if !run.is("run") {
                return None;
            }
            number_up_to(MOST_PROCESSORS, workers)
        }
        _ => None,
    }
}

/// Of which number and for how many workers the words ask to make a script, if they do.
pub fn made_of(words: &[Word]) -> Option<(u32, u32)>
    ensures { MatchOption result (¬ (AsksMake words.now)) (λ asked. IsMake words.now asked.0 asked.1) }
{
    match words {
        [make, number, workers] => {
            if !make.is("make") {
                return None;
            }
            Some((number_of(number)?, number_up_to(MOST_MADE, workers)?))
        }
        _ => None,
    }
}

/// Of which number and on how many workers the words ask for a trial, if they do.
pub fn tried_of(words: &[Word]) -> Option<(u32, u32)>
    ensures { MatchOption result (¬ (AsksTrial words.now)) (λ asked. IsTrial words.now asked.0 asked.1) }
{
    match words {
        [trial, number, workers] => {
            if !trial.is("trial") {
                return None;
            }
            Some((number_of(number)?, number_up_to(MOST_PROCESSORS, workers)?))
        }
        _ => None,
    }
}

/// Whether the words ask for what worker threads do: `run` or `trial`. All other words are for `plain_top`.
pub fn needs_workers(words: &[Word]) -> bool
    ensures { IsTrue result ↔ NeedsWorkers words.now }
{
    workers_of(words).is_some() || tried_of(words).is_some()
}

/// Whether the words ask to check a script.
pub fn asks_check(words: &[Word]) -> bool
    ensures { IsTrue result ↔ IsCheck words.now }
{
    match words {
        [check] => check.is("check"),
        _ => false,
    }
}

/// Whether the words ask for the verdict on a journal.
pub fn asks_verify(words: &[Word]) -> bool
    ensures { IsTrue result ↔ IsVerify words.now }
{
    match words {
        [verify] => verify.is("verify"),
        _ => false,
    }
}

/// Whether the words ask for the report on a journal.
pub fn asks_report(words: &[Word]) -> bool
    ensures { IsTrue result ↔ IsReport words.now }
{
    match words {
        [report] => report.is("report"),
        _ => false,
    }
}
