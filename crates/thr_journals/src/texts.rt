//! The words of lines, of replies and of calls as texts: the one table by which they are printed and read.

ghost use Rattle.std.specs.Prelude.{◌≡◌, ◌≤◌, map, length};
ghost use Rattle.std.specs.List.{find};
ghost use Rattle.std.specs.Str.{bytes_eq};
ghost use Rattle.thr_text.specs.Journals.{effect_word};
ghost use Rattle.thr_text.specs.Slots.{choice_words, absent_word};
ghost use Rattle.thr_journals.specs.Fields.{fixed_reply_in};
ghost use Rattle.thr_journals.specs.Lines.{line_word, word_in, call_in};
ghost use Rattle.thr_journals.specs.Texts.{fixed_reply_word};

use crate::word::LineWord;
use thr_text::head::{Choice, Head};
use thr_text::object::Object;
use thr_values::call::CallWord;
use thr_values::reply::{Effect, Reply};

// ---- the first words of lines

/// The first word of a line.
#[tactic(auto, unfolding(crate::specs::Lines::line_word))]
pub fn line_text(word: LineWord) -> &'static [u8]
    ensures { result.now ≡ line_word word }
{
    match word {
        LineWord::Ret => b"ret",
        LineWord::Gift => b"gift",
        LineWord::Say => b"say",
        LineWord::Set => b"set",
        LineWord::If => b"if",
        LineWord::While => b"while",
        LineWord::Call => b"call",
        LineWord::Return => b"return",
        LineWord::Raise => b"raise",
        LineWord::Reraise => b"reraise",
        LineWord::Deliver => b"deliver",
        LineWord::Exit => b"exit",
        LineWord::Try => b"try",
        LineWord::Endtry => b"endtry",
        LineWord::Catch => b"catch",
        LineWord::Endcatch => b"endcatch",
        LineWord::Finally => b"finally",
        LineWord::Endfin => b"endfin",
        LineWord::Once => b"once",
        LineWord::Done => b"done",
        LineWord::Undone => b"undone",
        LineWord::Destroy => b"destroy",
        LineWord::Enddes => b"enddes",
        LineWord::Lost => b"lost",
        LineWord::Bottom => b"bottom",
        LineWord::Pause => b"pause",
        LineWord::End => b"end",
    }
}

const WORDS: [LineWord; 27] = [
    LineWord::Ret,
    LineWord::Gift,
    LineWord::Say,
    LineWord::Set,
    LineWord::If,
    LineWord::While,
    LineWord::Call,
    LineWord::Return,
    LineWord::Raise,
    LineWord::Reraise,
    LineWord::Deliver,
    LineWord::Exit,
    LineWord::Try,
    LineWord::Endtry,
    LineWord::Catch,
    LineWord::Endcatch,
    LineWord::Finally,
    LineWord::Endfin,
    LineWord::Once,
    LineWord::Done,
    LineWord::Undone,
    LineWord::Destroy,
    LineWord::Enddes,
    LineWord::Lost,
    LineWord::Bottom,
    LineWord::Pause,
    LineWord::End,
];

fn is_word(word: LineWord, text: &[u8]) -> bool
    ensures { result ≡ bytes_eq text.now (line_word word) }
{
    text == line_text(word)
}

fn find_word(words: &[LineWord], text: &[u8]) -> Option<LineWord>
    ensures { result ≡ find (λ w. bytes_eq text.now (line_word w)) words.now }
{
    words.iter().copied().find(|w| is_word(*w, text))
}

/// The first word of a line that has this text, calls apart.
pub fn word_in(text: &[u8]) -> Option<LineWord>
    ensures { result ≡ word_in text.now }
{
    find_word(&WORDS, text)
}

/// The call with this word.
pub fn call_in(text: &[u8]) -> Option<CallWord>
    ensures { result ≡ call_in text.now }
{
    match Head::of(text) {
        Some(Head::Dce(call)) => Some(call),
        _ => None,
    }
}

// ---- replies

/// The word for what a cancel did.
fn effect_text(effect: Effect) -> &'static [u8]
    ensures { result.now ≡ effect_word effect }
{
    match effect {
        Effect::Ended => b"ended",
        Effect::Merged => b"merged",
        Effect::Pending => b"pending",
        Effect::Wakes => b"wakes",
    }
}

/// The word of a reply, empty where the reply is a number, which has none (docs/journal.md, "Replies").
pub fn reply_text(reply: Reply) -> &'static [u8]
    ensures { result.now ≡ fixed_reply_word reply }
{
    match reply {
        Reply::Done => b"ok",
        Reply::Value(_) => b"",
        Reply::Eof => b"eof",
        Reply::Effect(effect) => effect_text(effect),
        Reply::Blocks => b"blocks",
        Reply::Einval => b"EINVAL",
        Reply::Eperm => b"EPERM",
        Reply::Edeadlk => b"EDEADLK",
        Reply::Ebusy => b"EBUSY",
        Reply::Esrch => b"ESRCH",
        Reply::Eagain => b"EAGAIN",
        Reply::Epipe => b"EPIPE",
    }
}

const REPLIES: [Reply; 14] = [
    Reply::Done,
    Reply::Eof,
    Reply::Effect(Effect::Ended),
    Reply::Effect(Effect::Merged),
    Reply::Effect(Effect::Pending),
    Reply::Effect(Effect::Wakes),
    Reply::Blocks,
    Reply::Einval,
    Reply::Eperm,
    Reply::Edeadlk,
    Reply::Ebusy,
    Reply::Esrch,
    Reply::Eagain,
    Reply::Epipe,
];

fn is_reply(reply: Reply, text: &[u8]) -> bool
    ensures { result ≡ bytes_eq text.now (fixed_reply_word reply) }
{
    text == reply_text(reply)
}

fn find_reply(replies: &[Reply], text: &[u8]) -> Option<Reply>
    ensures { result ≡ find (λ r. bytes_eq text.now (fixed_reply_word r)) replies.now }
{
    replies.iter().copied().find(|r| is_reply(*r, text))
}

/// The reply that has this text as its word.
pub fn fixed_reply_in(text: &[u8]) -> Option<Reply>
    ensures { result ≡ fixed_reply_in text.now }
{
    find_reply(&REPLIES, text)
}

// ---- the fixed words of calls, in the order in which an argument counts them

const INTERFACES: [&[u8]; 2] = [b"exc", b"status"];

const POLICIES: [&[u8]; 4] = [b"SCHED_FIFO", b"SCHED_RR", b"SCHED_FG_NP", b"SCHED_BG_NP"];

const INHERITS: [&[u8]; 2] = [b"PTHREAD_INHERIT_SCHED", b"PTHREAD_DEFAULT_SCHED"];

const CANCELS: [&[u8]; 2] = [b"CANCEL_ON", b"CANCEL_OFF"];

const KINDS: [&[u8]; 3] = [
    b"MUTEX_FAST_NP",
    b"MUTEX_RECURSIVE_NP",
    b"MUTEX_NONRECURSIVE_NP",
];

/// The fixed words of which one stands at a place (docs/script.md, "Calls").
pub fn choice_texts(choice: Choice) -> &'static [&'static [u8]]
    ensures words { map (λ w. w.now) result.now ≡ choice_words choice }
    ensures few { length result.now ≤ 4 }
{
    match choice {
        Choice::Interface => &INTERFACES,
        Choice::Policy => &POLICIES,
        Choice::Inherit => &INHERITS,
        Choice::Cancel => &CANCELS,
        Choice::MutexKind => &KINDS,
    }
}

/// The word that says that there is no object of this kind: `none` for a routine, and else `default`.
pub fn absent_text(kind: Object) -> &'static [u8]
    ensures { result.now ≡ absent_word kind }
{
    match kind {
        Object::Routine => b"none",
        _ => b"default",
    }
}
