//! Which words can be names.

ghost use Rattle.std.specs.Prelude.{◌≡◌, map, slice_index};
ghost use Rattle.std.specs.List.{list_all, list_any};
ghost use Rattle.std.specs.Str.{bytes_eq};
ghost use Rattle.thr_text.specs.Names.{is_letter, is_letter_or_digit, has_name_form, is_reserved, is_name};
ghost use Rattle.thr_text.specs.Groups.{group_of, is_in_group};

/// The words that stand in some line by themselves, so that no name is one of them (docs/script.md, "Names"), by the letter
/// that they begin with.
const RESERVED: [&[&[u8]]; 26] = [
    &[b"attr", b"and"],
    &[],
    &[b"cond", b"catch", b"catch_all", b"call", b"close"],
    &[b"default", b"dcethr"],
    &[
        b"exception",
        b"else",
        b"endtry",
        b"end",
        b"err",
        b"exc_get_status",
        b"exc_matches",
        b"exc",
    ],
    &[b"finally"],
    &[b"global"],
    &[],
    &[b"interface", b"if"],
    &[],
    &[b"key"],
    &[b"limit", b"local"],
    &[b"mutex", b"mutexattr"],
    &[b"not", b"none"],
    &[b"once", b"or"],
    &[
        b"pipe",
        b"pthread_exit",
        b"pthread_attr_create",
        b"pthread_attr_delete",
        b"pthread_attr_setsched",
        b"pthread_attr_setprio",
        b"pthread_attr_setinheritsched",
        b"pthread_attr_setstacksize",
        b"pthread_create",
        b"pthread_join",
        b"pthread_detach",
        b"pthread_yield",
        b"pthread_cancel",
        b"pthread_testcancel",
        b"pthread_setcancel",
        b"pthread_setasynccancel",
        b"pthread_setprio",
        b"pthread_getprio",
        b"pthread_setscheduler",
        b"pthread_getscheduler",
        b"pthread_delay_np",
        b"pthread_get_expiration_np",
        b"pthread_mutexattr_create",
        b"pthread_mutexattr_setkind_np",
        b"pthread_mutexattr_delete",
        b"pthread_mutex_init",
        b"pthread_mutex_destroy",
        b"pthread_mutex_lock",
        b"pthread_mutex_trylock",
        b"pthread_mutex_unlock",
        b"pthread_lock_global_np",
        b"pthread_unlock_global_np",
        b"pthread_cond_init",
        b"pthread_cond_destroy",
        b"pthread_cond_wait",
        b"pthread_cond_timedwait",
        b"pthread_cond_signal",
        b"pthread_cond_broadcast",
        b"pthread_once",
        b"pthread_keycreate",
        b"pthread_setspecific",
        b"pthread_getspecific",
    ],
    &[],
    &[b"routine", b"raise", b"reraise", b"return", b"read"],
    &[b"shared", b"status", b"set", b"say", b"self"],
    &[b"try", b"this"],
    &[],
    &[],
    &[b"while", b"write"],
    &[],
    &[],
    &[],
];

/// Those that begin with a capital letter.
const CAPITALS: [&[u8]; 11] = [
    b"SCHED_FIFO",
    b"SCHED_RR",
    b"SCHED_FG_NP",
    b"SCHED_BG_NP",
    b"PTHREAD_INHERIT_SCHED",
    b"PTHREAD_DEFAULT_SCHED",
    b"CANCEL_ON",
    b"CANCEL_OFF",
    b"MUTEX_FAST_NP",
    b"MUTEX_RECURSIVE_NP",
    b"MUTEX_NONRECURSIVE_NP",
];

/// Whether a word is one of these.
pub fn is_in(words: &[&[u8]], word: &[u8]) -> bool
    ensures { result ≡ list_any (λ w. bytes_eq word.now w.now) words.now }
{
    words.iter().any(|w| word == *w)
}

fn first_byte(word: &[u8]) -> u8
    ensures { result ≡ slice_index word.now 0 }
{
    if word.is_empty() { 0 } else { word[0] }
}

/// The group of a small letter, or else the others.
fn group_of<'a>(groups: &[&'a [&'a [u8]]], others: &'a [&'a [u8]], first: u8) -> &'a [&'a [u8]]
    ensures { result.now ≡ group_of (map (λ g. g.now) groups.now) others.now first }
{
    if first < b'a' {
        return others;
    }
    let at = usize::from(first - b'a');
    if at < groups.len() {
        groups[at]
    } else {
        others
    }
}

/// Whether a word is in the group of its first letter, or else among the others.
#[tactic(auto, unfolding(crate::specs::Groups::is_in_group))]
fn is_in_group(groups: &[&[&[u8]]], others: &[&[u8]], word: &[u8]) -> bool
    ensures { result ≡ is_in_group (λ w. w.now) (map (λ g. g.now) groups.now) others.now word.now }
{
    is_in(group_of(groups, others, first_byte(word)), word)
}

/// Whether a word has a meaning in scripts, so that it is no name. Only the words with its first letter are compared.
pub fn is_reserved(word: &[u8]) -> bool
    ensures { result ≡ is_reserved word.now }
{
    is_in_group(&RESERVED, &CAPITALS, word)
}

pub(crate) fn is_letter(byte: u8) -> bool
    ensures { result ≡ is_letter byte }
{
    byte == b'_' || byte.is_ascii_uppercase() || byte.is_ascii_lowercase()
}

fn is_letter_or_digit(byte: u8) -> bool
    ensures { result ≡ is_letter_or_digit byte }
{
    is_letter(byte) || byte.is_ascii_digit()
}

fn are_letters_or_digits(word: &[u8]) -> bool
    ensures { result ≡ list_all is_letter_or_digit word.now }
{
    word.iter().all(|b| is_letter_or_digit(*b))
}

/// Whether a word has the form of a name, reserved or not.
#[tactic(auto, unfolding(crate::specs::Names::has_name_form))]
pub fn has_name_form(word: &[u8]) -> bool
    ensures { result ≡ has_name_form word.now }
{
    if word.is_empty() || word.len() > 24 {
        return false;
    }
    is_letter(word[0]) && are_letters_or_digits(word)
}

/// Whether a word can be a name.
pub fn is_name(word: &[u8]) -> bool
    ensures { result ≡ is_name word.now }
{
    has_name_form(word) && !is_reserved(word)
}
