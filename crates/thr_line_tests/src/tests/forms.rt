//! What texts are read as.

use crate::tests::table::{Cases, first_wrong, lines_of, parted, script_text, text_of, told_fault};
use std::alloc::{AllocError, Global};
use std::test::Fail;

/// The first faults of second lines of texts.
const LINES: &str = "\
F4 line 2|set a b c d e f g h i j k l m n o p q r s t u v w x
F3 line 2|shared x 9223372036854775808
F3 line 2|set x + 1 -9223372036854775809
F3 line 2|catch 9223372036854775808
F3 line 2|pthread_delay_np 9223372036854775808
F4 line 2|mutex a b c d e f g h i j k l m n o p q r s t u v w x
F4 line 2|catch a b c d e f g h i j k l m n o p q r s t u v w x
F4 line 2|write a b c d e f g h i j k l m n o p q r s t u v w x
F4 line 2|say + + + + + + + + + + + + + + + + + + + + + + + +
F1 line 2|mutex m # \x07
F1 line 2|set x 1 # \x07
F1 line 2|catch_all # \x07
F1 line 2|pthread_yield # \x07
good|interface exc
good|interface status
F7 line 2|interface
F6 line 2|interface dce
F6 line 2|interface 1
F7 line 2|interface exc status
good|limit 5
good|limit -1
F7 line 2|limit
F6 line 2|limit five
F7 line 2|limit 1 2
good|shared x 1
F7 line 2|shared x
F6 line 2|shared 1 x
F6 line 2|shared x y
F7 line 2|shared x 1 2
good|exception e
F6 line 2|exception say
F7 line 2|exception e 1
good|status e 5
F6 line 2|status e f
F7 line 2|status e
good|mutex m
good|mutex abcdefghijklmnopqrstuvwx
good|mutex main
F7 line 2|mutex
F7 line 2|mutex m n
F6 line 2|mutex 1
F6 line 2|mutex a-b
F6 line 2|mutex dcethr
F6 line 2|mutex global
F6 line 2|mutex default
F6 line 2|mutex SCHED_RR
F6 line 2|mutex pthread_yield
F6 line 2|mutex abcdefghijklmnopqrstuvwxy
good|mutexattr a
F6 line 2|mutexattr end
good|cond c
F6 line 2|cond this
good|attr a
F6 line 2|attr none
good|key k
F6 line 2|key self
good|once o
F6 line 2|once exc
good|pipe p 4
F7 line 2|pipe p
F6 line 2|pipe p q
F6 line 2|pipe 4 p
good|routine r p
F7 line 2|routine r
F6 line 2|routine r 1
F6 line 2|routine r this
F6 line 2|routine call p
F7 line 2|routine r p q
good|local x
F6 line 2|local self
F7 line 2|local x 1
good|set x 1
F6 line 2|set 1 x
F7 line 2|set x
F7 line 2|set x 1 2
good|say x # say
good|say self
good|say err
good|say + 1 2
good|say - -5 x
good|say * 1 2
good|say / 1 2
good|say % 1 2
good|say == 1 2
good|say != 1 2
good|say < 1 2
good|say <= 1 2
good|say > 1 2
good|say >= 1 2
good|say and 1 2
good|say or 1 2
good|say not not err
good|say + + + 1 2 3 4
good|say + 1 + 2 + 3 4
good|say exc_get_status e
good|say exc_get_status this
good|say exc_matches this e
good|say exc_matches e this
good|say + exc_matches this e exc_get_status this
F7 line 2|say
F6 line 2|say this
F6 line 2|say say
F7 line 2|say 1 + 2
F7 line 2|say x y
F7 line 2|say + 1
F7 line 2|say + 1 2 3
F7 line 2|say + + 1 2
F6 line 2|say + this 1
F6 line 2|say + 1 this
F6 line 2|say = 1 2
F6 line 2|say ! 1
F7 line 2|say not
F7 line 2|say not 1 2
F7 line 2|say exc_get_status
F6 line 2|say exc_get_status 1
F6 line 2|say exc_get_status self
F7 line 2|say exc_get_status e e
F7 line 2|say exc_matches this
F6 line 2|say exc_matches e + 1 2
F6 line 2|say exc_matches 1 this
F7 line 2|say exc_matches this e 1
F7 line 2|say + 1 exc_matches this e e
F6 line 2|say this that
F7 line 2|say 1 this
good|raise e
F7 line 2|raise
F6 line 2|raise this
F6 line 2|raise 1
good|reraise
F7 line 2|reraise e
good|call r 1
good|call r 1 x
good|call r + 1 2 x
F7 line 2|call r
F6 line 2|call 1 1
F6 line 2|call r this x
F6 line 2|call r 1 2
F7 line 2|call r 1 x y
good|return 0
F7 line 2|return
good|pthread_exit 0
F7 line 2|pthread_exit
good|if x
F7 line 2|if
good|else
F7 line 2|else x
good|while == x 1
F7 line 2|while
F7 line 2|while == x
good|try
F7 line 2|try x
good|catch e
F7 line 2|catch
F6 line 2|catch this
good|catch_all
F7 line 2|catch_all e
good|finally
F7 line 2|finally 1
good|endtry
F7 line 2|endtry 0
good|end
F7 line 2|end end
good|pthread_attr_create a
F6 line 2|pthread_attr_create default
good|pthread_attr_delete a
good|pthread_attr_setsched a SCHED_FIFO
good|pthread_attr_setsched a SCHED_RR
good|pthread_attr_setsched a SCHED_FG_NP
good|pthread_attr_setsched a SCHED_BG_NP
F6 line 2|pthread_attr_setsched a SCHED_OTHER
F6 line 2|pthread_attr_setsched a CANCEL_ON
F6 line 2|pthread_attr_setsched a 1
F6 line 2|pthread_attr_setsched SCHED_RR a
F7 line 2|pthread_attr_setsched a
good|pthread_attr_setprio a + 1 2
F7 line 2|pthread_attr_setprio a
good|pthread_attr_setinheritsched a PTHREAD_INHERIT_SCHED
good|pthread_attr_setinheritsched a PTHREAD_DEFAULT_SCHED
F6 line 2|pthread_attr_setinheritsched a MUTEX_FAST_NP
good|pthread_attr_setstacksize a 1
good|pthread_create t a r 0
good|pthread_create t default r 0
F6 line 2|pthread_create 1 a r 0
F6 line 2|pthread_create t none r 0
F6 line 2|pthread_create t default default 0
F7 line 2|pthread_create t default r
good|pthread_join x y
F7 line 2|pthread_join x
F6 line 2|pthread_join self 1
good|pthread_detach x
good|pthread_yield
F7 line 2|pthread_yield 1
good|pthread_cancel self
good|pthread_testcancel
good|pthread_setcancel CANCEL_ON x
F6 line 2|pthread_setcancel PTHREAD_DEFAULT_SCHED x
F7 line 2|pthread_setcancel CANCEL_ON
good|pthread_setasynccancel CANCEL_OFF x
good|pthread_setprio x + 1 2 y
F7 line 2|pthread_setprio x y
good|pthread_getprio x y
good|pthread_setscheduler self SCHED_RR 1 y
F6 line 2|pthread_setscheduler self 1 SCHED_RR y
good|pthread_getscheduler self y
good|pthread_delay_np 5
good|pthread_get_expiration_np 5 x
good|pthread_mutexattr_create a
good|pthread_mutexattr_setkind_np a MUTEX_FAST_NP
good|pthread_mutexattr_setkind_np a MUTEX_RECURSIVE_NP
good|pthread_mutexattr_setkind_np a MUTEX_NONRECURSIVE_NP
F6 line 2|pthread_mutexattr_setkind_np a SCHED_FIFO
good|pthread_mutexattr_delete a
good|pthread_mutex_init m a
good|pthread_mutex_init m default
F6 line 2|pthread_mutex_init m none
F6 line 2|pthread_mutex_init default m
good|pthread_mutex_destroy m
good|pthread_mutex_lock m
F6 line 2|pthread_mutex_lock global
good|pthread_mutex_trylock m x
F7 line 2|pthread_mutex_trylock m
good|pthread_mutex_unlock m
good|pthread_lock_global_np
F7 line 2|pthread_lock_global_np m
good|pthread_unlock_global_np
good|pthread_cond_init c
good|pthread_cond_destroy c
good|pthread_cond_wait c m
F7 line 2|pthread_cond_wait c
good|pthread_cond_timedwait c m 5
F7 line 2|pthread_cond_timedwait c m
good|pthread_cond_signal c
good|pthread_cond_broadcast c
good|pthread_once o r
F7 line 2|pthread_once o
good|pthread_keycreate k r
good|pthread_keycreate k none
F6 line 2|pthread_keycreate k default
good|pthread_setspecific k 1
good|pthread_getspecific k x
F6 line 2|pthread_getspecific k 1
good|read p x y
F7 line 2|read p x
F6 line 2|read p 1 x
good|write p 1
F7 line 2|write p
good|close p
F7 line 2|close
F7 line 2|close p p
F6 line 2|frobnicate
F6 line 2|1
F6 line 2|+ 1 2
F6 line 2|SAY 1
F6 line 2|x = 1
F6 line 2|dcethr 1
F6 line 2|threads 2
F6 line 2|this
F6 line 2|abcdefghijklmnopqrstuvwxy 1
F3 line 2|foo 9223372036854775808
F4 line 2|a b c d e f g h i j k l m n o p q r s t u v w x y";

/// Texts: how many lines with words stand below the first such line, and the number of the line after the last; or the first fault.
const TEXTS: &str = "\
F5 line 1|
F5 line 2|;
F5 line 3|# c;\t;
0 lines to 2|dcethr 1
0 lines to 2|dcethr  1;
0 lines to 2|dcethr 01
0 lines to 2|\tdcethr\t1\t# x
0 lines to 2|dcethr 1#x
0 lines to 2|dcethr 1\r;
0 lines to 4|# c;;\tdcethr 1;
F5 line 1|dcethr 2
F5 line 1|dcethr -1
F5 line 1|DCETHR 1
F5 line 1|dcethr one
F5 line 1|dcethr
F5 line 1|1 dcethr
F5 line 1|dcethr 1 1
F5 line 1|dcethr1
F5 line 1|say 1;dcethr 1
F5 line 1|catch_all;dcethr 1
F5 line 1|pthread_yield;dcethr 1
F5 line 3|;# c;end
F1 line 1|dcethr 1\r
F3 line 1|dcethr 9223372036854775808
F5 line 1|dcethr 2;\x01
F1 line 2|;\x01;dcethr 2
F6 line 3|dcethr 1;say 1;foo;say
F7 line 4|dcethr 1;;# c;say;\x01
F1 line 2|dcethr 1;say 1\r\r;end
3 lines to 5|dcethr 1;routine main a;say 7;end;
2 lines to 4|dcethr 1\r;routine main a\r;end\r;
3 lines to 9|# a;;dcethr 1;;routine main a # b;\tsay\t7;;end
1 lines to 5|dcethr 1;end;;;
F1 line 2|dcethr 1;foo \x7F
F1 line 2|dcethr 1;say 1 # ^";

/// What a text is read as, as `TEXTS` tells it.
fn told(alloc: Global, text: &[u8]) -> Result<String, AllocError> {
    match lines_of(alloc, text) {
        Ok(reading) => format!(in alloc; "{} lines to {}", reading.lines.len(), reading.end),
        Err(fault) => told_fault(alloc, &fault),
    }
}

/// Whether a text is told so, or is good: it has one line below the first one, and no fault.
fn is_told(alloc: Global, text: &[u8], wanted: &str) -> Result<bool, AllocError> {
    let told = told(alloc, text)?;
    if wanted == "good" {
        return Ok(told.as_str() == "1 lines to 3");
    }
    Ok(told.as_str() == wanted)
}

struct LineCases;

impl Cases for LineCases {
    fn is_right(alloc: Global, row: &str) -> Result<bool, AllocError> {
        let (wanted, line) = parted(row);
        let text = script_text(alloc, line)?;
        is_told(alloc, text.as_slice(), wanted)
    }
}

#[test]
fn lines_and_their_faults(rt: HostRuntime) -> Result<(), Fail> {
    assert_eq!(rt; first_wrong::<LineCases>(rt.alloc(), LINES)?, None);
    Ok(())
}

struct TextCases;

impl Cases for TextCases {
    fn is_right(alloc: Global, row: &str) -> Result<bool, AllocError> {
        let (wanted, lines) = parted(row);
        let text = text_of(alloc, lines)?;
        is_told(alloc, text.as_slice(), wanted)
    }
}

#[test]
fn texts_and_their_first_faults(rt: HostRuntime) -> Result<(), Fail> {
    assert_eq!(rt; first_wrong::<TextCases>(rt.alloc(), TEXTS)?, None);
    Ok(())
}

/// Whether a second line that comes to so many bytes by a comment is told so.
fn is_long_right(
    alloc: Global,
    words: &str,
    length: usize,
    wanted: &str,
) -> Result<bool, AllocError> {
    let mut text = script_text(alloc, words)?;
    for _ in words.len()..length {
        text.push(b'#')?;
    }
    is_told(alloc, text.as_slice(), wanted)
}

/// A line has 240 bytes at most, comments counted.
#[test]
fn long_lines(rt: HostRuntime) -> Result<(), Fail> {
    let alloc = rt.alloc();
    assert!(rt; is_long_right(alloc, "mutex m ", 241, "F2 line 2")?);
    assert!(rt; is_long_right(alloc, "set x 1 ", 241, "F2 line 2")?);
    assert!(rt; is_long_right(alloc, "catch x ", 241, "F2 line 2")?);
    assert!(rt; is_long_right(alloc, "write p 1 ", 241, "F2 line 2")?);
    assert!(rt; is_long_right(alloc, "say + 1 2 ", 241, "F2 line 2")?);
    assert!(rt; is_long_right(alloc, "end ", 241, "F2 line 2")?);
    assert!(rt; is_long_right(alloc, "end ", 240, "good")?);
    Ok(())
}

/// The text of so many lines `end`.
fn long_text(alloc: Global, count: u32) -> Result<Vec<u8>, AllocError> {
    let mut text = Vec::from_slice(alloc, b"dcethr 1\n")?;
    for _ in 0..count {
        text.extend_from_slice(b"end\n")?;
    }
    Ok(text)
}

/// Each line of a long text is read.
#[test]
fn long_texts_are_read(rt: HostRuntime) -> Result<(), Fail> {
    let alloc = rt.alloc();
    let mut text = long_text(alloc, 50_000)?;
    assert_eq!(rt;
        told(alloc, text.as_slice())?.as_str(),
        "50000 lines to 50002"
    );
    text.extend_from_slice(b"say\n")?;
    assert_eq!(rt; told(alloc, text.as_slice())?.as_str(), "F7 line 50002");
    Ok(())
}
