//! Tests of what no clause says: that memory is found, how many reads there are, and the devices of the standard library.

use std::alloc::Global;
use std::test::Fail;
use thr_top::command::{Status, Word};
use thr_top::top::top;
use thr_wire::fault::WireFault;
use thr_wire::good::{GoodSink, GoodSource};
use thr_wire::mem::{MemSink, MemSource};
use thr_wire::standard::{StdSink, StdSource};
use thr_wire::whole::{read_all, write_all};
use thr_workers::gate::NoGate;

pub(super) const USAGE: &[u8] =
    b"usage: dcethr run W | check | verify | report | make N T | trial N W\n";

const SEVEN: &[u8] = b"dcethr 1\nroutine main a\nsay 7\nend\n";

const SEVEN_JOURNAL: &[u8] =
    b"dcethr journal 1\nworkers 1\nscript 4\ndcethr 1\nroutine main a\nsay 7\nend\nhistory\n1 p0 run t1\n2 t1 say 7\n3 t1 end 0\nstop finished\n";

const MANY: &[u8] =
    b"dcethr 1\nroutine main _x9\nsay -9223372036854775808\nsay 9223372036854775807\nsay 0\nend\n";

const MANY_JOURNAL: &[u8] =
    b"dcethr journal 1\nworkers 1\nscript 6\ndcethr 1\nroutine main _x9\nsay -9223372036854775808\nsay 9223372036854775807\nsay 0\nend\nhistory\n1 p0 run t1\n2 t1 say -9223372036854775808\n3 t1 say 9223372036854775807\n4 t1 say 0\n5 t1 end 0\nstop finished\n";

const NONE_SAID: &[u8] = b"dcethr 1\nroutine main a\nend\n";

const NONE_SAID_JOURNAL: &[u8] =
    b"dcethr journal 1\nworkers 1\nscript 3\ndcethr 1\nroutine main a\nend\nhistory\n1 p0 run t1\n2 t1 end 0\nstop finished\n";

/// Blocks of each kind, an empty `else`, and lines with each kind of place, in other spellings than the canonical ones.
const ALL_SORTS: &[u8] =
    b"dcethr 1 # sorts\ninterface status\nlimit 010\nshared x -0\nexception e_1\nstatus s 5\nmutex m\nmutexattr b\ncond c\nattr t\nkey k\nonce o\npipe p 1\n\nroutine w a\nlocal v\n set v + a * -2 not x\nif exc_matches e_1 s\nelse\nend\n\ttry\nraise e_1\ncatch s\nset v exc_get_status this\nreraise\ncatch_all\nendtry\ntry\nwhile < v 3\ncall w err v\nend\nfinally\npthread_mutex_init m default\npthread_mutex_init m b\nendtry\nreturn self\nend\nroutine main a\ncall w 1\npthread_create x t w a\npthread_keycreate k none\npthread_setcancel CANCEL_OFF x\npthread_setscheduler a SCHED_RR 12 x # rr\npthread_exit 0\nend\n";

const ALL_SORTS_PLAIN: &[u8] =
    b"dcethr 1\ninterface status\nlimit 10\nshared x 0\nexception e_1\nstatus s 5\nmutex m\nmutexattr b\ncond c\nattr t\nkey k\nonce o\npipe p 1\nroutine w a\nlocal v\nset v + a * -2 not x\nif exc_matches e_1 s\nelse\nend\ntry\nraise e_1\ncatch s\nset v exc_get_status this\nreraise\ncatch_all\nendtry\ntry\nwhile < v 3\ncall w err v\nend\nfinally\npthread_mutex_init m default\npthread_mutex_init m b\nendtry\nreturn self\nend\nroutine main a\ncall w 1\npthread_create x t w a\npthread_keycreate k none\npthread_setcancel CANCEL_OFF x\npthread_setscheduler a SCHED_RR 12 x\npthread_exit 0\nend\n";

/// A thread that is joined twice, with what it returns.
const JOINED: &[u8] =
    b"dcethr 1\nroutine w a\nreturn + a 1\nend\nroutine main a\nlocal t\nlocal v\npthread_create t default w 4\npthread_join t v\npthread_join t v\nsay v\nend\n";

const JOINED_JOURNAL: &[u8] =
    b"dcethr journal 1\nworkers 1\nscript 12\ndcethr 1\nroutine w a\nreturn + a 1\nend\nroutine main a\nlocal t\nlocal v\npthread_create t default w 4\npthread_join t v\npthread_join t v\nsay v\nend\nhistory\n1 p0 run t1\n2 t1 pthread_create default w 4 = 2\n3 t1 pthread_join 2 = blocks\n4 p0 run t2\n5 t2 end 5\n6 p0 run t1\n7 t1 ret = 5\n8 t1 pthread_join 2 = 5\n9 t1 say 5\n10 t1 end 0\nstop finished\n";

const THREE: &[u8] =
    b"dcethr 1\nroutine w a\nsay a\nend\nroutine main a\nlocal t\npthread_create t default w 1\npthread_create t default w 2\npthread_create t default w 3\nend\n";

/// The words, parted by spaces, the input, and the status and the text that they give.
const CASES: [(&str, &[u8], u8, &[u8]); 60] = [
    ("run 1", SEVEN, 0, SEVEN_JOURNAL),
    ("run 1", MANY, 0, MANY_JOURNAL),
    ("run 1", NONE_SAID, 0, NONE_SAID_JOURNAL),
    // other spellings of the same script
    (
        "run 1",
        b"dcethr 1\nroutine main a\nsay 07\nend\n",
        0,
        SEVEN_JOURNAL,
    ),
    (
        "run 1",
        b"dcethr 1\nroutine main a\nsay  7 # seven\nend",
        0,
        SEVEN_JOURNAL,
    ),
    (
        "run 1",
        b"\ndcethr 01\r\nroutine main a\r\n\n\tsay 7\nend\n\n",
        0,
        SEVEN_JOURNAL,
    ),
    // each pass has its faults
    ("run 1", b"", 2, b"refused F5 line 1\n"),
    ("run 1", b"\n", 2, b"refused F5 line 2\n"),
    ("run 1", b"dcethr 2\n", 2, b"refused F5 line 1\n"),
    (
        "run 1",
        b"dcethr 1\nroutine main a\nsay 9223372036854775808\nend\n",
        2,
        b"refused F3 line 3\n",
    ),
    (
        "run 1",
        b"dcethr 1\nroutine main a\nsay +7\nend\n",
        2,
        b"refused F6 line 3\n",
    ),
    (
        "run 1",
        b"dcethr 1\nroutine main a\nsay\nend\n",
        2,
        b"refused F7 line 3\n",
    ),
    (
        "run 1",
        b"dcethr 1\nroutine main pthread_yield\nsay 7\nend\n",
        2,
        b"refused F6 line 2\n",
    ),
    (
        "run 1",
        b"dcethr 1\nroutine main 9a\nsay 7\nend\n",
        2,
        b"refused F6 line 2\n",
    ),
    (
        "run 1",
        b"dcethr 1\nroutine main abcdefghijklmnopqrstuvwxy\nend\n",
        2,
        b"refused F6 line 2\n",
    ),
    (
        "run 1",
        b"dcethr 1\nroutine main a\nsay 7\n",
        2,
        b"refused F8 line 4\n",
    ),
    (
        "run 1",
        b"dcethr 1\nroutine main main\nsay 7\nend\n",
        2,
        b"refused F15 line 2\n",
    ),
    (
        "run 1",
        b"dcethr 1\nroutine main cancel_e\nsay 7\nend\n",
        2,
        b"refused F15 line 2\n",
    ),
    (
        "run 1",
        b"dcethr 1\nroutine main a\nraise a\nend\n",
        2,
        b"refused F17 line 3\n",
    ),
    (
        "run 1",
        b"dcethr 1\nroutine main a\npthread_yield\nraise a\nend\n",
        2,
        b"refused F17 line 4\n",
    ),
    // threads and processors
    ("run 1", JOINED, 0, JOINED_JOURNAL),
    // nothing can go on
    (
        "run 1",
        b"dcethr 1\nmutex m\nroutine main a\npthread_mutex_init m default\npthread_mutex_lock m\npthread_mutex_lock m\nend\n",
        6,
        b"dcethr journal 1\nworkers 1\nscript 7\ndcethr 1\nmutex m\nroutine main a\npthread_mutex_init m default\npthread_mutex_lock m\npthread_mutex_lock m\nend\nhistory\n1 p0 run t1\n2 t1 pthread_mutex_init m default = ok\n3 t1 pthread_mutex_lock m = ok\n4 t1 pthread_mutex_lock m = blocks\nstop deadlock 1 t1\n",
    ),
    // the lines come to the limit
    // one thread: unwindings, routines, shared variables, numbers, and the limit
    (
        "run 1",
        b"dcethr 1\nstatus a 5\nstatus b 5\nroutine inner x\ntry\nraise a\nfinally\nsay 1\nendtry\nend\nroutine main x\ntry\ntry\ncall inner 0\nfinally\nsay 2\nendtry\ncatch b\nsay exc_get_status this\nendtry\nend\n",
        0,
        b"dcethr journal 1\nworkers 1\nscript 21\ndcethr 1\nstatus a 5\nstatus b 5\nroutine inner x\ntry\nraise a\nfinally\nsay 1\nendtry\nend\nroutine main x\ntry\ntry\ncall inner 0\nfinally\nsay 2\nendtry\ncatch b\nsay exc_get_status this\nendtry\nend\nhistory\n1 p0 run t1\n2 t1 try 1 12\n3 t1 try 2 13\n4 t1 try 3 5\n5 t1 raise 1 status 5\n6 t1 finally 3 1\n7 t1 say 1\n8 t1 endfin 3\n9 t1 finally 2 1\n10 t1 say 2\n11 t1 endfin 2\n12 t1 catch 1 1 18\n13 t1 say 5\n14 t1 endcatch 1\n15 t1 end 0\nstop finished\n",
    ),
    (
        "run 1",
        b"dcethr 1\nexception p\nexception q\nroutine main a\ntry\ntry\nraise p\nfinally\nraise q\nendtry\ncatch q\nsay 1\nendtry\nend\n",
        0,
        b"dcethr journal 1\nworkers 1\nscript 14\ndcethr 1\nexception p\nexception q\nroutine main a\ntry\ntry\nraise p\nfinally\nraise q\nendtry\ncatch q\nsay 1\nendtry\nend\nhistory\n1 p0 run t1\n2 t1 try 1 5\n3 t1 try 2 6\n4 t1 raise 1 p\n5 t1 finally 2 1\n6 t1 raise 2 q\n7 t1 catch 1 2 11\n8 t1 say 1\n9 t1 endcatch 1\n10 t1 end 0\nstop finished\n",
    ),
    (
        "run 1",
        b"dcethr 1\nlimit 3\nroutine main a\nwhile 1\nend\nend\n",
        7,
        b"dcethr journal 1\nworkers 1\nscript 6\ndcethr 1\nlimit 3\nroutine main a\nwhile 1\nend\nend\nhistory\n1 p0 run t1\n2 t1 pause\n3 t1 pause\nstop limit\n",
    ),
    (
        "run 1",
        b"dcethr 1\nshared x 2\nroutine main a\nset x 5\nsay x\nend\n",
        0,
        b"dcethr journal 1\nworkers 1\nscript 6\ndcethr 1\nshared x 2\nroutine main a\nset x 5\nsay x\nend\nhistory\n1 p0 run t1\n2 t1 set 4 5\n3 t1 say 5\n4 t1 end 0\nstop finished\n",
    ),
    (
        "run 1",
        b"dcethr 1\nroutine main a\nsay + 9223372036854775807 1\nend\n",
        0,
        b"dcethr journal 1\nworkers 1\nscript 4\ndcethr 1\nroutine main a\nsay + 9223372036854775807 1\nend\nhistory\n1 p0 run t1\n2 t1 raise 1 intovf_e\n3 t1 bottom 1 -2\n4 t1 end -2\nstop finished\n",
    ),
    // checking
    ("check", SEVEN, 0, SEVEN),
    (
        "check",
        b"dcethr 1\r\n# note\n\troutine  main a\n say -007\nend",
        0,
        b"dcethr 1\nroutine main a\nsay -7\nend\n",
    ),
    ("check", ALL_SORTS, 0, ALL_SORTS_PLAIN),
    ("check", ALL_SORTS_PLAIN, 0, ALL_SORTS_PLAIN),
    (
        "check",
        b"dcethr 1\nroutine main a\ntry\nendtry\nend\n",
        2,
        b"refused F12 line 4\n",
    ),
    (
        "check",
        b"dcethr 1\nroutine main a\ntry\ncatch cancel_e\nfinally\nendtry\nend\n",
        2,
        b"refused F11 line 5\n",
    ),
    (
        "check",
        b"dcethr 1\nroutine main a\nsay x\nend\n",
        2,
        b"refused F16 line 3\n",
    ),
    (
        "check",
        b"dcethr 1\nroutine main a\nsay x\nend\nend\n",
        2,
        b"refused F9 line 5\n",
    ),
    (
        "check",
        b"dcethr 1\nmutex m\nroutine main a\nset m 1\nend\n",
        2,
        b"refused F17 line 4\n",
    ),
    ("check", b"dcethr 1\n", 2, b"refused F18 line 2\n"),
    (
        "check",
        b"dcethr 1\nroutine main a\nsay 9223372036854775808\nend\n",
        2,
        b"refused F3 line 3\n",
    ),
    // names and limits at their edges
    (
        "check",
        b"dcethr 1\nroutine main a\nset x 1\nend\nshared x 0\n",
        0,
        b"dcethr 1\nroutine main a\nset x 1\nend\nshared x 0\n",
    ),
    (
        "check",
        b"dcethr 1\nmutex m\nroutine main a\nset m y\nend\n",
        2,
        b"refused F16 line 4\n",
    ),
    (
        "check",
        b"dcethr 1\nroutine main a\nend\nmutex a\n",
        2,
        b"refused F15 line 2\n",
    ),
    (
        "check",
        b"dcethr 1\nroutine main a\nend\nroutine main b\nend\n",
        2,
        b"refused F15 line 4\n",
    ),
    (
        "check",
        b"dcethr 1\nmutex main\n",
        2,
        b"refused F18 line 3\n",
    ),
    (
        "check",
        b"dcethr 1\nlimit 0\nroutine main a\nend\n",
        2,
        b"refused F18 line 2\n",
    ),
    (
        "check",
        b"dcethr 1\nlimit 1\nroutine main a\nend\n",
        0,
        b"dcethr 1\nlimit 1\nroutine main a\nend\n",
    ),
    (
        "check",
        b"dcethr 1\nlimit 1000000\nroutine main a\nend\n",
        0,
        b"dcethr 1\nlimit 1000000\nroutine main a\nend\n",
    ),
    (
        "check",
        b"dcethr 1\nlimit 1000001\nroutine main a\nend\n",
        2,
        b"refused F18 line 2\n",
    ),
    (
        "check",
        b"dcethr 1\npipe p 0\nroutine main a\nend\n",
        2,
        b"refused F18 line 2\n",
    ),
    (
        "check",
        b"dcethr 1\npipe p 1\nroutine main a\nend\n",
        0,
        b"dcethr 1\npipe p 1\nroutine main a\nend\n",
    ),
    (
        "check",
        b"dcethr 1\npipe p 4096\nroutine main a\nend\n",
        0,
        b"dcethr 1\npipe p 4096\nroutine main a\nend\n",
    ),
    (
        "check",
        b"dcethr 1\npipe p 4097\nroutine main a\nend\n",
        2,
        b"refused F18 line 2\n",
    ),
    // words of no form
    ("", SEVEN, 1, USAGE),
    ("run", SEVEN, 1, USAGE),
    ("run 0", SEVEN, 1, USAGE),
    ("run 01", SEVEN, 1, USAGE),
    ("run 17", SEVEN, 1, USAGE),
    ("run 1 1", SEVEN, 1, USAGE),
    ("check x", SEVEN, 1, USAGE),
    ("report x", SEVEN_JOURNAL, 1, USAGE),
    ("verify x", SEVEN_JOURNAL, 1, USAGE),
];

pub(super) fn words_of(alloc: Global, line: &str) -> Result<Vec<Word>, Fail> {
    let mut words = Vec::new(alloc);
    for word in line.split_ascii_whitespace() {
        words.push(Word::new(String::from_str(alloc, word)?))?;
    }
    Ok(words)
}

#[test]
fn each_input_gives_its_text(rt: HostRuntime) -> Result<(), Fail> {
    let alloc = rt.alloc();
    for (line, input, status, text) in CASES {
        let words = words_of(alloc, line)?;
        let mut source = GoodSource::new(Vec::from_slice(alloc, input)?);
        let mut sink = GoodSink::new(alloc);
        let Status(got) = top(
            &rt,
            alloc,
            words.as_slice(),
            &mut source,
            &mut sink,
            &NoGate,
        );
        assert_eq!(rt; got, status, "{input:?}");
        assert_eq!(rt; sink.as_slice(), text, "{input:?}");
    }
    Ok(())
}

/// What more than one worker makes: the script, the status, and lines that stand in the history in this order, whoever ran when.
const BY_MORE: [(&[u8], u8, [&[u8]; 3]); 3] = [
    (
        JOINED,
        0,
        [b" t2 end 5\n", b" t1 say 5\n", b"\nstop finished\n"],
    ),
    (THREE, 0, [b" say 1\n", b" end 0\n", b"\nstop finished\n"]),
    (
        b"dcethr 1\nlimit 5\nroutine w a\nwhile 1\nend\nend\nroutine main a\nlocal t\npthread_create t default w 0\nwhile 1\nend\nend\n",
        7,
        [
            b" t1 pthread_create default w 0 = 2\n",
            b" pause\n",
            b"\nstop limit\n",
        ],
    ),
];

/// Where the part stands in the text, at or after this place; the text's end where it doesn't.
fn place_of(text: &[u8], part: &[u8], from: usize) -> usize {
    for i in from..text.len() {
        if text[i..].starts_with(part) {
            return i;
        }
    }
    text.len()
}

#[test]
fn more_workers_come_to_the_stop(rt: HostRuntime) -> Result<(), Fail> {
    let alloc = rt.alloc();
    for (input, status, lines) in BY_MORE {
        for workers in 2..17u32 {
            let line = format!(in alloc; "run {workers}")?;
            let words = words_of(alloc, line.as_str())?;
            let mut source = GoodSource::new(Vec::from_slice(alloc, input)?);
            let mut sink = GoodSink::new(alloc);
            let Status(got) = top(
                &rt,
                alloc,
                words.as_slice(),
                &mut source,
                &mut sink,
                &NoGate,
            );
            assert_eq!(rt; got, status, "{workers}");
            let text = sink.as_slice();
            let first = format!(in alloc; "dcethr journal 1\nworkers {workers}\n")?;
            assert!(rt; text.starts_with(first.as_bytes()));
            let mut from = 0;
            for part in lines {
                from = place_of(text, part, from);
                assert!(rt; from < text.len(), "{workers}");
            }
        }
    }
    Ok(())
}

/// How much the source gives at a call, which of its calls fails, the same of the sink, and the status and what the sink
/// holds in the end.
const DEVICES: [(usize, u64, usize, u64, u8, &[u8]); 6] = [
    (1, NEVER, 1, NEVER, 0, SEVEN_JOURNAL),
    (4096, NEVER, 7, NEVER, 0, SEVEN_JOURNAL),
    (4096, 0, 4096, NEVER, 3, b""),
    (1, 9, 4096, NEVER, 3, b""),
    (4096, NEVER, 5, 1, 4, b"dceth"),
    (4096, NEVER, 4096, 0, 4, b""),
];

const NEVER: u64 = u64::MAX;

#[test]
fn devices_fail_and_move_little(rt: HostRuntime) -> Result<(), Fail> {
    let alloc = rt.alloc();
    let words = words_of(alloc, "run 1")?;
    for (gives, reading, takes, writing, status, text) in DEVICES {
        assert!(rt; gives > 0 && takes > 0);
        let input = Vec::from_slice(alloc, SEVEN)?;
        let mut source = MemSource::new(input, gives, vec![in alloc; reading]?);
        let mut sink = MemSink::new(alloc, takes, vec![in alloc; writing]?);
        let Status(got) = top(
            &rt,
            alloc,
            words.as_slice(),
            &mut source,
            &mut sink,
            &NoGate,
        );
        assert_eq!(rt; got, status);
        assert_eq!(rt; sink.as_slice(), text);
        // Nothing is read after a call that fails.
        assert!(rt; reading == NEVER || source.calls() == reading + 1);
    }
    Ok(())
}

#[test]
fn the_limit_on_bytes_is_exact(rt: HostRuntime) -> Result<(), Fail> {
    let alloc = rt.alloc();
    for command in ["run 1", "check"] {
        let words = words_of(alloc, command)?;
        for (count, text) in [
            (1048576, "refused F2 line 1\n"),
            (1048577, "refused too long\n"),
        ] {
            let mut source = GoodSource::new(vec![in alloc; b' '; count]?);
            let mut sink = GoodSink::new(alloc);
            let Status(got) = top(
                &rt,
                alloc,
                words.as_slice(),
                &mut source,
                &mut sink,
                &NoGate,
            );
            assert_eq!(rt; got, 2);
            assert_eq!(rt; sink.as_slice(), text.as_bytes());
        }
    }
    Ok(())
}

/// A text of repeated lines between others: before, the line, how often, after, and what `check` answers, where the empty text
/// says that the script is accepted.
const LIMITS: [(&[u8], &[u8], u32, &[u8], &[u8]); 10] = [
    // 20,000 lines and one more
    (
        b"dcethr 1\nroutine main a\n",
        b"say 1\n",
        19997,
        b"end\n",
        b"",
    ),
    (
        b"dcethr 1\nroutine main a\n",
        b"say 1\n",
        19998,
        b"end\n",
        b"refused F18 line 20001\n",
    ),
    // blank lines and comments count
    (b"dcethr 1\nroutine main a\n", b"\n", 19997, b"end\n", b""),
    (
        b"dcethr 1\nroutine main a\n",
        b"#\n",
        19998,
        b"end\n",
        b"refused F18 line 20001\n",
    ),
    (
        b"dcethr 1\nroutine main a\nend\n",
        b"\n",
        19998,
        b"",
        b"refused F18 line 20001\n",
    ),
    // the parameter is one of 16 locals
    (
        b"dcethr 1\nroutine main a\n",
        b"local b@\n",
        15,
        b"end\n",
        b"",
    ),
    (
        b"dcethr 1\nroutine main a\n",
        b"local b@\n",
        16,
        b"end\n",
        b"refused F18 line 18\n",
    ),
    // the routine is one of 1,000 declared names
    (
        b"dcethr 1\n",
        b"mutex m@\n",
        999,
        b"routine main a\nend\n",
        b"",
    ),
    (
        b"dcethr 1\n",
        b"mutex m@\n",
        1000,
        b"routine main a\nend\n",
        b"refused F18 line 1002\n",
    ),
    (
        b"dcethr 1\nroutine main a\nend\n",
        b"mutex m@\n",
        1000,
        b"",
        b"refused F18 line 1003\n",
    ),
];

/// The line with the number at each `@`.
fn add_numbered(alloc: Global, text: &mut Vec<u8>, line: &[u8], number: u32) -> Result<(), Fail> {
    let number = number.to_string(alloc)?;
    for byte in line {
        if *byte == b'@' {
            text.extend_from_slice(number.as_bytes())?;
        } else {
            text.push(*byte)?;
        }
    }
    Ok(())
}

/// The text of so many of these lines between others.
fn repeated(
    alloc: Global,
    before: &[u8],
    line: &[u8],
    count: u32,
    after: &[u8],
) -> Result<Vec<u8>, Fail> {
    let mut text = Vec::from_slice(alloc, before)?;
    for number in 0..count {
        add_numbered(alloc, &mut text, line, number)?;
    }
    text.extend_from_slice(after)?;
    Ok(text)
}

#[test]
fn the_limits_of_a_script_are_exact(rt: HostRuntime) -> Result<(), Fail> {
    let alloc = rt.alloc();
    let words = words_of(alloc, "check")?;
    for (before, line, count, after, refusal) in LIMITS {
        let has_words = matches!(line.first(), Some(byte) if *byte != b'\n' && *byte != b'#');
        let canonical = repeated(
            alloc,
            before,
            line,
            if has_words { count } else { 0 },
            after,
        )?;
        let mut source = GoodSource::new(repeated(alloc, before, line, count, after)?);
        let mut sink = GoodSink::new(alloc);
        let Status(got) = top(
            &rt,
            alloc,
            words.as_slice(),
            &mut source,
            &mut sink,
            &NoGate,
        );
        if refusal.is_empty() {
            assert_eq!(rt; got, 0, "{count}");
            assert_eq!(rt; sink.as_slice(), canonical.as_slice(), "{count}");
        } else {
            assert_eq!(rt; got, 2, "{count}");
            assert_eq!(rt; sink.as_slice(), refusal, "{count}");
        }
    }
    Ok(())
}

/// Blocks in one another: 31 in a routine are accepted, and 32 are not.
#[test]
fn the_limit_on_depth_is_exact(rt: HostRuntime) -> Result<(), Fail> {
    let alloc = rt.alloc();
    let words = words_of(alloc, "check")?;
    for (depth, status) in [(31u32, 0), (32, 2)] {
        let mut script = Vec::from_slice(alloc, b"dcethr 1\nroutine main a\n")?;
        for _ in 0..depth {
            script.extend_from_slice(b"while 1\n")?;
        }
        for _ in 0..depth {
            script.extend_from_slice(b"end\n")?;
        }
        script.extend_from_slice(b"end\n")?;
        let expected = Vec::from_slice(alloc, script.as_slice())?;
        let mut source = GoodSource::new(script);
        let mut sink = GoodSink::new(alloc);
        let Status(got) = top(
            &rt,
            alloc,
            words.as_slice(),
            &mut source,
            &mut sink,
            &NoGate,
        );
        assert_eq!(rt; got, status);
        if status == 0 {
            assert_eq!(rt; sink.as_slice(), expected.as_slice());
        } else {
            assert_eq!(rt; sink.as_slice(), b"refused F18 line 34\n".as_slice());
        }
    }
    Ok(())
}

/// A script of 20,000 lines runs.
#[test]
fn the_longest_script_runs(rt: HostRuntime) -> Result<(), Fail> {
    let alloc = rt.alloc();
    let words = words_of(alloc, "run 1")?;
    let mut script = Vec::from_slice(alloc, b"dcethr 1\nroutine main a\n")?;
    for _ in 0..19997 {
        script.extend_from_slice(b"say 1\n")?;
    }
    script.extend_from_slice(b"end\n")?;
    let mut source = GoodSource::new(script);
    let mut sink = GoodSink::new(alloc);
    let Status(got) = top(
        &rt,
        alloc,
        words.as_slice(),
        &mut source,
        &mut sink,
        &NoGate,
    );
    assert_eq!(rt; got, 0);
    Ok(())
}

/// At most two reads more than the limit on bytes, also of a source that gives one byte at a read.
#[test]
fn reads_are_counted(rt: HostRuntime) -> Result<(), Fail> {
    let alloc = rt.alloc();
    let mut source = MemSource::new(Vec::from_slice(alloc, b"12345")?, 1, Vec::new(alloc));
    match read_all(alloc, &mut source, 5) {
        Ok(bytes) => assert_eq!(rt; bytes.as_slice(), b"12345".as_slice()),
        Err(_) => assert!(rt; false, "five bytes are within the limit"),
    }
    assert_eq!(rt; source.calls(), 6);
    let mut source = MemSource::new(Vec::from_slice(alloc, b"1234567")?, 1, Vec::new(alloc));
    let answer = read_all(alloc, &mut source, 5);
    assert!(rt; matches!(answer, Err(WireFault::TooLong)));
    assert_eq!(rt; source.calls(), 6);
    Ok(())
}

/// Readers and writers of the standard library, of whose bytes no clause speaks.
#[test]
fn standard_devices_move_bytes(rt: HostRuntime) -> Result<(), Fail> {
    let alloc = rt.alloc();
    let mut source = StdSource::new(SEVEN);
    match read_all(alloc, &mut source, 100) {
        Ok(bytes) => assert_eq!(rt; bytes.as_slice(), SEVEN),
        Err(_) => assert!(rt; false, "the reader has no fault"),
    }
    let mut written = Vec::new(alloc);
    let mut sink = StdSink::new(&mut written);
    assert!(rt; write_all(&mut sink, SEVEN).is_ok());
    assert_eq!(rt; written.as_slice(), SEVEN);
    Ok(())
}
