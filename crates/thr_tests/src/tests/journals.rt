//! Tests of `report` and `verify`: the worked reports and verdicts, what a text is refused for, and a run whose journal is read again.

use super::top::words_of;
use std::alloc::{AllocError, Global};
use std::sync::Wait;
use std::test::Fail;
use std::thread::Threads;
use thr_top::command::Status;
use thr_top::top::top;
use thr_wire::good::{GoodSink, GoodSource};
use thr_workers::gate::NoGate;

/// Cases, one a line: the status, the words, what is written and what is read, between bars. A semicolon stands for the end of a line.
/// A line that begins with `#` and a space says what the ones below it are.
const CASES: &str = "\
# a cancelled wait whose mutex the one that cancels holds, and the shortest journal
0|report|lines 26;threads 2;ended 2;calls 11;blocked 2;raised 0;delivered 1;caught 0;mutex m 3;stop finished;|dcethr journal 1;workers 1;script 24;dcethr 1;mutex m;cond c;shared t 0;routine waiter a;pthread_mutex_lock m;try;pthread_cond_wait c m;finally;pthread_mutex_unlock m;endtry;end;routine main a;local v;pthread_mutex_init m default;pthread_cond_init c;pthread_create t default waiter 0;pthread_yield;pthread_mutex_lock m;pthread_cancel t;pthread_mutex_unlock m;pthread_join t v;say v;end;history;1 p0 run t1;2 t1 pthread_mutex_init m default = ok;3 t1 pthread_cond_init c = ok;4 t1 pthread_create default waiter 0 = 2;5 t1 pthread_yield = ok;6 p0 run t2;7 t2 pthread_mutex_lock m = ok;8 t2 try 1 7;9 t2 pthread_cond_wait c m = blocks;10 p0 run t1;11 t1 pthread_mutex_lock m = ok;12 t1 pthread_cancel 2 = wakes;13 t1 pthread_mutex_unlock m = ok;14 t2 gift m;15 t1 pthread_join 2 = blocks;16 p0 run t2;17 t2 deliver 1 8;18 t2 finally 1 1;19 t2 pthread_mutex_unlock m = ok;20 t2 endfin 1;21 t2 bottom 1 -1;22 t2 end -1;23 p0 run t1;24 t1 ret = -1;25 t1 say -1;26 t1 end 0;stop finished;
0|report|lines 3;threads 1;ended 1;calls 0;blocked 0;raised 0;delivered 0;caught 0;stop finished;|dcethr journal 1;workers 1;script 4;dcethr 1;routine main a;say 7;end;history;1 p0 run t1;2 t1 say 7;3 t1 end 0;stop finished;
# journals of histories that are none of the machine
0|report|lines 3;threads 1;ended 1;calls 0;blocked 0;raised 0;delivered 0;caught 0;stop finished;|dcethr journal 1;workers 1;script 4;dcethr 1;routine main a;say 7;end;history;1 p0 run t1;2 t1 end 0;3 t1 say 7;stop finished;
0|report|lines 3;threads 1;ended 1;calls 0;blocked 0;raised 0;delivered 0;caught 0;stop limit;|dcethr journal 1;workers 1;script 4;dcethr 1;routine main a;say 7;end;history;1 p0 run t1;2 t1 say 7;3 t1 end 0;stop limit;
0|report|lines 0;threads 1;ended 0;calls 0;blocked 0;raised 0;delivered 0;caught 0;stop memory;|dcethr journal 1;workers 1;script 4;dcethr 1;routine main a;say 7;end;history;stop memory;
# the first two lines
2|report|refused J1 line 1;|
2|report|refused J1 line 2;|dcethr journal 1;
2|report|refused J1 line 2;|dcethr journal 1;workers 17;script 4;dcethr 1;routine main a;say 7;end;history;1 p0 run t1;2 t1 say 7;3 t1 end 0;stop finished;
# the script
2|report|refused J2 line 3;|dcethr journal 1;workers 1;script 4;
2|report|refused J3 line 4;|dcethr journal 1;workers 1;script 4;dcethr 1;routine main a;say  7;end;history;1 p0 run t1;2 t1 say 7;3 t1 end 0;stop finished;
2|report|refused J3 line 6;|dcethr journal 1;workers 1;script 4;dcethr 1;routine main a;say x;end;history;1 p0 run t1;2 t1 say 7;3 t1 end 0;stop finished;
# the history
2|report|refused J4 line 12;|dcethr journal 1;workers 1;script 4;dcethr 1;routine main a;say 7;end;history;1 p0 run t1;2 t1 say 7;3 t1 end 0;stop finishe
2|report|refused J4 line 10;|dcethr journal 1;workers 1;script 4;dcethr 1;routine main a;say 7;end;history;1 p0 run t1;2 t4294967296 say 7;3 t1 end 0;stop finished;
2|report|refused J5 line 9;|dcethr journal 1;workers 1;script 4;dcethr 1;routine main a;say 7;end;history;2 p0 run t1;2 t1 say 7;3 t1 end 0;stop finished;
2|report|refused J6 line 13;|dcethr journal 1;workers 1;script 4;dcethr 1;routine main a;say 7;end;history;1 p0 run t1;2 t1 say 7;3 t1 end 0;stop finished;x;
2|report|refused J7 line 9;|dcethr journal 1;workers 1;script 4;dcethr 1;routine main a;say 7;end;history;
2|report|refused J7 line 12;|dcethr journal 1;workers 1;script 4;dcethr 1;routine main a;say 7;end;history;1 p0 run t1;2 t1 say 7;3 t1 end 0;
# legal histories, and one that want of memory ended
0|verify|legal;|dcethr journal 1;workers 1;script 4;dcethr 1;routine main a;say 7;end;history;1 p0 run t1;2 t1 say 7;3 t1 end 0;stop finished;
0|verify|legal;|dcethr journal 1;workers 1;script 24;dcethr 1;mutex m;cond c;shared t 0;routine waiter a;pthread_mutex_lock m;try;pthread_cond_wait c m;finally;pthread_mutex_unlock m;endtry;end;routine main a;local v;pthread_mutex_init m default;pthread_cond_init c;pthread_create t default waiter 0;pthread_yield;pthread_mutex_lock m;pthread_cancel t;pthread_mutex_unlock m;pthread_join t v;say v;end;history;1 p0 run t1;2 t1 pthread_mutex_init m default = ok;3 t1 pthread_cond_init c = ok;4 t1 pthread_create default waiter 0 = 2;5 t1 pthread_yield = ok;6 p0 run t2;7 t2 pthread_mutex_lock m = ok;8 t2 try 1 7;9 t2 pthread_cond_wait c m = blocks;10 p0 run t1;11 t1 pthread_mutex_lock m = ok;12 t1 pthread_cancel 2 = wakes;13 t1 pthread_mutex_unlock m = ok;14 t2 gift m;15 t1 pthread_join 2 = blocks;16 p0 run t2;17 t2 deliver 1 8;18 t2 finally 1 1;19 t2 pthread_mutex_unlock m = ok;20 t2 endfin 1;21 t2 bottom 1 -1;22 t2 end -1;23 p0 run t1;24 t1 ret = -1;25 t1 say -1;26 t1 end 0;stop finished;
0|verify|legal;|dcethr journal 1;workers 1;script 4;dcethr 1;routine main a;say 7;end;history;1 p0 run t1;stop memory;
0|verify|legal;|dcethr journal 1;workers 1;script 4;dcethr 1;routine main a;say 7;end;history;stop memory;
# histories that are none of the machine
8|verify|illegal line 10;has 2 t1 end 0;should 2 t1 say 7;|dcethr journal 1;workers 1;script 4;dcethr 1;routine main a;say 7;end;history;1 p0 run t1;2 t1 end 0;3 t1 say 7;stop finished;
8|verify|illegal line 9;has 1 t1 say 7;should nothing;|dcethr journal 1;workers 1;script 4;dcethr 1;routine main a;say 7;end;history;1 t1 say 7;2 t1 say 7;3 t1 end 0;stop finished;
8|verify|illegal line 12;has stop limit;should stop finished;|dcethr journal 1;workers 1;script 4;dcethr 1;routine main a;say 7;end;history;1 p0 run t1;2 t1 say 7;3 t1 end 0;stop limit;
8|verify|illegal line 12;has stop memory;should stop finished;|dcethr journal 1;workers 1;script 4;dcethr 1;routine main a;say 7;end;history;1 p0 run t1;2 t1 say 7;3 t1 end 0;stop memory;
# the lines of events, in a longer journal
8|verify|illegal line 11;has stop limit;should nothing;|dcethr journal 1;workers 1;script 4;dcethr 1;routine main a;say 7;end;history;1 p0 run t1;2 t1 say 7;stop limit;
8|verify|illegal line 44;has 11 p0 run t2;should 11 p0 run t1;|dcethr journal 1;workers 1;script 29;dcethr 1;mutex m;cond c;shared woken 0;routine waiter a;pthread_mutex_lock m;try;while == woken 0;pthread_cond_wait c m;end;finally;pthread_mutex_unlock m;endtry;end;routine main a;local t;local v;pthread_mutex_init m default;pthread_cond_init c;pthread_create t default waiter 0;pthread_yield;pthread_cancel t;try;pthread_join t v;say v;catch cancel_e;say -1;endtry;end;history;1 p0 run t1;2 t1 pthread_mutex_init m default = ok;3 t1 pthread_cond_init c = ok;4 t1 pthread_create default waiter 0 = 2;5 t1 pthread_yield = ok;6 p0 run t2;7 t2 pthread_mutex_lock m = ok;8 t2 try 1 7;9 t2 while 8 1;10 t2 pthread_cond_wait c m = blocks;11 p0 run t2;12 t1 pthread_cancel 2 = wakes;13 t2 gift m;14 t1 try 1 23;15 t1 pthread_join 2 = blocks;16 p0 run t2;17 t2 deliver 1 9;18 t2 finally 1 1;19 t2 pthread_mutex_unlock m = ok;20 t2 endfin 1;21 t2 bottom 1 -1;22 t2 end -1;23 p0 run t1;24 t1 ret = -1;25 t1 say -1;26 t1 endtry 1;27 t1 end 0;stop finished;
8|verify|illegal line 44;has 11 t2 say 1;should nothing;|dcethr journal 1;workers 1;script 29;dcethr 1;mutex m;cond c;shared woken 0;routine waiter a;pthread_mutex_lock m;try;while == woken 0;pthread_cond_wait c m;end;finally;pthread_mutex_unlock m;endtry;end;routine main a;local t;local v;pthread_mutex_init m default;pthread_cond_init c;pthread_create t default waiter 0;pthread_yield;pthread_cancel t;try;pthread_join t v;say v;catch cancel_e;say -1;endtry;end;history;1 p0 run t1;2 t1 pthread_mutex_init m default = ok;3 t1 pthread_cond_init c = ok;4 t1 pthread_create default waiter 0 = 2;5 t1 pthread_yield = ok;6 p0 run t2;7 t2 pthread_mutex_lock m = ok;8 t2 try 1 7;9 t2 while 8 1;10 t2 pthread_cond_wait c m = blocks;11 t2 say 1;12 t1 pthread_cancel 2 = wakes;13 t2 gift m;14 t1 try 1 23;15 t1 pthread_join 2 = blocks;16 p0 run t2;17 t2 deliver 1 9;18 t2 finally 1 1;19 t2 pthread_mutex_unlock m = ok;20 t2 endfin 1;21 t2 bottom 1 -1;22 t2 end -1;23 p0 run t1;24 t1 ret = -1;25 t1 say -1;26 t1 endtry 1;27 t1 end 0;stop finished;
8|verify|illegal line 46;has 13 t1 say 1;should 13 t2 gift m;|dcethr journal 1;workers 1;script 29;dcethr 1;mutex m;cond c;shared woken 0;routine waiter a;pthread_mutex_lock m;try;while == woken 0;pthread_cond_wait c m;end;finally;pthread_mutex_unlock m;endtry;end;routine main a;local t;local v;pthread_mutex_init m default;pthread_cond_init c;pthread_create t default waiter 0;pthread_yield;pthread_cancel t;try;pthread_join t v;say v;catch cancel_e;say -1;endtry;end;history;1 p0 run t1;2 t1 pthread_mutex_init m default = ok;3 t1 pthread_cond_init c = ok;4 t1 pthread_create default waiter 0 = 2;5 t1 pthread_yield = ok;6 p0 run t2;7 t2 pthread_mutex_lock m = ok;8 t2 try 1 7;9 t2 while 8 1;10 t2 pthread_cond_wait c m = blocks;11 p0 run t1;12 t1 pthread_cancel 2 = wakes;13 t1 say 1;14 t1 try 1 23;15 t1 pthread_join 2 = blocks;16 p0 run t2;17 t2 deliver 1 9;18 t2 finally 1 1;19 t2 pthread_mutex_unlock m = ok;20 t2 endfin 1;21 t2 bottom 1 -1;22 t2 end -1;23 p0 run t1;24 t1 ret = -1;25 t1 say -1;26 t1 endtry 1;27 t1 end 0;stop finished;
8|verify|illegal line 46;has stop memory;should 13 t2 gift m;|dcethr journal 1;workers 1;script 29;dcethr 1;mutex m;cond c;shared woken 0;routine waiter a;pthread_mutex_lock m;try;while == woken 0;pthread_cond_wait c m;end;finally;pthread_mutex_unlock m;endtry;end;routine main a;local t;local v;pthread_mutex_init m default;pthread_cond_init c;pthread_create t default waiter 0;pthread_yield;pthread_cancel t;try;pthread_join t v;say v;catch cancel_e;say -1;endtry;end;history;1 p0 run t1;2 t1 pthread_mutex_init m default = ok;3 t1 pthread_cond_init c = ok;4 t1 pthread_create default waiter 0 = 2;5 t1 pthread_yield = ok;6 p0 run t2;7 t2 pthread_mutex_lock m = ok;8 t2 try 1 7;9 t2 while 8 1;10 t2 pthread_cond_wait c m = blocks;11 p0 run t1;12 t1 pthread_cancel 2 = wakes;stop memory;
# texts that are no journals, to `verify`
2|verify|refused J1 line 1;|
2|verify|refused J1 line 2;|dcethr journal 1;
2|verify|refused J1 line 2;|dcethr journal 1;workers 17;script 4;dcethr 1;routine main a;say 7;end;history;1 p0 run t1;2 t1 say 7;3 t1 end 0;stop finished;
2|verify|refused J2 line 3;|dcethr journal 1;workers 1;script 4;
2|verify|refused J3 line 4;|dcethr journal 1;workers 1;script 4;dcethr 1;routine main a;say  7;end;history;1 p0 run t1;2 t1 say 7;3 t1 end 0;stop finished;
2|verify|refused J3 line 6;|dcethr journal 1;workers 1;script 4;dcethr 1;routine main a;say x;end;history;1 p0 run t1;2 t1 say 7;3 t1 end 0;stop finished;
2|verify|refused J4 line 12;|dcethr journal 1;workers 1;script 4;dcethr 1;routine main a;say 7;end;history;1 p0 run t1;2 t1 say 7;3 t1 end 0;stop finishe
2|verify|refused J4 line 10;|dcethr journal 1;workers 1;script 4;dcethr 1;routine main a;say 7;end;history;1 p0 run t1;2 t4294967296 say 7;3 t1 end 0;stop finished;
2|verify|refused J5 line 9;|dcethr journal 1;workers 1;script 4;dcethr 1;routine main a;say 7;end;history;2 p0 run t1;2 t1 say 7;3 t1 end 0;stop finished;
2|verify|refused J6 line 13;|dcethr journal 1;workers 1;script 4;dcethr 1;routine main a;say 7;end;history;1 p0 run t1;2 t1 say 7;3 t1 end 0;stop finished;x;
2|verify|refused J7 line 9;|dcethr journal 1;workers 1;script 4;dcethr 1;routine main a;say 7;end;history;
2|verify|refused J7 line 12;|dcethr journal 1;workers 1;script 4;dcethr 1;routine main a;say 7;end;history;1 p0 run t1;2 t1 say 7;3 t1 end 0;";

/// Two threads fill a buffer of two places and two empty it.
const BUFFER: &str =
    "dcethr 1;mutex m;cond ne;cond nf;shared n 0;shared s0 0;shared s1 0;shared total 0;routine producer a;local i;set i 1;while <= i 5;pthread_mutex_lock m;try;while == n 2;pthread_cond_wait nf m;end;if == n 0;set s0 i;else;set s1 i;end;set n + n 1;pthread_cond_signal ne;finally;pthread_mutex_unlock m;endtry;set i + i 1;end;end;routine consumer a;local i;local v;set i 1;while <= i 5;pthread_mutex_lock m;try;while == n 0;pthread_cond_wait ne m;end;set n - n 1;if == n 0;set v s0;else;set v s1;end;set total + total v;pthread_cond_signal nf;finally;pthread_mutex_unlock m;endtry;set i + i 1;end;end;routine main a;local p;local q;local r;local s;local v;pthread_mutex_init m default;pthread_cond_init ne;pthread_cond_init nf;pthread_create p default producer 0;pthread_create q default producer 0;pthread_create r default consumer 0;pthread_create s default consumer 0;pthread_join p v;pthread_detach p;pthread_join q v;pthread_detach q;pthread_join r v;pthread_detach r;pthread_join s v;pthread_detach s;say total;end;";

/// What stands before the first bar, and what behind it.
fn parted(row: &str) -> (&str, &str) {
    row.split_once('|').unwrap_or((row, ""))
}

/// The text of these lines.
fn text_of(alloc: Global, lines: &str) -> Result<Vec<u8>, AllocError> {
    let mut text = Vec::from_slice(alloc, lines.as_bytes())?;
    for byte in text.as_mut_slice() {
        if *byte == b';' {
            *byte = b'\n';
        }
    }
    Ok(text)
}

/// What the words give on an input.
fn answer_of<R: Threads + Wait + Sync>(
    rt: &R,
    alloc: Global,
    words: &str,
    input: Vec<u8>,
) -> Result<(u8, Vec<u8>), Fail> {
    let words = words_of(alloc, words)?;
    let mut source = GoodSource::new(input);
    let mut sink = GoodSink::new(alloc);
    let Status(status) = top(rt, alloc, words.as_slice(), &mut source, &mut sink, &NoGate);
    Ok((status, Vec::from_slice(alloc, sink.as_slice())?))
}

/// Whether a case comes out as its line says.
fn is_right<R: Threads + Wait + Sync>(rt: &R, alloc: Global, row: &str) -> Result<bool, Fail> {
    let (status, rest) = parted(row);
    let (words, rest) = parted(rest);
    let (written, read) = parted(rest);
    let (got, text) = answer_of(rt, alloc, words, text_of(alloc, read)?)?;
    let is_status = got.to_string(alloc)?.as_str() == status;
    Ok(is_status && text.as_slice() == text_of(alloc, written)?.as_slice())
}

#[test]
fn journals_are_reported_on_and_judged(rt: HostRuntime) -> Result<(), Fail> {
    for row in CASES.split('\n') {
        if !row.starts_with("# ") {
            assert!(rt; is_right(&rt, rt.alloc(), row)?, "{row}");
        }
    }
    Ok(())
}

/// The journal of a run by four workers is reported on, and its history is legal.
#[test]
fn what_a_run_writes_is_read_again(rt: HostRuntime) -> Result<(), Fail> {
    let script = text_of(rt.alloc(), BUFFER)?;
    let (ran, journal) = answer_of(&rt, rt.alloc(), "run 4", script)?;
    assert_eq!(rt; ran, 0);
    let again = Vec::from_slice(rt.alloc(), journal.as_slice())?;
    let (told, text) = answer_of(&rt, rt.alloc(), "report", journal)?;
    assert_eq!(rt; told, 0);
    assert!(rt; text.as_slice().ends_with(b"\nstop finished\n"));
    let (judged, verdict) = answer_of(&rt, rt.alloc(), "verify", again)?;
    assert_eq!(rt; judged, 0);
    assert_eq!(rt; verdict.as_slice(), b"legal\n".as_slice());
    Ok(())
}
