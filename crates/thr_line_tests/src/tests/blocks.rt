//! Which faults lines have by their blocks, and a tree of lines.

use crate::tests::table::{Cases, first_wrong, is_wanted, lines_of, parted, script_text};
use std::alloc::{AllocError, Global};
use std::test::Fail;
use thr_blocks::check::check_blocks;
use thr_text::fault::ParseFault;

/// The first faults of lines below a first one. A line that begins with `#` says what the ones below it are.
const LINES: &str = "\
# lines that stand where they may
good|
good|limit 1;routine main a;local b;local b;say 1;end;mutex m;routine main a;end
good|routine main a;if 1;say 1;else;while 1;return 1;end;end;end
good|routine main a;try;catch cancel_e;reraise;catch cancel_e;say exc_get_status this;catch_all;reraise;endtry;return 1;end
good|routine main a;try;finally;endtry;end
good|routine main a;if 1;try;catch_all;endtry;else;return 1;end;end
# the caught exception, in a block inside a body that catches and in a `finally` inside one
good|routine main a;try;catch cancel_e;if 1;reraise;end;endtry;end
good|routine main a;try;catch cancel_e;try;finally;reraise;say exc_get_status this;endtry;say exc_get_status this;endtry;end
# a declaration or a routine in a routine, and blocks left open at the end
F8 line 3|routine main a;limit 1;end
F8 line 4|routine main a;while 1;mutex m
F8 line 3|routine main a;routine main a;end
F8 line 3|routine main a
F8 line 5|routine main a;while 1;end
F8 line 5|routine main a;try;catch_all
# lines outside every routine
F9 line 2|end
F9 line 2|local b
F9 line 3|limit 1;say 1;routine main a
F9 line 4|routine main a;end;end
F9 line 2|endtry
F9 line 2|catch cancel_e
# locals after a statement or in a block
F9 line 4|routine main a;say 1;local b
F9 line 4|routine main a;if 1;local b
F9 line 5|routine main a;while 1;end;local b
F9 line 6|routine main a;try;finally;endtry;local b
# `else` without its `if`, or a second time
F9 line 3|routine main a;else
F9 line 5|routine main a;if 1;else;else
F9 line 4|routine main a;while 1;else
F9 line 4|routine main a;try;else
# `end` in the place of `endtry`, and the other way round
F9 line 4|routine main a;try;end
F9 line 5|routine main a;try;catch cancel_e;end
F9 line 5|routine main a;try;finally;end
F9 line 4|routine main a;if 1;endtry
F9 line 3|routine main a;endtry
# clauses outside their try
F9 line 3|routine main a;catch cancel_e
F9 line 5|routine main a;try;if 1;catch_all
F9 line 4|routine main a;if 1;finally
# clauses after `catch_all`
F10 line 5|routine main a;try;catch_all;catch cancel_e
F10 line 6|routine main a;try;catch_all;say 1;catch_all
# `finally` beside clauses
F11 line 5|routine main a;try;catch cancel_e;finally
F11 line 5|routine main a;try;catch_all;finally
F11 line 5|routine main a;try;finally;catch cancel_e
F11 line 5|routine main a;try;finally;catch_all
F11 line 5|routine main a;try;finally;finally
# a try without a clause
F12 line 4|routine main a;try;endtry
F12 line 6|routine main a;try;if 1;end;endtry
# `return` in a try
F13 line 4|routine main a;try;return 1
F13 line 5|routine main a;try;catch cancel_e;return 1
F13 line 5|routine main a;try;finally;return 1
F13 line 6|routine main a;try;if 1;while 1;return 1
F13 line 7|routine main a;try;try;finally;endtry;return 1
# the caught exception outside every body that catches
F14 line 3|routine main a;reraise
F14 line 3|routine main a;say exc_get_status this
F14 line 4|routine main a;try;reraise
F14 line 5|routine main a;try;finally;reraise
F14 line 5|routine main a;try;finally;say exc_get_status this
F14 line 6|routine main a;try;catch cancel_e;endtry;reraise
F14 line 7|routine main a;try;catch cancel_e;endtry;try;say exc_get_status this
# two faults in one line: the lesser
F9 line 2|reraise
F9 line 2|say exc_get_status this
F9 line 2|return exc_get_status this
F13 line 4|routine main a;try;return exc_get_status this
# `return this` where the exception is caught
F13 line 5|routine main a;try;catch cancel_e;return exc_get_status this
# faults in two lines: the first, be it the lesser or the greater
F8 line 3|routine main a;limit 1;reraise
F14 line 3|routine main a;reraise;limit 1
F9 line 3|routine main a;else;limit 1
F13 line 4|routine main a;try;return 1;end
F9 line 4|routine main a;try;end;return 1
F10 line 5|routine main a;try;catch_all;catch cancel_e;finally
F11 line 5|routine main a;try;finally;catch cancel_e;limit 1
F12 line 4|routine main a;try;endtry;else
F12 line 4|routine main a;try;endtry;reraise
F10 line 5|routine main a;try;catch_all;catch cancel_e;else
F11 line 5|routine main a;try;finally;finally;reraise
F13 line 4|routine main a;try;return 1;reraise
F13 line 6|routine main a;try;catch cancel_e;if 1;return 1
# lines without words count, and so do those at the end
good|routine main a;;try;catch_all # last;;say exc_get_status this;endtry;end;;
F8 line 11|routine main a;;try;catch_all # last;;say exc_get_status this;endtry;;;
F9 line 7|;;;;;say exc_get_status this;endtry;end;;";

fn checked(alloc: Global, text: &[u8]) -> Result<(), ParseFault> {
    let reading = lines_of(alloc, text)?;
    check_blocks(alloc, reading.lines.as_slice(), reading.end)
}

struct BlockCases;

impl Cases for BlockCases {
    fn is_right(alloc: Global, row: &str) -> Result<bool, AllocError> {
        let (wanted, lines) = parted(row);
        let text = script_text(alloc, lines)?;
        is_wanted(alloc, &checked(alloc, text.as_slice()), wanted)
    }
}

#[test]
fn first_faults_of_lines(rt: HostRuntime) -> Result<(), Fail> {
    assert_eq!(rt; first_wrong::<BlockCases>(rt.alloc(), LINES)?, None);
    Ok(())
}

/// Adds a line so often.
fn add_often(text: &mut Vec<u8>, line: &[u8], times: u32) -> Result<(), AllocError> {
    for _ in 0..times {
        text.extend_from_slice(line)?;
    }
    Ok(())
}

/// A routine with so many blocks in one another.
fn deep_text(alloc: Global, depth: u32) -> Result<Vec<u8>, AllocError> {
    let mut text = script_text(alloc, "routine main a;try;catch cancel_e")?;
    add_often(&mut text, b"\nwhile 1", depth)?;
    add_often(&mut text, b"\nreraise\nsay exc_get_status this", depth / 2)?;
    add_often(&mut text, b"\nend", depth)?;
    text.extend_from_slice(b"\nendtry\nreturn 1\nend")?;
    Ok(text)
}

#[test]
fn deep_blocks(rt: HostRuntime) -> Result<(), Fail> {
    let alloc = rt.alloc();
    let mut text = deep_text(alloc, 20_000)?;
    assert!(rt; is_wanted(alloc, &checked(alloc, text.as_slice()), "good")?);
    text.extend_from_slice(b"\nend")?;
    assert!(rt; is_wanted(alloc, &checked(alloc, text.as_slice()), "F9 line 60008")?);
    Ok(())
}
