//! Which faults texts have by names and limits, and the table of the names of a text.

use crate::tests::table::{
    Cases, add_lines, first_wrong, is_wanted, lines_of, number, parted, script_text,
};
use std::alloc::{AllocError, Global};
use std::test::Fail;
use thr_lexer::lex::lex_line;
use thr_naming::{Table, judge_lines};
use thr_text::fault::ParseFault;
use thr_text::object::Object;
use thr_text::word::Word;
use thr_values::name::Name;
use thr_values::number::NameId;

/// The first faults of lines below a first one: lines, then others so often, with the number of the time, from 0 on, for each `@`, and
/// last ones. A line that begins with `#` says what the ones below it are.
const LINES: &str = "\
# F15
F15 line 5|mutex m;routine main p;end;key m
F15 line 2|mutex cancel_e;routine main p;end
F15 line 4|routine main p;end;routine main q;end
F15 line 2|routine main m;end;mutex m
F15 line 2|routine main main;end
F15 line 3|routine main p;local p;end
F15 line 5|routine main p;local a;local b;local a;end
F15 line 3|routine main p;local m;end;mutex m
good|routine main p;local a;end;routine other a;local p;end
F15 line 3|interface exc;interface exc;routine main p;end
F15 line 4|limit 1;interface exc;limit 1;routine main p;end
F15 line 6|routine main p;set x 1;end;shared x 1;mutex x
# F16
F16 line 3|routine main p;say x;end
good|routine main p;say x;end;shared x 1
F16 line 3|routine main p;set m + p nothing;end;mutex m
F16 line 6|routine main p;local a;end;routine other q;say a;end
good|routine main p;raise cancel_e;end
F16 line 3|routine main p;say exc_get_status e;end
F16 line 3|routine main p;pthread_create p default none_such 0;end
# F17
F17 line 4|mutex m;routine main p;set p m;end
good|shared s 0;routine main p;set s + self s;end
F17 line 4|shared s 0;routine main p;call main 1 s;end
good|routine main p;call main 1 p;end
F17 line 3|routine main p;pthread_mutex_lock p;end
F17 line 4|cond c;routine main p;pthread_mutex_lock c;end
good|status e 7;routine main p;say exc_matches this e;end
F17 line 4|status e 7;routine main p;say e;end
# F18: numbers
F18 line 2|limit 0;routine main p;end
F18 line 2|limit -1;routine main p;end
good|limit 1;routine main p;end
good|limit 1000000;routine main p;end
F18 line 2|limit 1000001;routine main p;end
F18 line 2|pipe i 0;routine main p;end
good|pipe i 1;routine main p;end
good|pipe i 4096;routine main p;end
F18 line 2|pipe i 4097;routine main p;end
# F15 before F18
F15 line 3|limit 1;limit 0;routine main p;end
# F18: the routine main
F18 line 4|routine other p;end
F18 line 5|mutex main;routine other p;end
# F18: declared names, locals, depth
good||mutex m@;|999|routine main p;end
F18 line 1002||mutex m@;|1000|routine main p;end
good|routine main p;|local v@;|15|say v14;end
F18 line 18|routine main p;|local v@;|16|say v14;end
F16 line 34|routine main p|;if 1|31|;say nothing
F18 line 34|routine main p|;while 1|32|;say nothing
good|routine main p|;try;endtry|40|;say p;end
# F18: lines
good|routine main p;end|; |19997|
F18 line 20001|routine main p;end|; |19998|
F18 line 20001||; |19998|
F18 line 20001|routine other p;end|; |19997|
F16 line 3|routine main p;say x;end|; |30000|
F16 line 20001||;|19998|routine main p;say x;end
F18 line 20001||;|19998|routine main p;limit 0;end
F18 line 20001||;|19999|routine main p;say x;end";

/// The table of the names of a text that has no fault.
fn table_of(alloc: Global, text: &[u8]) -> Result<Table, ParseFault> {
    let reading = lines_of(alloc, text)?;
    judge_lines(alloc, reading.lines.as_slice(), reading.end)
}

fn judged(alloc: Global, text: &[u8]) -> Result<(), ParseFault> {
    let _table = table_of(alloc, text)?;
    Ok(())
}

/// Adds the lines of a case that are repeated, and its last ones.
fn add_repeated(alloc: Global, text: &mut Vec<u8>, repeated: &str) -> Result<(), AllocError> {
    let (each, rest) = parted(repeated);
    let (times, after) = parted(rest);
    for time in 0..number(times) {
        add_lines(alloc, text, each, time)?;
    }
    add_lines(alloc, text, after, 0)
}

struct NameCases;

impl Cases for NameCases {
    fn is_right(alloc: Global, row: &str) -> Result<bool, AllocError> {
        let (wanted, lines) = parted(row);
        let (before, repeated) = parted(lines);
        let mut text = Vec::from_slice(alloc, b"dcethr 1\n")?;
        add_lines(alloc, &mut text, before, 0)?;
        add_repeated(alloc, &mut text, repeated)?;
        is_wanted(alloc, &judged(alloc, text.as_slice()), wanted)
    }
}

#[test]
fn faults_of_names_and_limits(rt: HostRuntime) -> Result<(), Fail> {
    assert_eq!(rt; first_wrong::<NameCases>(rt.alloc(), LINES)?, None);
    Ok(())
}

/// Names, the number of each and what it stands for.
const NAMES: &str = "\
cancel_e|0|exception
stackovf_e|9|exception
c|10|condition
main|11|routine
m|12|mutex
p|none|nothing
a|none|nothing
other|none|nothing";

fn kind_name(kind: Option<Object>) -> &'static str {
    match kind {
        Some(Object::Exception) => "exception",
        Some(Object::Cond) => "condition",
        Some(Object::Routine) => "routine",
        Some(Object::Mutex) => "mutex",
        Some(_) => "another",
        None => "nothing",
    }
}

fn told_number(alloc: Global, id: Option<NameId>) -> Result<String, AllocError> {
    match id {
        Some(id) => id.0.to_string(alloc),
        None => "none".to_string(alloc),
    }
}

/// The name that a text is a line of.
fn name_of(alloc: Global, text: &str) -> Option<Name> {
    match lex_line(alloc, text.as_bytes()) {
        Ok(words) => match words.get(0) {
            Some(Word::Name(name)) => name.clone().ok(),
            _ => None,
        },
        Err(_) => None,
    }
}

/// Whether the table tells of a name what its row says.
fn is_told(alloc: Global, table: &Table, row: &str) -> Result<bool, AllocError> {
    let (text, rest) = parted(row);
    let (number, kind) = parted(rest);
    let Some(name) = name_of(alloc, text) else {
        return Ok(false);
    };
    let told = told_number(alloc, table.id(&name))?;
    Ok(
        told.as_str() == number
            && kind_name(table.kind(&name)) == kind
            && table.has(&name) == (kind != "nothing"),
    )
}

/// The place of the first row of which the table tells otherwise.
fn first_wrong_name(alloc: Global, table: &Table, rows: &str) -> Result<Option<usize>, AllocError> {
    for (at, row) in rows.split('\n').enumerate() {
        if !is_told(alloc, table, row)? {
            return Ok(Some(at));
        }
    }
    Ok(None)
}

/// Whether each name has its place as its number.
fn are_in_order(table: &Table, names: &[Name]) -> bool {
    for (place, name) in names.iter().enumerate() {
        match table.id(name) {
            Some(id) if usize::from(id.0) == place => {}
            _ => return false,
        }
    }
    true
}

/// Whether the table has so many names, each at its place.
fn has_names(alloc: Global, table: &Table, count: usize) -> Result<bool, ParseFault> {
    let names = table.names(alloc)?;
    Ok(names.len() == count && are_in_order(table, names.as_slice()))
}

#[test]
fn names_of_a_script(rt: HostRuntime) -> Result<(), Fail> {
    let alloc = rt.alloc();
    let text = script_text(alloc, "cond c;routine main p;local a;end;mutex m")?;
    let table = table_of(alloc, text.as_slice())?;
    assert!(rt; has_names(alloc, &table, 13)?);
    assert_eq!(rt; first_wrong_name(alloc, &table, NAMES)?, None);
    Ok(())
}
