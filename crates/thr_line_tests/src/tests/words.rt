//! What lines of given bytes are.

use crate::tests::table::{Cases, first_wrong, number, parted};
use std::alloc::{AllocError, Global};
use std::test::Fail;
use thr_lexer::fault::LexFault;
use thr_lexer::lex::lex_line;
use thr_lexer::words::Words;
use thr_text::word::Word;

/// Lines, what they are shown as, and how many words they have, or 0 where they have a fault.
const LINES: &str = "\
||0
 \t ||0
# say 9223372036854775808||0
x#y|x,|1
x # y|x,|1
if|if,|1
_a1|_a1,|1
\tset x\t\t7 |set,x,#7,|3
abcdefghijklmnopqrstuvwx|abcdefghijklmnopqrstuvwx,|1
abcdefghijklmnopqrstuvwxy|'abcdefghijklmnopqrstuvwxy',|1
! ~|'!','~',|2
<= (|'<=','(',|2
1a|'1a',|1
a-b|'a-b',|1
+1|'+1',|1
-|'-',|1
--1|'--1',|1
-0|#0,|1
007|#7,|1
-12|#-12,|1
9223372036854775807|#9223372036854775807,|1
-9223372036854775808|#-9223372036854775808,|1
00000000000000000000009223372036854775807|#9223372036854775807,|1
a b c d e f g h i j k l m n o p q r s t u v w x|a,b,c,d,e,f,g,h,i,j,k,l,m,n,o,p,q,r,s,t,u,v,w,x,|24
1 2 3 4 5 6 7 8 9 10 11 12 13 14 15 16 17 18 19 20 21 22 23 = # 9223372036854775808|#1,#2,#3,#4,#5,#6,#7,#8,#9,#10,#11,#12,#13,#14,#15,#16,#17,#18,#19,#20,#21,#22,#23,'=',|24";

/// Lines with a fault, and what they are shown as.
const FAULTS: &str = "\
a\x1Fb|F1|0
\x7F|F1|0
a\rb|F1|0
a\r|F1|0
say \u{E4}|F1|0
x # \x07|F1|0
9223372036854775808|F3|0
-9223372036854775809|F3|0
x 18446744073709551616 y|F3|0
-18446744073709551617|F3|0
9223372036854775808#|F3|0
a b c d e f g h i j k l m n o p q r s t u v w x 9223372036854775808|F3|0
a b c d e f g h i j k l m n o p q r s t u v w x y|F4|0
a b c d e f g h i j k l m n o p q r s t u v w x\t-|F4|0";

/// Adds a word with a comma: a number after `#`, a name as it is, a mark between quotes.
fn show(alloc: Global, word: &Word, text: &mut Vec<u8>) -> Result<(), AllocError> {
    match word {
        Word::Num(number) => {
            text.push(b'#')?;
            text.extend_from_slice(number.to_string(alloc)?.as_bytes())?;
        }
        Word::Name(name) => text.extend_from_slice(name.as_slice())?,
        Word::Mark(mark) => {
            text.push(b'\'')?;
            text.extend_from_slice(mark.as_slice())?;
            text.push(b'\'')?;
        }
    }
    text.push(b',')?;
    Ok(())
}

fn shown(alloc: Global, words: &[Word]) -> Result<Vec<u8>, AllocError> {
    let mut text = Vec::new(alloc);
    for word in words {
        show(alloc, word, &mut text)?;
    }
    Ok(text)
}

fn fault_name(fault: &LexFault) -> &'static str {
    match fault {
        LexFault::F1 => "F1",
        LexFault::F2 => "F2",
        LexFault::F3 => "F3",
        LexFault::F4 => "F4",
        LexFault::NoMemory => "no memory",
    }
}

/// Whether the line has so many words, which are shown so, and the ways to ask for them agree.
fn has_words(alloc: Global, words: &Words, wanted: &str, count: usize) -> Result<bool, AllocError> {
    let text = shown(alloc, words.as_slice())?;
    Ok(
        text.as_slice() == wanted.as_bytes()
            && words.len() == count
            && words.is_empty() == (count == 0)
            && words.get(0).is_some() == (count > 0),
    )
}

/// Whether the line is shown so.
fn is_shown(alloc: Global, line: &[u8], wanted: &str, count: usize) -> Result<bool, AllocError> {
    match lex_line(alloc, line) {
        Ok(words) => has_words(alloc, &words, wanted, count),
        Err(fault) => Ok(fault_name(&fault) == wanted),
    }
}

struct WordCases;

impl Cases for WordCases {
    fn is_right(alloc: Global, row: &str) -> Result<bool, AllocError> {
        let (line, rest) = parted(row);
        let (wanted, count) = parted(rest);
        is_shown(alloc, line.as_bytes(), wanted, number(count) as usize)
    }
}

#[test]
fn words_of_lines(rt: HostRuntime) -> Result<(), Fail> {
    assert_eq!(rt; first_wrong::<WordCases>(rt.alloc(), LINES)?, None);
    Ok(())
}

#[test]
fn least_faults_of_bad_lines(rt: HostRuntime) -> Result<(), Fail> {
    assert_eq!(rt; first_wrong::<WordCases>(rt.alloc(), FAULTS)?, None);
    Ok(())
}

/// Whether a line of so many equal bytes is shown so.
fn is_long_shown(
    alloc: Global,
    byte: u8,
    length: usize,
    wanted: &str,
    count: usize,
) -> Result<bool, AllocError> {
    let line = vec![in alloc; byte; length]?;
    is_shown(alloc, line.as_slice(), wanted, count)
}

#[test]
fn long_lines(rt: HostRuntime) -> Result<(), Fail> {
    let alloc = rt.alloc();
    assert!(rt; is_long_shown(alloc, b' ', 240, "", 0)?);
    assert!(rt; is_long_shown(alloc, b'0', 240, "#0,", 1)?);
    assert!(rt; is_long_shown(alloc, 0x1F, 241, "F1", 0)?);
    assert!(rt; is_long_shown(alloc, b' ', 241, "F2", 0)?);
    assert!(rt; is_long_shown(alloc, b'#', 241, "F2", 0)?);
    assert!(rt; is_long_shown(alloc, b'9', 241, "F2", 0)?);
    assert!(rt; is_long_shown(alloc, b'9', 240, "F3", 0)?);
    Ok(())
}

/// The CR of a line's ending never comes to the lexer, and any other is no byte of a line.
#[test]
fn the_ending_of_a_line_is_taken_before(rt: HostRuntime) -> Result<(), Fail> {
    let alloc = rt.alloc();
    let mut lines = "a b\r\nc\r\r\nd\r".lines();
    let wanted = ["a,b,", "F1", "F1"];
    for fault in wanted {
        let line = lines.next().ok_or("a line is missing")?;
        assert!(rt; is_shown(alloc, line.as_bytes(), fault, 2)?);
    }
    assert!(rt; lines.next().is_none());
    Ok(())
}
