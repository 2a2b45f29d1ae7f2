//! Tables of cases as texts: a case is a line, its parts stand between bars, and in the text of a script a semicolon stands for the
//! end of a line.

use std::alloc::{AllocError, Global};
use thr_forms::scan::{Reading, read_lines};
use thr_text::fault::ParseFault;

/// What stands before the first bar, and what behind it.
pub fn parted(row: &str) -> (&str, &str) {
    row.split_once('|').unwrap_or((row, ""))
}

/// A kind of cases.
pub trait Cases {
    /// Whether a case comes out as its line says.
    fn is_right(alloc: Global, row: &str) -> Result<bool, AllocError>;
}

/// The place of the first line whose case comes out otherwise. A line that begins with `#` and a space says what the ones below it are.
pub fn first_wrong<C: Cases>(alloc: Global, table: &str) -> Result<Option<usize>, AllocError> {
    for (at, row) in table.split('\n').enumerate() {
        if !row.starts_with("# ") && !C::is_right(alloc, row)? {
            return Ok(Some(at));
        }
    }
    Ok(None)
}

/// The number that these digits write.
pub fn number(digits: &str) -> u32 {
    let mut all = 0u32;
    for digit in digits.as_bytes() {
        all = all
            .wrapping_mul(10)
            .wrapping_add(u32::from(digit.wrapping_sub(b'0')));
    }
    all
}

/// Adds lines to a text, with this number for each `@` and the byte 128 for each `^`.
pub fn add_lines(
    alloc: Global,
    text: &mut Vec<u8>,
    lines: &str,
    number: u32,
) -> Result<(), AllocError> {
    for byte in lines.as_bytes() {
        match *byte {
            b'@' => text.extend_from_slice(number.to_string(alloc)?.as_bytes())?,
            b';' => text.push(b'\n')?,
            b'^' => text.push(128)?,
            other => text.push(other)?,
        }
    }
    Ok(())
}

/// The text of these lines.
pub fn text_of(alloc: Global, lines: &str) -> Result<Vec<u8>, AllocError> {
    let mut text = Vec::new(alloc);
    add_lines(alloc, &mut text, lines, 0)?;
    Ok(text)
}

/// The text of these lines below a first one.
pub fn script_text(alloc: Global, lines: &str) -> Result<Vec<u8>, AllocError> {
    let mut text = Vec::from_slice(alloc, b"dcethr 1\n")?;
    add_lines(alloc, &mut text, lines, 0)?;
    Ok(text)
}

/// The lines of a text that has less than four gigabytes, where each has a form.
pub fn lines_of(alloc: Global, text: &[u8]) -> Result<Reading, ParseFault> {
    if text.len() > 4_000_000 {
        return Err(ParseFault::NoMemory);
    }
    read_lines(alloc, text)
}

/// A fault as a table tells it: its number and its line.
pub fn told_fault(alloc: Global, fault: &ParseFault) -> Result<String, AllocError> {
    match fault {
        ParseFault::Refused(place) => format!(in alloc; "F{} line {}", place.number, place.line),
        ParseFault::NoMemory => "no memory".to_string(alloc),
    }
}

/// Whether an answer is the wanted one, which is `good` or a fault.
pub fn is_wanted(
    alloc: Global,
    answer: &Result<(), ParseFault>,
    wanted: &str,
) -> Result<bool, AllocError> {
    match answer {
        Ok(()) => Ok(wanted == "good"),
        Err(fault) => Ok(told_fault(alloc, fault)?.as_str() == wanted),
    }
}
