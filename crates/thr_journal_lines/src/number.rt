//! Numbers in their shortest form.

ghost use Rattle.std.specs.Prelude.{◌≡◌, ◌==◌};
ghost use Rattle.std.specs.List.{list_all};
ghost use Rattle.std.specs.Char.{is_ascii_digit};
ghost use Rattle.thr_text.specs.Lexing.{has_minus, and_digit};
ghost use Rattle.thr_journals.specs.Numbers.{is_shortest, number_of, number_in, short_in, long_in, value_in};
ghost use Rattle.thr_journal_lines.specs.Numbers.{if_long};

fn all_digits(text: &[u8]) -> bool
    ensures { result ≡ list_all is_ascii_digit text.now }
{
    text.iter().all(|b| b.is_ascii_digit())
}

/// Whether the text is a number in its shortest form.
#[tactic(auto, unfolding(thr_journals::specs::Numbers::is_shortest))]
pub(crate) fn is_shortest(text: &[u8]) -> bool
    ensures { result ≡ is_shortest text.now }
{
    !text.is_empty() && all_digits(text) && (text.len() == 1 || text[0] != b'0')
}

/// The number with one more digit, or nothing where it doesn't have 64 bits.
#[tactic(auto, using(crate::proofs::Digits::too_large, crate::proofs::Digits::tens_too_large))]
fn with_digit(number: u64, digit: u8) -> Option<u64>
    ensures { result ≡ if_long (and_digit number digit) }
{
    let tens = number.checked_mul(10)?;
    tens.checked_add(u64::from(digit.saturating_sub(b'0')))
}

fn long_of(number: u64) -> Option<u64>
    ensures { result ≡ if_long number }
{
    Some(number)
}

/// What digits are as a number, or nothing where it doesn't have 64 bits.
#[tactic(auto, unfolding(thr_journals::specs::Numbers::number_of))]
fn number_of(digits: &[u8]) -> Option<u64>
    ensures { result ≡ if_long (number_of digits.now) }
{
    let mut total: u64 = 0;
    for digit in digits {
        match with_digit(total, *digit) {
            Some(more) => total = more,
            None => return None,
        }
    }
    long_of(total)
}

/// Whether digits are this number.
#[tactic(auto, using(crate::proofs::Digits::is_other))]
pub fn has_number(digits: &[u8], number: u64) -> bool
    ensures { result ≡ (number_of digits.now == number) }
{
    match number_of(digits) {
        Some(n) => n == number,
        None => false,
    }
}

/// A number in its shortest form that isn't below one number nor above another.
pub(crate) fn number_in(least: u64, most: u64, text: &[u8]) -> Option<u64>
    ensures { result ≡ number_in least most text.now }
{
    if !is_shortest(text) {
        return None;
    }
    let number = number_of(text)?;
    if least <= number && number <= most {
        Some(number)
    } else {
        None
    }
}

/// A number of 32 bits.
pub(crate) fn short(text: &[u8]) -> Option<u32>
    ensures { result ≡ short_in text.now }
{
    match number_in(0, 4_294_967_295, text) {
        Some(number) => u32::try_from(number).ok(),
        None => None,
    }
}

/// A number of 64 bits.
pub(crate) fn long(text: &[u8]) -> Option<u64>
    ensures { result ≡ long_in text.now }
{
    number_in(0, 18_446_744_073_709_551_615, text)
}

fn has_minus(text: &[u8]) -> bool
    ensures { result ≡ has_minus text.now }
{
    !text.is_empty() && text[0] == b'-'
}

/// A number of 64 bits with a sign.
pub(crate) fn value_of(text: &[u8]) -> Option<i64>
    ensures { result ≡ value_in text.now }
{
    if has_minus(text) {
        let size = number_in(1, 9_223_372_036_854_775_808, &text[1..])?;
        Some(0i64.wrapping_sub_unsigned(size))
    } else {
        let size = number_in(0, 9_223_372_036_854_775_807, text)?;
        i64::try_from(size).ok()
    }
}
