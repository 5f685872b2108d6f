//! Numbers: decimal digits, or `0x` and hexadecimal digits.
ghost use Rattle.std.specs.Prelude.{◌≡◌, ◌≤◌, Some, nat_lt};
ghost use Rattle.std.specs.Char.{digit_value};
ghost use Rattle.lexer.specs.Classes.{one_or_more};
ghost use Rattle.lexer.specs.Numbers.{fault_words, in_base, number_of, up_to};

use std::error::Error;
use std::fmt;
use std::str::from_utf8;

/// Why a word is not a number that the caller can take.
#[derive(Clone, Copy, PartialEq, Eq, Debug)]
pub enum NumberFault {
    NotANumber,
    TooLarge,
}

impl fmt::Display for NumberFault {
    ghost output = { λ f. Some (fault_words f) };

    fn fmt<W: fmt::Write>(&self, f: &mut fmt::Formatter<W>) -> fmt::Result {
        f.write_str(match self {
            NumberFault::NotANumber => "a word is not a number",
            NumberFault::TooLarge => "a number is too large",
        })
    }
}

impl Error for NumberFault {}

/// Whether the bytes are one or more digits of the base.
fn is_numeral(base: u32, digits: &[u8]) -> bool
    requires least { 2 ≤ base }
    requires greatest { base ≤ 36 }
    ensures { result ≡ one_or_more (λ d. nat_lt (digit_value d) base) digits.now }
{
    !digits.is_empty() && digits.iter().all(|byte| char::from(*byte).is_digit(base))
}

/// The number that digits of a base write, where it is at most `most`.
fn number_in(base: u32, digits: &[u8], most: u64) -> Result<u64, NumberFault>
    requires least { 2 ≤ base }
    requires greatest { base ≤ 36 }
    ensures { result ≡ up_to most (in_base base digits.now) }
{
    // The library would read a sign too. Digits are text, so past this test only the number can be at fault.
    if !is_numeral(base, digits) {
        return Err(NumberFault::NotANumber);
    }
    let Ok(text) = from_utf8(digits) else {
        return Err(NumberFault::NotANumber);
    };
    match u64::from_str_radix(text, base) {
        Ok(number) if number <= most => Ok(number),
        _ => Err(NumberFault::TooLarge),
    }
}

/// The number that the word writes, where it is at most `most`.
pub fn number(word: &[u8], most: u64) -> Result<u64, NumberFault>
    ensures { result ≡ up_to most (number_of word.now) }
{
    match word.strip_prefix(b"0x") {
        Some(digits) => number_in(16, digits, most),
        None => number_in(10, word, most),
    }
}
