//! Sets of values below 64: `-`, or numbers with commas between.
ghost use Rattle.std.specs.Prelude.{◌≡◌, IfOk};
ghost use Rattle.lexer.specs.Sets.{Members, set_of};

use crate::numbers::{NumberFault, number};

/// The set that the word writes, with bit `v` set where it has the value `v`; else what is wrong with the first piece that is no number below 64.
pub fn set(word: &[u8]) -> Result<u64, NumberFault>
    ensures value { result ≡ set_of word.now }
    ensures members { IfOk result (λ s. Members s word.now) }
{
    if word == b"-".as_slice() {
        return Ok(0);
    }
    let mut found = 0;
    for piece in word.split(|byte| *byte == b',') {
        found |= 1 << number(piece, 63)?;
    }
    Ok(found)
}
