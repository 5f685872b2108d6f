//! One word of a policy.
ghost use Rattle.std.specs.Prelude.{◌≡◌};
ghost use Rattle.policy.specs.Decode.{word_of, value_word_of};

use crate::clause::Kind;

/// A value of an attribute, both by number. Values rise by attribute, then by code.
#[derive(Clone, Copy, PartialEq, Eq, PartialOrd, Ord)]
pub(crate) struct Value {
    pub(crate) attribute: u8,
    pub(crate) code: u8,
}

#[derive(Clone, Copy)]
pub(crate) enum Word {
    Head(Kind),
    Value(Value),
    Except,
    End,
}

// A value of an attribute: bits 24 to 27 are the attribute, bits 0 to 7 the code, the bits between are 0.
fn value_of(word: u32) -> Option<Word>
    ensures { result ≡ value_word_of word }
{
    let value = Value {
        attribute: (word >> 24 & 0xf) as u8,
        code: (word & 0xff) as u8,
    };
    (word >> 8 & 0xffff == 0).then_some(Word::Value(value))
}

/// What a number says as a word, if it is one. Its high four bits are the kind.
pub(crate) fn word_of(word: u32) -> Option<Word>
    ensures { result ≡ word_of word }
{
    let plain = match word >> 28 {
        1 => Word::Head(Kind::Allow),
        2 => Word::Head(Kind::Deny),
        3 => return value_of(word),
        4 => Word::Except,
        5 => Word::End,
        _ => return None,
    };
    // Below the kind these have no bits.
    (word & 0x0fff_ffff == 0).then_some(plain)
}
