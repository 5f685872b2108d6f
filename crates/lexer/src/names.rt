//! Names.
ghost use Rattle.std.specs.Prelude.{◌≡◌};
ghost use Rattle.lexer.specs.Names.{name_is};

use crate::classes::in_name;

/// Whether the word is a name: one or more letters, digits and `-`.
pub fn is_name(word: &[u8]) -> bool
    ensures { result ≡ name_is word.now }
{
    !word.is_empty() && word.iter().all(|byte| in_name(*byte))
}
