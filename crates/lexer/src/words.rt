//! The words of a line.
ghost use Rattle.std.specs.Prelude.{◌≡◌, ◌<◌, [], ◌∷◌, length, IfSome, MatchOption};
ghost use Rattle.std.specs.Iterator.{YieldsFirstBy, item_count};
ghost use Rattle.lexer.specs.Words.{words_of, IsWord};

use crate::classes::{in_word, is_blank};
use std::marker::Model;

/// The first word of the line and what follows it, which is shorter than the line. None where no word is left before the comment or the end.
pub fn first_word(line: &[u8]) -> Option<(&[u8], &[u8])>
    ensures word { MatchOption result (words_of line.now ≡ []) (λ p. words_of line.now ≡ p.0.now ∷ words_of p.1.now) }
    ensures bytes { IfSome result (λ p. IsWord p.0.now) }
    ensures shorter { IfSome result (λ p. length p.1.now < length line.now) }
{
    let begin = line.iter().position(|byte| !is_blank(*byte))?;
    let rest = &line[begin..];
    let end = rest
        .iter()
        .position(|byte| !in_word(*byte))
        .unwrap_or(rest.len());
    if end == 0 {
        return None;
    }
    Some(rest.split_at(end))
}

/// The words of a line that are left to come, the first one first.
#[derive(Drop)]
pub struct LineWords<'a> {
    rest: &'a [u8],
}

impl<'a> Model for LineWords<'a> {
    ghost use Rattle.std.specs.Prelude.{ℕ, List};
    ghost use Rattle.lexer.specs.Words.{words_of};

    ghost Value = { List (List ℕ) };

    ghost view = { λ s. words_of s.rest.now };
}

impl<'a> LineWords<'a> {
    /// All words of the line.
    pub fn new(line: &'a [u8]) -> LineWords<'a>
        ensures { result ≡ words_of line.now }
    {
        LineWords { rest: line }
    }
}

impl<'a> Iterator for LineWords<'a> {
    type Item = &'a [u8];

    ghost next_gives = { YieldsFirstBy (λ word. word.now) (λ words. words) };

    ghost remaining = { item_count (λ words. words) };

    fn next(&mut self) -> Option<&'a [u8]> {
        let (word, rest) = first_word(self.rest)?;
        self.rest = rest;
        Some(word)
    }
}
