//! Why a word cannot stand where it does.
ghost use Rattle.std.specs.Prelude.{◌≡◌, length};
ghost use Rattle.policy.specs.Decode.{word_of};
ghost use Rattle.policy.specs.Words.{size_of, position, checked, clear, fault_in, head_fault, value_fault};

use crate::clause::Kind;
use crate::draft::{Draft, Open, Phase};
use crate::word::{Value, Word, word_of};
use lattice::{Reason, Sizes};

// By number, not by `Attribute`: a word's number can be up to 15, and is refused as a value only where a value can stand.
fn size_of(sizes: Sizes, attribute: u8) -> u8
    ensures { result ≡ size_of sizes attribute }
{
    match attribute {
        0 => sizes.store,
        1 => sizes.purpose,
        2 => sizes.role,
        _ => sizes.types,
    }
}

// Whether a head can stand as an exception of a clause, or why it is declined.
fn check_head(top: Open, heads: usize, head: Kind) -> Result<(), Reason>
    ensures { result ≡ clear (head_fault top.depth heads top.kind head) }
{
    if top.kind == head {
        return Err(Reason::SameKind);
    }
    if top.depth >= 16 || heads >= 256 {
        return Err(Reason::TooNested);
    }
    Ok(())
}

// Whether a value can stand behind the last one, or why it is declined.
fn check_value(sizes: Sizes, last: Value, value: Value) -> Result<(), Reason>
    ensures { result ≡ clear (value_fault sizes (position last.attribute last.code) value.attribute value.code) }
{
    if value.attribute >= 4 || value.code == 0 || value.code >= size_of(sizes, value.attribute) {
        return Err(Reason::BadValue);
    }
    if value <= last {
        return Err(Reason::NotRising);
    }
    Ok(())
}

impl Draft {
    // Whether a word can stand inside an open clause, or why it is declined.
    fn check_in(&self, top: Open, word: Word) -> Result<(), Reason>
        ensures { result ≡ clear (fault_in self.now.sizes top.depth (length self.now.clauses.items) top.kind (position top.last.attribute top.last.code) top.phase word) }
    {
        match (word, top.phase) {
            (Word::Value(value), Phase::Listing) => check_value(self.sizes, top.last, value),
            (Word::Head(head), Phase::Excepting | Phase::Excepted) => check_head(
                top,
                self.clauses.len(),
                head,
            ),
            (Word::Except, Phase::Listing) => Ok(()),
            (Word::End, Phase::Listing | Phase::Excepted) => Ok(()),
            _ => Err(Reason::MisplacedWord),
        }
    }

    /// The word that a number says, or why it is declined inside an open clause.
    pub(crate) fn admitted(&self, top: Open, word: u32) -> Result<Word, Reason>
        ensures { result ≡ checked (word_of word) (fault_in self.now.sizes top.depth (length self.now.clauses.items) top.kind (position top.last.attribute top.last.code) top.phase) }
    {
        let word = word_of(word).ok_or(Reason::BadWord)?;
        self.check_in(top, word)?;
        Ok(word)
    }
}
