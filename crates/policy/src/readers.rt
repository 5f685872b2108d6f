//! The reader of clauses, which calls itself for an exception.
ghost use Rattle.std.specs.Prelude.{◌≡◌, ◌≤◌, [], length, Ok, Err, MatchResult};
ghost use Rattle.policy.specs.Reads.{Ready, Behind, Begun, Firsts, just_open, numbered, stray_reason};
ghost use Rattle.policy.specs.Sized.{Sized};
ghost use Rattle.policy.specs.Stands.{Drafted};

use crate::clause::{ClauseRecord, Kind};
use crate::draft::{Draft, Open, Phase};
use crate::word::{Value, Word, word_of};
use arrayvec::ArrayVec;
use lattice::{Reason, Refusal, Sizes};

impl Open {
    /// A clause of this kind whose head alone is read, inside `depth` others.
    fn inside(kind: Kind, depth: usize) -> Open
        requires { depth ≤ 256 }
        ensures { result ≡ just_open kind depth }
    {
        Open {
            kind,
            phase: Phase::Listing,
            last: Value {
                attribute: 0,
                code: 0,
            },
            depth: depth + 1,
        }
    }
}

impl Draft {
    /// Reads a clause inside `depth` others from the word behind its head on. It has the next number.
    /// Gives back the words after its END.
    fn read_behind<'a>(
        &mut self,
        kind: Kind,
        depth: usize,
        words: &'a [u32],
    ) -> Result<&'a [u32], Refusal>
        requires { Ready (just_open kind depth) (numbered kind self.old) words.now }
        ensures { MatchResult result (λ rest. Behind kind depth self.old words.now (Ok rest.now) self.new) (λ e. Behind kind depth self.old words.now (Err e) self.new) }
    {
        let number = self.clauses.len();
        let mut own = ClauseRecord::opened(kind);
        self.clauses.push(own);
        let mut top = Open::inside(kind, depth);
        let mut left = words;
        while let [first, rest @ ..] = left {
            let place = self.total - left.len();
            let word = self
                .admitted(top, *first)
                .map_err(|reason| reason.at(place))?;
            left = rest;
            match word {
                Word::Head(inner) => {
                    left = self.read_behind(inner, top.depth, rest)?;
                    top.phase = Phase::Excepted;
                }
                Word::Value(value) => {
                    own.insert(value);
                    top.last = value;
                }
                Word::Except => top.phase = Phase::Excepting,
                Word::End => {
                    own.close(self.sizes, self.clauses.len() as u16);
                    self.clauses[number] = own;
                    return Ok(rest);
                }
            }
        }
        Err(Reason::MisplacedWord.at(self.total))
    }

    /// Reads the first clause from its head on, and gives back the words after its END.
    fn read_first<'a>(&mut self, words: &'a [u32]) -> Result<&'a [u32], Refusal>
        requires { (self.old.clauses.items ≡ []) × ((self.old.total ≡ length words.now) × (Sized self.old.sizes)) }
        ensures { MatchResult result (λ rest. Begun self.old words.now (Ok rest.now) self.new) (λ e. Begun self.old words.now (Err e) self.new) }
    {
        let [first, rest @ ..] = words else {
            return Err(Reason::MisplacedWord.at(0));
        };
        match word_of(*first) {
            Some(Word::Head(kind)) => self.read_behind(kind, 0, rest),
            word => Err(stray(word).at(0)),
        }
    }

    /// Reads a policy's words, all of them.
    fn read_words(&mut self, words: &[u32]) -> Result<(), Refusal>
        requires { (self.old.clauses.items ≡ []) × ((self.old.total ≡ length words.now) × (Sized self.old.sizes)) }
        ensures { Firsts self.old words.now result self.new }
    {
        let rest = self.read_first(words)?;
        let [next, ..] = rest else {
            return Ok(());
        };
        let place = words.len() - rest.len();
        Err(stray(word_of(*next)).at(place))
    }

    /// The records of the policy that the words spell.
    // `Sized` is asked of three functions that have no draft, so a draft that carried it would spare two clauses of five.
    pub(crate) fn read(words: &[u32], sizes: Sizes) -> Result<Draft, Refusal>
        requires { Sized sizes }
        ensures { Drafted sizes words.now result }
    {
        if words.is_empty() || words.len() > 4096 {
            return Err(Reason::WordCount.at(0));
        }
        let mut draft = Draft {
            clauses: ArrayVec::new(),
            sizes,
            total: words.len(),
        };
        draft.read_words(words)?;
        Ok(draft)
    }
}

/// Why what is no head, or not the first one, is declined outside every clause.
fn stray(word: Option<Word>) -> Reason
    ensures { result ≡ stray_reason word }
{
    match word {
        Some(_) => Reason::MisplacedWord,
        None => Reason::BadWord,
    }
}
