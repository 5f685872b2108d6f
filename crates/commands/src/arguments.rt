//! The arguments of a command as the words of a line give them.
ghost use Rattle.std.specs.Prelude.{◌≡◌, vec_items};
ghost use Rattle.std.specs.Str.{bytes_eq};
ghost use Rattle.lexer.specs.Words.{words_of};
ghost use Rattle.commands.specs.Values.{value_of, values_of, kind_at, numeric};
ghost use Rattle.commands.specs.Stops.{Gives};

use crate::faults::Fault;
use crate::stops::Stop;
use crate::verbs::{Kind, Verb};
use lexer::{LineWords, NumberFault};
use std::alloc::Global;

// A number of at most `most`.
fn numeric(word: &[u8], most: u64) -> Result<u64, Fault>
    ensures { result ≡ numeric most word.now }
{
    lexer::number(word, most).map_err(Fault::from)
}

fn name(word: &[u8]) -> Result<u64, Fault>
    ensures { result ≡ value_of Kind.Name word.now }
{
    if lexer::is_name(word) {
        Ok(0)
    } else {
        Err(Fault::NotAName)
    }
}

fn set(word: &[u8]) -> Result<u64, Fault>
    ensures { result ≡ value_of Kind.Set word.now }
{
    lexer::set(word).map_err(|fault| match fault {
        NumberFault::NotANumber => Fault::NotASet,
        NumberFault::TooLarge => Fault::TooLarge,
    })
}

/// Whether two words are the same.
pub fn same(word: &[u8], other: &[u8]) -> bool
    ensures { result ≡ bytes_eq word.now other.now }
{
    word == other
}

fn yes_or_no(word: &[u8]) -> Result<u64, Fault>
    ensures { result ≡ value_of Kind.YesOrNo word.now }
{
    if same(word, b"yes") {
        return Ok(1);
    }
    if same(word, b"no") {
        return Ok(0);
    }
    Err(Fault::NotYesOrNo)
}

// The value that a word has as an argument of its kind: that of a name is 0, of yes 1 and of no 0.
// All are numbers, since a table, a policy and a step take the rest of the list as it stands, with no entry to unwrap.
fn value(kind: Kind, word: &[u8]) -> Result<u64, Fault>
    ensures { result ≡ value_of kind word.now }
{
    match kind {
        Kind::Name => name(word),
        Kind::Number => numeric(word, u64::MAX),
        Kind::Word => numeric(word, 0xffff_ffff),
        Kind::Byte => numeric(word, 255),
        Kind::Room => numeric(word, 262_144),
        Kind::Set => set(word),
        Kind::YesOrNo => yes_or_no(word),
    }
}

impl Verb {
    // The kind of the argument of this number, where the command takes one.
    fn kind_at(self, at: usize) -> Option<Kind>
        ensures { result ≡ kind_at self at }
    {
        self.kinds().get(at).copied().or_else(|| self.more(at))
    }
}

/// The values of the arguments that the words after the command give, or what is wrong with them.
pub fn values(heap: Global, verb: Verb, words: &[u8]) -> Result<Vec<u64>, Stop>
    ensures { Gives vec_items (values_of verb (words_of words.now)) result }
{
    let mut values = Vec::new(heap);
    for word in LineWords::new(words) {
        let kind = verb.kind_at(values.len()).ok_or(Fault::SurplusWord)?;
        values.push(value(kind, word)?)?;
    }
    if values.len() < verb.kinds().len() {
        return Err(Stop::Fault(Fault::MissingWord));
    }
    Ok(values)
}
