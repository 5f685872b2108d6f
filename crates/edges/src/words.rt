//! Policy words at their limits.
ghost use Rattle.std.specs.Prelude.{◌<◌};

use crate::lattices::{Ladders, ladders};
use crate::outcome::Outcome;
use arrayvec::ArrayVec;
use policy::{Policy, Vocabulary};
use std::alloc::AllocError;
use std::iter;

// As many words as a policy can have, and one more. They need no heap.
type Words = ArrayVec<u32, 4097>;

const ALLOW: u32 = 0x1000_0000;

const DENY: u32 = 0x2000_0000;

const VALUE: u32 = 0x3000_0000;

const EXCEPT: u32 = 0x4000_0000;

const END: u32 = 0x5000_0000;

const ADVERTS: [u32; 9] = [
    DENY,
    0x3100_0002,
    0x3300_0002,
    EXCEPT,
    ALLOW,
    0x3300_0001,
    END,
    END,
    END,
];

// Reads the words into a policy, and shows the data type size that it is for before and after.
fn show_words(rt: &impl Print, what: &str, words: &[u32], scheme: &Ladders) -> anyhow::Result<()> {
    let mut policy = Policy::new();
    let before = policy.sizes().types;
    let outcome = Outcome(policy.read(words, scheme));
    let after = policy.sizes().types;
    println!(rt; "{what}: {outcome} for {before} data types before and {after} after")?;
    Ok(())
}

// The word for a value of any attribute: 63 values each, after the bottom.
fn value_word(number: u32) -> u32
    requires { number < 252 }
{
    VALUE + number / 63 * 0x0100_0000 + number % 63 + 1
}

// Writes clauses inside one another. The tests nest theirs likewise: no library below both writes words.
fn nest(words: &mut Words, depth: usize) -> Result<(), AllocError> {
    words.clear();
    for level in 0..depth {
        if level > 0 {
            words.extend([EXCEPT])?;
        }
        words.extend([if level % 2 == 0 { ALLOW } else { DENY }])?;
    }
    words.extend(iter::repeat_n(END, depth))
}

// Writes one clause with so many exceptions that have nothing in them.
fn spread_out(words: &mut Words, exceptions: usize) -> Result<(), AllocError> {
    words.clear();
    words.extend([ALLOW, EXCEPT])?;
    for _ in 0..exceptions {
        words.extend([DENY, END])?;
    }
    words.extend([END])
}

// Writes one clause of 4,096 words: 29 values, and 16 exceptions with every value that there can be.
fn fill(words: &mut Words) -> Result<(), AllocError> {
    words.clear();
    words.extend([ALLOW])?;
    words.extend((0..29).map(value_word))?;
    words.extend([EXCEPT])?;
    for _ in 0..16 {
        words.extend([DENY])?;
        words.extend((0..252).map(value_word))?;
        words.extend([END])?;
    }
    words.extend([END])
}

fn show_limits(rt: &impl Print, scheme: &Ladders) -> anyhow::Result<()> {
    let mut words = Words::new();
    for (what, depth) in [("depth 16", 16), ("depth 17", 17)] {
        nest(&mut words, depth)?;
        show_words(rt, what, words.as_slice(), scheme)?;
    }
    for (what, exceptions) in [("256 clauses", 255), ("257 clauses", 256)] {
        spread_out(&mut words, exceptions)?;
        show_words(rt, what, words.as_slice(), scheme)?;
    }
    fill(&mut words)?;
    show_words(rt, "4,096 words", words.as_slice(), scheme)?;
    words.extend([END])?;
    show_words(rt, "4,097 words", words.as_slice(), scheme)?;
    show_words(rt, "no words", &[], scheme)
}

fn show_faults(rt: &impl Print, scheme: &Ladders) -> anyhow::Result<()> {
    show_words(rt, "no full identity for adverts", &ADVERTS[0..8], scheme)?;
    show_words(rt, "one END more", &ADVERTS, scheme)?;
    show_words(rt, "without its last word", &ADVERTS[0..7], scheme)?;
    show_words(rt, "no kind", &[DENY, 0x6000_0000, END], scheme)?;
    show_words(rt, "a bit that must be 0", &[DENY, END + 1], scheme)?;
    show_words(
        rt,
        "an exception of its encloser's kind",
        &[DENY, EXCEPT, DENY, END, END],
        scheme,
    )?;
    show_words(rt, "data type 6 of 7", &[DENY, 0x3300_0006, END], scheme)?;
    show_words(rt, "data type 7 of 7", &[DENY, 0x3300_0007, END], scheme)?;
    show_words(rt, "attribute 4", &[DENY, 0x3400_0001, END], scheme)?;
    show_words(
        rt,
        "a value twice",
        &[DENY, 0x3300_0002, 0x3300_0002, END],
        scheme,
    )
}

pub fn show(rt: &impl Print) -> anyhow::Result<()> {
    show_limits(rt, &ladders(64, 64, 64, 64)?)?;
    show_faults(rt, &ladders(2, 4, 2, 7)?)
}
