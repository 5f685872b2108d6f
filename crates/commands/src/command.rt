//! What a command asks for, by the values of its arguments.
ghost use Rattle.std.specs.Prelude.{◌≡◌, min, map, length, drop, IfOk, slice_index};
ghost use Rattle.commands.specs.Meanings.{meaning, meaning_of, row_of, word_most};

use crate::verbs::Verb;
use lattice::Sizes;
use runs::Call;
use sessions::Rooms;
use std::alloc::{AllocError, Global};
use std::array;

/// What a line asks for. Names are left out: they are words of the line.
#[derive(Drop)]
pub enum Command {
    Ladder { levels: usize },
    Table { rows: Vec<u64> },
    Pair,
    Scheme,
    Policy { words: Vec<u32> },
    Inventory { sizes: Sizes, rooms: Rooms },
    Judge { node: usize },
    Call(Call),
}

// The value of the argument of this number.
fn at(values: &[u64], number: usize) -> u64
    ensures { result ≡ slice_index values.now number }
{
    values.get(number).copied().unwrap_or(0)
}

// The same as a count or as a place in memory.
fn place(values: &[u64], number: usize) -> usize
    ensures { result ≡ slice_index values.now number }
{
    at(values, number) as usize
}

// A value whose kind keeps it below 256.
fn byte(values: &[u64], number: usize) -> u8
    ensures { result ≡ min (slice_index values.now number) 255 }
{
    at(values, number).min(255) as u8
}

// The values from this number on.
fn after(values: &[u64], number: usize) -> &[u64]
    ensures { result.now ≡ drop number values.now }
{
    values.get(number..).unwrap_or(&[])
}

// The entries of a row, with zeros behind them.
fn row(values: &[u64]) -> [u8; 64]
    ensures { result ≡ row_of values.now }
{
    array::from_fn(|number| byte(values, number))
}

fn words(heap: Global, values: &[u64]) -> Result<Vec<u32>, AllocError>
    ensures { IfOk result (λ v. v.items ≡ map word_most values.now) }
{
    values
        .iter()
        .map(|value| (*value).min(0xffff_ffff) as u32)
        .collect(heap)
}

fn inventory(values: &[u64]) -> Command
    ensures { meaning_of result ≡ meaning Verb.Inventory values.now }
{
    Command::Inventory {
        sizes: Sizes {
            store: byte(values, 0),
            purpose: byte(values, 1),
            role: byte(values, 2),
            types: byte(values, 3),
        },
        rooms: Rooms {
            nodes: place(values, 4),
            flows: place(values, 5),
            words: place(values, 6),
        },
    }
}

fn enter(values: &[u64]) -> Command
    ensures { meaning_of result ≡ meaning Verb.Enter values.now }
{
    Command::Call(Call::Enter {
        store: at(values, 0),
        purpose: at(values, 1),
        role: at(values, 2),
    })
}

fn path(values: &[u64]) -> Command
    ensures { meaning_of result ≡ meaning Verb.Path values.now }
{
    Command::Call(Call::Path {
        node: place(values, 0),
        value: byte(values, 1),
        room: place(values, 2),
    })
}

/// What a command with arguments of these values asks for.
pub fn meant(heap: Global, verb: Verb, values: &[u64]) -> Result<Command, AllocError>
    ensures { IfOk result (λ c. meaning_of c ≡ meaning verb values.now) }
{
    let (node, value) = (place(values, 0), byte(values, 1));
    let (from, to, step) = (node, place(values, 1), place(values, 2));
    Ok(match verb {
        Verb::Ladder => Command::Ladder {
            levels: place(values, 1),
        },
        Verb::Table => Command::Table {
            rows: after(values, 1).to_vec(heap)?,
        },
        Verb::Pair => Command::Pair,
        Verb::Scheme => Command::Scheme,
        Verb::Policy => Command::Policy {
            words: words(heap, after(values, 2))?,
        },
        Verb::Inventory => inventory(values),
        Verb::Enter => enter(values),
        Verb::Step => Command::Call(Call::Step {
            row: row(values),
            len: values.len(),
        }),
        Verb::Mark => Command::Call(Call::Mark { node, value }),
        Verb::Unmark => Command::Call(Call::Unmark { node, value }),
        Verb::Verify => Command::Call(Call::Verify {
            node,
            verified: at(values, 1) == 1,
        }),
        Verb::Draw => Command::Call(Call::Draw { from, to, step }),
        Verb::Strike => Command::Call(Call::Strike { from, to, step }),
        Verb::Settle => Command::Call(Call::Settle),
        Verb::Judge => Command::Judge { node },
        Verb::Path => path(values),
    })
}
