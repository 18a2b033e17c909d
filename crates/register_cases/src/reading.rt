// Reading a line of the table: a word, then numbers after commas.
use crate::call::Call;
use register::instruction::Instruction;
use std::alloc::{AllocError, Global};

// The number that a field writes. A table has only digits up to the most of a u64; past that it goes on from 0, and another
// byte counts as far as it stands from the digit 0, so `parse`, which tells such a field as none, would read it otherwise.
fn number(field: &str) -> u64 {
    field.bytes().fold(0u64, |number, byte| {
        number
            .wrapping_mul(10)
            .wrapping_add(u64::from(byte.wrapping_sub(b'0')))
    })
}

fn numbers(heap: Global, text: &str) -> Result<Vec<u64>, AllocError> {
    let mut read = Vec::new(heap);
    for field in text.split(',') {
        read.push(number(field))?;
    }
    Ok(read)
}

// The number at a place of the line, 0 past its end.
fn number_at(read: &[u64], place: usize) -> u64 {
    read.get(place).copied().unwrap_or(0)
}

// A number as an account, an asset or a count.
pub(crate) fn index(number: u64) -> usize {
    usize::try_from(number).unwrap_or(usize::MAX)
}

// The account, the asset or the count at a place of the line.
fn index_at(read: &[u64], place: usize) -> usize {
    index(number_at(read, place))
}

// Refuses no line, since a table's words and numbers are fixed: what is missing is 0, and another word asks the issue of
// asset 0, whatever stands after it.
pub(crate) fn read_call(heap: Global, line: &str) -> Result<Call, AllocError> {
    let (word, rest) = line.split_once(',').unwrap_or(("", ""));
    let read = numbers(heap, rest)?;
    Ok(match word {
        "make" => Call::Make(read),
        "credit" => Call::Carry(Instruction::Credit {
            account: index_at(&read, 0),
            asset: index_at(&read, 1),
            amount: number_at(&read, 2),
        }),
        "move" => Call::Carry(Instruction::Move {
            giver: index_at(&read, 0),
            taker: index_at(&read, 1),
            asset: index_at(&read, 2),
            amount: number_at(&read, 3),
        }),
        "balance" => Call::Balance {
            account: index_at(&read, 0),
            asset: index_at(&read, 1),
        },
        "issue" => Call::Issue {
            asset: index_at(&read, 0),
        },
        _ => Call::Issue { asset: 0 },
    })
}
