// A line of a kind and numbers: its fields are tried one by one.
ghost use Rattle.std.specs.Prelude.{◌≡◌, ◌<◌, ◌&&◌, drop, length, not, int_le, IfSome};
ghost use Rattle.std.specs.List.{position, zip};
ghost use Rattle.text.specs.declared.row.RowError.TheVariants.{Refused, NoMemory};
ghost use Rattle.text.specs.Number.{near};
ghost use Rattle.text.specs.Parts.{fields};
ghost use Rattle.text.specs.Rows.{read, held_all, inside, Answers, row as row_of};

use crate::cut::{separators, step};
use crate::number::number;
use std::alloc::{AllocFailed, Global};

// The least and the largest number that a field may have, and whether it may be 0.
#[derive(Clone, Copy)]
pub struct Bound {
    pub low: i64,
    pub high: i64,
    pub zero: bool,
}

// The largest number that any field may have, and the least below 0.
const MOST: i64 = 1_000_000_000_000_000_000;

// Whether any field may have this number.
fn is_near(n: i64) -> bool
    ensures within_any_field { result ≡ near n }
{
    (-MOST..=MOST).contains(&n)
}

impl Bound {
    // Whether a number stands between the least and the largest.
    fn spans(&self, n: i64) -> bool
        ensures between_them { result ≡ (int_le self.now.low n && int_le n self.now.high) }
    {
        (self.low..=self.high).contains(&n)
    }

    // Whether a field may have this number.
    pub(crate) fn allows(&self, n: i64) -> bool
        ensures within_the_bound { result ≡ inside self.now n }
    {
        is_near(n) && self.spans(n) && (self.zero || n != 0)
    }
}

// Why a line is refused: its form or its range, with the field's place from 1.
// A wrong count of fields has place 0, since the format of a refusal prints 0 where it has no field.
#[derive(Clone, Copy)]
pub enum RowFault {
    Form(usize),
    Range(usize),
}

// Why a line gives no numbers: it is refused, or there is no memory.
#[derive(Clone, Copy)]
pub enum RowError {
    Refused(RowFault),
    NoMemory,
}

impl<T: Drop> From<AllocFailed<T>> for RowError {
    ghost from_gives = { λ _ r. r ≡ NoMemory };

    fn from(_e: AllocFailed<T>) -> RowError {
        RowError::NoMemory
    }
}

impl From<RowFault> for RowError {
    ghost from_gives = { λ f r. r ≡ Refused f };

    fn from(fault: RowFault) -> RowError {
        RowError::Refused(fault)
    }
}

// The numbers of the fields of `line` after the first one.
fn numbers(heap: Global, line: &[u8]) -> Result<Vec<i64>, RowError>
    ensures each_by_its_form { Answers result (held_all (read 2 (drop 1 (fields line.now)))) }
{
    let mut found = Vec::new(heap);
    for (i, field) in line.split(|b| *b == b',').enumerate().skip(1) {
        let n = number(field).ok_or(RowFault::Form(i + 1))?;
        found.push(n)?;
    }
    Ok(found)
}

// The index of the first number that is not within its bound.
fn first_outside(bounds: &[Bound], values: &[i64]) -> Option<usize>
    ensures first { result ≡ position (λ p. not (inside p.0 p.1)) (zip bounds.now values.now) }
    ensures is_one_of_them { IfSome result (λ i. i < length values.now) }
{
    bounds.iter().zip(values).position(|(b, n)| !b.allows(*n))
}

// The numbers of a line, as the public function below says.
fn numbers_of_row(
    heap: Global,
    line: &[u8],
    kind: &[u8],
    bounds: &[Bound],
) -> Result<Vec<i64>, RowError>
    ensures reads_the_row { Answers result (row_of kind.now bounds.now (fields line.now)) }
{
    // by `step`, which is proved to give the first field: an iterator's first item could be none
    let (first, _) = step(line, b',');
    if first != kind {
        return Err(RowFault::Form(1).into());
    }
    if separators(line, b',') != bounds.len() {
        return Err(RowFault::Form(0).into());
    }
    let values = numbers(heap, line)?;
    // a match, since an answer of Some is the refusal here: `ok_or` turns it the other way round
    match first_outside(bounds, &values) {
        Some(i) => Err(RowFault::Range(i + 2).into()),
        None => Ok(values),
    }
}

// The numbers of a line of this kind, one for each bound: the kind is tried first, then the count of fields,
// then each number's form, then each number's range.
// A thin call, so that a wrong one is refused here, by this contract.
pub fn read_row(
    heap: Global,
    line: &[u8],
    kind: &[u8],
    bounds: &[Bound],
) -> Result<Vec<i64>, RowError>
    ensures reads_the_row { Answers result (row_of kind.now bounds.now (fields line.now)) }
{
    numbers_of_row(heap, line, kind, bounds)
}
