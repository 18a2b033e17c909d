// What a line is read as: its kind, and the record that it writes.
ghost use Rattle.std.specs.Prelude.{◌≡◌, vec_items};
ghost use Rattle.text.specs.Parts.{fields};
ghost use Rattle.text.specs.Rows.{row};
ghost use Rattle.book.specs.declared.fault.ReadFault.TheVariants.{Refused};
ghost use Rattle.book.specs.Reading.{refuse, is_kind};
ghost use Rattle.book.specs.Data.{Gives, Ends, fault_on, record_of};

use crate::fault::{Cause, ReadFault};
use crate::lines::Line;
use crate::record::Record;
use std::alloc::Global;
use text::cut::step;
use text::row::{Bound, RowError, RowFault, read_row};

// A row's fault, at its line.
fn on_line(e: RowError, line: usize) -> ReadFault
    ensures value { result ≡ fault_on line e }
{
    match e {
        RowError::Refused(RowFault::Form(k)) => ReadFault::refused(Cause::Form, line, k),
        RowError::Refused(RowFault::Range(k)) => ReadFault::refused(Cause::Range, line, k),
        RowError::NoMemory => ReadFault::NoMemory,
    }
}

impl Line<'_> {
    // The refusal of a file for this line.
    pub(crate) fn refused(&self, cause: Cause, field: usize) -> ReadFault
        ensures value { result ≡ Refused (refuse cause self.now.number field) }
    {
        ReadFault::refused(cause, self.number, field)
    }

    // A line end has to follow.
    pub(crate) fn check_end(&self) -> Result<(), ReadFault>
        ensures value { Ends self.now.ended self.now.number result }
    {
        if self.ended {
            Ok(())
        } else {
            Err(self.refused(Cause::Form, 0))
        }
    }

    // Whether the first field is this kind. By `step`, which is proved to give that field: an iterator's first item could
    // be none.
    pub(crate) fn is_of(&self, kind: &[u8]) -> bool
        ensures value { result ≡ is_kind self.now.bytes.now kind.now }
    {
        let (first, _) = step(self.bytes, b',');
        first == kind
    }

    // The numbers of a line of this kind, one for each bound.
    fn numbers(&self, heap: Global, kind: &[u8], bounds: &[Bound]) -> Result<Vec<i64>, ReadFault>
        ensures by_the_definition { Gives vec_items result (record_of self.now.number (row kind.now bounds.now (fields self.now.bytes.now)) (λ zs. zs)) }
    {
        // by value: with `self` captured the check infers no promise of this closure
        let number = self.number;
        read_row(heap, self.bytes, kind, bounds).map_err(|e| on_line(e, number))
    }

    // The record that the line writes.
    pub(crate) fn record<R: Record>(&self, heap: Global) -> Result<R, ReadFault>
        ensures by_the_definition { Gives (λ r. r) result (record_of self.now.number (row R.kind R.bounds (fields self.now.bytes.now)) R.from) }
    {
        let numbers = self.numbers(heap, R::kind(), R::bounds())?;
        Ok(R::of_numbers(numbers.as_slice()))
    }
}
