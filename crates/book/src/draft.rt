// A book while its file is read, line by line.
ghost use Rattle.std.specs.Prelude.{◌≡◌, true};
ghost use Rattle.text.specs.Parts.{parts};
ghost use Rattle.book.specs.Reading.{heading_read, terms_read, asset_read, holder_read, row_read, row_added, next, overfull as overfull_of, asset_next, holder_next, start, read_on, reading};
ghost use Rattle.book.specs.Data.{draft_of, Does, Gives};

use crate::awaits::Awaits;
use crate::fault::{Cause, ReadFault};
use crate::limits::{MOST_ASSETS, MOST_HOLDERS};
use crate::lines::{Line, Lines};
use crate::record::Record;
use crate::records::{Asset, Holder, Terms};
use crate::rows::{Rows, agrees, ascends};
use std::alloc::Global;
use text::page::MOST_BYTES;

// What was read so far.
#[derive(Drop)]
pub struct Draft {
    pub awaits: Awaits,
    pub terms: Terms,
    pub assets: Vec<Asset>,
    pub holders: Vec<Holder>,
}

impl Draft {
    fn new(heap: Global) -> Draft
        ensures nothing_read { draft_of result ≡ start }
    {
        Draft {
            awaits: Awaits::Heading,
            terms: Terms::default(),
            assets: Vec::new(heap),
            holders: Vec::new(heap),
        }
    }

    fn take_heading(&mut self, line: &Line<'_>) -> Result<(), ReadFault>
        ensures by_the_definition { Does result (heading_read line.now.number (draft_of self.old).book line.now.bytes.now line.now.ended) (draft_of self.new) }
    {
        if line.bytes != b"book,1".as_slice() {
            return Err(line.refused(Cause::Heading, 0));
        }
        line.check_end()?;
        self.awaits = Awaits::Terms;
        Ok(())
    }

    fn take_terms(&mut self, heap: Global, line: &Line<'_>) -> Result<(), ReadFault>
        ensures by_the_definition { Does result (terms_read line.now.number (draft_of self.old).book line.now.bytes.now) (draft_of self.new) }
    {
        self.terms = line.record(heap)?;
        self.awaits = Awaits::Rows;
        Ok(())
    }

    fn take_asset(&mut self, heap: Global, line: &Line<'_>) -> Result<(), ReadFault>
        ensures by_the_definition { Does result (asset_read line.now.number (draft_of self.old).book line.now.bytes.now) (draft_of self.new) }
    {
        self.assets.push(line.record(heap)?)?;
        self.awaits = Awaits::Rows;
        Ok(())
    }

    // A row more, after those before it.
    fn add_holder(&mut self, h: Holder, line: &Line<'_>) -> Result<(), ReadFault>
        ensures by_the_definition { Does result (row_added line.now.number (draft_of self.old).book h) (draft_of self.new) }
    {
        if !ascends(self.holders.as_slice(), &h) {
            return Err(line.refused(Cause::Order, 0));
        }
        if !agrees(self.holders.as_slice(), &h) {
            return Err(line.refused(Cause::Grouping, 0));
        }
        self.holders.push(h)?;
        self.awaits = Awaits::Rows;
        Ok(())
    }

    fn take_holder(&mut self, heap: Global, line: &Line<'_>) -> Result<(), ReadFault>
        ensures by_the_definition { Does result (holder_read line.now.number (draft_of self.old).book line.now.bytes.now) (draft_of self.new) }
    {
        self.add_holder(line.record(heap)?, line)
    }

    // An asset may come before the first holder, while there are fewer than four.
    fn asset_comes(&self, line: &Line<'_>) -> bool
        ensures value { result ≡ asset_next (draft_of self.now).book line.now.bytes.now }
    {
        line.is_of(Asset::kind()) && self.holders.is_empty() && self.assets.len() < MOST_ASSETS
    }

    // A holder may come after an asset.
    fn holder_comes(&self, line: &Line<'_>) -> bool
        ensures value { result ≡ holder_next (draft_of self.now).book line.now.bytes.now }
    {
        line.is_of(Holder::kind()) && !self.assets.is_empty()
    }

    // One holder too many.
    fn is_overfull(&self, line: &Line<'_>) -> bool
        ensures value { result ≡ overfull_of (draft_of self.now).book line.now.bytes.now }
    {
        line.is_of(Holder::kind()) && MOST_HOLDERS <= self.holders.len()
    }

    fn take_row(&mut self, heap: Global, line: &Line<'_>) -> Result<(), ReadFault>
        ensures by_the_definition { Does result (row_read line.now.number (draft_of self.old).book line.now.bytes.now) (draft_of self.new) }
    {
        if self.asset_comes(line) {
            self.take_asset(heap, line)
        } else if self.holder_comes(line) {
            self.take_holder(heap, line)
        } else {
            Err(line.refused(Cause::Form, 1))
        }
    }

    // One line more.
    fn take_line(&mut self, heap: Global, line: &Line<'_>) -> Result<(), ReadFault>
        ensures by_the_definition { Does result (next line.now.number (draft_of self.old) line.now.bytes.now line.now.ended) (draft_of self.new) }
    {
        match self.awaits {
            Awaits::Heading => self.take_heading(line),
            Awaits::Terms => {
                line.check_end()?;
                self.take_terms(heap, line)
            }
            Awaits::Rows => {
                if self.is_overfull(line) {
                    return Err(line.refused(Cause::Size, 0));
                }
                line.check_end()?;
                self.take_row(heap, line)
            }
        }
    }
}

// Reads the lines of a file.
fn read_lines(heap: Global, file: &[u8]) -> Result<Draft, ReadFault>
    ensures by_the_definition { Gives draft_of result (read_on 1 start (parts 10 file.now)) }
{
    let mut draft = Draft::new(heap);
    for line in Lines::of(file) {
        draft.take_line(heap, &line)?;
    }
    Ok(draft)
}

// Reads a whole file, up to what its holders add up to.
pub(crate) fn read_file(heap: Global, file: &[u8]) -> Result<Draft, ReadFault>
    ensures by_the_definition { Gives (λ d. (draft_of d).book) result (reading file.now) }
{
    if file.len() > MOST_BYTES {
        return Err(ReadFault::refused(Cause::Size, 0, 0));
    }
    let draft = read_lines(heap, file)?;
    let rows = Rows {
        holders: draft.holders.as_slice(),
    };
    if !rows.is_complete() {
        return Err(ReadFault::refused(Cause::Holdings, 0, 0));
    }
    Ok(draft)
}
