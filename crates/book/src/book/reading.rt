// Reading a book from its file.
ghost use Rattle.std.specs.Prelude.{◌≡◌, Ok, Err};
ghost use Rattle.book.specs.Books.{empty as empty_book};
ghost use Rattle.book.specs.Reading.{reading};
ghost use Rattle.book.specs.Data.{contents, Gives, Reads};
ghost use Rattle.book.specs.Laws.{AcceptsExactlyTexts};

use crate::book::Book;
use crate::draft::{Draft, read_file};
use crate::fault::ReadFault;
use crate::records::Terms;
use std::alloc::Global;

impl Book {
    // The empty book: no terms, no asset, no holder.
    pub fn empty(heap: Global) -> Book
        ensures all_zero { contents result ≡ empty_book }
    {
        Book {
            terms: Terms::default(),
            assets: Vec::new(heap),
            holders: Vec::new(heap),
        }
    }

    // The book of a file.
    fn of_file(heap: Global, file: &[u8]) -> Result<Book, ReadFault>
        ensures by_the_definition { Gives contents result (reading file.now) }
    {
        let Draft {
            awaits: _,
            terms,
            assets,
            holders,
        } = read_file(heap, file)?;
        Ok(Book {
            terms,
            assets,
            holders,
        })
    }

    fn become_book_of(&mut self, heap: Global, file: &[u8]) -> Result<(), ReadFault>
        ensures by_the_definition { Reads result (reading file.now) (contents self.new) }
        ensures accepts_exactly_the_texts_of_books { AcceptsExactlyTexts result file.now (contents self.new) }
    {
        *self = Book::empty(heap);
        *self = Book::of_file(heap, file)?;
        Ok(())
    }

    // Becomes the book of this file; where the file is refused, or there is no memory, the empty book.
    // A thin call, so that a wrong one is refused here, by this contract.
    pub fn read(&mut self, heap: Global, file: &[u8]) -> Result<(), ReadFault>
        ensures by_the_definition { Reads result (reading file.now) (contents self.new) }
        ensures accepts_exactly_the_texts_of_books { AcceptsExactlyTexts result file.now (contents self.new) }
    {
        self.become_book_of(heap, file)
    }
}
