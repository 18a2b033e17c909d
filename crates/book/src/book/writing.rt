// Writing a book to its file.
ghost use Rattle.std.specs.Prelude.{◌≡◌, ◌++◌, take};
ghost use Rattle.std.specs.List.{flat_map};
ghost use Rattle.text.specs.Pages.{most_bytes, written};
ghost use Rattle.text.specs.Rows.{line};
ghost use Rattle.book.specs.Format.{text as text_of};
ghost use Rattle.book.specs.Data.{contents, write_answer, write_leaves};

use crate::book::Book;
use crate::fault::WriteFault;
use crate::record::Record;
use text::page::Page;
use text::page::writing::put;

// The lines of these records, one after the other.
fn push_rows<R: Record>(page: &mut Page, rows: &[R])
    ensures lines_are_appended { written page.new ≡ take most_bytes (written page.old ++ flat_map (λ r. line R.kind (R.numbers r)) rows.now) }
{
    for r in rows {
        r.push_to(page);
    }
}

impl Book {
    // The text of the book, as far as a page goes.
    fn page(&self) -> Page
        ensures text_of_the_book { written result ≡ take most_bytes (text_of (contents self.now)) }
    {
        let mut page = Page::new();
        page.push_row(b"book", &[1]);
        self.terms.push_to(&mut page);
        push_rows(&mut page, self.assets.as_slice());
        push_rows(&mut page, self.holders.as_slice());
        page
    }

    // The text at the start of `out`.
    fn put_text(&self, out: &mut [u8]) -> Result<usize, WriteFault>
        ensures length_or_refusal { result ≡ write_answer (contents self.now) out.old }
        ensures text_then_later_bytes { out.new ≡ write_leaves (contents self.now) out.old }
    {
        if self.holders.is_empty() {
            return Err(WriteFault::EmptyBook);
        }
        let page = self.page();
        put(page.text(), out).map_err(|_| WriteFault::SmallBuffer)
    }

    // Writes the book's file at the start of `out`, and answers its length. Later bytes stay as they were; where
    // writing is refused, all do.
    // A thin call, so that a wrong one is refused here, by this contract.
    pub fn write(&self, out: &mut [u8]) -> Result<usize, WriteFault>
        ensures length_or_refusal { result ≡ write_answer (contents self.now) out.old }
        ensures text_then_later_bytes { out.new ≡ write_leaves (contents self.now) out.old }
    {
        self.put_text(out)
    }
}
