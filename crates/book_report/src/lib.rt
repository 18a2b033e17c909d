// For the programs that read a book: the book of a file or of standard input, and how its file is told.
#![tactic(auto)]

ghost use Rattle.std.specs.Prelude.{◌≡◌, IfOk, Some};
ghost use Rattle.book.specs.Data.{contents};
ghost use Rattle.book.specs.Reading.{reading};
ghost use Rattle.book_report.specs.Told.{Accepts, AcceptsBytes, accepted};

use book::book::Book;
use book::fault::ReadFault;
use std::fmt;
use std::io::Read;
use text::page::MOST_BYTES;

// How much of standard input is read: one byte past what a file may have tells that there are too many. Rust has no
// `From` between these two types.
const MOST_READ: u64 = MOST_BYTES as u64 + 1;

// An accepted file, as it is told: its book, and how many bytes it has.
#[derive(Clone, Copy)]
pub struct Accepted<'a> {
    pub book: &'a Book,
    pub bytes: usize,
}

// `accepted`, the bytes, the assets, the holders and the contracts bought, with commas between them.
impl fmt::Display for Accepted<'_> {
    ghost output = { λ a. Some (accepted (contents a.book.now) a.bytes) };

    fn fmt<W: fmt::Write>(&self, f: &mut fmt::Formatter<W>) -> fmt::Result {
        let assets = self.book.assets().len();
        let holders = self.book.holders().len();
        let bought = self.book.contracts_bought();
        write!(f, "accepted,{},{assets},{holders},{bought}", self.bytes)
    }
}

// Becomes the book of this file, and answers true. Where the file is refused, prints why, and answers false.
pub fn read_or_print(rt: &HostRuntime, book: &mut Book, file: &[u8]) -> anyhow::Result<bool>
    ensures true_where_accepted { IfOk result (λ yes. Accepts yes (reading file.now) (contents book.new)) }
{
    match book.read(rt.alloc(), file) {
        Ok(()) => Ok(true),
        Err(ReadFault::Refused(refusal)) => {
            println!(rt; "{refusal}")?;
            Ok(false)
        }
        Err(fault) => Err(fault.into()),
    }
}

// The bytes of standard input.
fn input(rt: &HostRuntime) -> anyhow::Result<Vec<u8>> {
    let mut bytes = Vec::new(rt.alloc());
    rt.stdin().take(MOST_READ).read_to_end(&mut bytes)?;
    Ok(bytes)
}

// The book of standard input, as the public function below says.
fn book_of_input(rt: &HostRuntime, book: &mut Book) -> anyhow::Result<Option<usize>>
    ensures bytes_of_its_text { IfOk result (λ n. AcceptsBytes n (contents book.new)) }
{
    let file = input(rt)?;
    let accepted = read_or_print(rt, book, file.as_slice())?;
    Ok(accepted.then_some(file.len()))
}

// Becomes the book of standard input, and answers how many bytes it has. Where it is refused, prints why, and answers
// none.
// A thin call, so that a wrong one is refused here, by this contract.
pub fn read_input(rt: &HostRuntime, book: &mut Book) -> anyhow::Result<Option<usize>>
    ensures bytes_of_its_text { IfOk result (λ n. AcceptsBytes n (contents book.new)) }
{
    book_of_input(rt, book)
}
