// Reads a book file from standard input, pairs the book without notices and prints its lines, or why it is refused.
#![tactic(auto)]

use book::book::Book;
use book::limits::MOST_LINES;
use book_report::read_input;
use listing::print_lines;
use pairing::line::Line;
use pairs::whole_book::pair_without_notices;

// Pairs the book and prints its lines.
fn list(rt: &HostRuntime, book: &Book) -> anyhow::Result<()> {
    let mut table = [Line::NONE; MOST_LINES];
    let count = pair_without_notices(book, &mut table)?;
    print_lines(rt, book, &table[0..count])
}

fn run(rt: &HostRuntime) -> anyhow::Result<()> {
    let mut book = Book::empty(rt.alloc());
    if read_input(rt, &mut book)?.is_some() {
        list(rt, &book)?;
    }
    Ok(())
}

fn main(rt: HostRuntime) -> anyhow::Result<()> {
    run(&rt)
}
