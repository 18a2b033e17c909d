// Reads a book file from standard input and prints whether it is accepted, or why not and where.
#![tactic(auto)]

use book::book::Book;
use book_report::{Accepted, read_input};

// Checks one file, and prints the line that says what it is.
fn check(rt: &HostRuntime) -> anyhow::Result<()> {
    let mut book = Book::empty(rt.alloc());
    if let Some(bytes) = read_input(rt, &mut book)? {
        let accepted = Accepted { book: &book, bytes };
        println!(rt; "{accepted}")?;
    }
    Ok(())
}

fn main(rt: HostRuntime) -> anyhow::Result<()> {
    check(&rt)
}
