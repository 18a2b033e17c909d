// Plays a table of book files, one in each line, and prints what `check_book` says of each.
#![tactic(auto)]

use anyhow::anyhow;
use book::book::Book;
use book::lines::Lines;
use book_report::{Accepted, read_or_print};
use cases::{read_table, unescape};
use text::page::MOST_BYTES;

// Says what the file is. An accepted book is written again, and must give the file.
fn check(rt: &HostRuntime, book: &mut Book, file: &[u8]) -> anyhow::Result<()> {
    if !read_or_print(rt, book, file)? {
        return Ok(());
    }
    let mut out = [0u8; MOST_BYTES];
    let bytes = book.write(&mut out)?;
    if out.get(..bytes) != Some(file) {
        return Err(anyhow!("an accepted file is not the one that is written"));
    }
    let accepted = Accepted { book, bytes };
    println!(rt; "{accepted}")?;
    Ok(())
}

fn play(rt: &HostRuntime) -> anyhow::Result<()> {
    let table = read_table(rt)?;
    let mut book = Book::empty(rt.alloc());
    for line in Lines::of(table.as_slice()) {
        let file = unescape(rt.alloc(), line.bytes)?;
        check(rt, &mut book, file.as_slice())?;
    }
    Ok(())
}

fn main(rt: HostRuntime) -> anyhow::Result<()> {
    play(&rt)
}
