// Plays a table of books with notices, one in each line, and prints the lines of each.
#![tactic(auto)]

ghost use Rattle.std.specs.Prelude.{◌<◌, length};

use book::book::Book;
use book::limits::{MOST_HOLDERS, MOST_LINES};
use book::lines::Lines;
use book_report::read_or_print;
use cases::{read_table, unescape};
use listing::print_lines;
use pairing::line::Line;
use pairs::lots::SellerLots;
use pairs::whole_book::{hand_out, pair};
use text::cut::step;
use text::number::number;

// The part of a text up to a separator, and what stands after the separator: two calls of the libraries', no plainer if
// `cases` and `book` shared them.
fn cut(s: &[u8], separator: u8) -> (&[u8], &[u8])
    ensures fewer_bytes_left { 0 < length s.now → length result.1.now < length s.now }
{
    let (part, more) = step(s, separator);
    (part, more.get(1..).unwrap_or(more))
}

// A number of the table as a place or a count; 0 where it is none.
// No Option: what is missing in a case counts as 0, and of row 0 there is no record.
fn count(text: &[u8]) -> usize {
    number(text)
        .and_then(|n| usize::try_from(n).ok())
        .unwrap_or(0)
}

// Puts one lot, ROW:ASSET:CONTRACTS, into its record.
fn note(records: &mut [SellerLots], lot: &[u8]) {
    let (row, more) = cut(lot, b':');
    let (asset, contracts) = cut(more, b':');
    let contracts = u32::try_from(count(contracts)).unwrap_or(0);
    let Some(place) = count(row).checked_sub(1) else {
        return;
    };
    let Some(record) = records.get_mut(place) else {
        return;
    };
    if let Some(lots) = record.lots.get_mut(count(asset)) {
        *lots = contracts;
        record.notified = record.notified.saturating_add(contracts);
    }
}

// Pairs the book with these lots, the rest of each seller's contracts to the first deliverable, and prints its lines.
fn list(rt: &HostRuntime, book: &Book, lots: &[u8]) -> anyhow::Result<()> {
    let mut records = [SellerLots::NONE; MOST_HOLDERS];
    let mut table = [Line::NONE; MOST_LINES];
    for lot in lots.split(|b| *b == b' ') {
        note(&mut records, lot);
    }
    hand_out(book, &mut records)?;
    let lines = pair(book, &records, &mut table)?;
    print_lines(rt, book, &table[0..lines])
}

fn play_one(rt: &HostRuntime, book: &mut Book, case: &[u8]) -> anyhow::Result<()> {
    let (written, lots) = cut(case, b' ');
    let file = unescape(rt.alloc(), written)?;
    if read_or_print(rt, book, file.as_slice())? {
        list(rt, book, lots)?;
    }
    Ok(())
}

fn play(rt: &HostRuntime) -> anyhow::Result<()> {
    let table = read_table(rt)?;
    let mut book = Book::empty(rt.alloc());
    for line in Lines::of(table.as_slice()) {
        play_one(rt, &mut book, line.bytes)?;
    }
    Ok(())
}

fn main(rt: HostRuntime) -> anyhow::Result<()> {
    play(&rt)
}
