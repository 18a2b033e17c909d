// Lines as they are listed: with the holders' names and the value of the contracts.
#![tactic(auto)]

ghost use Rattle.std.specs.Prelude.{◌≡◌, Some};
ghost use Rattle.book.specs.Books.{holder};
ghost use Rattle.book.specs.Data.{contents};
ghost use Rattle.listing.specs.Listed.{name_text, line_text, listed};

use book::book::Book;
use book::records::Holder;
use pairing::line::Line;
use pairing::stage::Stage;
use std::fmt;

// A holder's name: its member, and its number within the member.
#[derive(Clone, Copy)]
pub struct Name {
    pub member: u16,
    pub number: u32,
}

// A line as it is listed.
#[derive(Clone, Copy)]
pub struct ListedLine {
    pub number: usize,
    pub stage: Stage,
    pub buyer: Name,
    pub seller: Name,
    pub asset: u8,
    pub contracts: u32,
    pub value: u128,
}

impl fmt::Display for Name {
    ghost output = { λ n. Some (name_text n) };

    fn fmt<W: fmt::Write>(&self, f: &mut fmt::Formatter<W>) -> fmt::Result {
        let (member, number) = (self.member, self.number);
        write!(f, "{member},{number}")
    }
}

impl fmt::Display for ListedLine {
    ghost output = { λ l. Some (line_text l) };

    fn fmt<W: fmt::Write>(&self, f: &mut fmt::Formatter<W>) -> fmt::Result {
        let (number, stage) = (self.number, u8::from(self.stage));
        let (buyer, seller) = (self.buyer, self.seller);
        let (asset, contracts, value) = (self.asset, self.contracts, self.value);
        write!(
            f,
            "line,{number},{stage},{buyer},{seller},{asset},{contracts},{value}"
        )
    }
}

// Who is in a row that no book has: `list_line` names someone for every row, as the definition `holder` does.
const NOBODY: Holder = Holder {
    member: 0,
    number: 0,
    clearing: 0,
    agent: 0,
    position: 0,
};

// The holder in a row, from 1: one chain of the library's, which a method of the book would only hide.
fn holder_in(book: &Book, row: u16) -> Holder
    ensures { result ≡ holder (contents book.now) row }
{
    usize::from(row)
        .checked_sub(1)
        .and_then(|place| book.holders().get(place).copied())
        .unwrap_or(NOBODY)
}

// The name of the holder in a row.
fn name_in(book: &Book, row: u16) -> Name
    ensures { result ≡ record { member = (holder (contents book.now) row).member; number = (holder (contents book.now) row).number } }
{
    let h = holder_in(book, row);
    Name {
        member: h.member,
        number: h.number,
    }
}

// A line of a book, by its number, as it is listed.
pub fn list_line(book: &Book, number: usize, line: Line) -> ListedLine
    ensures names_and_value_of_the_line { result ≡ listed (contents book.now) number line }
{
    ListedLine {
        number,
        stage: line.stage,
        buyer: name_in(book, line.buyer),
        seller: name_in(book, line.seller),
        asset: line.asset,
        contracts: line.contracts,
        value: book.value(usize::from(line.asset), line.contracts),
    }
}

// Prints the lines of a book, numbered from 1, under their heading.
pub fn print_lines(rt: &HostRuntime, book: &Book, lines: &[Line]) -> anyhow::Result<()> {
    println!(rt; "lines,1")?;
    for (i, line) in lines.iter().enumerate() {
        let listed = list_line(book, i + 1, *line);
        println!(rt; "{listed}")?;
    }
    Ok(())
}
