// Pairing a book: the calls.
ghost use Rattle.std.specs.Prelude.{◌≡◌, ◌*◌, ◌<◌, ◌≤◌, true, [], length, IfOk, OnOk};
ghost use Rattle.book.specs.Limits.{most_holders};
ghost use Rattle.book.specs.Data.{contents};
ghost use Rattle.pairing.specs.Lines.{added};
ghost use Rattle.pairing.specs.Laws.{Notified, Lawful};
ghost use Rattle.pairs.specs.Records.{lots_in, all_empty};
ghost use Rattle.pairs.specs.Outcome.{pair_answer, pair_leaves, OfLines, hand_answer, hand_leaves, Adds};

use crate::deliverables::first_deliverable;
use crate::fault::PairingFault;
use crate::handing::Ending;
use crate::lots::{Lots, SellerLots};
use crate::rows::lines_of_rows;
use book::book::Book;
use book::limits::{LINES_A_HOLDER, MOST_HOLDERS};
use pairing::line::Line;

// Pairs the book and writes its lines.
fn pair_book(book: &Book, lots: &[SellerLots], lines: &mut [Line]) -> Result<usize, PairingFault>
    ensures answers_the_count { result ≡ pair_answer (contents book.now) (lots_in (contents book.now) lots.now) lines.old }
    ensures lines_as_defined { lines.new ≡ pair_leaves (contents book.now) (lots_in (contents book.now) lots.now) lines.old }
    ensures count_within_the_table { IfOk result (λ n. n ≤ length lines.old) }
{
    let holders = book.holders();
    if lines.len() < LINES_A_HOLDER * holders.len() {
        return Err(PairingFault::FewLines);
    }
    let lots = Lots {
        records: lots,
        // a book has at most four assets, so that the cast loses nothing
        assets: book.assets().len() as u8,
    };
    Ok(lines_of_rows(holders, &lots, lines))
}

// The same, with what the laws say of the lines: a layer of its own, since the laws are proved of what is written above,
// by its contract alone.
fn pair_by_law(book: &Book, lots: &[SellerLots], lines: &mut [Line]) -> Result<usize, PairingFault>
    ensures answers_the_count { result ≡ pair_answer (contents book.now) (lots_in (contents book.now) lots.now) lines.old }
    ensures lines_as_defined { lines.new ≡ pair_leaves (contents book.now) (lots_in (contents book.now) lots.now) lines.old }
    ensures count_within_the_table { IfOk result (λ n. n ≤ length lines.old) }
    ensures lines_keep_the_laws { OfLines result lines.new (λ ls. 0 < length (contents book.now).holders → Lawful (contents book.now) (lots_in (contents book.now) lots.now) ls) }
{
    pair_book(book, lots, lines)
}

// Pairs the book with the sellers' lots and writes its lines into the first places of the table; a table with fewer than
// four places a holder is refused. It asks for no memory.
// A thin call, so that a wrong one is refused here, by this contract.
pub fn pair(book: &Book, lots: &[SellerLots], lines: &mut [Line]) -> Result<usize, PairingFault>
    ensures answers_the_count { result ≡ pair_answer (contents book.now) (lots_in (contents book.now) lots.now) lines.old }
    ensures lines_as_defined { lines.new ≡ pair_leaves (contents book.now) (lots_in (contents book.now) lots.now) lines.old }
    ensures count_within_the_table { IfOk result (λ n. n ≤ length lines.old) }
    ensures lines_keep_the_laws { OfLines result lines.new (λ ls. 0 < length (contents book.now).holders → Lawful (contents book.now) (lots_in (contents book.now) lots.now) ls) }
{
    pair_by_law(book, lots, lines)
}

// Gives each seller's unnotified contracts to the first deliverable.
fn hand_to_first(book: &Book, records: &mut [SellerLots]) -> Result<(), PairingFault>
    ensures answers_if_handed_out { result ≡ hand_answer (contents book.now) records.old }
    ensures records_as_defined { records.new ≡ hand_leaves (contents book.now) records.old }
    ensures adds_what_the_end_adds { OnOk result (Adds (contents book.now) records.old records.new) }
{
    let holders = book.holders();
    if records.len() < holders.len() {
        return Err(PairingFault::FewRecords);
    }
    let Some(first) = first_deliverable(book) else {
        // a book with no asset has no holder either
        return Ok(());
    };
    let ending = Ending {
        assets: book.assets().len(),
        first,
    };
    ending.hand_rows(holders, records);
    Ok(())
}

// Gives each seller's unnotified contracts to the first deliverable, as the end of the notices does; refused where there
// are fewer records than holders.
// A thin call, so that a wrong one is refused here, by this contract.
pub fn hand_out(book: &Book, records: &mut [SellerLots]) -> Result<(), PairingFault>
    ensures answers_if_handed_out { result ≡ hand_answer (contents book.now) records.old }
    ensures records_as_defined { records.new ≡ hand_leaves (contents book.now) records.old }
    ensures adds_what_the_end_adds { OnOk result (Adds (contents book.now) records.old records.new) }
{
    hand_to_first(book, records)
}

// Pairs a book without notices, with a table of records that are all empty.
fn pair_from_empty(
    book: &Book,
    records: &mut [SellerLots],
    lines: &mut [Line],
) -> Result<usize, PairingFault>
    requires empty { all_empty records.old ≡ true }
    requires room { most_holders ≤ length records.old }
    ensures answers_the_count { result ≡ pair_answer (contents book.now) (added (contents book.now) []) lines.old }
    ensures lines_as_defined { lines.new ≡ pair_leaves (contents book.now) (added (contents book.now) []) lines.old }
    ensures count_within_the_table { IfOk result (λ n. n ≤ length lines.old) }
    ensures lines_keep_the_laws { OfLines result lines.new (λ ls. 0 < length (contents book.now).holders → Notified (contents book.now) (added (contents book.now) []) × Lawful (contents book.now) (added (contents book.now) []) ls) }
{
    hand_out(book, records)?;
    pair(book, records, lines)
}

// Pairs a book without notices: every seller's contracts go to the first deliverable, so that all laws hold.
pub fn pair_without_notices(book: &Book, lines: &mut [Line]) -> Result<usize, PairingFault>
    ensures answers_the_count { result ≡ pair_answer (contents book.now) (added (contents book.now) []) lines.old }
    ensures lines_as_defined { lines.new ≡ pair_leaves (contents book.now) (added (contents book.now) []) lines.old }
    ensures count_within_the_table { IfOk result (λ n. n ≤ length lines.old) }
    ensures lines_keep_the_laws { OfLines result lines.new (λ ls. 0 < length (contents book.now).holders → Notified (contents book.now) (added (contents book.now) []) × Lawful (contents book.now) (added (contents book.now) []) ls) }
{
    let mut records = [SellerLots::NONE; MOST_HOLDERS];
    pair_from_empty(book, &mut records, lines)
}
