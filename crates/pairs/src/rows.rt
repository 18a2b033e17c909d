// The lines of the rows of a book: holders to pair, pairs, lines.
ghost use Rattle.std.specs.Prelude.{◌≡◌, ◌*◌, ◌≤◌, [], map, length, take, drop};
ghost use Rattle.book.specs.Limits.{most_holders};
ghost use Rattle.pairing.specs.Laws.{places_a_holder};
ghost use Rattle.pairing.specs.Pairing.{in_groups, all_groups, unpaired};
ghost use Rattle.pairing.specs.Lines.{lines_of_pairs};
ghost use Rattle.pairs.specs.Records.{lots_from};

use crate::lines::add_pairs;
use crate::lots::Lots;
use crate::pairer::Pairer;
use book::records::Holder;
use pairing::line::Line;

// The lines of the rows of a book with these lots, into a table with four places a holder.
// The bound on the holders stays a clause, as in `pairer`: a struct of this crate would only carry it to two callers.
pub(crate) fn lines_of_rows(holders: &[Holder], lots: &Lots, lines: &mut [Line]) -> usize
    requires few { length holders.now ≤ most_holders }
    requires room { places_a_holder * length holders.now ≤ length lines.old }
    ensures by_the_rule { take result lines.new ≡ lines_of_pairs (lots_from lots.now.assets 1 lots.now.records.now) lots.now.assets (in_groups all_groups (map unpaired holders.now)).0 [] }
    ensures later_places_stay { drop result lines.new ≡ drop result lines.old }
    ensures room { result ≤ places_a_holder * length holders.now }
{
    let mut pairer = Pairer::new(holders);
    pairer.pair_all();
    add_pairs(pairer.pairs(), lots, lines)
}
