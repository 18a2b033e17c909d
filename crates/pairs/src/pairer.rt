// Pairing under way: the pairs of all groups, in the order made.
ghost use Rattle.std.specs.Prelude.{◌≡◌, ◌+◌, ◌<◌, ◌≤◌, [], ◌∷◌, ◌++◌, map, length, take, IfSome};
ghost use Rattle.book.specs.Limits.{most_holders, most_member};
ghost use Rattle.order.specs.First.{first, place_of};
ghost use Rattle.pairing.specs.Orders.{holder_leq};
ghost use Rattle.pairing.specs.InWords.{at};
ghost use Rattle.pairing.specs.Pairing.{paired, unpaired, in_group, in_groups, numbered, all_groups, and_then};
ghost use Rattle.pairing.proofs.PairRelations.{open_count};
ghost use Rattle.pairs.specs.Search.{passes, next_pair, Takes, exhaust};

use crate::search::{Choice, has_group, mask};
use arrayvec::ArrayVec;
use book::limits::{MOST_AGENT, MOST_HOLDERS, MOST_MEMBER};
use book::records::Holder;
use order::first_open;
use pairing::pair::{Pair, Unpaired};
use pairing::stage::{Group, Stage};
use std::array;
use std::marker::Model;

// Takes a pair's contracts off both of its holders.
fn lower_both(holders: &mut [Unpaired], p: Pair)
    requires { Takes holders.old p }
    ensures { holders.new ≡ paired p holders.old }
{
    holders[p.buyer].volume -= p.contracts;
    holders[p.seller].volume -= p.contracts;
}

// The holder at a place with all of its contracts unpaired. No Option: past the last one the table has empty holders.
fn unpaired_at(holders: &[Holder], place: usize) -> Unpaired
    ensures { result ≡ at (map unpaired holders.now) place }
{
    holders
        .get(place)
        .map_or(Unpaired::default(), |h| Unpaired::from(*h))
}

// All holders with all of their contracts unpaired, in the first places of a table.
// The bound on the holders stays a clause here, as in `rows`: a struct of this crate would only carry it to two callers.
fn unpaired_all(holders: &[Holder]) -> [Unpaired; MOST_HOLDERS]
    requires { length holders.now ≤ most_holders }
    ensures in_the_first_places { take (length holders.now) result ≡ map unpaired holders.now }
    ensures whole_table { length result ≡ most_holders }
{
    array::from_fn(|i| unpaired_at(holders, i))
}

// A pairing under way: the pairs made so far, and the holders with what each still has to pair. Its tables have fixed
// sizes, so that it asks for no memory.
#[derive(Drop)]
pub(crate) struct Pairer {
    pairs: ArrayVec<Pair, MOST_HOLDERS>,
    // no `ArrayVec`: each search copies them, and a copy of one is a `Result`; with a new one pushed at each search the
    // program `lines` took 50 to 65 percent more instructions by callgrind than with this array, on the books of docs/pairing.md
    holders: [Unpaired; MOST_HOLDERS],
    // where a search copies them to, as many as there are; it stays from search to search, since a new one is filled to its end
    standing: [Unpaired; MOST_HOLDERS],
    count: usize,
}

impl Model for Pairer {
    ghost use Rattle.std.specs.Prelude.{◌≡◌, ◌+◌, ◌≤◌, length, take};
    ghost use Rattle.book.specs.Limits.{most_holders};
    ghost use Rattle.arrayvec.specs.ArrayVec.{array_vec_len};
    ghost use Rattle.pairing.specs.Pairing.{Made};
    ghost use Rattle.pairing.proofs.PairRelations.{open_count};

    ghost Value = { Made };

    ghost view = { λ s. (s.pairs.items, take s.count s.holders) };

    // each pair closes a holder, so that there is room for all pairs
    ghost invariant = { λ s. (s.count ≤ most_holders) × (array_vec_len s.pairs + open_count (take s.count s.holders) ≤ most_holders)
        × (length s.holders ≡ most_holders) };
}

impl Pairer {
    // All holders with all of their contracts unpaired, and no pair yet.
    pub(crate) fn new(holders: &[Holder]) -> Self
        requires { length holders.now ≤ most_holders }
        ensures { result ≡ ([], map unpaired holders.now) }
    {
        Pairer {
            pairs: ArrayVec::new(),
            holders: unpaired_all(holders),
            standing: [Unpaired::default(); MOST_HOLDERS],
            count: holders.len(),
        }
    }

    // The pairs made so far.
    pub(crate) fn pairs(&self) -> &[Pair]
        ensures { result.now ≡ self.now.0 }
    {
        self.pairs.as_slice()
    }

    // The holders with what each still has to pair.
    fn holders(&self) -> &[Unpaired]
        ensures { result.now ≡ self.now.1 }
    {
        &self.holders[..self.count]
    }

    // The place of the holder that stands first for the next pair on one side.
    fn first_of(&mut self, group: Group, buys: bool, choice: Choice) -> Option<usize>
        ensures pairing_stays { self.new ≡ self.old }
        ensures within { IfSome result (λ b. b < length self.old.1) }
        ensures value { result ≡ place_of (first holder_leq (passes group buys choice self.old.1) self.old.1) }
    {
        let holders = &self.holders[..self.count];
        let table = &mut self.standing[..];
        let standing = &mut table[..self.count];
        standing.copy_from_slice(holders);
        mask(standing, holders, group, buys, choice);
        first_open(standing)
    }

    // The next pair of a group.
    fn next_pair(&mut self, group: Group, choice: Choice) -> Option<Pair>
        ensures pairing_stays { self.new ≡ self.old }
        ensures by_the_rule { result ≡ next_pair choice group self.old.1 }
    {
        let buyer = self.first_of(group, true, choice)?;
        let seller = self.first_of(group, false, choice)?;
        let holders = self.holders();
        let contracts = holders[buyer].volume.min(holders[seller].volume);
        Some(Pair {
            stage: group.stage,
            buyer,
            seller,
            contracts,
        })
    }

    // Notes a pair, and takes its contracts off both of its holders.
    fn add(&mut self, p: Pair)
        requires takes { Takes self.old.1 p }
        requires closes_one { open_count (paired p self.old.1) + 1 ≤ open_count self.old.1 }
        ensures { self.new ≡ (self.old.0 ++ p ∷ [], paired p self.old.1) }
    {
        lower_both(&mut self.holders[..self.count], p);
        self.pairs.push(p);
    }

    // Makes one pair after the other, until there is none.
    fn repeat_pairs(&mut self, group: Group, choice: Choice)
        ensures { self.new ≡ and_then self.old (exhaust (next_pair choice group)) }
    {
        while let Some(p) = self.next_pair(group, choice) {
            self.add(p);
        }
    }

    // The pairs of one group: while some volume stands on both sides, the first buyer and the first seller of the largest such
    // volume; then the first buyer and the first seller.
    fn pair_members(&mut self, group: Group)
        ensures { self.new ≡ and_then self.old (in_group group) }
    {
        self.repeat_pairs(group, Choice::EqualVolumes);
        self.repeat_pairs(group, Choice::Firsts);
    }

    // The same, where a group is gone into only if it has a holder: most numbers have none, and the walk over them has no
    // more than this test.
    fn pair_group(&mut self, group: Group)
        ensures { self.new ≡ and_then self.old (in_group group) }
    {
        if has_group(self.holders(), group) {
            self.pair_members(group);
        }
    }

    // The groups of a stage in ascending number, up to the highest.
    fn pair_stage(&mut self, stage: Stage, highest: u16)
        requires { highest ≤ most_member }
        ensures { self.new ≡ and_then self.old (in_groups (numbered stage 1 highest)) }
    {
        for number in 1..=highest {
            self.pair_group(Group { stage, number });
        }
    }

    // The pairs of all holders: by member, by clearing member, by payment agent and over the whole book.
    pub(crate) fn pair_all(&mut self)
        ensures { self.new ≡ and_then self.old (in_groups all_groups) }
    {
        // three calls are plain enough, and no loop over the stages: each goes up to a number of its own
        // the whole book is group 0, as the rule's own `key` has it: an Option would be turned back into that number
        self.pair_stage(Stage::Member, MOST_MEMBER);
        self.pair_stage(Stage::Clearing, MOST_MEMBER);
        self.pair_stage(Stage::Agent, u16::from(MOST_AGENT));
        self.pair_members(Group {
            stage: Stage::Whole,
            number: 0,
        });
    }
}
