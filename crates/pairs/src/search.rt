// The search for the holders that stand for the next pair of a group.
ghost use Rattle.std.specs.Prelude.{◌≡◌, ◌==◌, ◌&&◌, map};
ghost use Rattle.std.specs.List.{list_any};
ghost use Rattle.pairing.specs.Pairing.{key, side_in};
ghost use Rattle.pairs.specs.Search.{passes, masked};

use pairing::pair::Unpaired;
use pairing::stage::{Group, Stage};

// Which holders of a group stand for the next pair: those with a volume that the other side has too, or all with volume.
// An enum and no closure: the definition `passes` matches on it, and a closure's contract would have to say the same.
#[derive(Clone, Copy)]
pub(crate) enum Choice {
    EqualVolumes,
    Firsts,
}

// The holder's number at this stage.
fn key_of(h: &Unpaired, stage: Stage) -> u16
    ensures { result ≡ key stage h.now }
{
    match stage {
        Stage::Member => h.member,
        Stage::Clearing => h.clearing,
        Stage::Agent => u16::from(h.agent),
        // 0, as the rule's own `key` has it: all holders are of one group
        Stage::Whole => 0,
    }
}

// Whether a holder of this group is there at all.
pub(crate) fn has_group(holders: &[Unpaired], group: Group) -> bool
    ensures { result ≡ list_any (λ h. key group.stage h == group.number) holders.now }
{
    holders
        .iter()
        .any(|h| key_of(h, group.stage) == group.number)
}

// An open holder of the group on this side. (A side is the flag `buys` that a holder has: an enum would only be turned
// into that flag again, here and in the rule's definition. Group and side stay two arguments here and below, as the
// definitions `side_in` and `passes` take them: a pair would be taken apart in each clause. The choice is a third, for the same
// reason.)
fn stands_in(h: &Unpaired, group: Group, buys: bool) -> bool
    ensures { result ≡ side_in group buys h.now }
{
    key_of(h, group.stage) == group.number && h.volume > 0 && h.buys == buys
}

// Whether an open holder of this side has this volume.
fn has_volume(holders: &[Unpaired], group: Group, buys: bool, volume: u32) -> bool
    ensures { result ≡ list_any (λ h. side_in group buys h && volume == h.volume) holders.now }
{
    holders
        .iter()
        .any(|h| stands_in(h, group, buys) && volume == h.volume)
}

// Whether a holder stands for the next pair; among equal volumes only if the other side has its volume too.
#[tactic(auto, using(crate::proofs::SomePass::any_is))]
fn stands_for(holders: &[Unpaired], h: &Unpaired, group: Group, buys: bool, choice: Choice) -> bool
    ensures { result ≡ passes group buys choice holders.now h.now }
{
    match choice {
        Choice::EqualVolumes => {
            stands_in(h, group, buys) && has_volume(holders, group, !buys, h.volume)
        }
        Choice::Firsts => stands_in(h, group, buys),
    }
}

// The holder as it stands, or with nothing to pair.
fn mask_one(h: Unpaired, stands: bool) -> Unpaired
    ensures { result ≡ masked stands h }
{
    if stands {
        h
    } else {
        Unpaired { volume: 0, ..h }
    }
}

// Leaves those that do not stand for the next pair on one side with nothing to pair.
pub(crate) fn mask(
    standing: &mut [Unpaired],
    holders: &[Unpaired],
    group: Group,
    buys: bool,
    choice: Choice,
)
    requires { standing.old ≡ holders.now }
    ensures { standing.new ≡ map (λ h. masked (passes group buys choice holders.now h) h) holders.now }
{
    for h in standing.iter_mut() {
        *h = mask_one(*h, stands_for(holders, h, group, buys, choice));
    }
}
