// Cutting bytes at a separator, one part at a time.
// Bytes and separator stay two arguments: callers cut one text at several separators in turn.
ghost use Rattle.std.specs.Prelude.{◌≡◌, ◌+◌, ◌==◌, length, take, drop};
ghost use Rattle.std.specs.List.{position};
ghost use Rattle.text.specs.Parts.{stop, parts};

// The place of the first `separator`.
fn place(rest: &[u8], separator: u8) -> Option<usize>
    ensures { result ≡ position (λ b. b == separator) rest.now }
{
    rest.iter().position(|b| *b == separator)
}

#[tactic(auto, using(crate::proofs::CutForms::stop_within))]
fn cut(rest: &[u8], separator: u8) -> (&[u8], &[u8])
    ensures part_ends_at_separator { result.0.now ≡ take (stop separator rest.now) rest.now }
    ensures rest_begins_there { result.1.now ≡ drop (stop separator rest.now) rest.now }
{
    let end = place(rest, separator).unwrap_or(rest.len());
    rest.split_at(end)
}

// The part of `rest` before the first `separator`, and the rest from that separator on.
// An empty rest means that there was no separator.
// A thin call, so that a wrong one is refused here, by this contract.
pub fn step(rest: &[u8], separator: u8) -> (&[u8], &[u8])
    ensures part_ends_at_separator { result.0.now ≡ take (stop separator rest.now) rest.now }
    ensures rest_begins_there { result.1.now ≡ drop (stop separator rest.now) rest.now }
{
    cut(rest, separator)
}

// How many separators there are: one fewer than there are parts.
#[tactic(auto, using(crate::proofs::CutForms::parts_count))]
pub(crate) fn separators(s: &[u8], separator: u8) -> usize
    ensures one_fewer_than_parts { result + 1 ≡ length (parts separator s.now) }
{
    s.iter().filter(|b| **b == separator).count()
}
