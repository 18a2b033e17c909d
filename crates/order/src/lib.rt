// First by an order: one search for every kind of record that has a total order.
#![tactic(auto)]

ghost use Rattle.std.specs.Prelude.{◌≡◌, ℕ, Bool, true, false, Option};
ghost use Rattle.order.specs.First.{FirstOpen, first, place_of};

// A record with a total order, in which some records are open.
// No `Ord`: it must compare all that `==` compares, and alike records need not be equal.
pub trait Ranked {
    // the first stands at or before the second in the order
    ghost leq: { Self → Self → Bool };

    // both are the same in everything that the order compares
    ghost alike: { Self → Self → Type 0 };

    // the record may be chosen
    ghost is_open: { Self → Bool };

    fn stands_before(&self, other: &Self) -> bool
        ensures compares_by_the_order { result ≡ leq self.now other.now };

    fn is_open(&self) -> bool
        ensures tells_if_open { result ≡ is_open self.now };

    ghost compares: { (x y : Self) → leq x y ≡ false → leq y x ≡ true };

    ghost ties: { (x y : Self) → leq x y ≡ true → leq y x ≡ true → alike x y };

    ghost carries: { (x y z : Self) → leq x y ≡ true → leq y z ≡ true → leq x z ≡ true };
}

// The place of the first open record by the order, the earliest in the list among alike ones, or that none is open.
// The words fix the answer, and it is the one of the definition that other rules cite.
// A thin call, so that a wrong one is refused here, by this contract.
pub fn first_open<T: Ranked>(records: &[T]) -> Option<usize>
    ensures first_by_the_order { FirstOpen T.Ranked.leq T.Ranked.is_open records.now result }
    ensures no_other_answer { (o : Option ℕ) → FirstOpen T.Ranked.leq T.Ranked.is_open records.now o → o ≡ result }
    ensures as_defined { result ≡ place_of (first T.Ranked.leq T.Ranked.is_open records.now) }
{
    search_all(records)
}

// The search, with what its answer means for the definition.
fn search_all<T: Ranked>(records: &[T]) -> Option<usize>
    ensures first_by_the_order { FirstOpen T.Ranked.leq T.Ranked.is_open records.now result }
    ensures no_other_answer { (o : Option ℕ) → FirstOpen T.Ranked.leq T.Ranked.is_open records.now o → o ≡ result }
    ensures as_defined { result ≡ place_of (first T.Ranked.leq T.Ranked.is_open records.now) }
{
    search(records)
}

// Whether the first record found so far stays the first beside a later one: it does if they are alike.
// A function of its own, so that a wrong comparison is refused here.
fn stays_first<T: Ranked>(found: &T, later: &T) -> bool
    ensures { result ≡ T.Ranked.leq found.now later.now }
{
    found.stands_before(later)
}

// The place of the first of the open records.
fn search<T: Ranked>(records: &[T]) -> Option<usize>
    ensures { FirstOpen T.Ranked.leq T.Ranked.is_open records.now result }
{
    records
        .iter()
        .enumerate()
        .filter(|(_, x)| x.is_open())
        .reduce(|found, later| if stays_first(found.1, later.1) {
            found
        } else {
            later
        })
        .map(|(i, _)| i)
}
