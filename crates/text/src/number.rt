// Numbers of a file: base ten, with no leading zero, no plus and no -0.
ghost use Rattle.std.specs.Prelude.{◌≡◌, min, pos, if◌then◌else◌, Some, None};
ghost use Rattle.std.specs.Option.{option_map};
ghost use Rattle.std.specs.Str.{all_ascii_digits};
ghost use Rattle.text.specs.Number.{read_on, natural as natural_of, number as number_of, held, limit};

// One past `MOST` of the rows, the largest number that any field may have: a longer number is held here, and is out of
// range all the same.
const LIMIT: u64 = 1_000_000_000_000_000_001;

// The number that the digits write, held at the limit; none where a byte is no digit.
#[tactic(auto, using(crate::proofs::Scans::scan_none, crate::proofs::Scans::scan_end, crate::proofs::NumberForms::scan_is))]
fn magnitude(digits: &[u8]) -> Option<u64>
    ensures held_value_of_digits { result ≡ (if all_ascii_digits digits.now then Some (min limit (read_on 0 digits.now)) else None) }
{
    // a loop, since `try_fold` would give its closure a contract, and be no plainer
    let mut n: u64 = 0;
    for b in digits {
        if !b.is_ascii_digit() {
            return None;
        }
        n = (n * 10 + u64::from(*b - b'0')).min(LIMIT);
    }
    Some(n)
}

// The number that a field without a sign writes, held at the limit.
fn natural(field: &[u8]) -> Option<i64>
    ensures held_value_of_field { result ≡ option_map (λ n. pos (min limit n)) (natural_of field.now) }
{
    match field {
        [] | [b'0', _, ..] => None,
        digits => i64::try_from(magnitude(digits)?).ok(),
    }
}

// The number that a field writes, held at the limit on both sides of 0; none where it has another form.
fn signed(field: &[u8]) -> Option<i64>
    ensures held_value_of_field { result ≡ option_map held (number_of field.now) }
{
    match field {
        [b'-', digits @ ..] => natural(digits).filter(|n| *n > 0).map(|n| -n),
        _ => natural(field),
    }
}

// The number that a field writes, held at the limit on both sides of 0; none where it has another form.
// A thin call, so that a wrong one is refused here, by this contract.
pub fn number(field: &[u8]) -> Option<i64>
    ensures held_value_of_field { result ≡ option_map held (number_of field.now) }
{
    signed(field)
}
