// The records that have a line of their own in the file: its kind, and a number for each of their fields.
ghost use Rattle.std.specs.Prelude.{◌≡◌, ℕ, List, ◌++◌, take, ℤ, codes};
ghost use Rattle.text.specs.declared.row.Bound.{Bound as BoundOf};
ghost use Rattle.text.specs.Pages.{most_bytes, written};
ghost use Rattle.text.specs.Rows.{line};
ghost use Rattle.book.specs.Format.{Good, terms_values, asset_values, holder_values, terms_from, asset_from, holder_from, terms_bounds, asset_bounds, holder_bounds};

use crate::limits::{MOST_AGENT, MOST_MEMBER};
use crate::records::{Asset, Holder, Terms};
use text::page::Page;
use text::row::Bound;

// The range of each number of a line, as the file's format has it. A constant's value calls no function, so the
// limits are widened by `as`.
const TERMS_BOUNDS: [Bound; 2] = [
    Bound {
        low: 1,
        high: 1_000,
        zero: true,
    },
    Bound {
        low: 100,
        high: 100_000_000,
        zero: true,
    },
];

const ASSET_BOUNDS: [Bound; 3] = [
    Bound {
        low: 100_000,
        high: 2_000_000,
        zero: true,
    },
    Bound {
        low: 0,
        high: 10_000_000,
        zero: true,
    },
    Bound {
        low: 1,
        high: 210_000_000,
        zero: true,
    },
];

const HOLDER_BOUNDS: [Bound; 5] = [
    Bound {
        low: 1,
        high: MOST_MEMBER as i64,
        zero: true,
    },
    Bound {
        low: 1,
        high: 999_999,
        zero: true,
    },
    Bound {
        low: 1,
        high: MOST_MEMBER as i64,
        zero: true,
    },
    Bound {
        low: 1,
        high: MOST_AGENT as i64,
        zero: true,
    },
    Bound {
        low: -1_000_000,
        high: 1_000_000,
        zero: false,
    },
];

// A record that has a line of its own in the file.
pub(crate) trait Record: Sized {
    // the word with which the line begins
    ghost kind: { List ℕ };

    // the range of each number of the line
    ghost bounds: { List BoundOf };

    // the numbers of the line, and the record of numbers
    ghost numbers: { Self → List ℤ };

    ghost from: { List ℤ → Self };

    fn kind() -> &'static [u8]
        ensures word { result.now ≡ kind };

    fn bounds() -> &'static [Bound]
        ensures of_each_number { result.now ≡ bounds };

    // The record of a line's numbers. Each is within its bound, so the casts are proved to lose nothing; a `try_from`
    // would give up where nothing can fail.
    fn of_numbers(values: &[i64]) -> Self
        requires { Good bounds values.now }
        ensures field_by_field { result ≡ from values.now };

    // Adds its line to the page.
    fn push_to(&self, page: &mut Page)
        ensures line_is_appended { written page.new ≡ take most_bytes (written page.old ++ line kind (numbers self.now)) };
}

impl Record for Terms {
    ghost kind = { codes "terms" };

    ghost bounds = { terms_bounds };

    ghost numbers = { terms_values };

    ghost from = { terms_from };

    fn kind() -> &'static [u8] {
        b"terms"
    }

    fn bounds() -> &'static [Bound] {
        &TERMS_BOUNDS
    }

    fn of_numbers(values: &[i64]) -> Terms {
        Terms {
            multiplier: values[0] as u32,
            price: values[1] as u32,
        }
    }

    fn push_to(&self, page: &mut Page) {
        page.push_row(
            Self::kind(),
            &[i64::from(self.multiplier), i64::from(self.price)],
        );
    }
}

impl Record for Asset {
    ghost kind = { codes "asset" };

    ghost bounds = { asset_bounds };

    ghost numbers = { asset_values };

    ghost from = { asset_from };

    fn kind() -> &'static [u8] {
        b"asset"
    }

    fn bounds() -> &'static [Bound] {
        &ASSET_BOUNDS
    }

    fn of_numbers(values: &[i64]) -> Asset {
        Asset {
            factor: values[0] as u32,
            accrued: values[1] as u32,
            market: values[2] as u32,
        }
    }

    fn push_to(&self, page: &mut Page) {
        page.push_row(
            Self::kind(),
            &[
                i64::from(self.factor),
                i64::from(self.accrued),
                i64::from(self.market),
            ],
        );
    }
}

impl Record for Holder {
    ghost kind = { codes "holder" };

    ghost bounds = { holder_bounds };

    ghost numbers = { holder_values };

    ghost from = { holder_from };

    fn kind() -> &'static [u8] {
        b"holder"
    }

    fn bounds() -> &'static [Bound] {
        &HOLDER_BOUNDS
    }

    fn of_numbers(values: &[i64]) -> Holder {
        Holder {
            member: values[0] as u16,
            number: values[1] as u32,
            clearing: values[2] as u16,
            agent: values[3] as u8,
            position: values[4] as i32,
        }
    }

    fn push_to(&self, page: &mut Page) {
        let values = [
            i64::from(self.member),
            i64::from(self.number),
            i64::from(self.clearing),
            i64::from(self.agent),
            i64::from(self.position),
        ];
        page.push_row(Self::kind(), &values);
    }
}
