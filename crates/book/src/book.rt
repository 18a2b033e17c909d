// The book of one expiry.
ghost use Rattle.std.specs.Prelude.{◌≡◌, true};
ghost use Rattle.book.specs.Lawful.{kept};

use crate::records::{Asset, Holder, Terms};

pub mod questions;
pub mod reading;
pub mod writing;

// One expiry's terms, its deliverable assets, numbered from 0, and its holders, in rows from 1: what every book that
// exists has, or nothing at all, the empty book.
#[derive(Drop)]
pub struct Book {
    terms: Terms,
    assets: Vec<Asset>,
    holders: Vec<Holder>,
    ghost one_that_exists: { kept terms assets.items holders.items ≡ true },
}
