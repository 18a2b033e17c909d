// The two registers of an expiry: units of the assets that are delivered, and the cash that pays for them.
#[derive(Clone, Copy, PartialEq, Eq, Debug)]
pub enum Side {
    Securities,
    Cash,
}
