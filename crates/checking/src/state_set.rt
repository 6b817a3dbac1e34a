mod ask;

/// A set of states below 256, a bit for each.
#[derive(Clone, Copy, PartialEq, Eq, Debug)]
pub(crate) struct StateSet {
    // two words with names: of an array the check does not see that each word fits
    low: u128,
    high: u128,
}
