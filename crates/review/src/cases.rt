mod judge;

use games::deal::Terms;
use reading::sides::Sides;

/// What is to be checked: a record, for a side of a bay.
#[derive(Clone, Copy)]
pub struct Case<'a> {
    /// The side's machine sheet.
    pub machine: &'a [u8],
    /// The rule sheet that its machine is watched by.
    pub rule: &'a [u8],
    /// The bay's phase table.
    pub table: &'a [u8],
    pub side: u8,
    /// What each side promises, and relies on.
    pub terms: Sides<Terms>,
    /// The controller record.
    pub record: &'a [u8],
}
