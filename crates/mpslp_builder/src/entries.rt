//! One or two coefficients of a column, which a line of COLUMNS has.

use mpslp_decimal::Decimal;

/// A coefficient of a column: its row, or the objective, and its value.
#[derive(Clone, Copy)]
pub struct Entry<'a> {
    /// The name of the row.
    pub row: &'a [u8],
    /// The value.
    pub value: Decimal,
}

/// One or two coefficients of a column.
#[derive(Clone, Copy)]
pub struct Entries<'a> {
    /// The first coefficient.
    pub first: Entry<'a>,
    /// The second coefficient, if there is one.
    pub second: Option<Entry<'a>>,
}
