//! The shapes of data lines: which fields they have.

ghost use Rattle.std.specs.Prelude.{◌≡◌, [], ◌∷◌, map};
ghost use Rattle.std.specs.Option.{option_map};
ghost use Rattle.mpslp_mps_fields.specs.DataLine.{pair, word_shape, row_shape, column_shape, is_marker_line, third_field, marker_shape, vector_shape, bound_shape};

use crate::bound_types::BoundType;
use crate::words::is_marker;
use std::marker::Model;

/// The parts of a line of ROWS.
#[derive(Drop)]
pub struct RowLine<'a> {
    /// The letter of the row's type.
    pub letter: &'a [u8],
    /// The name of the row.
    pub name: &'a [u8],
}

impl<'a> Model for RowLine<'a> {
    ghost use Rattle.mpslp_mps_fields.specs.DataLine.{RowLine};

    ghost Value = { RowLine };

    ghost view = { λ l. record { letter = l.letter.now; name = l.name.now } };
}

/// A row and a number literal.
#[derive(Drop)]
pub struct Pair<'a> {
    /// The name of the row.
    pub row: &'a [u8],
    /// The literal of the value.
    pub literal: &'a [u8],
}

impl<'a> Model for Pair<'a> {
    ghost use Rattle.mpslp_mps_fields.specs.DataLine.{Pair};

    ghost Value = { Pair };

    ghost view = { λ p. record { row = p.row.now; literal = p.literal.now } };
}

/// One or two pairs. Contracts see them as a list.
#[derive(Drop)]
pub struct Pairs<'a> {
    /// The first pair.
    pub first: Pair<'a>,
    /// The second pair, if there is one.
    pub second: Option<Pair<'a>>,
}

impl<'a> Model for Pairs<'a> {
    ghost use Rattle.std.specs.Prelude.{List, [], ◌∷◌};
    ghost use Rattle.std.specs.List.{cons_option};
    ghost use Rattle.mpslp_mps_fields.specs.DataLine.{Pair};

    ghost Value = { List Pair };

    ghost view = { λ p. p.first ∷ cons_option p.second [] };
}

/// One pair.
fn one_pair<'a>(row: &'a [u8], literal: &'a [u8]) -> Pairs<'a>
    ensures { result ≡ pair row.now literal.now ∷ [] }
{
    Pairs {
        first: Pair { row, literal },
        second: None,
    }
}

/// Two pairs.
fn two_pairs<'a>(row: &'a [u8], literal: &'a [u8], other: &'a [u8], second: &'a [u8]) -> Pairs<'a>
    ensures { result ≡ pair row.now literal.now ∷ pair other.now second.now ∷ [] }
{
    Pairs {
        first: Pair { row, literal },
        second: Some(Pair {
            row: other,
            literal: second,
        }),
    }
}

/// The parts of a line of COLUMNS, RHS or RANGES.
#[derive(Drop)]
pub struct ValuesLine<'a> {
    /// The column of a line of COLUMNS, or the set name of a line of RHS or RANGES, empty if absent.
    pub name: &'a [u8],
    /// One or two pairs of row and value.
    pub pairs: Pairs<'a>,
}

impl<'a> Model for ValuesLine<'a> {
    ghost use Rattle.mpslp_mps_fields.specs.DataLine.{ValuesLine};

    ghost Value = { ValuesLine };

    ghost view = { λ l. record { name = l.name.now; pairs = l.pairs } };
}

/// The parts of a line of BOUNDS after its type.
#[derive(Drop)]
pub struct BoundLine<'a> {
    /// The set name, empty if absent.
    pub set: &'a [u8],
    /// The name of the column.
    pub column: &'a [u8],
    /// The literal of the value, if the type takes one.
    pub literal: Option<&'a [u8]>,
}

impl<'a> Model for BoundLine<'a> {
    ghost use Rattle.std.specs.Option.{option_map};
    ghost use Rattle.mpslp_mps_fields.specs.DataLine.{BoundLine};

    ghost Value = { BoundLine };

    ghost view = { λ l. record { set = l.set.now; column = l.column.now; literal = option_map (λ literal. literal.now) l.literal } };
}

/// The word of OBJSENSE or OBJNAME; `None` unless there is one field.
pub fn word_shape<'a>(fields: &[&'a [u8]]) -> Option<&'a [u8]>
    ensures { option_map (λ word. word.now) result ≡ word_shape (map (λ field. field.now) fields.now) }
{
    match fields {
        [word] => Some(*word),
        _ => None,
    }
}

/// The parts of a line of ROWS; `None` unless it has two fields.
pub fn row_shape<'a>(fields: &[&'a [u8]]) -> Option<RowLine<'a>>
    ensures { result ≡ row_shape (map (λ field. field.now) fields.now) }
{
    match fields {
        [letter, name] => Some(RowLine {
            letter: *letter,
            name: *name,
        }),
        _ => None,
    }
}

/// The parts of a line of COLUMNS that is not a marker line; `None` unless it has three or five fields.
pub fn column_shape<'a>(fields: &[&'a [u8]]) -> Option<ValuesLine<'a>>
    ensures { result ≡ column_shape (map (λ field. field.now) fields.now) }
{
    match fields {
        [column, row, literal] => Some(ValuesLine {
            name: *column,
            pairs: one_pair(row, literal),
        }),
        [column, row, literal, other, second] => Some(ValuesLine {
            name: *column,
            pairs: two_pairs(row, literal, other, second),
        }),
        _ => None,
    }
}

/// Whether a line of COLUMNS is a marker line: its second field is `'MARKER'`.
pub fn is_marker_line(fields: &[&[u8]]) -> bool
    ensures { result ≡ is_marker_line (map (λ field. field.now) fields.now) }
{
    match fields {
        [_, second, ..] => is_marker(second),
        _ => false,
    }
}

/// The third field of a line; `None` if it has fewer.
pub fn third_field<'a>(fields: &[&'a [u8]]) -> Option<&'a [u8]>
    ensures { option_map (λ field. field.now) result ≡ third_field (map (λ field. field.now) fields.now) }
{
    match fields {
        [_, _, third, ..] => Some(*third),
        _ => None,
    }
}

/// The word of a marker line; `None` unless the line has three fields.
pub fn marker_shape<'a>(fields: &[&'a [u8]]) -> Option<&'a [u8]>
    ensures { option_map (λ word. word.now) result ≡ marker_shape (map (λ field. field.now) fields.now) }
{
    match fields {
        [_, _, word] => Some(*word),
        _ => None,
    }
}

/// The parts of a line of RHS or RANGES; `None` unless it has two to five fields.
pub fn vector_shape<'a>(fields: &[&'a [u8]]) -> Option<ValuesLine<'a>>
    ensures { result ≡ vector_shape (map (λ field. field.now) fields.now) }
{
    match fields {
        [row, literal] => Some(ValuesLine {
            name: &[],
            pairs: one_pair(row, literal),
        }),
        [set, row, literal] => Some(ValuesLine {
            name: *set,
            pairs: one_pair(row, literal),
        }),
        [row, literal, other, second] => Some(ValuesLine {
            name: &[],
            pairs: two_pairs(row, literal, other, second),
        }),
        [set, row, literal, other, second] => Some(ValuesLine {
            name: *set,
            pairs: two_pairs(row, literal, other, second),
        }),
        _ => None,
    }
}

/// The parts of a line of BOUNDS after its type; `None` if it has another number of fields. If the type takes no value, a
/// third field is ignored.
pub fn bound_shape<'a>(bound_type: BoundType, more: &[&'a [u8]]) -> Option<BoundLine<'a>>
    ensures { result ≡ bound_shape bound_type (map (λ field. field.now) more.now) }
{
    match (bound_type.takes_value(), more) {
        (true, [column, literal]) => Some(BoundLine {
            set: &[],
            column: *column,
            literal: Some(*literal),
        }),
        (true, [set, column, literal]) => Some(BoundLine {
            set: *set,
            column: *column,
            literal: Some(*literal),
        }),
        (false, [column]) => Some(BoundLine {
            set: &[],
            column: *column,
            literal: None,
        }),
        (false, [set, column]) | (false, [set, column, _]) => Some(BoundLine {
            set: *set,
            column: *column,
            literal: None,
        }),
        _ => None,
    }
}
