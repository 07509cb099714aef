//! Lines that would make a column both integer and semi-continuous.
//!
//! This error is reported before an error in a name or a number of the line, so it is checked before these are read.

ghost use Rattle.std.specs.Prelude.{◌≡◌, ◌∷◌, map, false};
ghost use Rattle.std.specs.Option.{option_map_or};
ghost use Rattle.mpslp_builder.specs.Declaration.{is_integer, is_semi};
ghost use Rattle.mpslp_lines.specs.Declaring.{is_kind_clash};
ghost use Rattle.mpslp_mps_fields.specs.DataLine.{column_shape, bound_shape};
ghost use Rattle.mpslp_mps.specs.KindClash.{column_clash, type_clash, bound_clash, line_clash};

use crate::context::LineContext;
use mpslp_model::laws::each_builder_is_made;
use mpslp_model::{BuildFault, Builder};
use mpslp_mps_fields::{
    BoundType, bound_shape, bound_type, column_shape, is_integer_type, is_semi_type,
};

/// Whether the error is that of a column of the other type.
fn is_kind_clash(fault: BuildFault) -> bool
    ensures { result ≡ is_kind_clash fault }
{
    match fault {
        BuildFault::SemiContinuous => true,
        _ => false,
    }
}

/// Whether the column is semi-continuous.
fn is_semi(builder: &Builder, column: &[u8]) -> bool
    ensures { result ≡ is_semi builder.now column.now }
{
    each_builder_is_made(builder);
    match builder.check_integer(column) {
        Err(fault) => is_kind_clash(fault),
        Ok(()) => false,
    }
}

/// Whether the column is integer or marked.
fn is_integer(builder: &Builder, column: &[u8]) -> bool
    ensures { result ≡ is_integer builder.now column.now }
{
    each_builder_is_made(builder);
    match builder.check_semi(column) {
        Err(fault) => is_kind_clash(fault),
        Ok(()) => false,
    }
}

/// Whether the column of this line of COLUMNS is semi-continuous.
fn has_semi_column(builder: &Builder, fields: &[&[u8]]) -> bool
    ensures { result ≡ option_map_or (λ line. is_semi builder.now line.name) (column_shape (map (λ field. field.now) fields.now)) false }
{
    match column_shape(fields) {
        Some(line) => is_semi(builder, line.name),
        None => false,
    }
}

/// Whether this line of COLUMNS, which is not a marker line, is in an integer block and its column is semi-continuous.
pub(crate) fn has_column_clash(context: &LineContext, builder: &Builder, fields: &[&[u8]]) -> bool
    ensures { result ≡ column_clash context.now builder.now (map (λ field. field.now) fields.now) }
{
    context.in_integer_part() && has_semi_column(builder, fields)
}

/// Whether a bound of this type makes a semi-continuous column integer, or an integer column semi-continuous.
fn has_type_clash(builder: &Builder, bound_type: BoundType, column: &[u8]) -> bool
    ensures { result ≡ type_clash builder.now bound_type column.now }
{
    (is_integer_type(bound_type) && is_semi(builder, column))
        || (is_semi_type(bound_type) && is_integer(builder, column))
}

/// Whether a bound of this type, with these fields after it, makes its column both integer and semi-continuous.
fn has_line_clash(builder: &Builder, bound_type: BoundType, more: &[&[u8]]) -> bool
    ensures { result ≡ line_clash builder.now bound_type (map (λ field. field.now) more.now) }
{
    match bound_shape(bound_type, more) {
        Some(line) => has_type_clash(builder, bound_type, line.column),
        None => false,
    }
}

/// Whether a line of BOUNDS makes its column both integer and semi-continuous.
pub(crate) fn has_bound_clash(builder: &Builder, letters: &[u8], more: &[&[u8]]) -> bool
    ensures { result ≡ bound_clash builder.now (letters.now ∷ map (λ field. field.now) more.now) }
{
    match bound_type(letters) {
        Some(bound_type) => has_line_clash(builder, bound_type, more),
        None => false,
    }
}
