//! Data lines: the errors of their form, and their parts.

ghost use Rattle.std.specs.Prelude.{◌≡◌, [], ◌∷◌, ◌++◌, map, not, Some, None, is_some, MatchResult};
ghost use Rattle.std.specs.Option.{option_map, option_map_or};
ghost use Rattle.std.specs.Result.{result_err};
ghost use Rattle.mpslp_types.specs.Name.{same_bytes};
ghost use Rattle.mpslp_types.specs.NameTests.{name_refusal};
ghost use Rattle.mpslp_builder.specs.Declaration.{Draft, declare_sense};
ghost use Rattle.mpslp_mps_fields.specs.DataLine.{word_shape, row_shape, column_shape, marker_shape, opening_word, vector_shape, bound_type, bound_shape};
ghost use Rattle.mpslp_mps.specs.Context.{Context};
ghost use Rattle.mpslp_mps.specs.LineDeclarations.{declared_if_some, sense_declared, row_declared, row_of_type};
ghost use Rattle.mpslp_lines.specs.FaultTests.{value_of, name_tests, number_tests, judged_by, first_held};
ghost use Rattle.mpslp_mps.specs.LineFault.{literals_of, set_tests, word_tests, row_line_tests, marker_tests, vector_tests, bound_tests, bound_line_tests};
ghost use Rattle.mpslp_types.specs.declared.faults.FaultKind.{FaultKind};
ghost use Rattle.mpslp_mps.specs.LineValues.{named_values};
ghost use Rattle.mpslp_lines.specs.LineAnswer.{IsErrorOf};

use crate::context::LineContext;
use crate::values::{RowValues, is_second_set, values_of};
use mpslp_decimal::Decimal;
use mpslp_lines::{LineError, value_of};
use mpslp_model::laws::each_builder_is_made;
use mpslp_model::{Builder, FaultKind, Name, NameFault, RowType, Sense};
use mpslp_mps_fields::{
    BoundLine, BoundType, ValuesLine, bound_shape, bound_type, column_shape, is_due_word,
    is_opening_word, is_sos_word, marker_shape, row_shape, row_type, sense_of, third_field,
    vector_shape, word_shape,
};
use std::alloc::Global;

/// The sense of a data line under OBJSENSE.
pub(crate) fn check_sense(context: &LineContext, fields: &[&[u8]]) -> Result<Sense, FaultKind>
    ensures { let parts = word_shape (map (λ field. field.now) fields.now) in
        let first_fault = first_held ((not (is_some context.now.word_due), FaultKind.SectionOrder) ∷ judged_by word_tests parts) in
        MatchResult result (λ sense. (first_fault ≡ None) × (declared_if_some sense_declared parts ≡ declare_sense sense ∷ [])) (λ kind. first_fault ≡ Some kind) }
{
    if !context.is_word_due() {
        return Err(FaultKind::SectionOrder);
    }
    let Some(word) = word_shape(fields) else {
        return Err(FaultKind::FieldCount);
    };
    match sense_of(word) {
        Some(sense) => Ok(sense),
        None => Err(FaultKind::BadType),
    }
}

/// The word of a data line under OBJNAME.
pub(crate) fn check_objname<'a>(
    context: &LineContext,
    fields: &[&'a [u8]],
) -> Result<&'a [u8], FaultKind>
    ensures { let parts = word_shape (map (λ field. field.now) fields.now) in
        let first_fault = first_held ((not (is_some context.now.word_due), FaultKind.SectionOrder) ∷ judged_by (λ _. []) parts) in
        MatchResult result (λ word. (first_fault ≡ None) × (parts ≡ Some word.now)) (λ kind. first_fault ≡ Some kind) }
{
    if !context.is_word_due() {
        return Err(FaultKind::SectionOrder);
    }
    match word_shape(fields) {
        Some(word) => Ok(word),
        None => Err(FaultKind::FieldCount),
    }
}

/// The type and the name in a line of ROWS.
pub(crate) fn check_row(alloc: Global, fields: &[&[u8]]) -> Result<(RowType, Name), LineError>
    ensures { let parts = row_shape (map (λ field. field.now) fields.now) in
        let first_fault = first_held (judged_by row_line_tests parts) in
        MatchResult result (λ row. (first_fault ≡ None) × ((context : Context) (earlier : Draft) → declared_if_some (row_declared context earlier) parts ≡ row_of_type context earlier row.1 row.0)) (IsErrorOf first_fault) }
{
    let Some(line) = row_shape(fields) else {
        return Err(LineError::Fault(FaultKind::FieldCount));
    };
    let Some(row_type) = row_type(line.letter) else {
        return Err(LineError::Fault(FaultKind::BadType));
    };
    let name = Name::new(alloc, line.name)?;
    Ok((row_type, name))
}

/// Whether a marker line of COLUMNS opens an integer block.
pub(crate) fn check_marker(context: &LineContext, fields: &[&[u8]]) -> Result<bool, FaultKind>
    ensures { let names = map (λ field. field.now) fields.now in
        let first_fault = first_held (marker_tests context.now names) in
        MatchResult result (λ opens. (first_fault ≡ None) × (option_map (same_bytes opening_word) (marker_shape names) ≡ Some opens)) (λ kind. first_fault ≡ Some kind) }
{
    if let Some(word) = third_field(fields) {
        if is_sos_word(word) {
            return Err(FaultKind::Sos);
        }
    }
    let Some(word) = marker_shape(fields) else {
        return Err(FaultKind::FieldCount);
    };
    if !is_due_word(word, context.in_integer_part()) {
        return Err(FaultKind::BadMarker);
    }
    Ok(is_opening_word(word))
}

/// The set name and the values of a line of RHS or RANGES. `first` is the set name of the first line of the section.
pub(crate) fn check_vector<'a>(
    first: Option<&[u8]>,
    fields: &[&'a [u8]],
) -> Result<(&'a [u8], RowValues<'a>), FaultKind>
    ensures { let parts = vector_shape (map (λ field. field.now) fields.now) in
        let first_fault = first_held (judged_by (vector_tests (option_map (λ name. name.now) first.entry)) parts) in
        MatchResult result (λ line. (first_fault ≡ None) × (option_map named_values parts ≡ Some (line.0.now, line.1))) (λ kind. first_fault ≡ Some kind) }
{
    let Some(line) = vector_shape(fields) else {
        return Err(FaultKind::FieldCount);
    };
    let ValuesLine { name: set, pairs } = line;
    let values = values_of(pairs)?;
    if is_second_set(first, set) {
        return Err(FaultKind::SecondSet);
    }
    Ok((set, values))
}

/// Checks the name of a column.
fn check_column_name(column: &[u8]) -> Result<(), FaultKind>
    ensures { let first_fault = first_held (name_tests column.now) in
        MatchResult result (λ _. first_fault ≡ None) (λ kind. first_fault ≡ Some kind) }
{
    match Name::check(column) {
        Ok(()) => Ok(()),
        Err(NameFault::NameLength) => Err(FaultKind::NameLength),
        Err(NameFault::NameByte) => Err(FaultKind::NameByte),
        // A check allocates nothing.
        Err(NameFault::NameMarker | NameFault::OutOfMemory) => Err(FaultKind::NameMarker),
    }
}

/// The column and the values of a line of COLUMNS that is not a marker line. Only the form of the line is checked.
pub(crate) fn check_column<'a>(fields: &[&'a [u8]]) -> Result<(&'a [u8], RowValues<'a>), FaultKind>
    ensures { let parts = column_shape (map (λ field. field.now) fields.now) in
        let first_fault = first_held (judged_by (λ line. name_tests line.name ++ number_tests (literals_of line.pairs)) parts) in
        MatchResult result (λ line. (first_fault ≡ None) × (option_map named_values parts ≡ Some (line.0.now, line.1))) (λ kind. first_fault ≡ Some kind) }
{
    let Some(line) = column_shape(fields) else {
        return Err(FaultKind::FieldCount);
    };
    let ValuesLine {
        name: column,
        pairs,
    } = line;
    check_column_name(column)?;
    let values = values_of(pairs)?;
    Ok((column, values))
}

/// The value of a bound whose type takes one. `first` is the set name of the first line of the section.
fn check_bound_value(first: Option<&[u8]>, set: &[u8], literal: &[u8]) -> Result<Decimal, FaultKind>
    ensures { let first_fault = first_held (number_tests (literal.now ∷ []) ++ set_tests (option_map (λ bytes. bytes.now) first.entry) set.now) in
        MatchResult result (λ value. (first_fault ≡ None) × (value ≡ value_of literal.now)) (λ kind. first_fault ≡ Some kind) }
{
    match value_of(literal) {
        Err(kind) => Err(kind),
        Ok(_) if is_second_set(first, set) => Err(FaultKind::SecondSet),
        Ok(value) => Ok(value),
    }
}

/// The value of a bound, if its type takes one.
fn check_bound_parts(
    first: Option<&[u8]>,
    set: &[u8],
    literal: Option<&[u8]>,
) -> Result<Option<Decimal>, FaultKind>
    ensures { let given = option_map (λ bytes. bytes.now) literal.entry in
        let first_fault = first_held (option_map_or (λ bytes. number_tests (bytes ∷ [])) given [] ++ set_tests (option_map (λ bytes. bytes.now) first.entry) set.now) in
        MatchResult result (λ value. (first_fault ≡ None) × (value ≡ option_map value_of given)) (λ kind. first_fault ≡ Some kind) }
{
    match literal {
        Some(literal) => match check_bound_value(first, set, literal) {
            Ok(value) => Ok(Some(value)),
            Err(kind) => Err(kind),
        },
        None => {
            if is_second_set(first, set) {
                return Err(FaultKind::SecondSet);
            }
            Ok(None)
        }
    }
}

/// The parts of a line of BOUNDS after its type, and its value if the type takes one.
fn check_bound_of_type<'a>(
    context: &LineContext,
    bound_type: BoundType,
    more: &[&'a [u8]],
) -> Result<(BoundLine<'a>, Option<Decimal>), FaultKind>
    ensures { let parts = bound_shape bound_type (map (λ field. field.now) more.now) in
        let first_fault = first_held (judged_by (bound_tests context.now) parts) in
        MatchResult result (λ bound. (first_fault ≡ None) × (parts ≡ Some bound.0) × (bound.1 ≡ option_map value_of bound.0.literal)) (λ kind. first_fault ≡ Some kind) }
{
    let Some(line) = bound_shape(bound_type, more) else {
        return Err(FaultKind::FieldCount);
    };
    let value = check_bound_parts(context.bounds_set(), line.set, line.literal)?;
    Ok((line, value))
}

/// The type of a line of BOUNDS, its parts, and its value if the type takes one.
pub(crate) fn check_bound<'a>(
    context: &LineContext,
    letters: &[u8],
    more: &[&'a [u8]],
) -> Result<(BoundType, BoundLine<'a>, Option<Decimal>), FaultKind>
    ensures { let rest = map (λ field. field.now) more.now in
        let first_fault = first_held (bound_line_tests context.now (letters.now ∷ rest)) in
        MatchResult result (λ bound. (first_fault ≡ None) × (bound_type letters.now ≡ Some bound.0) × (bound_shape bound.0 rest ≡ Some bound.1) × (bound.2 ≡ option_map value_of bound.1.literal)) (λ kind. first_fault ≡ Some kind) }
{
    let Some(bound_type) = bound_type(letters) else {
        return Err(FaultKind::BadType);
    };
    let (line, value) = check_bound_of_type(context, bound_type, more)?;
    Ok((bound_type, line, value))
}
