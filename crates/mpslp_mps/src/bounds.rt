//! Lines of BOUNDS.

ghost use Rattle.std.specs.Prelude.{◌≡◌, [], ◌∷◌, ◌||◌, true, false, map, IsTrue, Some, None, is_some, MatchResult};
ghost use Rattle.std.specs.Option.{ForSome, option_map_or};
ghost use Rattle.mpslp_types.specs.Limit.{limit_of, is_given};
ghost use Rattle.mpslp_builder.specs.Bounds.{zero_limit, one_limit};
ghost use Rattle.mpslp_builder.specs.Declaration.{declare_integer, declare_semi, is_integer, is_semi, bounds_declared};
ghost use Rattle.mpslp_mps_fields.specs.Line.{data_line};
ghost use Rattle.mpslp_mps.specs.LineDeclarations.{lower_given, upper_given, kind_declared, bound_declared};
ghost use Rattle.mpslp_mps_fields.specs.DataLine.{is_integer_type, is_semi_type};
ghost use Rattle.mpslp_mps.specs.KindClash.{type_clash};
ghost use Rattle.mpslp_mps.specs.LineAnswer.{ReadsContent};
ghost use Rattle.mpslp_lines.specs.LineAnswer.{AreDeclared, IfFault, IsErrorOf};
ghost use Rattle.mpslp_lines.specs.Declaring.{declared_fault};
ghost use Rattle.mpslp_mps_fields.specs.declared.sections.Section.{Section};

use crate::clashes::has_bound_clash;
use crate::context::LineContext;
use crate::data_lines::check_bound;
use mpslp_decimal::Decimal;
use mpslp_lines::LineError;
use mpslp_model::{Builder, FaultKind, Limit};
use mpslp_mps_fields::{BoundType, Section, is_integer_type, is_semi_type};

/// A bound of 0.
fn zero_limit() -> Limit
    ensures { result ≡ zero_limit }
{
    Limit::Finite(Decimal::zero())
}

/// A bound of 1.
fn one_limit() -> Limit
    ensures { result ≡ one_limit }
{
    Limit::Finite(Decimal::one())
}

/// The bound that a value gives, 0 if the line has no value.
fn bound_value_or_zero(value: Option<Decimal>) -> Limit
    ensures value { result ≡ option_map_or limit_of value zero_limit }
    ensures given { IsTrue (is_given result) }
{
    match value {
        Some(value) => Limit::of(value),
        None => zero_limit(),
    }
}

/// The lower and the upper bound that a line of this type declares.
fn bounds_of_type(bound_type: BoundType, value: &Limit) -> (Option<Limit>, Option<Limit>)
    requires { IsTrue (is_given value.now) }
    ensures lower { result.0 ≡ lower_given bound_type value.now }
    ensures upper { result.1 ≡ upper_given bound_type value.now }
    ensures lower_given { ForSome result.0 (λ side. IsTrue (is_given side)) }
    ensures upper_given { ForSome result.1 (λ side. IsTrue (is_given side)) }
{
    match bound_type {
        BoundType::Lower | BoundType::IntegerLower => (Some(*value), None),
        BoundType::Upper | BoundType::IntegerUpper | BoundType::SemiUpper => (None, Some(*value)),
        BoundType::Fixed => (Some(*value), Some(*value)),
        BoundType::Free => (Some(Limit::MinusInf), Some(Limit::PlusInf)),
        BoundType::NoLower => (Some(Limit::MinusInf), None),
        BoundType::NoUpper => (None, Some(Limit::PlusInf)),
        BoundType::Binary => (Some(zero_limit()), Some(one_limit())),
    }
}

/// The error, if any, of declaring these bounds of a column. At least one is given.
fn check_bounds_given(
    builder: &Builder,
    column: &[u8],
    lower: &Option<Limit>,
    upper: &Option<Limit>,
) -> Result<(), LineError>
    requires { (is_some lower.now || is_some upper.now) ≡ true }
    ensures { let first_fault = declared_fault builder.now (bounds_declared column.now lower.now upper.now) in
        MatchResult result (λ _. first_fault ≡ None) (IsErrorOf first_fault) }
{
    builder.check_bounds(column, lower, upper)?;
    Ok(())
}

/// Declares the bounds of a column that are given, at least one.
fn declare_bounds_given(
    builder: &mut Builder,
    column: &[u8],
    lower: Option<Limit>,
    upper: Option<Limit>,
) -> Result<(), LineError>
    requires some { (is_some lower || is_some upper) ≡ true }
    requires lower { ForSome lower (λ side. IsTrue (is_given side)) }
    requires upper { ForSome upper (λ side. IsTrue (is_given side)) }
    ensures answers { AreDeclared builder.old (bounds_declared column.now lower upper) result builder.new }
    ensures unchanged { IfFault result (builder.new ≡ builder.old) }
{
    builder.bounds(column, lower, upper)?;
    Ok(())
}

/// Declares a column integer. It must not be semi-continuous.
fn declare_integer(builder: &mut Builder, column: &[u8]) -> Result<(), LineError>
    requires apart { is_semi builder.old column.now ≡ false }
    ensures { AreDeclared builder.old (declare_integer column.now ∷ []) result builder.new }
{
    builder.integer(column)?;
    Ok(())
}

/// Declares a column semi-continuous. It must not be integer.
fn declare_semi(builder: &mut Builder, column: &[u8]) -> Result<(), LineError>
    requires apart { is_integer builder.old column.now ≡ false }
    ensures { AreDeclared builder.old (declare_semi column.now ∷ []) result builder.new }
{
    builder.semi(column)?;
    Ok(())
}

/// Declares a column integer or semi-continuous, if the type says so.
fn declare_kind(
    builder: &mut Builder,
    bound_type: BoundType,
    column: &[u8],
) -> Result<(), LineError>
    requires { type_clash builder.old bound_type column.now ≡ false }
    ensures { AreDeclared builder.old (kind_declared bound_type column.now) result builder.new }
{
    if is_integer_type(bound_type) {
        return declare_integer(builder, column);
    }
    if is_semi_type(bound_type) {
        return declare_semi(builder, column);
    }
    Ok(())
}

/// Whether a line of this type declares bounds only.
fn has_bounds_only(bound_type: BoundType) -> bool
    ensures { result ≡ true → (is_integer_type bound_type ≡ false) × (is_semi_type bound_type ≡ false) }
{
    !is_integer_type(bound_type) && !is_semi_type(bound_type)
}

/// Declares what a line of BOUNDS says of its column. If it declares more than bounds, these are checked before the type of the
/// column is declared.
fn declare_bound(
    builder: &mut Builder,
    bound_type: BoundType,
    column: &[u8],
    value: Limit,
) -> Result<(), LineError>
    requires given { IsTrue (is_given value) }
    requires apart { type_clash builder.old bound_type column.now ≡ false }
    ensures answers { AreDeclared builder.old (bound_declared bound_type column.now value) result builder.new }
    ensures unchanged { IfFault result (builder.new ≡ builder.old) }
{
    let (lower, upper) = bounds_of_type(bound_type, &value);
    if has_bounds_only(bound_type) {
        return declare_bounds_given(builder, column, lower, upper);
    }
    check_bounds_given(builder, column, &lower, &upper)?;
    declare_kind(builder, bound_type, column)?;
    declare_bounds_given(builder, column, lower, upper)
}

/// Reads a line of BOUNDS with these fields after its type.
fn read_typed_bound(
    context: &mut LineContext,
    builder: &mut Builder,
    letters: &[u8],
    more: &[&[u8]],
) -> Result<(), LineError>
    requires { context.old.section ≡ Some Section.Bounds }
    ensures answers { ReadsContent context.old builder.old (data_line (letters.now ∷ map (λ field. field.now) more.now)) result context.new builder.new }
    ensures unchanged { IfFault result ((context.new ≡ context.old) × (builder.new ≡ builder.old)) }
{
    if has_bound_clash(builder, letters, more) {
        return Err(LineError::Fault(FaultKind::SemiContinuous));
    }
    let (bound_type, line, value) = check_bound(context, letters, more)?;
    declare_bound(builder, bound_type, line.column, bound_value_or_zero(value))?;
    context.pass_set(Section::Bounds, line.set)?;
    Ok(())
}

/// Reads a line of BOUNDS.
pub(crate) fn read_bound(
    context: &mut LineContext,
    builder: &mut Builder,
    fields: &[&[u8]],
) -> Result<(), LineError>
    requires { context.old.section ≡ Some Section.Bounds }
    ensures answers { ReadsContent context.old builder.old (data_line (map (λ field. field.now) fields.now)) result context.new builder.new }
    ensures unchanged { IfFault result ((context.new ≡ context.old) × (builder.new ≡ builder.old)) }
{
    // This branch is never taken: a data line is not blank, so it has a field.
    let [letters, more @ ..] = fields else {
        context.pass_data();
        return Ok(());
    };
    read_typed_bound(context, builder, letters, more)
}
