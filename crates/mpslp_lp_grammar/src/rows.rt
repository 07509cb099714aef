//! Rows, token by token.

ghost use Rattle.std.specs.Prelude.{◌≡◌, None, MatchResult, IsTrue, unwrap_or};
ghost use Rattle.mpslp_lp_grammar.specs.Rows.{fits_left, row_limits, row_declared, without_terms};
ghost use Rattle.mpslp_lines.specs.declared.errors.LineError.{LineError};
ghost use Rattle.mpslp_lp_grammar.specs.Items.{fits_second};
ghost use Rattle.mpslp_lp_grammar.specs.TerminalToken.{HasLegalName, terminal_of_token};
ghost use Rattle.mpslp_lp_grammar.specs.Declares.{TakesToken, answer_at};
ghost use Rattle.mpslp_lp_grammar.specs.Terminal.{Terminal};
ghost use Rattle.mpslp_types.specs.Limit.{is_given};
ghost use Rattle.mpslp_types.specs.declared.kinds.Limit.{Limit};
ghost use Rattle.mpslp_lp_grammar.specs.Phrase.{terminal_fault};
ghost use Rattle.mpslp_lp_grammar.specs.declared.states.Place.{Place};
ghost use Rattle.mpslp_lp_grammar.specs.AfterToken.{declare_at};
ghost use Rattle.mpslp_lp_grammar.specs.FirstToken.{begin_row};

use crate::answers::{at_place, refuse};
use crate::context::Context;
use crate::given_limit::GivenLimit;
use crate::items::end_term;
use crate::signs::Sign;
use crate::states::{ItemOwner, PartialRow, Place, State};
use crate::terminals::{TerminalKind, TerminalToken};
use mpslp_decimal::Decimal;
use mpslp_lines::LineError;
use mpslp_lp_tokens::Relation;
use mpslp_model::{FaultKind, Limit, Name};

/// Whether the relations on both sides of a row or column agree: both are `<` or both are `>`.
pub fn fits_second(first: Relation, second: Relation) -> bool
    ensures { result ≡ fits_second first second }
{
    match first {
        Relation::AtMost => second == Relation::AtMost,
        Relation::AtLeast => second == Relation::AtLeast,
        Relation::EqualTo => false,
    }
}

/// Whether the relation agrees with that of the row's left-hand side, if it has one.
pub fn fits_left(row: &PartialRow, relation: Relation) -> bool
    ensures { result ≡ fits_left row.now.left relation }
{
    match &row.parts.left {
        Some((_limit, first)) => fits_second(*first, relation),
        None => true,
    }
}

/// A row without terms and without a left-hand side, in the memory of a completed row if there is one.
///
/// # Errors
///
/// `OutOfMemory` if an allocation fails. The context is unchanged.
pub fn row_without_terms(context: &mut Context, name: Name) -> Result<PartialRow, LineError>
    ensures row { MatchResult result (λ row. row ≡ without_terms name None) (λ error. error ≡ LineError.OutOfMemory) }
    ensures same { context.new ≡ context.old }
{
    let left = None;
    context.builder.row_without_terms(name, left)
}

/// Takes the first token of a row after its label, or of a row without one.
pub(crate) fn begin_row(
    context: &mut Context,
    name: Name,
    token: &TerminalToken<'_>,
) -> Result<State, LineError>
    requires { HasLegalName token.now }
    ensures { TakesToken (begin_row context.old name (terminal_of_token token.now)) result context.new }
{
    match token.kind {
        TerminalKind::Infinity => Ok(State::RowLeft(name, GivenLimit::infinity(Sign::Plus))),
        TerminalKind::Number(value) => Ok(State::RowNumber(name, Sign::Plus, value)),
        TerminalKind::Name => {
            let row = context.builder.row_without_terms(name, None)?;
            end_term(context, ItemOwner::OfRow(row), token.text, Decimal::one())
        }
        TerminalKind::Sign(sign) => Ok(State::RowSign(name, sign)),
        _ => refuse(context, token, FaultKind::BadToken),
    }
}

/// The lower limit of a row with this relation and right-hand side.
fn lower_limit(row: &PartialRow, relation: Relation, right: &GivenLimit) -> Limit
    ensures value { result ≡ unwrap_or (row_limits row.now.left relation right.now).lower Limit.MinusInf }
    ensures given { IsTrue (is_given result) }
{
    match &row.parts.left {
        None => match relation {
            Relation::AtMost => Limit::MinusInf,
            Relation::AtLeast | Relation::EqualTo => right.limit(),
        },
        Some((left, _first)) => match relation {
            Relation::AtMost => left.limit(),
            Relation::AtLeast | Relation::EqualTo => right.limit(),
        },
    }
}

/// The upper limit of a row with this relation and right-hand side.
fn upper_limit(row: &PartialRow, relation: Relation, right: &GivenLimit) -> Limit
    ensures value { result ≡ unwrap_or (row_limits row.now.left relation right.now).upper Limit.PlusInf }
    ensures given { IsTrue (is_given result) }
{
    match &row.parts.left {
        None => match relation {
            Relation::AtMost | Relation::EqualTo => right.limit(),
            Relation::AtLeast => Limit::PlusInf,
        },
        Some((left, _first)) => match relation {
            Relation::AtMost => right.limit(),
            Relation::AtLeast | Relation::EqualTo => left.limit(),
        },
    }
}

/// Declares a row that its right-hand side completes.
///
/// # Errors
///
/// `Fault` if the builder rejects it, with the first error; `OutOfMemory` if an allocation fails. After an error nothing is
/// known of the context.
pub fn declare_row(
    context: &mut Context,
    row: PartialRow,
    relation: Relation,
    right: &GivenLimit,
) -> Result<(), LineError>
    ensures { (terminal : Terminal) → terminal_fault context.old terminal ≡ None
        → TakesToken (declare_at context.old terminal Place.BetweenRows (row_declared row (row_limits row.left relation right.now))) (answer_at Place.BetweenRows result) context.new }
{
    let lower = lower_limit(&row, relation, right);
    let upper = upper_limit(&row, relation, right);
    let answer = context.builder.declare_partial(&row, lower, upper);
    context.builder.keep_memory(row);
    answer
}

/// Completes a row with its right-hand side, and declares it.
pub(crate) fn end_row(
    context: &mut Context,
    row: PartialRow,
    relation: Relation,
    right: &GivenLimit,
    token: &TerminalToken<'_>,
) -> Result<State, LineError>
    requires { terminal_fault context.old (terminal_of_token token.now) ≡ None }
    ensures { let declarations = row_declared row (row_limits row.left relation right.now) in
        TakesToken (declare_at context.old (terminal_of_token token.now) Place.BetweenRows declarations) result context.new }
{
    let answer = declare_row(context, row, relation, right);
    at_place(answer, Place::BetweenRows)
}
