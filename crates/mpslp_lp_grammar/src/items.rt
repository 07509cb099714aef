//! Items of the objective and of rows, token by token.

ghost use Rattle.mpslp_types.specs.Name.{IsMpsName};
ghost use Rattle.mpslp_lp_grammar.specs.TerminalToken.{HasLegalName, terminal_of_token};
ghost use Rattle.mpslp_lp_grammar.specs.Declares.{TakesToken, answer_at};
ghost use Rattle.mpslp_lp_grammar.specs.Terminal.{Terminal};
ghost use Rattle.mpslp_lp_grammar.specs.declared.states.Place.{Place};
ghost use Rattle.mpslp_lp_grammar.specs.declared.states.ItemOwner.{ItemOwner};
ghost use Rattle.mpslp_lp_grammar.specs.AfterToken.{end_term, step_after_signs, begin_item};

use crate::answers::{at_place, refuse};
use crate::context::Context;
use crate::signs::Sign;
use crate::states::{ItemOwner, PartialRow, Place, State};
use crate::terminals::{TerminalKind, TerminalToken};
use mpslp_decimal::Decimal;
use mpslp_lines::LineError;
use mpslp_model::{FaultKind, Name};

/// Declares a term of the objective with this name, and its column if that is new.
///
/// # Errors
///
/// `Fault` if the builder rejects it, with the first error; `OutOfMemory` if an allocation fails. After an error nothing is
/// known of the context.
pub fn declare_objective_term(
    context: &mut Context,
    objective: &Name,
    column: &[u8],
    value: Decimal,
) -> Result<(), LineError>
    requires { IsMpsName column.now }
    ensures { let taken = end_term context.old (ItemOwner.OfObjective objective.now) column.now value (Terminal.Name column.now) in
        TakesToken taken (answer_at (Place.InObjective objective.now) result) context.new }
{
    context
        .builder
        .declare_term(objective.as_bytes(), column, value)
}

/// Takes the name of a term of the objective.
fn end_objective_term(
    context: &mut Context,
    objective: Name,
    column: &[u8],
    value: Decimal,
) -> Result<State, LineError>
    requires { IsMpsName column.now }
    ensures { TakesToken (end_term context.old (ItemOwner.OfObjective objective) column.now value (Terminal.Name column.now)) result context.new }
{
    let answer = declare_objective_term(context, &objective, column, value);
    at_place(answer, Place::InObjective(objective))
}

/// Takes the name of a term of a row.
fn end_row_term(
    context: &Context,
    row: PartialRow,
    column: &[u8],
    value: Decimal,
) -> Result<State, LineError>
    requires { IsMpsName column.now }
    ensures { TakesToken (end_term context.now (ItemOwner.OfRow row) column.now value (Terminal.Name column.now)) result context.now }
{
    match row.with_term(context, column, value) {
        Ok(row) => Ok(State::Between(Place::InRow(row))),
        Err(error) => Err(error),
    }
}

/// Takes the name of a term.
pub(crate) fn end_term(
    context: &mut Context,
    owner: ItemOwner,
    column: &[u8],
    value: Decimal,
) -> Result<State, LineError>
    requires { IsMpsName column.now }
    ensures { TakesToken (end_term context.old owner column.now value (Terminal.Name column.now)) result context.new }
{
    match owner {
        ItemOwner::OfObjective(name) => end_objective_term(context, name, column, value),
        ItemOwner::OfRow(row) => end_row_term(context, row, column, value),
    }
}

/// Takes a token of an item after its first sign.
pub(crate) fn step_after_signs(
    context: &mut Context,
    owner: ItemOwner,
    sign: Sign,
    token: &TerminalToken<'_>,
) -> Result<State, LineError>
    requires { HasLegalName token.now }
    ensures { TakesToken (step_after_signs context.old owner sign (terminal_of_token token.now)) result context.new }
{
    match token.kind {
        TerminalKind::Sign(more) => Ok(State::Signs(owner, sign.times(more))),
        TerminalKind::Name => end_term(context, owner, token.text, sign.of(Decimal::one())),
        TerminalKind::Number(value) => Ok(State::ItemNumber(owner, sign, value)),
        _ => refuse(context, token, FaultKind::BadToken),
    }
}

/// Takes the first token of an item that may have no sign.
pub(crate) fn begin_item(
    context: &mut Context,
    owner: ItemOwner,
    token: &TerminalToken<'_>,
) -> Result<State, LineError>
    requires { HasLegalName token.now }
    ensures { TakesToken (begin_item context.old owner (terminal_of_token token.now)) result context.new }
{
    match token.kind {
        TerminalKind::Sign(sign) => Ok(State::Signs(owner, sign)),
        TerminalKind::Name => end_term(context, owner, token.text, Decimal::one()),
        TerminalKind::Number(value) => Ok(State::ItemNumber(owner, Sign::Plus, value)),
        _ => refuse(context, token, FaultKind::BadToken),
    }
}
