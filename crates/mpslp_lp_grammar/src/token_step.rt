//! The step from one state to the next by a token.

ghost use Rattle.std.specs.Prelude.{◌≡◌, Some, None};
ghost use Rattle.mpslp_lp_grammar.specs.TerminalToken.{HasLegalName, terminal_of_token};
ghost use Rattle.mpslp_lp_grammar.specs.Declares.{TakesToken};
ghost use Rattle.mpslp_lp_grammar.specs.TokenStep.{refuse_constant, step_after_lone_number, step};
ghost use Rattle.mpslp_lp_grammar.specs.Terminal.{Terminal};
ghost use Rattle.mpslp_lp_grammar.specs.declared.states.ItemOwner.{ItemOwner};
ghost use Rattle.mpslp_lp_grammar.specs.declared.states.State.{State};

use crate::answers::{at_place, refuse};
use crate::bounds::{end_free_bound, step_after_bound_column, step_at_side_value};
use crate::context::Context;
use crate::first_token::{begin, begin_phrase_after};
use crate::given_limit::GivenLimit;
use crate::items::{begin_item, end_term, step_after_signs};
use crate::rows::begin_row;
use crate::sides::limit_of_terminal;
use crate::signs::Sign;
use crate::states::{ItemOwner, LastWord, PartialRow, Place, SideOwner, State};
use crate::terminals::{TerminalKind, TerminalToken};
use mpslp_decimal::Decimal;
use mpslp_lines::LineError;
use mpslp_lp_tokens::{Relation, is_word};
use mpslp_model::laws::each_name_is_legal;
use mpslp_model::{FaultKind, Name, Sense};

/// Takes a token after the word of the objective.
fn step_at_objective(
    context: &mut Context,
    sense: Sense,
    token: &TerminalToken<'_>,
) -> Result<State, LineError>
    requires { HasLegalName token.now }
    ensures { TakesToken (step context.old (State.AtObjective sense) (terminal_of_token token.now)) result context.new }
{
    match token.kind {
        TerminalKind::Name => Ok(State::ObjectiveName(sense, context.builder.copied(token.text)?)),
        _ => {
            let name = context.builder.default_objective()?;
            let objective = context.builder.default_objective()?;
            let answer = context.builder.declare_objective(sense, name);
            begin_phrase_after(context, answer, Place::BeforeItems(objective), token)
        }
    }
}

/// Takes the colon after the label of the objective.
fn end_objective_label(context: &mut Context, sense: Sense, name: Name) -> Result<State, LineError>
    ensures { TakesToken (step context.old (State.ObjectiveName sense name) Terminal.Colon) result context.new }
{
    each_name_is_legal(&name);
    let copy = context.builder.copied(name.as_bytes())?;
    at_place(
        context.builder.declare_objective(sense, copy),
        Place::BeforeItems(name),
    )
}

/// Takes the token after a name that follows `minimize` or `maximize` and may be a label.
fn step_after_objective_name(
    context: &mut Context,
    sense: Sense,
    name: Name,
    token: &TerminalToken<'_>,
) -> Result<State, LineError>
    requires { HasLegalName token.now }
    ensures { TakesToken (step context.old (State.ObjectiveName sense name) (terminal_of_token token.now)) result context.new }
{
    match token.kind {
        TerminalKind::Colon => end_objective_label(context, sense, name),
        _ => {
            each_name_is_legal(&name);
            let objective = context.builder.default_objective()?;
            let answer = context.builder.declare_first_item(sense, name.as_bytes());
            begin_phrase_after(context, answer, Place::InObjective(objective), token)
        }
    }
}

/// Takes the last word of a section heading.
fn step_at_last_word(
    context: &mut Context,
    wanted: LastWord,
    token: &TerminalToken<'_>,
) -> Result<State, LineError>
    ensures { TakesToken (step context.old (State.AtLastWord wanted) (terminal_of_token token.now)) result context.new }
{
    match token.kind {
        TerminalKind::Name => {
            if is_word(token.text, wanted.text()) {
                Ok(State::Between(wanted.opens()))
            } else {
                refuse(context, token, FaultKind::BadToken)
            }
        }
        _ => refuse(context, token, FaultKind::BadToken),
    }
}

/// Takes the token after `semi`.
fn step_after_semi(context: &mut Context, token: &TerminalToken<'_>) -> Result<State, LineError>
    requires { HasLegalName token.now }
    ensures { TakesToken (step context.old State.AtSemi (terminal_of_token token.now)) result context.new }
{
    match token.kind {
        TerminalKind::Sign(Sign::Minus) => Ok(State::AtLastWord(LastWord::Continuous)),
        _ => begin(context, Place::InSemis, token),
    }
}

/// Takes the token after a number in the objective that no name follows: the constant.
fn end_constant(
    context: &mut Context,
    objective: Name,
    value: Decimal,
    token: &TerminalToken<'_>,
) -> Result<State, LineError>
    requires { HasLegalName token.now }
    ensures { TakesToken (step_after_lone_number context.old (ItemOwner.OfObjective objective) value (terminal_of_token token.now)) result context.new }
{
    match token.kind {
        TerminalKind::Sign(_) | TerminalKind::Opens(_) => {
            let answer = context.builder.declare_constant(value);
            begin_phrase_after(context, answer, Place::InObjective(objective), token)
        }
        _ => refuse(context, token, FaultKind::BadToken),
    }
}

/// Takes the token after a number in a row that no name follows, which is an error.
fn refuse_constant(context: &Context, token: &TerminalToken<'_>) -> Result<State, LineError>
    ensures { TakesToken (refuse_constant context.now (terminal_of_token token.now)) result context.now }
{
    match token.kind {
        TerminalKind::Sign(_) | TerminalKind::Compares(_) => refuse(
            context,
            token,
            FaultKind::ConstantInRow,
        ),
        _ => refuse(context, token, FaultKind::BadToken),
    }
}

/// Takes the token after a number that no name follows.
fn step_after_lone_number(
    context: &mut Context,
    owner: ItemOwner,
    value: Decimal,
    token: &TerminalToken<'_>,
) -> Result<State, LineError>
    requires { HasLegalName token.now }
    ensures { TakesToken (step_after_lone_number context.old owner value (terminal_of_token token.now)) result context.new }
{
    match owner {
        ItemOwner::OfObjective(name) => end_constant(context, name, value, token),
        ItemOwner::OfRow(_row) => refuse_constant(context, token),
    }
}

/// Takes the token after the number of an item.
fn step_after_number(
    context: &mut Context,
    owner: ItemOwner,
    sign: Sign,
    value: Decimal,
    token: &TerminalToken<'_>,
) -> Result<State, LineError>
    requires { HasLegalName token.now }
    ensures { TakesToken (step context.old (State.ItemNumber owner sign value) (terminal_of_token token.now)) result context.new }
{
    match token.kind {
        TerminalKind::Name => end_term(context, owner, token.text, sign.of(value)),
        _ => step_after_lone_number(context, owner, sign.of(value), token),
    }
}

/// Takes the token after a name at the start of a row, which may be a label.
fn step_after_row_name(
    context: &mut Context,
    name: Name,
    token: &TerminalToken<'_>,
) -> Result<State, LineError>
    requires { HasLegalName token.now }
    ensures { TakesToken (step context.old (State.RowName name) (terminal_of_token token.now)) result context.new }
{
    match token.kind {
        TerminalKind::Colon => Ok(State::RowLabel(name)),
        TerminalKind::Sign(_) | TerminalKind::Compares(_) => {
            let label = context.builder.next_row()?;
            let empty = context.builder.row_without_terms(label, None)?;
            each_name_is_legal(&name);
            let row = empty.with_term(context, name.as_bytes(), Decimal::one())?;
            begin(context, Place::InRow(row), token)
        }
        _ => refuse(context, token, FaultKind::BadToken),
    }
}

/// Takes the token after the first sign of a row.
fn step_after_row_sign(
    context: &mut Context,
    name: Name,
    sign: Sign,
    token: &TerminalToken<'_>,
) -> Result<State, LineError>
    requires { HasLegalName token.now }
    ensures { TakesToken (step context.old (State.RowSign name sign) (terminal_of_token token.now)) result context.new }
{
    match token.kind {
        TerminalKind::Infinity => Ok(State::RowLeft(name, GivenLimit::infinity(sign))),
        TerminalKind::Number(value) => Ok(State::RowNumber(name, sign, value)),
        TerminalKind::Sign(_) | TerminalKind::Name => {
            let row = context.builder.row_without_terms(name, None)?;
            step_after_signs(context, ItemOwner::OfRow(row), sign, token)
        }
        _ => refuse(context, token, FaultKind::BadToken),
    }
}

/// Takes the token after the first number of a row.
fn step_after_row_number(
    context: &mut Context,
    name: Name,
    sign: Sign,
    value: Decimal,
    token: &TerminalToken<'_>,
) -> Result<State, LineError>
    requires { HasLegalName token.now }
    ensures { TakesToken (step context.old (State.RowNumber name sign value) (terminal_of_token token.now)) result context.new }
{
    match token.kind {
        TerminalKind::Name => {
            let row = context.builder.row_without_terms(name, None)?;
            end_term(context, ItemOwner::OfRow(row), token.text, sign.of(value))
        }
        TerminalKind::Compares(relation) => {
            let left = Some((GivenLimit::of(sign.of(value)), relation));
            Ok(State::RowLeftRelation(context.builder.row_without_terms(name, left)?))
        }
        _ => refuse_constant(context, token),
    }
}

/// Takes the token after the left-hand side of a row.
fn step_after_row_limit(
    context: &mut Context,
    name: Name,
    limit: GivenLimit,
    token: &TerminalToken<'_>,
) -> Result<State, LineError>
    ensures { TakesToken (step context.old (State.RowLeft name limit) (terminal_of_token token.now)) result context.new }
{
    match token.kind {
        TerminalKind::Compares(relation) => {
            let left = Some((limit, relation));
            Ok(State::RowLeftRelation(context.builder.row_without_terms(name, left)?))
        }
        _ => refuse(context, token, FaultKind::BadToken),
    }
}

/// Takes the token after the column of a bound.
fn step_after_bound_name(
    context: &mut Context,
    column: Name,
    token: &TerminalToken<'_>,
) -> Result<State, LineError>
    ensures { TakesToken (step context.old (State.BoundName column) (terminal_of_token token.now)) result context.new }
{
    match token.kind {
        TerminalKind::Free => end_free_bound(context, column),
        TerminalKind::Compares(relation) => {
            Ok(State::AtSide(SideOwner::SideOfBound(true, column, relation)))
        }
        _ => refuse(context, token, FaultKind::BadToken),
    }
}

/// Takes the token after the sign of a bound's left-hand side.
fn step_after_bound_sign(
    context: &mut Context,
    sign: Sign,
    token: &TerminalToken<'_>,
) -> Result<State, LineError>
    ensures { TakesToken (step context.old (State.BoundSign sign) (terminal_of_token token.now)) result context.new }
{
    match limit_of_terminal(sign, token) {
        Some(limit) => Ok(State::BoundLeft(limit)),
        None => refuse(context, token, FaultKind::BadToken),
    }
}

/// Takes the token after the left-hand side of a bound.
fn step_after_bound_limit(
    context: &mut Context,
    limit: GivenLimit,
    token: &TerminalToken<'_>,
) -> Result<State, LineError>
    ensures { TakesToken (step context.old (State.BoundLeft limit) (terminal_of_token token.now)) result context.new }
{
    match token.kind {
        TerminalKind::Compares(relation) => Ok(State::BoundLeftRelation(limit, relation)),
        _ => refuse(context, token, FaultKind::BadToken),
    }
}

/// Takes the token after the relation that follows the left-hand side of a bound.
fn step_after_bound_relation(
    context: &mut Context,
    limit: GivenLimit,
    relation: Relation,
    token: &TerminalToken<'_>,
) -> Result<State, LineError>
    requires { HasLegalName token.now }
    ensures { TakesToken (step context.old (State.BoundLeftRelation limit relation) (terminal_of_token token.now)) result context.new }
{
    match token.kind {
        TerminalKind::Name => step_after_bound_column(context, &limit, relation, token.text),
        _ => refuse(context, token, FaultKind::BadToken),
    }
}

/// Takes the first token of a right-hand side.
fn step_at_side(
    context: &mut Context,
    sided: SideOwner,
    token: &TerminalToken<'_>,
) -> Result<State, LineError>
    ensures { TakesToken (step context.old (State.AtSide sided) (terminal_of_token token.now)) result context.new }
{
    match token.kind {
        TerminalKind::Sign(sign) => Ok(State::SideSign(sided, sign)),
        _ => step_at_side_value(context, sided, Sign::Plus, token),
    }
}

/// Takes a token, declares what it declares, and returns the state after it.
///
/// # Errors
///
/// `Fault` if the grammar does not allow the token here, or if what it declares is rejected; the error of a section word in the
/// wrong place comes before all others. `OutOfMemory` if an allocation fails. After an error nothing is known of the context.
#[inline(always)]
pub fn step(
    context: &mut Context,
    state: State,
    token: &TerminalToken<'_>,
) -> Result<State, LineError>
    requires { HasLegalName token.now }
    ensures { TakesToken (step context.old state (terminal_of_token token.now)) result context.new }
{
    match state {
        State::Between(place) => begin(context, place, token),
        State::AtObjective(sense) => step_at_objective(context, sense, token),
        State::ObjectiveName(sense, name) => step_after_objective_name(context, sense, name, token),
        State::AtLastWord(wanted) => step_at_last_word(context, wanted, token),
        State::AtSemi => step_after_semi(context, token),
        State::Signs(owner, sign) => step_after_signs(context, owner, sign, token),
        State::ItemNumber(owner, sign, value) => {
            step_after_number(context, owner, sign, value, token)
        }
        State::RowName(name) => step_after_row_name(context, name, token),
        State::RowLabel(name) => begin_row(context, name, token),
        State::RowSign(name, sign) => step_after_row_sign(context, name, sign, token),
        State::RowNumber(name, sign, value) => {
            step_after_row_number(context, name, sign, value, token)
        }
        State::RowLeft(name, limit) => step_after_row_limit(context, name, limit, token),
        State::RowLeftRelation(row) => begin_item(context, ItemOwner::OfRow(row), token),
        State::BoundName(column) => step_after_bound_name(context, column, token),
        State::BoundSign(sign) => step_after_bound_sign(context, sign, token),
        State::BoundLeft(limit) => step_after_bound_limit(context, limit, token),
        State::BoundLeftRelation(limit, relation) => {
            step_after_bound_relation(context, limit, relation, token)
        }
        State::AtSide(sided) => step_at_side(context, sided, token),
        State::SideSign(sided, sign) => step_at_side_value(context, sided, sign, token),
        State::AfterEnd => refuse(context, token, FaultKind::BadToken),
    }
}
