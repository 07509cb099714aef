//! Further terms and right-hand sides of rows, taken as a whole and not token by token.

ghost use Rattle.std.specs.Prelude.{◌≡◌, IsTrue, List};
ghost use Rattle.mpslp_lp_grammar.specs.Rows.{fits_left};
ghost use Rattle.mpslp_lp_grammar.specs.declared.states.Place.{Place};
ghost use Rattle.mpslp_lp_grammar.specs.declared.states.State.{State};
ghost use Rattle.mpslp_lp_tokens.specs.Token.{Token};
ghost use Rattle.mpslp_lp.specs.PlainPhrase.{BeginsWithRight, TakesSome};

use crate::plain_terms::{restore_state, take_more_terms, take_terms_after_label};
use crate::plain_tokens::{RightSide, next_right_side};
use crate::read_line::error_before;
use mpslp_lines::LineError;
use mpslp_lp_grammar::{Context, PartialRow, Place, State, declare_row, fits_left};
use mpslp_lp_tokens::Tokens;
use std::mem::replace;

/// Declares a row with this right-hand side. `left` are the tokens after it on its line: their lexical errors are reported before
/// the error of the row.
pub(crate) fn end_plain_row<'a>(
    context: &mut Context,
    row: PartialRow,
    right: &RightSide,
    left: Tokens<'a>,
) -> Result<Tokens<'a>, LineError>
    requires { IsTrue (fits_left row.left right.now.relation) }
    ensures { (found : List Token) → BeginsWithRight found right.now.relation right.now.limit left.entry
        → TakesSome context.old (State.Between (Place.InRow row)) found result context.new (State.Between Place.BetweenRows) }
{
    match declare_row(context, row, right.relation, &right.limit) {
        Ok(()) => Ok(left),
        Err(error) => Err(error_before(error, left)),
    }
}

/// Takes the right-hand side of a row, if the state is after a term of a row and the side comes next.
#[inline(never)]
pub(crate) fn take_right_side<'a>(
    context: &mut Context,
    state: &mut State,
    tokens: Tokens<'a>,
) -> Result<Tokens<'a>, LineError>
    ensures { TakesSome context.old state.old tokens.entry result context.new state.new }
{
    let mut left = tokens.again();
    let Some(right) = next_right_side(&mut left) else {
        return Ok(tokens);
    };
    match replace(state, State::Between(Place::BetweenRows)) {
        State::Between(Place::InRow(row)) => {
            if fits_left(&row, right.relation) {
                end_plain_row(context, row, &right, left)
            } else {
                restore_state(state, State::Between(Place::InRow(row)));
                Ok(tokens)
            }
        }
        other => {
            restore_state(state, other);
            Ok(tokens)
        }
    }
}

/// Takes the right-hand side of a row, if the state is after a term of a row and the side comes next. Returns the tokens after it.
#[inline(always)]
fn take_right_side_in_row<'a>(
    context: &mut Context,
    state: &mut State,
    tokens: Tokens<'a>,
) -> Result<Tokens<'a>, LineError>
    ensures { TakesSome context.old state.old tokens.entry result context.new state.new }
{
    match state {
        State::Between(Place::InRow(_)) => take_right_side(context, state, tokens),
        _ => Ok(tokens),
    }
}

/// Takes the terms that come next after the label of a row, and its right-hand side after them. Returns the tokens after these.
#[inline(never)]
pub(crate) fn take_labelled_row<'a>(
    context: &mut Context,
    state: &mut State,
    tokens: Tokens<'a>,
) -> Result<Tokens<'a>, LineError>
    ensures { TakesSome context.old state.old tokens.entry result context.new state.new }
{
    let left = take_terms_after_label(context, state, tokens)?;
    if left.bytes_left().is_empty() {
        return Ok(left);
    }
    take_right_side_in_row(context, state, left)
}

/// Takes the terms that come next and, if they are those of a row, its right-hand side after them. Returns the tokens after these.
#[inline(never)]
pub(crate) fn take_rest_of_row<'a>(
    context: &mut Context,
    state: &mut State,
    tokens: Tokens<'a>,
) -> Result<Tokens<'a>, LineError>
    ensures { TakesSome context.old state.old tokens.entry result context.new state.new }
{
    let left = take_more_terms(context, state, tokens)?;
    if left.bytes_left().is_empty() {
        return Ok(left);
    }
    take_right_side_in_row(context, state, left)
}
