//! Bounds, taken as a whole and not token by token.

ghost use Rattle.std.specs.Prelude.{◌≡◌, ℕ, true, List, Option, Some, None, IfSome};
ghost use Rattle.mpslp_types.specs.Name.{IsMpsName};
ghost use Rattle.mpslp_lp_grammar.specs.Items.{fits_second};
ghost use Rattle.mpslp_lp_grammar.specs.Terminal.{Terminal};
ghost use Rattle.mpslp_lp_grammar.specs.AfterToken.{Goes};
ghost use Rattle.mpslp_lp_grammar.specs.TokenStep.{step};
ghost use Rattle.mpslp_lp_tokens.specs.declared.relations.Relation.{Relation};
ghost use Rattle.mpslp_lp_grammar.specs.declared.states.Place.{Place};
ghost use Rattle.mpslp_lp_grammar.specs.declared.states.SideOwner.{SideOwner};
ghost use Rattle.mpslp_lp_grammar.specs.declared.states.State.{State};
ghost use Rattle.mpslp_lp_tokens.specs.Token.{Token};
ghost use Rattle.mpslp_lp.specs.PlainTerm.{Begins};
ghost use Rattle.mpslp_lp.specs.PlainPhrase.{BeginsWithRight, BeginsWithSide, TakesSome};

use crate::plain_terms::set_state;
use crate::plain_tokens::{
    RightSide, limit_from, next_name, next_relation, next_right_side, next_terminal,
    right_side_after,
};
use crate::read_line::error_before;
use mpslp_lines::LineError;
use mpslp_lp_grammar::{
    Context, GivenLimit, Place, State, TerminalKind, declare_bound, declare_free, fits_second, flip,
};
use mpslp_lp_tokens::{Relation, Tokens};

/// Takes the right-hand side of a bound, and declares what it says of the column. `left` are the tokens after it on its line: their
/// lexical errors are reported before the error of the bound.
fn take_right_side<'a>(
    context: &mut Context,
    state: &mut State,
    is_new: bool,
    column: &[u8],
    right: &RightSide,
    left: Tokens<'a>,
) -> Result<Tokens<'a>, LineError>
    requires { IsMpsName column.now }
    ensures { (start : State) (found : List Token) → step context.old start (Terminal.Compares right.now.relation)
        ≡ Goes context.old (State.AtSide (SideOwner.SideOfBound is_new column.now right.now.relation))
        → BeginsWithRight found right.now.relation right.now.limit left.entry → TakesSome context.old start found result context.new state.new }
{
    match declare_bound(context, is_new, column, right.relation, &right.limit) {
        Ok(()) => {
            set_state(state, State::Between(Place::InBounds(None)));
            Ok(left)
        }
        Err(error) => Err(error_before(error, left)),
    }
}

/// The right-hand side that comes next, if its relation agrees with this one of the left-hand side.
#[inline(always)]
fn agreeing_side(relation: Relation, tokens: &mut Tokens<'_>) -> Option<RightSide>
    ensures begins { IfSome result (λ right. BeginsWithRight tokens.old right.relation right.limit tokens.new) }
    ensures agrees { IfSome result (λ right. fits_second relation right.relation ≡ true) }
{
    let right = next_right_side(tokens)?;
    if fits_second(relation, right.relation) {
        Some(right)
    } else {
        None
    }
}

/// Leaves the state after a bound that so far has only a left-hand side, with this relation.
#[inline(never)]
fn take_no_second_side<'a>(
    context: &mut Context,
    state: &mut State,
    column: &[u8],
    relation: Relation,
    tokens: Tokens<'a>,
) -> Result<Tokens<'a>, LineError>
    requires { IsMpsName column.now }
    ensures { TakesSome context.old (State.Between (Place.InBounds (Some (column.now, relation)))) tokens.entry result context.new state.new }
{
    let name = context.copied(column)?;
    set_state(
        state,
        State::Between(Place::InBounds(Some((name, relation)))),
    );
    Ok(tokens)
}

/// Takes the right-hand side that comes next, if there is one, of a bound that has a left-hand side with this relation.
fn take_second_side<'a>(
    context: &mut Context,
    state: &mut State,
    column: &[u8],
    relation: Relation,
    tokens: Tokens<'a>,
) -> Result<Tokens<'a>, LineError>
    requires { IsMpsName column.now }
    ensures { TakesSome context.old (State.Between (Place.InBounds (Some (column.now, relation)))) tokens.entry result context.new state.new }
{
    let mut left = tokens.again();
    match agreeing_side(relation, &mut left) {
        Some(right) => take_right_side(context, state, false, column, &right, left),
        None => take_no_second_side(context, state, column, relation, tokens),
    }
}

/// Takes a bound that begins with this limit. `left` are the tokens after the limit.
fn take_after_limit<'a>(
    context: &mut Context,
    state: &mut State,
    limit: &GivenLimit,
    tokens: Tokens<'a>,
    left: Tokens<'a>,
) -> Result<Tokens<'a>, LineError>
    ensures { (before : Option (List ℕ × Relation)) → state.old ≡ State.Between (Place.InBounds before) → BeginsWithSide tokens.entry limit.now left.entry
        → TakesSome context.old state.old tokens.entry result context.new state.new }
{
    let mut left = left;
    let Some(relation) = next_relation(&mut left) else {
        return Ok(tokens);
    };
    let Some(column) = next_name(&mut left) else {
        return Ok(tokens);
    };
    match declare_bound(context, true, column, flip(relation), limit) {
        Ok(()) => take_second_side(context, state, column, relation, left),
        Err(error) => Err(error_before(error, left)),
    }
}

/// Takes a bound that begins with this column. `left` are the tokens after the column.
#[inline(never)]
fn take_after_column<'a>(
    context: &mut Context,
    state: &mut State,
    column: &[u8],
    tokens: Tokens<'a>,
    left: Tokens<'a>,
) -> Result<Tokens<'a>, LineError>
    requires { IsMpsName column.now }
    ensures { (before : Option (List ℕ × Relation)) → state.old ≡ State.Between (Place.InBounds before)
        → Begins tokens.entry (Terminal.Name column.now) left.entry
        → TakesSome context.old state.old tokens.entry result context.new state.new }
{
    let mut left = left;
    let Some(second) = next_terminal(&mut left) else {
        return Ok(tokens);
    };
    match second.kind {
        TerminalKind::Free => match declare_free(context, column) {
            Ok(()) => {
                set_state(state, State::Between(Place::InBounds(None)));
                Ok(left)
            }
            Err(error) => Err(error_before(error, left)),
        },
        TerminalKind::Compares(relation) => match right_side_after(relation, &mut left) {
            Some(right) => take_right_side(context, state, true, column, &right, left),
            None => Ok(tokens),
        },
        _ => Ok(tokens),
    }
}

/// Takes the bound that comes next, if a bound may begin and the next tokens are a plain one. Returns the tokens after it.
#[inline(never)]
pub(crate) fn take_bound<'a>(
    context: &mut Context,
    state: &mut State,
    tokens: Tokens<'a>,
) -> Result<Tokens<'a>, LineError>
    ensures { (before : Option (List ℕ × Relation)) → state.old ≡ State.Between (Place.InBounds before)
        → TakesSome context.old state.old tokens.entry result context.new state.new }
{
    let mut left = tokens.again();
    let Some(first) = next_terminal(&mut left) else {
        return Ok(tokens);
    };
    match first.kind {
        TerminalKind::Name => take_after_column(context, state, first.text, tokens, left),
        _ => match limit_from(&first, &mut left) {
            Some(limit) => take_after_limit(context, state, &limit, tokens, left),
            None => Ok(tokens),
        },
    }
}
