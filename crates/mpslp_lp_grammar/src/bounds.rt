//! Bounds, token by token.

ghost use Rattle.std.specs.Prelude.{◌≡◌, ◌++◌, ◌∷◌, [], Some, None, IsTrue};
ghost use Rattle.std.specs.Option.{ForSome};
ghost use Rattle.mpslp_types.specs.Name.{IsMpsName};
ghost use Rattle.mpslp_types.specs.Limit.{is_given};
ghost use Rattle.mpslp_builder.specs.Declaration.{declare_column};
ghost use Rattle.mpslp_lp_grammar.specs.Items.{limits_by, flip};
ghost use Rattle.mpslp_lp_grammar.specs.Grammar.{no_limits};
ghost use Rattle.mpslp_lp_grammar.specs.TokenByToken.{new_column};
ghost use Rattle.mpslp_lp_grammar.specs.TerminalToken.{HasLegalName, terminal_of_token};
ghost use Rattle.mpslp_lp_grammar.specs.Declares.{TakesToken, answer_at};
ghost use Rattle.mpslp_lp_grammar.specs.Phrase.{terminal_fault};
ghost use Rattle.mpslp_lp_grammar.specs.Terminal.{Terminal};
ghost use Rattle.mpslp_lp_grammar.specs.declared.states.Place.{Place};
ghost use Rattle.mpslp_lp_grammar.specs.AfterToken.{end_bound, end_side, step_at_side_value};
ghost use Rattle.mpslp_lp_grammar.specs.FirstToken.{begin_bound, step_at_second_relation};

use crate::answers::{at_place, refuse};
use crate::context::Context;
use crate::given_limit::GivenLimit;
use crate::rows::{end_row, fits_second};
use crate::sides::{flip, limit_of_terminal};
use crate::signs::Sign;
use crate::states::{Place, SideOwner, State};
use crate::terminals::{TerminalKind, TerminalToken};
use mpslp_lines::LineError;
use mpslp_lp_tokens::Relation;
use mpslp_model::laws::each_name_is_legal;
use mpslp_model::{FaultKind, Limit, Name};

/// Takes the first token of a bound.
pub(crate) fn begin_bound(
    context: &mut Context,
    token: &TerminalToken<'_>,
) -> Result<State, LineError>
    requires { HasLegalName token.now }
    ensures { TakesToken (begin_bound context.old (terminal_of_token token.now)) result context.new }
{
    match token.kind {
        TerminalKind::Name => Ok(State::BoundName(context.builder.copied(token.text)?)),
        TerminalKind::Sign(sign) => Ok(State::BoundSign(sign)),
        _ => match limit_of_terminal(Sign::Plus, token) {
            Some(limit) => Ok(State::BoundLeft(limit)),
            None => refuse(context, token, FaultKind::BadToken),
        },
    }
}

/// Takes a relation after a bound, which is legal only if the bound has just a left-hand side, as in `1 <= x`.
pub(crate) fn step_at_second_relation(
    context: &mut Context,
    left: Option<(Name, Relation)>,
    relation: Relation,
    token: &TerminalToken<'_>,
) -> Result<State, LineError>
    ensures { TakesToken (step_at_second_relation context.old left relation (terminal_of_token token.now)) result context.new }
{
    match left {
        None => refuse(context, token, FaultKind::BadToken),
        Some((column, first)) => {
            if fits_second(first, relation) {
                Ok(State::AtSide(SideOwner::SideOfBound(false, column, relation)))
            } else {
                refuse(context, token, FaultKind::MixedSenses)
            }
        }
    }
}

/// Declares the limits that a relation and its right-hand side give a column, and first the column if it is new.
///
/// # Errors
///
/// `Fault` if the builder rejects it, with the first error; `OutOfMemory` if an allocation fails. After an error nothing is
/// known of the context.
pub fn declare_bound(
    context: &mut Context,
    is_new: bool,
    column: &[u8],
    relation: Relation,
    limit: &GivenLimit,
) -> Result<(), LineError>
    requires { IsMpsName column.now }
    ensures { (terminal : Terminal) (place : Place) → terminal_fault context.old terminal ≡ None
        → TakesToken (end_bound context.old (new_column is_new column.now) column.now (limits_by relation limit.now) terminal place) (answer_at place result) context.new }
{
    context
        .builder
        .declare_bound_by(is_new, column, relation, limit)
}

/// Declares that a column has no limits, and first the column if it is new.
///
/// # Errors
///
/// Those of [`declare_bound`].
pub fn declare_free(context: &mut Context, column: &[u8]) -> Result<(), LineError>
    requires { IsMpsName column.now }
    ensures { let taken = end_bound context.old (declare_column column.now ∷ []) column.now no_limits Terminal.Free (Place.InBounds None) in
        TakesToken taken (answer_at (Place.InBounds None) result) context.new }
{
    context
        .builder
        .declare_bound(true, column, Some(Limit::MinusInf), Some(Limit::PlusInf))
}

/// Takes a token that completes the right-hand side of a bound, and declares the bound.
pub(crate) fn end_bound(
    context: &mut Context,
    is_new: bool,
    column: Name,
    relation: Relation,
    limit: &GivenLimit,
    token: &TerminalToken<'_>,
) -> Result<State, LineError>
    requires { terminal_fault context.old (terminal_of_token token.now) ≡ None }
    ensures { let limits = limits_by relation limit.now in
        TakesToken (end_bound context.old (new_column is_new column) column limits (terminal_of_token token.now) (Place.InBounds None)) result context.new }
{
    each_name_is_legal(&column);
    let answer = declare_bound(context, is_new, column.as_bytes(), relation, limit);
    at_place(answer, Place::InBounds(None))
}

/// Takes `free` after the column of a bound.
pub(crate) fn end_free_bound(context: &mut Context, column: Name) -> Result<State, LineError>
    ensures { TakesToken (end_bound context.old (declare_column column ∷ []) column no_limits Terminal.Free (Place.InBounds None)) result context.new }
{
    each_name_is_legal(&column);
    let answer = declare_free(context, column.as_bytes());
    at_place(answer, Place::InBounds(None))
}

/// Takes the column of a bound after its left-hand side.
pub(crate) fn step_after_bound_column(
    context: &mut Context,
    limit: &GivenLimit,
    relation: Relation,
    column: &[u8],
) -> Result<State, LineError>
    requires { IsMpsName column.now }
    ensures { let limits = limits_by (flip relation) limit.now in
        let place = Place.InBounds (Some (column.now, relation)) in
        TakesToken (end_bound context.old (declare_column column.now ∷ []) column.now limits (Terminal.Name column.now) place) result context.new }
{
    let name = context.builder.copied(column)?;
    let answer = declare_bound(context, true, column, flip(relation), limit);
    at_place(answer, Place::InBounds(Some((name, relation))))
}

/// Takes a token that completes the right-hand side of a row or a bound.
pub(crate) fn end_side(
    context: &mut Context,
    sided: SideOwner,
    limit: &GivenLimit,
    token: &TerminalToken<'_>,
) -> Result<State, LineError>
    requires { terminal_fault context.old (terminal_of_token token.now) ≡ None }
    ensures { TakesToken (end_side context.old sided limit.now (terminal_of_token token.now)) result context.new }
{
    match sided {
        SideOwner::SideOfRow(row, relation) => end_row(context, row, relation, limit, token),
        SideOwner::SideOfBound(is_new, column, relation) => {
            end_bound(context, is_new, column, relation, limit, token)
        }
    }
}

/// Takes a token of a right-hand side, after its sign if it has one.
pub(crate) fn step_at_side_value(
    context: &mut Context,
    sided: SideOwner,
    sign: Sign,
    token: &TerminalToken<'_>,
) -> Result<State, LineError>
    ensures { let terminal = terminal_of_token token.now in
        TakesToken (step_at_side_value (λ limit. end_side context.old sided limit terminal) context.old sign terminal) result context.new }
{
    match token.kind {
        TerminalKind::Number(value) => {
            end_side(context, sided, &GivenLimit::of(sign.of(value)), token)
        }
        TerminalKind::Infinity => end_side(context, sided, &GivenLimit::infinity(sign), token),
        _ => refuse(context, token, FaultKind::BadToken),
    }
}
