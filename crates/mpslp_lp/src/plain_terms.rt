//! Plain terms of rows and of the objective: one sign, an optional number and a name. Most terms are plain, so they are taken
//! as a whole and not token by token.

ghost use Rattle.std.specs.Prelude.{◌≡◌, ◌≤◌, ℕ, List, Ok, Err, None, IfSome, MatchResult, length};
ghost use Rattle.mpslp_types.specs.Name.{IsMpsName};
ghost use Rattle.mpslp_lp_grammar.specs.Declares.{TakesToken};
ghost use Rattle.mpslp_lp.specs.PlainTerm.{IsUnsignedTerm, IsPlainTerm, TakesInRow};
ghost use Rattle.mpslp_lp.specs.PlainPhrase.{TakesSome};
ghost use Rattle.mpslp_lp.specs.LineByLine.{take_tokens};
ghost use Rattle.mpslp_lp_grammar.specs.Rows.{without_terms};
ghost use Rattle.mpslp_lp_tokens.specs.Token.{Token};
ghost use Rattle.mpslp_lp_grammar.specs.declared.states.Place.{Place};
ghost use Rattle.mpslp_lp_grammar.specs.declared.states.State.{State};

use crate::plain_tokens::{next_name, next_sign};
use crate::read_line::{error_before, least_error};
use mpslp_lines::{LineError, value_of};
use mpslp_lp_grammar::{
    Context, PartialRow, Place, Sign, State, TerminalKind, classify_found, declare_objective_term,
    row_without_terms,
};
use mpslp_lp_tokens::laws::each_word_has_lp_bytes;
use mpslp_lp_tokens::{TokenKind, Tokens};
use mpslp_model::Name;
use std::mem::replace;

/// A sign, the text of a number (`1` if the term has none), and the name of a column.
#[derive(Clone, Copy)]
pub(crate) struct PlainTerm<'a> {
    sign: Sign,
    literal: &'a [u8],
    column: &'a [u8],
}

/// Replaces the state. It is a function of its own because the proof of each function that drops a state goes through all that a
/// state may hold.
#[inline(always)]
pub(crate) fn set_state(state: &mut State, next: State)
    ensures { state.new ≡ next }
{
    *state = next;
}

/// Puts back a state that was taken out and does not change: the relation does not fit the left-hand side of the row, or, which
/// never happens where a reader calls this, the state is another one than expected.
#[inline(never)]
pub(crate) fn restore_state(state: &mut State, other: State)
    ensures { state.new ≡ other }
{
    *state = other;
}

/// The text of the number (`1` if the term has none) and the name that come next.
#[inline(always)]
fn unsigned_term<'a>(tokens: &mut Tokens<'a>) -> Option<(&'a [u8], &'a [u8])>
    ensures { IfSome result (λ term. IsUnsignedTerm tokens.old term.0.now term.1.now tokens.new) }
{
    each_word_has_lp_bytes(tokens);
    let token = tokens.next()?;
    match token.kind {
        TokenKind::Number => {
            let column = next_name(tokens)?;
            Some((token.text, column))
        }
        _ => match classify_found(token.kind, token.text) {
            Ok(TerminalKind::Name) => Some((b"1".as_slice(), token.text)),
            _ => None,
        },
    }
}

/// The sign, the optional number and the name that come next.
#[inline(always)]
fn plain_term<'a>(tokens: &mut Tokens<'a>) -> Option<PlainTerm<'a>>
    ensures { IfSome result (λ term. IsPlainTerm tokens.old term.sign term.literal.now term.column.now tokens.new) }
{
    let sign = next_sign(tokens)?;
    let (literal, column) = unsigned_term(tokens)?;
    Some(PlainTerm {
        sign,
        literal,
        column,
    })
}

/// Takes a term of a row. `left` are the tokens after it on its line: their lexical errors are reported before the error of
/// the term. The term may also be the first one after the label of the row.
#[inline(always)]
fn take_plain_term(
    context: &Context,
    row: &mut PartialRow,
    term: PlainTerm<'_>,
    left: Tokens<'_>,
) -> Result<(), LineError>
    requires { IsMpsName term.column.now }
    ensures later { (found : List Token) → IsPlainTerm found term.entry.sign term.entry.literal.now term.entry.column.now left.entry
        → MatchResult result (λ _. TakesInRow context.now row.old found (Ok row.new) left.entry) (λ error. TakesInRow context.now row.old found (Err error) left.entry) }
    ensures first { (found : List Token) (name : List ℕ) → IsPlainTerm found term.entry.sign term.entry.literal.now term.entry.column.now left.entry
        → row.old ≡ without_terms name None
        → MatchResult result
        (λ _. take_tokens context.now (State.Between (Place.InRow row.new)) left.entry ≡ take_tokens context.now (State.RowLabel name) found)
        (λ error. TakesToken (take_tokens context.now (State.RowLabel name) found) (Err error) context.now) }
{
    let value = match value_of(term.literal) {
        Ok(value) => term.sign.of(value),
        Err(kind) => return Err(least_error(kind, left)),
    };
    match row.add_term(context, term.column, value) {
        Ok(()) => Ok(()),
        Err(error) => Err(error_before(error, left)),
    }
}

/// Takes the plain terms of a row that come next. Returns the tokens after them.
#[inline(always)]
fn take_plain_terms<'a>(
    context: &Context,
    row: &mut PartialRow,
    tokens: Tokens<'a>,
) -> Result<Tokens<'a>, LineError>
    ensures { MatchResult result
        (λ left. (take_tokens context.now (State.Between (Place.InRow row.new)) left ≡ take_tokens context.now (State.Between (Place.InRow row.old)) tokens.entry) × (length left ≤ length tokens.entry))
        (λ error. TakesToken (take_tokens context.now (State.Between (Place.InRow row.old)) tokens.entry) (Err error) context.now) }
{
    let mut tokens = tokens;
    'terms: loop {
        let mut left = tokens.again();
        let Some(term) = plain_term(&mut left) else {
            return Ok(tokens);
        };
        take_plain_term(context, row, term, left.again())?;
        tokens = left;
    }
}

/// Takes the first term of a row, which comes after its label, and the plain terms after it. `left` are the tokens after the first
/// term. Returns the tokens after the terms.
#[inline(never)]
fn take_first_terms<'a>(
    context: &mut Context,
    name: Name,
    state: &mut State,
    term: PlainTerm<'a>,
    left: Tokens<'a>,
) -> Result<Tokens<'a>, LineError>
    requires { IsMpsName term.column.now }
    ensures { (found : List Token) → IsPlainTerm found term.entry.sign term.entry.literal.now term.entry.column.now left.entry
        → TakesSome context.old (State.RowLabel name) found result context.new state.new }
{
    let mut row = row_without_terms(context, name)?;
    take_plain_term(context, &mut row, term, left.again())?;
    let rest = take_plain_terms(context, &mut row, left)?;
    set_state(state, State::Between(Place::InRow(row)));
    Ok(rest)
}

/// Takes the plain terms of a row that come next, if the first of them comes after the label of the row. Returns the tokens after
/// them.
#[inline(always)]
pub(crate) fn take_terms_after_label<'a>(
    context: &mut Context,
    state: &mut State,
    tokens: Tokens<'a>,
) -> Result<Tokens<'a>, LineError>
    ensures { TakesSome context.old state.old tokens.entry result context.new state.new }
{
    let mut after_term = tokens.again();
    let Some(term) = plain_term(&mut after_term) else {
        return Ok(tokens);
    };
    match replace(state, State::AfterEnd) {
        State::RowLabel(name) => take_first_terms(context, name, state, term, after_term),
        other => {
            restore_state(state, other);
            Ok(tokens)
        }
    }
}

/// Takes a term of the objective. `left` are the tokens after it on its line: their lexical errors are reported before the
/// error of the term.
#[inline(always)]
fn take_plain_objective_term(
    context: &mut Context,
    objective: &Name,
    term: PlainTerm<'_>,
    left: Tokens<'_>,
) -> Result<(), LineError>
    requires { IsMpsName term.column.now }
    ensures { (found : List Token) → IsPlainTerm found term.entry.sign term.entry.literal.now term.entry.column.now left.entry
        → MatchResult result
        (λ _. take_tokens context.new (State.Between (Place.InObjective objective.now)) left.entry ≡ take_tokens context.old (State.Between (Place.InObjective objective.now)) found)
        (λ error. TakesToken (take_tokens context.old (State.Between (Place.InObjective objective.now)) found) (Err error) context.new) }
{
    let value = match value_of(term.literal) {
        Ok(size) => term.sign.of(size),
        Err(fault) => return Err(least_error(fault, left)),
    };
    match declare_objective_term(context, objective, term.column, value) {
        Ok(()) => Ok(()),
        Err(error) => Err(error_before(error, left)),
    }
}

/// Takes the plain terms of the objective that come next. Returns the tokens after them.
#[inline(never)]
fn take_objective_terms<'a>(
    context: &mut Context,
    objective: &Name,
    tokens: Tokens<'a>,
) -> Result<Tokens<'a>, LineError>
    ensures { MatchResult result
        (λ left. (take_tokens context.new (State.Between (Place.InObjective objective.now)) left ≡ take_tokens context.old (State.Between (Place.InObjective objective.now)) tokens.entry) × (length left ≤ length tokens.entry))
        (λ error. TakesToken (take_tokens context.old (State.Between (Place.InObjective objective.now)) tokens.entry) (Err error) context.new) }
{
    let mut tokens = tokens;
    'terms: loop {
        let mut left = tokens.again();
        let Some(term) = plain_term(&mut left) else {
            return Ok(tokens);
        };
        take_plain_objective_term(context, objective, term, left.again())?;
        tokens = left;
    }
}

/// Takes the plain terms that come next, if the state is after a term of a row or of the objective. Returns the tokens after them.
#[inline(always)]
pub(crate) fn take_more_terms<'a>(
    context: &mut Context,
    state: &mut State,
    tokens: Tokens<'a>,
) -> Result<Tokens<'a>, LineError>
    ensures { TakesSome context.old state.old tokens.entry result context.new state.new }
{
    match state {
        State::Between(Place::InRow(row)) => take_plain_terms(context, row, tokens),
        State::Between(Place::InObjective(name)) => take_objective_terms(context, name, tokens),
        _ => Ok(tokens),
    }
}
