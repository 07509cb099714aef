//! The start of a row, taken as a whole and not token by token: its label or none, and its first term, which may have no sign.

ghost use Rattle.std.specs.Prelude.{◌≡◌, IsTrue, List, MatchResult, IfSome};
ghost use Rattle.mpslp_types.specs.Name.{IsMpsName};
ghost use Rattle.mpslp_lines.specs.declared.errors.LineError.{LineError};
ghost use Rattle.mpslp_lp_grammar.specs.Items.{one};
ghost use Rattle.mpslp_lp_grammar.specs.Rows.{default_row};
ghost use Rattle.mpslp_lp_grammar.specs.Terminal.{Terminal};
ghost use Rattle.mpslp_lp_grammar.specs.TerminalToken.{HasLegalName, terminal_of_token};
ghost use Rattle.mpslp_lp_grammar.specs.TokenStep.{step};
ghost use Rattle.mpslp_lp_grammar.specs.declared.states.Place.{Place};
ghost use Rattle.mpslp_lp_grammar.specs.declared.states.State.{State};
ghost use Rattle.mpslp_lp_tokens.specs.Token.{Token};
ghost use Rattle.mpslp_lp.specs.PlainTerm.{Begins};
ghost use Rattle.mpslp_lp.specs.PlainPhrase.{BeginsWithRight, TakesSome};
ghost use Rattle.mpslp_lp.specs.PlainStart.{BeginsWithColumn, BeginsWithTerm, row_of_term};

use crate::plain_rows::{end_plain_row, take_rest_of_row};
use crate::plain_terms::set_state;
use crate::plain_tokens::{RightSide, next_name, next_terminal, right_side_after, takes_colon};
use mpslp_decimal::Decimal;
use mpslp_lines::LineError;
use mpslp_lp_grammar::{
    Context, PartialRow, Place, Sign, State, TerminalKind, TerminalToken, row_without_terms,
};
use mpslp_lp_tokens::Tokens;
use mpslp_model::Name;

/// The value and the column of a term.
#[derive(Clone, Copy)]
struct FirstTerm<'a> {
    value: Decimal,
    column: &'a [u8],
}

/// The term without a sign that begins with this token: a number or none, and a name.
#[inline(always)]
fn unsigned_from<'a>(token: &TerminalToken<'a>, tokens: &mut Tokens<'a>) -> Option<FirstTerm<'a>>
    requires { HasLegalName token.now }
    ensures term { (found : List Token) → Begins found (terminal_of_token token.now) tokens.old
        → IfSome result (λ term. BeginsWithColumn found term.value term.column.now tokens.new) }
    ensures legal { IfSome result (λ term. IsMpsName term.column.now) }
{
    match token.kind {
        TerminalKind::Number(value) => {
            let column = next_name(tokens)?;
            Some(FirstTerm { value, column })
        }
        TerminalKind::Name => Some(FirstTerm {
            value: Decimal::one(),
            column: token.text,
        }),
        _ => None,
    }
}

/// The term after this sign.
#[inline(always)]
fn term_after<'a>(sign: Sign, tokens: &mut Tokens<'a>) -> Option<FirstTerm<'a>>
    ensures term { (found : List Token) → Begins found (Terminal.Sign sign) tokens.old
        → IfSome result (λ term. BeginsWithTerm found term.value term.column.now tokens.new) }
    ensures legal { IfSome result (λ term. IsMpsName term.column.now) }
{
    let Some(token) = next_terminal(tokens) else {
        return None;
    };
    match unsigned_from(&token, tokens) {
        Some(term) => Some(FirstTerm {
            value: sign.of(term.value),
            column: term.column,
        }),
        None => None,
    }
}

/// The term that begins with this token: a sign or none, a number or none, and a name.
#[inline(always)]
fn term_from<'a>(token: &TerminalToken<'a>, tokens: &mut Tokens<'a>) -> Option<FirstTerm<'a>>
    requires { HasLegalName token.now }
    ensures term { (found : List Token) → Begins found (terminal_of_token token.now) tokens.old
        → IfSome result (λ term. BeginsWithTerm found term.value term.column.now tokens.new) }
    ensures legal { IfSome result (λ term. IsMpsName term.column.now) }
{
    match token.kind {
        TerminalKind::Sign(sign) => match term_after(sign, tokens) {
            Some(term) => Some(term),
            None => None,
        },
        _ => match unsigned_from(token, tokens) {
            Some(term) => Some(term),
            None => None,
        },
    }
}

/// The term that comes next.
#[inline(always)]
fn next_term<'a>(tokens: &mut Tokens<'a>) -> Option<FirstTerm<'a>>
    ensures term { IfSome result (λ term. BeginsWithTerm tokens.old term.value term.column.now tokens.new) }
    ensures legal { IfSome result (λ term. IsMpsName term.column.now) }
{
    let Some(token) = next_terminal(tokens) else {
        return None;
    };
    match term_from(&token, tokens) {
        Some(term) => Some(term),
        None => None,
    }
}

/// A row with this name, and this term only.
fn row_of_term(
    context: &mut Context,
    name: Name,
    column: &[u8],
    value: Decimal,
) -> Result<PartialRow, LineError>
    requires { IsMpsName column.now }
    ensures row { MatchResult result (λ row. row ≡ row_of_term name column.now value) (λ error. error ≡ LineError.OutOfMemory) }
    ensures same { context.new ≡ context.old }
{
    let row = row_without_terms(context, name)?;
    row.with_term(context, column, value)
}

/// The row without a label that begins with this column.
fn row_of_column(context: &mut Context, column: &[u8]) -> Result<PartialRow, LineError>
    requires { IsMpsName column.now }
    ensures { MatchResult result (λ row. (row ≡ row_of_term (default_row context.old) column.now one) × (context.new ≡ context.old))
        (λ error. error ≡ LineError.OutOfMemory) }
{
    let name = context.next_row()?;
    row_of_term(context, name, column, Decimal::one())
}

/// Takes the first term of the row with this name. `left` are the tokens after it.
fn take_first_term<'a>(
    context: &mut Context,
    state: &mut State,
    name: Name,
    term: FirstTerm<'_>,
    left: Tokens<'a>,
) -> Result<Tokens<'a>, LineError>
    requires { IsMpsName term.column.now }
    ensures { (found : List Token) → BeginsWithTerm found term.entry.value term.entry.column.now left.entry
        → TakesSome context.old (State.RowLabel name) found result context.new state.new }
{
    let row = row_of_term(context, name, term.column, term.value)?;
    set_state(state, State::Between(Place::InRow(row)));
    Ok(left)
}

/// Takes the first term of a row with this label, if it comes next on the line of the label.
#[inline(never)]
fn take_labelled_term<'a>(
    context: &mut Context,
    state: &mut State,
    name: Name,
    tokens: Tokens<'a>,
) -> Result<Tokens<'a>, LineError>
    ensures { TakesSome context.old (State.RowLabel name) tokens.entry result context.new state.new }
{
    let mut left = tokens.again();
    match next_term(&mut left) {
        Some(term) => take_first_term(context, state, name, term, left),
        None => {
            set_state(state, State::RowLabel(name));
            Ok(tokens)
        }
    }
}

/// Takes the first term of a row, if it comes next after this label. Most labels are the last token of their line.
#[inline(always)]
fn take_after_label<'a>(
    context: &mut Context,
    state: &mut State,
    label: &[u8],
    tokens: Tokens<'a>,
) -> Result<Tokens<'a>, LineError>
    requires { IsMpsName label.now }
    ensures { TakesSome context.old (State.RowLabel label.now) tokens.entry result context.new state.new }
{
    let name = context.copied(label)?;
    if tokens.bytes_left().is_empty() {
        set_state(state, State::RowLabel(name));
        return Ok(tokens);
    }
    take_labelled_term(context, state, name, tokens)
}

/// Takes the first term of a row without a label, if this token, a sign or a number, begins it. `left` are the tokens after this one.
fn take_unlabelled_term<'a>(
    context: &mut Context,
    state: &mut State,
    first: &TerminalToken<'a>,
    tokens: Tokens<'a>,
    left: Tokens<'a>,
) -> Result<Tokens<'a>, LineError>
    requires { HasLegalName first.now }
    ensures { step context.old (State.Between Place.BetweenRows) (terminal_of_token first.now)
        ≡ step context.old (State.RowLabel (default_row context.old)) (terminal_of_token first.now)
        → Begins tokens.entry (terminal_of_token first.now) left.entry → state.old ≡ State.Between Place.BetweenRows → TakesSome context.old state.old tokens.entry result context.new state.new }
{
    let mut left = left;
    let Some(term) = term_from(first, &mut left) else {
        return Ok(tokens);
    };
    let name = context.next_row()?;
    take_first_term(context, state, name, term, left)
}

/// Takes the column that begins a row without a label. `left` are the tokens after it.
fn take_column<'a>(
    context: &mut Context,
    state: &mut State,
    column: &[u8],
    left: Tokens<'a>,
) -> Result<Tokens<'a>, LineError>
    requires { IsMpsName column.now }
    ensures { (terminal : Terminal) (more : List Token) → Begins left.entry terminal more
        → step context.old (State.RowName column.now) terminal ≡ step context.old (State.Between (Place.InRow (row_of_term (default_row context.old) column.now one))) terminal
        → TakesSome context.old (State.RowName column.now) left.entry result context.new state.new }
{
    let row = row_of_column(context, column)?;
    set_state(state, State::Between(Place::InRow(row)));
    Ok(left)
}

/// Takes a row without a label that has this column as its only term, and this right-hand side. `left` are the tokens after it.
fn take_row_of_column<'a>(
    context: &mut Context,
    column: &[u8],
    right: &RightSide,
    left: Tokens<'a>,
) -> Result<Tokens<'a>, LineError>
    requires { IsMpsName column.now }
    ensures { (found : List Token) → BeginsWithRight found right.now.relation right.now.limit left.entry
        → TakesSome context.old (State.RowName column.now) found result context.new (State.Between Place.BetweenRows) }
{
    let row = row_of_column(context, column)?;
    end_plain_row(context, row, right, left)
}

/// Takes the start of a row without a label that begins with this column: the first term, or the whole row if that is its only term.
/// `left` are the tokens after the column.
#[inline(never)]
fn take_after_column<'a>(
    context: &mut Context,
    state: &mut State,
    name: &[u8],
    tokens: Tokens<'a>,
    left: Tokens<'a>,
) -> Result<Tokens<'a>, LineError>
    requires { IsMpsName name.now }
    ensures { Begins tokens.entry (Terminal.Name name.now) left.entry → state.old ≡ State.Between Place.BetweenRows
        → TakesSome context.old state.old tokens.entry result context.new state.new }
{
    let mut after = left.again();
    let Some(second) = next_terminal(&mut after) else {
        return Ok(tokens);
    };
    match second.kind {
        TerminalKind::Sign(_) => take_column(context, state, name, left),
        TerminalKind::Compares(relation) => match right_side_after(relation, &mut after) {
            Some(right) => take_row_of_column(context, name, &right, after),
            None => Ok(tokens),
        },
        _ => Ok(tokens),
    }
}

/// Takes the start of a row that begins with this name: a label and the first term after it, or a column and what
/// [`take_after_column`] takes. `left` are the tokens after the name.
#[inline(always)]
fn take_after_name<'a>(
    context: &mut Context,
    state: &mut State,
    name: &[u8],
    tokens: Tokens<'a>,
    left: Tokens<'a>,
) -> Result<Tokens<'a>, LineError>
    requires { IsMpsName name.now }
    ensures { Begins tokens.entry (Terminal.Name name.now) left.entry → state.old ≡ State.Between Place.BetweenRows
        → TakesSome context.old state.old tokens.entry result context.new state.new }
{
    let mut after = left.again();
    if takes_colon(&mut after) {
        take_after_label(context, state, name, after)
    } else {
        take_after_column(context, state, name, tokens, left)
    }
}

/// Takes the start of a row that begins with a sign or a number, if it comes next. Returns the tokens after it.
#[inline(never)]
fn take_unnamed_start<'a>(
    context: &mut Context,
    state: &mut State,
    tokens: Tokens<'a>,
) -> Result<Tokens<'a>, LineError>
    ensures { state.old ≡ State.Between Place.BetweenRows → TakesSome context.old state.old tokens.entry result context.new state.new }
{
    let mut left = tokens.again();
    let Some(first) = next_terminal(&mut left) else {
        return Ok(tokens);
    };
    match first.kind {
        TerminalKind::Sign(_) | TerminalKind::Number(_) => {
            take_unlabelled_term(context, state, &first, tokens, left)
        }
        _ => Ok(tokens),
    }
}

/// Takes the start of a row, if it comes next. Returns the tokens after it.
#[inline(always)]
fn take_row_start<'a>(
    context: &mut Context,
    state: &mut State,
    tokens: Tokens<'a>,
) -> Result<Tokens<'a>, LineError>
    ensures { state.old ≡ State.Between Place.BetweenRows → TakesSome context.old state.old tokens.entry result context.new state.new }
{
    let mut left = tokens.again();
    match next_name(&mut left) {
        Some(name) => take_after_name(context, state, name, tokens, left),
        None => take_unnamed_start(context, state, tokens),
    }
}

/// Takes a row, as far as it comes next. Returns the tokens after it.
#[inline(never)]
pub(crate) fn take_new_row<'a>(
    context: &mut Context,
    state: &mut State,
    tokens: Tokens<'a>,
) -> Result<Tokens<'a>, LineError>
    ensures { state.old ≡ State.Between Place.BetweenRows → TakesSome context.old state.old tokens.entry result context.new state.new }
{
    let left = take_row_start(context, state, tokens)?;
    match state {
        State::Between(Place::InRow(_)) => take_rest_of_row(context, state, left),
        _ => Ok(left),
    }
}
