//! Phrases that are taken as a whole and not token by token: terms, labels and right-hand sides of rows, bounds, and names that a
//! section lists.

ghost use Rattle.mpslp_lp.specs.PlainPhrase.{TakesSome};

use crate::plain_bounds::take_bound;
use crate::plain_names::take_names;
use crate::plain_row_starts::take_new_row;
use crate::plain_rows::{take_labelled_row, take_rest_of_row, take_right_side};
use mpslp_lines::LineError;
use mpslp_lp_grammar::{Context, ListSection, Place, State};
use mpslp_lp_tokens::Tokens;

/// Takes the plain phrases that come next, as far as the state allows. Returns the tokens after them.
#[inline(never)]
pub(crate) fn take_phrases<'a>(
    context: &mut Context,
    state: &mut State,
    tokens: Tokens<'a>,
) -> Result<Tokens<'a>, LineError>
    ensures { TakesSome context.old state.old tokens.entry result context.new state.new }
{
    match state {
        State::Between(Place::BetweenRows) => take_new_row(context, state, tokens),
        State::Between(Place::InBounds(_)) => take_bound(context, state, tokens),
        State::Between(Place::InGenerals) => take_names(context, ListSection::Generals, tokens),
        State::Between(Place::InBinaries) => take_names(context, ListSection::Binaries, tokens),
        State::Between(Place::InSemis) => take_names(context, ListSection::Semis, tokens),
        State::RowLabel(_) => take_labelled_row(context, state, tokens),
        _ => take_rest_of_row(context, state, tokens),
    }
}

/// Takes the plain phrases that come next where no plain term does, as far as the state allows. Returns the tokens after them.
#[inline(always)]
pub(crate) fn take_other_phrases<'a>(
    context: &mut Context,
    state: &mut State,
    tokens: Tokens<'a>,
) -> Result<Tokens<'a>, LineError>
    ensures { TakesSome context.old state.old tokens.entry result context.new state.new }
{
    match state {
        State::Between(Place::InRow(_)) => take_right_side(context, state, tokens),
        _ => take_phrases(context, state, tokens),
    }
}
