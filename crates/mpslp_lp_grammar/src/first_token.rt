//! The first token of a phrase.

ghost use Rattle.std.specs.Prelude.{◌≡◌, List};
ghost use Rattle.mpslp_types.specs.Name.{IsMpsName};
ghost use Rattle.mpslp_builder.specs.Declaration.{Declarations, Draft};
ghost use Rattle.mpslp_types.specs.declared.faults.BuildFault.{BuildFault};
ghost use Rattle.mpslp_lp_grammar.specs.declared.context.Context.{Context};
ghost use Rattle.mpslp_lp_grammar.specs.declared.states.Place.{Place};
ghost use Rattle.mpslp_lp_grammar.specs.Grammar.{may_begin_section};
ghost use Rattle.mpslp_lp_grammar.specs.Rows.{default_row};
ghost use Rattle.mpslp_lp_grammar.specs.TerminalToken.{HasLegalName, terminal_of_token};
ghost use Rattle.mpslp_lp_grammar.specs.Declares.{DeclaresUnless, TakesToken, answer_at};
ghost use Rattle.mpslp_lp_grammar.specs.AfterToken.{Goes, step_after_declarations, with_made};
ghost use Rattle.mpslp_lp_grammar.specs.FirstToken.{after_section_word, open_section, name_taken, listed_at, kind_declared, begin_phrase, begin};
ghost use Rattle.mpslp_lp_grammar.specs.Terminal.{Terminal};

use crate::answers::{at_place, refuse};
use crate::bounds::{begin_bound, step_at_second_relation};
use crate::context::Context;
use crate::items::begin_item;
use crate::rows::{begin_row, fits_left};
use crate::states::{ItemOwner, LastWord, ListSection, PartialRow, Place, SideOwner, State};
use crate::terminals::{TerminalKind, TerminalToken};
use mpslp_lines::LineError;
use mpslp_lp_tokens::{Relation, SectionWord};
use mpslp_model::{FaultKind, Name, Sense};

/// The state after the first word of a section.
fn opened_state(word: SectionWord) -> State
    ensures { (context : Context) → after_section_word context word ≡ Goes context result }
{
    match word {
        SectionWord::Minimize => State::AtObjective(Sense::Minimize),
        SectionWord::Maximize => State::AtObjective(Sense::Maximize),
        SectionWord::Rows => State::Between(Place::BetweenRows),
        SectionWord::Subject => State::AtLastWord(LastWord::To),
        SectionWord::Such => State::AtLastWord(LastWord::That),
        SectionWord::Bounds => State::Between(Place::InBounds(None)),
        SectionWord::Generals => State::Between(Place::InGenerals),
        SectionWord::Binaries => State::Between(Place::InBinaries),
        SectionWord::Semi => State::AtSemi,
        SectionWord::Semis => State::Between(Place::InSemis),
        SectionWord::End => State::AfterEnd,
    }
}

/// Takes the first word of a section.
fn open_section(context: &mut Context, word: SectionWord) -> Result<State, LineError>
    ensures { TakesToken (open_section context.old word) result context.new }
{
    match context.sections_seen.section_fault(word.section()) {
        Some(kind) => Err(LineError::Fault(kind)),
        None => {
            context.sections_seen = context.sections_seen.with(word.section());
            Ok(opened_state(word))
        }
    }
}

/// Whether a section may begin at the place: anywhere but inside a row.
fn may_begin_section(place: &Place) -> bool
    ensures { result ≡ may_begin_section place.now }
{
    match place {
        Place::InRow(_) => false,
        _ => true,
    }
}

/// Takes the first token of an item of the objective other than the first item.
fn begin_later_item(
    context: &mut Context,
    objective: Name,
    token: &TerminalToken<'_>,
) -> Result<State, LineError>
    ensures { TakesToken (begin_phrase (Place.InObjective objective) context.old (terminal_of_token token.now)) result context.new }
{
    match token.kind {
        TerminalKind::Sign(sign) => Ok(State::Signs(ItemOwner::OfObjective(objective), sign)),
        _ => refuse(context, token, FaultKind::BadToken),
    }
}

/// Takes the first token of a row, which may be its label.
fn begin_labelled(context: &mut Context, token: &TerminalToken<'_>) -> Result<State, LineError>
    requires { HasLegalName token.now }
    ensures { TakesToken (begin_phrase Place.BetweenRows context.old (terminal_of_token token.now)) result context.new }
{
    match token.kind {
        TerminalKind::Name => Ok(State::RowName(context.builder.copied(token.text)?)),
        TerminalKind::Infinity | TerminalKind::Number(_) | TerminalKind::Sign(_) => {
            let name = context.builder.next_row()?;
            begin_row(context, name, token)
        }
        _ => refuse(context, token, FaultKind::BadToken),
    }
}

/// Takes a token after a term of a row.
fn go_on_in_row(
    context: &mut Context,
    row: PartialRow,
    token: &TerminalToken<'_>,
) -> Result<State, LineError>
    ensures { TakesToken (begin_phrase (Place.InRow row) context.old (terminal_of_token token.now)) result context.new }
{
    match token.kind {
        TerminalKind::Sign(sign) => Ok(State::Signs(ItemOwner::OfRow(row), sign)),
        TerminalKind::Compares(relation) => {
            if fits_left(&row, relation) {
                Ok(State::AtSide(SideOwner::SideOfRow(row, relation)))
            } else {
                refuse(context, token, FaultKind::MixedSenses)
            }
        }
        _ => refuse(context, token, FaultKind::BadToken),
    }
}

/// Declares a column that a section lists, and its kind.
///
/// # Errors
///
/// `Fault` if the builder rejects it, with the first error; `OutOfMemory` if an allocation fails. After an error nothing is
/// known of the context.
pub fn declare_listed(
    context: &mut Context,
    section: ListSection,
    column: &[u8],
) -> Result<(), LineError>
    requires { IsMpsName column.now }
    ensures { let place = listed_at section in
        TakesToken (name_taken place (kind_declared section) context.old (Terminal.Name column.now)) (answer_at place result) context.new }
{
    context.builder.declare_listed(section, column)
}

/// Takes a token in a section that lists names of columns.
fn step_in_name_section(
    context: &mut Context,
    section: ListSection,
    token: &TerminalToken<'_>,
) -> Result<State, LineError>
    requires { HasLegalName token.now }
    ensures { TakesToken (name_taken (listed_at section) (kind_declared section) context.old (terminal_of_token token.now)) result context.new }
{
    match token.kind {
        TerminalKind::Name => {
            let answer = declare_listed(context, section, token.text);
            at_place(answer, section.place())
        }
        _ => refuse(context, token, FaultKind::BadToken),
    }
}

/// Takes a token in the Bounds section, where a bound may begin, or the last one may continue with a right-hand side.
fn begin_in_bounds(
    context: &mut Context,
    left: Option<(Name, Relation)>,
    token: &TerminalToken<'_>,
) -> Result<State, LineError>
    requires { HasLegalName token.now }
    ensures { TakesToken (begin_phrase (Place.InBounds left) context.old (terminal_of_token token.now)) result context.new }
{
    match token.kind {
        TerminalKind::Compares(relation) => step_at_second_relation(context, left, relation, token),
        _ => begin_bound(context, token),
    }
}

/// Takes the first token of a phrase, if it opens no section.
fn begin_phrase(
    context: &mut Context,
    place: Place,
    token: &TerminalToken<'_>,
) -> Result<State, LineError>
    requires { HasLegalName token.now }
    ensures { TakesToken (begin_phrase place context.old (terminal_of_token token.now)) result context.new }
{
    match place {
        Place::AtStart => refuse(context, token, FaultKind::BadToken),
        Place::BeforeItems(name) => begin_item(context, ItemOwner::OfObjective(name), token),
        Place::InObjective(name) => begin_later_item(context, name, token),
        Place::BetweenRows => begin_labelled(context, token),
        Place::InRow(row) => go_on_in_row(context, row, token),
        Place::InBounds(left) => begin_in_bounds(context, left, token),
        Place::InGenerals => step_in_name_section(context, ListSection::Generals, token),
        Place::InBinaries => step_in_name_section(context, ListSection::Binaries, token),
        Place::InSemis => step_in_name_section(context, ListSection::Semis, token),
    }
}

/// Takes the first token of a phrase.
pub(crate) fn begin(
    context: &mut Context,
    place: Place,
    token: &TerminalToken<'_>,
) -> Result<State, LineError>
    requires { HasLegalName token.now }
    ensures { TakesToken (begin place context.old (terminal_of_token token.now)) result context.new }
{
    match token.kind {
        TerminalKind::Opens(word) => {
            if may_begin_section(&place) {
                open_section(context, word)
            } else {
                refuse(context, token, FaultKind::BadToken)
            }
        }
        _ => begin_phrase(context, place, token),
    }
}

/// Takes the first token of a phrase after the declarations of the phrase before it, which this token completes.
pub(crate) fn begin_phrase_after(
    context: &mut Context,
    answer: Result<(), LineError>,
    place: Place,
    token: &TerminalToken<'_>,
) -> Result<State, LineError>
    requires { HasLegalName token.now }
    ensures { (earlier : Draft) (refusals : List BuildFault) (made : Declarations) → DeclaresUnless refusals earlier made answer context.old.builder
        → TakesToken (step_after_declarations (record context.old { builder = earlier }) (terminal_of_token token.now) refusals made (begin place (with_made (record context.old { builder = earlier }) made) (terminal_of_token token.now))) result context.new }
{
    match answer {
        Ok(()) => begin(context, place, token),
        Err(LineError::Fault(kind)) => refuse(context, token, kind),
        Err(LineError::OutOfMemory) => Err(LineError::OutOfMemory),
    }
}
