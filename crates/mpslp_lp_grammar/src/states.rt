//! The states between tokens: what a reader keeps of an incomplete phrase, besides what is declared.

ghost use Rattle.std.specs.Prelude.{◌≡◌, Ok, Err, MatchResult};
ghost use Rattle.mpslp_types.specs.Name.{IsMpsName};
ghost use Rattle.mpslp_lp_grammar.specs.Declares.{AddsTerm, AddsTo};
ghost use Rattle.mpslp_lp_grammar.specs.Grammar.{last_word_text, opened_by};
ghost use Rattle.mpslp_lp_grammar.specs.FirstToken.{listed_at};
ghost use Rattle.mpslp_lp_grammar.specs.TokenStep.{is_at_end};

use crate::context::Context;
use crate::given_limit::GivenLimit;
use crate::signs::Sign;
use mpslp_builder::RowTerms;
use mpslp_decimal::Decimal;
use mpslp_lines::LineError;
use mpslp_lp_tokens::Relation;
use mpslp_model::{FaultKind, Name, Sense};
use std::alloc::Global;
use std::marker::Model;

/// An incomplete row. It is in a box because a state is moved with each token.
#[derive(Drop)]
pub struct PartialRow {
    pub(crate) parts: Box<PartialParts>,
}

/// What is known of an incomplete row.
#[derive(Drop)]
pub struct PartialParts {
    pub(crate) name: Name,
    /// The left-hand side and the relation after it, if the row has them.
    pub(crate) left: Option<(GivenLimit, Relation)>,
    /// The terms by their columns, in the order of the text.
    pub(crate) terms: RowTerms,
}

impl Model for PartialRow {
    ghost use Rattle.mpslp_lp_grammar.specs.PartialRow.{PartialRow};

    ghost Value = { PartialRow };

    ghost view = { λ r. record { name = r.parts.value.name; left = r.parts.value.left; terms = r.parts.value.terms } };
}

/// Adds a term to those of a row.
fn add_named(
    terms: &mut RowTerms,
    alloc: Global,
    name: &[u8],
    value: Decimal,
) -> Result<(), LineError>
    requires { IsMpsName name.now }
    ensures { MatchResult result (λ _. AddsTo terms.old name.now value (Ok terms.new)) (λ error. AddsTo terms.old name.now value (Err error)) }
{
    match terms.add(alloc, name, value) {
        Ok(true) => Ok(()),
        Ok(false) => Err(LineError::Fault(FaultKind::DuplicateEntry)),
        Err(_) => Err(LineError::OutOfMemory),
    }
}

impl PartialRow {
    /// Adds a term to the row. The name of the column is copied.
    ///
    /// # Errors
    ///
    /// `DuplicateEntry` if the column already has a term in the row; `OutOfMemory` if an allocation fails.
    pub fn with_term(
        self,
        context: &Context,
        column: &[u8],
        value: Decimal,
    ) -> Result<PartialRow, LineError>
        requires { IsMpsName column.now }
        ensures { AddsTerm self column.now value result }
    {
        let mut row = self;
        row.add_term(context, column, value)?;
        Ok(row)
    }

    /// Adds a term to the row in place. The name of the column is copied.
    ///
    /// # Errors
    ///
    /// `DuplicateEntry` if the column already has a term in the row; `OutOfMemory` if an allocation fails. After an error
    /// nothing is known of the row.
    pub fn add_term(
        &mut self,
        context: &Context,
        column: &[u8],
        value: Decimal,
    ) -> Result<(), LineError>
        requires { IsMpsName column.now }
        ensures { MatchResult result (λ _. AddsTerm self.old column.now value (Ok self.new)) (λ error. AddsTerm self.old column.now value (Err error)) }
    {
        add_named(
            &mut self.parts.terms,
            context.builder.alloc(),
            column,
            value,
        )
    }
}

/// Where in the text a phrase begins.
#[derive(Drop)]
pub enum Place {
    /// At the start, before the word `minimize` or `maximize`.
    AtStart,
    /// Before the first item of the objective with this name.
    BeforeItems(Name),
    /// After an item of the objective with this name.
    InObjective(Name),
    /// Where a row may begin.
    BetweenRows,
    /// After a term of a row.
    InRow(PartialRow),
    /// Where a bound may begin. After a bound with only a left-hand side: its column and the relation before it.
    InBounds(Option<(Name, Relation)>),
    /// In the Generals section.
    InGenerals,
    /// In the Binaries section.
    InBinaries,
    /// In the semi-continuous section.
    InSemis,
}

/// To what an item belongs.
#[derive(Drop)]
pub enum ItemOwner {
    /// The objective with this name.
    OfObjective(Name),
    /// A row.
    OfRow(PartialRow),
}

/// What comes before a relation that a right-hand side follows.
#[derive(Drop)]
pub enum SideOwner {
    /// The terms of a row.
    SideOfRow(PartialRow, Relation),
    /// A column, and whether the bound has no left-hand side, so that the column is still to be declared.
    SideOfBound(bool, Name, Relation),
}

/// The last word of a section heading of several words.
#[derive(Clone, Copy)]
pub enum LastWord {
    /// `to` in `subject to`.
    To,
    /// `that` in `such that`.
    That,
    /// `continuous` in `semi-continuous`.
    Continuous,
}

impl LastWord {
    /// The word in lower case.
    pub(crate) fn text(self) -> &'static [u8]
        ensures { result.now ≡ last_word_text self }
    {
        match self {
            LastWord::To => b"to".as_slice(),
            LastWord::That => b"that".as_slice(),
            LastWord::Continuous => b"continuous".as_slice(),
        }
    }

    /// Where it leads.
    pub(crate) fn opens(self) -> Place
        ensures { result ≡ opened_by self }
    {
        match self {
            LastWord::To | LastWord::That => Place::BetweenRows,
            LastWord::Continuous => Place::InSemis,
        }
    }
}

/// A section that lists names of columns.
#[derive(Clone, Copy)]
pub enum ListSection {
    /// The Generals section.
    Generals,
    /// The Binaries section.
    Binaries,
    /// The semi-continuous section.
    Semis,
}

impl ListSection {
    /// The place of each of its names.
    pub(crate) fn place(self) -> Place
        ensures { result ≡ listed_at self }
    {
        match self {
            ListSection::Generals => Place::InGenerals,
            ListSection::Binaries => Place::InBinaries,
            ListSection::Semis => Place::InSemis,
        }
    }
}

/// How far a phrase has come.
#[derive(Drop)]
pub enum State {
    /// Before the first token of a phrase.
    Between(Place),
    /// After `minimize` or `maximize`.
    AtObjective(Sense),
    /// After a name that follows `minimize` or `maximize` and may be a label.
    ObjectiveName(Sense, Name),
    /// Before the last word of a section heading.
    AtLastWord(LastWord),
    /// After `semi`.
    AtSemi,
    /// After the signs of an item, with their product.
    Signs(ItemOwner, Sign),
    /// After the number of an item.
    ItemNumber(ItemOwner, Sign, Decimal),
    /// After a name at the start of a row, which may be a label.
    RowName(Name),
    /// After the label of a row.
    RowLabel(Name),
    /// After the first sign of a row.
    RowSign(Name, Sign),
    /// After the first number of a row, with the sign before it. At most one sign is before it.
    RowNumber(Name, Sign, Decimal),
    /// After the left-hand side of a row.
    RowLeft(Name, GivenLimit),
    /// After the relation that follows the left-hand side of a row.
    RowLeftRelation(PartialRow),
    /// After the column of a bound.
    BoundName(Name),
    /// After the sign of a bound's left-hand side.
    BoundSign(Sign),
    /// After the left-hand side of a bound.
    BoundLeft(GivenLimit),
    /// After the relation that follows the left-hand side of a bound.
    BoundLeftRelation(GivenLimit, Relation),
    /// Before a right-hand side.
    AtSide(SideOwner),
    /// After the sign of a right-hand side.
    SideSign(SideOwner, Sign),
    /// After `end`, on the same line.
    AfterEnd,
}

impl State {
    /// Whether `end` was the last token.
    pub fn is_at_end(&self) -> bool
        ensures { result ≡ is_at_end self.now }
    {
        match self {
            State::AfterEnd => true,
            _ => false,
        }
    }
}
