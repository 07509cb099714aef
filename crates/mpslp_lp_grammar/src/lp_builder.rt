//! What a text has declared, and the declarations that tokens complete.

ghost use Rattle.std.specs.Prelude.{◌≡◌, ◌+◌, ◌-◌, ◌^◌, ◌∷◌, [], IsTrue, length, min, MatchResult};
ghost use Rattle.std.specs.Option.{ForSome};
ghost use Rattle.mpslp_types.specs.Name.{IsMpsName};
ghost use Rattle.mpslp_types.specs.Limit.{is_given};
ghost use Rattle.mpslp_builder.specs.Declaration.{empty_draft, by_limits, declare_sense, declare_objective, declare_constant, declare_row, declare_column, declare_integer, declare_binary, declare_semi};
ghost use Rattle.mpslp_lines.specs.declared.errors.LineError.{LineError};
ghost use Rattle.mpslp_lp_grammar.specs.Rows.{default_objective, term_declared, objective_declared, first_item_declared, numbered_row, without_terms};
ghost use Rattle.std.specs.List.{flat_map};
ghost use Rattle.mpslp_lp_grammar.specs.TokenByToken.{new_column};
ghost use Rattle.mpslp_lp_grammar.specs.Items.{limits_by};
ghost use Rattle.mpslp_lp_grammar.specs.Declares.{Declares, DeclaresBounds, DeclaresSides};
ghost use Rattle.mpslp_lp_grammar.specs.FirstToken.{kind_declared};

use crate::given_limit::GivenLimit;
use crate::states::{ListSection, PartialParts, PartialRow};
use itoa::Buffer;
use mpslp_builder::{ReaderBuilder, RowTerms};
use mpslp_decimal::Decimal;
use mpslp_lines::LineError;
use mpslp_lp_tokens::Relation;
use mpslp_model::laws::{each_builder_is_made, each_name_is_legal};
use mpslp_model::{Builder, HashSeed, Limit, Name, Sense};
use std::alloc::Global;
use std::marker::Model;

/// What a text has declared. Contracts see it as a draft.
#[derive(Drop)]
pub(crate) struct LpBuilder {
    alloc: Global,
    seed: HashSeed,
    builder: ReaderBuilder,
    /// The number of rows, at most 2^64 - 1.
    rows: u64,
    /// The memory of a completed row, reused by the next one.
    spare: Option<Box<PartialParts>>,
}

impl Model for LpBuilder {
    ghost use Rattle.std.specs.Prelude.{◌≡◌, ◌-◌, ◌^◌, length, min};
    ghost use Rattle.mpslp_builder.specs.Declaration.{Draft};

    ghost Value = { Draft };

    ghost view = { λ d. d.builder.draft };

    ghost invariant = { λ d. d.rows ≡ min (length d.builder.draft.rows) (2 ^ 64 - 1) };
}

/// The name of a row without a label: `c` and its position among all rows.
fn numbered_row(alloc: Global, position: u64) -> Result<Name, LineError>
    ensures { MatchResult result (λ name. name ≡ numbered_row position) (λ error. error ≡ LineError.OutOfMemory) }
{
    let mut bytes = b"c".to_vec(alloc)?;
    match bytes.extend_from_slice(Buffer::new().format(position).as_bytes()) {
        Ok(()) => Ok(Name::from_legal(alloc, &bytes)?),
        Err(_) => Err(LineError::OutOfMemory),
    }
}

/// A row without terms, in newly allocated memory.
fn new_row(
    alloc: Global,
    seed: HashSeed,
    name: Name,
    left: Option<(GivenLimit, Relation)>,
) -> Result<PartialRow, LineError>
    ensures { MatchResult result (λ row. row ≡ without_terms name left) (λ error. error ≡ LineError.OutOfMemory) }
{
    let terms = RowTerms::new(alloc, seed);
    match Box::new(alloc, PartialParts { name, left, terms }) {
        Ok(parts) => Ok(PartialRow { parts }),
        Err(_) => Err(LineError::OutOfMemory),
    }
}

/// A row without terms, in the memory of a completed row.
fn emptied(parts: Box<PartialParts>, name: Name, left: Option<(GivenLimit, Relation)>) -> PartialRow
    ensures { result ≡ without_terms name left }
{
    let mut parts = parts;
    parts.name = name;
    parts.left = left;
    parts.terms.clear();
    PartialRow { parts }
}

impl LpBuilder {
    /// A builder to which nothing has been declared.
    pub(crate) fn new(alloc: Global, seed: HashSeed) -> LpBuilder
        ensures { result ≡ empty_draft }
    {
        LpBuilder {
            alloc,
            seed,
            builder: ReaderBuilder {
                draft: Builder::new_seeded(alloc, seed),
            },
            rows: 0,
            spare: None,
        }
    }

    /// The builder that holds the declarations.
    pub(crate) fn into_builder(self) -> Builder
        ensures { result ≡ self }
    {
        self.builder.draft
    }

    /// The allocator.
    pub(crate) fn alloc(&self) -> Global {
        self.alloc
    }

    /// A copy of a name.
    pub(crate) fn copied(&self, name: &[u8]) -> Result<Name, LineError>
        requires { IsMpsName name.now }
        ensures { MatchResult result (λ copy. copy ≡ name.now) (λ error. error ≡ LineError.OutOfMemory) }
    {
        match Name::from_legal(self.alloc, name) {
            Ok(copy) => Ok(copy),
            Err(_) => Err(LineError::OutOfMemory),
        }
    }

    /// The name of the next row if it has no label.
    pub(crate) fn next_row(&self) -> Result<Name, LineError>
        ensures { MatchResult result (λ name. name ≡ numbered_row (min (length self.now.rows + 1) (2 ^ 64 - 1))) (λ error. error ≡ LineError.OutOfMemory) }
    {
        numbered_row(self.alloc, self.rows.saturating_add(1))
    }

    /// A row without terms, in the memory of a completed row if there is one.
    pub(crate) fn row_without_terms(
        &mut self,
        name: Name,
        left: Option<(GivenLimit, Relation)>,
    ) -> Result<PartialRow, LineError>
        ensures row { MatchResult result (λ row. row ≡ without_terms name left) (λ error. error ≡ LineError.OutOfMemory) }
        ensures same { self.new ≡ self.old }
    {
        match self.spare.take() {
            Some(parts) => Ok(emptied(parts, name, left)),
            None => new_row(self.alloc, self.seed, name, left),
        }
    }

    /// Keeps the memory of a completed row for the next one, unless it has very many terms.
    pub(crate) fn keep_memory(&mut self, row: PartialRow)
        ensures { self.new ≡ self.old }
    {
        if row.parts.terms.are_few() {
            self.spare = Some(row.parts);
        }
    }

    /// The name of an objective without a label.
    pub(crate) fn default_objective(&self) -> Result<Name, LineError>
        ensures { MatchResult result (λ name. name ≡ default_objective) (λ error. error ≡ LineError.OutOfMemory) }
    {
        self.copied(b"obj".as_slice())
    }

    /// Declares the sense of the objective.
    fn declare_sense(&mut self, sense: Sense) -> Result<(), LineError>
        ensures { Declares self.old (declare_sense sense ∷ []) result self.new }
    {
        self.builder.draft.sense(sense)?;
        Ok(())
    }

    /// Declares the name of the objective.
    fn declare_objective_name(&mut self, name: Name) -> Result<(), LineError>
        ensures { Declares self.old (declare_objective name ∷ []) result self.new }
    {
        self.builder.draft.objective(name)?;
        Ok(())
    }

    /// Declares the sense and the name of the objective.
    pub(crate) fn declare_objective(&mut self, sense: Sense, name: Name) -> Result<(), LineError>
        ensures { Declares self.old (objective_declared sense name) result self.new }
    {
        self.declare_sense(sense)?;
        self.declare_objective_name(name)
    }

    /// Declares the constant of the objective.
    pub(crate) fn declare_constant(&mut self, value: Decimal) -> Result<(), LineError>
        ensures { Declares self.old (declare_constant value ∷ []) result self.new }
    {
        self.builder.draft.constant(value)?;
        Ok(())
    }

    /// Declares a column, copying its name, even if it already exists.
    fn declare_new_column(&mut self, column: &[u8]) -> Result<(), LineError>
        requires { IsMpsName column.now }
        ensures { Declares self.old (declare_column column.now ∷ []) result self.new }
    {
        let name = self.copied(column)?;
        self.builder.draft.column(name)?;
        Ok(())
    }

    /// Declares a column. The name is copied only if the column is new.
    fn declare_column(&mut self, column: &[u8]) -> Result<(), LineError>
        requires { IsMpsName column.now }
        ensures { Declares self.old (declare_column column.now ∷ []) result self.new }
    {
        if self.builder.draft.find_column(column) {
            each_builder_is_made(&self.builder.draft);
            return Ok(());
        }
        self.declare_new_column(column)
    }

    /// Declares a coefficient, and its column if that is new.
    pub(crate) fn declare_term(
        &mut self,
        row: &[u8],
        column: &[u8],
        value: Decimal,
    ) -> Result<(), LineError>
        requires { IsMpsName column.now }
        ensures { Declares self.old (term_declared row.now (column.now, value)) result self.new }
    {
        let name = self.copied(column)?;
        self.builder.row_term(row, name, value)?;
        Ok(())
    }

    /// Declares a column and that it is integer.
    fn declare_integer(&mut self, column: &[u8]) -> Result<(), LineError>
        requires { IsMpsName column.now }
        ensures { Declares self.old (declare_column column.now ∷ declare_integer column.now ∷ []) result self.new }
    {
        self.declare_column(column)?;
        self.make_integer(column)
    }

    /// Declares a column and that it is binary.
    fn declare_binary(&mut self, column: &[u8]) -> Result<(), LineError>
        requires { IsMpsName column.now }
        ensures { Declares self.old (declare_column column.now ∷ declare_binary column.now ∷ []) result self.new }
    {
        self.declare_column(column)?;
        self.make_binary(column)
    }

    /// Declares a column and that it is semi-continuous.
    fn declare_semi(&mut self, column: &[u8]) -> Result<(), LineError>
        requires { IsMpsName column.now }
        ensures { Declares self.old (declare_column column.now ∷ declare_semi column.now ∷ []) result self.new }
    {
        self.declare_column(column)?;
        self.make_semi(column)
    }

    /// Declares a column and the kind that a section which lists it gives it.
    pub(crate) fn declare_listed(
        &mut self,
        section: ListSection,
        column: &[u8],
    ) -> Result<(), LineError>
        requires { IsMpsName column.now }
        ensures { Declares self.old (declare_column column.now ∷ kind_declared section column.now ∷ []) result self.new }
    {
        match section {
            ListSection::Generals => self.declare_integer(column),
            ListSection::Binaries => self.declare_binary(column),
            ListSection::Semis => self.declare_semi(column),
        }
    }

    /// Declares that an existing column is integer.
    fn make_integer(&mut self, column: &[u8]) -> Result<(), LineError>
        ensures { Declares self.old (declare_integer column.now ∷ []) result self.new }
    {
        self.builder.draft.integer(column)?;
        Ok(())
    }

    /// Declares that an existing column is binary.
    fn make_binary(&mut self, column: &[u8]) -> Result<(), LineError>
        ensures { Declares self.old (declare_binary column.now ∷ []) result self.new }
    {
        self.builder.draft.binary(column)?;
        Ok(())
    }

    /// Declares that an existing column is semi-continuous.
    fn make_semi(&mut self, column: &[u8]) -> Result<(), LineError>
        ensures { Declares self.old (declare_semi column.now ∷ []) result self.new }
    {
        self.builder.draft.semi(column)?;
        Ok(())
    }

    /// Declares the bounds of a column that are given.
    pub(crate) fn declare_bounds_given(
        &mut self,
        column: &[u8],
        lower: Option<Limit>,
        upper: Option<Limit>,
    ) -> Result<(), LineError>
        requires lower { ForSome lower (λ side. IsTrue (is_given side)) }
        requires upper { ForSome upper (λ side. IsTrue (is_given side)) }
        ensures { DeclaresBounds self.old column.now lower upper result self.new }
    {
        self.builder.draft.bounds(column, lower, upper)?;
        Ok(())
    }

    /// Declares a row by its limits.
    fn declare_row(&mut self, name: Name, lower: Limit, upper: Limit) -> Result<(), LineError>
        requires lower { IsTrue (is_given lower) }
        requires upper { IsTrue (is_given upper) }
        ensures { Declares self.old (declare_row name (by_limits lower upper) ∷ []) result self.new }
    {
        each_builder_is_made(&self.builder.draft);
        self.builder.draft.row_limits(name, lower, upper)?;
        self.rows = self.rows.saturating_add(1);
        Ok(())
    }

    /// Declares the bounds of a column that are given, and first the column if it is new.
    pub(crate) fn declare_bound(
        &mut self,
        is_new: bool,
        column: &[u8],
        lower: Option<Limit>,
        upper: Option<Limit>,
    ) -> Result<(), LineError>
        requires name { IsMpsName column.now }
        requires lower { ForSome lower (λ side. IsTrue (is_given side)) }
        requires upper { ForSome upper (λ side. IsTrue (is_given side)) }
        ensures { DeclaresSides self.old (new_column is_new column.now) column.now lower upper result self.new }
    {
        if is_new {
            self.declare_column(column)?;
        }
        self.declare_bounds_given(column, lower, upper)
    }

    /// Declares the bounds that a relation and its right-hand side give a column, and first the column if it is new.
    pub(crate) fn declare_bound_by(
        &mut self,
        is_new: bool,
        column: &[u8],
        relation: Relation,
        limit: &GivenLimit,
    ) -> Result<(), LineError>
        requires name { IsMpsName column.now }
        ensures { let limits = limits_by relation limit.now in
            DeclaresSides self.old (new_column is_new column.now) column.now limits.lower limits.upper result self.new }
    {
        match relation {
            Relation::AtMost => self.declare_bound(is_new, column, None, Some(limit.limit())),
            Relation::AtLeast => self.declare_bound(is_new, column, Some(limit.limit()), None),
            Relation::EqualTo => {
                self.declare_bound(is_new, column, Some(limit.limit()), Some(limit.limit()))
            }
        }
    }

    /// Declares the terms of a row in order.
    fn declare_terms(&mut self, row: &[u8], terms: &RowTerms) -> Result<(), LineError>
        ensures { Declares self.old (flat_map (term_declared row.now) terms.now) result self.new }
    {
        self.builder.row_terms(row, terms)?;
        Ok(())
    }

    /// Declares a row by its limits, and then its terms.
    pub(crate) fn declare_partial(
        &mut self,
        row: &PartialRow,
        lower: Limit,
        upper: Limit,
    ) -> Result<(), LineError>
        requires lower { IsTrue (is_given lower) }
        requires upper { IsTrue (is_given upper) }
        ensures { Declares self.old (declare_row row.now.name (by_limits lower upper) ∷ flat_map (term_declared row.now.name) row.now.terms) result self.new }
    {
        let parts: &PartialParts = &row.parts;
        each_name_is_legal(&parts.name);
        let name = self.copied(parts.name.as_bytes())?;
        self.declare_row(name, lower, upper)?;
        self.declare_terms(parts.name.as_bytes(), &parts.terms)
    }

    /// Declares the objective without a label, and its first term, which is a name without a number.
    pub(crate) fn declare_first_item(
        &mut self,
        sense: Sense,
        column: &[u8],
    ) -> Result<(), LineError>
        requires { IsMpsName column.now }
        ensures { Declares self.old (first_item_declared sense column.now) result self.new }
    {
        let name = self.default_objective()?;
        self.declare_objective(sense, name)?;
        self.declare_term(b"obj".as_slice(), column, Decimal::one())
    }
}
