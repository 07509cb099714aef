//! The terms of a row by number: each column, which is declared if it is new, and its coefficient.

ghost use Rattle.std.specs.Prelude.{◌≡◌, ◌≤◌, ℕ, List, [], ◌∷◌, IfOk, IfSome, OnErr, None, Some, true, is_some};
ghost use Rattle.std.specs.List.{flat_map};
ghost use Rattle.mpslp_types.specs.Name.{IsMpsName};
ghost use Rattle.mpslp_builder.specs.Declaration.{declare_column};
ghost use Rattle.mpslp_builder.specs.RowTerms.{term_declared};
ghost use Rattle.mpslp_builder.specs.Tables.{IsNumbered};
ghost use Rattle.mpslp_builder.specs.Calls.{row_name, column_name};
ghost use Rattle.mpslp_builder.specs.LineTables.{Follows, HasPart};
ghost use Rattle.mpslp_builder.specs.TermTables.{HasColumn, EntryIsDeclaredUnless, TermIsDeclaredUnless, TermsAreDeclaredUnless};

use crate::row_terms::RowTerms;
use crate::tables::Tables;
use crate::tables::hints::hash_of;
use indexmap::IndexMap;
use mpslp_decimal::Decimal;
use mpslp_decimal::laws::each_value_is_a_decimal;
use mpslp_types::laws::each_name_is_legal;
use mpslp_types::{BuildFault, HashSeed, Name};
use std::alloc::{AllocError, Global};

/// How many columns are looked up before their coefficients are stored. The look-ups do not wait for one another.
const AHEAD: usize = 16;

/// The number of terms of a row up to which each column is looked up when its coefficient is stored: for so few, looking ahead takes
/// longer than the misses of the cache that it saves.
const FEW: usize = 1;

/// The terms of a row, of which some are looked up together: the first ones, or the others.
#[derive(Clone, Copy)]
enum Terms<'a> {
    /// The first ones.
    First(&'a [(Name, Decimal)]),
    /// The others.
    Others(&'a IndexMap<Name, Decimal, HashSeed>),
}

impl<'a> Terms<'a> {
    /// How many there are.
    fn len(self) -> usize {
        match self {
            Terms::First(terms) => terms.len(),
            Terms::Others(terms) => terms.len(),
        }
    }

    /// How many of them are looked up together from an index on.
    fn count_ahead(self, from: usize) -> usize
        ensures { result ≤ AHEAD }
    {
        self.len().saturating_sub(from).min(AHEAD)
    }

    /// The name of the column of the term at an index, empty if there is none.
    fn name_at(self, index: usize) -> &'a [u8] {
        match self {
            Terms::First(terms) => match terms.get(index) {
                Some(term) => term.0.as_bytes(),
                None => &[],
            },
            Terms::Others(terms) => match terms.get_index(index) {
                Some((name, _value)) => name.as_bytes(),
                None => &[],
            },
        }
    }
}

/// Consecutive numbers.
fn numbers_from(first: usize) -> [usize; AHEAD] {
    let mut numbers = [0usize; AHEAD];
    for i in 0..AHEAD {
        numbers[i] = first.saturating_add(i);
    }
    numbers
}

impl Tables {
    /// The number of the first column, if as many columns as are looked up together probably follow the one that was used last in the
    /// order of their declarations. Only the first and the last one are compared.
    fn next_run(&self, terms: Terms<'_>, from: usize) -> Option<usize> {
        if terms.count_ahead(from) < AHEAD {
            return None;
        }
        let first = self.recent.saturating_add(1);
        let last = first.saturating_add(AHEAD - 1);
        let is_run = self.is_column(first, terms.name_at(from))
            && self.is_column(last, terms.name_at(from.saturating_add(AHEAD - 1)));
        if is_run { Some(first) } else { None }
    }

    /// The numbers that the columns of the terms from an index on probably have.
    fn numbers_of(&self, terms: Terms<'_>, from: usize) -> [usize; AHEAD] {
        let seed = *self.rows.hasher();
        let mut numbers = [0usize; AHEAD];
        for i in 0..terms.count_ahead(from) {
            numbers[i] = self
                .hints
                .guess(seed, terms.name_at(from.saturating_add(i)));
        }
        numbers
    }

    /// The numbers that the columns of the terms from an index on may have. They only speed up later look-ups, so any numbers are
    /// correct.
    fn guesses(&self, row: u32, terms: Terms<'_>, from: usize) -> [usize; AHEAD] {
        let mut guesses = match self.next_run(terms, from) {
            Some(first) => numbers_from(first),
            None => self.numbers_of(terms, from),
        };
        // This reads the name of each column, and its last coefficient, after which the next one is stored. In a loop of their own
        // the misses of the cache overlap. A number that no column has remains, since the column is then probably new.
        for i in 0..terms.count_ahead(from) {
            let is_found = self.is_column(guesses[i], terms.name_at(from.saturating_add(i)));
            if is_found && self.columns.is_last_row(guesses[i], row) {
                guesses[i] = 0;
            }
        }
        guesses
    }

    /// The number of the column of this name, unless it is probably new: no column has the guessed number. The column of that number is
    /// compared first.
    #[inline(always)]
    fn column_from(&self, name: &[u8], guess: usize) -> Option<usize>
        ensures { IfSome result (λ i. column_name self.now i ≡ Some name.now) }
    {
        if self.is_column(guess, name) {
            return Some(guess);
        }
        if guess >= self.columns.len() {
            return None;
        }
        self.column_by_hash(name)
    }

    /// Declares a column that is probably new, and returns its number.
    fn new_column(&mut self, name: Name) -> Result<usize, AllocError>
        requires { IsNumbered self.old }
        ensures kept { Follows self.old self.new }
        ensures rows { self.new.rows.entries ≡ self.old.rows.entries }
        ensures ok { IfOk result (λ column. HasColumn self.old name column self.new) }
        ensures err { OnErr result (HasPart self.old (declare_column name ∷ []) self.new) }
    {
        each_name_is_legal(&name);
        let hash = hash_of(*self.rows.hasher(), name.as_bytes());
        let inserted = self.start_column(name)?;
        let column = inserted.number();
        self.hints.note(hash, inserted)?;
        Ok(column)
    }

    /// The number of the column of this name, which is declared if it is not yet. The name is copied only if it is new.
    fn term_column(&mut self, alloc: Global, name: &[u8], guess: usize) -> Result<usize, AllocError>
        requires numbered { IsNumbered self.old }
        requires legal { IsMpsName name.now }
        ensures kept { Follows self.old self.new }
        ensures rows { self.new.rows.entries ≡ self.old.rows.entries }
        ensures ok { IfOk result (λ column. HasColumn self.old name.now column self.new) }
        ensures err { OnErr result (HasPart self.old (declare_column name.now ∷ []) self.new) }
    {
        if let Some(column) = self.column_from(name, guess) {
            return Ok(column);
        }
        let name = Name::from_legal(alloc, name)?;
        self.new_column(name)
    }

    /// The number of the column of this name, which is declared if it is not yet. If it is declared already, the name is dropped.
    fn own_term_column(&mut self, name: Name, guess: usize) -> Result<usize, AllocError>
        requires { IsNumbered self.old }
        ensures kept { Follows self.old self.new }
        ensures rows { self.new.rows.entries ≡ self.old.rows.entries }
        ensures ok { IfOk result (λ column. HasColumn self.old name column self.new) }
        ensures err { OnErr result (HasPart self.old (declare_column name ∷ []) self.new) }
    {
        if let Some(column) = self.column_from(name.as_bytes(), guess) {
            return Ok(column);
        }
        self.new_column(name)
    }

    /// Declares a coefficient by the numbers of its row and its column.
    #[inline(always)]
    fn put_term(&mut self, column: usize, row: u32, value: Decimal) -> Result<(), BuildFault>
        requires numbered { IsNumbered self.old }
        requires column { is_some (column_name self.old column) ≡ true }
        requires row { is_some (row_name self.old row) ≡ true }
        ensures kept { Follows self.old self.new }
        ensures rows { self.new.rows.entries ≡ self.old.rows.entries }
        ensures declared { EntryIsDeclaredUnless self.old column row value result self.new }
    {
        each_value_is_a_decimal(value);
        self.each_name_occurs_once();
        let is_put = self.put_if_free(column, row, value)?;
        if !is_put {
            return Err(BuildFault::DuplicateEntry);
        }
        Ok(())
    }

    /// Declares a term of a row, and its column if that is new.
    #[inline(always)]
    fn declare_term(
        &mut self,
        alloc: Global,
        row: u32,
        column: &[u8],
        guess: usize,
        value: Decimal,
    ) -> Result<(), BuildFault>
        requires numbered { IsNumbered self.old }
        requires legal { IsMpsName column.now }
        requires row { is_some (row_name self.old row) ≡ true }
        ensures kept { Follows self.old self.new }
        ensures rows { self.new.rows.entries ≡ self.old.rows.entries }
        ensures declared { TermIsDeclaredUnless self.old row (column.now, value) result self.new }
    {
        let number = self.term_column(alloc, column, guess)?;
        self.put_term(number, row, value)
    }

    /// Declares a term of a row whose name is given, and its column if that is new.
    pub(crate) fn declare_own_term(
        &mut self,
        row: u32,
        column: Name,
        guess: usize,
        value: Decimal,
    ) -> Result<(), BuildFault>
        requires numbered { IsNumbered self.old }
        requires row { is_some (row_name self.old row) ≡ true }
        ensures kept { Follows self.old self.new }
        ensures rows { self.new.rows.entries ≡ self.old.rows.entries }
        ensures declared { TermIsDeclaredUnless self.old row (column, value) result self.new }
    {
        let number = self.own_term_column(column, guess)?;
        self.put_term(number, row, value)
    }

    /// Declares terms of a row in order.
    fn declare_first(
        &mut self,
        alloc: Global,
        row: u32,
        terms: &[(Name, Decimal)],
    ) -> Result<(), BuildFault>
        requires numbered { IsNumbered self.old }
        requires row { is_some (row_name self.old row) ≡ true }
        ensures kept { Follows self.old self.new }
        ensures rows { self.new.rows.entries ≡ self.old.rows.entries }
        ensures declared { TermsAreDeclaredUnless self.old row terms.now result self.new }
    {
        let is_long = terms.len() > FEW;
        let mut guesses = [0usize; AHEAD];
        for k in 0..terms.len() {
            if is_long && k % AHEAD == 0 {
                guesses = self.guesses(row, Terms::First(terms), k);
            }
            let term = &terms[k];
            each_name_is_legal(&term.0);
            let guess = if is_long {
                guesses[k % AHEAD]
            } else {
                self.recent.saturating_add(1)
            };
            self.declare_term(alloc, row, term.0.as_bytes(), guess, term.1)?;
        }
        Ok(())
    }

    /// Declares terms of a row in order.
    fn declare_others(
        &mut self,
        alloc: Global,
        row: u32,
        terms: &IndexMap<Name, Decimal, HashSeed>,
    ) -> Result<(), BuildFault>
        requires numbered { IsNumbered self.old }
        requires row { is_some (row_name self.old row) ≡ true }
        ensures kept { Follows self.old self.new }
        ensures rows { self.new.rows.entries ≡ self.old.rows.entries }
        ensures declared { TermsAreDeclaredUnless self.old row terms.now.entries result self.new }
    {
        let mut guesses = [0usize; AHEAD];
        let mut k = 0usize;
        for (name, value) in terms.iter() {
            if k % AHEAD == 0 {
                guesses = self.guesses(row, Terms::Others(terms), k);
            }
            each_name_is_legal(name);
            self.declare_term(alloc, row, name.as_bytes(), guesses[k % AHEAD], *value)?;
            k = k.saturating_add(1);
        }
        Ok(())
    }

    /// Declares the terms of a row in order.
    pub(crate) fn declare_terms(
        &mut self,
        alloc: Global,
        row: u32,
        terms: &RowTerms,
    ) -> Result<(), BuildFault>
        requires numbered { IsNumbered self.old }
        requires row { is_some (row_name self.old row) ≡ true }
        ensures kept { Follows self.old self.new }
        ensures rows { self.new.rows.entries ≡ self.old.rows.entries }
        ensures declared { TermsAreDeclaredUnless self.old row terms.now result self.new }
    {
        self.declare_first(alloc, row, terms.first.as_slice())?;
        self.declare_others(alloc, row, &terms.others)
    }
}
