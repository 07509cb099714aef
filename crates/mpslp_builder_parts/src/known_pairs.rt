//! Which pairs of a column and a row have a coefficient, where the coefficients of all columns are in one log.
//!
//! Files declare the coefficients of one column after another, or those of one row after another. Then the row of the last
//! coefficient of a column, and the column of the last one of a row, decide whether there is a coefficient of both. For any other
//! order of calls all pairs are put into a set.

ghost use Rattle.std.specs.Prelude.{◌≡◌, ◌≢◌, ◌≤◌, ◌<◌, ◌||◌, ℕ, [], suc, IsTrue, OnOk, OnErr, IfOk, Some, None, true, length, slice_index, is_some};
ghost use Rattle.std.specs.Ordering.{nat_cmp};
ghost use Rattle.std.specs.FinMap.{find};
ghost use Rattle.mpslp_builder_parts.specs.CoefficientLog.{chain};
ghost use Rattle.mpslp_builder_parts.specs.KnownPairs.{has_pair, in_pairs, IsTold, IsPutIfSome, IsSameIfSome, IsOpened};
ghost use Rattle.mpslp_builder_parts.specs.StoredColumns.{IsKnown, IsReady, HasLast, last_of};

use crate::coefficient_log::CoefficientLog;
use crate::pair_set::{is_in, put_pair};
use crate::parts::ColumnDefinition;
use indexmap::IndexMap;
use mpslp_types::{HashSeed, Name};
use std::alloc::{AllocError, Global};
use std::collections::BTreeSet;

/// What is stored of a column: the place of its last coefficient in the log, 0 if it has none, the row of that coefficient, and what
/// is declared of the column.
#[derive(Debug, Drop)]
pub struct StoredColumn {
    pub(crate) last: u32,
    pub(crate) last_row: u32,
    pub definition: ColumnDefinition,
}

/// The maximum number of columns with coefficients: their numbers, plus 1, have 32 bits.
pub(crate) const MOST_COLUMNS: usize = 4_294_967_295;

/// A map by names in the order of insertion.
pub(crate) type Columns = IndexMap<Name, StoredColumn, HashSeed>;

/// What is known of the pairs, beside the last coefficient of each column.
#[derive(Debug, Drop)]
pub(crate) struct KnownPairs {
    /// For each row the number of the column of its last coefficient, plus 1, or 0 if it has none; rows after the last one here have
    /// none.
    stamps: Vec<u32>,
    /// A row of which each coefficient is the last one of its column.
    open_row: Option<u32>,
    /// A column of which each coefficient is the last one of its row.
    open_column: Option<u32>,
    /// All pairs, once they were needed.
    pairs: Option<BTreeSet<u64>>,
}

/// Whether it is this number.
#[inline(always)]
fn is_number(number: &Option<u32>, other: usize) -> bool
    ensures { IsTrue result → number.now ≡ Some other }
{
    match number {
        Some(own) => *own as usize == other,
        None => false,
    }
}

impl KnownPairs {
    /// Of no coefficients. Allocates nothing.
    pub(crate) fn new(alloc: Global) -> KnownPairs
        ensures stamps { result.stamps.items ≡ [] }
        ensures open_row { result.open_row ≡ None }
        ensures open_column { result.open_column ≡ None }
        ensures pairs { result.pairs ≡ None }
    {
        KnownPairs {
            stamps: Vec::new(alloc),
            open_row: None,
            open_column: None,
            pairs: None,
        }
    }

    /// The number of the column of the last coefficient of a row, plus 1, or 0 if it has none.
    #[inline(always)]
    fn stamp(&self, row: u32) -> u32
        ensures { result ≡ slice_index self.now.stamps.items row }
    {
        match self.stamps.get(row as usize) {
            Some(stamp) => *stamp,
            None => 0,
        }
    }
}

/// Whether the column of a number has a coefficient in the row of a number, by the set of pairs if there is one, or else by the chain
/// of the column.
#[inline(never)]
fn search(
    columns: &Columns,
    log: &CoefficientLog,
    known: &KnownPairs,
    column: usize,
    row: u32,
) -> bool
    requires { IsKnown columns.now.entries log.now known.now }
    ensures { result ≡ has_pair log.now (last_of columns.now.entries) column row }
{
    if let Some(pairs) = &known.pairs {
        if column < MOST_COLUMNS {
            return is_in(pairs, column as u32, row);
        }
    }
    log.has(last_of(columns, column), row)
}

/// What the last coefficients of a row and of a column tell of a coefficient of both.
#[derive(Clone, Copy)]
pub(crate) enum Told {
    /// It is there.
    There,
    /// It is not there. After it is put, they tell as much of the next one of the row or of the column.
    Free,
    /// Nothing.
    Nothing,
}

/// What they tell of the pair of a column and a row.
#[inline(always)]
pub(crate) fn ask(
    columns: &Columns,
    log: &CoefficientLog,
    known: &KnownPairs,
    column: usize,
    row: u32,
) -> Told
    requires { IsKnown columns.now.entries log.now known.now }
    ensures { IsTold result (has_pair log.now (last_of columns.now.entries) column row) }
{
    let Some((_name, stored)) = columns.get_index(column) else {
        return Told::Free;
    };
    if stored.last == 0 {
        return Told::Free;
    }
    if stored.last_row == row {
        return Told::There;
    }
    let stamp = known.stamp(row);
    if stamp == 0 {
        return Told::Free;
    }
    if stamp as usize - 1 == column {
        return Told::There;
    }
    if is_number(&known.open_row, row as usize) || is_number(&known.open_column, column) {
        return Told::Free;
    }
    Told::Nothing
}

/// Whether the column of a number has a coefficient in the row of a number, by what is told of it.
#[inline(always)]
pub(crate) fn has_cell(
    columns: &Columns,
    log: &CoefficientLog,
    known: &KnownPairs,
    column: usize,
    row: u32,
    told: Told,
) -> bool
    requires known { IsKnown columns.now.entries log.now known.now }
    requires told { IsTold told (has_pair log.now (last_of columns.now.entries) column row) }
    ensures { result ≡ has_pair log.now (last_of columns.now.entries) column row }
{
    match told {
        Told::There => true,
        Told::Free => false,
        Told::Nothing => search(columns, log, known, column, row),
    }
}

/// Whether the last coefficient of the column of a number is in the row of a number.
#[inline(always)]
pub(crate) fn is_last_row(
    columns: &Columns,
    log: &CoefficientLog,
    known: &KnownPairs,
    column: usize,
    row: u32,
) -> bool
    requires { IsKnown columns.now.entries log.now known.now }
    ensures { IsTrue result → has_pair log.now (last_of columns.now.entries) column row ≡ true }
{
    match columns.get_index(column) {
        Some((_name, stored)) => stored.last != 0 && stored.last_row == row,
        None => false,
    }
}

/// Room for the stamp of a row, and of as many as there are, so that this is seldom done.
#[inline(never)]
fn make_room(known: &mut KnownPairs, row: u32) -> Result<(), AllocError>
    ensures stamps { (r : ℕ) → slice_index known.new.stamps.items r ≡ slice_index known.old.stamps.items r }
    ensures room { OnOk result (row < length known.new.stamps.items) }
    ensures open_row { known.new.open_row ≡ known.old.open_row }
    ensures open_column { known.new.open_column ≡ known.old.open_column }
    ensures pairs { known.new.pairs ≡ known.old.pairs }
{
    let len = known.stamps.len();
    let needed = (row as usize + 1).max(len.saturating_add(len));
    if len < needed {
        known.stamps.resize(needed, 0)?;
    }
    Ok(())
}

/// Puts the pairs of a column and the rows of a chain into the set.
fn add_chain(
    pairs: &mut BTreeSet<u64>,
    log: &CoefficientLog,
    column: u32,
    place: u32,
) -> Result<(), AllocError>
    requires { place ≤ length log.now.cells }
    ensures own { OnOk result ((r : ℕ) → r < 4294967296 → in_pairs pairs.new column r ≡ (in_pairs pairs.old column r || is_some (find nat_cmp r (chain log.now place)))) }
    ensures others { OnOk result ((i r : ℕ) → r < 4294967296 → i ≢ column → in_pairs pairs.new i r ≡ in_pairs pairs.old i r) }
{
    let mut at = place;
    while at > 0 {
        let (row, earlier) = log.link(at);
        put_pair(pairs, column, row)?;
        at = earlier;
    }
    Ok(())
}

/// The place of the last coefficient of the column of a number, 0 if there is none.
#[inline(always)]
pub(crate) fn last_of(columns: &Columns, column: usize) -> u32
    ensures { result ≡ last_of columns.now.entries column }
{
    match columns.get_index(column) {
        Some((_name, stored)) => stored.last,
        None => 0,
    }
}

/// All pairs of the columns that may have coefficients.
fn pairs_of(
    alloc: Global,
    columns: &Columns,
    log: &CoefficientLog,
) -> Result<BTreeSet<u64>, AllocError>
    requires { (i : ℕ) → last_of columns.now.entries i ≤ length log.now.cells }
    ensures { IfOk result (λ pairs. (i r : ℕ) → i < 4294967295 → r < 4294967296 → in_pairs pairs i r ≡ has_pair log.now (last_of columns.now.entries) i r) }
{
    let count = columns.len().min(MOST_COLUMNS);
    let mut pairs = BTreeSet::new(alloc);
    for column in 0..count {
        add_chain(&mut pairs, log, column as u32, last_of(columns, column))?;
    }
    Ok(pairs)
}

/// Makes the set of all pairs, unless there is one.
#[inline(never)]
fn add_pairs(
    alloc: Global,
    columns: &Columns,
    log: &CoefficientLog,
    known: &mut KnownPairs,
) -> Result<(), AllocError>
    requires { IsKnown columns.now.entries log.now known.old }
    ensures kept { IsKnown columns.now.entries log.now known.new }
    ensures stamps { known.new.stamps.items ≡ known.old.stamps.items }
{
    if known.pairs.is_none() {
        known.pairs = Some(pairs_of(alloc, columns, log)?);
    }
    Ok(())
}

/// Makes room for a coefficient of a row and a column, and all pairs if they will be needed.
#[inline(always)]
pub(crate) fn prepare(
    alloc: Global,
    columns: &Columns,
    log: &CoefficientLog,
    known: &mut KnownPairs,
    row: u32,
    told: Told,
) -> Result<(), AllocError>
    requires { IsKnown columns.now.entries log.now known.old }
    ensures kept { IsKnown columns.now.entries log.now known.new }
    ensures room { OnOk result (row < length known.new.stamps.items) }
{
    if row as usize >= known.stamps.len() {
        make_room(known, row)?;
    }
    if let Told::Nothing = told {
        add_pairs(alloc, columns, log, known)?;
    }
    Ok(())
}

/// Whether the last coefficients of a row and a column tell that there is none of both, and the next one can be noted at once: there is
/// room for its stamp, and no set of pairs.
#[inline(always)]
pub(crate) fn is_ready(
    columns: &Columns,
    log: &CoefficientLog,
    known: &KnownPairs,
    column: usize,
    row: u32,
) -> bool
    requires { IsKnown columns.now.entries log.now known.now }
    ensures { IsTrue result → IsReady columns.now.entries log.now known.now column row }
{
    let is_plain = column < MOST_COLUMNS
        && (row as usize) < known.stamps.len()
        && known.pairs.is_none();
    is_plain && matches!(ask(columns, log, known, column, row), Told::Free)
}

/// Puts a pair into the set of all pairs, if there is one.
#[inline(always)]
pub(crate) fn put_known(known: &mut KnownPairs, column: u32, row: u32) -> Result<(), AllocError>
    ensures stamps { known.new.stamps.items ≡ known.old.stamps.items }
    ensures open_row { known.new.open_row ≡ known.old.open_row }
    ensures open_column { known.new.open_column ≡ known.old.open_column }
    ensures ok { OnOk result (IsPutIfSome column row known.old.pairs known.new.pairs) }
    ensures err { OnErr result (IsSameIfSome known.old.pairs known.new.pairs) }
{
    match &mut known.pairs {
        Some(pairs) => put_pair(pairs, column, row),
        None => Ok(()),
    }
}

/// Forgets the set of all pairs. It is made again when it is needed.
#[inline(never)]
pub(crate) fn forget_pairs(known: &mut KnownPairs)
    ensures stamps { known.new.stamps.items ≡ known.old.stamps.items }
    ensures open_row { known.new.open_row ≡ known.old.open_row }
    ensures open_column { known.new.open_column ≡ known.old.open_column }
    ensures pairs { known.new.pairs ≡ None }
{
    known.pairs = None;
}

/// The number, if all coefficients of its row or column are the last ones of their columns or rows also after one more.
#[inline(always)]
fn opened(open: &Option<u32>, number: u32, had_none: bool) -> Option<u32>
    ensures { IsOpened open.now result number (had_none ≡ true) }
{
    if had_none || is_number(open, number as usize) {
        Some(number)
    } else {
        None
    }
}

/// Notes that the last coefficient of a row is in this column. `last` is the place of the one before it in the column, or 0.
#[inline(always)]
fn note(known: &mut KnownPairs, column: u32, row: u32, last: u32)
    requires column { column < 4294967295 }
    requires room { row < length known.old.stamps.items }
    ensures here { slice_index known.new.stamps.items row ≡ suc column }
    ensures others { (r : ℕ) → r ≢ row → slice_index known.new.stamps.items r ≡ slice_index known.old.stamps.items r }
    ensures open_row { IsOpened known.old.open_row known.new.open_row row (slice_index known.old.stamps.items row ≡ 0) }
    ensures open_column { IsOpened known.old.open_column known.new.open_column column (last ≡ 0) }
    ensures pairs { known.new.pairs ≡ known.old.pairs }
{
    known.open_row = opened(&known.open_row, row, known.stamp(row) == 0);
    known.open_column = opened(&known.open_column, column, last == 0);
    known.stamps[row as usize] = column + 1;
}

/// Sets the place and the row of the last coefficient of a column.
#[inline(always)]
fn set_last(columns: &mut Columns, column: usize, place: u32, row: u32)
    requires { column < length columns.old.entries }
    ensures { HasLast column place row columns.old.entries columns.new.entries }
{
    let (_name, stored) = columns.pair_mut(column);
    stored.last = place;
    stored.last_row = row;
}

/// Notes that the last coefficient of a row and of a column is at this place. `last` is that of the one before it in the column, or 0.
#[inline(always)]
pub(crate) fn note_put(
    columns: &mut Columns,
    known: &mut KnownPairs,
    column: usize,
    row: u32,
    last: u32,
    place: u32,
)
    requires few { column < 4294967295 }
    requires there { column < length columns.old.entries }
    requires room { row < length known.old.stamps.items }
    ensures here { slice_index known.new.stamps.items row ≡ suc column }
    ensures others { (r : ℕ) → r ≢ row → slice_index known.new.stamps.items r ≡ slice_index known.old.stamps.items r }
    ensures open_row { IsOpened known.old.open_row known.new.open_row row (slice_index known.old.stamps.items row ≡ 0) }
    ensures open_column { IsOpened known.old.open_column known.new.open_column column (last ≡ 0) }
    ensures pairs { known.new.pairs ≡ known.old.pairs }
    ensures last { HasLast column place row columns.old.entries columns.new.entries }
{
    note(known, column as u32, row, last);
    set_last(columns, column, place, row);
}

/// Drops what is known of the pairs.
pub(crate) fn drop_known(_known: KnownPairs) {}
