//! The coefficients of all columns in one log.

ghost use Rattle.std.specs.Prelude.{◌≡◌, ◌≤◌, ◌<◌, ◌||◌, ◌++◌, ◌∷◌, [], ℕ, suc, None, IfOk, IfSome, OnOk, OnErr, OnSome, length, is_some};
ghost use Rattle.std.specs.Ordering.{nat_cmp, eq_by_cmp};
ghost use Rattle.std.specs.FinMap.{find};
ghost use Rattle.mpslp_builder_parts.specs.CoefficientLog.{chain};

use mpslp_decimal::{Decimal, PackedDecimal};
use std::alloc::{AllocError, Global};
use std::marker::Model;

/// The coefficients of all columns, in the order in which they were put, each with its row. Those of a column are a chain: beside
/// each is the place of the one before it in its column. Places count from 1, and 0 is the end of a chain.
///
/// So a coefficient is put without an allocation for its column, and without access to earlier ones.
#[derive(Debug, Drop)]
pub(crate) struct CoefficientLog {
    cells: Vec<(u32, PackedDecimal)>,
    earlier: Vec<u32>,
}

impl Model for CoefficientLog {
    ghost use Rattle.mpslp_builder_parts.specs.CoefficientLog.{LogEntries, IsLog};

    ghost Value = { LogEntries };

    ghost view = { λ log. record { cells = log.cells.items; earlier = log.earlier.items } };

    ghost invariant = { λ log. IsLog (record { cells = log.cells.items; earlier = log.earlier.items }) };
}

impl CoefficientLog {
    /// No coefficients. Allocates nothing.
    pub(crate) fn new(alloc: Global) -> CoefficientLog
        ensures { result ≡ record { cells = []; earlier = [] } }
    {
        CoefficientLog {
            cells: Vec::new(alloc),
            earlier: Vec::new(alloc),
        }
    }

    /// Puts a coefficient, and returns its place. `earlier` is that of the one before it in its column.
    ///
    /// # Errors
    ///
    /// [`AllocError`] if the allocation fails, or if there are 4,294,967,295 coefficients: their places would not fit. Then nothing
    /// changes.
    pub(crate) fn push(&mut self, earlier: u32, row: u32, value: Decimal) -> Result<u32, AllocError>
        requires { earlier ≤ length self.old.cells }
        ensures place { IfOk result (λ place. place ≡ suc (length self.old.cells)) }
        ensures cells { OnOk result (self.new.cells ≡ self.old.cells ++ (row, value) ∷ []) }
        ensures earlier { OnOk result (self.new.earlier ≡ self.old.earlier ++ earlier ∷ []) }
        ensures err { OnErr result (self.new ≡ self.old) }
    {
        let len = self.cells.len();
        if len >= u32::MAX as usize {
            return Err(AllocError);
        }
        self.cells.reserve(1)?;
        self.earlier.push(earlier)?;
        self.cells.push((row, PackedDecimal::of(value)))?;
        Ok(len as u32 + 1)
    }

    /// Puts a coefficient without an allocation, and returns its place. If there is no room for it, nothing changes.
    #[inline(always)]
    pub(crate) fn push_within_room(&mut self, earlier: u32, row: u32, value: Decimal) -> Option<u32>
        requires { earlier ≤ length self.old.cells }
        ensures place { IfSome result (λ place. place ≡ suc (length self.old.cells)) }
        ensures cells { OnSome result (self.new.cells ≡ self.old.cells ++ (row, value) ∷ []) }
        ensures earlier { OnSome result (self.new.earlier ≡ self.old.earlier ++ earlier ∷ []) }
        ensures none { result ≡ None → self.new ≡ self.old }
    {
        let len = self.cells.len();
        if len >= u32::MAX as usize
            || len >= self.cells.capacity()
            || self.earlier.len() >= self.earlier.capacity()
        {
            return None;
        }
        self.earlier.push_reserved(earlier);
        self.cells.push_reserved((row, PackedDecimal::of(value)));
        Some(len as u32 + 1)
    }

    /// The row of the coefficient at a place, and the place of the one before it in its column.
    pub(crate) fn link(&self, place: u32) -> (u32, u32)
        requires { 0 < place × place ≤ length self.now.cells }
        ensures below { result.1 < place }
        ensures found { (row : ℕ) → is_some (find nat_cmp row (chain self.now place)) ≡ (eq_by_cmp nat_cmp row result.0 || is_some (find nat_cmp row (chain self.now result.1))) }
    {
        let index = place as usize - 1;
        (self.cells[index].0, self.earlier[index])
    }

    /// Whether there is a coefficient of this row in the chain from a place.
    pub(crate) fn has(&self, place: u32, row: u32) -> bool
        requires { place ≤ length self.now.cells }
        ensures { result ≡ is_some (find nat_cmp row (chain self.now place)) }
    {
        let mut at = place;
        while at > 0 {
            let (own, earlier) = self.link(at);
            if own == row {
                return true;
            }
            at = earlier;
        }
        false
    }

    /// The coefficients in the order in which they were put, and beside each the place of the one before it in its column.
    pub(crate) fn into_parts(self) -> (Vec<(u32, PackedDecimal)>, Vec<u32>)
        ensures cells { result.0.items ≡ self.cells }
        ensures links { result.1.items ≡ self.earlier }
    {
        (self.cells, self.earlier)
    }
}
