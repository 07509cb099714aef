//! The terms of a row: they are kept until the row is declared, and then declared by one call.

ghost use Rattle.std.specs.Prelude.{◌≡◌, ◌≤◌, ◌-◌, ◌++◌, ℕ, List, [], ◌∷◌, IsTrue, IfOk, Ok, true, is_some, length, not, slice_get};
ghost use Rattle.std.specs.Option.{option_map_or};
ghost use Rattle.std.specs.List.{list_any};
ghost use Rattle.std.specs.Ordering.{is_gt};
ghost use Rattle.std.specs.FinMap.{find, is_sorted};
ghost use Rattle.mpslp_types.specs.Name.{IsMpsName, bytes_cmp, same_bytes};
ghost use Rattle.mpslp_builder.specs.declared.row_terms.Order.{Order};

use crate::tables::names::is_same_name;
use indexmap::IndexMap;
use mpslp_decimal::Decimal;
use mpslp_types::{HashSeed, Name, find_entry};
use std::alloc::{AllocError, Global};
use std::marker::Model;

/// The number of terms in each part up to which their memory is kept for another row.
const FEW: usize = 256;

/// The largest number of first terms that may be out of byte order: so few names are compared one by one faster than one is looked up
/// by its hash.
const FEW_COMPARED: usize = 16;

/// In which order the first terms of a row are.
#[derive(Clone, Copy)]
enum Order {
    /// In byte order.
    Rising,
    /// In any order.
    Any,
}

/// The terms of a row that is not yet declared: columns, each once, and their values. Contracts see them in the order in which
/// they were added.
///
/// Mostly they are added in byte order, so that a name is compared only with the last one, or they are few.
#[derive(Drop)]
pub struct RowTerms {
    /// The first terms: those up to the first one that is out of byte order, or the first [`FEW_COMPARED`] if these are more.
    pub(crate) first: Vec<(Name, Decimal)>,
    /// The order of the first terms.
    order: Order,
    /// The others.
    pub(crate) others: IndexMap<Name, Decimal, HashSeed>,
}

impl Model for RowTerms {
    ghost use Rattle.std.specs.Prelude.{◌≡◌, ℕ, List, ◌++◌, IsTrue};
    ghost use Rattle.std.specs.FinMap.{is_sorted};
    ghost use Rattle.mpslp_decimal.specs.Decimal.{Number};
    ghost use Rattle.mpslp_types.specs.Name.{bytes_cmp};
    ghost use Rattle.mpslp_builder.specs.declared.row_terms.Order.{Order};

    ghost Value = { List (List ℕ × Number) };

    ghost view = { λ t. t.first.items ++ t.others.entries };

    ghost invariant = { λ t. t.order ≡ Order.Rising → IsTrue (is_sorted bytes_cmp t.first.items) };
}

/// Whether the name is greater than the last one in byte order, or there is none.
fn is_above(terms: &[(Name, Decimal)], name: &[u8]) -> bool
    ensures { result ≡ option_map_or (λ last. is_gt (bytes_cmp name.now last.0)) (slice_get terms.now (length terms.now - 1)) true }
{
    match terms.last() {
        Some(last) => name.cmp(last.0.as_bytes()).is_gt(),
        None => true,
    }
}

/// Whether the terms are in byte order, and stay so with this name at the end.
fn continues_order(terms: &[(Name, Decimal)], order: Order, name: &[u8]) -> bool
    ensures order { IsTrue result → order ≡ Order.Rising }
    ensures above { IsTrue result → IsTrue (option_map_or (λ last. is_gt (bytes_cmp name.now last.0)) (slice_get terms.now (length terms.now - 1)) true) }
{
    match order {
        Order::Rising => is_above(terms, name),
        Order::Any => false,
    }
}

/// Whether one of the terms, which are in byte order, has this column.
fn has_term(terms: &[(Name, Decimal)], name: &[u8]) -> bool
    requires { IsTrue (is_sorted bytes_cmp terms.now) }
    ensures { result ≡ is_some (find bytes_cmp name.now terms.now) }
{
    find_entry(terms, &name).is_some()
}

/// Whether one of the terms has this column. All are compared.
fn has_name(terms: &[(Name, Decimal)], name: &[u8]) -> bool
    ensures { result ≡ list_any (λ term. same_bytes name.now term.0) terms.now }
{
    terms
        .iter()
        .any(|term| is_same_name(term.0.as_bytes(), name))
}

/// Whether one of the first terms has this column.
fn is_among(terms: &[(Name, Decimal)], order: Order, name: &[u8]) -> bool
    requires { order ≡ Order.Rising → IsTrue (is_sorted bytes_cmp terms.now) }
    ensures { result ≡ list_any (λ term. same_bytes name.now term.0) terms.now }
{
    match order {
        Order::Rising => has_term(terms, name),
        Order::Any => has_name(terms, name),
    }
}

/// Adds a term whose column is not among the first ones. Returns whether it is new among the others.
fn add_other(
    others: &mut IndexMap<Name, Decimal, HashSeed>,
    name: Name,
    value: Decimal,
) -> Result<bool, AllocError>
    ensures new { IfOk result (λ is_new. list_any (λ term. same_bytes name term.0) others.old.entries ≡ not is_new) }
    ensures added { result ≡ Ok true → others.new.entries ≡ others.old.entries ++ (name, value) ∷ [] }
{
    match others.insert(name, value) {
        Ok(None) => Ok(true),
        Ok(Some(_)) => Ok(false),
        Err(_) => Err(AllocError),
    }
}

impl RowTerms {
    /// No terms. Allocates nothing. Only the time of its calls depends on the seed.
    pub fn new(alloc: Global, seed: HashSeed) -> RowTerms
        ensures { result ≡ [] }
    {
        RowTerms {
            first: Vec::new(alloc),
            order: Order::Rising,
            others: IndexMap::with_hasher(alloc, seed),
        }
    }

    /// Removes all terms, and keeps the memory for others.
    pub fn clear(&mut self)
        ensures { self.new ≡ [] }
    {
        self.first.clear();
        self.order = Order::Rising;
        self.others.clear();
    }

    /// Whether there are so few terms that their memory is worth keeping for another row.
    pub fn are_few(&self) -> bool
        ensures { IsTrue result → length self.now ≤ 512 }
    {
        self.first.len() <= FEW && self.others.len() <= FEW
    }

    /// Whether there are no terms.
    pub(crate) fn is_empty(&self) -> bool
        ensures none { IsTrue result → self.now ≡ [] }
        ensures some { self.now ≡ [] → IsTrue result }
    {
        match self.first.as_slice() {
            [] => self.others.is_empty(),
            _ => false,
        }
    }

    /// Adds a term, and returns whether the column is new in the row. The name is copied. If it is not new, nothing is known of
    /// the terms after this call.
    ///
    /// # Errors
    ///
    /// [`AllocError`] if an allocation fails. Then nothing is known of the terms, either.
    pub fn add(&mut self, alloc: Global, column: &[u8], value: Decimal) -> Result<bool, AllocError>
        requires { IsMpsName column.now }
        ensures new { IfOk result (λ is_new. list_any (λ term. same_bytes column.now term.0) self.old ≡ not is_new) }
        ensures added { result ≡ Ok true → self.new ≡ self.old ++ (column.now, value) ∷ [] }
    {
        let name = Name::from_legal(alloc, column)?;
        let order = self.order;
        if self.others.is_empty() {
            if continues_order(self.first.as_slice(), order, column) {
                self.first.push((name, value))?;
                return Ok(true);
            }
        }
        if is_among(self.first.as_slice(), order, column) {
            return Ok(false);
        }
        if self.others.is_empty() {
            if self.first.len() < FEW_COMPARED {
                self.order = Order::Any;
                self.first.push((name, value))?;
                return Ok(true);
            }
        }
        add_other(&mut self.others, name, value)
    }
}
