//! The declared bounds of a column.

ghost use Rattle.std.specs.Prelude.{◌≡◌, OnOk, OnErr, is_some};
ghost use Rattle.mpslp_builder_parts.specs.DeclaredBounds.{no_sides, side_put, sides_put};

use mpslp_model_core::PackedLimit;
use mpslp_types::Limit;
use std::alloc::{AllocError, Global};
use std::marker::Model;

/// The declared bounds of a column. Contracts see them as `LowerAndUpper`.
///
/// Most columns have none and take no memory for bounds.
#[derive(Debug, Drop)]
pub struct DeclaredBounds {
    stored: Option<Box<StoredBounds>>,
}

/// Both bounds, of which one may be absent.
#[derive(Debug, Drop)]
struct StoredBounds {
    lower: Option<PackedLimit>,
    upper: Option<PackedLimit>,
}

const _: () = prove!(size_of::<DeclaredBounds>() <= 16);

impl Model for DeclaredBounds {
    ghost use Rattle.mpslp_builder_parts.specs.DeclaredBounds.{LowerAndUpper};
    ghost use Rattle.mpslp_builder_parts.specs.StoredBounds.{sides_stored};

    ghost Value = { LowerAndUpper };

    ghost view = { λ sides. sides_stored sides.stored };
}

/// The bound, if there is one.
fn limit_in(side: &Option<PackedLimit>) -> Option<Limit>
    ensures { result ≡ side.now }
{
    match side {
        Some(side) => Some(side.limit()),
        None => None,
    }
}

/// The stored form of the bound, if there is one.
fn packed(side: Option<Limit>) -> Option<PackedLimit>
    ensures { result ≡ side }
{
    match side {
        Some(limit) => Some(PackedLimit::of(limit)),
        None => None,
    }
}

/// Stores the bound, if one is given.
fn put_side(kept: &mut Option<PackedLimit>, side: Option<Limit>)
    ensures { kept.new ≡ side_put side kept.old }
{
    if let Some(limit) = side {
        *kept = Some(PackedLimit::of(limit));
    }
}

impl DeclaredBounds {
    /// No bounds. Allocates nothing.
    pub fn none() -> DeclaredBounds
        ensures { result ≡ no_sides }
    {
        DeclaredBounds { stored: None }
    }

    /// The lower bound, if it is declared.
    pub fn lower(&self) -> Option<Limit>
        ensures { result ≡ self.now.lower }
    {
        match &self.stored {
            Some(stored) => limit_in(&stored.lower),
            None => None,
        }
    }

    /// The upper bound, if it is declared.
    pub fn upper(&self) -> Option<Limit>
        ensures { result ≡ self.now.upper }
    {
        match &self.stored {
            Some(stored) => limit_in(&stored.upper),
            None => None,
        }
    }

    /// Whether the lower bound is declared.
    pub fn has_lower(&self) -> bool
        ensures { result ≡ is_some self.now.lower }
    {
        match &self.stored {
            Some(stored) => stored.lower.is_some(),
            None => false,
        }
    }

    /// Whether the upper bound is declared.
    pub fn has_upper(&self) -> bool
        ensures { result ≡ is_some self.now.upper }
    {
        match &self.stored {
            Some(stored) => stored.upper.is_some(),
            None => false,
        }
    }

    /// Stores the given bounds.
    ///
    /// # Errors
    ///
    /// [`AllocError`] if there is no memory for the first bound. Then nothing changes. Nothing is allocated if no bound is given,
    /// or if the column already has one.
    pub fn put(
        &mut self,
        alloc: Global,
        lower: Option<Limit>,
        upper: Option<Limit>,
    ) -> Result<(), AllocError>
        ensures ok { OnOk result (self.new ≡ sides_put lower upper self.old) }
        ensures err { OnErr result (self.new ≡ self.old) }
    {
        if lower.is_none() && upper.is_none() {
            return Ok(());
        }
        if let Some(stored) = &mut self.stored {
            put_side(&mut stored.lower, lower);
            put_side(&mut stored.upper, upper);
            return Ok(());
        }
        let stored = StoredBounds {
            lower: packed(lower),
            upper: packed(upper),
        };
        self.stored = Some(Box::new(alloc, stored)?);
        Ok(())
    }
}
