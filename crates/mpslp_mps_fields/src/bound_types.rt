//! The types of bounds.

/// The type of a line of BOUNDS: what the line declares of its column.
#[derive(Clone, Copy, Debug, PartialEq, Eq)]
pub enum BoundType {
    /// `LO`: the lower bound.
    Lower,
    /// `UP`: the upper bound.
    Upper,
    /// `FX`: both bounds, the same value.
    Fixed,
    /// `FR`: no bounds.
    Free,
    /// `MI`: no lower bound; the upper bound is unchanged.
    NoLower,
    /// `PL`: no upper bound; the lower bound is unchanged.
    NoUpper,
    /// `BV`: an integer column from 0 to 1.
    Binary,
    /// `LI`: an integer column, and its lower bound.
    IntegerLower,
    /// `UI`: an integer column, and its upper bound.
    IntegerUpper,
    /// `SC`: a semi-continuous column, which is 0 or within its bounds, and its upper bound.
    SemiUpper,
}
