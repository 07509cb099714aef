//! What is declared of the objective and of a column.

ghost use Rattle.std.specs.Prelude.{◌≡◌, []};
ghost use Rattle.mpslp_builder_parts.specs.Parts.{new_column, definition_in, parts_with, declared_in, defined_with};

use crate::declared_bounds::DeclaredBounds;
use mpslp_decimal::PackedDecimal;
use mpslp_model_core::DeclaredColumn;
use mpslp_types::Name;

/// The objective, with its right-hand side if one is declared.
#[derive(Debug, Drop)]
pub struct ObjectiveParts {
    pub name: Name,
    pub rhs: Option<PackedDecimal>,
}

/// What is declared of a column by its name only.
#[derive(Clone, Copy)]
pub enum Property {
    /// It is in an integer block of an MPS file.
    Marked,
    /// It is integer.
    Integer,
    /// It is binary.
    Binary,
    /// It is semi-continuous.
    Semi,
}

/// What is declared of a column, apart from its name and its coefficients.
#[derive(Debug, Drop)]
pub struct ColumnDefinition {
    pub sides: DeclaredBounds,
    pub marked: bool,
    pub integer: bool,
    pub binary: bool,
    pub semi: bool,
}

impl ColumnDefinition {
    /// A column of which only the name is declared. Allocates nothing.
    pub(crate) fn new() -> ColumnDefinition
        ensures { result ≡ definition_in new_column }
    {
        ColumnDefinition {
            sides: DeclaredBounds::none(),
            marked: false,
            integer: false,
            binary: false,
            semi: false,
        }
    }

    /// Adds a property.
    pub(crate) fn add(&mut self, property: Property)
        ensures { self.new ≡ defined_with property self.old }
    {
        match property {
            Property::Marked => self.marked = true,
            Property::Integer => self.integer = true,
            Property::Binary => self.binary = true,
            Property::Semi => self.semi = true,
        }
    }

    /// What is declared of the column, with its bounds as limits.
    pub fn declared(&self) -> DeclaredColumn
        ensures { result ≡ declared_in (parts_with [] self.now) }
    {
        DeclaredColumn {
            lower: self.sides.lower(),
            upper: self.sides.upper(),
            marked: self.marked,
            integer: self.integer,
            binary: self.binary,
            semi: self.semi,
        }
    }
}
