//! The context of a phrase: what earlier tokens mean for it.

ghost use Rattle.std.specs.Prelude.{◌≡◌, MatchResult};
ghost use Rattle.mpslp_types.specs.Name.{IsMpsName};
ghost use Rattle.mpslp_lines.specs.declared.errors.LineError.{LineError};
ghost use Rattle.mpslp_lp_grammar.specs.Phrase.{start};
ghost use Rattle.mpslp_lp_grammar.specs.Rows.{default_row};

use crate::lp_builder::LpBuilder;
use crate::sections_seen::SectionsSeen;
use mpslp_lines::LineError;
use mpslp_model::{Builder, HashSeed, Name};
use std::alloc::Global;

/// The context of a phrase: what earlier tokens mean for it.
#[derive(Drop)]
pub struct Context {
    /// The sections that were opened.
    pub(crate) sections_seen: SectionsSeen,
    /// What was declared.
    pub(crate) builder: LpBuilder,
}

impl Context {
    /// The context at the start of a text: no section is open, and nothing is declared.
    pub fn start(alloc: Global, seed: HashSeed) -> Context
        ensures { result ≡ start.context }
    {
        Context {
            sections_seen: SectionsSeen {
                objective: false,
                rows: false,
                bounds: false,
                generals: false,
                binaries: false,
                semis: false,
                end: false,
            },
            builder: LpBuilder::new(alloc, seed),
        }
    }

    /// A copy of a name.
    ///
    /// # Errors
    ///
    /// `OutOfMemory` if an allocation fails.
    pub fn copied(&self, name: &[u8]) -> Result<Name, LineError>
        requires { IsMpsName name.now }
        ensures { MatchResult result (λ copy. copy ≡ name.now) (λ error. error ≡ LineError.OutOfMemory) }
    {
        self.builder.copied(name)
    }

    /// The name of the next row if it has no label: `c` and its position among all rows.
    ///
    /// # Errors
    ///
    /// `OutOfMemory` if an allocation fails.
    pub fn next_row(&self) -> Result<Name, LineError>
        ensures { MatchResult result (λ name. name ≡ default_row self.now) (λ error. error ≡ LineError.OutOfMemory) }
    {
        self.builder.next_row()
    }

    /// The builder that all was declared to.
    pub fn into_builder(self) -> Builder
        ensures { result ≡ self.builder }
    {
        self.builder.into_builder()
    }
}
