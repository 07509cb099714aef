//! The sections of canonical LP that list the columns of a type.

ghost use Rattle.std.specs.Prelude.{◌≡◌, ◌<◌};
ghost use Rattle.std.specs.List.{flat_map};
ghost use Rattle.std.specs.FinMap.{entries};
ghost use Rattle.mpslp_model_core.specs.Views.{num_columns};
ghost use Rattle.mpslp_lp_text.specs.Printed.{line_text};
ghost use Rattle.mpslp_model_core.specs.Model.{listing_of};
ghost use Rattle.mpslp_lp_text.specs.CanonicalLp.{generals_section, semis_section};
ghost use Rattle.mpslp_io.specs.LinesAt.{lines_at};
ghost use Rattle.mpslp_lp_write.specs.LpLinesAt.{is_of_section, name_lines};
ghost use Rattle.mpslp_io.specs.Printing.{Prints, PrintsSection};

use crate::lp::lines::put_name_line;
use mpslp_io::{Output, put_each};
use mpslp_model::{Kind, Model, Sink};

/// A section that lists the columns of a type.
#[derive(Clone, Copy)]
enum KindSection {
    /// The integer columns.
    Generals,
    /// The semi-continuous columns.
    SemiContinuous,
}

/// Whether the section lists columns of this type.
fn is_of_section(section: KindSection, kind: Kind) -> bool
    ensures { result ≡ is_of_section section kind }
{
    match section {
        KindSection::Generals => match kind {
            Kind::Integer => true,
            Kind::Continuous | Kind::Semi => false,
        },
        KindSection::SemiContinuous => match kind {
            Kind::Semi => true,
            Kind::Continuous | Kind::Integer => false,
        },
    }
}

/// Prints the name of column `j`, if the section lists it.
fn put_name<W: Sink>(model: &Model, j: usize, section: KindSection, output: &mut Output<W>)
    requires { j < num_columns model.now }
    ensures { Prints line_text W.Sink output.old output.new (lines_at (name_lines section) (entries model.now.columns) j) }
{
    if is_of_section(section, model.column_kind(j)) {
        put_name_line(output, model.column_name(j).as_bytes());
    }
}

/// Prints the names of the columns that the section lists.
fn put_names<W: Sink>(model: &Model, section: KindSection, output: &mut Output<W>)
    ensures { Prints line_text W.Sink output.old output.new (flat_map (name_lines section) (entries model.now.columns)) }
{
    put_each(model.num_cols(), output, |j, output| {
        put_name(model, j, section, output)
    });
}

/// Prints the section of integer columns, or nothing if there are none.
pub(crate) fn put_generals_section<W: Sink>(model: &Model, output: &mut Output<W>)
    ensures { PrintsSection line_text W.Sink output.old output.new (generals_section (listing_of model.now)) }
{
    output.open_section(b"Generals\n");
    put_names(model, KindSection::Generals, output);
    output.close_section();
}

/// Prints the section of semi-continuous columns, or nothing if there are none.
pub(crate) fn put_semis_section<W: Sink>(model: &Model, output: &mut Output<W>)
    ensures { PrintsSection line_text W.Sink output.old output.new (semis_section (listing_of model.now)) }
{
    output.open_section(b"Semi-Continuous\n");
    put_names(model, KindSection::SemiContinuous, output);
    output.close_section();
}
