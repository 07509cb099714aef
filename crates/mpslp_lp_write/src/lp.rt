//! Writes the canonical LP text of a model to a sink.

mod bounds;
mod fit;
mod kinds;
mod lines;
mod objective;
mod rows;

ghost use Rattle.std.specs.Prelude.{◌≡◌, ◌+◌, ◌≤◌, true, false, None, Some, Err, length, IsOk};
ghost use Rattle.mpslp_model.specs.Formats.{IsWritten};
ghost use Rattle.mpslp_types.specs.declared.faults.NameAt.{NameAt};
ghost use Rattle.mpslp_types.specs.declared.faults.WriteFault.TheVariants.{NotLp};
ghost use Rattle.mpslp_lp_text.specs.Printed.{line_text};
ghost use Rattle.mpslp_lp_text.specs.CanonicalLp.{canonical_lp, canonical_lines};
ghost use Rattle.mpslp_lp_text.specs.Unfit.{unfit};
ghost use Rattle.mpslp_io.specs.Printing.{PrintsSection};

use crate::lp::bounds::put_lp_bounds_section;
pub use crate::lp::fit::first_unfit_name;
use crate::lp::kinds::{put_generals_section, put_semis_section};
use crate::lp::objective::put_objective_section;
use crate::lp::rows::put_lp_rows_section;
use mpslp_io::{Buffer, Output};
use mpslp_model::{Model, Sink, WriteFault};

/// Prints the canonical lines of a model.
fn put_lines<W: Sink>(model: &Model, output: &mut Output<W>)
    ensures { PrintsSection line_text W.Sink output.old output.new (canonical_lines model.now) }
{
    put_objective_section(model, output);
    put_lp_rows_section(model, output);
    put_lp_bounds_section(model, output);
    put_generals_section(model, output);
    put_semis_section(model, output);
    output.put(b"End\n");
}

/// Writes the canonical LP text of a model to a sink, in at most as many calls as it has bytes, and does not flush. The text
/// is collected in a buffer of 65,536 bytes between calls. Does not allocate.
///
/// Call [`Model::with_row_lists`] first: then the time is proportional to the text. Without these lists the coefficients of each row
/// are looked for in all columns.
///
/// # Errors
///
/// [`NotLp`](WriteFault::NotLp) if and only if a name of the model is not an LP name, with the place of the first such name;
/// then the sink is not called. [`Write`](WriteFault::Write) if and only if all names are LP names and the sink has failed
/// when the call ends. It contains the number of bytes that the sink accepted, at most 2^64 - 1: the sink accepted this prefix
/// of the text and nothing else, and is not called again.
pub fn write_lp<W: Sink>(model: &Model, sink: &mut W) -> Result<(), WriteFault>
    ensures answer { IsWritten unfit canonical_lp W.holds W.failed model.now sink.old sink.new result }
    ensures refuses { (place : NameAt) → unfit model.now ≡ Some place → (result ≡ Err (NotLp place)) × (sink.new ≡ sink.old) }
    ensures succeeds { unfit model.now ≡ None → W.failed sink.new ≡ false → IsOk result }
    ensures works { IsOk result → W.failed sink.new ≡ false }
    ensures calls { W.count sink.new ≤ W.count sink.old + length (canonical_lp model.now) }
    ensures stays { W.failed sink.old ≡ true → W.failed sink.new ≡ true }
{
    if let Some(place) = first_unfit_name(model) {
        return Err(WriteFault::NotLp(place));
    }
    let mut buffer = Buffer::new();
    let mut output = Output::new(sink, &mut buffer);
    put_lines(model, &mut output);
    output.finish()
}
