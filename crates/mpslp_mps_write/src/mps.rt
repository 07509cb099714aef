//! Writes the canonical MPS text of a model to a sink.

pub(crate) mod bounds;
mod columns;
mod lines;
mod rows;

ghost use Rattle.std.specs.Prelude.{◌≡◌, ◌+◌, ◌≤◌, true, false, None, length, IsOk};
ghost use Rattle.mpslp_model.specs.Formats.{IsWritten};
ghost use Rattle.mpslp_mps_text.specs.CanonicalMps.{line_text, canonical_mps, canonical_lines, sense_lines};
ghost use Rattle.mpslp_io.specs.Printing.{PrintsSection};

use crate::mps::bounds::put_mps_bounds_section;
use crate::mps::columns::put_columns_section;
use crate::mps::rows::{put_mps_rows_section, put_ranges_section, put_rhs_section};
use mpslp_io::{Buffer, Output};
use mpslp_model::{Model, Sense, Sink, WriteFault};

/// Prints the section OBJSENSE, if the objective is maximized.
fn put_sense<W: Sink>(sense: Sense, output: &mut Output<W>)
    ensures { PrintsSection line_text W.Sink output.old output.new (sense_lines sense) }
{
    match sense {
        Sense::Minimize => {}
        Sense::Maximize => output.put(b"OBJSENSE\n    MAX\n"),
    }
}

/// Prints the canonical lines of a model.
fn put_lines<W: Sink>(model: &Model, output: &mut Output<W>)
    ensures { PrintsSection line_text W.Sink output.old output.new (canonical_lines model.now) }
{
    output.put(b"NAME\n");
    put_sense(model.objective_sense(), output);
    put_mps_rows_section(model, output);
    put_columns_section(model, output);
    put_rhs_section(model, output);
    put_ranges_section(model, output);
    put_mps_bounds_section(model, output);
    output.put(b"ENDATA\n");
}

/// Writes the canonical MPS text of a model to a sink, in at most as many calls as it has bytes, and does not flush. The
/// text is collected in a buffer of 65,536 bytes between calls. Does not allocate.
///
/// # Errors
///
/// [`Write`](WriteFault::Write) if and only if the sink has failed when the call ends. It contains the number of bytes that
/// the sink accepted, at most 2^64 - 1: the sink accepted this prefix of the text and nothing else, and is not called again.
/// Never [`NotLp`](WriteFault::NotLp).
pub fn write_mps<W: Sink>(model: &Model, sink: &mut W) -> Result<(), WriteFault>
    ensures answer { IsWritten (λ _. None) canonical_mps W.holds W.failed model.now sink.old sink.new result }
    ensures succeeds { W.failed sink.new ≡ false → IsOk result }
    ensures works { IsOk result → W.failed sink.new ≡ false }
    ensures calls { W.count sink.new ≤ W.count sink.old + length (canonical_mps model.now) }
    ensures stays { W.failed sink.old ≡ true → W.failed sink.new ≡ true }
{
    let mut buffer = Buffer::new();
    let mut output = Output::new(sink, &mut buffer);
    put_lines(model, &mut output);
    output.finish()
}
