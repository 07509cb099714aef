//! The text that shows a model, written to a sink.

ghost use Rattle.std.specs.Prelude.{◌≡◌, ◌<◌, ◌≤◌, ◌+◌, ◌++◌, true, false, None, length, IsOk};
ghost use Rattle.std.specs.List.{enumerate_from};
ghost use Rattle.std.specs.FinMap.{entries};
ghost use Rattle.mpslp_model_core.specs.Views.{num_rows, num_columns, column_name, column_elements, numbered_elements};
ghost use Rattle.mpslp_model.specs.Formats.{IsWritten};
ghost use Rattle.mpslp_io.specs.LinesAt.{lines_at};
ghost use Rattle.mpslp_io.specs.Printing.{Puts};
ghost use Rattle.mpslp_conversions.specs.ShownText.{sense_line, objective_line, counts_line, row_text, rows_text, entry_text, entries_text, column_text, columns_text, shown_text};

use crate::shown_words::{
    kind_word, put_shown_count, put_shown_limit, put_shown_number, put_shown_word, sense_word,
};
use mpslp_io::{Buffer, Output, put_each};
use mpslp_model::{Model, Sink, WriteFault};

/// Puts the line of the objective's sense.
fn put_sense<W: Sink>(model: &Model, output: &mut Output<W>)
    ensures { Puts W.Sink output.old output.new (sense_line model.now) }
{
    output.put(b"sense");
    put_shown_word(output, sense_word(model.objective_sense()));
    output.put(b"\n");
}

/// Puts the line of the objective's name and constant.
fn put_objective<W: Sink>(model: &Model, output: &mut Output<W>)
    ensures { Puts W.Sink output.old output.new (objective_line model.now) }
{
    output.put(b"objective");
    put_shown_word(output, model.objective_name().as_bytes());
    output.put(b" constant");
    put_shown_number(output, model.objective_constant());
    output.put(b" offset");
    put_shown_number(output, model.objective_offset());
    output.put(b"\n");
}

/// Puts the line of the numbers of rows, columns and nonzeros.
fn put_counts<W: Sink>(model: &Model, output: &mut Output<W>)
    ensures { Puts W.Sink output.old output.new (counts_line model.now) }
{
    output.put(b"rows");
    put_shown_count(output, model.num_rows() as u128);
    output.put(b" columns");
    put_shown_count(output, model.num_cols() as u128);
    output.put(b" elements");
    put_shown_count(output, model.num_elements());
    output.put(b"\n");
}

/// Puts the line of the row of number `i`.
fn put_row<W: Sink>(model: &Model, i: usize, output: &mut Output<W>)
    requires { i < num_rows model.now }
    ensures { Puts W.Sink output.old output.new (lines_at row_text (enumerate_from 0 (entries model.now.rows)) i) }
{
    let letter = model.row_sense(i);
    let lower = model.row_lower(i);
    let upper = model.row_upper(i);
    output.put(b"row");
    put_shown_count(output, i as u128);
    put_shown_word(output, model.row_name(i).as_bytes());
    put_shown_word(output, [letter].as_slice());
    put_shown_limit(output, &lower);
    put_shown_limit(output, &upper);
    output.put(b" rhs");
    put_shown_number(output, model.right_hand_side(i));
    output.put(b" range");
    put_shown_number(output, model.row_range(i));
    output.put(b"\n");
}

/// Puts the lines of all rows.
fn put_rows<W: Sink>(model: &Model, output: &mut Output<W>)
    ensures { Puts W.Sink output.old output.new (rows_text model.now) }
{
    put_each(model.num_rows(), output, |i, output| {
        put_row(model, i, output)
    });
}

/// Puts the line of nonzero number `k` of the column of number `j`.
fn put_entry<W: Sink>(model: &Model, j: usize, k: usize, output: &mut Output<W>)
    requires column { j < num_columns model.now }
    requires entry { k < length (column_elements model.now (column_name model.now j)) }
    ensures { Puts W.Sink output.old output.new (lines_at (entry_text j) (numbered_elements model.now (column_name model.now j)) k) }
{
    let (i, value) = model.entry(j, k);
    output.put(b"entry");
    put_shown_count(output, j as u128);
    put_shown_count(output, i as u128);
    put_shown_number(output, value);
    output.put(b"\n");
}

/// Puts the lines of the nonzeros of the column of number `j`.
fn put_entries<W: Sink>(model: &Model, j: usize, output: &mut Output<W>)
    requires { j < num_columns model.now }
    ensures { Puts W.Sink output.old output.new (entries_text model.now j (column_name model.now j)) }
{
    for k in 0..model.column_len(j) {
        put_entry(model, j, k, output);
    }
}

/// Puts the line of the column of number `j`, followed by those of its nonzeros.
fn put_column<W: Sink>(model: &Model, j: usize, output: &mut Output<W>)
    requires { j < num_columns model.now }
    ensures { Puts W.Sink output.old output.new (lines_at (column_text model.now) (enumerate_from 0 (entries model.now.columns)) j) }
{
    let lower = model.col_lower(j);
    let upper = model.col_upper(j);
    output.put(b"column");
    put_shown_count(output, j as u128);
    put_shown_word(output, model.column_name(j).as_bytes());
    put_shown_word(output, kind_word(model.column_kind(j)));
    put_shown_limit(output, &lower);
    put_shown_limit(output, &upper);
    output.put(b" objective");
    put_shown_number(output, model.objective_coefficient(j));
    output.put(b"\n");
    put_entries(model, j, output);
}

/// Puts the lines of all columns.
fn put_columns<W: Sink>(model: &Model, output: &mut Output<W>)
    ensures { Puts W.Sink output.old output.new (columns_text model.now) }
{
    put_each(model.num_cols(), output, |j, output| {
        put_column(model, j, output)
    });
}

/// Puts the text that shows a model.
fn put_shown<W: Sink>(model: &Model, output: &mut Output<W>)
    ensures { Puts W.Sink output.old output.new (shown_text model.now) }
{
    put_sense(model, output);
    put_objective(model, output);
    put_counts(model, output);
    put_rows(model, output);
    put_columns(model, output);
}

/// Writes the text that shows a model to a sink. Makes at most as many calls as the text has bytes, does not flush and
/// allocates nothing; the text is buffered between calls.
///
/// # Errors
///
/// [`Write`](WriteFault::Write) if and only if the sink has failed when the call ends; it has then taken only the reported
/// number of bytes from the start of the text. [`NotLp`](WriteFault::NotLp) is never returned.
pub(crate) fn write_shown<W: Sink>(model: &Model, sink: &mut W) -> Result<(), WriteFault>
    ensures answer { IsWritten (λ _. None) shown_text W.holds W.failed model.now sink.old sink.new result }
    ensures succeeds { W.failed sink.new ≡ false → IsOk result }
    ensures works { IsOk result → W.failed sink.new ≡ false }
    ensures calls { W.count sink.new ≤ W.count sink.old + length (shown_text model.now) }
    ensures stays { W.failed sink.old ≡ true → W.failed sink.new ≡ true }
{
    let mut buffer = Buffer::new();
    let mut output = Output::new(sink, &mut buffer);
    put_shown(model, &mut output);
    output.finish()
}
