//! What is checked with an input or an output that fails.

use crate::inputs::model_in;
use crate::vectors::answers::{MUCH, run_in, show_in};
use crate::vectors::tables::Entry;
use mpslp_convert::{Form, RunFault, load};
use mpslp_io::{Sink, Source};
use mpslp_model::{Format, Model, WriteFault};
use mpslp_test_devices::{FailingReader, FailingWriter};
use mpslp_write::{Lp, Mps, write_lp, write_mps};
use std::alloc::Global;

/// A source that returns the text in one read.
fn whole(text: &[u8]) -> FailingReader<'_> {
    FailingReader::new(text, usize::MAX, 0)
}

/// Whether a run writes nothing if this read fails. The limit is the length of the input.
fn run_stops_in_read(alloc: Global, entry: &Entry, fail_at: u64) -> bool {
    let Ok(mut sink) = FailingWriter::new(alloc, 1) else {
        return false;
    };
    let len = entry.text.len() as u64;
    let mut source = FailingReader::new(&entry.text, 1, fail_at);
    let answer = run_in(alloc, len, entry.format, Form::Mps, &mut source, &mut sink);
    matches!(&answer, Err(RunFault::Read)) && sink.calls() == 0 && source.calls() == fail_at
}

/// Whether showing a model writes nothing if this read fails.
fn show_stops_in_read(alloc: Global, entry: &Entry, fail_at: u64) -> bool {
    let Ok(mut sink) = FailingWriter::new(alloc, 1) else {
        return false;
    };
    let mut source = FailingReader::new(&entry.text, 1, fail_at);
    let answer = show_in(alloc, entry.format, &mut source, &mut sink);
    matches!(&answer, Err(RunFault::Read)) && sink.calls() == 0 && source.calls() == fail_at
}

/// Whether nothing is loaded if this read fails.
fn load_stops_in_read(alloc: Global, entry: &Entry, fail_at: u64) -> bool {
    let mut source = FailingReader::new(&entry.text, 1, fail_at);
    let answer = load(alloc, MUCH, &mut source);
    matches!(&answer, Err(RunFault::Read)) && source.calls() == fail_at
}

/// Whether everything is loaded if the first failing read would come after the end of the input.
fn is_loaded(alloc: Global, entry: &Entry, fail_at: u64) -> bool {
    let mut source = FailingReader::new(&entry.text, 1, fail_at);
    match load(alloc, MUCH, &mut source) {
        Ok(bytes) => bytes.as_slice() == entry.text.as_slice() && !source.has_failed(),
        Err(_) => false,
    }
}

/// Whether a failure is reported in whichever read, of one byte each, it occurs.
pub(crate) fn stops_in_each_read(alloc: Global, entry: &Entry) -> bool {
    let reads = (entry.text.len() as u64).saturating_add(1);
    for fail_at in 1..=reads {
        if !run_stops_in_read(alloc, entry, fail_at)
            || !show_stops_in_read(alloc, entry, fail_at)
            || !load_stops_in_read(alloc, entry, fail_at)
        {
            return false;
        }
    }
    is_loaded(alloc, entry, reads.saturating_add(1))
}

/// Whether the error reports that this many bytes were written.
fn reports_written(answer: &Result<(), RunFault>, len: usize) -> bool {
    matches!(answer, Err(RunFault::Write { written }) if *written == len as u64)
}

/// The result of a run of the text of an entry into this sink.
fn run_into(
    alloc: Global,
    entry: &Entry,
    to: Form,
    sink: &mut FailingWriter,
) -> Result<(), RunFault> {
    let mut source = whole(&entry.text);
    run_in(alloc, MUCH, entry.format, to, &mut source, sink)
}

/// Whether a run reports how many bytes its sink took before it failed.
fn run_is_cut(alloc: Global, entry: &Entry, to: Form, take: usize) -> bool {
    let Ok(mut sink) = FailingWriter::new(alloc, take) else {
        return false;
    };
    let answer = run_into(alloc, entry, to, &mut sink);
    let text = entry.answer_in(to).text.as_slice();
    reports_written(&answer, take) && text.starts_with(sink.bytes()) && sink.bytes().len() == take
}

/// Whether a run succeeds if its sink has room for one byte more than the text, so that the flush succeeds too.
fn run_is_whole(alloc: Global, entry: &Entry, to: Form) -> bool {
    let text = entry.answer_in(to).text.as_slice();
    let Ok(mut sink) = FailingWriter::new(alloc, text.len().saturating_add(1)) else {
        return false;
    };
    let answer = run_into(alloc, entry, to, &mut sink);
    matches!(&answer, Ok(())) && sink.bytes() == text
}

/// Whether a run reports how many bytes its sink took, after whichever byte the sink fails. A sink that fails after the last
/// byte fails in the flush.
pub(crate) fn stops_after_each_byte(alloc: Global, entry: &Entry, to: Form) -> bool {
    let answer = entry.answer_in(to);
    if answer.is_fault {
        return true;
    }
    for take in 0..=answer.text.len() {
        if !run_is_cut(alloc, entry, to, take) {
            return false;
        }
    }
    run_is_whole(alloc, entry, to)
}

/// Whether showing a model reports how many bytes the sink took before it failed.
fn show_is_cut(alloc: Global, entry: &Entry, shown: &[u8], take: usize) -> bool {
    let Ok(mut sink) = FailingWriter::new(alloc, take) else {
        return false;
    };
    let answer = show_in(alloc, entry.format, &mut whole(&entry.text), &mut sink);
    reports_written(&answer, take) && shown.starts_with(sink.bytes()) && sink.bytes().len() == take
}

/// Whether showing a model reports how many bytes the sink took, after whichever byte it fails.
pub(crate) fn shows_after_each_byte(alloc: Global, entry: &Entry) -> bool {
    let Some(shown) = &entry.expected.shown else {
        return true;
    };
    if shown.is_fault {
        return true;
    }
    for take in 0..=shown.text.len() {
        if !show_is_cut(alloc, entry, &shown.text, take) {
            return false;
        }
    }
    true
}

/// The result of a format's writer.
fn write_in<W: Sink>(model: &Model, format: Form, sink: &mut W) -> Result<(), WriteFault> {
    match format {
        Form::Mps => write_mps(model, sink),
        Form::Lp => write_lp(model, sink),
    }
}

/// Whether a writer reports how many bytes its sink took before it failed.
fn write_is_cut(alloc: Global, model: &Model, format: Form, text: &[u8], take: usize) -> bool {
    let Ok(mut sink) = FailingWriter::new(alloc, take) else {
        return false;
    };
    let answer = write_in(model, format, &mut sink);
    let is_reported =
        matches!(answer, Err(WriteFault::Write { written }) if written == take as u64);
    is_reported && text.starts_with(sink.bytes()) && sink.bytes().len() == take
}

/// Whether a writer succeeds if its sink has exactly enough room.
fn write_is_whole(alloc: Global, model: &Model, format: Form, text: &[u8]) -> bool {
    let Ok(mut sink) = FailingWriter::new(alloc, text.len()) else {
        return false;
    };
    let answer = write_in(model, format, &mut sink);
    matches!(answer, Ok(())) && sink.bytes() == text
}

/// Whether a writer reports how many bytes its sink took, after whichever byte the sink fails.
fn writes_up_to_each_byte(alloc: Global, model: &Model, format: Form, text: &[u8]) -> bool {
    for take in 0..text.len() {
        if !write_is_cut(alloc, model, format, text, take) {
            return false;
        }
    }
    write_is_whole(alloc, model, format, text)
}

/// Whether the model of an entry is expressible if and only if it has a text, and failing sinks are reported by its writers.
pub(crate) fn is_written_after_each_byte(alloc: Global, entry: &Entry) -> bool {
    let Ok(model) = model_in(alloc, entry.format, &entry.text) else {
        return !entry.is_model();
    };
    let mps = entry.answer_in(Form::Mps);
    let lp = entry.answer_in(Form::Lp);
    if !Mps::expressible(&model) || !writes_up_to_each_byte(alloc, &model, Form::Mps, &mps.text) {
        return false;
    }
    if Lp::expressible(&model) {
        !lp.is_fault && writes_up_to_each_byte(alloc, &model, Form::Lp, &lp.text)
    } else {
        lp.is_fault
    }
}
