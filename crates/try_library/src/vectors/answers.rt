//! The results of library calls for a text: another text, or the line of an error.

use crate::inputs::{fault_of_run, model_in};
use mpslp_convert::{
    ConvertFault, Form, RunFault, canonical, is_canonical, report, run, same_model, show,
};
use mpslp_model::{Format, Model, ModelReader, ReadFault, Sink, Source, ToWrite};
use mpslp_test_devices::FailingReader;
use mpslp_write::{Lp, Mps};
use std::alloc::Global;

/// A limit above the length of every text here.
pub(crate) const MUCH: u64 = 4_000_000;

/// A text, or the line of an error instead.
#[derive(Drop)]
pub(crate) struct Answer {
    pub(crate) is_fault: bool,
    pub(crate) text: Vec<u8>,
}

impl Answer {
    pub(crate) fn is(&self, other: &Answer) -> bool {
        self.is_fault == other.is_fault && self.text.as_slice() == other.text.as_slice()
    }

    /// The result of a run that has written this.
    fn of_run(answer: Result<(), RunFault>, written: Vec<u8>) -> Answer {
        let Err(fault) = answer else {
            return Answer {
                is_fault: false,
                text: written,
            };
        };
        let mut sink = ToWrite::new(written);
        let _ = report(&fault, &mut sink);
        Answer {
            is_fault: true,
            text: sink.into_inner(),
        }
    }
}

/// The line of an error.
pub(crate) fn line_of(alloc: Global, fault: ConvertFault) -> Answer {
    Answer::of_run(Err(fault_of_run(fault)), Vec::new(alloc))
}

fn canonical_of<A: Format, B: Format>(alloc: Global, text: &[u8]) -> Answer {
    match canonical::<A, B>(alloc, text) {
        Ok(text) => Answer {
            is_fault: false,
            text,
        },
        Err(fault) => line_of(alloc, fault),
    }
}

/// The result of `canonical`.
pub(crate) fn canonical_in(alloc: Global, from: Form, to: Form, text: &[u8]) -> Answer {
    match (from, to) {
        (Form::Mps, Form::Mps) => canonical_of::<Mps, Mps>(alloc, text),
        (Form::Mps, Form::Lp) => canonical_of::<Mps, Lp>(alloc, text),
        (Form::Lp, Form::Mps) => canonical_of::<Lp, Mps>(alloc, text),
        (Form::Lp, Form::Lp) => canonical_of::<Lp, Lp>(alloc, text),
    }
}

/// The result of `is_canonical`.
pub(crate) fn is_canonical_in(
    alloc: Global,
    format: Form,
    text: &[u8],
) -> Result<bool, ConvertFault> {
    match format {
        Form::Mps => is_canonical::<Mps>(alloc, text),
        Form::Lp => is_canonical::<Lp>(alloc, text),
    }
}

/// The result of `same_model`.
pub(crate) fn same_in(
    alloc: Global,
    first_format: Form,
    first: &[u8],
    second_format: Form,
    second: &[u8],
) -> Result<bool, ConvertFault> {
    match (first_format, second_format) {
        (Form::Mps, Form::Mps) => same_model::<Mps, Mps>(alloc, first, second),
        (Form::Mps, Form::Lp) => same_model::<Mps, Lp>(alloc, first, second),
        (Form::Lp, Form::Mps) => same_model::<Lp, Mps>(alloc, first, second),
        (Form::Lp, Form::Lp) => same_model::<Lp, Lp>(alloc, first, second),
    }
}

/// The result of `run`.
pub(crate) fn run_in<R: Source, W: Sink>(
    alloc: Global,
    max_bytes: u64,
    from: Form,
    to: Form,
    source: &mut R,
    sink: &mut W,
) -> Result<(), RunFault> {
    match (from, to) {
        (Form::Mps, Form::Mps) => run::<Mps, Mps, R, W>(alloc, max_bytes, source, sink),
        (Form::Mps, Form::Lp) => run::<Mps, Lp, R, W>(alloc, max_bytes, source, sink),
        (Form::Lp, Form::Mps) => run::<Lp, Mps, R, W>(alloc, max_bytes, source, sink),
        (Form::Lp, Form::Lp) => run::<Lp, Lp, R, W>(alloc, max_bytes, source, sink),
    }
}

/// The result of `show`.
pub(crate) fn show_in<R: Source, W: Sink>(
    alloc: Global,
    from: Form,
    source: &mut R,
    sink: &mut W,
) -> Result<(), RunFault> {
    match from {
        Form::Mps => show::<Mps, R, W>(alloc, MUCH, source, sink),
        Form::Lp => show::<Lp, R, W>(alloc, MUCH, source, sink),
    }
}

/// The result of a run whose input comes in pieces of limited length, and has a limit in total.
pub(crate) fn run_of(
    alloc: Global,
    max_bytes: u64,
    from: Form,
    to: Form,
    text: &[u8],
    piece: usize,
) -> Answer {
    let mut source = FailingReader::new(text, piece, 0);
    let mut sink = ToWrite::new(Vec::new(alloc));
    let answer = run_in(alloc, max_bytes, from, to, &mut source, &mut sink);
    Answer::of_run(answer, sink.into_inner())
}

/// The text that shows the model of an input that comes in pieces of limited length.
pub(crate) fn shown_of(alloc: Global, from: Form, text: &[u8], piece: usize) -> Answer {
    let mut source = FailingReader::new(text, piece, 0);
    let mut sink = ToWrite::new(Vec::new(alloc));
    let answer = show_in(alloc, from, &mut source, &mut sink);
    Answer::of_run(answer, sink.into_inner())
}

/// The model of a text whose reader is fed in two pieces.
fn fed<A: Format>(alloc: Global, first: &[u8], second: &[u8]) -> Result<Model, ReadFault> {
    let mut reader = <A::Reader as ModelReader>::new(alloc);
    reader.feed(first)?;
    reader.feed(second)?;
    reader.finish()
}

/// The canonical MPS text of a model, or the line of the error.
fn answer_of(alloc: Global, answer: Result<Model, ReadFault>) -> Answer {
    let mut sink = ToWrite::new(Vec::new(alloc));
    let ended = match answer {
        Ok(model) => match Mps::write(&model, &mut sink) {
            Ok(()) => Ok(()),
            Err(_) => Err(RunFault::OutOfMemory),
        },
        Err(ReadFault::File(fault)) => Err(RunFault::File(fault)),
        Err(_) => Err(RunFault::OutOfMemory),
    };
    Answer::of_run(ended, sink.into_inner())
}

/// The canonical MPS text of a text whose reader is fed in two pieces.
pub(crate) fn fed_in(alloc: Global, format: Form, first: &[u8], second: &[u8]) -> Answer {
    let answer = match format {
        Form::Mps => fed::<Mps>(alloc, first, second),
        Form::Lp => fed::<Lp>(alloc, first, second),
    };
    answer_of(alloc, answer)
}

/// The canonical MPS text of a text that is read as a whole.
pub(crate) fn read_in(alloc: Global, format: Form, text: &[u8]) -> Answer {
    answer_of(alloc, model_in(alloc, format, text))
}
