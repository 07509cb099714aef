//! Calls between a text and a model, and those on a model that was read.

use crate::inputs::fault_of_run;
use crate::refused::answers::Answer;
use crate::refused::refusing::{refuse, refuse_none};
use crate::refused::texts::{MUCH, PIECE, Text};
use mpslp_conversions::{model_of, read_text, text_of};
use mpslp_convert::RunFault;
use mpslp_model::{FIXED_SEED, Format, Model, ModelReader, ReadFault};
use mpslp_write::Lp;
use std::alloc::{AllocError, Global};

/// The model that `model_of` returns.
pub(crate) fn model_read<A: Format>(
    alloc: Global,
    text: &[u8],
    growth: u32,
) -> Result<Answer, AllocError> {
    refuse(alloc, growth);
    let answer = model_of::<A>(alloc, FIXED_SEED, text);
    refuse_none(alloc);
    match answer {
        Ok(model) => Answer::of_model(alloc, Ok(model)),
        Err(fault) => Ok(Answer::of_fault(&fault_of_run(fault), Vec::new(alloc))),
    }
}

/// The model that `read_text` returns.
pub(crate) fn text_read<A: Format>(
    alloc: Global,
    text: &Text<'_>,
    growth: u32,
) -> Result<Answer, AllocError> {
    let mut source = text.source();
    refuse(alloc, growth);
    let answer = read_text::<A, _>(alloc, FIXED_SEED, MUCH, &mut source);
    refuse_none(alloc);
    match answer {
        Ok(Ok(model)) => Answer::of_model(alloc, Ok(model)),
        Ok(Err(fault)) => Answer::of_model(alloc, Err(ReadFault::File(fault))),
        Err(fault) => Ok(Answer::of_fault(&fault, Vec::new(alloc))),
    }
}

/// The text that `text_of` returns of a model. Without a model, the error of its text.
pub(crate) fn text_written<A: Format, B: Format>(
    alloc: Global,
    text: &[u8],
    growth: u32,
) -> Result<Answer, AllocError> {
    let model = match A::read(alloc, text) {
        Ok(model) => model,
        Err(fault) => return Answer::of_model(alloc, Err(fault)),
    };
    refuse(alloc, growth);
    let answer = text_of::<B>(alloc, &model);
    refuse_none(alloc);
    Ok(Answer::of_conversion(alloc, answer))
}

/// A reader that was given a whole text in pieces, or its error.
fn reader_of<P: ModelReader>(alloc: Global, text: &[u8]) -> Result<P, ReadFault> {
    let mut reader = P::new(alloc);
    for piece in text.chunks(PIECE) {
        reader.feed(piece)?;
    }
    Ok(reader)
}

/// The model that `finish_by_columns` of a reader returns. Without one, the error of its text.
pub(crate) fn finished_by_columns<A: Format>(
    alloc: Global,
    text: &[u8],
    growth: u32,
) -> Result<Answer, AllocError> {
    let reader = match reader_of::<A::Reader>(alloc, text) {
        Ok(reader) => reader,
        Err(fault) => return Answer::of_model(alloc, Err(fault)),
    };
    refuse(alloc, growth);
    let answer = reader.finish_by_columns();
    refuse_none(alloc);
    Answer::of_model(alloc, answer)
}

/// The model of a text, without lists by rows.
fn model_by_columns<A: Format>(alloc: Global, text: &[u8]) -> Result<Model, ReadFault> {
    let mut reader = A::Reader::new(alloc);
    reader.feed(text)?;
    reader.finish_by_columns()
}

/// The text of a model that a call has returned, if there was memory for it.
fn text_after<B: Format>(alloc: Global, answer: Result<Model, AllocError>) -> Answer {
    match answer {
        Ok(model) => Answer::of_conversion(alloc, text_of::<B>(alloc, &model)),
        Err(_) => Answer::of_fault(&RunFault::OutOfMemory, Vec::new(alloc)),
    }
}

/// The text of a model that `prepare` has prepared for it. Without a model, the error of its text.
pub(crate) fn prepared<A: Format, B: Format>(
    alloc: Global,
    text: &[u8],
    growth: u32,
) -> Result<Answer, AllocError> {
    let model = match model_by_columns::<A>(alloc, text) {
        Ok(model) => model,
        Err(fault) => return Answer::of_model(alloc, Err(fault)),
    };
    refuse(alloc, growth);
    let answer = B::prepare(alloc, model);
    refuse_none(alloc);
    Ok(text_after::<B>(alloc, answer))
}

/// The LP text of a model after `with_row_lists`. Without a model, the error of its text.
pub(crate) fn with_lists<A: Format>(
    alloc: Global,
    text: &[u8],
    growth: u32,
) -> Result<Answer, AllocError> {
    let model = match model_by_columns::<A>(alloc, text) {
        Ok(model) => model,
        Err(fault) => return Answer::of_model(alloc, Err(fault)),
    };
    refuse(alloc, growth);
    let answer = model.with_row_lists(alloc);
    refuse_none(alloc);
    Ok(text_after::<Lp>(alloc, answer))
}
