//! Calls on the texts of two files.

use crate::refused::answers::{Answer, put, roomy};
use crate::refused::models::{
    finished_by_columns, model_read, prepared, text_read, text_written, with_lists,
};
use crate::refused::refusing::{refuse, refuse_none};
use crate::refused::single_calls::Ending;
use mpslp_convert::{
    Form, Job, JobFault, Word, canonical, is_canonical, load, perform, run, same_model, show,
};
use mpslp_io::Sink;
use mpslp_model::{Format, Model, ModelReader, ReadFault};
use mpslp_test_devices::FailingReader;
use mpslp_write::{Lp, Mps};
use std::alloc::{AllocError, Global};

/// A limit above the length of every text here.
pub(crate) const MUCH: u64 = 4_000_000;

/// How many bytes a reader is fed at once, and the maximum that a source returns.
pub(crate) const PIECE: usize = 7;

/// A call on one or both texts.
#[derive(Clone, Copy)]
pub(crate) enum TextCall {
    Read,
    Feed(Ending),
    FinishByColumns,
    ModelOf,
    TextOf(Form),
    ReadText,
    Prepare(Form),
    WithRowLists,
    Canonical(Form),
    Same,
    SameAsSecond,
    IsCanonical,
    Load,
    Run(Form),
    Show,
    PerformCanon(Form),
    PerformSame,
    PerformSameAsSecond,
    PerformShow,
}

/// The calls on any text, with their names.
pub(crate) const TEXT_CALLS: [(&str, TextCall); 19] = [
    ("read", TextCall::Read),
    ("feed", TextCall::Feed(Ending::ByRows)),
    ("feed by columns", TextCall::Feed(Ending::ByColumns)),
    ("model_of", TextCall::ModelOf),
    ("read_text", TextCall::ReadText),
    ("canonical mps", TextCall::Canonical(Form::Mps)),
    ("canonical lp", TextCall::Canonical(Form::Lp)),
    ("same_model", TextCall::Same),
    ("same_model as second", TextCall::SameAsSecond),
    ("is_canonical", TextCall::IsCanonical),
    ("load", TextCall::Load),
    ("run mps", TextCall::Run(Form::Mps)),
    ("run lp", TextCall::Run(Form::Lp)),
    ("show", TextCall::Show),
    ("perform canon mps", TextCall::PerformCanon(Form::Mps)),
    ("perform canon lp", TextCall::PerformCanon(Form::Lp)),
    ("perform same", TextCall::PerformSame),
    ("perform same as second", TextCall::PerformSameAsSecond),
    ("perform show", TextCall::PerformShow),
];

/// The calls on the model of a text, or on a reader that has accepted it.
pub(crate) const MODEL_CALLS: [(&str, TextCall); 6] = [
    ("finish_by_columns", TextCall::FinishByColumns),
    ("text_of mps", TextCall::TextOf(Form::Mps)),
    ("text_of lp", TextCall::TextOf(Form::Lp)),
    ("prepare mps", TextCall::Prepare(Form::Mps)),
    ("prepare lp", TextCall::Prepare(Form::Lp)),
    ("with_row_lists", TextCall::WithRowLists),
];

/// A text and its format.
#[derive(Clone, Copy)]
pub(crate) struct Text<'a> {
    pub(crate) format: Form,
    pub(crate) bytes: &'a [u8],
}

impl Text<'_> {
    pub(crate) fn source(&self) -> FailingReader<'_> {
        FailingReader::new(self.bytes, PIECE, 0)
    }
}

fn read<A: Format>(alloc: Global, text: &[u8], growth: u32) -> Result<Answer, AllocError> {
    refuse(alloc, growth);
    let answer = A::read(alloc, text);
    refuse_none(alloc);
    Answer::of_model(alloc, answer)
}

/// The model of a reader, with lists by rows or without.
fn finished<P: ModelReader>(reader: P, ending: Ending) -> Result<Model, ReadFault> {
    match ending {
        Ending::ByRows => reader.finish(),
        Ending::ByColumns => reader.finish_by_columns(),
    }
}

/// The result of a reader that is fed the text in pieces, and whether all calls after an error return `Failed`.
fn fed<P: ModelReader>(
    alloc: Global,
    text: &[u8],
    ending: Ending,
    growth: u32,
) -> (Result<Model, ReadFault>, bool) {
    let mut reader = P::new(alloc);
    refuse(alloc, growth);
    for piece in text.chunks(PIECE) {
        if let Err(fault) = reader.feed(piece) {
            refuse_none(alloc);
            let is_spent = matches!(reader.feed(piece), Err(ReadFault::Failed));
            let ends = matches!(finished(reader, ending), Err(ReadFault::Failed));
            return (Err(fault), is_spent && ends);
        }
    }
    let answer = finished(reader, ending);
    refuse_none(alloc);
    (answer, true)
}

fn feed<A: Format>(
    alloc: Global,
    text: &[u8],
    ending: Ending,
    growth: u32,
) -> Result<Answer, AllocError> {
    let (answer, is_spent) = fed::<A::Reader>(alloc, text, ending, growth);
    let mut found = Answer::of_model(alloc, answer)?;
    if !is_spent {
        found.text.extend_from_slice(b"goes on after an error\n")?;
    }
    Ok(found)
}

fn canonical_text<A: Format, B: Format>(alloc: Global, text: &[u8], growth: u32) -> Answer {
    refuse(alloc, growth);
    let answer = canonical::<A, B>(alloc, text);
    refuse_none(alloc);
    Answer::of_conversion(alloc, answer)
}

fn same<A: Format, B: Format>(
    alloc: Global,
    first: &[u8],
    second: &[u8],
    growth: u32,
) -> Result<Answer, AllocError> {
    refuse(alloc, growth);
    let answer = same_model::<A, B>(alloc, first, second);
    refuse_none(alloc);
    Answer::of_test(alloc, answer)
}

fn is_own_text<A: Format>(alloc: Global, text: &[u8], growth: u32) -> Result<Answer, AllocError> {
    refuse(alloc, growth);
    let answer = is_canonical::<A>(alloc, text);
    refuse_none(alloc);
    Answer::of_test(alloc, answer)
}

fn loaded(alloc: Global, text: &Text<'_>, growth: u32) -> Answer {
    let mut source = text.source();
    refuse(alloc, growth);
    let answer = load(alloc, MUCH, &mut source);
    refuse_none(alloc);
    Answer::of_bytes(alloc, answer)
}

fn ran<A: Format, B: Format>(
    alloc: Global,
    text: &Text<'_>,
    growth: u32,
) -> Result<Answer, AllocError> {
    let mut source = text.source();
    let mut sink = roomy(alloc)?;
    refuse(alloc, growth);
    let answer = run::<A, B, _, _>(alloc, MUCH, &mut source, &mut sink);
    refuse_none(alloc);
    Answer::of_run(alloc, answer, &sink)
}

fn shown<A: Format>(alloc: Global, text: &Text<'_>, growth: u32) -> Result<Answer, AllocError> {
    let mut source = text.source();
    let mut sink = roomy(alloc)?;
    refuse(alloc, growth);
    let answer = show::<A, _, _>(alloc, MUCH, &mut source, &mut sink);
    refuse_none(alloc);
    Answer::of_run(alloc, answer, &sink)
}

/// The exit status of a job, its output, and its error output.
fn performed(
    alloc: Global,
    job: &Result<Job, JobFault>,
    first: &Text<'_>,
    second: &Text<'_>,
    growth: u32,
) -> Result<Answer, AllocError> {
    let mut first = first.source();
    let mut second = second.source();
    let mut out = roomy(alloc)?;
    let mut err = roomy(alloc)?;
    refuse(alloc, growth);
    let status = perform(
        alloc,
        MUCH,
        job,
        &mut first,
        &mut second,
        &mut out,
        &mut err,
    );
    refuse_none(alloc);
    put(&mut out, "status ");
    let _ = out.write(&[b'0' + status % 10, b'\n']);
    let mut text = out.bytes().to_vec(alloc)?;
    text.extend_from_slice(err.bytes())?;
    Ok(Answer {
        is_out_of_memory: status == 5,
        text,
    })
}

fn a_path(alloc: Global) -> Result<Word, JobFault> {
    Word::new(alloc, "-")
}

fn canon_job(alloc: Global, from: Form, to: Form) -> Result<Job, JobFault> {
    Ok(Job::Canon {
        from,
        to,
        path: a_path(alloc)?,
    })
}

fn same_job(alloc: Global, first_format: Form, second_format: Form) -> Result<Job, JobFault> {
    Ok(Job::Same {
        first_format,
        first: a_path(alloc)?,
        second_format,
        second: a_path(alloc)?,
    })
}

fn show_job(alloc: Global, from: Form) -> Result<Job, JobFault> {
    Ok(Job::Show {
        from,
        path: a_path(alloc)?,
    })
}

/// The result of a call while an allocation fails, with texts in the formats `A` and `B`.
fn answer_in<A: Format, B: Format>(
    alloc: Global,
    call: TextCall,
    first: &Text<'_>,
    second: &Text<'_>,
    growth: u32,
) -> Result<Answer, AllocError> {
    let bytes = first.bytes;
    match call {
        TextCall::Read => read::<A>(alloc, bytes, growth),
        TextCall::Feed(ending) => feed::<A>(alloc, bytes, ending, growth),
        TextCall::FinishByColumns => finished_by_columns::<A>(alloc, bytes, growth),
        TextCall::ModelOf => model_read::<A>(alloc, bytes, growth),
        TextCall::TextOf(Form::Mps) => text_written::<A, Mps>(alloc, bytes, growth),
        TextCall::TextOf(Form::Lp) => text_written::<A, Lp>(alloc, bytes, growth),
        TextCall::ReadText => text_read::<A>(alloc, first, growth),
        TextCall::Prepare(Form::Mps) => prepared::<A, Mps>(alloc, bytes, growth),
        TextCall::Prepare(Form::Lp) => prepared::<A, Lp>(alloc, bytes, growth),
        TextCall::WithRowLists => with_lists::<A>(alloc, bytes, growth),
        TextCall::Canonical(Form::Mps) => Ok(canonical_text::<A, Mps>(alloc, bytes, growth)),
        TextCall::Canonical(Form::Lp) => Ok(canonical_text::<A, Lp>(alloc, bytes, growth)),
        TextCall::Same => same::<A, B>(alloc, bytes, second.bytes, growth),
        TextCall::SameAsSecond => same::<B, A>(alloc, second.bytes, bytes, growth),
        TextCall::IsCanonical => is_own_text::<A>(alloc, bytes, growth),
        TextCall::Load => Ok(loaded(alloc, first, growth)),
        TextCall::Run(Form::Mps) => ran::<A, Mps>(alloc, first, growth),
        TextCall::Run(Form::Lp) => ran::<A, Lp>(alloc, first, growth),
        TextCall::Show => shown::<A>(alloc, first, growth),
        TextCall::PerformCanon(to) => {
            let job = canon_job(alloc, first.format, to);
            performed(alloc, &job, first, second, growth)
        }
        TextCall::PerformSame => {
            let job = same_job(alloc, first.format, second.format);
            performed(alloc, &job, first, second, growth)
        }
        TextCall::PerformSameAsSecond => {
            let job = same_job(alloc, second.format, first.format);
            performed(alloc, &job, second, first, growth)
        }
        TextCall::PerformShow => {
            let job = show_job(alloc, first.format);
            performed(alloc, &job, first, second, growth)
        }
    }
}

/// The result of a call on two texts while an allocation fails.
pub(crate) fn answer_to(
    alloc: Global,
    call: TextCall,
    first: &Text<'_>,
    second: &Text<'_>,
    growth: u32,
) -> Result<Answer, AllocError> {
    match (first.format, second.format) {
        (Form::Mps, Form::Mps) => answer_in::<Mps, Mps>(alloc, call, first, second, growth),
        (Form::Mps, Form::Lp) => answer_in::<Mps, Lp>(alloc, call, first, second, growth),
        (Form::Lp, Form::Mps) => answer_in::<Lp, Mps>(alloc, call, first, second, growth),
        (Form::Lp, Form::Lp) => answer_in::<Lp, Lp>(alloc, call, first, second, growth),
    }
}
