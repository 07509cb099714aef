//! The result of a call, as text.

use crate::inputs::fault_of_run;
use mpslp_convert::{ConvertFault, RunFault, report};
use mpslp_io::Sink;
use mpslp_model::{Model, ReadFault, ToWrite};
use mpslp_test_devices::FailingWriter;
use mpslp_write::write_mps;
use std::alloc::{AllocError, Global};

/// Enough for every text here. A sink of this capacity allocates nothing during a call.
const ROOM: usize = 1 << 16;

/// A text, or the line of an error, or both.
#[derive(Drop)]
pub(crate) struct Answer {
    pub(crate) is_out_of_memory: bool,
    pub(crate) text: Vec<u8>,
}

/// A sink with room for every text here, which does not grow.
pub(crate) fn roomy(alloc: Global) -> Result<FailingWriter, AllocError> {
    FailingWriter::new(alloc, ROOM)
}

/// Puts a text into a sink with enough room.
pub(crate) fn put(sink: &mut FailingWriter, text: &str) {
    let _ = sink.write(text.as_bytes());
}

impl Answer {
    pub(crate) fn of_text(text: Vec<u8>) -> Answer {
        Answer {
            is_out_of_memory: false,
            text,
        }
    }

    /// The content of a sink.
    pub(crate) fn of_sink(
        alloc: Global,
        is_out_of_memory: bool,
        sink: &FailingWriter,
    ) -> Result<Answer, AllocError> {
        Ok(Answer {
            is_out_of_memory,
            text: sink.bytes().to_vec(alloc)?,
        })
    }

    /// What was written, followed by the line of an error.
    pub(crate) fn of_fault(fault: &RunFault, written: Vec<u8>) -> Answer {
        let mut sink = ToWrite::new(written);
        let _ = report(fault, &mut sink);
        Answer {
            is_out_of_memory: matches!(fault, RunFault::OutOfMemory),
            text: sink.into_inner(),
        }
    }

    /// The content of a sink after a run into it, followed by the line of the run's error.
    pub(crate) fn of_run(
        alloc: Global,
        answer: Result<(), RunFault>,
        sink: &FailingWriter,
    ) -> Result<Answer, AllocError> {
        let written = sink.bytes().to_vec(alloc)?;
        Ok(match answer {
            Ok(()) => Answer::of_text(written),
            Err(fault) => Answer::of_fault(&fault, written),
        })
    }

    pub(crate) fn of_bytes(alloc: Global, answer: Result<Vec<u8>, RunFault>) -> Answer {
        match answer {
            Ok(text) => Answer::of_text(text),
            Err(fault) => Answer::of_fault(&fault, Vec::new(alloc)),
        }
    }

    pub(crate) fn of_conversion(alloc: Global, answer: Result<Vec<u8>, ConvertFault>) -> Answer {
        match answer {
            Ok(text) => Answer::of_text(text),
            Err(fault) => Answer::of_fault(&fault_of_run(fault), Vec::new(alloc)),
        }
    }

    pub(crate) fn of_test(
        alloc: Global,
        answer: Result<bool, ConvertFault>,
    ) -> Result<Answer, AllocError> {
        match answer {
            Ok(true) => Ok(Answer::of_text(b"true\n".to_vec(alloc)?)),
            Ok(false) => Ok(Answer::of_text(b"false\n".to_vec(alloc)?)),
            Err(fault) => Ok(Answer::of_fault(&fault_of_run(fault), Vec::new(alloc))),
        }
    }

    /// The canonical MPS text of a model.
    pub(crate) fn of_model(
        alloc: Global,
        answer: Result<Model, ReadFault>,
    ) -> Result<Answer, AllocError> {
        let mut sink = roomy(alloc)?;
        let ended = match answer {
            Ok(model) => match write_mps(&model, &mut sink) {
                Ok(()) => Ok(()),
                Err(_) => Err(RunFault::Read),
            },
            Err(ReadFault::File(fault)) => Err(RunFault::File(fault)),
            Err(ReadFault::Failed) => Err(RunFault::Read),
            Err(ReadFault::OutOfMemory) => Err(RunFault::OutOfMemory),
        };
        Answer::of_run(alloc, ended, &sink)
    }
}
