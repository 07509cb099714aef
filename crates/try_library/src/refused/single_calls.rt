//! One call of a builder, made after others. Only its own allocations fail, not those of its arguments.

use crate::refused::answers::{Answer, roomy};
use crate::refused::building::{BuilderCall, EACH_KIND, finished, put_answer, put_finished};
use crate::refused::refusing::{refuse, refuse_none};
use mpslp_model::{BuildFault, Builder, Model, ReadFault};
use mpslp_test_devices::FailingWriter;
use std::alloc::{AllocError, Global};

/// A call with its name in the crate, and the calls before it.
#[derive(Clone, Copy)]
pub(crate) struct SingleCall {
    pub(crate) name: &'static str,
    before: &'static str,
    call: &'static str,
}

/// Each call. Before one that may allocate there are so few declarations that it does.
pub(crate) const SINGLE_CALLS: [SingleCall; 14] = [
    SingleCall {
        name: "Builder::sense",
        before: "objective f",
        call: "sense",
    },
    SingleCall {
        name: "Builder::objective",
        before: "column x",
        call: "objective LONG",
    },
    SingleCall {
        name: "Builder::constant",
        before: "objective f",
        call: "constant 5",
    },
    SingleCall {
        name: "Builder::row",
        before: "objective f\ncolumn LONG",
        call: "row LONG L",
    },
    SingleCall {
        name: "Builder::row_limits",
        before: "objective f\ncolumn LONG",
        call: "limits seventeen.letters -1 1",
    },
    SingleCall {
        name: "Builder::rhs",
        before: "objective f\nrow LONG L",
        call: "rhs LONG 4",
    },
    SingleCall {
        name: "Builder::range",
        before: "objective f\nrow LONG L",
        call: "range LONG 4",
    },
    SingleCall {
        name: "Builder::column",
        before: "objective f\nrow LONG L",
        call: "column LONG",
    },
    SingleCall {
        name: "Builder::coefficient",
        before: "objective f\nrow LONG L\nrow r L\ncolumn seventeen.letters",
        call: "coefficient LONG seventeen.letters 3",
    },
    SingleCall {
        name: "Builder::bounds",
        before: "objective f\ncolumn LONG",
        call: "bounds LONG -1 1",
    },
    SingleCall {
        name: "Builder::marked",
        before: "objective f\ncolumn LONG",
        call: "marked LONG",
    },
    SingleCall {
        name: "Builder::integer",
        before: "objective f\ncolumn LONG",
        call: "integer LONG",
    },
    SingleCall {
        name: "Builder::binary",
        before: "objective f\ncolumn LONG",
        call: "binary LONG",
    },
    SingleCall {
        name: "Builder::semi",
        before: "objective f\ncolumn LONG\nbounds LONG 0 9",
        call: "semi LONG",
    },
];

/// The calls after it, which are the same whether or not it was made. With them each builder has an objective, a row and a column.
const AFTER: &str = "\
objective g
row s G
column y
coefficient s y 1
coefficient s seventeen.letters 1
coefficient s LONG 1";

/// What follows if there was no memory for a call.
#[derive(Clone, Copy)]
pub(crate) enum Then {
    /// The other calls, without it.
    LeaveOut,
    /// The call once more, with memory, and then the others.
    Repeat,
}

/// How a builder ends.
#[derive(Clone, Copy)]
pub(crate) enum Ending {
    ByRows,
    ByColumns,
}

/// A builder after these calls.
pub(crate) fn begun(alloc: Global, calls: &str) -> Builder {
    let mut builder = Builder::new(alloc);
    for line in calls.lines() {
        let _ = BuilderCall::of(line).made(&mut builder, alloc);
    }
    builder
}

/// The result of a call while an allocation fails.
fn made_refused(
    builder: &mut Builder,
    alloc: Global,
    call: &BuilderCall<'_>,
    growth: u32,
) -> Result<(), BuildFault> {
    let name = call.new_name(alloc)?;
    refuse(alloc, growth);
    let answer = call.made_with(builder, name);
    refuse_none(alloc);
    answer
}

/// Puts the results of the calls after it, and the model.
fn put_rest(out: &mut FailingWriter, alloc: Global, builder: Builder) {
    let mut builder = builder;
    for line in AFTER.lines() {
        let call = BuilderCall::of(line);
        let answer = call.made(&mut builder, alloc);
        put_answer(out, &call, &answer);
    }
    let _ = put_finished(out, finished(builder));
}

/// The results of a call while an allocation fails, and of what follows.
pub(crate) fn single(
    alloc: Global,
    call: &SingleCall,
    then: Then,
    growth: u32,
) -> Result<Answer, AllocError> {
    let mut out = roomy(alloc)?;
    let mut builder = begun(alloc, call.before);
    let call = BuilderCall::of(call.call);
    let answer = made_refused(&mut builder, alloc, &call, growth);
    put_answer(&mut out, &call, &answer);
    let is_out_of_memory = matches!(answer, Err(BuildFault::OutOfMemory));
    if is_out_of_memory && matches!(then, Then::Repeat) {
        let answer = call.made(&mut builder, alloc);
        put_answer(&mut out, &call, &answer);
    }
    put_rest(&mut out, alloc, builder);
    Answer::of_sink(alloc, is_out_of_memory, &out)
}

/// The results of what follows a call that is not made.
pub(crate) fn left_out(alloc: Global, call: &SingleCall) -> Result<Answer, AllocError> {
    let mut out = roomy(alloc)?;
    put_rest(&mut out, alloc, begun(alloc, call.before));
    Answer::of_sink(alloc, false, &out)
}

/// The model of the declarations, without lists by rows.
fn finished_by_columns(builder: Builder) -> Result<Model, ReadFault> {
    if builder.has_objective() {
        builder.finish_by_columns()
    } else {
        Err(ReadFault::Failed)
    }
}

/// The model that a builder ends with while an allocation fails.
pub(crate) fn ended(alloc: Global, ending: Ending, growth: u32) -> Result<Answer, AllocError> {
    let builder = begun(alloc, EACH_KIND);
    refuse(alloc, growth);
    let answer = match ending {
        Ending::ByRows => finished(builder),
        Ending::ByColumns => finished_by_columns(builder),
    };
    refuse_none(alloc);
    Answer::of_model(alloc, answer)
}
