//! How fast the text of a model is read.
//!
//! The text comes from standard input. The counts of its model, or its error, are printed on standard output, and the time of the
//! reader, without that of the input, on standard error.

use crate::inputs::model_in;
use mpslp_convert::Form;
use mpslp_model::{Fault, Model, ReadFault};
use std::alloc::Global;
use std::io;
use std::io::Read;
use std::rt::Clock;
use std::time::Instant;

/// Prints an error like the program: the line or the file, the kind, and the row or column if it has one.
fn put_fault(rt: &impl Print, alloc: Global, fault: &Fault) -> io::Result<()> {
    if fault.line == 0 {
        print!(rt; "file: {}", fault.kind.text())?;
    } else {
        print!(rt; "line {}: {}", fault.line, fault.kind.text())?;
    }
    match &fault.name {
        Some(name) => println!(rt; " {}", String::from_utf8_lossy(alloc, name.as_bytes())?),
        None => println!(rt; ""),
    }
}

/// Prints the counts of a model.
fn put_counts(rt: &impl Print, model: &Model) -> io::Result<()> {
    println!(rt;
        "rows {} columns {} elements {}",
        model.num_rows(),
        model.num_cols(),
        model.num_elements()
    )
}

/// Prints the counts of the model that was read, or the error.
fn put_result(rt: &impl Print, alloc: Global, read: Result<Model, ReadFault>) -> io::Result<()> {
    match read {
        Ok(model) => put_counts(rt, &model),
        Err(ReadFault::File(fault)) => put_fault(rt, alloc, &fault),
        Err(ReadFault::Failed) => println!(rt; "failed"),
        Err(ReadFault::OutOfMemory) => println!(rt; "out of memory"),
    }
}

/// Reads a text, prints what it came to, and returns the microseconds of the reader.
fn timed_reading<R: Print + Clock>(
    rt: &R,
    alloc: Global,
    format: Form,
    text: &[u8],
) -> io::Result<u128> {
    let start = Instant::now(rt)?;
    let model = model_in(alloc, format, text);
    let elapsed = start.elapsed(rt);
    put_result(rt, alloc, model)?;
    Ok(elapsed?.as_micros())
}

/// Reads the text of standard input, and prints what it came to and the time.
pub(crate) fn measure_reading<R: Input + Print + Eprint + Clock + AllocGlobal>(
    rt: &R,
    alloc: Global,
    format: Form,
) -> io::Result<()> {
    let mut text = Vec::new(alloc);
    rt.reader().read_to_end(&mut text)?;
    let micros = timed_reading(rt, alloc, format, text.as_slice())?.max(1);
    let tenths = (text.len() as u128).saturating_mul(10) / micros;
    eprintln!(rt;
        "read {} bytes, {micros} microseconds, {}.{} MB/s",
        text.len(),
        tenths / 10,
        tenths % 10
    )
}
