//! The calls on whole texts.
//!
//! `out` and `fault` are unchanged unless the status of the call says that they are set.

ghost use Rattle.mpslp_c.specs.Answers.{format_of, IsCanonicalAnswer, IsSameAnswer, IsTestAnswer, IsTextReturned, IsTruthReturned};

use crate::answers::{OK, UNKNOWN_FORMAT, fault_status, truth_status};
use crate::faults::{MpslpFault, set_fault};
use crate::texts::{canonical_for_c, format_of, is_canonical_for_c, same_for_c};
use mpslp_conversions::ConvertFault;
use mpslp_model::HashSeed;
use std::alloc::Global;

/// A text. The caller frees it unless it is empty.
#[repr(C)]
#[derive(Drop)]
pub struct MpslpText {
    /// Its bytes.
    pub bytes: &'static [u8],
}

const _: () = prove!(size_of::<MpslpText>() == 16);

/// Sets the text, or the error.
fn give_text(
    answer: Result<Vec<u8>, ConvertFault>,
    out: &mut MpslpText,
    fault: &mut MpslpFault,
) -> u32
    ensures { IsTextReturned answer result out.old out.new fault.old fault.new }
{
    match answer {
        Ok(text) => {
            out.bytes = text.leak();
            OK
        }
        Err(why) => {
            set_fault(&why, fault);
            fault_status(&why)
        }
    }
}

/// Returns the status of yes or no, or sets the error.
fn give_truth(answer: Result<bool, ConvertFault>, fault: &mut MpslpFault) -> u32
    ensures { IsTruthReturned answer result fault.old fault.new }
{
    match answer {
        Ok(is_true) => truth_status(is_true),
        Err(why) => {
            set_fault(&why, fault);
            fault_status(&why)
        }
    }
}

/// Writes the canonical text, in the format `to`, of the model that the bytes define in the format `from`: 0 is MPS, 1 is
/// LP.
///
/// | status | when |
/// |---|---|
/// | 0 | `out` is the text, allocated by `malloc`; the caller frees it unless it is empty |
/// | 2 | the bytes define no model; `fault` is their first error |
/// | 4 | the model has a name that is not legal in LP; `fault` has the place of the first one |
/// | 5 | an allocation failed |
/// | 6 | `from` or `to` is an unknown format |
#[unsafe(no_mangle)]
pub extern "C" fn seeded_canonical(
    alloc: Global,
    state: u64,
    factor: u64,
    from: u32,
    to: u32,
    bytes: &[u8],
    out: &mut MpslpText,
    fault: &mut MpslpFault,
) -> u32
    ensures { IsCanonicalAnswer (format_of from) (format_of to) bytes.now result out.old out.new fault.old fault.new }
{
    let Some(from) = format_of(from) else {
        return UNKNOWN_FORMAT;
    };
    let Some(to) = format_of(to) else {
        return UNKNOWN_FORMAT;
    };
    give_text(
        canonical_for_c(alloc, HashSeed { state, factor }, from, to, bytes),
        out,
        fault,
    )
}

/// Whether two texts define the same model, each in its format: 0 is MPS, 1 is LP.
///
/// | status | when |
/// |---|---|
/// | 0 | they do |
/// | 1 | they define different models |
/// | 2 | the first text defines no model; `fault` is its first error |
/// | 3 | the first text defines a model and the second does not; `fault` is the first error of the second |
/// | 5 | an allocation failed |
/// | 6 | one of the formats is unknown |
#[unsafe(no_mangle)]
pub extern "C" fn seeded_same(
    alloc: Global,
    state: u64,
    factor: u64,
    first_format: u32,
    first: &[u8],
    second_format: u32,
    second: &[u8],
    fault: &mut MpslpFault,
) -> u32
    ensures { IsSameAnswer (format_of first_format) (format_of second_format) first.now second.now result fault.old fault.new }
{
    let Some(first_file_format) = format_of(first_format) else {
        return UNKNOWN_FORMAT;
    };
    let Some(second_file_format) = format_of(second_format) else {
        return UNKNOWN_FORMAT;
    };
    give_truth(
        same_for_c(
            alloc,
            HashSeed { state, factor },
            first_file_format,
            first,
            second_file_format,
            second,
        ),
        fault,
    )
}

/// Whether the bytes are the canonical text of the model that they define in their format: 0 is MPS, 1 is LP.
///
/// | status | when |
/// |---|---|
/// | 0 | they are |
/// | 1 | they define a model, and its text is another one |
/// | 2 | they define no model; `fault` is their first error |
/// | 5 | an allocation failed |
/// | 6 | the format is unknown |
#[unsafe(no_mangle)]
pub extern "C" fn seeded_is_canonical(
    alloc: Global,
    state: u64,
    factor: u64,
    format: u32,
    bytes: &[u8],
    fault: &mut MpslpFault,
) -> u32
    ensures { IsTestAnswer (format_of format) bytes.now result fault.old fault.new }
{
    match format_of(format) {
        Some(file_format) => give_truth(
            is_canonical_for_c(alloc, HashSeed { state, factor }, file_format, bytes),
            fault,
        ),
        None => UNKNOWN_FORMAT,
    }
}
