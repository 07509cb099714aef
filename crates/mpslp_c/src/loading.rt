//! The call that reads a whole model.

ghost use Rattle.std.specs.Prelude.{◌≡◌, IsOkUnless};
ghost use Rattle.mpslp_model_core.specs.Model.{LinearModel};
ghost use Rattle.mpslp_types.specs.declared.faults.Fault.{Fault};
ghost use Rattle.mpslp_conversions.specs.Conversions.{IsErrUnless};
ghost use Rattle.mpslp_write.specs.ByForm.{declares_in, first_fault_in};
ghost use Rattle.mpslp_c.specs.Answers.{format_of, IsLoading, IsModelReturned, IsLoadAnswer};

use crate::answers::{OK, UNKNOWN_FORMAT, fault_status};
use crate::arrays::{MpslpModel, c_model};
use crate::faults::{MpslpFault, set_fault};
use crate::texts::format_of;
use mpslp_conversions::{ConvertFault, model_of};
use mpslp_model::{Format, HashSeed};
use mpslp_types::Form;
use mpslp_write::{Lp, Mps};
use std::alloc::Global;

/// The arrays of the model that the bytes define.
fn arrays_of<A: Format>(
    alloc: Global,
    seed: HashSeed,
    bytes: &[u8],
) -> Result<MpslpModel, ConvertFault>
    ensures answer { IsLoading A.declares A.first_fault bytes.now result }
    ensures accepts { (m : LinearModel) → A.declares bytes.now m → IsOkUnless result ConvertFault.OutOfMemory }
    ensures refuses { (fault : Fault) → A.first_fault bytes.now fault
        → IsErrUnless result (ConvertFault.First fault) ConvertFault.OutOfMemory }
{
    let model = model_of::<A>(alloc, seed, bytes)?;
    match c_model(alloc, &model) {
        Ok(arrays) => Ok(arrays),
        Err(_) => Err(ConvertFault::OutOfMemory),
    }
}

/// The same, in a format that is known only when the program runs.
fn arrays_in(
    alloc: Global,
    seed: HashSeed,
    file_format: Form,
    bytes: &[u8],
) -> Result<MpslpModel, ConvertFault>
    ensures answer { IsLoading (declares_in file_format) (first_fault_in file_format) bytes.now result }
    ensures accepts { (m : LinearModel) → declares_in file_format bytes.now m → IsOkUnless result ConvertFault.OutOfMemory }
    ensures refuses { (fault : Fault) → first_fault_in file_format bytes.now fault
        → IsErrUnless result (ConvertFault.First fault) ConvertFault.OutOfMemory }
{
    match file_format {
        Form::Mps => arrays_of::<Mps>(alloc, seed, bytes),
        Form::Lp => arrays_of::<Lp>(alloc, seed, bytes),
    }
}

/// Sets the model, or the error.
fn give_model(
    answer: Result<MpslpModel, ConvertFault>,
    out: &mut MpslpModel,
    fault: &mut MpslpFault,
) -> u32
    ensures { IsModelReturned answer result out.old out.new fault.old fault.new }
{
    match answer {
        Ok(model) => {
            *out = model;
            OK
        }
        Err(why) => {
            set_fault(&why, fault);
            fault_status(&why)
        }
    }
}

/// Reads the model that the bytes define in their format: 0 is MPS, 1 is LP.
///
/// | status | when |
/// |---|---|
/// | 0 | `out` is the model, allocated by `malloc`; the caller frees each array that is not empty |
/// | 2 | the bytes define no model; `fault` is their first error |
/// | 5 | an allocation failed |
/// | 6 | the format is unknown |
#[unsafe(no_mangle)]
pub extern "C" fn seeded_load(
    alloc: Global,
    state: u64,
    factor: u64,
    format: u32,
    bytes: &[u8],
    out: &mut MpslpModel,
    fault: &mut MpslpFault,
) -> u32
    ensures { IsLoadAnswer (format_of format) bytes.now result out.old out.new fault.old fault.new }
{
    match format_of(format) {
        Some(file_format) => give_model(
            arrays_in(alloc, HashSeed { state, factor }, file_format, bytes),
            out,
            fault,
        ),
        None => UNKNOWN_FORMAT,
    }
}
