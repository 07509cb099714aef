//! The call that puts the arrays of a model into the form of a model that was loaded.

ghost use Rattle.std.specs.Prelude.{◌≡◌, IsOkUnless};
ghost use Rattle.mpslp_model_core.specs.Model.{LinearModel};
ghost use Rattle.mpslp_conversions.specs.Conversions.{IsErrUnless};
ghost use Rattle.mpslp_c.specs.Stored.{Defines};
ghost use Rattle.mpslp_c.specs.Answers.{HasFault, IsNormalizing, AreArraysReturned, IsNormalized};

use crate::answers::OK;
use crate::arrays::{MpslpModel, c_model};
use crate::faults::{MpslpFault, StoreFault, set_store_fault};
use crate::storing::{store_status, stored_model};
use mpslp_model::HashSeed;
use std::alloc::Global;

/// The arrays, as of a model that was loaded, of the model that arrays define.
fn normalized(alloc: Global, seed: HashSeed, model: &MpslpModel) -> Result<MpslpModel, StoreFault>
    ensures answer { IsNormalizing model.now result }
    ensures accepts { (m : LinearModel) → Defines model.now m → IsOkUnless result StoreFault.OutOfMemory }
    ensures refuses { (why : StoreFault) → HasFault model.now why → IsErrUnless result why StoreFault.OutOfMemory }
{
    let model = stored_model(alloc, seed, model)?;
    match c_model(alloc, &model) {
        Ok(arrays) => Ok(arrays),
        Err(_) => Err(StoreFault::OutOfMemory),
    }
}

/// Sets the arrays, or the error.
fn give_arrays(
    answer: Result<MpslpModel, StoreFault>,
    out: &mut MpslpModel,
    fault: &mut MpslpFault,
) -> u32
    ensures { AreArraysReturned answer result out.old out.new fault.old fault.new }
{
    match answer {
        Ok(model) => {
            *out = model;
            OK
        }
        Err(why) => {
            set_store_fault(&why, fault);
            store_status(&why)
        }
    }
}

/// Makes the arrays of the model that arrays define, in the form that [`seeded_load`](crate::loading::seeded_load) returns: rows,
/// columns and the elements of a column in their order there, numbers in normal form, and no element of 0.
///
/// The arrays that are given may have the form that [`seeded_store`](crate::storing::seeded_store) accepts, and are rejected with
/// the same first error.
///
/// | status | when |
/// |---|---|
/// | 0 | `out` is the model, allocated by `malloc`; the caller frees each array that is not empty |
/// | 2 | the arrays define no model; `fault` is their first error |
/// | 5 | an allocation failed |
#[unsafe(no_mangle)]
pub extern "C" fn seeded_normalize(
    alloc: Global,
    state: u64,
    factor: u64,
    model: &MpslpModel,
    out: &mut MpslpModel,
    fault: &mut MpslpFault,
) -> u32
    ensures { IsNormalized model.now result out.old out.new fault.old fault.new }
{
    give_arrays(
        normalized(alloc, HashSeed { state, factor }, model),
        out,
        fault,
    )
}
