//! Conversions and comparisons of whole texts in memory.

ghost use Rattle.std.specs.Prelude.{◌≡◌, None, Some, IfOk, IsOkUnless};
ghost use Rattle.mpslp_model_core.specs.Model.{LinearModel};
ghost use Rattle.mpslp_types.specs.declared.faults.Fault.{Fault};
ghost use Rattle.mpslp_types.specs.declared.faults.NameAt.{NameAt};
ghost use Rattle.mpslp_conversions.specs.Conversions.{IsReadingOfFirst, IsText, IsConversion, IsTestOfModel, IsComparison, IsTestOfText, IsErrUnless};

use crate::collecting_sink::Collected;
use crate::comparing_sink::Comparison;
use crate::faults::ConvertFault;
use mpslp_model::{FIXED_SEED, Format, HashSeed, Model, ReadFault, WriteFault};
use std::alloc::Global;

/// Returns the model that the bytes declare in A.
///
/// # Errors
///
/// [`First`](ConvertFault::First) with the first error of bytes that declare no model;
/// [`OutOfMemory`](ConvertFault::OutOfMemory). The others are never returned.
pub fn model_of<A: Format>(
    alloc: Global,
    seed: HashSeed,
    bytes: &[u8],
) -> Result<Model, ConvertFault>
    ensures { IsReadingOfFirst A.declares A.first_fault bytes.now result }
{
    match A::read_seeded(alloc, seed, bytes) {
        Ok(model) => Ok(model),
        Err(ReadFault::File(fault)) => Err(ConvertFault::First(fault)),
        Err(ReadFault::Failed) => unreachable!(),
        Err(ReadFault::OutOfMemory) => Err(ConvertFault::OutOfMemory),
    }
}

/// Returns the canonical text of a model in B.
///
/// # Errors
///
/// [`NotLp`](ConvertFault::NotLp) with the first name of the model that is not legal in B;
/// [`OutOfMemory`](ConvertFault::OutOfMemory). The others are never returned.
pub fn text_of<B: Format>(alloc: Global, model: &Model) -> Result<Vec<u8>, ConvertFault>
    ensures { IsText B.unfit B.text model.now result }
{
    let mut sink = Collected::new(alloc);
    match B::write(model, &mut sink) {
        Ok(()) => Ok(sink.into_bytes()),
        Err(WriteFault::NotLp(name_at)) => Err(ConvertFault::NotLp(name_at)),
        Err(WriteFault::Write { written: _ }) => Err(ConvertFault::OutOfMemory),
    }
}

/// Returns the canonical text in B of the model that the bytes declare in A.
///
/// # Errors
///
/// [`First`](ConvertFault::First) with the first error of bytes that declare no model; otherwise
/// [`NotLp`](ConvertFault::NotLp) with the first name of the model that is not legal in B;
/// [`OutOfMemory`](ConvertFault::OutOfMemory) if an allocation fails. [`Second`](ConvertFault::Second) is never returned.
pub fn canonical<A: Format, B: Format>(alloc: Global, bytes: &[u8]) -> Result<Vec<u8>, ConvertFault>
    ensures answer { IsConversion A.declares A.first_fault B.unfit B.text bytes.now result }
    ensures accepts { (m : LinearModel) → A.declares bytes.now m → B.unfit m ≡ None
        → IsOkUnless result ConvertFault.OutOfMemory }
    ensures refuses { (fault : Fault) → A.first_fault bytes.now fault
        → IsErrUnless result (ConvertFault.First fault) ConvertFault.OutOfMemory }
    ensures cannot_express { (m : LinearModel) (name_at : NameAt) → A.declares bytes.now m → B.unfit m ≡ Some name_at
        → IsErrUnless result (ConvertFault.NotLp name_at) ConvertFault.OutOfMemory }
    ensures keeps { (m : LinearModel) → A.declares bytes.now m → IfOk result (λ out. B.declares out.items m) }
{
    canonical_seeded::<A, B>(alloc, FIXED_SEED, bytes)
}

/// As [`canonical`], with a seed for the hashes of names. Only the time of the call depends on the seed.
pub fn canonical_seeded<A: Format, B: Format>(
    alloc: Global,
    seed: HashSeed,
    bytes: &[u8],
) -> Result<Vec<u8>, ConvertFault>
    ensures answer { IsConversion A.declares A.first_fault B.unfit B.text bytes.now result }
    ensures accepts { (m : LinearModel) → A.declares bytes.now m → B.unfit m ≡ None
        → IsOkUnless result ConvertFault.OutOfMemory }
    ensures refuses { (fault : Fault) → A.first_fault bytes.now fault
        → IsErrUnless result (ConvertFault.First fault) ConvertFault.OutOfMemory }
    ensures cannot_express { (m : LinearModel) (name_at : NameAt) → A.declares bytes.now m → B.unfit m ≡ Some name_at
        → IsErrUnless result (ConvertFault.NotLp name_at) ConvertFault.OutOfMemory }
    ensures keeps { (m : LinearModel) → A.declares bytes.now m → IfOk result (λ out. B.declares out.items m) }
{
    let model = model_of::<A>(alloc, seed, bytes)?;
    text_of::<B>(alloc, &model)
}

/// Returns whether a second text declares this model in B.
fn is_model_of<B: Format>(
    alloc: Global,
    seed: HashSeed,
    model: &Model,
    bytes: &[u8],
) -> Result<bool, ConvertFault>
    ensures { IsTestOfModel B.declares B.first_fault model.now bytes.now result }
{
    match B::read_seeded(alloc, seed, bytes) {
        Ok(other) => Ok(model.same(&other)),
        Err(ReadFault::File(fault)) => Err(ConvertFault::Second(fault)),
        Err(ReadFault::Failed) => unreachable!(),
        Err(ReadFault::OutOfMemory) => Err(ConvertFault::OutOfMemory),
    }
}

/// Returns whether the first text declares in A the model that the second one declares in B.
///
/// # Errors
///
/// [`First`](ConvertFault::First) with the first error of a first text that declares no model; otherwise
/// [`Second`](ConvertFault::Second) with that of the second text; [`OutOfMemory`](ConvertFault::OutOfMemory) if an
/// allocation fails. [`NotLp`](ConvertFault::NotLp) is never returned.
pub fn same_model<A: Format, B: Format>(
    alloc: Global,
    first: &[u8],
    second: &[u8],
) -> Result<bool, ConvertFault>
    ensures answer { IsComparison A.declares A.first_fault B.declares B.first_fault first.now second.now result }
    ensures accepts { (m n : LinearModel) → A.declares first.now m → B.declares second.now n
        → IsOkUnless result ConvertFault.OutOfMemory }
    ensures refuses { (fault : Fault) → A.first_fault first.now fault
        → IsErrUnless result (ConvertFault.First fault) ConvertFault.OutOfMemory }
    ensures refuses_second { (m : LinearModel) (fault : Fault) → A.declares first.now m → B.first_fault second.now fault
        → IsErrUnless result (ConvertFault.Second fault) ConvertFault.OutOfMemory }
{
    same_model_seeded::<A, B>(alloc, FIXED_SEED, first, second)
}

/// As [`same_model`], with a seed for the hashes of names. Only the time of the call depends on the seed.
pub fn same_model_seeded<A: Format, B: Format>(
    alloc: Global,
    seed: HashSeed,
    first: &[u8],
    second: &[u8],
) -> Result<bool, ConvertFault>
    ensures answer { IsComparison A.declares A.first_fault B.declares B.first_fault first.now second.now result }
    ensures accepts { (m n : LinearModel) → A.declares first.now m → B.declares second.now n
        → IsOkUnless result ConvertFault.OutOfMemory }
    ensures refuses { (fault : Fault) → A.first_fault first.now fault
        → IsErrUnless result (ConvertFault.First fault) ConvertFault.OutOfMemory }
    ensures refuses_second { (m : LinearModel) (fault : Fault) → A.declares first.now m → B.first_fault second.now fault
        → IsErrUnless result (ConvertFault.Second fault) ConvertFault.OutOfMemory }
{
    let one = model_of::<A>(alloc, seed, first)?;
    is_model_of::<B>(alloc, seed, &one, second)
}

/// Returns whether the bytes are the canonical text in A of the model that they declare in A. The text is compared while it
/// is written, without a copy.
///
/// # Errors
///
/// [`First`](ConvertFault::First) with the first error of bytes that declare no model;
/// [`OutOfMemory`](ConvertFault::OutOfMemory) if an allocation fails. The others are never returned.
pub fn is_canonical<A: Format>(alloc: Global, bytes: &[u8]) -> Result<bool, ConvertFault>
    ensures answer { IsTestOfText A.declares A.first_fault A.text bytes.now result }
    ensures accepts { (m : LinearModel) → A.declares bytes.now m → IsOkUnless result ConvertFault.OutOfMemory }
    ensures refuses { (fault : Fault) → A.first_fault bytes.now fault
        → IsErrUnless result (ConvertFault.First fault) ConvertFault.OutOfMemory }
{
    is_canonical_seeded::<A>(alloc, FIXED_SEED, bytes)
}

/// As [`is_canonical`], with a seed for the hashes of names. Only the time of the call depends on the seed.
pub fn is_canonical_seeded<A: Format>(
    alloc: Global,
    seed: HashSeed,
    bytes: &[u8],
) -> Result<bool, ConvertFault>
    ensures answer { IsTestOfText A.declares A.first_fault A.text bytes.now result }
    ensures accepts { (m : LinearModel) → A.declares bytes.now m → IsOkUnless result ConvertFault.OutOfMemory }
    ensures refuses { (fault : Fault) → A.first_fault bytes.now fault
        → IsErrUnless result (ConvertFault.First fault) ConvertFault.OutOfMemory }
{
    let model = model_of::<A>(alloc, seed, bytes)?;
    let mut comparison = Comparison::with(bytes);
    let Ok(()) = A::write(&model, &mut comparison) else {
        unreachable!()
    };
    Ok(comparison.is_same())
}
