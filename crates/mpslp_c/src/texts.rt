//! Texts in formats that are known only when the program runs.

ghost use Rattle.std.specs.Prelude.{◌≡◌, None, Some, IsOkUnless};
ghost use Rattle.mpslp_model_core.specs.Model.{LinearModel};
ghost use Rattle.mpslp_types.specs.declared.faults.Fault.{Fault};
ghost use Rattle.mpslp_types.specs.declared.faults.NameAt.{NameAt};
ghost use Rattle.mpslp_conversions.specs.Conversions.{IsConversion, IsComparison, IsTestOfText, IsErrUnless};
ghost use Rattle.mpslp_write.specs.ByForm.{declares_in, first_fault_in, unfit_in, text_in};
ghost use Rattle.mpslp_c.specs.Answers.{format_of};

use mpslp_conversions::{ConvertFault, canonical_seeded, is_canonical_seeded, same_model_seeded};
use mpslp_model::HashSeed;
use mpslp_types::Form;
use mpslp_write::{Lp, Mps};
use std::alloc::Global;

/// The format of a number.
pub(crate) fn format_of(number: u32) -> Option<Form>
    ensures { result ≡ format_of number }
{
    match number {
        0 => Some(Form::Mps),
        1 => Some(Form::Lp),
        _ => None,
    }
}

/// The canonical text of the model that the bytes declare.
pub(crate) fn canonical_for_c(
    alloc: Global,
    seed: HashSeed,
    from: Form,
    to: Form,
    bytes: &[u8],
) -> Result<Vec<u8>, ConvertFault>
    ensures answer { IsConversion (declares_in from) (first_fault_in from) (unfit_in to) (text_in to) bytes.now result }
    ensures accepts { (m : LinearModel) → declares_in from bytes.now m → unfit_in to m ≡ None
        → IsOkUnless result ConvertFault.OutOfMemory }
    ensures refuses { (fault : Fault) → first_fault_in from bytes.now fault
        → IsErrUnless result (ConvertFault.First fault) ConvertFault.OutOfMemory }
    ensures cannot_express { (m : LinearModel) (place : NameAt) → declares_in from bytes.now m → unfit_in to m ≡ Some place
        → IsErrUnless result (ConvertFault.NotLp place) ConvertFault.OutOfMemory }
{
    match (from, to) {
        (Form::Mps, Form::Mps) => canonical_seeded::<Mps, Mps>(alloc, seed, bytes),
        (Form::Mps, Form::Lp) => canonical_seeded::<Mps, Lp>(alloc, seed, bytes),
        (Form::Lp, Form::Mps) => canonical_seeded::<Lp, Mps>(alloc, seed, bytes),
        (Form::Lp, Form::Lp) => canonical_seeded::<Lp, Lp>(alloc, seed, bytes),
    }
}

/// Whether two texts declare the same model.
pub(crate) fn same_for_c(
    alloc: Global,
    seed: HashSeed,
    first_file_format: Form,
    first: &[u8],
    second_file_format: Form,
    second: &[u8],
) -> Result<bool, ConvertFault>
    ensures answer { IsComparison (declares_in first_file_format) (first_fault_in first_file_format)
        (declares_in second_file_format) (first_fault_in second_file_format) first.now second.now result }
    ensures accepts { (m n : LinearModel) → declares_in first_file_format first.now m → declares_in second_file_format second.now n
        → IsOkUnless result ConvertFault.OutOfMemory }
    ensures refuses { (fault : Fault) → first_fault_in first_file_format first.now fault
        → IsErrUnless result (ConvertFault.First fault) ConvertFault.OutOfMemory }
    ensures refuses_second { (m : LinearModel) (fault : Fault) → declares_in first_file_format first.now m → first_fault_in second_file_format second.now fault
        → IsErrUnless result (ConvertFault.Second fault) ConvertFault.OutOfMemory }
{
    match (first_file_format, second_file_format) {
        (Form::Mps, Form::Mps) => same_model_seeded::<Mps, Mps>(alloc, seed, first, second),
        (Form::Mps, Form::Lp) => same_model_seeded::<Mps, Lp>(alloc, seed, first, second),
        (Form::Lp, Form::Mps) => same_model_seeded::<Lp, Mps>(alloc, seed, first, second),
        (Form::Lp, Form::Lp) => same_model_seeded::<Lp, Lp>(alloc, seed, first, second),
    }
}

/// Whether the bytes are the canonical text of the model that they declare.
pub(crate) fn is_canonical_for_c(
    alloc: Global,
    seed: HashSeed,
    file_format: Form,
    bytes: &[u8],
) -> Result<bool, ConvertFault>
    ensures answer { IsTestOfText (declares_in file_format) (first_fault_in file_format) (text_in file_format) bytes.now result }
    ensures accepts { (m : LinearModel) → declares_in file_format bytes.now m → IsOkUnless result ConvertFault.OutOfMemory }
    ensures refuses { (fault : Fault) → first_fault_in file_format bytes.now fault
        → IsErrUnless result (ConvertFault.First fault) ConvertFault.OutOfMemory }
{
    match file_format {
        Form::Mps => is_canonical_seeded::<Mps>(alloc, seed, bytes),
        Form::Lp => is_canonical_seeded::<Lp>(alloc, seed, bytes),
    }
}
