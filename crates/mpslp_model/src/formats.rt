//! Formats of model files.

ghost use Rattle.std.specs.Prelude.{◌≡◌, ℕ, ◌+◌, ◌≤◌, ◌↔◌, List, true, false, Option, None, length, IfOk, IsOk, IsTrue};
ghost use Rattle.mpslp_model_core.specs.Model.{LinearModel, IsSound};
ghost use Rattle.mpslp_model.specs.Formats.{IsAnswerTo, IsWritten};
ghost use Rattle.mpslp_types.specs.declared.faults.Fault.{Fault};
ghost use Rattle.mpslp_types.specs.declared.faults.NameAt.{NameAt};

use crate::readers::ModelReader;
use mpslp_io::Sink;
use mpslp_model_core::Model;
use mpslp_types::{FIXED_SEED, HashSeed, ReadFault, WriteFault};
use std::alloc::{AllocError, Global};

/// A format of model files: how its bytes are read, how a model is written, and the laws that connect both. What is proved
/// from this trait holds for every format.
pub trait Format {
    /// The bytes declare the model.
    ghost declares: { List ℕ → LinearModel → Type 0 };

    /// This is the first error of the bytes.
    ghost first_fault: { List ℕ → Fault → Type 0 };

    /// The canonical text of a model.
    ghost text: { LinearModel → List ℕ };

    /// The first name of a model that is not legal in the format, if there is one.
    ghost unfit: { LinearModel → Option NameAt };

    /// The reader that takes a text in pieces.
    type Reader: ModelReader;

    /// Returns the model that the bytes declare.
    ///
    /// # Errors
    ///
    /// `File` with the first error of bytes that declare no model; `OutOfMemory`. Never [`Failed`](ReadFault::Failed).
    fn read(alloc: Global, bytes: &[u8]) -> Result<Model, ReadFault>
        ensures { IsAnswerTo declares first_fault bytes.now result }
    {
        Self::read_seeded(alloc, FIXED_SEED, bytes)
    }

    /// As [`read`](Format::read), with a seed for the hashes of names. Only the time of the call depends on the seed.
    fn read_seeded(alloc: Global, seed: HashSeed, bytes: &[u8]) -> Result<Model, ReadFault>
        ensures { IsAnswerTo declares first_fault bytes.now result };

    /// Whether all names of the model are legal in the format.
    fn expressible(model: &Model) -> bool
        ensures { IsTrue result ↔ (unfit model.now ≡ None) };

    /// Returns the same model, with the lists that [`write`](Format::write) uses to take time proportional to the model. A model
    /// that was read by [`read`](Format::read), or finished by [`finish`](ModelReader::finish), has them.
    ///
    /// # Errors
    ///
    /// [`AllocError`] if there is no memory for them.
    fn prepare(alloc: Global, model: Model) -> Result<Model, AllocError>
        ensures { IfOk result (λ prepared. prepared ≡ model) };

    /// Writes the canonical text of the model to the sink. Makes at most as many calls as the text has bytes, does not flush and
    /// allocates nothing.
    ///
    /// # Errors
    ///
    /// [`NotLp`](WriteFault::NotLp) with the first name that is not legal in the format; the sink is then not called.
    /// [`Write`](WriteFault::Write) if the sink has failed when the call ends; it has then taken only the reported number of
    /// bytes from the start of the text.
    fn write<W: Sink>(model: &Model, sink: &mut W) -> Result<(), WriteFault>
        ensures answer { IsWritten unfit text W.holds W.failed model.now sink.old sink.new result }
        ensures succeeds { unfit model.now ≡ None → W.failed sink.new ≡ false → IsOk result }
        ensures works { IsOk result → W.failed sink.new ≡ false }
        ensures calls { W.count sink.new ≤ W.count sink.old + length (text model.now) }
        ensures stays { W.failed sink.old ≡ true → W.failed sink.new ≡ true };

    /// The text of a well-formed model whose names are legal in the format declares this model.
    ghost text_declares: { (m : LinearModel) → IsSound m → unfit m ≡ None → declares (text m) m };

    /// No bytes declare two different models.
    ghost one_model: { (bytes : List ℕ) (m n : LinearModel) → declares bytes m → declares bytes n → m ≡ n };

    /// A model that bytes declare is well-formed, and its names are legal in the format.
    ghost declared_sound: { (bytes : List ℕ) (m : LinearModel) → declares bytes m → IsSound m × (unfit m ≡ None) };

    /// Bytes that declare a model have no error.
    ghost no_fault: { (bytes : List ℕ) (m : LinearModel) (fault : Fault) → declares bytes m → first_fault bytes fault → ⊥ };

    /// No bytes have two different first errors.
    ghost one_fault: { (bytes : List ℕ) (fault other : Fault) → first_fault bytes fault → first_fault bytes other → fault ≡ other };

    /// Bytes that declare a model by the definition of the reader declare it by that of the format.
    ghost reader_declares: { (bytes : List ℕ) (m : LinearModel) → Self.Reader.declares bytes m → declares bytes m };

    /// An error that is the first by the definition of the reader is the first by that of the format.
    ghost reader_faults: { (bytes : List ℕ) (fault : Fault) → Self.Reader.first_fault bytes fault → first_fault bytes fault };
}
