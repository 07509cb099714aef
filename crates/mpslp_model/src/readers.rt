//! Readers that take a text in pieces.

ghost use Rattle.std.specs.Prelude.{◌≡◌, ◌++◌, ◌↔◌, ℕ, [], List, Bool, true, false, IsErr, IsErrOf};
ghost use Rattle.mpslp_model_core.specs.Model.{LinearModel};
ghost use Rattle.mpslp_model.specs.Formats.{IsAnswerTo};
ghost use Rattle.mpslp_model.specs.Readers.{IsFedBy};
ghost use Rattle.mpslp_types.specs.declared.faults.Fault.{Fault};

use mpslp_model_core::Model;
use mpslp_types::{FIXED_SEED, HashSeed, ReadFault};
use std::alloc::Global;

/// A reader that takes the bytes of a text in pieces of any length, and does not keep bytes that it has read. How the text is
/// cut does not matter: contracts only refer to all bytes that the reader was given.
pub trait ModelReader: Drop {
    /// The reader was given these bytes in pieces, and rejected none of them.
    ghost after: { Self → List ℕ → Type 0 };

    /// The reader has rejected a piece.
    ghost refused: { Self → Bool };

    /// The bytes declare the model.
    ghost declares: { List ℕ → LinearModel → Type 0 };

    /// This is the first error of the bytes.
    ghost first_fault: { List ℕ → Fault → Type 0 };

    /// The complete lines of these bytes have an error, and this is the first one.
    ghost early_fault: { List ℕ → Fault → Type 0 };

    /// A reader without input. Allocates nothing.
    fn new(alloc: Global) -> Self
    where
        Self: Sized,
        ensures { after result [] }
    {
        Self::new_seeded(alloc, FIXED_SEED)
    }

    /// As [`new`](ModelReader::new), with a seed for the hashes of names. Only the time of the reader's calls depends on the seed.
    fn new_seeded(alloc: Global, seed: HashSeed) -> Self
        ensures { after result [] };

    /// Reads the next piece of the text.
    ///
    /// # Errors
    ///
    /// `File` with the first error of the complete lines so far, at the piece that completes the line; `OutOfMemory` if an
    /// allocation fails; `Failed` if an earlier piece was rejected, for any reason. After an error, all later calls return
    /// `Failed`.
    fn feed(&mut self, piece: &[u8]) -> Result<(), ReadFault>
        ensures answer { IsFedBy after early_fault refused self.old piece.now self.new result }
        ensures failed { refused self.old ≡ true → IsErrOf result ReadFault.Failed }
        ensures refuses { IsErr result ↔ (refused self.new ≡ true) };

    /// Returns the model that all pieces together declare.
    ///
    /// # Errors
    ///
    /// `File` with the first error of all pieces together; `OutOfMemory` if an allocation fails; `Failed` if and only if a piece
    /// was rejected.
    fn finish(self) -> Result<Model, ReadFault>
        ensures answer { (bytes : List ℕ) → after self bytes → IsAnswerTo declares first_fault bytes result }
        ensures failed { IsErrOf result ReadFault.Failed ↔ (refused self ≡ true) };

    /// Returns the same as [`finish`](ModelReader::finish), but a model without lists by rows. Use it for a model that is
    /// compared, read by columns or written as MPS, or that [`Format::prepare`](crate::Format::prepare) prepares.
    ///
    /// # Errors
    ///
    /// As [`finish`](ModelReader::finish).
    fn finish_by_columns(self) -> Result<Model, ReadFault>
        ensures answer { (bytes : List ℕ) → after self bytes → IsAnswerTo declares first_fault bytes result }
        ensures failed { IsErrOf result ReadFault.Failed ↔ (refused self ≡ true) };

    /// A reader that was given these bytes has rejected no piece.
    ghost after_works: { (r : Self) (bytes : List ℕ) → after r bytes → refused r ≡ false };

    /// The complete lines of the bytes that a reader accepted have no error.
    ghost after_is_clean: { (r : Self) (bytes : List ℕ) (fault : Fault) → after r bytes → early_fault bytes fault → ⊥ };

    /// The first error of the complete lines is that of the whole text, whatever follows.
    ghost early_is_first: { (bytes more : List ℕ) (fault : Fault) → early_fault bytes fault → first_fault (bytes ++ more) fault };
}

/// Returns the model that a whole text declares, or its first error. The text is read as one piece. Only the time of the call
/// depends on the seed.
///
/// # Errors
///
/// `File` with the first error; `OutOfMemory` if an allocation fails. Never `Failed`.
pub fn read_whole_seeded<P: ModelReader>(
    alloc: Global,
    seed: HashSeed,
    bytes: &[u8],
) -> Result<Model, ReadFault>
    ensures { IsAnswerTo P.declares P.first_fault bytes.now result }
{
    let mut reader = P::new_seeded(alloc, seed);
    reader.feed(bytes)?;
    reader.finish()
}
