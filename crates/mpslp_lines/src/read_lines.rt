//! The trait of line readers.

ghost use Rattle.std.specs.Prelude.{◌≡◌, ◌∷◌, ◌++◌, ℕ, List, [], Bool, true, false};
ghost use Rattle.std.specs.Str.Lines.{lines};
ghost use Rattle.mpslp_model_core.specs.Model.{LinearModel};
ghost use Rattle.mpslp_types.specs.declared.faults.Fault.{Fault};
ghost use Rattle.mpslp_model.specs.Formats.{IsAnswerTo};
ghost use Rattle.mpslp_lines.specs.FaultTests.{has_legal_length};
ghost use Rattle.mpslp_lines.specs.LinesRead.{IsReader, RefusesLines, ReadsNext, ReadsOn};

use crate::errors::{NumberedError, read_fault};
use crate::line_ends::first_line;
use mpslp_model::{HashSeed, Model, ReadFault};
use std::alloc::Global;

/// Reads the lines of a text one after another, up to the one that ends it, and keeps none of them. After an error the
/// reader must not be used.
pub trait ReadLines: Drop {
    /// These lines were read from the first on, up to the one that ends the text, and none of them has an error.
    ghost has_read: { Self → List (List ℕ) → Type 0 };

    /// The line that ends the text was read. Lines after it are ignored.
    ghost at_end: { Self → Bool };

    /// If a text begins with these lines, its first error is on one of them.
    ghost lines_fault: { List (List ℕ) → Fault → Type 0 };

    /// The bytes declare the model.
    ghost declares: { List ℕ → LinearModel → Type 0 };

    /// This is the first error of the bytes.
    ghost first_fault: { List ℕ → Fault → Type 0 };

    /// A reader that has read nothing. Does not allocate.
    fn new(alloc: Global, seed: HashSeed) -> Self
        ensures { has_read result [] };

    /// Whether the line that ends the text was read.
    fn is_at_end(&self) -> bool
        ensures { result ≡ at_end self.now };

    /// The error for the next line if it is too long.
    fn refuse_long(&self) -> ReadFault
        requires unended { at_end self.now ≡ false }
        ensures { (line : List ℕ) → has_legal_length line ≡ false → RefusesLines has_read lines_fault self.now (line ∷ []) result };

    /// Reads the next line.
    ///
    /// # Errors
    ///
    /// The error of the line with its number; that an allocation failed.
    fn read_line(&mut self, line: &[u8]) -> Result<(), NumberedError>
        requires reader { IsReader has_read self.old }
        requires unended { at_end self.old ≡ false }
        ensures { ReadsNext has_read lines_fault self.old line.now self.new result };

    /// The model that the text declares, after all its lines were read. It has no lists by rows.
    ///
    /// # Errors
    ///
    /// `File` with the error of the whole file; `OutOfMemory` if an allocation fails.
    fn finish(self) -> Result<Model, ReadFault>
        requires { IsReader has_read self }
        ensures { (bytes : List ℕ) → has_read self (lines bytes) → IsAnswerTo declares first_fault bytes result };

    /// Lines after the one that ends the text change nothing.
    ghost after_end: { (reader : Self) (text more : List (List ℕ)) → has_read reader text → at_end reader ≡ true → has_read reader (text ++ more) };

    /// Lines that were read have no error.
    ghost read_is_clean: { (reader : Self) (text : List (List ℕ)) (fault : Fault) → has_read reader text → lines_fault text fault → ⊥ };

    /// The error of some lines is that of more lines.
    ghost fault_stays: { (text more : List (List ℕ)) (fault : Fault) → lines_fault text fault → lines_fault (text ++ more) fault };

    /// The error of the lines is the first error of the text.
    ghost fault_is_first: { (bytes : List ℕ) (fault : Fault) → lines_fault (lines bytes) fault → first_fault bytes fault };
}

/// Reads the next line of a text.
#[inline(always)]
pub(crate) fn read_one<L: ReadLines>(reader: &mut L, line: &[u8]) -> Result<(), ReadFault>
    requires reader { IsReader L.has_read reader.old }
    requires unended { L.at_end reader.old ≡ false }
    ensures { ReadsOn L.has_read L.lines_fault reader.old (line.now ∷ []) reader.new result }
{
    match reader.read_line(line) {
        Ok(()) => Ok(()),
        Err(numbered) => Err(read_fault(numbered.line, numbered.error)),
    }
}

/// Reads the lines of the next part of a text, up to the one that ends the text.
///
/// It does not call [`read_one`], whose result would be cleared and copied for each line.
pub(crate) fn read_lines<L: ReadLines>(reader: &mut L, part: &[u8]) -> Result<(), ReadFault>
    requires reader { IsReader L.has_read reader.old }
    requires unended { L.at_end reader.old ≡ false }
    ensures { ReadsOn L.has_read L.lines_fault reader.old (lines part.now) reader.new result }
{
    let mut rest = part;
    while let Some((line, more)) = first_line(rest) {
        match reader.read_line(line) {
            Ok(()) => {}
            Err(numbered) => return Err(read_fault(numbered.line, numbered.error)),
        }
        if reader.is_at_end() {
            return Ok(());
        }
        rest = more;
    }
    Ok(())
}
