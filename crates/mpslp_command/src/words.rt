//! A text that a job owns.

ghost use Rattle.std.specs.Prelude.{◌≡◌, IfOk, IfErr, string_bytes};

use crate::jobs::JobFault;
use std::alloc::Global;
use std::marker::Model;

/// An argument of the command line, or a text to print. Contracts see its bytes.
#[derive(Debug, Drop)]
pub struct Word {
    text: String,
}

impl Model for Word {
    ghost use Rattle.std.specs.Prelude.{List, ℕ, string_bytes};

    ghost Value = { List ℕ };

    ghost view = { λ word. string_bytes word.text };
}

impl Word {
    /// A copy of this text.
    ///
    /// # Errors
    ///
    /// Only [`OutOfMemory`](JobFault::OutOfMemory), if an allocation fails.
    pub fn new(alloc: Global, text: &str) -> Result<Word, JobFault>
        ensures text { IfOk result (λ word. word ≡ text.now) }
        ensures memory { IfErr result (λ fault. fault ≡ JobFault.OutOfMemory) }
    {
        match String::from_str(alloc, text) {
            Ok(text) => Ok(Word { text }),
            Err(_) => Err(JobFault::OutOfMemory),
        }
    }

    /// Takes over this text. Does not allocate.
    pub fn of(own: String) -> Word
        ensures { result ≡ string_bytes own }
    {
        Word { text: own }
    }

    /// The text. Does not allocate.
    pub fn as_str(&self) -> &str
        ensures { result.now ≡ self.now }
    {
        self.text.as_str()
    }
}
