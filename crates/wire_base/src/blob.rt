//! Bytes as a value or a frame holds them.

ghost use Rattle.std.specs.Prelude.{◌≡◌, IfOk};

use crate::out_of_memory::OutOfMemory;
use std::alloc::Global;
use std::marker::Model;

/// Bytes that a value or a frame holds, seen by contracts as their list.
#[derive(Debug, Drop)]
pub struct Blob {
    inner: Vec<u8>,
}

impl Model for Blob {
    ghost use Rattle.std.specs.Prelude.{List, ℕ};

    ghost Value = { List ℕ };

    ghost view = { λ b. b.inner.items };
}

impl Blob {
    /// Copies the bytes.
    pub fn from_bytes(alloc: Global, bytes: &[u8]) -> Result<Blob, OutOfMemory>
        ensures { IfOk result (λ b. b ≡ bytes.now) }
    {
        let inner = Vec::from_slice(alloc, bytes)?;
        Ok(Blob { inner })
    }

    /// The bytes, without a copy.
    pub fn as_bytes(&self) -> &[u8]
        ensures { result.now ≡ self.now }
    {
        self.inner.as_slice()
    }

    /// An equal value of its own.
    pub fn copy(&self, alloc: Global) -> Result<Blob, OutOfMemory>
        ensures { IfOk result (λ b. b ≡ self.now) }
    {
        Blob::from_bytes(alloc, self.as_bytes())
    }
}

impl PartialEq for Blob {
    ghost use Rattle.std.specs.Str.{bytes_eq};
    ghost use Rattle.std.specs.Cmp.{partial_equiv_from_equiv};
    ghost use Rattle.std.specs.Cmp.Lexicographic.{nat_list_eq_equiv};

    ghost eq = { bytes_eq };

    ghost laws = { partial_equiv_from_equiv nat_list_eq_equiv };

    fn eq(&self, other: &Self) -> bool {
        self.as_bytes() == other.as_bytes()
    }
}
