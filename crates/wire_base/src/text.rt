//! Texts, and the ids of requests.

ghost use Rattle.std.specs.Prelude.{◌≡◌, ◌↔◌, ◌==◌, IfOk, OnOk, IsErrOf, IsUtf8, true, false};
ghost use Rattle.std.specs.Str.{is_utf8};

use crate::out_of_memory::OutOfMemory;
use std::alloc::Global;
use std::marker::Model;
use std::str;

/// Why bytes are made no text.
#[derive(Clone, Copy, Debug, PartialEq, Eq, thiserror::Error)]
pub enum TextFault {
    #[error("the bytes are not UTF-8")]
    BadUtf8,
    #[error("out of memory")]
    OutOfMemory,
}

/// A text, seen by contracts as its UTF-8 bytes.
#[derive(Debug, Drop)]
pub struct Text {
    inner: String,
}

impl Model for Text {
    ghost use Rattle.std.specs.Prelude.{List, ℕ, string_bytes};

    ghost Value = { List ℕ };

    ghost view = { λ t. string_bytes t.inner };
}

impl Text {
    /// Copies the text.
    pub fn from_str(alloc: Global, s: &str) -> Result<Text, OutOfMemory>
        ensures { IfOk result (λ t. t ≡ s.now) }
    {
        let inner = String::from_str(alloc, s)?;
        Ok(Text { inner })
    }

    /// Copies bytes that are UTF-8.
    #[tactic(auto, using(crate::proofs::Utf8::tests))]
    pub fn from_utf8(alloc: Global, bytes: &[u8]) -> Result<Text, TextFault>
        ensures ok { IfOk result (λ t. t ≡ bytes.now) }
        ensures good { OnOk result (is_utf8 bytes.now ≡ true) }
        ensures bad { IsErrOf result TextFault.BadUtf8 ↔ (is_utf8 bytes.now ≡ false) }
    {
        match str::from_utf8(bytes) {
            Ok(s) => match Text::from_str(alloc, s) {
                Ok(t) => Ok(t),
                Err(_) => Err(TextFault::OutOfMemory),
            },
            Err(_) => Err(TextFault::BadUtf8),
        }
    }

    /// The text, without a copy.
    pub fn as_str(&self) -> &str
        ensures value { result.now ≡ self.now }
        ensures utf8 { IsUtf8 self.now }
    {
        self.inner.as_str()
    }

    /// An equal value of its own.
    pub fn copy(&self, alloc: Global) -> Result<Text, OutOfMemory>
        ensures { IfOk result (λ t. t ≡ self.now) }
    {
        Text::from_str(alloc, self.as_str())
    }
}

impl PartialEq for Text {
    ghost use Rattle.std.specs.Str.{bytes_eq};
    ghost use Rattle.std.specs.Cmp.{partial_equiv_from_equiv};
    ghost use Rattle.std.specs.Cmp.Lexicographic.{nat_list_eq_equiv};

    ghost eq = { bytes_eq };

    ghost laws = { partial_equiv_from_equiv nat_list_eq_equiv };

    fn eq(&self, other: &Self) -> bool {
        self.as_str() == other.as_str()
    }
}

/// What names a request: a number or a text.
#[derive(Debug, Drop, PartialEq)]
pub enum Id {
    Number(i64),
    Name(Text),
}

impl Id {
    /// An equal value of its own.
    pub fn copy(&self, alloc: Global) -> Result<Id, OutOfMemory>
        ensures { IfOk result (λ id. id ≡ self.now) }
    {
        match self {
            Id::Number(n) => Ok(Id::Number(*n)),
            Id::Name(name) => Ok(Id::Name(name.copy(alloc)?)),
        }
    }
}
