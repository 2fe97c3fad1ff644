//! Whole numbers of 64 bits, signed or not.

ghost use Rattle.wire_base.specs.Whole.{IsWhole};
ghost use Rattle.std.specs.Prelude.{◌≡◌, ◌↔◌, IfSome, IsNone};

use std::marker::Model;

/// A number from -2^63 to 2^64-1.
#[derive(Clone, Copy, Debug, PartialEq, Eq)]
pub struct Whole {
    inner: i128,
}

impl Model for Whole {
    ghost use Rattle.std.specs.Prelude.{ℤ};
    ghost use Rattle.wire_base.specs.Whole.{IsWhole};
    ghost use Rattle.std.specs.Coded.{coded_ℤ};

    ghost Value = { ℤ };

    ghost coded = { coded_ℤ };

    ghost view = { λ w. w.inner };

    ghost invariant = { λ w. IsWhole w.inner };

    ghost inverse = { λ z. record { inner = z } };
}

impl Whole {
    /// The number, if it is in range.
    pub fn new(n: i128) -> Option<Whole>
        ensures some { IfSome result (λ w. w ≡ n) }
        ensures none { IsNone result ↔ ¬ (IsWhole n) }
    {
        if -9_223_372_036_854_775_808 <= n && n < 18_446_744_073_709_551_616 {
            Some(Whole { inner: n })
        } else {
            None
        }
    }

    /// The number.
    pub fn get(&self) -> i128
        ensures value { result ≡ self.now }
        ensures range { IsWhole self.now }
    {
        self.inner
    }
}

impl Whole {
    ghost use Rattle.std.specs.Prelude.{◌≡◌, pos};

    /// A number that isn't negative, which is always in range.
    pub fn from_u64(n: u64) -> Whole
        ensures { result ≡ pos n }
    {
        Whole { inner: n as i128 }
    }

    /// A signed number, which is always in range.
    pub fn from_i64(n: i64) -> Whole
        ensures { result ≡ n }
    {
        Whole { inner: n as i128 }
    }
}
