//! How many bytes were scanned.
ghost use Rattle.std.specs.Prelude.{◌≡◌, ◌+◌, ◌^◌, ◌-◌, min};

use std::marker::Model;

/// Counts the bytes scanned, and stops at the greatest `u64`.
#[derive(Debug, Drop)]
pub struct Meter {
    scanned: u64,
}

impl Model for Meter {
    ghost use Rattle.std.specs.Prelude.{ℕ};

    ghost Value = { ℕ };

    ghost view = { λ m. m.scanned };
}

impl Meter {
    /// A meter that reads 0.
    pub fn new() -> Meter
        ensures { result ≡ 0 }
    {
        Meter { scanned: 0 }
    }

    /// The bytes counted so far.
    pub fn read(&self) -> u64
        ensures { result ≡ self.now }
    {
        self.scanned
    }

    pub(crate) fn add(&mut self, bytes: u64)
        ensures { self.new ≡ min (self.old + bytes) (2 ^ 64 - 1) }
    {
        self.scanned = self.scanned.saturating_add(bytes);
    }
}
