//! The bytes that a terminal answers.

ghost use Rattle.std.specs.Prelude.{◌≡◌, ◌≤◌, ◌<◌, ◌+◌, ◌==◌, [], ◌∷◌, ◌++◌, length};

use crate::state::REPORT_BYTES;
use std::marker::Model;

/// A report: at most 24 bytes.
#[derive(Drop)]
pub struct Report {
    bytes: [u8; REPORT_BYTES],
    count: usize,
}

impl Model for Report {
    ghost use Rattle.std.specs.Prelude.{◌≤◌, ℕ, List, take};

    ghost Value = { List ℕ };

    ghost view = { λ report. take report.count report.bytes };

    ghost invariant = { λ report. report.count ≤ 24 };
}

impl Report {
    /// The empty report.
    pub fn none() -> Report
        ensures { result ≡ [] }
    {
        Report {
            bytes: [0; REPORT_BYTES],
            count: 0,
        }
    }

    /// The number of bytes.
    pub fn len(&self) -> usize
        ensures { result ≡ length self.now }
    {
        self.as_slice().len()
    }

    /// Whether the report is empty.
    pub fn is_empty(&self) -> bool
        ensures { result ≡ (length self.now == 0) }
    {
        self.count == 0
    }

    /// The bytes, in their order.
    pub fn as_slice(&self) -> &[u8]
        ensures items { result.now ≡ self.now }
        ensures few { length result.now ≤ 24 }
    {
        &self.bytes[..self.count]
    }

    /// Appends a byte. The report must have room for it.
    pub fn push(&mut self, byte: u8)
        requires { length self.old < 24 }
        ensures { self.new ≡ self.old ++ byte ∷ [] }
    {
        self.bytes[self.count] = byte;
        self.count += 1;
    }

    /// Appends bytes. The report must have room for them.
    pub fn extend(&mut self, bytes: &[u8])
        requires { length self.old + length bytes.now ≤ 24 }
        ensures { self.new ≡ self.old ++ bytes.now }
    {
        for &byte in bytes {
            self.push(byte);
        }
    }
}
