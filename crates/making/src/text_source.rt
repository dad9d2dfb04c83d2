//! A text that is read from memory.

ghost use Rattle.std.specs.Prelude.{◌≡◌, ◌≤◌, List, ℕ, Some, drop, vec_len};

use bt_base::{PortFault, Source};
use std::marker::Model;

/// A source over a text in memory, which tells what is left of it. It never fails, and never finds no memory.
#[derive(Drop)]
pub(crate) struct TextSource {
    text: Vec<u8>,
    at: usize,
}

impl Model for TextSource {
    ghost Value = { List ℕ };

    ghost view = { λ source. drop source.at source.text.items };

    ghost invariant = { λ source. source.at ≤ vec_len source.text };
}

impl TextSource {
    /// A source of that text, of which nothing was read.
    pub(crate) fn new(text: Vec<u8>) -> TextSource
        ensures { result ≡ text.items }
    {
        TextSource { text, at: 0 }
    }
}

impl Source for TextSource {
    ghost content = { λ source. Some source };

    ghost faults = { λ source. 0 };

    ghost shortages = { λ source. 0 };

    fn read(&mut self, into: &mut [u8]) -> Result<usize, PortFault> {
        let left = &self.text[self.at..];
        let n = into.len().min(left.len());
        into[..n].copy_from_slice(&left[..n]);
        self.at += n;
        Ok(n)
    }
}
