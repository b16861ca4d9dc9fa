//! A source that keeps what it gives.
ghost use Rattle.std.specs.Prelude.{◌≡◌, MatchOption, true};

use slee_disk::{Failed, Source};
use std::alloc::Global;

/// A source that keeps what it gives, as long as memory is found for it.
#[derive(Drop)]
pub struct KeepingSource<S: Source> {
    source: S,
    given: Vec<u8>,
    is_lost: bool,
}

impl<S: Source> KeepingSource<S> {
    pub fn new(alloc: Global, source: S) -> Self
        ensures { result.source ≡ source }
    {
        KeepingSource {
            source,
            given: Vec::new(alloc),
            is_lost: false,
        }
    }

    /// All that it has given, unless memory ran out.
    pub fn given(&self) -> Option<&[u8]>
        ensures { MatchOption result (self.now.is_lost ≡ true) (λ bytes. bytes.now ≡ self.now.given.items) }
    {
        if self.is_lost {
            None
        } else {
            Some(&self.given)
        }
    }
}

impl<S: Source> Source for KeepingSource<S> {
    ghost left = { λ s. S.left s.source };

    ghost faults = { λ s. S.faults s.source };

    fn read(&mut self, into: &mut [u8]) -> Result<usize, Failed> {
        match self.source.read(into) {
            Ok(count) => {
                if self.given.extend_from_slice(&into[..count]).is_err() {
                    self.is_lost = true;
                }
                Ok(count)
            }
            Err(Failed) => Err(Failed),
        }
    }
}
