// The entries kept for a signature, which is put together from its end.
ghost use Rattle.std.specs.Prelude.{◌≤◌, ◌<◌, ◌≡◌, [], ◌∷◌, length};
ghost use Rattle.chooser.specs.Matrix.{max_signature};

use crate::MAX_SIGNATURE;
use std::marker::Model;

// They stand at the end of an array, from a start on, since the last one kept comes first. Memory is fixed.
#[derive(Drop)]
pub(crate) struct Kept {
    entries: [u16; MAX_SIGNATURE],
    start: usize,
}

impl Model for Kept {
    ghost use Rattle.std.specs.Prelude.{ℕ, ◌≤◌, List, drop};
    ghost use Rattle.chooser.specs.declared.TheConstants.{MAX_SIGNATURE};

    ghost Value = { List ℕ };

    ghost view = { λ k. drop k.start k.entries };

    ghost invariant = { λ k. k.start ≤ MAX_SIGNATURE };
}

impl Kept {
    pub(crate) fn new() -> Self
        ensures { result ≡ [] }
    {
        Kept {
            entries: [0u16; MAX_SIGNATURE],
            start: MAX_SIGNATURE,
        }
    }

    // Puts an entry before the others.
    pub(crate) fn push(&mut self, entry: u16)
        requires { length self.old < max_signature }
        ensures { self.new ≡ entry ∷ self.old }
    {
        self.start -= 1;
        self.entries[self.start] = entry;
    }

    pub(crate) fn as_slice(&self) -> &[u16]
        ensures { (result.now ≡ self.now) × (length self.now ≤ max_signature) }
    {
        &self.entries[self.start..]
    }
}
