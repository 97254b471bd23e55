// A matrix of numbers that stands row after row in lent memory.
ghost use Rattle.std.specs.Prelude.{suc, ◌*◌, ◌≤◌, ◌<◌, ◌≡◌, length};
ghost use Rattle.chooser.specs.Matrix.{cell};

#[derive(Clone, Copy)]
pub(crate) struct Matrix<'a> {
    pub work: &'a [u16],
    pub width: usize,
}

impl<'a> Matrix<'a> {
    // The number of a row at an entry.
    pub(crate) fn cell(self, row: usize, entry: usize) -> u16
        requires { (suc row * self.width ≤ length self.work.now) × (entry < self.width) }
        ensures { result ≡ cell self.entry.work.now self.entry.width row entry }
    {
        self.work[row * self.width + entry]
    }
}
