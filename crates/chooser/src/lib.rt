// The method of choosing (document 01, "Choosing"): the few entries of a matrix of numbers that tell its rows apart.
// The matrix stands row after row in lent memory; each row has a mark, and two rows are to be told apart where their
// marks differ.
//
// The state is the method's own: the pairs of rows that are not told apart yet (pairs.rt). One recursion looks at the
// entries in order. On the way down an entry is taken if it tells a pair apart, and narrows the pairs. On the way up it
// is dropped if the pairs left by those before it and the pairs left by those kept behind it have none in common. So no
// list of entries taken is kept, and the signature is put together from its end (kept.rt). It has fewer entries than
// there are rows, which is why there is always room for one more.
#![tactic(auto)]

ghost use Rattle.std.specs.Prelude.{◌≤◌, ◌<◌, ◌≡◌, true, [], All, length};
ghost use Rattle.method.specs.Method.{agree};
ghost use Rattle.chooser.specs.Matrix.{max_signature, fits, choice, signature_of};
ghost use Rattle.chooser.specs.Pairing.{numbers, pair_of, There, Leaves, keeps};

mod kept;
mod matrix;
mod pairs;

use kept::Kept;
use matrix::Matrix;
use pairs::Pairs;

// As many rows as a job has circuits.
pub const MAX_ROWS: usize = 64;

// The method takes fewer entries than there are rows.
pub const MAX_SIGNATURE: usize = 63;

// Entries in the order of taking. An array with a count, as the definition (`signature_of`) has it: 0s past the count.
#[derive(Clone, Copy, Debug, PartialEq, Eq)]
pub struct Signature {
    pub count: usize,
    pub entries: [u16; MAX_SIGNATURE],
}

impl Signature {
    fn of(kept: &[u16]) -> Self
        requires { length kept.now ≤ max_signature }
        ensures { result ≡ signature_of kept.now }
    {
        let mut entries = [0u16; MAX_SIGNATURE];
        let count = kept.len();
        entries[..count].copy_from_slice(kept);
        Signature { count, entries }
    }
}

// Why there is no signature: the first two rows that should be told apart and are not, or the lent memory is no such matrix.
#[derive(Clone, Copy, Debug, PartialEq, Eq)]
pub enum Untold {
    Pair(usize, usize),
    NoMatrix,
}

// Whether there are so many rows of so many numbers, and every entry lies within a row.
#[tactic(auto, unfolding(crate::specs::Matrix::fits, crate::specs::Matrix::max_rows))]
fn fitting(work: &[u16], width: usize, rows: usize, scan: &[u16]) -> bool
    ensures { result ≡ fits work.now width rows scan.now }
{
    if rows < 1 || MAX_ROWS < rows || width < 1 {
        return false;
    }
    rows <= work.len() / width && bits::all_below(scan, width)
}

// Takes on the way down and drops on the way up: the pairs are those that the entries taken so far leave, the rest those that the entries kept behind leave.
fn choose_from(matrix: Matrix, scan: &[u16], pairs: &Pairs, rest: &mut Pairs, kept: &mut Kept)
    requires there { There matrix pairs.now }
    requires rest_there { There matrix rest.old }
    requires within { All (λ e. e < matrix.width) scan.now }
    requires none { kept.old ≡ [] }
    ensures kept { kept.new ≡ keeps (numbers matrix.entry) (pair_of pairs.now) (pair_of rest.old) scan.now }
    ensures left { Leaves rest.old (agree (numbers matrix.entry) kept.new) rest.new }
{
    // copied before the way out, since it would be cleared first behind it
    let mut fewer = *pairs;
    let Some(at) = pairs.next(matrix, scan) else {
        return;
    };
    let entry = scan[at];
    fewer.refine(matrix, entry as usize);
    choose_from(matrix, &scan[at + 1..], &fewer, rest, kept);
    if !pairs.is_apart_from(rest) {
        rest.refine(matrix, entry as usize);
        kept.push(entry);
    }
}

// The answer of a matrix: the first pair that is left, or the entries kept.
#[tactic(auto, using(crate::proofs::Marks::base_there, crate::proofs::Recursion::below_all), unfolding(crate::specs::Matrix::fits))]
fn choose_fit(matrix: Matrix, rows: usize, marks: &[u8], scan: &[u16]) -> Result<Signature, Untold>
    requires { (rows ≤ length marks.now) × (fits matrix.work.now matrix.width rows scan.now ≡ true) }
    ensures { result ≡ choice matrix.entry.work.now matrix.entry.width rows marks.now scan.now }
{
    let pairs = Pairs::new(rows, marks);
    let mut rest = pairs;
    let mut kept = Kept::new();
    choose_from(matrix, scan, &pairs, &mut rest, &mut kept);
    if let Some((a, b)) = rest.first() {
        return Err(Untold::Pair(a, b));
    }
    let signature = Signature::of(kept.as_slice());
    Ok(signature)
}

// The signature of the method, or the first two rows that should be told apart and are not.
#[tactic(auto, unfolding(crate::specs::Matrix::choice))]
pub fn choose(
    work: &[u16],
    width: usize,
    rows: usize,
    marks: &[u8],
    scan: &[u16],
) -> Result<Signature, Untold>
    ensures { result ≡ choice work.now width rows marks.now scan.now }
{
    if marks.len() < rows || !fitting(work, width, rows, scan) {
        return Err(Untold::NoMatrix);
    }
    choose_fit(Matrix { work, width }, rows, marks, scan)
}
