// A job's circuits worked out side by side, line after line.
//
// The good circuit comes first, a row a line. Then come batches of faulty ones, one column a fault: each gate step is
// taken once for a whole batch, and where a fault fixes a line its column gets a value made from the good circuit's
// rows (`fix_line`). Every other line is its gate of its inputs, whatever the fault; nothing is asked of a bridge but
// that its lines are there.
//
// The good circuit is a batch of one column in which nothing is fixed, and the table of one circuit a batch of one
// column, so that one loop over lines serves all (`work_out`). The columns that fix a line are a set, the bits of a
// word.
//
// What the rows hold (`Stands`, `Good`) and how much room they have (`RowsFor`), contracts say: they are lent, and each step writes
// them, so that no type could keep it.
ghost use Rattle.std.specs.Prelude.{◌≡◌, ◌+◌, ◌-◌, ◌*◌, ◌^◌, ◌≤◌, ◌<◌, length};
ghost use Rattle.bits.specs.Packed.{tabulate};
ghost use Rattle.job.specs.Check.{Valid};
ghost use Rattle.job.specs.Record.{gate_kind, gate_a, gate_b, lines};
ghost use Rattle.gates.specs.Polynomial.{kind_polynomial, combined};
ghost use Rattle.bits.specs.Slices.{splice};
ghost use Rattle.tables.specs.Sizes.{shape_of, Formed};
ghost use Rattle.tables.specs.Work.{row_of, FixedIn, Stands, Good, Side, Blocked, Made};

use crate::rows::{KINDS, Shape};
use gates::Polynomial;
use job::{Gate, Job, MAX_GATES, MAX_INPUTS};

pub(crate) const MAX_LINES: usize = MAX_INPUTS + MAX_GATES;

// `count` circuits from number `first` on. The table of line l of circuit first + i is row base + l * count + i, so that
// the tables of one line are a block. The good circuit is a batch by itself.
#[derive(Clone, Copy, Debug, PartialEq, Eq)]
pub(crate) struct Batch {
    base: usize,
    first: usize,
    pub(crate) count: usize,
}

impl Batch {
    pub(crate) const GOOD: Batch = Batch {
        base: 0,
        first: 0,
        count: 1,
    };

    // Where the block of a line's tables starts.
    pub(crate) fn block_place(self, line: usize, bytes: usize) -> usize
        requires { (1 ≤ bytes) × (row_of self line * bytes < 2 ^ 64) }
        ensures { result ≡ row_of self line * bytes }
    {
        (self.base + line * self.count) * bytes
    }
}

// The circuits of a valid job: the shape of their tables, and the polynomial of each kind of gate.
#[derive(Clone, Copy, Debug, PartialEq, Eq)]
pub(crate) struct Circuits<'a> {
    pub(crate) job: &'a Job,
    pub(crate) shape: Shape,
    polynomials: [Polynomial; KINDS],
    ghost valid: { Valid job.now },
    ghost shaped: { shape ≡ shape_of job.now.inputs },
    ghost formed: { Formed shape.mask polynomials },
}

impl<'a> Circuits<'a> {
    pub(crate) fn new(job: &'a Job) -> Self
        requires { Valid job.now }
        ensures { result.job.now ≡ job.now }
    {
        let shape = Shape::new(job.inputs as usize);
        Circuits {
            job,
            shape,
            polynomials: shape.polynomials(),
        }
    }

    // How many lines each circuit has.
    fn lines(&self) -> usize
        ensures { result ≡ lines self.now.job.now }
    {
        self.job.inputs as usize + self.job.gate_count as usize
    }

    // A batch of faulty circuits, whose rows stand behind those of the good one.
    pub(crate) fn faulty(&self, first: usize, count: usize) -> Batch
        ensures { result ≡ record { base = lines self.now.job.now; first = first; count = count } }
    {
        Batch {
            base: self.lines(),
            first,
            count,
        }
    }

    // Works out the circuits of a batch.
    pub(crate) fn work_out(&self, rows: &mut [u8], batch: Batch)
        requires { Stands self.now.job.now batch rows.old × (1 ≤ batch.first → Good self.now.job.now rows.old) }
        ensures { Side self.now.job.now batch (lines self.now.job.now) rows.new }
    {
        let fixed = self.fixed_lines(batch);
        for line in 0..self.lines() {
            self.line_block(rows, batch, line);
            self.fix_line(rows, batch, line, fixed[line]);
        }
    }

    // For each line the set of the batch's columns whose faults fix it: column i is circuit first + i. The good circuit
    // has no fault.
    fn fixed_lines(&self, batch: Batch) -> [u64; MAX_LINES]
        requires { (batch.first + batch.count ≤ self.now.job.now.fault_count + 1) × (batch.first ≡ 0 → batch.count ≡ 1) }
        ensures { FixedIn self.now.job.now batch result }
    {
        let first = batch.first;
        let mut fixed = [0u64; MAX_LINES];
        if first == 0 {
            return fixed;
        }
        for i in 0..batch.count {
            let entry = self.job.faults[first - 1 + i];
            let fault = entry.fault;
            let low = fault.first();
            let high = fault.second();
            fixed[low] = bits::sets::joined(fixed[low], i);
            fixed[high] = bits::sets::joined(fixed[high], i);
        }
        fixed
    }

    // The tables of a line where it is not fixed: of an input, or of a gate from the blocks of the lines that it reads.
    fn line_block(&self, rows: &mut [u8], batch: Batch, line: usize)
        requires { Stands self.now.job.now batch rows.old × Side self.now.job.now batch line rows.old × (line < lines self.now.job.now) }
        ensures { Blocked self.now.job.now batch line rows.old rows.new }
    {
        let inputs = self.job.inputs as usize;
        if line < inputs {
            let to = batch.block_place(line, self.shape.bytes);
            self.shape.input_block(rows, line, to, batch.count);
        } else {
            let entry = self.job.gates[line - inputs];
            self.gate_block(rows, batch, line, entry.gate);
        }
    }

    // One gate in all circuits of the batch at once.
    fn gate_block(&self, rows: &mut [u8], batch: Batch, line: usize, gate: Gate)
        requires { (gate_a gate < line) × (gate_b gate < line) × (row_of batch line * self.now.shape.bytes + batch.count * self.now.shape.bytes ≤ length rows.old) }
        ensures { rows.new ≡ splice rows.old (row_of batch line * self.now.shape.bytes) (tabulate (batch.count * self.now.shape.bytes) (combined (kind_polynomial (gate_kind gate) self.now.shape.mask) (row_of batch (gate_a gate) * self.now.shape.bytes) (row_of batch (gate_b gate) * self.now.shape.bytes) rows.old)) }
    {
        let bytes = self.shape.bytes;
        let x = batch.block_place(gate.first(), bytes);
        let y = batch.block_place(gate.second(), bytes);
        let to = batch.block_place(line, bytes);
        let polynomial = self.polynomials[gate.kind()];
        gates::combine(rows, x, y, to, batch.count * bytes, polynomial);
    }

    // The tables of a line in the columns that fix it, over those of the line's block.
    fn fix_line(&self, rows: &mut [u8], batch: Batch, line: usize, columns: u64)
        requires { Stands self.now.job.now batch rows.old × Made self.now.job.now batch line columns rows.old × (line < lines self.now.job.now) }
        ensures { Side self.now.job.now batch (line + 1) rows.new }
    {
        let bytes = self.shape.bytes;
        let start = batch.block_place(line, bytes);
        for column in bits::sets::members_of(columns) {
            let entry = self.job.faults[batch.first - 1 + column];
            let to = start + column * bytes;
            self.shape.fix_row(rows, to, entry.fault);
        }
    }
}
