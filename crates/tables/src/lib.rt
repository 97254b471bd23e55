// The packed truth tables of a job's circuits (document 01, "Tables"): of one circuit at one output, and of all, with
// the job's counts and parts. The job is read, its circuits are worked out in batches (evaluator.rt), and the rows of
// the output lines are copied to the lent bytes, circuit after circuit, output after output.
#![tactic(auto)]

ghost use Rattle.std.specs.Prelude.{◌≡◌, ◌+◌, ◌*◌, ◌/◌, ◌^◌, ◌≤◌, ◌<◌, length};
ghost use Rattle.bits.specs.Answer.{outcome, leaves};
ghost use Rattle.bits.specs.Sizes.{table_bytes};
ghost use Rattle.bits.specs.Blocks.{block};
ghost use Rattle.bits.specs.Slices.{splice};
ghost use Rattle.job.specs.Layout.{max_faults};
ghost use Rattle.tables.specs.Operations.{table_of, tables_of, counts_of, no_counts, delivered};
ghost use Rattle.tables.specs.Work.{block_bytes, RowsFor, Stands, Good, Asked, circuit_bytes, tables_at, tables_from, rows_at, RowsThere};

use bits::Refusal;
use evaluator::{Batch, Circuits, MAX_LINES};
use job::{Job, MAX_FAULTS, MAX_INPUTS, MAX_OUTPUTS};

mod evaluator;
mod rows;

// The bytes of the largest table, "(N+7) div 8".
pub const MAX_TABLE_BYTES: usize = ((1 << MAX_INPUTS) + 7) / 8;

// The most circuits: the good one, and one for each fault.
pub const MAX_CIRCUITS: usize = MAX_FAULTS + 1;

// The tables of the most circuits at the most outputs.
pub const ALL_TABLES_BYTES: usize = MAX_CIRCUITS * MAX_OUTPUTS * MAX_TABLE_BYTES;

// A row for each line of the good circuit, and one for each of a faulty one.
const ROW_BYTES: usize = 2 * MAX_LINES * MAX_TABLE_BYTES;

// As many circuits are worked out side by side as fit so many bytes a line: each gate step is then long, and the rows
// of a batch stay near the processor. With 256 or 1,024 filling is up to a twelfth slower for some number of inputs.
const BLOCK_BYTES: usize = 512;

// A row for each line of the good circuit, and a block for each of a batch.
const ALL_ROW_BYTES: usize = MAX_LINES * (MAX_TABLE_BYTES + BLOCK_BYTES);

// How many inputs, gates, outputs and faults a job has, and the part of each circuit, in an array for the most circuits
// as the definition (`counts_of`) has it.
#[derive(Clone, Copy, Debug, PartialEq, Eq)]
pub struct Counts {
    pub inputs: usize,
    pub gates: usize,
    pub outputs: usize,
    pub faults: usize,
    pub parts: [u8; MAX_CIRCUITS],
}

impl Counts {
    // The counts and parts of a job: the good circuit's part is 0.
    fn of(job: &Job) -> Self
        requires { length job.now.faults ≡ max_faults }
        ensures { result ≡ counts_of job.now }
    {
        let mut parts = [0u8; MAX_CIRCUITS];
        for (i, entry) in job.faults.iter().enumerate() {
            parts[1 + i] = entry.part;
        }
        Counts {
            inputs: job.inputs as usize,
            gates: job.gate_count as usize,
            outputs: job.output_count as usize,
            faults: job.fault_count as usize,
            parts,
        }
    }
}

// The counts of a job whose tables are written, and how many bytes they have.
#[derive(Clone, Copy, Debug, PartialEq, Eq)]
pub struct Delivery {
    pub counts: Counts,
    pub bytes: usize,
}

// The packed table of circuit `circuit` at output `output` of the job that the bytes give.
pub fn table(bytes: &[u8], circuit: usize, output: usize, out: &mut [u8]) -> Result<(), Refusal>
    ensures { record { answer = outcome result; memory = out.new } ≡ leaves (table_of bytes.now circuit output (length out.old)) out.old }
{
    let job = reading::read(bytes)?;
    if (job.fault_count as usize) < circuit {
        return Err(Refusal::Circuit);
    }
    if job.output_count as usize <= output {
        return Err(Refusal::OutputNumber);
    }
    let circuits = Circuits::new(&job);
    if out.len() < circuits.shape.bytes {
        return Err(Refusal::Memory);
    }
    let asked = &job.outputs[output..output + 1];
    let listing = Listing { circuits, asked };
    listing.put_table(circuit, out);
    Ok(())
}

// Counts and parts of 0. By hand: the definition `no_counts` names it.
pub fn no_counts() -> Counts
    ensures { result ≡ no_counts }
{
    Counts {
        inputs: 0,
        gates: 0,
        outputs: 0,
        faults: 0,
        parts: [0u8; MAX_CIRCUITS],
    }
}

// The packed tables of all circuits of the job that the bytes give, circuit after circuit, output after output.
pub fn tables(bytes: &[u8], out: &mut [u8]) -> Result<Delivery, Refusal>
    ensures { record { answer = outcome result; memory = out.new } ≡ delivered (tables_of bytes.now (length out.old)) out.old }
{
    let job = reading::read(bytes)?;
    let outputs = job.output_count as usize;
    let faults = job.fault_count as usize;
    let circuits = Circuits::new(&job);
    let bytes = (faults + 1) * outputs * circuits.shape.bytes;
    if out.len() < bytes {
        return Err(Refusal::Memory);
    }
    let lines = job.outputs;
    let asked = &lines[..outputs];
    let listing = Listing { circuits, asked };
    listing.put_tables(out);
    let counts = Counts::of(&job);
    Ok(Delivery { counts, bytes })
}

// The circuits of a job, and the lines whose tables are asked for.
#[derive(Clone, Copy, Debug, PartialEq, Eq)]
struct Listing<'a> {
    circuits: Circuits<'a>,
    asked: &'a [u8],
    ghost lie: { Asked circuits.job.now asked.now },
}

impl<'a> Listing<'a> {
    // Copies the tables of one circuit, a column of a batch.
    fn put_column(&self, rows: &[u8], batch: Batch, column: usize, out: &mut [u8], to: usize)
        requires { RowsThere batch self.now.circuits.shape.bytes self.now.asked.now (length rows.now) × (column < batch.count) × (to + length self.now.asked.now * self.now.circuits.shape.bytes ≤ length out.old) }
        ensures { out.new ≡ splice out.old to (rows_at batch self.now.circuits.shape.bytes self.now.asked.now rows.now column) }
    {
        let bytes = self.circuits.shape.bytes;
        for (p, line) in self.asked.iter().enumerate() {
            let at = batch.block_place(*line as usize, bytes) + column * bytes;
            bits::copy(out, to + p * bytes, rows, at, bytes);
        }
    }

    // Copies the tables of a batch's circuits, circuit after circuit.
    fn put_columns(&self, rows: &[u8], batch: Batch, out: &mut [u8], to: usize)
        requires { RowsThere batch self.now.circuits.shape.bytes self.now.asked.now (length rows.now) × (to + batch.count * (length self.now.asked.now * self.now.circuits.shape.bytes) ≤ length out.old) }
        ensures { out.new ≡ splice out.old to (block batch.count (rows_at batch self.now.circuits.shape.bytes self.now.asked.now rows.now)) }
    {
        for i in 0..batch.count {
            let step = self.asked.len() * self.circuits.shape.bytes;
            self.put_column(rows, batch, i, out, to + i * step);
        }
    }

    // Works out a batch, and puts its circuits' tables to a place of the lent bytes.
    fn put_batch(&self, rows: &mut [u8], batch: Batch, out: &mut [u8], to: usize)
        requires { let j = self.now.circuits.job.now in let asked = self.now.asked.now in Stands j batch rows.old × (1 ≤ batch.first → Good j rows.old) × (to + batch.count * (circuit_bytes j asked) ≤ length out.old) }
        ensures { let j = self.now.circuits.job.now in let asked = self.now.asked.now in Good j rows.new × (out.new ≡ splice out.old to (tables_from j asked batch.first batch.count)) }
    {
        self.circuits.work_out(rows, batch);
        self.put_columns(rows, batch, out, to);
    }

    // The good circuit by itself: its rows come first, and its tables at the start of the lent bytes.
    fn put_good(&self, rows: &mut [u8], out: &mut [u8])
        requires { let j = self.now.circuits.job.now in let asked = self.now.asked.now in RowsFor j 0 rows.old × (circuit_bytes j asked ≤ length out.old) }
        ensures { let j = self.now.circuits.job.now in let asked = self.now.asked.now in Good j rows.new × (out.new ≡ splice out.old 0 (tables_at j asked 0)) }
    {
        self.put_batch(rows, Batch::GOOD, out, 0);
    }

    // The tables of one circuit, at the start of the lent bytes: the good one's give way to those of a faulty one.
    fn put_table(&self, circuit: usize, out: &mut [u8])
        requires { let j = self.now.circuits.job.now in let asked = self.now.asked.now in (circuit ≤ j.fault_count) × (circuit_bytes j asked ≤ length out.old) }
        ensures { let j = self.now.circuits.job.now in let asked = self.now.asked.now in out.new ≡ splice out.old 0 (tables_at j asked circuit) }
    {
        let mut rows = [0u8; ROW_BYTES];
        self.put_good(&mut rows, out);
        if circuit != 0 {
            self.put_batch(&mut rows, self.circuits.faulty(circuit, 1), out, 0);
        }
    }

    // The tables of all circuits, from the start of the lent bytes on. The rows are made here: behind a way out of the
    // function they would be cleared twice.
    fn put_tables(&self, out: &mut [u8])
        requires { let j = self.now.circuits.job.now in let asked = self.now.asked.now in (j.fault_count + 1) * (circuit_bytes j asked) ≤ length out.old }
        ensures { let j = self.now.circuits.job.now in let asked = self.now.asked.now in out.new ≡ splice out.old 0 (tables_from j asked 0 (j.fault_count + 1)) }
    {
        let mut rows = [0u8; ALL_ROW_BYTES];
        self.put_good(&mut rows, out);
        self.put_faults(&mut rows, out);
    }

    // The tables of all faulty circuits behind the good circuit's, batch after batch.
    fn put_faults(&self, rows: &mut [u8], out: &mut [u8])
        requires { let j = self.now.circuits.job.now in let asked = self.now.asked.now in RowsFor j (block_bytes / table_bytes j.inputs) rows.old × Good j rows.old × ((j.fault_count + 1) * (circuit_bytes j asked) ≤ length out.old) }
        ensures { let j = self.now.circuits.job.now in let asked = self.now.asked.now in out.new ≡ splice out.old (circuit_bytes j asked) (tables_from j asked 1 j.fault_count) }
    {
        let faults = self.circuits.job.fault_count as usize;
        let bytes = self.circuits.shape.bytes;
        let step = self.asked.len() * bytes;
        let most = BLOCK_BYTES / bytes;
        for i in 0..faults.div_ceil(most) {
            let done = i * most;
            let count = most.min(faults - done);
            let first = done + 1;
            let batch = self.circuits.faulty(first, count);
            self.put_batch(rows, batch, out, first * step);
        }
    }
}
