// A job as a record: a circuit and its list of single faults (document 01, "Job layout").
//
// Lines and counts are bytes, so that the record, which is copied where it goes by value, is half a kilobyte. A
// one-line gate has one line, and a stuck fault too. The first case of each enum is the unused entry's, which is the
// value that a list gives past its end.
#![tactic(auto)]

ghost use Rattle.std.specs.Prelude.{◌≡◌};
ghost use Rattle.job.specs.Check.{fault_line_ok, part_ok};
ghost use Rattle.job.specs.Dependence.{no_loose};
ghost use Rattle.job.specs.Marks.{OutputsMarked};
ghost use Rattle.job.specs.Record.{gate_kind, gate_a, gate_b, gate_of, fault_kind, fault_a, fault_b, fault_of, empty_job};

// "circuits with 1 to 8 inputs, 0 to 64 gates, .. and 0 to 63 single faults"; document 02: 1 to 4 outputs
pub const MAX_INPUTS: usize = 8;

pub const MAX_GATES: usize = 64;

pub const MAX_OUTPUTS: usize = 4;

pub const MAX_FAULTS: usize = 63;

// "a part number, 1 to 63"
pub const MAX_PART: usize = 63;

// "In order: input count n (4 bits); gate count g (7); per gate a kind (3), line a (7), line b (7)"; document 02: "After the
// gates comes a field of 2 bits, the number of outputs less 1, then each output line in 7 bits"; "fault count f (6); per
// fault a kind (2), line a (7), line b (7)"; document 02: "a part number .. in 6 bits after line b"
pub const INPUT_COUNT_BITS: usize = 4;

pub const GATE_COUNT_BITS: usize = 7;

pub const GATE_KIND_BITS: usize = 3;

pub const LINE_BITS: usize = 7;

pub const OUTPUT_COUNT_BITS: usize = 2;

pub const FAULT_COUNT_BITS: usize = 6;

pub const FAULT_KIND_BITS: usize = 2;

pub const PART_BITS: usize = 6;

const COUNT_BITS: usize = INPUT_COUNT_BITS + GATE_COUNT_BITS + OUTPUT_COUNT_BITS + FAULT_COUNT_BITS;

pub const GATE_BITS: usize = GATE_KIND_BITS + 2 * LINE_BITS;

pub const FAULT_BITS: usize = FAULT_KIND_BITS + 2 * LINE_BITS + PART_BITS;

// The bytes of the longest job: counts, gates, output lines and faults.
pub const MAX_JOB_BYTES: usize = (COUNT_BITS
    + MAX_GATES * GATE_BITS
    + MAX_OUTPUTS * LINE_BITS
    + MAX_FAULTS * FAULT_BITS
    + 7)
    / 8;

// The six kinds of gate that read two lines, with their numbers in a field.
#[derive(Clone, Copy, Debug, PartialEq, Eq)]
pub enum BinaryKind {
    And = 0,
    Or,
    Nand,
    Nor,
    Xor,
    Xnor,
}

// The two kinds that read one line, with their numbers.
#[derive(Clone, Copy, Debug, PartialEq, Eq)]
pub enum UnaryKind {
    Buf = 7,
    Not = 6,
}

// "A record's gate kind can only be one of the eight": a unary gate has one line.
#[derive(Clone, Copy, Debug, PartialEq, Eq)]
pub enum Gate {
    Unary(UnaryKind, u8),
    Binary(BinaryKind, u8, u8),
}

// "A fault is either a line stuck at a level or a bridge of two inputs." The form, with its two flags, is document 01's.
#[derive(Clone, Copy, Debug, PartialEq, Eq)]
pub enum Fault {
    // The line and its level.
    Stuck(u8, bool),
    // The lower and the higher line; true for an AND bridge, false for an OR bridge.
    Bridge(u8, u8, bool),
}

impl Gate {
    // The number of the gate's kind, 0 to 7.
    pub fn kind(self) -> usize
        ensures { result ≡ gate_kind self }
    {
        match self {
            Gate::Unary(kind, _) => kind as usize,
            Gate::Binary(kind, _, _) => kind as usize,
        }
    }

    // Lines a and b; a unary gate repeats a as b.
    fn lines(self) -> (u8, u8)
        ensures { result ≡ (gate_a self, gate_b self) }
    {
        match self {
            Gate::Unary(_, a) => (a, a),
            Gate::Binary(_, a, b) => (a, b),
        }
    }

    // Line a.
    pub fn first(self) -> usize
        ensures { result ≡ gate_a self }
    {
        self.lines().0 as usize
    }

    // Line b.
    pub fn second(self) -> usize
        ensures { result ≡ gate_b self }
    {
        self.lines().1 as usize
    }
}

// The gate of a kind's number and two lines. Every number has one, so this is no TryFrom: a kind over 7 counts as 7.
pub fn gate_of(kind: usize, a: u8, b: u8) -> Gate
    ensures { result ≡ gate_of kind a b }
{
    match kind {
        0 => Gate::Binary(BinaryKind::And, a, b),
        1 => Gate::Binary(BinaryKind::Or, a, b),
        2 => Gate::Binary(BinaryKind::Nand, a, b),
        3 => Gate::Binary(BinaryKind::Nor, a, b),
        4 => Gate::Binary(BinaryKind::Xor, a, b),
        5 => Gate::Binary(BinaryKind::Xnor, a, b),
        6 => Gate::Unary(UnaryKind::Not, a),
        _ => Gate::Unary(UnaryKind::Buf, a),
    }
}

// The methods of a gate: a trait for both would have to be imported wherever one is called.
impl Fault {
    // The number of the fault's kind, 0 to 3.
    pub fn kind(self) -> usize
        ensures { result ≡ fault_kind self }
    {
        match self {
            Fault::Stuck(_, level) => level as usize,
            Fault::Bridge(_, _, is_and) => { if is_and { 2 } else { 3 } }
        }
    }

    // Lines a and b; a stuck fault repeats a as b.
    fn lines(self) -> (u8, u8)
        ensures { result ≡ (fault_a self, fault_b self) }
    {
        match self {
            Fault::Stuck(line, _) => (line, line),
            Fault::Bridge(low, high, _) => (low, high),
        }
    }

    // Line a.
    pub fn first(self) -> usize
        ensures { result ≡ fault_a self }
    {
        self.lines().0 as usize
    }

    // Line b.
    pub fn second(self) -> usize
        ensures { result ≡ fault_b self }
    {
        self.lines().1 as usize
    }
}

// The fault of a kind's number and two lines. Every number has one: a kind over 3 counts as 3.
pub fn fault_of(kind: usize, a: u8, b: u8) -> Fault
    ensures { result ≡ fault_of kind a b }
{
    match kind {
        0 => Fault::Stuck(a, false),
        1 => Fault::Stuck(a, true),
        2 => Fault::Bridge(a, b, true),
        _ => Fault::Bridge(a, b, false),
    }
}

// Refusal 7: a stuck line is a line of the circuit, the lines of a bridge are inputs.
pub fn fault_line_ok(fault: Fault, inputs: usize, lines: usize) -> bool
    ensures { result ≡ fault_line_ok inputs lines fault }
{
    match fault {
        Fault::Stuck(line, _) => (line as usize) < lines,
        Fault::Bridge(low, high, _) => { (low as usize) < inputs && (high as usize) < inputs }
    }
}

// Refusal 21: a part is 1 to 63.
#[tactic(auto, unfolding(crate::specs::Layout::max_part))]
pub fn part_ok(part: usize) -> bool
    ensures { result ≡ part_ok part }
{
    (1..=MAX_PART).contains(&part)
}

#[derive(Clone, Copy, Debug, PartialEq, Eq)]
pub struct GateEntry {
    pub gate: Gate,
}

// A fault, and the part that is mended for it.
#[derive(Clone, Copy, Debug, PartialEq, Eq)]
pub struct FaultEntry {
    pub fault: Fault,
    pub part: u8,
}

// Entries past a count are unused. The counts stand beside full arrays, as in the documents' layout.
#[derive(Clone, Copy, Debug, PartialEq, Eq)]
pub struct Job {
    pub inputs: u8,
    pub gate_count: u8,
    pub gates: [GateEntry; MAX_GATES],
    pub output_count: u8,
    pub outputs: [u8; MAX_OUTPUTS],
    pub fault_count: u8,
    pub faults: [FaultEntry; MAX_FAULTS],
}

// The record with every entry unused: BUF of line 0, output line 0, stuck-at-0 on line 0 with part 0.
pub fn empty_job() -> Job
    ensures { result ≡ empty_job }
{
    Job {
        inputs: 0,
        gate_count: 0,
        gates: [GateEntry {
            gate: Gate::Unary(UnaryKind::Buf, 0),
        }; MAX_GATES],
        output_count: 0,
        outputs: [0u8; MAX_OUTPUTS],
        fault_count: 0,
        faults: [FaultEntry {
            fault: Fault::Stuck(0, false),
            part: 0,
        }; MAX_FAULTS],
    }
}

// Room for a mark a line: a line is a byte, a gate's own line a byte and a gate's number.
const MARKS: usize = 256 + MAX_GATES;

// For each line whether it is an output.
fn output_marks(outputs: &[u8]) -> [bool; MARKS]
    ensures { OutputsMarked outputs.now result }
{
    let mut marks = [false; MARKS];
    for &line in outputs {
        marks[line as usize] = true;
    }
    marks
}

// Refusal 19: every gate's line is an output or read by a later gate. From the last gate down, so that one pass is
// enough.
pub fn no_loose(job: Job) -> bool
    ensures { result ≡ no_loose job }
{
    let n = job.inputs as usize;
    let output_count = (job.output_count as usize).min(MAX_OUTPUTS);
    let gate_count = (job.gate_count as usize).min(MAX_GATES);
    let mut used = output_marks(&job.outputs[..output_count]);
    for q in (0..gate_count).rev() {
        if !used[n + q] {
            return false;
        }
        let (a, b) = job.gates[q].gate.lines();
        used[a as usize] = true;
        used[b as usize] = true;
    }
    true
}
