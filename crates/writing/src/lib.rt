// Writing a job's record into lent bytes (document 01, "Job layout" and "Refusal by operation").
//
// First all checks, then the number of bytes, and only then a byte is written (`Pen`).
#![tactic(auto)]

ghost use Rattle.std.specs.Prelude.{◌≡◌, ◌≤◌, length};
ghost use Rattle.std.specs.List.{list_all};
ghost use Rattle.bits.specs.Answer.{outcome, leaves};
ghost use Rattle.bits.specs.Bits.{bytes_of};
ghost use Rattle.job.specs.Check.{output_ok, fault_order_ok, checked, Valid};
ghost use Rattle.job.specs.Layout.{max_inputs, max_gates};
ghost use Rattle.writing.specs.Checks.{gates_judged, faults_judged};
ghost use Rattle.writing.specs.Pen.{filled};
ghost use Rattle.writing.specs.Writing.{written, job_bits};

use bits::Refusal;
use job::{
    FAULT_BITS, FAULT_COUNT_BITS, Fault, FaultEntry, GATE_BITS, GATE_COUNT_BITS, GateEntry,
    INPUT_COUNT_BITS, Job, LINE_BITS, MAX_FAULTS, MAX_GATES, MAX_INPUTS, MAX_OUTPUTS,
    OUTPUT_COUNT_BITS,
};
use pen::Pen;

mod pen;

// Fills the lent bytes from the start with the job, and no others, and gives their number; a refusal writes nothing.
pub fn write(job: Job, out: &mut [u8]) -> Result<usize, Refusal>
    ensures { record { answer = outcome result; memory = out.new } ≡ leaves (written job (length out.old)) out.old }
{
    check(job)?;
    let bytes = job_bytes(job);
    if out.len() < bytes {
        return Err(Refusal::Memory);
    }
    put_job(out, job);
    Ok(bytes)
}

// The number of bytes of a job, its spare bits included.
fn job_bytes(job: Job) -> usize
    requires { Valid job }
    ensures { result ≡ length (bytes_of (job_bits job)) }
{
    let g = job.gate_count as usize;
    let outputs = job.output_count as usize;
    let f = job.fault_count as usize;
    let bits = INPUT_COUNT_BITS
        + GATE_COUNT_BITS
        + g * GATE_BITS
        + OUTPUT_COUNT_BITS
        + outputs * LINE_BITS
        + FAULT_COUNT_BITS
        + f * FAULT_BITS;
    bits.div_ceil(8)
}

// The first refusal of a record: 2, 3, 4 gate by gate, 20, 6 output by output, 19, 18, then 7, 8 and 21 fault by
// fault.
#[tactic(auto, unfolding(job::specs::Layout::max_inputs, job::specs::Layout::max_gates))]
fn check(job: Job) -> Result<(), Refusal>
    ensures { outcome result ≡ checked job }
{
    let n = job.inputs as usize;
    if n < 1 || MAX_INPUTS < n {
        return Err(Refusal::Inputs);
    }
    let g = job.gate_count as usize;
    if MAX_GATES < g {
        return Err(Refusal::Gates);
    }
    check_gates(&job.gates[..g], n)?;
    let count = job.output_count as usize;
    if count < 1 || MAX_OUTPUTS < count {
        return Err(Refusal::OutputNumber);
    }
    let lines = n + g;
    if !outputs_ok(&job.outputs[..count], lines) {
        return Err(Refusal::Output);
    }
    if !job::no_loose(job) {
        return Err(Refusal::LooseGate);
    }
    if MAX_FAULTS < job.fault_count as usize {
        return Err(Refusal::Faults);
    }
    check_faults(&job.faults[..job.fault_count as usize], n, lines)
}

// Refusal 4, gate by gate, of a circuit with so many inputs. Gates and faults have a loop each: one loop for both would
// take what judges an entry as a closure, and be no plainer.
#[tactic(auto, unfolding(job::specs::Layout::max_inputs, job::specs::Layout::max_gates))]
fn check_gates(gates: &[GateEntry], inputs: usize) -> Result<(), Refusal>
    requires few_gates { length gates.now ≤ max_gates }
    requires few_inputs { inputs ≤ max_inputs }
    ensures { outcome result ≡ gates_judged inputs gates.now }
{
    for (q, entry) in gates.iter().enumerate() {
        let own = inputs + q;
        let gate = entry.gate;
        if own <= gate.first() || own <= gate.second() {
            return Err(Refusal::GateLine);
        }
    }
    Ok(())
}

// Refusal 6: the output lines are among so many lines.
fn outputs_ok(outputs: &[u8], lines: usize) -> bool
    ensures { result ≡ list_all (output_ok lines) outputs.now }
{
    outputs.iter().all(|&line| (line as usize) < lines)
}

// Refusals 7, 8 and 21, fault by fault, of a circuit with so many inputs and lines.
fn check_faults(faults: &[FaultEntry], inputs: usize, lines: usize) -> Result<(), Refusal>
    ensures { outcome result ≡ faults_judged inputs lines faults.now }
{
    for entry in faults {
        let fault = entry.fault;
        if !job::fault_line_ok(fault, inputs, lines) {
            return Err(Refusal::FaultLine);
        }
        if !order_ok(fault) {
            return Err(Refusal::FaultPair);
        }
        if !job::part_ok(entry.part as usize) {
            return Err(Refusal::Part);
        }
    }
    Ok(())
}

// Refusal 8: a bridge has its lower line below its higher.
fn order_ok(fault: Fault) -> bool
    ensures { result ≡ fault_order_ok fault }
{
    match fault {
        Fault::Stuck(_, _) => true,
        Fault::Bridge(low, high, _) => low < high,
    }
}

// Puts the whole job.
#[tactic(auto, unfolding(job::specs::Layout::max_inputs, job::specs::Layout::max_gates, job::specs::Layout::max_outputs, job::specs::Layout::max_faults))]
fn put_job(out: &mut [u8], job: Job)
    requires valid { Valid job }
    requires room { length (bytes_of (job_bits job)) ≤ length out.old }
    ensures { out.new ≡ filled (bytes_of (job_bits job)) out.old }
{
    let mut pen = Pen::new(out);
    pen.field(INPUT_COUNT_BITS, job.inputs as usize);
    pen.field(GATE_COUNT_BITS, job.gate_count as usize);
    pen.gates(&job.gates[..job.gate_count as usize]);
    pen.field(OUTPUT_COUNT_BITS, job.output_count as usize - 1);
    pen.outputs(&job.outputs[..job.output_count as usize]);
    pen.field(FAULT_COUNT_BITS, job.fault_count as usize);
    pen.faults(&job.faults[..job.fault_count as usize]);
    pen.finish();
}
