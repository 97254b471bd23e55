// The records of jobs, among them such as no bytes give: each refusal of writing in turn, then the number of bytes.
use crate::{listing, words};
use job::{FaultEntry, GateEntry, Job};

// Enough for every record here.
const ROOM: usize = 16;

// A line has so many numbers at most; those that it lacks are 0.
const MAX_NUMBERS: usize = 16;

// The line gives the number of bytes lent, and the record: inputs, gates, outputs, the four output lines, faults; then the first gate and the first
// fault, each as its kind, line a and line b, the fault with its part. The other entries are unused.
pub fn list_written(rt: &impl Print, line: &[u8]) {
    let mut numbers = [0u8; MAX_NUMBERS];
    words::bytes(line, 1, &mut numbers);
    let mut job = job::empty_job();
    job.inputs = numbers[1];
    job.gate_count = numbers[2];
    job.output_count = numbers[3];
    job.outputs = [numbers[4], numbers[5], numbers[6], numbers[7]];
    job.fault_count = numbers[8];
    job.gates[0] = gate_entry(numbers[9], numbers[10], numbers[11]);
    job.faults[0] = fault_entry(numbers[12], numbers[13], numbers[14], numbers[15]);
    write(rt, job, numbers[0]);
}

fn gate_entry(kind: u8, a: u8, b: u8) -> GateEntry {
    GateEntry {
        gate: job::gate_of(kind as usize, a, b),
    }
}

fn fault_entry(kind: u8, a: u8, b: u8, part: u8) -> FaultEntry {
    FaultEntry {
        fault: job::fault_of(kind as usize, a, b),
        part,
    }
}

fn write(rt: &impl Print, job: Job, room: u8) {
    let mut out = [0u8; ROOM];
    let end = ROOM.min(room as usize);
    match writing::write(job, &mut out[..end]) {
        Ok(count) => listing::number(rt, b"bytes", count),
        Err(cause) => listing::refusal(rt, cause),
    }
}
