// Reading a job from any bytes (document 01, "Job layout" and "Refusal by operation").
//
// The definition takes fields off the front of a string of bits, and so does the code: a reader is the string that is
// left, and each of its methods promises what a parser of the definition gives of that string.
#![tactic(auto)]

ghost use Rattle.std.specs.Prelude.{◌≡◌, ◌+◌, ◌/◌, ◌^◌, ◌≤◌, ◌<◌, length, true, IfOk};
ghost use Rattle.bits.specs.Answer.{outcome};
ghost use Rattle.bits.specs.Bits.{string_of};
ghost use Rattle.bits.specs.Field.{from, is_width, spare_only};
ghost use Rattle.bits.specs.Parser.{field};
ghost use Rattle.job.specs.Layout.{max_inputs};
ghost use Rattle.reading.specs.Reading.{reading, unary_lines_ok, fault_lines_ok, gate, fault, output_line, entries_from};
ghost use Rattle.reading.specs.Stages.{told, told_at, filled};

use bits::{Cursor, Refusal};
use job::{
    FAULT_COUNT_BITS, FAULT_KIND_BITS, FaultEntry, GATE_COUNT_BITS, GATE_KIND_BITS, GateEntry,
    INPUT_COUNT_BITS, Job, LINE_BITS, MAX_GATES, MAX_INPUTS, OUTPUT_COUNT_BITS, PART_BITS,
};
use std::marker::Model;

// The record that the bytes give, or the first refusal among 1 to 9, 19 and 21.
#[tactic(auto, unfolding(crate::specs::Reading::reading, crate::specs::Reading::whole_job, crate::specs::Reading::from_gates, job::specs::Layout::input_count_bits, job::specs::Layout::gate_count_bits, job::specs::Layout::max_inputs, job::specs::Layout::max_gates))]
pub fn read(s: &[u8]) -> Result<Job, Refusal>
    ensures { outcome result ≡ reading s.now }
{
    let mut reader = Reader::new(s);
    let inputs = reader.field(INPUT_COUNT_BITS)?;
    if inputs < 1 || MAX_INPUTS < inputs {
        return Err(Refusal::Inputs);
    }
    let gate_count = reader.field(GATE_COUNT_BITS)?;
    if MAX_GATES < gate_count {
        return Err(Refusal::Gates);
    }
    let mut job = job::empty_job();
    job.inputs = inputs as u8;
    job.gate_count = gate_count as u8;
    reader.gates(&mut job.gates, gate_count, inputs)?;
    let output_count = reader.field(OUTPUT_COUNT_BITS)? + 1;
    job.output_count = output_count as u8;
    let lines = inputs + gate_count;
    reader.outputs(&mut job.outputs, output_count, lines)?;
    if !job::no_loose(job) {
        return Err(Refusal::LooseGate);
    }
    let fault_count = reader.field(FAULT_COUNT_BITS)?;
    job.fault_count = fault_count as u8;
    reader.faults(&mut job.faults, fault_count, inputs, lines)?;
    if !reader.ends() {
        return Err(Refusal::Spare);
    }
    Ok(job)
}

// The number in the `width` bits from a place on, and the place behind them. An entry's places are near, so that none
// is too far for `read_field`.
fn next_field(bytes: &[u8], at: Cursor, width: usize) -> Result<(usize, Cursor), Refusal>
    requires wide { is_width width ≡ true }
    requires near { at.bit < 64 }
    ensures told { told_at bytes.now result ≡ field width (from bytes.now at) }
    ensures fits { IfOk result (λ f. f.0 < 2 ^ width) }
    ensures inside { IfOk result (λ f. f.1.bit / 8 ≤ length bytes.now) }
    ensures behind { IfOk result (λ f. f.1.bit ≡ at.bit + width) }
{
    let Some((value, next)) = bits::read_field(bytes, at, width) else {
        return Err(Refusal::BytesEnd);
    };
    Ok((value, next))
}

// The bytes from the next bit's on, and that bit's place in the first of them. A clause sees the bits that are left.
#[derive(Drop)]
struct Reader<'a> {
    bytes: &'a [u8],
    at: Cursor,
}

impl<'a> Model for Reader<'a> {
    ghost use Rattle.std.specs.Prelude.{ℕ, List, ◌<◌};
    ghost use Rattle.bits.specs.Field.{from};

    ghost Value = { List ℕ };

    ghost view = { λ r. from r.bytes.now r.at };

    // So no place is too far for `read_field`, for bytes of any number.
    ghost invariant = { λ r. r.at.bit < 8 };
}

impl<'a> Reader<'a> {
    #[tactic(auto, unfolding(bits::specs::Field::from))]
    fn new(bytes: &'a [u8]) -> Reader<'a>
        ensures { result ≡ string_of bytes.now }
    {
        Reader {
            bytes,
            at: Cursor { bit: 0 },
        }
    }

    // The reader of what stands from a place on.
    fn from_place(bytes: &'a [u8], at: Cursor) -> Reader<'a>
        requires { at.bit / 8 ≤ length bytes.now }
        ensures { result ≡ from bytes.now at }
    {
        Reader {
            bytes: &bytes[at.bit / 8..],
            at: Cursor { bit: at.bit % 8 },
        }
    }

    // The number in the next `width` bits. No line or count is wider than a byte, so that `as u8` loses nothing of it; a
    // `try_from` would have an error that can't come.
    fn field(&mut self, width: usize) -> Result<usize, Refusal>
        requires { is_width width ≡ true }
        ensures told { told result self.new ≡ field width self.old }
        ensures fits { IfOk result (λ v. v < 2 ^ width) }
    {
        let (value, at) = next_field(self.bytes, self.at, width)?;
        *self = Reader::from_place(self.bytes, at);
        Ok(value)
    }

    // Whether spare bits alone are left.
    fn ends(&self) -> bool
        ensures { result ≡ spare_only self.now }
    {
        bits::spare_only(self.bytes, self.at)
    }

    // The gate whose own line is `own`. A gate and a fault each read their fields themselves, so that each is compiled
    // for its widths, and at places in the same bytes: a reader that moved with each field would have the next field
    // wait for its move.
    #[tactic(auto, unfolding(crate::specs::Reading::gate, crate::specs::Reading::entry_fields, job::specs::Layout::gate_kind_bits, job::specs::Layout::line_bits))]
    fn gate(&mut self, own: usize) -> Result<GateEntry, Refusal>
        ensures { told result self.new ≡ gate own self.old }
    {
        let bytes = self.bytes;
        let (kind, at) = next_field(bytes, self.at, GATE_KIND_BITS)?;
        let (a, at) = next_field(bytes, at, LINE_BITS)?;
        let (b, at) = next_field(bytes, at, LINE_BITS)?;
        if own <= a || own <= b {
            return Err(Refusal::GateLine);
        }
        if !unary_lines_ok(kind, a, b) {
            return Err(Refusal::OneLine);
        }
        *self = Reader::from_place(bytes, at);
        Ok(GateEntry {
            gate: job::gate_of(kind, a as u8, b as u8),
        })
    }

    // So many gates of a circuit of so many inputs. Each list has its loop: of one loop for all, which takes a closure,
    // the promise names the closure's parser as a ghost value, and no proof is made where that is picked. The list goes
    // whole, with a count: nothing is known of an array in a record once a part of it was lent.
    #[tactic(auto, using(crate::proofs::Entries::entries_step, crate::proofs::Entries::entries_end), unfolding(job::specs::Layout::max_inputs))]
    fn gates(&mut self, gates: &mut [GateEntry], count: usize, inputs: usize) -> Result<(), Refusal>
        requires room { count ≤ length gates.old }
        requires few { inputs ≤ max_inputs }
        ensures { filled result gates.new self.new ≡ entries_from (λ q. gate (inputs + q)) count 0 gates.old self.old }
    {
        for q in 0..count {
            gates[q] = self.gate(inputs + q)?;
        }
        Ok(())
    }

    // An output line of a circuit with so many lines.
    #[tactic(auto, unfolding(crate::specs::Reading::output_line, job::specs::Layout::line_bits))]
    fn output(&mut self, lines: usize) -> Result<u8, Refusal>
        ensures { told result self.new ≡ output_line lines self.old }
    {
        let line = self.field(LINE_BITS)?;
        if lines <= line {
            return Err(Refusal::Output);
        }
        Ok(line as u8)
    }

    // So many output lines of a circuit with so many lines.
    #[tactic(auto, using(crate::proofs::Entries::entries_step, crate::proofs::Entries::entries_end))]
    fn outputs(&mut self, outputs: &mut [u8], count: usize, lines: usize) -> Result<(), Refusal>
        requires { count ≤ length outputs.old }
        ensures { filled result outputs.new self.new ≡ entries_from (λ o. output_line lines) count 0 outputs.old self.old }
    {
        for o in 0..count {
            outputs[o] = self.output(lines)?;
        }
        Ok(())
    }

    // A fault of a circuit with so many inputs and lines, and its part. All four fields are read before one is judged.
    #[tactic(auto, unfolding(crate::specs::Reading::fault, crate::specs::Reading::entry_fields, job::specs::Layout::fault_kind_bits, job::specs::Layout::line_bits, job::specs::Layout::part_bits))]
    fn fault(&mut self, inputs: usize, lines: usize) -> Result<FaultEntry, Refusal>
        ensures { told result self.new ≡ fault inputs lines self.old }
    {
        let bytes = self.bytes;
        let (kind, at) = next_field(bytes, self.at, FAULT_KIND_BITS)?;
        let (a, at) = next_field(bytes, at, LINE_BITS)?;
        let (b, at) = next_field(bytes, at, LINE_BITS)?;
        let (part, at) = next_field(bytes, at, PART_BITS)?;
        let fault = job::fault_of(kind, a as u8, b as u8);
        if !job::fault_line_ok(fault, inputs, lines) {
            return Err(Refusal::FaultLine);
        }
        if !fault_lines_ok(kind, a, b) {
            return Err(Refusal::FaultPair);
        }
        if !job::part_ok(part) {
            return Err(Refusal::Part);
        }
        *self = Reader::from_place(bytes, at);
        Ok(FaultEntry {
            fault,
            part: part as u8,
        })
    }

    // So many faults of a circuit with so many inputs and lines. The place of a reader of its own is kept in registers
    // over the loop. No `?` here: it copies the entry in pieces that straddle its fields, and reading such a piece waits
    // for the writes of both (a fifth of the time of a job with many faults).
    #[tactic(auto, using(crate::proofs::Entries::entries_step, crate::proofs::Entries::entries_end))]
    fn faults(
        &mut self,
        faults: &mut [FaultEntry],
        count: usize,
        inputs: usize,
        lines: usize,
    ) -> Result<(), Refusal>
        requires { count ≤ length faults.old }
        ensures { filled result faults.new self.new ≡ entries_from (λ i. fault inputs lines) count 0 faults.old self.old }
    {
        let mut reader = Reader {
            bytes: self.bytes,
            at: self.at,
        };
        for i in 0..count {
            match reader.fault(inputs, lines) {
                Ok(FaultEntry { fault, part }) => {
                    faults[i] = FaultEntry { fault, part };
                }
                Err(cause) => {
                    return Err(cause);
                }
            }
        }
        *self = reader;
        Ok(())
    }
}

// Refusal 5: NOT and BUF, kinds 6 and 7, repeat line a as b. By the kind's number: a gate that is one has no line b left.
fn unary_lines_ok(kind: usize, a: usize, b: usize) -> bool
    ensures { result ≡ unary_lines_ok kind a b }
{
    kind < 6 || b == a
}

// Refusal 8: a stuck fault, kind 0 or 1, repeats line a as b; a bridge has a below b. By the kind's number, as above.
fn fault_lines_ok(kind: usize, a: usize, b: usize) -> bool
    ensures { result ≡ fault_lines_ok kind a b }
{
    if kind < 2 { b == a } else { a < b }
}
