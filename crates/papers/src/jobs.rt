// The tasks of a job: its circuits' tables, its signatures, a unit located, and what a fault changes.
use crate::{MAX_ENTRIES, MAX_ROWS, listing, words};
use choosing::{Chosen, Purpose, Unchosen};
use job::{MAX_FAULTS, MAX_OUTPUTS};
use locating::Located;
use tables::{ALL_TABLES_BYTES, Counts};

// The coefficients of the most circuits and outputs.
const WORK_PLACES: usize = MAX_ROWS * MAX_ENTRIES;

// Writes the answer to a line about the job; nothing where it is no task. A match, since each task takes what it needs.
pub fn answer(rt: &impl Print, line: &[u8], job: &[u8]) {
    match words::letter(line) {
        b't' => list_tables(rt, job),
        b'i' => list_choice(rt, line, job, Purpose::Isolating),
        b'd' => list_choice(rt, line, job, Purpose::Detecting),
        b'l' => list_location(rt, line, job),
        b'f' => list_fault(rt, line, job),
        _ => (),
    }
}

fn list_tables(rt: &impl Print, job: &[u8]) {
    let mut packed = [0u8; ALL_TABLES_BYTES];
    match tables::tables(job, &mut packed) {
        Ok(delivery) => list_circuits(rt, &packed[..delivery.bytes], delivery.counts),
        Err(cause) => listing::refusal(rt, cause),
    }
}

// The line of the counts, then a line for each circuit and output.
fn list_circuits(rt: &impl Print, packed: &[u8], counts: Counts) {
    listing::counts(rt, counts.inputs, counts.gates, counts.faults);
    let bytes = bits::table_bytes(counts.inputs).max(1);
    let outputs = counts.outputs.max(1);
    for (number, table) in packed.chunks_exact(bytes).enumerate() {
        listing::circuit(rt, number / outputs, table);
    }
}

fn list_choice(rt: &impl Print, line: &[u8], job: &[u8], purpose: Purpose) {
    let polarity = words::decimal(line, 2);
    let mut work = [0u16; WORK_PLACES];
    match choosing::choose(job, purpose, words::kind(line), polarity, &mut work) {
        Ok(Chosen { signature, .. }) => listing::entries(
            rt,
            b"signature",
            &signature.indices,
            &signature.outputs,
            signature.count,
        ),
        Err(Unchosen::Alike(a, b)) => listing::pair(rt, b"refused 15", a, b),
        Err(Unchosen::Refused(cause)) => listing::refusal(rt, cause),
    }
}

// Entries, a slash and readings follow the polarity: an index is a word's start, an output stands behind a colon.
fn list_location(rt: &impl Print, line: &[u8], job: &[u8]) {
    let list = words::before(line, b'/');
    let mut indices = [0u16; MAX_ENTRIES];
    let mut outputs = [0u16; MAX_ENTRIES];
    let mut readings = [0u16; MAX_ENTRIES];
    let listed = words::decimals(list, 3, b' ', &mut indices);
    let numbered = words::decimals(list, 1, b':', &mut outputs);
    let read = words::decimals(words::behind(line, b'/'), 1, b' ', &mut readings);
    list_located(
        rt,
        line,
        job,
        &indices[..listed],
        &outputs[..numbered],
        &readings[..read],
    );
}

fn list_located(
    rt: &impl Print,
    line: &[u8],
    job: &[u8],
    indices: &[u16],
    outputs: &[u16],
    readings: &[u16],
) {
    let polarity = words::decimal(line, 2);
    let mut work = [0u16; WORK_PLACES];
    match locating::locate(
        job,
        words::kind(line),
        polarity,
        indices,
        outputs,
        readings,
        &mut work,
    ) {
        Ok(Located::Part(part, c)) => listing::pair(rt, b"part", part, c),
        Ok(Located::Several(c, count)) => listing::pair(rt, b"several", c, count),
        Ok(Located::Nowhere) => listing::name(rt, b"none"),
        Err(cause) => listing::refusal(rt, cause),
    }
}

// The entries at which a circuit is not as the good one.
fn list_fault(rt: &impl Print, line: &[u8], job: &[u8]) {
    let mut packed = [0u8; ALL_TABLES_BYTES];
    match tables::tables(job, &mut packed) {
        Ok(delivery) => list_filled(rt, line, delivery.counts, &packed[..delivery.bytes]),
        Err(cause) => listing::refusal(rt, cause),
    }
}

fn list_filled(rt: &impl Print, line: &[u8], counts: Counts, packed: &[u8]) {
    let polarity = words::decimal(line, 2);
    let mut work = [0u16; WORK_PLACES];
    match spectra::fill(counts, packed, words::kind(line), polarity, &mut work) {
        Ok(()) => list_unlike(rt, &work, counts, words::decimal(line, 3)),
        Err(cause) => listing::refusal(rt, cause),
    }
}

// A circuit past the most faults has no entry.
fn list_unlike(rt: &impl Print, work: &[u16], counts: Counts, circuit: usize) {
    listing::put(rt, b"detects");
    if circuit <= MAX_FAULTS {
        let size = bits::table_size(counts.inputs).max(1);
        let outputs = counts.outputs.min(MAX_OUTPUTS);
        let good = work.chunks_exact(size).take(outputs);
        let faulty = work.chunks_exact(size).skip(circuit * outputs);
        for (output, (a, b)) in good.zip(faulty).enumerate() {
            listing::unlike(rt, a, b, output);
        }
    }
    listing::name(rt, b"");
}
