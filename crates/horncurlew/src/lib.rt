// The operations for programs in C and Rust: include/horncurlew.h declares them. Answers are numbers: the documents'
// number of a refusal, 0 for success, then the values, unused places 0. A kind is 0 for RM and any other number for
// MRM; a purpose 0 for isolating and any other number for detecting.
#![tactic(auto)]

ghost use Rattle.std.specs.Prelude.{◌≡◌, [], length};
ghost use Rattle.bits.specs.Answer.{leaves, outcome};
ghost use Rattle.reading.specs.Reading.{reading};
ghost use Rattle.tables.specs.Operations.{table_of, no_counts};
ghost use Rattle.spectra.specs.Operations.{spectrum_of, undone_of};
ghost use Rattle.method.specs.Method.Pair.{nobody};
ghost use Rattle.choosing.specs.Choosing.{signature_of, told};
ghost use Rattle.locating.specs.Locating.{located_of, located_told};
ghost use Rattle.report_text.specs.Text.{reported};
ghost use Rattle.horncurlew.specs.Exports.{report_of, kind_of, purpose_of, number_of, numbered, job_of, length_of, rewritten_of, chosen_at, choice_of, location_of, version};

use bits::Refusal;
use chooser::MAX_SIGNATURE;
use choosing::{Chosen, Purpose, Unchosen};
use job::Job;
use locating::Located;
use spectra::Kind;

// Raised with every change of an exported function, struct or number; HORNCURLEW_VERSION in include/horncurlew.h is the same number.
const VERSION: usize = 4;

// The counts of a job.
#[repr(C)]
#[derive(Debug, Default, PartialEq, Eq, Drop)]
pub struct JobAnswer {
    pub number: usize,
    pub inputs: usize,
    pub gates: usize,
    pub outputs: usize,
    pub faults: usize,
}

// How many bytes were written.
#[repr(C)]
#[derive(Debug, PartialEq, Eq, Drop)]
pub struct LengthAnswer {
    pub number: usize,
    pub length: usize,
}

// The pair that is alike; or the counts of the job, and the signature. The layout of this and the other answers is C's.
#[repr(C)]
#[derive(Debug, PartialEq, Eq, Drop)]
pub struct ChoiceAnswer {
    pub number: usize,
    pub first: usize,
    pub second: usize,
    pub inputs: usize,
    pub gates: usize,
    pub outputs: usize,
    pub faults: usize,
    pub count: usize,
    pub entry_indices: [u16; MAX_SIGNATURE],
    pub entry_outputs: [u16; MAX_SIGNATURE],
}

// What agreeing circuits are found: 0 for none, 1 for circuits of one part, 2 for several parts. With 1 the part, with 2 how many circuits agree, and
// with both the lowest of them.
#[repr(C)]
#[derive(Debug, Default, PartialEq, Eq, Drop)]
pub struct LocationAnswer {
    pub number: usize,
    pub found: usize,
    pub part: usize,
    pub circuit: usize,
    pub agreeing: usize,
}

// Whether the text was written, 1 or 0, and how many bytes it has.
#[repr(C)]
#[derive(Debug, Default, PartialEq, Eq, Drop)]
pub struct ReportAnswer {
    pub written: usize,
    pub length: usize,
}

// The kinds and purposes of C's numbers. No `From`: here both types are other crates', and there C's numbers mean nothing.
fn kind_of(kind: u8) -> Kind
    ensures { result ≡ kind_of kind }
{
    if kind == 0 {
        return Kind::Rm;
    }
    Kind::Mrm
}

fn purpose_of(purpose: u8) -> Purpose
    ensures { result ≡ purpose_of purpose }
{
    if purpose == 0 {
        return Purpose::Isolating;
    }
    Purpose::Detecting
}

fn number_of(answer: Result<(), Refusal>) -> usize
    ensures { result ≡ number_of (outcome answer) }
{
    match answer {
        Ok(()) => 0,
        Err(cause) => cause.number(),
    }
}

// The version of what is exported here.
#[unsafe(no_mangle)]
pub extern "C" fn horncurlew_version() -> usize
    ensures { result ≡ version }
{
    VERSION
}

// This and the functions below are named for the definitions that the exports' clauses cite, and so no `From`s.
fn job_of(reading: Result<Job, Refusal>) -> JobAnswer
    ensures { result ≡ job_of (outcome reading) }
{
    match reading {
        Ok(job) => JobAnswer {
            number: 0,
            inputs: job.inputs as usize,
            gates: job.gate_count as usize,
            outputs: job.output_count as usize,
            faults: job.fault_count as usize,
        },
        Err(cause) => JobAnswer {
            number: cause.number(),
            ..JobAnswer::default()
        },
    }
}

// Whether the bytes are a job, and its counts.
#[unsafe(no_mangle)]
pub extern "C" fn horncurlew_check(bytes: &[u8]) -> JobAnswer
    ensures { result ≡ job_of (reading bytes.now) }
{
    job_of(reading::read(bytes))
}

fn length_of(written: Result<usize, Refusal>) -> LengthAnswer
    ensures { result ≡ length_of (outcome written) }
{
    match written {
        Ok(length) => LengthAnswer { number: 0, length },
        Err(cause) => LengthAnswer {
            number: cause.number(),
            length: 0,
        },
    }
}

fn rewrite(bytes: &[u8], out: &mut [u8]) -> Result<usize, Refusal>
    ensures { record { answer = outcome result; memory = out.new } ≡ leaves (rewritten_of bytes.now (length out.old)) out.old }
{
    writing::write(reading::read(bytes)?, out)
}

// A job read, and written again.
#[unsafe(no_mangle)]
pub extern "C" fn horncurlew_rewrite(bytes: &[u8], out: &mut [u8]) -> LengthAnswer
    ensures { (result ≡ length_of (leaves (rewritten_of bytes.now (length out.old)) out.old).answer) × (out.new ≡ (leaves (rewritten_of bytes.now (length out.old)) out.old).memory) }
{
    length_of(rewrite(bytes, out))
}

// The packed table of a circuit of a job at an output.
#[unsafe(no_mangle)]
pub extern "C" fn horncurlew_table(
    bytes: &[u8],
    circuit: usize,
    output: usize,
    out: &mut [u8],
) -> usize
    ensures { record { number = result; memory = out.new } ≡ numbered (leaves (table_of bytes.now circuit output (length out.old)) out.old) }
{
    number_of(tables::table(bytes, circuit, output, out))
}

// The spectrum of a packed table.
#[unsafe(no_mangle)]
pub extern "C" fn horncurlew_spectrum(
    inputs: usize,
    table: &[u8],
    kind: u8,
    polarity: usize,
    out: &mut [u16],
) -> usize
    ensures { record { number = result; memory = out.new } ≡ numbered (leaves (spectrum_of inputs table.now (kind_of kind) polarity (length out.old)) out.old) }
{
    number_of(spectra::spectrum(inputs, table, kind_of(kind), polarity, out))
}

// The packed table of a spectrum.
#[unsafe(no_mangle)]
pub extern "C" fn horncurlew_undo(
    inputs: usize,
    numbers: &[u16],
    kind: u8,
    polarity: usize,
    out: &mut [u8],
) -> usize
    ensures { record { number = result; memory = out.new } ≡ numbered (leaves (undone_of inputs numbers.now (kind_of kind) polarity (length out.old)) out.old) }
{
    number_of(spectra::undo(inputs, numbers, kind_of(kind), polarity, out))
}

// What stands beside a number alone. By hand: of an array `default` says what each element is, and the definition has
// the list.
fn no_choice(number: usize) -> ChoiceAnswer
    ensures { result ≡ choice_of (record { number = number; pair = nobody; counts = no_counts; signature = signature_of []; memory = [] }) }
{
    ChoiceAnswer {
        number,
        first: 0,
        second: 0,
        inputs: 0,
        gates: 0,
        outputs: 0,
        faults: 0,
        count: 0,
        entry_indices: [0u16; MAX_SIGNATURE],
        entry_outputs: [0u16; MAX_SIGNATURE],
    }
}

fn choice_of(chosen: Result<Chosen, Unchosen>) -> ChoiceAnswer
    ensures { result ≡ choice_of (told chosen []) }
{
    match chosen {
        Ok(Chosen { counts, signature }) => {
            let entry_indices = signature.indices;
            let entry_outputs = signature.outputs;
            ChoiceAnswer {
                number: 0,
                first: 0,
                second: 0,
                inputs: counts.inputs,
                gates: counts.gates,
                outputs: counts.outputs,
                faults: counts.faults,
                count: signature.count,
                entry_indices,
                entry_outputs,
            }
        }
        Err(Unchosen::Alike(first, second)) => ChoiceAnswer {
            first,
            second,
            ..no_choice(Refusal::Alike.number())
        },
        Err(Unchosen::Refused(cause)) => no_choice(cause.number()),
    }
}

// The signature of a job; the work then holds the spectra, under 15 too.
#[unsafe(no_mangle)]
pub extern "C" fn horncurlew_choose(
    bytes: &[u8],
    purpose: u8,
    kind: u8,
    polarity: usize,
    work: &mut [u16],
) -> ChoiceAnswer
    ensures { (result ≡ choice_of (chosen_at (purpose_of purpose) bytes.now (kind_of kind) polarity work.old)) × (work.new ≡ (chosen_at (purpose_of purpose) bytes.now (kind_of kind) polarity work.old).memory) }
{
    choice_of(choosing::choose(bytes, purpose_of(purpose), kind_of(kind), polarity, work))
}

fn location_of(located: Result<Located, Refusal>) -> LocationAnswer
    ensures { result ≡ location_of (located_told located) }
{
    match located {
        Ok(Located::Part(part, circuit)) => LocationAnswer {
            found: 1,
            part,
            circuit,
            ..LocationAnswer::default()
        },
        Ok(Located::Several(circuit, agreeing)) => LocationAnswer {
            found: 2,
            circuit,
            agreeing,
            ..LocationAnswer::default()
        },
        Ok(Located::Nowhere) => LocationAnswer::default(),
        Err(cause) => LocationAnswer {
            number: cause.number(),
            ..LocationAnswer::default()
        },
    }
}

// The circuits of a job that agree with readings at a list of entries; the work then holds the spectra.
#[unsafe(no_mangle)]
pub extern "C" fn horncurlew_locate(
    bytes: &[u8],
    kind: u8,
    polarity: usize,
    indices: &[u16],
    outputs: &[u16],
    readings: &[u16],
    work: &mut [u16],
) -> LocationAnswer
    ensures { (result ≡ location_of (leaves (located_of bytes.now (kind_of kind) polarity indices.now outputs.now readings.now (length work.old)) work.old).answer) × (work.new ≡ (leaves (located_of bytes.now (kind_of kind) polarity indices.now outputs.now readings.now (length work.old)) work.old).memory) }
{
    location_of(locating::locate(
        bytes,
        kind_of(kind),
        polarity,
        indices,
        outputs,
        readings,
        work,
    ))
}

fn report_of(reported: Option<usize>) -> ReportAnswer
    ensures { result ≡ report_of reported }
{
    match reported {
        Some(length) => ReportAnswer { written: 1, length },
        None => ReportAnswer::default(),
    }
}

// The report program's text of a job; the work then holds the spectra. With fewer bytes than the longest text has nothing is written.
#[unsafe(no_mangle)]
pub extern "C" fn horncurlew_report(bytes: &[u8], work: &mut [u16], out: &mut [u8]) -> ReportAnswer
    ensures { (result ≡ report_of (reported bytes.now work.old out.old).answer) × (work.new ≡ (reported bytes.now work.old out.old).work) × (out.new ≡ (reported bytes.now work.old out.old).text) }
{
    report_of(report_text::report(bytes, work, out))
}
