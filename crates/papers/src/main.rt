// Works out what the papers print, or what follows from their circuits, and writes the answers to be compared.
//
// Standard input has a task a line. Its first word says which; words are parted by one space. A refused task is answered with the refusal's number.
//   # ..                            names the tasks that follow, and is written as it is
//   job HH HH ..                    gives the bytes of a job, for the tasks up to the next job
//   tables                          the packed tables of the job's circuits, output after output
//   isolating KIND K                the job's isolating signature by the kind of spectrum `rm` or `mrm` at a polarity
//   detecting KIND K                its detecting signature
//   locate KIND K I:O .. / R ..     the circuits of the job that agree with readings at entries, an index and an output each
//   fault KIND K C                  the entries at which circuit C of the job is not as the good one
//   spectra N K HH HH ..            the RM and the MRM spectrum of a table of N inputs
//   undo KIND N K C C ..            the table of a spectrum
//   record HH HH ..                 how many bytes the record of a job is written in; records.rt has the numbers of the line
#![tactic(auto)]

ghost use Rattle.std.specs.Counts.{IsPrefixLen as Within};

use job::{MAX_FAULTS, MAX_INPUTS, MAX_JOB_BYTES, MAX_OUTPUTS};
use std::io::{Read, Stdin};

mod jobs;
mod listing;
mod records;
mod table;
mod words;

// As much of the input is read.
const MAX_TEXT_BYTES: usize = 65536;

// One byte more than the longest job, so that a longer one is seen to be longer.
const MAX_INPUT_BYTES: usize = MAX_JOB_BYTES + 1;

// The entries of a table of the most inputs.
const MAX_ENTRIES: usize = 1 << MAX_INPUTS;

// A table for the good circuit and each fault, at each output.
const MAX_ROWS: usize = (MAX_FAULTS + 1) * MAX_OUTPUTS;

fn main(rt: HostRuntime) {
    let mut text = [0u8; MAX_TEXT_BYTES];
    let n = read_full(rt.stdin(), &mut text);
    answer_lines(&rt, &text[..n]);
}

// Reads until `buf` is full, the input ends or a read fails, and answers how many bytes stand at its start. By hand:
// std's `read_exact` does not answer that, and `read_to_end` needs a heap. Not report's `read_input`: there a read that
// fails is told, and here what was read before it counts.
fn read_full(mut stdin: Stdin, buf: &mut [u8]) -> usize
    ensures { Within result buf.new }
{
    let mut done = 0;
    while done < buf.len() {
        let count = stdin.read(&mut buf[done..]).unwrap_or(0);
        if count == 0 {
            break;
        }
        done += count;
    }
    done
}

// Each line of the text in turn, with the last job's line; at first that is the first line.
fn answer_lines(rt: &impl Print, text: &[u8]) {
    let mut job = words::before(text, b'\n');
    for line in text.split(|&character| character == b'\n') {
        if words::letter(line) == b'j' {
            job = line;
        }
        answer_line(rt, line, job);
    }
}

// Writes the answer to a line. Its first letter tells its first word from the others; a match, since not all tasks take
// the job.
fn answer_line(rt: &impl Print, line: &[u8], job: &[u8]) {
    match words::letter(line) {
        b'#' => listing::name(rt, line),
        b's' => table::list_spectra(rt, line),
        b'u' => table::list_undone(rt, line),
        b'r' => records::list_written(rt, line),
        _ => answer_job(rt, line, job),
    }
}

// The bytes of the job that its line gives.
fn answer_job(rt: &impl Print, line: &[u8], job: &[u8]) {
    let mut bytes = [0u8; MAX_INPUT_BYTES];
    let n = words::bytes(job, 1, &mut bytes);
    jobs::answer(rt, line, &bytes[..n]);
}
