// Reads a job from standard input and prints its report: the counts, the isolating signature by MRM at polarity 0, and
// each circuit's coefficients in signature order; or the refusal (document 01, "The report program"). No contract can
// speak of what is read or written: `job_report` makes the text, and the rest reads its bytes and writes what it gave.
#![tactic(auto)]

ghost use Rattle.std.specs.Prelude.{◌≡◌};
ghost use Rattle.std.specs.Io.{ReadsAtMost};
ghost use Rattle.report.specs.Program.{program_report};

use job::MAX_JOB_BYTES;
use report_text::MAX_TEXT;
use std::io;
use std::io::{Read, Stdin};

// "reads one byte beyond the longest job", so that a longer input is seen to be longer.
const MAX_INPUT_BYTES: usize = MAX_JOB_BYTES + 1;

fn main(rt: HostRuntime) {
    let mut input = [0u8; MAX_INPUT_BYTES];
    match read_input(rt.stdin(), &mut input) {
        Ok(count) => print_report(&rt, &input[..count]),
        Err(_) => complain(&rt, "report: standard input can't be read\n"),
    }
}

// Reads until the input ends or `buf` is full, and answers how many bytes there were. By hand: std's `read_exact` does not answer that, and
// `read_to_end` needs a heap.
fn read_input(mut stdin: Stdin, buf: &mut [u8]) -> io::Result<usize>
    ensures { ReadsAtMost result buf.new }
{
    let mut done = 0;
    while done < buf.len() {
        let count = stdin.read(&mut buf[done..])?;
        if count == 0 {
            break;
        }
        done += count;
    }
    Ok(done)
}

fn print_report(rt: &(impl Print + Eprint), bytes: &[u8]) {
    let mut text = [0u8; MAX_TEXT];
    // There is room for the longest text.
    let length = job_report(bytes, &mut text).unwrap();
    if rt.write_all(&text[..length]).is_err() {
        complain(rt, "report: standard output can't be written\n");
    }
}

// The program's text for these bytes, to the start of `out`: "lends work of 32768 numbers".
fn job_report(bytes: &[u8], out: &mut [u8]) -> Option<usize>
    ensures { record { answer = result; text = out.new } ≡ program_report bytes.now out.old }
{
    let mut work = [0u16; 32768];
    report_text::report(bytes, &mut work, out)
}

// Says on standard error what failed.
fn complain(rt: &impl Eprint, line: &str) {
    let _ = rt.eprint(line);
}
