// The text of the report program (document 01, "The report program"): a job's text, or its refusal.
//
// There is room for the longest text, or nothing is written, so that no piece of it needs a test.
#![tactic(auto)]

ghost use Rattle.std.specs.Prelude.{◌+◌, ◌≤◌, ◌<◌, ◌≡◌, ◌∷◌, length};
ghost use Rattle.locating.specs.Scanning.{RowsIn};
ghost use Rattle.report_text.specs.Text.{decimal, space, numbers_text, entry_text, entries_text, counts_line, signature_line, circuit_line, circuit_lines, refused_line, alike_line, reported};

use choosing::{Chosen, Purpose, Unchosen};
use job::MAX_FAULTS;
use spectra::Kind;
use tables::Counts;

// No text is longer: 28 characters of counts; 10 of a signature's line and 6 for each entry, which are no more than faults; a line for each circuit, of 3 and
// 4 for each entry.
pub const MAX_TEXT: usize = 28 + (10 + 6 * MAX_FAULTS) + (MAX_FAULTS + 1) * (3 + 4 * MAX_FAULTS);

// Text at the start of lent bytes, and how long it is so far. That there is room for a piece (`Room`) is a fact of that
// piece, so contracts say it.
#[derive(Drop)]
struct Writer<'a> {
    out: &'a mut [u8],
    len: usize,
    ghost inside: { len ≤ length out.now },
}

// The rows of the work that a text prints, and the entries to print of each: an index and an output each, in two slices
// as the signature has them.
#[derive(Drop)]
struct Rows<'a> {
    counts: Counts,
    work: &'a [u16],
    indices: &'a [u16],
    outputs: &'a [u16],
    ghost in_work: { RowsIn counts indices.now outputs.now (length work.now) },
}

impl Writer<'_> {
    ghost use Rattle.report_text.specs.Putting.{Puts, Room, Printable, list_of, numbers_of, text_of, choice_text};

    // Puts a text behind what there is.
    fn put(&mut self, text: &[u8])
        requires { Room text.now self.old }
        ensures { Puts text.now self.old self.new }
    {
        let end = self.len + text.len();
        self.out[self.len..end].copy_from_slice(text);
        self.len = end;
    }

    // Puts a number's digits. By hand: `to_string` needs a heap, and where `write!` answers an error its contract says nothing.
    fn put_decimal(&mut self, n: usize)
        requires { Room (decimal n) self.old }
        ensures { Puts (decimal n) self.old self.new }
    {
        if n >= 10 {
            self.put_decimal(n / 10);
        }
        self.put(&[b'0' + (n % 10) as u8]);
    }

    // Puts a space and a number.
    fn put_number(&mut self, n: usize)
        requires { Room (space ∷ decimal n) self.old }
        ensures { Puts (space ∷ decimal n) self.old self.new }
    {
        self.put(b" ");
        self.put_decimal(n);
    }

    // Puts an entry behind a space: index, colon, output.
    fn put_entry(&mut self, index: usize, output: usize)
        requires { Room (entry_text (record { index = index; output = output })) self.old }
        ensures { Puts (entry_text (record { index = index; output = output })) self.old self.new }
    {
        self.put_number(index);
        self.put(b":");
        self.put_decimal(output);
    }

    // Puts the listed entries, each behind a space.
    fn put_entries(&mut self, rows: &Rows)
        requires { Room (entries_text (list_of rows.now)) self.old }
        ensures { Puts (entries_text (list_of rows.now)) self.old self.new }
    {
        for (index, output) in rows.indices.iter().zip(rows.outputs) {
            self.put_entry(*index as usize, *output as usize);
        }
    }

    // Puts the numbers of a circuit's row at the listed entries, each behind a space.
    fn put_row(&mut self, rows: &Rows, c: usize)
        requires { (c < rows.now.counts.faults + 1) × Room (numbers_text (numbers_of rows.now c)) self.old }
        ensures { Puts (numbers_text (numbers_of rows.now c)) self.old self.new }
    {
        let size = bits::table_size(rows.counts.inputs);
        let start = c * (rows.counts.outputs * size);
        for (index, output) in rows.indices.iter().zip(rows.outputs) {
            let place = *output as usize * size + *index as usize;
            self.put_number(rows.work[start + place] as usize);
        }
    }

    // Puts the line of the counts.
    #[tactic(auto, unfolding(crate::specs::Text::inputs_word, crate::specs::Text::gates_word, crate::specs::Text::faults_word))]
    fn put_counts(&mut self, counts: Counts)
        requires { Room (counts_line counts) self.old }
        ensures { Puts (counts_line counts) self.old self.new }
    {
        self.put(b"inputs ");
        self.put_decimal(counts.inputs);
        self.put(b" gates ");
        self.put_decimal(counts.gates);
        self.put(b" faults ");
        self.put_decimal(counts.faults);
        self.put(b"\n");
    }

    // Puts the line of the signature.
    #[tactic(auto, unfolding(crate::specs::Text::signature_word))]
    fn put_signature(&mut self, rows: &Rows)
        requires { Room (signature_line (list_of rows.now)) self.old }
        ensures { Puts (signature_line (list_of rows.now)) self.old self.new }
    {
        self.put(b"signature");
        self.put_entries(rows);
        self.put(b"\n");
    }

    // Puts the line of a circuit.
    fn put_circuit(&mut self, rows: &Rows, c: usize)
        requires { (c < rows.now.counts.faults + 1) × Room (circuit_line c (numbers_of rows.now c)) self.old }
        ensures { Puts (circuit_line c (numbers_of rows.now c)) self.old self.new }
    {
        self.put_decimal(c);
        self.put_row(rows, c);
        self.put(b"\n");
    }

    // Puts the lines of the circuits.
    fn put_circuits(&mut self, rows: &Rows)
        requires { Room (circuit_lines (numbers_of rows.now) (rows.now.counts.faults + 1)) self.old }
        ensures { Puts (circuit_lines (numbers_of rows.now) (rows.now.counts.faults + 1)) self.old self.new }
    {
        for c in 0..rows.counts.faults + 1 {
            self.put_circuit(rows, c);
        }
    }

    // Puts the whole text of a job.
    fn put_job(&mut self, rows: &Rows)
        requires { Room (text_of rows.now) self.old }
        ensures { Puts (text_of rows.now) self.old self.new }
    {
        self.put_counts(rows.counts);
        self.put_signature(rows);
        self.put_circuits(rows);
    }

    // Puts the line of a refusal.
    #[tactic(auto, unfolding(crate::specs::Text::refused_word))]
    fn put_refused(&mut self, number: usize)
        requires { Room (refused_line number) self.old }
        ensures { Puts (refused_line number) self.old self.new }
    {
        self.put(b"refused ");
        self.put_decimal(number);
        self.put(b"\n");
    }

    // Puts the line of a pair that is alike.
    #[tactic(auto, unfolding(crate::specs::Text::alike_word))]
    fn put_alike(&mut self, a: usize, b: usize)
        requires { Room (alike_line a b) self.old }
        ensures { Puts (alike_line a b) self.old self.new }
    {
        self.put(b"refused 15 ");
        self.put_decimal(a);
        self.put_number(b);
        self.put(b"\n");
    }

    // Puts the text of what is chosen, or why nothing is.
    fn put_choice(&mut self, choice: &Result<Chosen, Unchosen>, work: &[u16])
        requires { Printable choice.now (length work.now) × Room (choice_text choice.now work.now) self.old }
        ensures { Puts (choice_text choice.now work.now) self.old self.new }
    {
        match choice {
            Ok(chosen) => {
                let count = chosen.signature.count;
                self.put_job(&Rows {
                    counts: chosen.counts,
                    work,
                    indices: &chosen.signature.indices[..count],
                    outputs: &chosen.signature.outputs[..count],
                });
            }
            Err(Unchosen::Alike(a, b)) => self.put_alike(*a, *b),
            Err(Unchosen::Refused(cause)) => self.put_refused(cause.number()),
        }
    }
}

// Writes the report of the job that the bytes give, isolated by MRM at polarity 0, or its refusal, to the start of
// `out`, and answers how long it is; with less room than the longest text has nothing is written.
pub fn report(bytes: &[u8], work: &mut [u16], out: &mut [u8]) -> Option<usize>
    ensures { record { answer = result; work = work.new; text = out.new } ≡ reported bytes.now work.old out.old }
{
    if out.len() < MAX_TEXT {
        return None;
    }
    let choice = choosing::choose(bytes, Purpose::Isolating, Kind::Mrm, 0, work);
    let mut text = Writer { out, len: 0 };
    text.put_choice(&choice, work);
    Some(text.len)
}
