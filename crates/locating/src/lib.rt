// A unit located from its readings (document 01, "Locating"; document 02, CR 3).
//
// The list is lent as its indices and its outputs, two slices as C lends them. `prepare` has the checks and fills the
// work: 13, 16, 20 and 17 come before 10, so they are judged before the spectra are made; 16 over all indices, then 20
// over all outputs, then 17. Then each circuit's coefficients at the entries are compared with the readings.
//
// Public functions take kind and polarity, and the list, side by side as the C interface does, counts and tables as the
// definition does (`from_tables`).
#![tactic(auto)]

ghost use Rattle.std.specs.Prelude.{◌+◌, ◌<◌, ◌≡◌, length, IfSome};
ghost use Rattle.bits.specs.Answer.{outcome, leaves};
ghost use Rattle.bits.specs.Passing.{passing};
ghost use Rattle.tables.specs.Operations.{part_in};
ghost use Rattle.spectra.specs.Listed.{entries_at};
ghost use Rattle.spectra.specs.Operations.{same_numbers, from_tables};
ghost use Rattle.locating.specs.Locating.{prepared_by, lengths_ok, located_from, located_of, location_of, located_told, location};
ghost use Rattle.locating.specs.Scanning.{joined_to, location_by, numbers_at, work_agrees, Within, RowsIn};

use bits::Refusal;
use spectra::Kind;
use tables::{ALL_TABLES_BYTES, Counts};

// The part of all agreeing circuits and the lowest of them; the lowest agreeing circuit and how many agree, where they
// have several parts; or none agrees.
#[derive(Clone, Copy, Debug, PartialEq, Eq)]
pub enum Located {
    Part(usize, usize),
    Several(usize, usize),
    Nowhere,
}

// Agreeing circuits: the lowest, how many they are, and the part of all of them, if they have one.
#[derive(Clone, Copy, Debug, PartialEq, Eq)]
struct Agreeing {
    lowest: usize,
    count: usize,
    part: Option<u8>,
}

// The readings of a unit, one for each entry of a list.
#[derive(Clone, Copy, Debug, PartialEq, Eq)]
struct Observed<'a> {
    indices: &'a [u16],
    outputs: &'a [u16],
    readings: &'a [u16],
    ghost indexed: { length indices.now ≡ length readings.now },
}

impl Observed<'_> {
    // Whether the numbers of the work at the entries, from the place `start` on, are the readings.
    fn agree(&self, work: &[u16], size: usize, start: usize) -> bool
        requires { Within start size self.now.indices.now self.now.outputs.now (length work.now) }
        ensures { result ≡ same_numbers (numbers_at work.now start size (entries_at self.now.indices.now self.now.outputs.now)) self.now.readings.now }
    {
        for (i, reading) in self.readings.iter().enumerate() {
            let place = self.outputs[i] as usize * size + self.indices[i] as usize;
            if work[start + place] != *reading {
                return false;
            }
        }
        true
    }
}

// The agreeing circuits so far, with circuit c of a part behind them.
fn joined(seen: Option<Agreeing>, c: usize, part: u8) -> Agreeing
    requires { IfSome seen (λ agreeing. agreeing.count < usize.MAX) }
    ensures { result ≡ joined_to seen c part }
{
    match seen {
        None => Agreeing {
            lowest: c,
            count: 1,
            part: Some(part),
        },
        Some(agreeing) => Agreeing {
            lowest: agreeing.lowest,
            count: agreeing.count + 1,
            part: agreeing.part.filter(|shared| *shared == part),
        },
    }
}

// What the agreeing circuits tell.
fn told(seen: Option<Agreeing>) -> Located
    ensures { location_of result ≡ location_by seen }
{
    match seen {
        None => Located::Nowhere,
        Some(agreeing) => match agreeing.part {
            Some(part) => Located::Part(part as usize, agreeing.lowest),
            None => Located::Several(agreeing.lowest, agreeing.count),
        },
    }
}

// Which of the counted circuits, whose rows of the work have N numbers an output, agree with the readings.
fn scan(work: &[u16], counts: Counts, observed: &Observed) -> Located
    requires { RowsIn counts observed.now.indices.now observed.now.outputs.now (length work.now) }
    ensures { location_of result ≡ location (part_in counts.parts) (passing (work_agrees work.now counts (entries_at observed.now.indices.now observed.now.outputs.now) observed.now.readings.now) (counts.faults + 1)) }
{
    let size = bits::table_size(counts.inputs);
    let width = counts.outputs * size;
    let mut seen = None;
    for c in 0..counts.faults + 1 {
        if observed.agree(work, size, c * width) {
            seen = Some(joined(seen, c, counts.parts[c]));
        }
    }
    told(seen)
}

// The checks of locating, 17 by a test of the caller's (`paired` is the definition's argument, `prepared_by`), and then the spectra of the counted circuits, from their tables, one after the other:
// 2; 12; 13; 16; 20; 17; 10.
pub fn prepare(
    counts: Counts,
    tables: &[u8],
    kind: Kind,
    polarity: usize,
    indices: &[u16],
    outputs: &[u16],
    paired: bool,
    work: &mut [u16],
) -> Result<(), Refusal>
    ensures { record { answer = outcome result; memory = work.new } ≡ leaves (from_tables counts tables.now (λ F. prepared_by paired F kind polarity indices.now outputs.now (length work.old))) work.old }
{
    spectra::check_tables(counts, tables)?;
    let size = bits::table_size(counts.inputs);
    if size <= polarity {
        return Err(Refusal::Polarity);
    }
    if !bits::all_below(indices, size) {
        return Err(Refusal::Index);
    }
    if !bits::all_below(outputs, counts.outputs) {
        return Err(Refusal::OutputNumber);
    }
    if !paired {
        return Err(Refusal::Readings);
    }
    spectra::fill(counts, tables, kind, polarity, work)
}

// Whether there are as many indices and as many outputs as readings.
fn lengths_ok(indices: &[u16], outputs: &[u16], readings: &[u16]) -> bool
    ensures { result ≡ lengths_ok indices.now outputs.now readings.now }
{
    indices.len() == readings.len() && outputs.len() == readings.len()
}

// Which of the counted circuits agree with readings at a list of entries, from their tables, one after the other: 2; 12; 13; 16; 20; 17; 10.
pub fn locate_tables(
    counts: Counts,
    tables: &[u8],
    kind: Kind,
    polarity: usize,
    indices: &[u16],
    outputs: &[u16],
    readings: &[u16],
    work: &mut [u16],
) -> Result<Located, Refusal>
    ensures { record { answer = located_told result; memory = work.new } ≡ leaves (from_tables counts tables.now (λ F. located_from F kind polarity indices.now outputs.now readings.now (length work.old))) work.old }
{
    let paired = lengths_ok(indices, outputs, readings);
    prepare(
        counts, tables, kind, polarity, indices, outputs, paired, work,
    )?;
    let observed = Observed {
        indices,
        outputs,
        readings,
    };
    Ok(scan(work, counts, &observed))
}

// Which circuits of a job agree with readings at a list of entries; the work then holds the spectra of all circuits.
pub fn locate(
    bytes: &[u8],
    kind: Kind,
    polarity: usize,
    indices: &[u16],
    outputs: &[u16],
    readings: &[u16],
    work: &mut [u16],
) -> Result<Located, Refusal>
    ensures { record { answer = located_told result; memory = work.new } ≡ leaves (located_of bytes.now kind polarity indices.now outputs.now readings.now (length work.old)) work.old }
{
    let mut packed = [0u8; ALL_TABLES_BYTES];
    let delivery = tables::tables(bytes, &mut packed)?;
    let tables = &packed[..delivery.bytes];
    locate_tables(
        delivery.counts,
        tables,
        kind,
        polarity,
        indices,
        outputs,
        readings,
        work,
    )
}
