// Signatures: the few coefficients that tell the listed circuits apart (document 01, "Choosing").
//
// The tables are transformed into the lent work, which is the chooser's matrix: a row a circuit, with the coefficients
// of one output after those of another. So an entry, an index and an output, is one number to the chooser, output × N +
// index. The marks say which pairs are needed: a circuit's part for isolating; 0 for the good circuit and 1 for the others
// for detecting.
//
// The order of looking, by number of ones, then by value, then by output, is made without sorting: each index goes to the
// next place of its order, and then each index gives its entries. The first place of an order is the number of indices
// of lower order, by Pascal's rule.
//
// Public functions take kind and polarity side by side as the C interface does, counts and tables as the definition
// does (`from_tables`).
#![tactic(auto)]

ghost use Rattle.std.specs.Prelude.{◌+◌, ◌*◌, ◌^◌, ◌≤◌, ◌<◌, ◌≡◌, true, length};
ghost use Rattle.std.specs.Int.Count.{ones};
ghost use Rattle.job.specs.Layout.{max_inputs, max_outputs};
ghost use Rattle.bits.specs.Bounds.{all_below};
ghost use Rattle.bits.specs.Slices.{splice};
ghost use Rattle.bits.specs.Tabulation.{Tabulates};
ghost use Rattle.chooser.specs.Matrix.{cell};
ghost use Rattle.reading.specs.Reading.{reading};
ghost use Rattle.spectra.specs.Codes.{codes_of};
ghost use Rattle.spectra.specs.Operations.{from_tables};
ghost use Rattle.choosing.specs.Choosing.{scan_to, scan_order, outputs_at, entries_of, chosen_from, chosen_of, counts_in, at_exit, told};
ghost use Rattle.choosing.specs.Looking.{max_places, max_orders, marks_of, Few, summed, Placed, Listed, Filled, decoded_of, unchosen_by, chosen_in};
ghost use Rattle.choosing.specs.declared.Unchosen.TheVariants.{Refused};

use bits::Refusal;
use chooser::{MAX_SIGNATURE, Untold};
use spectra::Kind;
use tables::{ALL_TABLES_BYTES, Counts};

// To tell circuits of different parts apart, or the good one from each fault.
#[derive(Clone, Copy, Debug, PartialEq, Eq)]
pub enum Purpose {
    Isolating,
    Detecting,
}

// Entries in the order of taking, an index and an output each. Two arrays with a count, as the definition (`signature_of`)
// has them, the C interface and the statement of demand 3: 0s past the count.
#[derive(Clone, Copy, Debug, PartialEq, Eq)]
pub struct Signature {
    pub count: usize,
    pub indices: [u16; MAX_SIGNATURE],
    pub outputs: [u16; MAX_SIGNATURE],
}

// What is chosen for a job: its counts, and the signature.
#[derive(Clone, Copy, Debug, PartialEq, Eq)]
pub struct Chosen {
    pub counts: Counts,
    pub signature: Signature,
}

// Why nothing is chosen: a refusal, or the first needed pair of circuits that is alike.
#[derive(Clone, Copy, Debug, PartialEq, Eq)]
pub enum Unchosen {
    Refused(Refusal),
    Alike(usize, usize),
}

impl From<Refusal> for Unchosen {
    ghost from_gives = { λ cause unchosen. unchosen ≡ Refused cause };

    fn from(cause: Refusal) -> Unchosen {
        Unchosen::Refused(cause)
    }
}

// The matrix always fits, so that `NoMatrix` stands for no answer of `choose_tables`.
impl From<Untold> for Unchosen {
    ghost from_gives = { λ untold unchosen. unchosen ≡ unchosen_by untold };

    fn from(untold: Untold) -> Unchosen {
        match untold {
            Untold::Pair(a, b) => Unchosen::Alike(a, b),
            Untold::NoMatrix => Unchosen::Refused(Refusal::Memory),
        }
    }
}

// The most coefficients of a circuit at one output.
const MAX_PLACES: usize = 1 << job::MAX_INPUTS;

// And at all outputs.
const MAX_ENTRIES: usize = job::MAX_OUTPUTS * MAX_PLACES;

// An index has as many ones as there are inputs, or fewer.
const MAX_ORDERS: usize = job::MAX_INPUTS + 1;

// The marks of all circuits that there may be: those with different marks are to be told apart.
fn marks_of(purpose: Purpose, counts: Counts) -> [u8; chooser::MAX_ROWS]
    ensures { result ≡ marks_of purpose counts.parts }
{
    match purpose {
        Purpose::Isolating => counts.parts,
        Purpose::Detecting => {
            let mut marks = [1u8; chooser::MAX_ROWS];
            marks[0] = 0;
            marks
        }
    }
}

// The first places with one input more: an index has the new input's bit, and its order is one more, or has it not. From the highest order down, so that
// each sum takes the places as they were.
fn add_input(firsts: &mut [usize; MAX_ORDERS])
    requires { Few firsts.old }
    ensures { Tabulates max_orders (summed firsts.old) firsts.new }
{
    for order in (1..MAX_ORDERS).rev() {
        firsts[order] += firsts[order - 1];
    }
}

// The place of the first index of each order, after all those of lower order: sums of binomial coefficients.
fn first_places(n: usize) -> [usize; MAX_ORDERS]
    requires { n ≤ max_inputs }
    ensures { Tabulates max_orders (λ order. length (scan_to (2 ^ n) order)) result }
{
    let mut firsts = [1usize; MAX_ORDERS];
    firsts[0] = 0;
    for _ in 0..n {
        add_input(&mut firsts);
    }
    firsts
}

// Puts each index at the next place of its order, its number of ones.
fn put_indices(firsts: [usize; MAX_ORDERS], size: usize) -> [u16; MAX_PLACES]
    requires { (size ≤ max_places) × Tabulates max_orders (λ order. length (scan_to size order)) firsts }
    ensures { Placed size result }
{
    let mut next = firsts;
    let mut indices = [0u16; MAX_PLACES];
    for e in 0..size {
        let order = e.count_ones() as usize;
        let place = next[order];
        indices[place] = e as u16;
        next[order] = place + 1;
    }
    indices
}

// The indices of n inputs, by order, then by value.
fn scan_order(n: usize) -> [u16; MAX_PLACES]
    requires { n ≤ max_inputs }
    ensures { Listed (scan_order n) (2 ^ n) result }
{
    put_indices(first_places(n), bits::table_size(n))
}

// The entries of an index, one for each output.
fn put_outputs(codes: &mut [u16], index: usize, size: usize)
    requires { (index < size) × (size ≤ max_places) × (length codes.old ≤ max_outputs) }
    ensures { codes.new ≡ codes_of size (outputs_at index (length codes.old)) }
{
    for (o, code) in codes.iter_mut().enumerate() {
        *code = (o * size + index) as u16;
    }
}

// Puts the entries of indices, index after index, from the start.
fn put_entries(codes: &mut [u16], indices: &[u16], size: usize, outputs: usize)
    requires { (all_below size indices.now ≡ true) × (size ≤ max_places) × (outputs ≤ max_outputs) × (length indices.now * outputs ≤ length codes.old) }
    ensures { codes.new ≡ splice codes.old 0 (codes_of size (entries_of outputs indices.now)) }
{
    for (i, index) in indices.iter().enumerate() {
        let at = i * outputs;
        put_outputs(&mut codes[at..at + outputs], *index as usize, size);
    }
}

// The entries of n inputs and so many outputs, by order, by value, then by output.
fn scan_entries(n: usize, outputs: usize) -> [u16; MAX_ENTRIES]
    requires { (n ≤ max_inputs) × (outputs ≤ max_outputs) }
    ensures { Listed (codes_of (2 ^ n) (entries_of outputs (scan_order n))) (2 ^ n * outputs) result }
{
    let indices = scan_order(n);
    let size = bits::table_size(n);
    let mut codes = [0u16; MAX_ENTRIES];
    put_entries(&mut codes, &indices[..size], size, outputs);
    codes
}

// A signature's entries, whose numbers are taken apart; so are the 0s past them.
fn decoded(coded: chooser::Signature, n: usize) -> Signature
    requires { n ≤ max_inputs }
    ensures { result ≡ decoded_of (2 ^ n) coded.count coded.entries }
{
    let size = 1u16 << n;
    let mut indices = [0u16; MAX_SIGNATURE];
    let mut outputs = [0u16; MAX_SIGNATURE];
    for (i, code) in coded.entries.iter().enumerate() {
        indices[i] = *code % size;
        outputs[i] = *code / size;
    }
    Signature {
        count: coded.count,
        indices,
        outputs,
    }
}

// What the method chooses from the spectra in the work.
fn choose_filled(work: &[u16], counts: Counts, purpose: Purpose) -> Result<Chosen, Unchosen>
    requires { Filled counts (length work.now) }
    ensures { result ≡ chosen_in purpose counts (cell work.now (counts.outputs * 2 ^ counts.inputs)) }
{
    let marks = marks_of(purpose, counts);
    let codes = scan_entries(counts.inputs, counts.outputs);
    // every number of a circuit is an entry's, so there are as many as a row is wide
    let width = bits::table_size(counts.inputs) * counts.outputs;
    let signature = chooser::choose(work, width, counts.faults + 1, &marks, &codes[..width])?;
    Ok(Chosen {
        counts,
        signature: decoded(signature, counts.inputs),
    })
}

// The signature that tells the counted circuits apart, from their tables, one after the other: 2; 12; 13; 10; 15 with the first needed pair that is alike.
pub fn choose_tables(
    counts: Counts,
    tables: &[u8],
    purpose: Purpose,
    kind: Kind,
    polarity: usize,
    work: &mut [u16],
) -> Result<Chosen, Unchosen>
    ensures { told result work.new ≡ at_exit counts (from_tables counts tables.now (λ F. chosen_from purpose F kind polarity (length work.old))) work.old }
{
    spectra::fill(counts, tables, kind, polarity, work)?;
    choose_filled(work, counts, purpose)
}

// The signature that tells the circuits of a job apart: reading's refusals; 13; 10; 15 with the first needed pair that is alike.
pub fn choose(
    bytes: &[u8],
    purpose: Purpose,
    kind: Kind,
    polarity: usize,
    work: &mut [u16],
) -> Result<Chosen, Unchosen>
    ensures { told result work.new ≡ at_exit (counts_in (reading bytes.now)) (chosen_of purpose bytes.now kind polarity (length work.old)) work.old }
{
    let mut packed = [0u8; ALL_TABLES_BYTES];
    let delivery = tables::tables(bytes, &mut packed)?;
    let tables = &packed[..delivery.bytes];
    choose_tables(delivery.counts, tables, purpose, kind, polarity, work)
}
