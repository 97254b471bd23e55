// Reed-Muller spectra of tables, and their undoing (document 01, "Spectra").
//
// `fill` is the one way from lent tables to work: it checks the tables of listed circuits, which stand one after the
// other, a table for each output, and makes their spectra. The spectrum of one table is that of one circuit at one
// output.
//
// Undoing recovers and compares. The numbers are taken modulo 2 and transformed once more, which undoes an RM spectrum;
// an MRM coefficient modulo 2 is the RM one, so this recovers the one table that can have these numbers. It is then
// transformed anew, and 14 is given unless the result is the numbers given. No number falls below zero on the way.
//
// Public functions take kind and polarity side by side as the C interface does, counts and tables as the definition
// does (`from_tables`).
#![tactic(auto)]

ghost use Rattle.std.specs.Prelude.{◌+◌, ◌^◌, ◌≤◌, ◌<◌, true, length, ◌≡◌};
ghost use Rattle.bits.specs.Answer.{outcome, leaves};
ghost use Rattle.bits.specs.Bits.{value_from};
ghost use Rattle.bits.specs.Packed.{packed, tabulate};
ghost use Rattle.job.specs.Check.{inputs_ok};
ghost use Rattle.spectra.specs.Operations.{table_ok, all_rows_ok, tables_ok, tables_checked, from_tables, filled_from, at, spectrum_of, undone_of};
ghost use Rattle.spectra.specs.Parities.{parity_at, Closed, Packs, Lent};
ghost use Rattle.spectra.specs.Rows.{max_rows, one_table};
ghost use Rattle.spectra.specs.Spectrum.{recovered};

use bits::Refusal;
use job::{MAX_FAULTS, MAX_INPUTS, MAX_OUTPUTS};
use tables::{Counts, MAX_TABLE_BYTES};

mod transform;

// The kind of a spectrum: Reed-Muller, or modified Reed-Muller.
#[derive(Clone, Copy, Debug, PartialEq, Eq)]
pub enum Kind {
    Rm,
    Mrm,
}

// Whether the bytes are a packed table of n inputs: as many as it has, and spare bits 0. Only n 1 and 2 have spare bits.
fn table_ok(table: &[u8], n: usize) -> bool
    requires { inputs_ok n ≡ true }
    ensures { result ≡ table_ok n table.now }
{
    if table.len() != bits::table_bytes(n) {
        return false;
    }
    match n {
        1 => table[0] % 64 == 0,
        2 => table[0] % 16 == 0,
        _ => true,
    }
}

// Whether the bytes are so many packed tables of n inputs, row after row.
fn rows_ok(tables: &[u8], n: usize, rows: usize) -> bool
    requires { (inputs_ok n ≡ true) × (rows ≤ max_rows) }
    ensures { result ≡ all_rows_ok n rows tables.now }
{
    let bytes = bits::table_bytes(n);
    tables.len() == rows * bytes && tables.chunks_exact(bytes).all(|table| table_ok(table, n))
}

// Whether the bytes are a packed table for each counted circuit and each output, one after the other.
fn tables_ok(counts: Counts, tables: &[u8]) -> bool
    requires { inputs_ok counts.inputs ≡ true }
    ensures { result ≡ tables_ok counts tables.now }
{
    counts.faults <= MAX_FAULTS
        && (1..=MAX_OUTPUTS).contains(&counts.outputs)
        && rows_ok(tables, counts.inputs, (counts.faults + 1) * counts.outputs)
}

// Whether the bytes are the packed tables of the counted circuits, one after the other: 2; 12.
pub fn check_tables(counts: Counts, tables: &[u8]) -> Result<(), Refusal>
    ensures { outcome result ≡ tables_checked counts tables.now }
{
    if !(1..=MAX_INPUTS).contains(&counts.inputs) {
        return Err(Refusal::Inputs);
    }
    if !tables_ok(counts, tables) {
        return Err(Refusal::Table);
    }
    Ok(())
}

// The spectra of the counted circuits, from their tables: 2; 12; 13; 10.
pub fn fill(
    counts: Counts,
    tables: &[u8],
    kind: Kind,
    polarity: usize,
    work: &mut [u16],
) -> Result<(), Refusal>
    ensures { record { answer = outcome result; memory = work.new } ≡ leaves (from_tables counts tables.now (λ F. filled_from F kind polarity (length work.old))) work.old }
{
    check_tables(counts, tables)?;
    let n = counts.inputs;
    let rows = (counts.faults + 1) * counts.outputs;
    let size = bits::table_size(n);
    if size <= polarity {
        return Err(Refusal::Polarity);
    }
    if work.len() < rows * size {
        return Err(Refusal::Memory);
    }
    transform::fill_rows(work, tables, n, rows, polarity, kind);
    Ok(())
}

// The counts of one table.
fn one_table(n: usize) -> Counts
    ensures { result ≡ one_table n }
{
    Counts {
        inputs: n,
        outputs: 1,
        ..tables::no_counts()
    }
}

// The spectrum of one packed table, as that of one circuit: 2; 12; 13; 10.
pub fn spectrum(
    n: usize,
    table: &[u8],
    kind: Kind,
    polarity: usize,
    out: &mut [u16],
) -> Result<(), Refusal>
    ensures { record { answer = outcome result; memory = out.new } ≡ leaves (spectrum_of n table.now kind polarity (length out.old)) out.old }
{
    fill(one_table(n), table, kind, polarity, out)
}

// The entries of the largest table.
const MAX_TABLE_SIZE: usize = 1 << MAX_INPUTS;

// The parity of number (m xor k); past the last number 0. A parity fits a byte: `try_from` would have an error that cannot come.
fn parity(numbers: &[u16], m: usize, k: usize) -> u8
    requires { Closed (length numbers.now) k }
    ensures { result ≡ at (tabulate (length numbers.now) (parity_at numbers.now k)) m }
{
    if m < numbers.len() {
        (numbers[m ^ k] % 2) as u8
    } else {
        0
    }
}

// Eight parities from the one at `first` on, as a byte.
fn packed_byte(numbers: &[u16], first: usize, k: usize) -> u8
    requires { Closed (length numbers.now) k × (first + 8 < 2 ^ 64) }
    ensures { result ≡ value_from 0 (tabulate 8 (λ t. at (tabulate (length numbers.now) (parity_at numbers.now k)) (first + t))) }
{
    let mut byte: u8 = 0;
    for m in 0..8 {
        byte = byte * 2 + parity(numbers, first + m, k);
    }
    byte
}

// Packs the parities of numbers, entry m that of number (m xor k).
fn pack(table: &mut [u8], numbers: &[u16], k: usize)
    requires { Packs k numbers.now table.old }
    ensures { table.new ≡ packed (length numbers.now) (parity_at numbers.now k) }
{
    for (i, byte) in table.iter_mut().enumerate() {
        *byte = packed_byte(numbers, 8 * i, k);
    }
}

// The one table that can have these numbers as its spectrum: modulo 2 the transform undoes itself.
fn recover(table: &mut [u8], sums: &mut [u16], numbers: &[u16], n: usize, k: usize)
    requires { Lent n k numbers.now table.old sums.old }
    ensures { table.new ≡ packed (2 ^ n) (recovered n k (at numbers.now)) }
{
    pack(table, numbers, 0);
    transform::fill_rows(sums, table, n, 1, 0, Kind::Rm);
    pack(table, sums, k);
}

// Recovers the table, makes its spectrum, and compares.
fn undo_in(
    table: &mut [u8],
    sums: &mut [u16],
    n: usize,
    numbers: &[u16],
    kind: Kind,
    k: usize,
    out: &mut [u8],
) -> Result<(), Refusal>
    requires { Lent n k numbers.now table.old sums.old }
    ensures { record { answer = outcome result; memory = out.new } ≡ leaves (undone_of n numbers.now kind k (length out.old)) out.old }
{
    recover(table, sums, numbers, n, k);
    transform::fill_rows(sums, table, n, 1, k, kind);
    if numbers != sums {
        return Err(Refusal::NoSpectrum);
    }
    if out.len() < table.len() {
        return Err(Refusal::Memory);
    }
    out[..table.len()].copy_from_slice(table);
    Ok(())
}

// The table of a spectrum: 2; 13; 14, not exactly N numbers or no table has this spectrum; 10.
pub fn undo(
    n: usize,
    numbers: &[u16],
    kind: Kind,
    polarity: usize,
    out: &mut [u8],
) -> Result<(), Refusal>
    ensures { record { answer = outcome result; memory = out.new } ≡ leaves (undone_of n numbers.now kind polarity (length out.old)) out.old }
{
    if !(1..=MAX_INPUTS).contains(&n) {
        return Err(Refusal::Inputs);
    }
    let size = bits::table_size(n);
    if size <= polarity {
        return Err(Refusal::Polarity);
    }
    if numbers.len() != size {
        return Err(Refusal::NoSpectrum);
    }
    let bytes = (size + 7) / 8;
    let mut table = [0u8; MAX_TABLE_BYTES];
    let mut sums = [0u16; MAX_TABLE_SIZE];
    undo_in(
        &mut table[..bytes],
        &mut sums[..size],
        n,
        numbers,
        kind,
        polarity,
        out,
    )
}
