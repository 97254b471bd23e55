// The Reed-Muller transform of packed truth tables, of both kinds, in every polarity: one recursion on halves (document
// 01, "Spectra").
//
// `transform` calls itself on each half, the number of inputs falling, then combines. Each half of the lent slice is
// written by the inner call; where in the table the two come from is exchanged by the top bit of the polarity. The leaf
// is three inputs, a byte: its sums are those of its two half bytes added, which are worked out once a call for the
// three lowest bits of the polarity (`half_sums`). For four inputs the same step stands written out with the leaf as
// its inner call (`four`), since that saves half of all calls. One and two inputs go down to single entries.
//
// `sums` and `table` are parameters of their own in all of these: behind a struct of both, filling takes a twentieth longer.
// So are the inputs, the kind and the polarity, which the recursion changes and the callers have apart, as C gives them.
// What they are asked (`Asks`) is of the lent slice's length, which each half changes, so contracts say it.
//
// What is made are sums, which are the MRM spectrum; RM's numbers are taken modulo 2 at the end (`parities`).
ghost use Rattle.std.specs.Prelude.{◌+◌, ◌*◌, ◌/◌, ◌%◌, ◌^◌, ◌≤◌, ◌<◌, length, take, drop, ◌≡◌};
ghost use Rattle.bits.specs.Packed.{entry};
ghost use Rattle.spectra.specs.Rows.{rows_filled};
ghost use Rattle.spectra.specs.Recursion.{byte_entry, byte_sums, half_byte, half_sums, Summed, Asks, LeafAsks, LeafMade, entries_from, Most, combined, all_reduced};
ghost use Rattle.spectra.specs.Spectrum.{spectrum};
ghost use Rattle.spectra.specs.declared.Kind.TheVariants.{Rm, Mrm};
ghost use Rattle.job.specs.Layout.{max_inputs};
ghost use Rattle.bits.specs.Sizes.{table_bytes};

use crate::Kind;

// Entry t mod 8 of a byte, the first its highest bit.
fn byte_entry(byte: u8, t: usize) -> u16
    ensures { result ≡ byte_entry byte t }
{
    (u16::from(byte) >> (7 - t % 8)) % 2
}

// Entry m of a packed table.
fn entry_at(table: &[u8], m: usize) -> u16
    requires { m < 8 * length table.now }
    ensures { result ≡ entry table.now m }
{
    byte_entry(table[m / 8], m)
}

// Combines the sums of the two halves: the upper half becomes the sum of both. The numbers are small enough that their sums fit.
// It takes one slice and goes by an index: of two slices, as of `split_at_mut`, it would first have to be tested that they are apart.
fn combine(out: &mut [u16], half: usize)
    requires { (half + half ≡ length out.old) × Most (2 ^ 14) out.old }
    ensures { out.new ≡ combined half (take half out.old) (drop half out.old) }
{
    for i in 0..half {
        out[half + i] = out[i] + out[half + i];
    }
}

// The MRM spectrum of a byte's eight entries. Written out, since four of the sums are parts of others.
fn byte_sums(byte: u8, k: usize) -> [u16; 8]
    ensures { result ≡ byte_sums k byte }
{
    let e0 = byte_entry(byte, k);
    let e1 = byte_entry(byte, 1 ^ k);
    let e2 = byte_entry(byte, 2 ^ k);
    let e3 = byte_entry(byte, 3 ^ k);
    let e4 = byte_entry(byte, 4 ^ k);
    let e5 = byte_entry(byte, 5 ^ k);
    let e6 = byte_entry(byte, 6 ^ k);
    let e7 = byte_entry(byte, 7 ^ k);
    let s1 = e0 + e1;
    let s3 = s1 + (e2 + e3);
    let s5 = e4 + e5;
    let s7 = s5 + (e6 + e7);
    [
        e0,
        s1,
        e0 + e2,
        s3,
        e0 + e4,
        s1 + s5,
        e0 + e2 + (e4 + e6),
        s3 + s7,
    ]
}

// Byte i of those of which one half is 0: sixteen have the number in their upper half, and then sixteen in their lower half. Rows are made
// side by side, so that a product takes less time than a test.
fn half_byte(i: u8) -> u8
    requires { i < 32 }
    ensures { result ≡ half_byte i }
{
    i % 16 * (16 - 15 * (i / 16))
}

// The MRM spectra of these bytes, for the three lowest bits of a polarity. They are written into a lent array: a returned one would be copied.
type HalfSums = [[u16; 8]; 32];

fn half_sums(sums: &mut HalfSums, k: usize)
    requires { k < 8 }
    ensures { sums.new ≡ half_sums k }
{
    for i in 0..32 {
        sums[usize::from(i)] = byte_sums(half_byte(i), k);
    }
}

// The MRM spectrum of three inputs, from one byte: the sums of its halves, added. Both rows are read first and the loop is one vector;
// `copy_from_slice` of the eight sums would test first that they lie apart from `out`.
fn leaf(out: &mut [u16], sums: &HalfSums, table: &[u8], at: usize)
    requires { LeafAsks (length out.old) sums.now (length table.now) at }
    ensures { LeafMade (length out.old) sums.now table.now at out.new }
{
    let byte = table[at / 8];
    let upper = sums[(byte / 16) as usize];
    let lower = sums[(16 + byte % 16) as usize];
    for j in 0..8 {
        out[j] = upper[j] + lower[j];
    }
}

// That of four inputs: both halves are bytes. It is the step of the transform with the leaf as its inner call, which saves half of all calls.
fn four(out: &mut [u16], sums: &HalfSums, table: &[u8], at: usize, k: usize)
    requires { Asks (length out.old) sums.now (length table.now) at 4 k }
    ensures { out.new ≡ spectrum Mrm 4 k (entries_from table.now at) }
{
    let top = k / 8;
    let (lower, upper) = out.split_at_mut(8);
    leaf(lower, sums, table, at + top * 8);
    leaf(upper, sums, table, at + (1 - top) * 8);
    combine(out, 8);
}

// The MRM spectrum of the 2 to the power n entries from `at` on. "The spectrum of n inputs is combined from those of its two halves
// ..; the halves change places where the top bit of k is 1."
fn transform(out: &mut [u16], sums: &HalfSums, table: &[u8], at: usize, n: usize, k: usize)
    requires { Asks (length out.old) sums.now (length table.now) at n k }
    ensures { out.new ≡ spectrum Mrm n k (entries_from table.now at) }
{
    match n {
        0 => out[0] = entry_at(table, at),
        3 => leaf(out, sums, table, at),
        4 => four(out, sums, table, at, k),
        _ => {
            let half = 1 << (n - 1);
            let top = k / half;
            let rest = k % half;
            let (lower, upper) = out.split_at_mut(half);
            transform(lower, sums, table, at + top * half, n - 1, rest);
            transform(upper, sums, table, at + (1 - top) * half, n - 1, rest);
            combine(out, half);
        }
    }
}

// "The Reed-Muller (RM) coefficient is that sum modulo 2."
fn parities(sums: &mut [u16])
    ensures { sums.new ≡ all_reduced Rm sums.old }
{
    for sum in sums.iter_mut() {
        *sum = *sum % 2;
    }
}

// The spectrum of one table: the kind comes last.
fn transform_row(out: &mut [u16], sums: &HalfSums, table: &[u8], n: usize, k: usize, kind: Kind)
    requires { Asks (length out.old) sums.now (length table.now) 0 n k }
    ensures { out.new ≡ spectrum kind n k (entries_from table.now 0) }
{
    transform(out, sums, table, 0, n, k);
    if kind == Kind::Rm {
        parities(out);
    }
}

// The spectra of tables that stand row after row. The rows go by an index: after a loop over `chunks_exact_mut` a proof knows no number of the work.
fn transform_rows(
    work: &mut [u16],
    sums: &HalfSums,
    tables: &[u8],
    n: usize,
    rows: usize,
    k: usize,
    kind: Kind,
)
    requires { (n ≤ max_inputs) × (k < 2 ^ n) × (rows * 2 ^ n ≤ length work.old) × (rows * table_bytes n ≤ length tables.now) × Summed n k sums.now }
    ensures { work.new ≡ rows_filled kind n k tables.now rows work.old }
{
    let size = bits::table_size(n);
    let bytes = bits::table_bytes(n);
    for r in 0..rows {
        let row = &mut work[r * size..r * size + size];
        let table = &tables[r * bytes..r * bytes + bytes];
        transform_row(row, sums, table, n, k, kind);
    }
}

// The spectra of tables that stand row after row.
pub(crate) fn fill_rows(
    work: &mut [u16],
    tables: &[u8],
    n: usize,
    rows: usize,
    k: usize,
    kind: Kind,
)
    requires { (n ≤ max_inputs) × (k < 2 ^ n) × (rows * 2 ^ n ≤ length work.old) × (rows * table_bytes n ≤ length tables.now) }
    ensures { work.new ≡ rows_filled kind n k tables.now rows work.old }
{
    let mut sums = [[0; 8]; 32];
    half_sums(&mut sums, k % 8);
    transform_rows(work, &sums, tables, n, rows, k, kind);
}
