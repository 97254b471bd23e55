// The ground floor: the refusals of every operation, fields of a string of bits (most significant bit first in each
// byte and field), the sizes of packed tables, and bytes that are filled or copied. Each function makes sure of its
// places by itself, and leaves bytes as they are where a place lies wrong.
//
// A place in a string of bits is a number of bits (`Cursor`). A field of at most a byte lies within two bytes: where
// the byte that it begins in has one more behind it, that is the only test; in the last byte and past it the tests come
// one by one (`late_field`), with the same answer. The number of a slice's bits may not fit a word, so a field from a
// place past 2 to the power 62 on is answered as cut, and the place behind a field is always a number.
#![tactic(auto)]

ghost use Rattle.std.specs.Prelude.{cond, ◌≡◌, ◌+◌, ◌-◌, ◌*◌, ◌/◌, ◌%◌, ◌^◌, ◌≤◌, ◌<◌, get_or, length};
ghost use Rattle.bits.specs.Answer.{number};
ghost use Rattle.bits.specs.Bounds.{all_below};
ghost use Rattle.bits.specs.Packed.{tabulate};
ghost use Rattle.bits.specs.Sizes.{table_size_of, table_bytes_of};
ghost use Rattle.bits.specs.Slices.{slice, splice, has_room, copy_fits};
ghost use Rattle.bits.specs.Field.{field_at, from, max_place, max_width, spare_only, window_at};

pub mod sets;

// The causes for which an operation refuses, each with its number in documents 01 and 02.
#[derive(Clone, Copy, Debug, PartialEq, Eq)]
pub enum Refusal {
    BytesEnd = 1,
    Inputs,
    Gates,
    GateLine,
    OneLine,
    Output,
    FaultLine,
    FaultPair,
    Spare,
    Memory,
    Circuit,
    Table,
    Polarity,
    NoSpectrum,
    Alike,
    Index,
    Readings,
    Faults,
    LooseGate,
    OutputNumber,
    Part,
}

impl Refusal {
    // The number that the document gives the cause.
    pub fn number(self) -> usize
        ensures { result ≡ number self }
    {
        self as usize
    }
}

// A place in a string of bits: how many bits stand before it.
#[derive(Clone, Copy, Debug, PartialEq, Eq)]
pub struct Cursor {
    pub bit: usize,
}

// A byte of the slice, 0 past its end.
fn byte_or_zero(s: &[u8], at: usize) -> usize
    ensures { (result ≡ get_or s.now at 0) × (result < 256) }
{
    s.get(at).map_or(0, |&byte| byte as usize)
}

// The number that the two bytes from a place on make.
fn two_bytes(s: &[u8], at: usize) -> usize
    requires { at + 1 < length s.now }
    ensures { result ≡ window_at s.now at }
{
    s[at] as usize * 256 + s[at + 1] as usize
}

// The same at the end of the slice: a byte past it counts as 0. Not one function with the one above, where no field
// but the last needs a test of the second byte.
fn last_bytes(s: &[u8], at: usize) -> usize
    requires { at < length s.now }
    ensures { result ≡ window_at s.now at }
{
    byte_or_zero(s, at) * 256 + byte_or_zero(s, at + 1)
}

// Of the number of two bytes, the `width` bits that end before bit `end`.
fn bits_before(word: usize, end: usize, width: usize) -> usize
    requires { (width ≤ end) × (end ≤ 16) }
    ensures { result ≡ word / 2 ^ (16 - end) % 2 ^ width }
{
    (word >> (16 - end)) % (1 << width)
}

// No field of the layout is wider than a byte; from any bit of a byte on, two bytes hold it.
const MAX_WIDTH: usize = 8;

// A field from a later place on is answered as cut, so that the place behind a field is always a number. No job reaches that far.
const MAX_PLACE: usize = 1 << 62;

// So many bytes have one more behind them, and no bit of them is past the last place: a field that begins in one of them is not cut.
fn early_bytes(size: usize) -> usize
    ensures { (result ≤ size - 1) × (result * 8 ≤ max_place) }
{
    if size < 1 {
        return 0;
    }
    if MAX_PLACE / 8 < size {
        return MAX_PLACE / 8;
    }
    size - 1
}

// The field at a place among the last bytes or past them, where it may be cut.
fn late_field(s: &[u8], c: Cursor, width: usize) -> Option<(usize, Cursor)>
    requires { (1 ≤ width) × (width ≤ max_width) }
    ensures { result ≡ field_at s.now c width }
{
    let bit = c.bit;
    if MAX_PLACE < bit {
        return None;
    }
    let at = bit / 8;
    let end = bit % 8 + width;
    if s.len() < at + (end + 7) / 8 {
        return None;
    }
    let next = Cursor { bit: bit + width };
    Some((bits_before(last_bytes(s, at), end, width), next))
}

// The field of `width` bits at a place. A width outside 1 to MAX_WIDTH is no field of the layout, and is answered as cut.
pub fn read_field(s: &[u8], c: Cursor, width: usize) -> Option<(usize, Cursor)>
    ensures { result ≡ field_at s.now c width }
{
    if width < 1 {
        return None;
    }
    if MAX_WIDTH < width {
        return None;
    }
    let bit = c.bit;
    let at = bit / 8;
    // One test decides for most fields that both bytes are there.
    if early_bytes(s.len()) <= at {
        return late_field(s, c, width);
    }
    let end = bit % 8 + width;
    let next = Cursor { bit: bit + width };
    Some((bits_before(two_bytes(s, at), end, width), next))
}

// Whether from a place on there are only spare bits: less than a byte, no bit of it 1.
pub fn spare_only(s: &[u8], c: Cursor) -> bool
    ensures { result ≡ spare_only (from s.now c) }
{
    let bit = c.bit;
    let at = bit / 8;
    let used = bit % 8;
    if s.len() <= at {
        return true;
    }
    if used == 0 {
        return false;
    }
    if at + 1 < s.len() {
        return false;
    }
    byte_or_zero(s, at) % (1 << (8 - used)) == 0
}

// The bits of a word: a shift must be by fewer.
const WORD_BITS: usize = 64;

// The entries of a table of n inputs, which are as many as its coefficients; 0 where no word holds their number. No
// Option, here and below: the definitions give 0, and callers have tested n.
pub fn table_size(n: usize) -> usize
    ensures { result ≡ table_size_of n }
{
    if WORD_BITS <= n {
        return 0;
    }
    1 << n
}

// The bytes of a packed table of n inputs; 0 where no word holds the number of its entries.
pub fn table_bytes(n: usize) -> usize
    ensures { result ≡ table_bytes_of n }
{
    table_size(n).div_ceil(8)
}

// Whether `count` bytes from `at` on end within `size` bytes.
pub fn has_room(size: usize, at: usize, count: usize) -> bool
    ensures { result ≡ has_room size at count }
{
    if size < count {
        return false;
    }
    at <= size - count
}

// Fills `count` bytes at `to` with one byte, if they end within the rows.
pub fn fill(rows: &mut [u8], to: usize, count: usize, byte: u8)
    ensures { rows.new ≡ cond (has_room (length rows.old) to count) (splice rows.old to (tabulate count (λ i. byte))) rows.old }
{
    if !has_room(rows.len(), to, count) {
        return;
    }
    rows[to..to + count].fill(byte);
}

// Copies `count` bytes at `at` of the rows to `to`, if they end within both.
pub fn copy(out: &mut [u8], to: usize, rows: &[u8], at: usize, count: usize)
    ensures { out.new ≡ cond (copy_fits to at count (length out.old) (length rows.now)) (splice out.old to (slice at count rows.now)) out.old }
{
    if !has_room(out.len(), to, count) {
        return;
    }
    if !has_room(rows.len(), at, count) {
        return;
    }
    // By a place: with `copy_from_slice` the library for C would need `memmove` from outside beside `memcpy`.
    for i in 0..count {
        out[to + i] = rows[at + i];
    }
}

// Whether all numbers of a list are below a bound.
pub fn all_below(list: &[u16], bound: usize) -> bool
    ensures { result ≡ all_below bound list.now }
{
    list.iter().all(|&x| (x as usize) < bound)
}
