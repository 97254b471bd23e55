// The table of answers, and the gate step over packed tables. Each function makes sure by itself that what it reads and
// writes lies where it should, and else does nothing.
//
// A row of four answers becomes a polynomial over bytes, constant ^ (first & x) ^ (second & y) ^ (both & x & y), once
// for each kind of gate: reading the constant table in the loop over bytes would write it to the stack each time. The
// step is one for all kinds (`step::combine_bytes`), and the only place that a faster one would change. The polynomial
// is cut to the bits that are entries, so that spare bits come out 0 whatever the operands hold.
#![tactic(auto)]

ghost use Rattle.std.specs.Prelude.{◌≡◌, cond, ◌<◌, length, slice_index, EachIndex};
ghost use Rattle.bits.specs.Packed.{tabulate};
ghost use Rattle.job.specs.Record.{gate_kind};
ghost use Rattle.gates.specs.Polynomial.{alternating, combined, kind_polynomial};
ghost use Rattle.gates.specs.Rows.{step_fits, alternate_fits};
ghost use Rattle.bits.specs.Slices.{splice};

use job::Gate;

mod step;

// "The answers of the eight kinds on 00, 01, 10 and 11 stand in a table": AND, OR, NAND, NOR, XOR, XNOR, NOT and BUF.
const ANSWERS: [[u8; 4]; 8] = [
    [0, 0, 0, 1],
    [0, 1, 1, 1],
    [1, 1, 1, 0],
    [1, 0, 0, 0],
    [0, 1, 1, 0],
    [1, 0, 0, 1],
    [1, 1, 0, 0],
    [0, 0, 1, 1],
];

// A gate's answers over packed bytes, as the polynomial constant ^ (first & x) ^ (second & y) ^ (both & x & y).
#[derive(Clone, Copy, Debug, PartialEq, Eq)]
pub struct Polynomial {
    pub constant: u8,
    pub first: u8,
    pub second: u8,
    pub both: u8,
}

// The polynomial of a gate, over the bits of a mask. The constant table is read here, and never in the loop over bytes.
pub fn polynomial_of(gate: Gate, mask: u8) -> Polynomial
    ensures { result ≡ kind_polynomial (gate_kind gate) mask }
{
    let [none, second, first, both] = ANSWERS[gate.kind()];
    Polynomial {
        constant: (255 * none) & mask,
        first: (255 * (none ^ first)) & mask,
        second: (255 * (none ^ second)) & mask,
        both: (255 * ((none ^ second) ^ (first ^ both))) & mask,
    }
}

const BYTE_BITS: usize = 8;

// The gate step: combines two packed tables of `count` bytes, at x and y, into the one at `to`, if that one ends within the rows and both end before it.
pub fn combine(rows: &mut [u8], x: usize, y: usize, to: usize, count: usize, polynomial: Polynomial)
    ensures { rows.new ≡ cond (step_fits x y to count (length rows.old)) (splice rows.old to (tabulate count (combined polynomial x y rows.old))) rows.old }
{
    if bits::has_room(rows.len(), to, count)
        && bits::has_room(to, x, count)
        && bits::has_room(to, y, count)
    {
        step::combine_bytes(rows, step::Places { x, y, to }, count, polynomial);
    }
}

// Fills `count` bytes at `to`, byte i with eight copies of bit `bit` of i, if they end within the rows and a byte has such a bit.
pub fn alternate(rows: &mut [u8], to: usize, count: usize, bit: usize)
    ensures { rows.new ≡ cond (alternate_fits to count bit (length rows.old)) (splice rows.old to (tabulate count (alternating bit))) rows.old }
{
    if bits::has_room(rows.len(), to, count) && bit < BYTE_BITS {
        alternate_bytes(&mut rows[to..to + count], bit);
    }
}

// In bytes throughout, so that many are worked out at a time.
fn alternate_bytes(bytes: &mut [u8], bit: usize)
    requires { bit < 8 }
    ensures { EachIndex bytes.new (λ i. slice_index bytes.new i ≡ alternating bit i) }
{
    for (i, byte) in bytes.iter_mut().enumerate() {
        let low = (i % 256) as u8;
        *byte = 255 * ((low >> bit) % 2);
    }
}
