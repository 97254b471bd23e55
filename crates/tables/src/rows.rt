// The size of a packed table, the polynomials of gates cut to it, and rows: of inputs, and of what a fault gives its
// lines.
ghost use Rattle.std.specs.Prelude.{◌≡◌, cond, ◌*◌, ◌^◌, ◌<◌};
ghost use Rattle.bits.specs.Packed.{packed};
ghost use Rattle.job.specs.Record.{fault_a, fault_b};
ghost use Rattle.gates.specs.Polynomial.{kind_polynomial};
ghost use Rattle.bits.specs.Slices.{splice};
ghost use Rattle.gates.specs.Values.{input_value};
ghost use Rattle.bits.specs.Blocks.{block};
ghost use Rattle.tables.specs.Sizes.{shape_within, Formed, Space, Below, fixed_row};

use gates::Polynomial;
use job::{BinaryKind, Fault, Gate};

// The kinds of gates.
pub(crate) const KINDS: usize = 8;

// The inputs of a table, its bytes, and the bits of each byte that are entries.
#[derive(Clone, Copy, Debug, PartialEq, Eq)]
pub(crate) struct Shape {
    pub(crate) inputs: usize,
    pub(crate) bytes: usize,
    mask: u8,
}

impl Shape {
    // The shape of the tables of so many inputs; no bytes where no word holds the number of entries.
    pub(crate) fn new(inputs: usize) -> Self
        ensures { result ≡ shape_within inputs }
    {
        let mask = match inputs {
            0 => 128,
            1 => 192,
            2 => 240,
            _ => 255,
        };
        Shape {
            inputs,
            bytes: bits::table_bytes(inputs),
            mask,
        }
    }

    // The polynomial of each kind of gate, by the kind's number. A loop, since what a call of `array::from_fn` says of
    // each element does not tie it to the mask.
    pub(crate) fn polynomials(self) -> [Polynomial; KINDS]
        ensures { Formed self.mask result }
    {
        let none = Polynomial {
            constant: 0,
            first: 0,
            second: 0,
            both: 0,
        };
        let mut polynomials = [none; KINDS];
        for (kind, polynomial) in polynomials.iter_mut().enumerate() {
            *polynomial = gates::polynomial_of(job::gate_of(kind, 0, 0), self.mask);
        }
        polynomials
    }

    // The tables of an input, for `count` circuits side by side: within a byte x1 is 01010101, x2 00110011 and x3
    // 00001111; a further input is the same over whole bytes, and a table has as many bytes as make it start anew.
    pub(crate) fn input_block(self, rows: &mut [u8], line: usize, to: usize, count: usize)
        requires { Space self to count rows.old × (line < self.inputs) }
        ensures { rows.new ≡ splice rows.old to (block count (λ i. packed (2 ^ self.inputs) (λ m. input_value m line))) }
    {
        let bytes = count * self.bytes;
        let mask = self.mask;
        if line < 3 {
            let pattern = match line {
                0 => 85,
                1 => 51,
                _ => 15,
            };
            bits::fill(rows, to, bytes, pattern & mask);
        } else {
            gates::alternate(rows, to, bytes, line - 3);
        }
    }

    // The polynomial of a bridge: that of an AND gate, or of an OR gate.
    fn bridge_polynomial(self, is_and: bool) -> Polynomial
        ensures { result ≡ kind_polynomial (cond is_and 0 1) self.mask }
    {
        let kind = if is_and {
            BinaryKind::And
        } else {
            BinaryKind::Or
        };
        gates::polynomial_of(Gate::Binary(kind, 0, 0), self.mask)
    }

    // The table that a fault gives its lines: a level, or the bridge of the good circuit's tables of the two lines,
    // which are the first rows.
    pub(crate) fn fix_row(self, rows: &mut [u8], to: usize, fault: Fault)
        requires { Below self (fault_a fault * self.bytes) (fault_b fault * self.bytes) to rows.old }
        ensures { rows.new ≡ splice rows.old to (fixed_row self fault rows.old) }
    {
        let bytes = self.bytes;
        match fault {
            Fault::Stuck(_, level) => {
                let byte = if level { self.mask } else { 0 };
                bits::fill(rows, to, bytes, byte);
            }
            Fault::Bridge(low, high, is_and) => {
                let x = low as usize * bytes;
                let y = high as usize * bytes;
                let polynomial = self.bridge_polynomial(is_and);
                gates::combine(rows, x, y, to, bytes, polynomial);
            }
        }
    }
}
