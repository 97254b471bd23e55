// A pen that puts bits one after the other into lent bytes. Bits that do not fill a byte yet wait in a number; each byte
// is put once, from the start on.
ghost use Rattle.std.specs.Prelude.{◌≡◌, [], ◌≤◌, ◌<◌, ◌^◌, All};
ghost use Rattle.bits.specs.Bits.{bits_of};
ghost use Rattle.job.specs.Layout.{line_bits};
ghost use Rattle.writing.specs.Writing.{entry_bits, gate_bits, fault_bits, all_bits};

use job::{FAULT_KIND_BITS, FaultEntry, GATE_KIND_BITS, GateEntry, LINE_BITS, PART_BITS};

// So many whole bytes are put, and the bits that wait for their byte to be full are a number. That there is room for a
// field, and that its value fits, are facts of that field, so contracts say them.
#[derive(Drop)]
pub(crate) struct Pen<'a> {
    out: &'a mut [u8],
    at: usize,
    waiting: usize,
    count: usize,
    ghost few: { count < 8 },
    ghost fits: { waiting < 2 ^ count },
}

impl<'a> Pen<'a> {
    ghost use Rattle.writing.specs.Pen.{inked_bytes, filled, HasRoom, Puts, EntryFits, GateFits, LineFits, FaultFits};

    // Begins at the start of the bytes.
    pub(crate) fn new(out: &'a mut [u8]) -> Pen<'a>
        ensures same_memory { result.out.ghost_name ≡ out.entry.ghost_name }
        ensures start { (result.out.now ≡ out.old) × (result.at ≡ 0) × (result.count ≡ 0) }
    {
        Pen {
            out,
            at: 0,
            waiting: 0,
            count: 0,
        }
    }

    // Puts a field, most significant bit first.
    pub(crate) fn field(&mut self, width: usize, value: usize)
        requires room { HasRoom self.old (bits_of width value) }
        requires narrow { width ≤ 8 }
        requires value_fits { value < 2 ^ width }
        ensures { Puts self.old (bits_of width value) self.new }
    {
        let count = self.count + width;
        let waiting = (self.waiting << width) + value;
        if count < 8 {
            self.waiting = waiting;
            self.count = count;
        } else {
            let over = count - 8;
            self.out[self.at] = (waiting >> over) as u8;
            self.at += 1;
            self.waiting = waiting % (1 << over);
            self.count = over;
        }
    }

    // Puts the three fields that a gate and a fault begin with.
    fn entry(&mut self, kind_bits: usize, kind: usize, a: usize, b: usize)
        requires room { HasRoom self.old (entry_bits kind_bits kind a b) }
        requires narrow { kind_bits ≤ 8 }
        requires entry_fits { EntryFits kind_bits kind a b }
        ensures { Puts self.old (entry_bits kind_bits kind a b) self.new }
    {
        self.field(kind_bits, kind);
        self.field(LINE_BITS, a);
        self.field(LINE_BITS, b);
    }

    // Puts the gates. Gates, outputs and faults have a loop each: one loop for all would take what puts an entry as a
    // closure, and be no plainer.
    pub(crate) fn gates(&mut self, gates: &[GateEntry])
        requires room { HasRoom self.old (all_bits gate_bits gates.now) }
        requires gates_fit { All GateFits gates.now }
        ensures { Puts self.old (all_bits gate_bits gates.now) self.new }
    {
        for entry in gates {
            let gate = entry.gate;
            self.entry(GATE_KIND_BITS, gate.kind(), gate.first(), gate.second());
        }
    }

    // Puts the output lines.
    pub(crate) fn outputs(&mut self, outputs: &[u8])
        requires room { HasRoom self.old (all_bits (bits_of line_bits) outputs.now) }
        requires lines_fit { All LineFits outputs.now }
        ensures { Puts self.old (all_bits (bits_of line_bits) outputs.now) self.new }
    {
        for &line in outputs {
            self.field(LINE_BITS, line as usize);
        }
    }

    // Puts the faults, each with its part.
    pub(crate) fn faults(&mut self, faults: &[FaultEntry])
        requires room { HasRoom self.old (all_bits fault_bits faults.now) }
        requires faults_fit { All FaultFits faults.now }
        ensures { Puts self.old (all_bits fault_bits faults.now) self.new }
    {
        for entry in faults {
            let fault = entry.fault;
            self.entry(FAULT_KIND_BITS, fault.kind(), fault.first(), fault.second());
            self.field(PART_BITS, entry.part as usize);
        }
    }

    // Fills the last byte up with zero bits.
    pub(crate) fn finish(self)
        requires { HasRoom self [] }
        ensures { self.exit.0.now ≡ filled (inked_bytes self.entry) self.entry.out.now }
    {
        let Pen {
            out,
            at,
            waiting,
            count,
        } = self;
        if 0 < count {
            out[at] = (waiting << (8 - count)) as u8;
        }
    }
}
