// Printing: lines of a word and numbers, each behind a space.
use bits::Refusal;

// Text within a line.
pub fn put(rt: &impl Print, text: &[u8]) {
    let _ = rt.write_all(text);
}

// A word, a space and a number.
fn put_number(rt: &impl Print, word: &[u8], number: usize) {
    put(rt, word);
    put(rt, b" ");
    let _ = rt.print(number);
}

// A line of the input, as it is.
pub fn name(rt: &impl Print, line: &[u8]) {
    put(rt, line);
    put(rt, b"\n");
}

// The line of a number.
pub fn number(rt: &impl Print, word: &[u8], number: usize) {
    put_number(rt, word, number);
    put(rt, b"\n");
}

// The line of two numbers.
pub fn pair(rt: &impl Print, word: &[u8], a: usize, b: usize) {
    put_number(rt, word, a);
    number(rt, b"", b);
}

// The line of a refused operation.
pub fn refusal(rt: &impl Print, cause: Refusal) {
    number(rt, b"refused", cause.number());
}

// The line of a job's counts.
pub fn counts(rt: &impl Print, inputs: usize, gates: usize, faults: usize) {
    put_number(rt, b"inputs", inputs);
    put_number(rt, b" gates", gates);
    number(rt, b" faults", faults);
}

fn put_entry(rt: &impl Print, number: u16) {
    put_number(rt, b"", number as usize);
}

// A space and the two hexadecimal digits of a byte.
fn put_byte(rt: &impl Print, byte: u8) {
    put(rt, b" ");
    let _ = print!(rt; "{byte:02x}");
}

// A line of a word and the first `count` items, as far as there are so many. A count beside the slice, here and below:
// `take` needs no proof that there are so many.
fn items<T: Copy, F: Fn(T)>(rt: &impl Print, word: &[u8], items: &[T], count: usize, put_item: F)
    requires { F.IsAlwaysCallable put_item }
{
    put(rt, word);
    for &item in items.iter().take(count) {
        put_item(item);
    }
    put(rt, b"\n");
}

// The line of the first `count` numbers.
pub fn numbers(rt: &impl Print, word: &[u8], numbers: &[u16], count: usize) {
    items(rt, word, numbers, count, |number| put_entry(rt, number));
}

// The same of bytes.
pub fn bytes(rt: &impl Print, word: &[u8], bytes: &[u8], count: usize) {
    items(rt, word, bytes, count, |byte| put_byte(rt, byte));
}

// An entry behind a space: index, colon, output.
fn put_pair(rt: &impl Print, index: usize, output: usize) {
    put_number(rt, b"", index);
    put(rt, b":");
    let _ = rt.print(output);
}

// The line of the first `count` entries, as far as there are so many.
pub fn entries(rt: &impl Print, word: &[u8], indices: &[u16], outputs: &[u16], count: usize) {
    put(rt, word);
    for (&index, &output) in indices.iter().zip(outputs).take(count) {
        put_pair(rt, index as usize, output as usize);
    }
    put(rt, b"\n");
}

// The line of a circuit's table.
pub fn circuit(rt: &impl Print, circuit: usize, table: &[u8]) {
    let _ = rt.print(circuit);
    bytes(rt, b"", table, table.len());
}

// The entries at which two rows of an output have different numbers.
pub fn unlike(rt: &impl Print, good: &[u16], faulty: &[u16], output: usize) {
    for (index, (a, b)) in good.iter().zip(faulty).enumerate() {
        if a != b {
            put_pair(rt, index, output);
        }
    }
}
