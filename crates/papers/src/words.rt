// Reading: the words of a line, as numbers and as bytes. A line is what is left of it to read.
ghost use Rattle.std.specs.Prelude.{◌<◌, ◌≤◌, length};
ghost use Rattle.std.specs.Counts.{IsPrefixLen as Within};

use spectra::Kind;

// The largest number of 16 bits.
const MAX_NUMBER: usize = 65535;

// The first place of a character, or the text's end where there is none.
fn place_of(text: &[u8], character: u8) -> usize
    ensures { Within result text.now }
{
    text.iter()
        .position(|&c| c == character)
        .unwrap_or(text.len())
}

// What stands before the first such character: the whole text where there is none.
pub(crate) fn before(text: &[u8], character: u8) -> &[u8] {
    let end = place_of(text, character);
    &text[..end]
}

// What stands behind the first such character: nothing where there is none.
pub(crate) fn behind(text: &[u8], character: u8) -> &[u8]
    ensures { 0 < length text.now → length result.now < length text.now }
{
    let end = place_of(text, character);
    if end == text.len() {
        return &text[end..];
    }
    &text[end + 1..]
}

// The first character; 0 where there is none, which is no task's letter.
pub fn letter(text: &[u8]) -> u8 {
    text.first().copied().unwrap_or(0)
}

// A line that a separator parts, from field `number` on, the first being field 0.
fn from_field(line: &[u8], number: usize, separator: u8) -> &[u8] {
    let mut rest = line;
    for _ in 0..number {
        rest = behind(rest, separator);
    }
    rest
}

// A line from word `number` on.
fn from_word(line: &[u8], number: usize) -> &[u8] {
    from_field(line, number, b' ')
}

// The kind of spectrum that word 1 names.
pub fn kind(line: &[u8]) -> Kind {
    match letter(from_word(line, 1)) {
        b'm' => Kind::Mrm,
        _ => Kind::Rm,
    }
}

// Word `number` as a decimal number; at most 65535. Digits are read by hand, here and below: `parse` and `to_digit` refuse
// what counts as 0.
pub fn decimal(line: &[u8], number: usize) -> usize {
    decimal_of(from_word(line, number))
}

// The decimal number that a text begins with, up to a colon or the word's end.
fn decimal_of(text: &[u8]) -> usize
    ensures { result ≤ 65535 }
{
    let mut value = 0;
    for &character in text {
        if character == b' ' || character == b':' {
            break;
        }
        value = next_value(value, character);
    }
    value
}

// The value of a number with one more digit.
fn next_value(value: usize, character: u8) -> usize
    requires { value ≤ 65535 }
    ensures { result ≤ 65535 }
{
    (value * 10 + digit(character) as usize).min(MAX_NUMBER)
}

// Puts the values of the fields from field `first` on at the start of `out`, as far as they fit, and answers how many there are.
fn put_fields<T: Drop, F: Fn(&[u8]) -> T>(
    line: &[u8],
    first: usize,
    separator: u8,
    out: &mut [T],
    value: F,
) -> usize
    requires { F.IsAlwaysCallable value }
    ensures { result ≤ length out.new }
{
    let mut rest = from_field(line, first, separator);
    for (count, place) in out.iter_mut().enumerate() {
        if rest.is_empty() {
            return count;
        }
        *place = value(rest);
        rest = behind(rest, separator);
    }
    out.len()
}

// The decimal numbers of the fields from field `first` on.
pub fn decimals(line: &[u8], first: usize, separator: u8, out: &mut [u16]) -> usize
    ensures { Within result out.new }
{
    put_fields(line, first, separator, out, |text| decimal_of(text) as u16)
}

// The bytes of the words from word `first` on, of two hexadecimal digits each.
pub fn bytes(line: &[u8], first: usize, out: &mut [u8]) -> usize
    ensures { Within result out.new }
{
    put_fields(line, first, b' ', out, byte_of)
}

// The byte of the two digits that a text begins with.
fn byte_of(text: &[u8]) -> u8 {
    match text {
        [] => 0,
        [high] => digit(*high) * 16,
        [high, low, ..] => digit(*high) * 16 + digit(*low),
    }
}

// The value of a hexadecimal digit; any other character counts as 0.
fn digit(character: u8) -> u8
    ensures { result < 16 }
{
    match character {
        b'0'..=b'9' => character - b'0',
        b'a'..=b'f' => character - b'a' + 10,
        _ => 0,
    }
}
