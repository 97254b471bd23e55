// The gate step where the places lie right: eight bytes at a time where eight are left, single bytes for the remainder.
//
// A word is eight bytes that are read, worked out and written together. It is a struct, so that each is a byte of the
// definition and the compiler takes the eight at once: an array of them stays in memory, and takes ten times as long.
// Two words a turn fill its registers; both are worked out before the first is written, since the compiler can't know
// that the tables that are read end before the one that is written. Places in one slice, and not three slices: from
// those the loop takes up to a fifth longer.
ghost use Rattle.std.specs.Prelude.{◌≡◌, ◌+◌, ◌≤◌, ◌<◌, ◌^◌, length, get_or};
ghost use Rattle.bits.specs.Slices.{splice};
ghost use Rattle.gates.specs.Polynomial.{step};
ghost use Rattle.gates.specs.Words.{word_of, bytes_of, word_step, further, stepped, Apart};

use crate::Polynomial;

const WORD: usize = 8;

#[derive(Clone, Copy)]
struct Word {
    b0: u8,
    b1: u8,
    b2: u8,
    b3: u8,
    b4: u8,
    b5: u8,
    b6: u8,
    b7: u8,
}

impl Word {
    fn at(rows: &[u8], at: usize) -> Word
        requires { at + 8 ≤ length rows.now }
        ensures { result ≡ word_of (λ i. get_or rows.now (at + i) 0) }
    {
        Word {
            b0: rows[at],
            b1: rows[at + 1],
            b2: rows[at + 2],
            b3: rows[at + 3],
            b4: rows[at + 4],
            b5: rows[at + 5],
            b6: rows[at + 6],
            b7: rows[at + 7],
        }
    }

    fn put(self, rows: &mut [u8], to: usize)
        requires { to + 8 ≤ length rows.old }
        ensures { rows.new ≡ splice rows.old to (bytes_of self) }
    {
        rows[to] = self.b0;
        rows[to + 1] = self.b1;
        rows[to + 2] = self.b2;
        rows[to + 3] = self.b3;
        rows[to + 4] = self.b4;
        rows[to + 5] = self.b5;
        rows[to + 6] = self.b6;
        rows[to + 7] = self.b7;
    }
}

impl Polynomial {
    // The polynomial's value at two bytes.
    fn byte_step(self, x: u8, y: u8) -> u8
        ensures { result ≡ step self x y }
    {
        self.constant ^ (self.first & x) ^ (self.second & y) ^ (self.both & (x & y))
    }

    // The same at the eight bytes of two words.
    fn word_step(self, x: Word, y: Word) -> Word
        ensures { result ≡ word_step self x y }
    {
        Word {
            b0: self.byte_step(x.b0, y.b0),
            b1: self.byte_step(x.b1, y.b1),
            b2: self.byte_step(x.b2, y.b2),
            b3: self.byte_step(x.b3, y.b3),
            b4: self.byte_step(x.b4, y.b4),
            b5: self.byte_step(x.b5, y.b5),
            b6: self.byte_step(x.b6, y.b6),
            b7: self.byte_step(x.b7, y.b7),
        }
    }
}

// Where the two tables that are read start in the rows, and the one that is written. That so many bytes there lie apart
// (`Apart`) is a fact of the rows too, so contracts say it.
#[derive(Clone, Copy)]
pub(crate) struct Places {
    pub(crate) x: usize,
    pub(crate) y: usize,
    pub(crate) to: usize,
}

impl Places {
    // The places so many bytes further on.
    fn further(self, by: usize) -> Places
        requires { (self.x + by < 2 ^ 64) × (self.y + by < 2 ^ 64) × (self.to + by < 2 ^ 64) }
        ensures { result ≡ further self by }
    {
        Places {
            x: self.x + by,
            y: self.y + by,
            to: self.to + by,
        }
    }
}

// Combines two packed tables of `count` bytes into one.
pub(crate) fn combine_bytes(rows: &mut [u8], places: Places, count: usize, polynomial: Polynomial)
    requires { Apart places count rows.old }
    ensures { rows.new ≡ stepped polynomial places count rows.old }
{
    let Places { x, y, to } = places;
    let done = whole_words(rows, places, count, polynomial);
    for i in done..count {
        rows[to + i] = polynomial.byte_step(rows[x + i], rows[y + i]);
    }
}

// As many words as there are; gives how many bytes that makes.
fn whole_words(rows: &mut [u8], places: Places, count: usize, polynomial: Polynomial) -> usize
    requires { Apart places count rows.old }
    ensures within { result ≤ count }
    ensures nearly_all { count < result + 8 }
    ensures done { rows.new ≡ stepped polynomial places result rows.old }
{
    let words = count / WORD;
    for pair in 0..words / 2 {
        two_words(rows, places.further(2 * WORD * pair), polynomial);
    }
    if words % 2 == 1 {
        one_word(rows, places.further(WORD * (words - 1)), polynomial);
    }
    WORD * words
}

fn one_word(rows: &mut [u8], places: Places, polynomial: Polynomial)
    requires { Apart places 8 rows.old }
    ensures { rows.new ≡ stepped polynomial places 8 rows.old }
{
    let word = polynomial.word_step(Word::at(rows, places.x), Word::at(rows, places.y));
    word.put(rows, places.to);
}

fn two_words(rows: &mut [u8], places: Places, polynomial: Polynomial)
    requires { Apart places 16 rows.old }
    ensures { rows.new ≡ stepped polynomial places 16 rows.old }
{
    let Places { x, y, to } = places;
    let one = polynomial.word_step(Word::at(rows, x), Word::at(rows, y));
    let other = polynomial.word_step(Word::at(rows, x + WORD), Word::at(rows, y + WORD));
    one.put(rows, to);
    other.put(rows, to + WORD);
}
