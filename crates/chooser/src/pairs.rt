// The pairs of rows that are not told apart yet: for each row the set of the rows that it is paired with, as the bits
// of a word.
//
// An entry tells nothing apart where every row has the number of its lowest partner (`is_clear`), so that one
// comparison a row decides. An entry that is taken groups the rows by their numbers, and the rows of a group stay
// paired with each other only (`refine`).
ghost use Rattle.std.specs.Prelude.{ℕ, ◌≤◌, ◌<◌, ◌≡◌, true, not, eqb, List, length, replicate, position, All};
ghost use Rattle.method.specs.Method.{first_pair};
ghost use Rattle.chooser.specs.Matrix.{max_rows};
ghost use Rattle.chooser.specs.Pairing.{numbers, pair_of, pair_or_nobody, max_marks, Counted, Marked, Paired, Listed, Within, There, Sound, Having, Narrowed, Leaves, meets, equal_at, clear};

use crate::MAX_ROWS;
use crate::matrix::Matrix;
use bits::sets;
use std::marker::Model;

// A mark is a byte.
const MARKS: usize = 256;

// A set of partners for each row; clauses see the list of these. That the rows have their numbers in a matrix (`There`)
// is no fact of the pairs alone, so contracts say it.
#[derive(Clone, Copy)]
pub(crate) struct Pairs {
    partners: [u64; MAX_ROWS],
}

impl Model for Pairs {
    ghost Value = { List ℕ };

    ghost view = { λ p. p.partners };

    ghost invariant = { λ p. Sound p.partners };

    ghost inverse = { λ l. record { partners = l } };
}

impl Pairs {
    // Every two rows whose marks differ. The rows are counted beside the marks, as in the definition (`choice`): more marks
    // than rows may be lent.
    pub(crate) fn new(rows: usize, marks: &[u8]) -> Self
        requires { (rows ≤ max_rows) × (rows ≤ length marks.now) }
        ensures { Paired rows marks.now result }
    {
        let mut of = [0u64; MARKS];
        let all = by_mark(rows, marks, &mut of);
        let mut partners = [0u64; MAX_ROWS];
        pair_others(rows, marks, &of, all, &mut partners);
        Pairs { partners }
    }

    // The rows that are in a pair: pairs go both ways, so these are the partners of all rows.
    fn rows(&self) -> u64
        ensures { Listed result self.now }
    {
        let mut rows = 0;
        for partners in &self.partners {
            rows |= *partners;
        }
        rows
    }

    // The lowest row that is in a pair, and the lowest that it is paired with.
    pub(crate) fn first(&self) -> Option<(usize, usize)>
        ensures { pair_or_nobody result ≡ first_pair max_rows (pair_of self.now) }
    {
        let rows = self.rows();
        if rows == 0 {
            return None;
        }
        let a = sets::lowest(rows);
        Some((a, sets::lowest(self.partners[a])))
    }

    // Whether no pair is in both.
    pub(crate) fn is_apart_from(&self, others: &Pairs) -> bool
        ensures { result ≡ not (meets (pair_of self.now) (pair_of others.now)) }
    {
        let mut both = 0;
        for c in 0..MAX_ROWS {
            both |= self.partners[c] & others.partners[c];
        }
        both == 0
    }

    // Whether an entry tells no pair apart: every row has the number of the lowest row that it is paired with.
    fn is_clear(&self, matrix: Matrix, entry: usize, rows: u64) -> bool
        requires { There matrix self.now × Listed rows self.now × (entry < matrix.width) }
        ensures { result ≡ clear (numbers matrix.entry) (pair_of self.now) entry }
    {
        for c in sets::members_of(rows) {
            let k = sets::lowest(self.partners[c]);
            if matrix.cell(c, entry) != matrix.cell(k, entry) {
                return false;
            }
        }
        true
    }

    // The place of the first entry that tells a pair apart.
    pub(crate) fn next(&self, matrix: Matrix, scan: &[u16]) -> Option<usize>
        requires { There matrix self.now × All (λ e. e < matrix.width) scan.now }
        ensures { result ≡ position (λ e. not (clear (numbers matrix.entry) (pair_of self.now) e)) scan.now }
    {
        let rows = self.rows();
        if rows == 0 {
            return None;
        }
        scan.iter()
            .position(|entry| !self.is_clear(matrix, *entry as usize, rows))
    }

    // Only the pairs stay that an entry does not tell apart: the rows that have a number there are narrowed, number after number.
    pub(crate) fn refine(&mut self, matrix: Matrix, entry: usize)
        requires { There matrix self.old × (entry < matrix.width) }
        ensures { Leaves self.old (equal_at (numbers matrix.entry) entry) self.new }
    {
        let mut left = self.rows();
        // a turn takes a group of rows
        while left != 0 {
            let number = matrix.cell(sets::lowest(left), entry);
            let set = having(matrix, entry, left, number);
            narrow(&mut self.partners, set);
            left ^= set;
        }
    }
}

// Puts each row into the set of its mark. Gives the set of all rows.
fn by_mark(rows: usize, marks: &[u8], of: &mut [u64; MARKS]) -> u64
    requires { (rows ≤ max_rows) × (rows ≤ length marks.now) × (of.old ≡ replicate max_marks 0) }
    ensures { Counted rows result × Marked rows marks.now of.new }
{
    let mut all = 0;
    for c in 0..rows {
        let mark = marks[c] as usize;
        of[mark] = sets::joined(of[mark], c);
        all = sets::joined(all, c);
    }
    all
}

// Pairs each row with the rows that have not its mark.
fn pair_others(rows: usize, marks: &[u8], of: &[u64; MARKS], all: u64, pairs: &mut [u64; MAX_ROWS])
    requires { (rows ≤ max_rows) × (rows ≤ length marks.now) × Counted rows all × Marked rows marks.now of.now × (pairs.old ≡ replicate max_rows 0) }
    ensures { Paired rows marks.now pairs.new }
{
    for c in 0..rows {
        pairs[c] = all ^ of[marks[c] as usize];
    }
}

// Of a set of rows those that have a number at an entry.
fn having(matrix: Matrix, entry: usize, rows: u64, number: u16) -> u64
    requires { Within matrix rows × (entry < matrix.width) }
    ensures { Having (λ k. eqb (numbers matrix.entry k entry) number) rows result }
{
    let mut set = 0;
    for c in sets::members_of(rows) {
        if matrix.cell(c, entry) == number {
            set = sets::joined(set, c);
        }
    }
    set
}

// The rows of a set stay paired with each other only.
fn narrow(pairs: &mut [u64; MAX_ROWS], set: u64)
    requires { length pairs.old ≡ max_rows }
    ensures { Narrowed set pairs.old pairs.new }
{
    for c in sets::members_of(set) {
        pairs[c] &= set;
    }
}
