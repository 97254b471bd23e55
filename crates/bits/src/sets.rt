// Sets of numbers below 64, a number a bit of a word.
ghost use Rattle.std.specs.Prelude.{ℕ, ◌≡◌};
ghost use Rattle.std.specs.Iterator.{at_most};
ghost use Rattle.bits.specs.Sets.{joined, later, lowest, YieldsLowest};

use std::marker::Model;

// So many numbers a set may have.
pub const MAX_MEMBERS: usize = 64;

// The lowest member; of the empty set, MAX_MEMBERS. No Option: callers have tested that there is one.
pub fn lowest(set: u64) -> usize
    ensures { result ≡ lowest set }
{
    set.trailing_zeros() as usize
}

// The set without its lowest member; the empty set stays.
pub fn later(set: u64) -> u64
    ensures { result ≡ later set }
{
    if set == 0 {
        return 0;
    }
    set & (set - 1)
}

// The set with one member more; a larger number is none.
pub fn joined(set: u64, member: usize) -> u64
    ensures { result ≡ joined set member }
{
    if MAX_MEMBERS <= member {
        return set;
    }
    set | (1 << member)
}

// The members of a set, the lowest first.
#[derive(Drop)]
pub struct Members {
    left: u64,
}

impl Model for Members {
    ghost Value = { ℕ };

    ghost view = { λ m. m.left };
}

pub fn members_of(set: u64) -> Members
    ensures { result ≡ set }
{
    Members { left: set }
}

impl Iterator for Members {
    type Item = usize;

    ghost next_gives = { YieldsLowest };

    ghost remaining = { at_most };

    fn next(&mut self) -> Option<usize> {
        if self.left == 0 {
            return None;
        }
        let member = lowest(self.left);
        self.left = later(self.left);
        Some(member)
    }
}
