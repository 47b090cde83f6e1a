// Pseudo-random choices.
ghost use Rattle.std.specs.Prelude.{◌<◌};

use crate::record::{Names, Relation, Term};

/// SplitMix64: a counter that rises by an odd constant, and a mixing of its bits.
#[derive(Clone, Copy)]
pub struct Random {
    state: u64,
}

impl Random {
    // The choices that follow from a seed.
    pub fn new(seed: u64) -> Random {
        Random { state: seed }
    }

    // The next number.
    pub fn next(&mut self) -> u64 {
        self.state = self.state.wrapping_add(0x9E37_79B9_7F4A_7C15);
        let x = self.state;
        let y = (x ^ (x >> 30)).wrapping_mul(0xBF58_476D_1CE4_E5B9);
        let z = (y ^ (y >> 27)).wrapping_mul(0x94D0_49BB_1331_11EB);
        z ^ (z >> 31)
    }

    // Any byte.
    pub fn any_byte(&mut self) -> u8 {
        (self.next() & 0xff) as u8
    }

    // `byte`, `count` and `index` are not one function: it would convert the bound and the answer at each width.
    // A byte below a bound, or 0.
    pub fn byte(&mut self, bound: u8) -> u8 {
        self.any_byte().checked_rem(bound).unwrap_or(0)
    }

    // A count below a bound, or 0.
    pub fn count(&mut self, bound: u16) -> u16 {
        let x = (self.next() & 0xffff) as u16;
        x.checked_rem(bound).unwrap_or(0)
    }

    // A number below a bound, or 0.
    pub fn small(&mut self, bound: u16) -> i32 {
        i32::from(self.count(bound))
    }

    // A number below a bound in size.
    pub fn signed(&mut self, bound: u16) -> i32 {
        let x = self.small(bound);
        if self.coin() { x.saturating_neg() } else { x }
    }

    // An index below a bound, or 0.
    pub fn index(&mut self, bound: usize) -> usize
        ensures { 0 < bound → result < bound }
    {
        let x = (self.next() & 0xffff_ffff) as usize;
        x.checked_rem(bound).unwrap_or(0)
    }

    // One of two.
    pub fn coin(&mut self) -> bool {
        self.next() & 1 == 1
    }

    // True once in so many times.
    pub fn once_in(&mut self, times: u8) -> bool {
        self.byte(times) == 0
    }

    // One of the values.
    pub fn pick<T: Copy, const N: usize>(&mut self, from: &[T; N]) -> T
        requires { 0 < N }
    {
        from[self.index(N)]
    }

    // A name.
    pub fn name(&mut self) -> u8 {
        self.byte(32)
    }

    // Two names, which may be the same.
    pub fn any_names(&mut self) -> Names {
        let first = self.name();
        Names(first, self.name())
    }

    // Two different names.
    pub fn names(&mut self) -> Names {
        let first = self.name();
        let step = self.byte(31);
        Names(first, first.wrapping_add(1).wrapping_add(step) % 32)
    }

    // A term in range.
    pub fn term(&mut self) -> Term {
        let letter = self.byte(16);
        let Names(first, second) = self.any_names();
        match self.byte(3) {
            0 => Term::bare(first),
            1 => Term::one(letter, first),
            _ => Term::two(letter, first, second),
        }
    }

    // A relation.
    pub fn relation(&mut self) -> Relation {
        match self.byte(3) {
            0 => Relation::AtLeast,
            1 => Relation::Above,
            _ => Relation::Zero,
        }
    }
}
