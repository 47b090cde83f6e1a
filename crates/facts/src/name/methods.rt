ghost use Rattle.std.specs.Prelude.{◌≡◌, ◌<◌, ◌≤◌, ◌++◌, Some, codes, decimal, MatchOption};

use super::Name;
use std::fmt;

impl Name {
    // The name with this index, or none from 32 on. A `TryFrom` could say no more in its error.
    pub fn new(index: u8) -> Option<Name>
        ensures { MatchOption result (32 ≤ index) (λ n. n.index ≡ index) }
    {
        if index < 32 {
            Some(Name { index })
        } else {
            None
        }
    }

    // No other name has it.
    pub fn index(self) -> u8
        ensures value { result ≡ self.index }
        ensures bound { result < 32 }
        ensures one { (n : Name) → n.index ≡ result → n ≡ self }
    {
        self.index
    }
}

// A name's place in a list of one entry for each name.
impl From<Name> for usize {
    ghost from_gives = { λ name place. place ≡ name.index };

    fn from(name: Name) -> usize {
        usize::from(name.index)
    }
}

// A name is written n0 to n31.
impl fmt::Display for Name {
    ghost output = { λ x. Some (codes "n" ++ decimal x.index) };

    fn fmt<W: fmt::Write>(&self, f: &mut fmt::Formatter<W>) -> fmt::Result {
        let index = self.index;
        write!(f, "n{index}")
    }
}
