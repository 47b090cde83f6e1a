ghost use Rattle.std.specs.Prelude.{◌≡◌, ◌<◌, ◌≤◌, MatchOption};

use super::Symbol;

impl Symbol {
    // The symbol with this index, or none from 16 on. A `TryFrom` could say no more in its error.
    pub fn new(index: u8) -> Option<Symbol>
        ensures { MatchOption result (16 ≤ index) (λ s. s.index ≡ index) }
    {
        if index < 16 {
            Some(Symbol { index })
        } else {
            None
        }
    }

    // No other symbol has it.
    pub fn index(self) -> u8
        ensures value { result ≡ self.index }
        ensures one { (s : Symbol) → s.index ≡ result → s ≡ self }
    {
        self.index
    }
}
