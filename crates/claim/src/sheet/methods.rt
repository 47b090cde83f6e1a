ghost use Rattle.std.specs.Prelude.{◌≡◌, [], Some};
ghost use Rattle.claim.specs.Sheets.{Entered, sheet_lines, counts_line, line_of, line_text};

use super::{Line, Sheet};
use crate::counts::Counts;
use crate::seal::Seal;
use facts::Refusal;
use std::fmt;

// How many seals a sheet takes.
pub const MOST_LINES: usize = 64;

// A seal that found no line, handed back.
#[derive(Drop)]
pub struct Unentered {
    pub seal: Seal,
    pub refusal: Refusal,
}

impl From<Counts> for Line {
    ghost from_gives = { λ counts line. line ≡ counts_line counts };

    fn from(counts: Counts) -> Line {
        Line {
            literals: counts.literals(),
            steps: counts.steps(),
            splits: counts.splits(),
        }
    }
}

impl From<&Seal> for Line {
    ghost from_gives = { λ seal line. line ≡ line_of seal.now };

    fn from(seal: &Seal) -> Line {
        Line::from(seal.counts())
    }
}

impl fmt::Display for Line {
    ghost output = { λ x. Some (line_text x) };

    fn fmt<W: fmt::Write>(&self, f: &mut fmt::Formatter<W>) -> fmt::Result {
        let Line {
            literals,
            steps,
            splits,
        } = *self;
        write!(f, "literals {literals} steps {steps} splits {splits}")
    }
}

impl Sheet {
    pub fn new() -> Sheet
        ensures { sheet_lines result ≡ [] }
    {
        Sheet {
            lines: [Line {
                literals: 0,
                steps: 0,
                splits: 0,
            }; 64],
            used: 0,
        }
    }

    // Uses a seal up: writes its counts on the next line and no other, and gives that line's number.
    pub fn enter(&mut self, seal: Seal) -> Result<usize, Unentered>
        ensures { Entered seal result self.old self.new }
    {
        let next = self.used;
        if next >= MOST_LINES {
            return Err(Unentered {
                seal,
                refusal: Refusal::SheetFull,
            });
        }
        self.lines[next] = Line::from(&seal);
        self.used = next + 1;
        Ok(next)
    }
}
