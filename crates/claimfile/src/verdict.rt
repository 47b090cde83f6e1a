// What is said of a claim file, and the line that says it.
ghost use Rattle.claimfile.specs.Lines.{verdict_line};
ghost use Rattle.std.specs.Prelude.{Some};

use claim::{Line, Seal};
use facts::RecordFault;
use std::fmt;

// What an open claim has taken, and how many branches are left.
#[derive(Clone, Copy)]
pub struct Unfinished {
    pub line: Line,
    pub branches: u32,
}

#[derive(Drop)]
pub enum Verdict {
    // every branch is finished
    Established(Seal),
    // every record was taken, and some branch is left
    Open(Unfinished),
    // a record was refused
    Refused(RecordFault),
}

// The verdict as a line, without its end.
impl fmt::Display for Verdict {
    ghost output = { λ x. Some (verdict_line x) };

    fn fmt<W: fmt::Write>(&self, f: &mut fmt::Formatter<W>) -> fmt::Result {
        match self {
            Verdict::Established(seal) => {
                let line = Line::from(seal);
                write!(f, "ESTABLISHED {line}")
            }
            Verdict::Open(left) => {
                let Unfinished { line, branches } = *left;
                write!(f, "OPEN {line} branches {branches}")
            }
            Verdict::Refused(fault) => write!(f, "{fault}"),
        }
    }
}
