// What a check answers.
use crate::cause::Cause;
use std::fmt;

/// How many literals and steps were taken, and how many of these steps are splits.
#[derive(Clone, Copy, Default, PartialEq, Eq, Debug)]
pub struct Taken {
    pub literals: usize,
    pub steps: usize,
    pub splits: usize,
}

impl Taken {
    // Literals and steps together.
    pub(crate) fn calls(&self) -> usize {
        self.literals.saturating_add(self.steps)
    }
}

impl fmt::Display for Taken {
    fn fmt<W: fmt::Write>(&self, f: &mut fmt::Formatter<W>) -> fmt::Result {
        let Taken {
            literals,
            steps,
            splits,
        } = *self;
        write!(f, "literals {literals} steps {steps} splits {splits}")
    }
}

/// The answer to a file, with its counts, or with where and why a record was refused.
#[derive(Clone, Copy, PartialEq, Eq, Debug)]
pub enum Verdict {
    Established(Taken),
    Open {
        taken: Taken,
        branches: usize,
    },
    Refused {
        cause: Cause,
        offset: usize,
        place: usize,
        depth: usize,
    },
}

impl fmt::Display for Verdict {
    fn fmt<W: fmt::Write>(&self, f: &mut fmt::Formatter<W>) -> fmt::Result {
        match *self {
            Verdict::Established(taken) => write!(f, "ESTABLISHED {taken}"),
            Verdict::Open { taken, branches } => write!(f, "OPEN {taken} branches {branches}"),
            Verdict::Refused {
                cause,
                offset,
                place,
                depth,
            } => {
                let number = cause.refusal.number();
                let side = cause.side;
                let theory = cause.theory_number();
                let detail = cause.detail;
                write!(
                    f,
                    "REFUSED {number} offset {offset} place {place} depth {depth} side {side} theory {theory} detail {detail}"
                )
            }
        }
    }
}
