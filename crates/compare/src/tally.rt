// What a group of files came to.
ghost use Rattle.std.specs.Prelude.{◌≡◌, ◌+◌, min, MatchBool};

use second::Verdict;
use std::fmt;

// Verdicts by kind, refusals by number, and how often two checkers said different things.
#[derive(Clone, Copy)]
pub struct Tally {
    files: u32,
    established: u32,
    open: u32,
    refused: [u32; 19],
    disagreements: u32,
}

// Counts one more.
fn one_more(count: &mut u32)
    ensures { count.new ≡ min (count.old + 1) 4294967295 }
{
    *count = count.saturating_add(1);
}

impl Tally {
    pub fn new() -> Tally
        ensures files { result.files ≡ 0 }
        ensures disagreements { result.disagreements ≡ 0 }
    {
        Tally {
            files: 0,
            established: 0,
            open: 0,
            refused: [0; 19],
            disagreements: 0,
        }
    }

    // Counts a verdict, and a disagreement unless both checkers wrote the same line.
    pub fn add(&mut self, verdict: Verdict, agreed: bool)
        ensures files { self.new.files ≡ min (self.old.files + 1) 4294967295 }
        ensures disagreements { MatchBool agreed (self.new.disagreements ≡ self.old.disagreements) (self.new.disagreements ≡ min (self.old.disagreements + 1) 4294967295) }
    {
        self.count(verdict);
        if !agreed {
            one_more(&mut self.disagreements);
        }
    }

    fn count(&mut self, verdict: Verdict)
        ensures files { self.new.files ≡ min (self.old.files + 1) 4294967295 }
        ensures disagreements { self.new.disagreements ≡ self.old.disagreements }
    {
        one_more(&mut self.files);
        match verdict {
            Verdict::Established(_) => one_more(&mut self.established),
            Verdict::Open { .. } => one_more(&mut self.open),
            Verdict::Refused { cause, .. } => one_more(&mut self.refused[cause.refusal.number()]),
        }
    }
}

impl fmt::Display for Tally {
    fn fmt<W: fmt::Write>(&self, f: &mut fmt::Formatter<W>) -> fmt::Result {
        let files = self.files;
        let established = self.established;
        let open = self.open;
        let disagreements = self.disagreements;
        write!(
            f,
            "checks {files} established {established} open {open} refused"
        )?;
        for (number, count) in self.refused.iter().enumerate() {
            if *count > 0 {
                write!(f, " {number}:{count}")?;
            }
        }
        write!(f, " disagreements {disagreements}")
    }
}
