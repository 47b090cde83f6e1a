// What a closed claim ends in, and the sheet that seals are entered on.
ghost use Rattle.std.specs.Prelude.{◌≡◌};

use crate::counts::Counts;

// The mark of a closed claim: how many literals and steps it took, and how many of the steps were
// splits. Only the end of a derivation makes one, and it can be entered once.
#[derive(Drop)]
pub struct Seal {
    counts: Counts,
}

// How a derivation ends: sealed, or with so many branches left.
// An open ending is no error, so this is no `Result`.
#[derive(Drop)]
pub enum Ending {
    Sealed(Seal),
    Open(u32),
}

impl Seal {
    pub(crate) fn new(counts: Counts) -> Seal
        ensures { result.counts ≡ counts }
    {
        Seal { counts }
    }

    pub(crate) fn counts(&self) -> Counts
        ensures { result ≡ self.now.counts }
    {
        self.counts
    }

    pub fn literals(&self) -> u32
        ensures { result ≡ self.now.counts.literals }
    {
        self.counts.literals()
    }

    pub fn steps(&self) -> u32
        ensures { result ≡ self.now.counts.steps }
    {
        self.counts.steps()
    }

    pub fn splits(&self) -> u32
        ensures { result ≡ self.now.counts.splits }
    {
        self.counts.splits()
    }
}
