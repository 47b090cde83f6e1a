// The steps of a derivation, and the splits that are open.
ghost use Rattle.std.specs.Prelude.{◌≡◌, ◌≤◌, Some, None};
ghost use Rattle.claim.specs.Derivations.{by_branch, comparison_of};

use facts::{Comparison, Name};
use theory::Inference;

// How many splits may be open at a time.
pub const MOST_SPLITS: usize = 8;

// A step of a derivation: an inference at an address, or a split on two names.
#[derive(Clone, Copy)]
pub enum Step {
    Infer(u8, Inference),
    Split(Name, Name),
}

// Which branch of a split is worked on: n < m, n = m or n > m.
#[derive(Clone, Copy)]
pub enum Branch {
    First,
    Second,
    Third,
}

// A split of which some branch is not finished.
#[derive(Clone, Copy)]
pub struct OpenSplit {
    pub left: Name,
    pub right: Name,
    pub branch: Branch,
}

impl Branch {
    // The branch of the same split that comes after this one.
    pub(crate) fn next(self) -> Option<Branch>
        ensures { result ≡ by_branch self (Some Branch.Second) (Some Branch.Third) None }
    {
        match self {
            Branch::First => Some(Branch::Second),
            Branch::Second => Some(Branch::Third),
            Branch::Third => None,
        }
    }

    // How many branches of the same split come after this one.
    pub(crate) fn waiting(self) -> u32
        ensures value { result ≡ by_branch self 2 1 0 }
        ensures bound { result ≤ 2 }
    {
        match self {
            Branch::First => 2,
            Branch::Second => 1,
            Branch::Third => 0,
        }
    }
}

impl OpenSplit {
    // What is told in the branch that is worked on.
    pub(crate) fn comparison(self) -> Comparison
        ensures { result ≡ comparison_of self }
    {
        match self.branch {
            Branch::First => Comparison::Less(self.left, self.right),
            Branch::Second => Comparison::Equal(self.left, self.right),
            Branch::Third => Comparison::Greater(self.left, self.right),
        }
    }
}

// What fills the unused places of a stack of splits. Written by hand, since no name is a default one.
impl Default for OpenSplit {
    ghost use Rattle.claim.specs.declared.step.Branch.{Branch};

    ghost is_default = { λ s. (s.left.index ≡ 0) × (s.right.index ≡ 0) × (s.branch ≡ Branch.First) };

    fn default() -> OpenSplit {
        let name = Name::new(0).unwrap();
        OpenSplit {
            left: name,
            right: name,
            branch: Branch::First,
        }
    }
}
