ghost use Rattle.std.specs.Prelude.{◌+◌, ◌≤◌};

pub mod methods;

// How many literals and steps a claim has taken, and how many of the steps are splits.
#[derive(Clone, Copy)]
pub struct Counts {
    literals: u32,
    steps: u32,
    splits: u32,
    ghost few: { literals + steps ≤ 50_000 },
    ghost part: { splits ≤ steps },
}
