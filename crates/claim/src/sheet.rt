ghost use Rattle.std.specs.Prelude.{◌≡◌, ◌≤◌, length};

pub mod methods;

// The counts of a seal that was entered. Not `Counts` itself: anyone may make a line, and only a claim
// makes counts.
#[derive(Clone, Copy)]
pub struct Line {
    pub literals: u32,
    pub steps: u32,
    pub splits: u32,
}

// A sheet of 64 lines, on which seals are entered.
// It is `Copy`, which an `ArrayVec` of lines would not be.
#[derive(Clone, Copy)]
pub struct Sheet {
    lines: [Line; 64],
    used: usize,
    ghost all_lines: { length lines ≡ 64 },
    ghost within: { used ≤ 64 },
}
