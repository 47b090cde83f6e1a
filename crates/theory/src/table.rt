ghost use Rattle.std.specs.Prelude.{◌≡◌, ◌≤◌, reverse, length, take};
ghost use Rattle.theory.specs.Marks.{Ordered};

use facts::Fact;

pub mod methods;

// The facts at one address, the oldest first, and where each level above the first begins. Arrays
// with how much of them is used: an `ArrayVec` is not `Copy`, and wants a default fact.
#[derive(Clone, Copy)]
pub struct Table {
    rows: [Fact; 64],
    used: usize,
    marks: [usize; 8],
    levels: usize,
    ghost all_rows: { length rows ≡ 64 },
    ghost within: { used ≤ 64 },
    ghost all_marks: { length marks ≡ 8 },
    ghost few: { levels ≤ 8 },
    ghost ordered: { Ordered (reverse (take levels marks)) used },
}
