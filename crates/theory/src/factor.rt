ghost use Rattle.facts.specs.Sizes.{Sized};

pub mod methods;

// What a row is multiplied by before it is added.
#[derive(Clone, Copy)]
pub struct Factor {
    value: i32,
    ghost sized: { Sized 1_000_000 value },
}
