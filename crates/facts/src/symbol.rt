// A function symbol whose meaning is unknown: 0 to 15 with one place, and another 0 to 15 with two.
ghost use Rattle.std.specs.Prelude.{◌<◌};

pub mod methods;

// Not one type with `Name`: the two share two short methods, and a name alone is printed and is a place
// in a list.
#[derive(Clone, Copy, PartialEq, Eq)]
pub struct Symbol {
    index: u8,
    ghost lettered: { index < 16 },
}
