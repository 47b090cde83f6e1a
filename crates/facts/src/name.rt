// A gauge's name, n0 to n31.
ghost use Rattle.std.specs.Prelude.{◌<◌};

pub mod methods;

#[derive(Clone, Copy, PartialEq, Eq)]
pub struct Name {
    index: u8,
    ghost named: { index < 32 },
}
