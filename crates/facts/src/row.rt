ghost use Rattle.std.specs.Prelude.{◌≡◌, length};
ghost use Rattle.facts.specs.Sizes.{Sized, AllSized, row_limit};

pub mod methods;

// A linear form over the names: a constant and one coefficient for each name.
#[derive(Clone, Copy)]
pub struct Row {
    constant: i64,
    coefficients: [i64; 32],
    ghost long: { length coefficients ≡ 32 },
    ghost sized: { Sized row_limit constant },
    ghost all_sized: { AllSized row_limit coefficients },
}
