ghost use Rattle.std.specs.Prelude.{◌≡◌};
ghost use Rattle.linear.specs.Rules.{theory_number, domain_of};

// What the values of the names are: fractions with one denominator, or whole numbers.
#[derive(Clone, Copy)]
pub(crate) enum Domain {
    Fractions,
    Whole,
}

impl Domain {
    // no `From<bool>`: a bare flag does not say which values it stands for
    pub(crate) fn of(whole: bool) -> Domain
        ensures { result ≡ domain_of whole }
    {
        if whole {
            Domain::Whole
        } else {
            Domain::Fractions
        }
    }

    // The number of the theory over these values.
    pub(crate) fn number(self) -> u8
        ensures { result ≡ theory_number self }
    {
        match self {
            Domain::Fractions => 2,
            Domain::Whole => 3,
        }
    }
}
