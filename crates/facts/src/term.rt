ghost use Rattle.std.specs.Prelude.{◌≡◌};
ghost use Rattle.facts.specs.Terms.{bare_name};

use crate::name::Name;
use crate::symbol::Symbol;

// A term: a bare name, or an unknown function applied to one or two names.
#[derive(Clone, Copy, PartialEq, Eq)]
pub enum Term {
    Bare(Name),
    Unary(Symbol, Name),
    Binary(Symbol, Name, Name),
}

impl Term {
    // The name that the term is, if it is a bare name.
    pub fn bare_name(self) -> Option<Name>
        ensures { result ≡ bare_name self }
    {
        match self {
            Term::Bare(name) => Some(name),
            Term::Unary(_, _) => None,
            Term::Binary(_, _, _) => None,
        }
    }
}
