ghost use Rattle.std.specs.Prelude.{◌≡◌};
ghost use Rattle.equality.specs.Terms.{argument as argument_of, replaced as replaced_in};

use facts::{Name, Term};
use theory::Position;

// The argument at a position, if the term has one there.
pub(crate) fn argument(term: Term, position: Position) -> Option<Name>
    ensures { result ≡ argument_of position term }
{
    match (term, position) {
        (Term::Unary(_, first), Position::First) => Some(first),
        (Term::Binary(_, first, _), Position::First) => Some(first),
        (Term::Binary(_, _, second), Position::Second) => Some(second),
        _ => None,
    }
}

// The term with a name in place of the argument at a position.
pub(crate) fn replaced(term: Term, position: Position, name: Name) -> Term
    ensures { result ≡ replaced_in position name term }
{
    match (term, position) {
        (Term::Unary(symbol, _), Position::First) => Term::Unary(symbol, name),
        (Term::Binary(symbol, _, second), Position::First) => Term::Binary(symbol, name, second),
        (Term::Binary(symbol, first, _), Position::Second) => Term::Binary(symbol, first, name),
        _ => term,
    }
}
