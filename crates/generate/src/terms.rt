// Goals that equality refutes.
use crate::draft::Draft;
use crate::record::{Names, Position, Term};
use std::alloc::AllocError;
use std::array;

/// The most links of a chain.
const MOST_LINKS: usize = 6;

/// t0 = t1, t1 = t2, .. and t0 ≠ tk, with some of the equalities written the other way round.
#[derive(Clone, Copy)]
pub struct Chain {
    start: Term,
    links: u8,
    // as many count as there are links; no `Vec`, since goals are copied
    turned: [bool; MOST_LINKS],
    fact: u8,
    apart: u8,
}

impl Chain {
    // States a chain with one to six links.
    pub fn state(draft: &mut Draft) -> Result<Chain, AllocError> {
        let start = draft.random.term();
        let links = draft.random.byte(6).saturating_add(1);
        let bits = draft.random.any_byte();
        let turned = array::from_fn(|link| (bits >> link) & 1 == 1);
        let fact = draft.facts.terms;
        let mut last = start;
        for turned in turned.iter().take(usize::from(links)) {
            let next = draft.random.term();
            draft.equal_turned(*turned, last, next)?;
            last = next;
        }
        let apart = draft.different(start, last)?;
        Ok(Chain {
            start,
            links,
            turned,
            fact,
            apart,
        })
    }

    // t0 = t0, t0 = t1, .. t0 = tk, against t0 ≠ tk.
    pub fn refute(self, draft: &mut Draft) -> Result<(), AllocError> {
        draft.records.reflexivity(0, self.start)?;
        for (fact, turned) in (self.fact..).zip(self.turned).take(usize::from(self.links)) {
            draft.records.transitivity(fact, turned)?;
        }
        draft.records.clash(self.apart)
    }
}

/// a = b, c = d, and a symbol's answers to a and b, or to a, c and b, d, that differ.
#[derive(Clone, Copy)]
pub struct Congruent {
    before: Term,
    first: u8,
    first_turned: bool,
    second: u8,
    second_turned: bool,
    apart: u8,
}

impl Congruent {
    // States it for a symbol with one place or with two.
    pub fn state(draft: &mut Draft) -> Result<Congruent, AllocError> {
        let letter = draft.random.byte(16);
        let Names(a, b) = draft.random.any_names();
        let Names(c, d) = draft.random.any_names();
        let two = draft.random.coin();
        let first_turned = draft.random.coin();
        let second_turned = draft.random.coin();
        let applied = |first, second| {
            if two {
                Term::two(letter, first, second)
            } else {
                Term::one(letter, first)
            }
        };
        let before = applied(a, c);
        let second = draft.equal_turned(second_turned, Term::bare(c), Term::bare(d))?;
        let apart = draft.different(before, applied(b, d))?;
        let first = draft.equal_turned(first_turned, Term::bare(a), Term::bare(b))?;
        Ok(Congruent {
            before,
            first,
            first_turned,
            second,
            second_turned,
            apart,
        })
    }

    // Exchanges the first argument, and the second of a symbol with two places, in either order.
    pub fn refute(self, draft: &mut Draft) -> Result<(), AllocError> {
        draft.records.reflexivity(0, self.before)?;
        let two = self.before.tag == 2;
        let second_before = two && draft.random.coin();
        if second_before {
            draft
                .records
                .congruence(self.second, Position::Second, self.second_turned)?;
        }
        draft
            .records
            .congruence(self.first, Position::First, self.first_turned)?;
        if two && !second_before {
            draft
                .records
                .congruence(self.second, Position::Second, self.second_turned)?;
        }
        draft.records.clash(self.apart)
    }
}
