// What stands at both addresses.
use crate::fact::{Equation, Names, RowFact};
use crate::refusal::Refusal;
use crate::side::Side;
use crate::{equality, rows};
use std::alloc::{AllocError, Global};
use std::cmp::Ordering;

/// Equality at address 0, rows at address 1, and how many splits are open.
#[derive(Drop)]
pub struct State {
    pub terms: Side<Equation>,
    pub rows: Side<RowFact>,
    pub depth: usize,
}

impl State {
    // No facts, and no open split.
    pub fn new(heap: Global) -> State {
        State {
            terms: Side::new(heap),
            rows: Side::new(heap),
            depth: 0,
        }
    }

    // Refused unless there is room for what is told, which each address keeps as one fact.
    pub fn room(&self) -> Result<(), Refusal> {
        self.terms.room()?;
        self.rows.room()
    }

    // Tells both addresses the order of two names.
    pub fn tell(&mut self, names: Names, order: Ordering) -> Result<(), AllocError> {
        self.terms.keep(equality::told(names, order))?;
        self.rows.keep(rows::told(names, order))
    }

    // A branch of a split: the same facts, no current ones, and the order of two names told.
    pub fn branch(&self, heap: Global, names: Names, order: Ordering) -> Result<State, AllocError> {
        let terms = self.terms.opened(heap)?;
        let rows = self.rows.opened(heap)?;
        let mut branch = State {
            terms,
            rows,
            depth: self.depth.saturating_add(1),
        };
        branch.tell(names, order)?;
        Ok(branch)
    }
}
