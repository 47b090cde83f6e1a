// What stands at one address.
use crate::cause::{Cause, Stop};
use crate::fact::Names;
use crate::refusal::Refusal;
use std::alloc::{AllocError, Global};

/// The most facts that an address holds.
const MOST_FACTS: usize = 64;

/// The facts of an address, the oldest first, and its current fact.
#[derive(Drop)]
pub struct Side<F> {
    facts: Vec<F>,
    current: Option<F>,
}

/// What a rule comes to: a fact that becomes current or is kept where the rule is applied, or an effect.
#[derive(Clone, Copy)]
pub enum Outcome<F> {
    Current(F),
    Push(F),
    Beyond(Effect),
}

/// What concerns more than the address where a rule is applied.
#[derive(Clone, Copy)]
pub enum Effect {
    HandOn(Names),
    Contradiction,
}

impl<F: Copy> Side<F> {
    // No facts, and no current fact.
    pub fn new(heap: Global) -> Side<F> {
        Side {
            facts: Vec::new(heap),
            current: None,
        }
    }

    // Refused unless there is room for a fact.
    pub fn room(&self) -> Result<(), Refusal> {
        Refusal::TableFull.unless(self.facts.len() < MOST_FACTS)
    }

    // Adds a fact.
    pub fn keep(&mut self, fact: F) -> Result<(), AllocError> {
        self.facts.push(fact)?;
        Ok(())
    }

    // Adds a literal's fact, where there is room.
    pub fn state(&mut self, fact: F) -> Result<(), Stop> {
        self.room()?;
        self.keep(fact)?;
        Ok(())
    }

    // The current fact, which a rule needs.
    pub fn current(&self) -> Result<F, Refusal> {
        self.current.ok_or(Refusal::NoCurrentFact)
    }

    // The fact with this number.
    pub fn fact(&self, number: u8) -> Result<F, Cause> {
        let count = self.facts.len();
        self.facts
            .get(usize::from(number))
            .copied()
            .ok_or(Cause::no_fact(count))
    }

    // Pushes the current fact, where there is room.
    pub fn push(&self) -> Result<Outcome<F>, Refusal> {
        let fact = self.current()?;
        self.room()?;
        Ok(Outcome::Push(fact))
    }

    // Makes the change that a rule comes to here, and gives its effect, if it has one.
    pub fn take(&mut self, outcome: Outcome<F>) -> Result<Option<Effect>, AllocError> {
        match outcome {
            Outcome::Current(fact) => self.current = Some(fact),
            Outcome::Push(fact) => self.keep(fact)?,
            Outcome::Beyond(effect) => return Ok(Some(effect)),
        }
        Ok(None)
    }

    // The same facts with no current fact, as a new level begins with.
    pub fn opened(&self, heap: Global) -> Result<Side<F>, AllocError> {
        let facts = Vec::from_slice(heap, self.facts.as_slice())?;
        Ok(Side {
            facts,
            current: None,
        })
    }
}
