ghost use Rattle.std.specs.Prelude.{◌≡◌, ◌<◌, None};
ghost use Rattle.theory.specs.Singles.{alone, single_places};
ghost use Rattle.std.proofs.Common.{rules};

use crate::inference::{Inference, Outcome};
use crate::interface::Theory;
use crate::logic::Logic;
use crate::premises::Premises;
use crate::table::Table;
use crate::table::methods::MOST_MARKS;
use facts::{Cause, Comparison, Fact, Name, Refusal, Term};

// A theory that stands at address 0 alone: its rules, its facts and its current fact.
#[derive(Drop)]
pub struct Single<L> {
    logic: L,
    table: Table,
    current: Option<Fact>,
}

// What rows that are not in use hold.
fn filler() -> Fact {
    let term = Term::Bare(Name::new(0).unwrap());
    Fact::Equal(term, term)
}

impl<L> Single<L> {
    // Forgets the current fact.
    fn clear(&mut self)
        ensures { self.new ≡ record { logic = self.old.logic; table = self.old.table; current = None } }
    {
        self.current = None;
    }
}

impl<L: Logic> Theory for Single<L> {
    ghost rules = { alone L.Logic.rules };

    ghost admits = { L.Logic.admits };

    ghost places = { single_places };

    ghost sound = { Prim.search rules };

    ghost stands = { Prim.search rules };

    fn fresh() -> Single<L> {
        Single {
            logic: L::new(),
            table: Table::new(filler()),
            current: None,
        }
    }

    fn assume_refusal(&self, fact: &Fact) -> Option<Refusal> {
        if !self.logic.keeps(fact) {
            return Some(Refusal::LiteralNotKept);
        }
        self.table.is_full().then_some(Refusal::TableFull)
    }

    fn tell_refusal(&self, comparison: Comparison) -> Option<Refusal> {
        self.logic.told(comparison)?;
        self.table.is_full().then_some(Refusal::TableFull)
    }

    fn assume(&mut self, fact: &Fact) -> Result<(), Refusal> {
        if !self.logic.keeps(fact) {
            return Err(Refusal::LiteralNotKept);
        }
        self.table.push(fact)
    }

    fn tell(&mut self, comparison: Comparison) -> Result<(), Refusal> {
        match self.logic.told(comparison) {
            Some(fact) => self.table.push(&fact),
            None => Ok(()),
        }
    }

    fn infer(&mut self, address: usize, inference: Inference) -> Result<Outcome, Cause> {
        if address != 0 {
            return Err(Refusal::NothingAtAddress.into());
        }
        let premises = Premises {
            facts: self.table.facts(),
            current: &self.current,
        };
        let answer = self.logic.outcome(inference, premises);
        if let Ok(outcome) = answer {
            match outcome {
                Outcome::Current(fact) => self.current = Some(fact),
                Outcome::Pushed(fact) => {
                    let theory = self.logic.number();
                    self.table
                        .push(&fact)
                        .map_err(|refusal| Cause::from(refusal).by(theory))?;
                }
                Outcome::Equal(_, _) | Outcome::Contradiction => {}
            }
        }
        answer
    }

    fn open_refusal(&self) -> Option<Refusal> {
        (self.table.levels() >= MOST_MARKS).then_some(Refusal::LevelLimit)
    }

    fn drop_refusal(&self) -> Option<Refusal> {
        (self.table.levels() == 0).then_some(Refusal::LevelLimit)
    }

    fn push_level(&mut self) -> Result<(), Refusal> {
        self.table.open_level()?;
        self.clear();
        Ok(())
    }

    fn pop_level(&mut self) -> Result<(), Refusal> {
        self.table.drop_level()?;
        self.clear();
        Ok(())
    }
}
