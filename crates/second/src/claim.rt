// A claim: literals, then steps, until every branch is finished.
use crate::cause::{Cause, Stop, Theory};
use crate::fact::{Fact, Names};
use crate::fields::Fields;
use crate::kind::{Kind, RuleKind};
use crate::refusal::Refusal;
use crate::sent::{Reading, Rule};
use crate::side::Effect;
use crate::state::State;
use crate::verdict::{Taken, Verdict};
use crate::{Arithmetic, equality, rows, sent};
use std::alloc::Global;
use std::cmp::Ordering;

/// The most literals and steps, and the most open splits.
const MOST_CALLS: usize = 50_000;

const MOST_OPEN: usize = 8;

/// What a claim takes.
#[derive(Clone, Copy)]
enum Stage {
    Literals,
    Steps,
    Nothing,
}

/// A claim: the state of the branch that is worked on, and the states of those not begun, the next one last.
#[derive(Drop)]
pub struct Claim {
    heap: Global,
    arithmetic: Arithmetic,
    stage: Stage,
    state: State,
    waiting: Vec<State>,
    taken: Taken,
}

impl Claim {
    // A claim with no literals.
    pub fn new(heap: Global, arithmetic: Arithmetic) -> Claim {
        Claim {
            heap,
            arithmetic,
            stage: Stage::Literals,
            state: State::new(heap),
            waiting: Vec::new(heap),
            taken: Taken::default(),
        }
    }

    // Takes a whole record.
    pub fn take(&mut self, kind: Kind, fields: &mut Fields) -> Result<(), Stop> {
        match (kind, self.stage) {
            (Kind::Literal(kind), Stage::Literals) => {
                self.literal(sent::read_literal(kind, fields)?)
            }
            (Kind::Reading, Stage::Literals) => self.reading(sent::read_reading(fields)?),
            (Kind::Begin, Stage::Literals) => {
                self.stage = Stage::Steps;
                Ok(())
            }
            (Kind::Infer(kind), Stage::Steps | Stage::Nothing) => {
                let address = fields.byte();
                self.infer(kind, address, fields)
                    .map_err(|stop| stop.sent_to(address))
            }
            (Kind::Split, Stage::Steps | Stage::Nothing) => self.split(fields),
            _ => Err(Stop::from(Refusal::WrongStage)),
        }
    }

    // Refused once every branch is finished.
    fn open(&self) -> Result<(), Refusal> {
        match self.stage {
            Stage::Nothing => Err(Refusal::AlreadyClosed),
            _ => Ok(()),
        }
    }

    // Refused unless one more literal or step may be taken.
    fn one_more(&self) -> Result<(), Refusal> {
        Refusal::TooManyCalls.unless(self.taken.calls() < MOST_CALLS)
    }

    // Adds a literal's fact at the address that keeps it.
    fn literal(&mut self, fact: Fact) -> Result<(), Stop> {
        self.one_more()?;
        match fact {
            Fact::OfTerms(fact) => self.state.terms.state(fact)?,
            Fact::OfRow(fact) => self.state.rows.state(fact)?,
        }
        self.taken.literals = self.taken.literals.saturating_add(1);
        Ok(())
    }

    // A reading's literals, one call after the other.
    fn reading(&mut self, reading: Reading) -> Result<(), Stop> {
        self.literal(reading.low())?;
        match reading.high() {
            Some(high) => self.literal(high),
            None => Ok(()),
        }
    }

    // A step at an address.
    fn infer(&mut self, kind: RuleKind, address: u8, fields: &mut Fields) -> Result<(), Stop> {
        self.open()?;
        let rule = sent::read_rule(kind, fields)?;
        self.one_more()?;
        match self.apply(address, rule)? {
            Some(Effect::HandOn(names)) => self.hand_on(names)?,
            Some(Effect::Contradiction) => self.finish_branch(),
            None => (),
        }
        self.taken.steps = self.taken.steps.saturating_add(1);
        Ok(())
    }

    // Applies a rule at an address.
    fn apply(&mut self, address: u8, rule: Rule) -> Result<Option<Effect>, Stop> {
        match address {
            0 => {
                let outcome = equality::infer(&self.state.terms, rule).map_err(|cause| cause.by(
                    Theory::Equality,
                ))?;
                Ok(self.state.terms.take(outcome)?)
            }
            1 => {
                let theory = self.arithmetic.theory();
                let outcome = rows::infer(self.arithmetic, &self.state.rows, rule).map_err(
                    |cause| cause.by(theory),
                )?;
                Ok(self.state.rows.take(outcome)?)
            }
            _ => Err(Stop::from(Refusal::NothingAtAddress)),
        }
    }

    // Tells both addresses that two names are equal, where both have room.
    fn hand_on(&mut self, names: Names) -> Result<(), Stop> {
        self.state.room()?;
        self.state.tell(names, Ordering::Equal)?;
        Ok(())
    }

    // Goes on with the next branch; with none left the claim is closed.
    fn finish_branch(&mut self) {
        match self.waiting.pop() {
            Some(next) => self.state = next,
            None => {
                self.stage = Stage::Nothing;
                self.state.depth = 0;
            }
        }
    }

    // Splits on the order of two names: n < m is worked on, n = m and n > m wait.
    fn split(&mut self, fields: &mut Fields) -> Result<(), Stop> {
        self.open()?;
        let names = fields.names()?;
        self.one_more()?;
        Refusal::LevelLimit.unless(self.state.depth < MOST_OPEN)?;
        self.state.room()?;
        let less = self.state.branch(self.heap, names, Ordering::Less)?;
        let same = self.state.branch(self.heap, names, Ordering::Equal)?;
        let greater = self.state.branch(self.heap, names, Ordering::Greater)?;
        self.waiting.push(greater)?;
        self.waiting.push(same)?;
        self.state = less;
        self.taken.steps = self.taken.steps.saturating_add(1);
        self.taken.splits = self.taken.splits.saturating_add(1);
        Ok(())
    }

    // The refusal of the record at this offset.
    pub fn refused(&self, offset: usize, cause: Cause) -> Verdict {
        Verdict::Refused {
            cause,
            offset,
            place: self.taken.calls(),
            depth: self.state.depth,
        }
    }

    // The verdict once every record was taken.
    pub fn verdict(&self) -> Verdict {
        match self.stage {
            Stage::Nothing => Verdict::Established(self.taken),
            _ => Verdict::Open {
                taken: self.taken,
                branches: self.waiting.len().saturating_add(1),
            },
        }
    }
}
