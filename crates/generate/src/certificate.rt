// Certificates: literals with some goals among them, and steps that refute a goal in every branch.
use crate::draft::{Address, Draft, Facts};
use crate::mixed::{Handing, Meeting, Ordering};
use crate::random::Random;
use crate::record::{Relation, Row};
use crate::rows::{Combination, Counts, Dividing, Rounding};
use crate::terms::{Chain, Congruent};
use std::alloc::{AllocError, Global};

/// The most splits that are open at once, and the most of a certificate outside its goals.
const MOST_OPEN: u8 = 8;

const MOST_SPLITS: u8 = 18;

/// Past so many facts at an address nothing is pushed for its own sake.
const ENOUGH_FACTS: u8 = 45;

/// Literals that no valuation meets, and what is needed to refute them.
#[derive(Clone, Copy)]
enum Goal {
    Chain(Chain),
    Congruent(Congruent),
    Combination(Combination),
    Counts(Counts),
    Meeting(Meeting),
    Handing(Handing),
    Ordering(Ordering),
    Rounding(Rounding),
    Dividing(Dividing),
}

impl Goal {
    // States a goal that needs no split, one that only whole numbers refute if asked for.
    fn first(draft: &mut Draft, whole: bool) -> Result<Goal, AllocError> {
        if whole && draft.random.coin() {
            return Ok(Goal::Dividing(Dividing::state(draft, 0)?));
        }
        if whole {
            return Ok(Goal::Rounding(Rounding::state(draft)?));
        }
        Ok(match draft.random.byte(6) {
            0 => Goal::Chain(Chain::state(draft)?),
            1 => Goal::Congruent(Congruent::state(draft)?),
            2 => Goal::Combination(Combination::state(draft, 0)?),
            3 => Goal::Counts(Counts::state(draft)?),
            4 => Goal::Meeting(Meeting::state(draft)?),
            _ => Goal::Handing(Handing::state(draft)?),
        })
    }

    // States any goal.
    fn any(draft: &mut Draft, whole: bool) -> Result<Goal, AllocError> {
        match draft.random.byte(4) {
            0 => Ok(Goal::Ordering(Ordering::state(draft, whole)?)),
            1 => Goal::first(draft, whole),
            _ => Goal::first(draft, false),
        }
    }

    // Refutes it, and so finishes the branch. A trait of the goals would keep these arms, and only name what they call.
    fn refute(self, draft: &mut Draft) -> Result<(), AllocError> {
        match self {
            Goal::Chain(goal) => goal.refute(draft),
            Goal::Congruent(goal) => goal.refute(draft),
            Goal::Combination(goal) => goal.refute(draft),
            Goal::Counts(goal) => goal.refute(draft),
            Goal::Meeting(goal) => goal.refute(draft),
            Goal::Handing(goal) => goal.refute(draft),
            Goal::Ordering(goal) => goal.refute(draft),
            Goal::Rounding(goal) => goal.refute(draft),
            Goal::Dividing(goal) => goal.refute(draft),
        }
    }
}

// A literal that no goal needs.
fn idle_literal(draft: &mut Draft) -> Result<(), AllocError> {
    let names = draft.random.any_names();
    let k = draft.random.signed(1000);
    match draft.random.byte(4) {
        0 => {
            let left = draft.random.term();
            let right = draft.random.term();
            draft.equal(left, right)?;
        }
        1 => {
            draft.row(Relation::Zero, &Row::difference(k, names, 7))?;
        }
        2 => {
            draft.reading(names.0, 4095)?;
        }
        _ => (),
    }
    Ok(())
}

// Pushes where there are not many facts.
fn idle_push(draft: &mut Draft, address: Address) -> Result<(), AllocError> {
    if draft.facts.at(address) < ENOUGH_FACTS {
        draft.push(address)?;
    }
    Ok(())
}

// Steps that change nothing that a refutation needs.
fn idle_steps(draft: &mut Draft) -> Result<(), AllocError> {
    let term = draft.random.term();
    if draft.random.once_in(3) {
        draft.records.reflexivity(0, term)?;
        idle_push(draft, Address::Terms)?;
    }
    if draft.random.once_in(3) {
        draft.records.zero()?;
        idle_push(draft, Address::Rows)?;
    }
    Ok(())
}

// States one goal that needs no split, and up to three others.
fn state_goals(draft: &mut Draft, goals: &mut Vec<Goal>, whole: bool) -> Result<(), AllocError> {
    idle_literal(draft)?;
    goals.push(Goal::first(draft, whole)?)?;
    for _ in 0..draft.random.byte(4) {
        idle_literal(draft)?;
        goals.push(Goal::any(draft, whole)?)?;
    }
    idle_literal(draft)
}

// Refutes one of the goals: the first one in the first branch, and where no split can be opened.
fn refute_one(draft: &mut Draft, goals: &[Goal], first: bool) -> Result<(), AllocError> {
    let chosen = if first || draft.facts.depth >= MOST_OPEN {
        0
    } else {
        draft.random.index(goals.len())
    };
    match goals.get(chosen) {
        Some(goal) => goal.refute(draft),
        None => Ok(()),
    }
}

// Opens a split on any two names; its second and third branch wait.
fn open_split(draft: &mut Draft, waiting: &mut Vec<Facts>) -> Result<(), AllocError> {
    let names = draft.random.any_names();
    draft.split(names)?;
    waiting.push(draft.facts)?;
    waiting.push(draft.facts)?;
    Ok(())
}

// Splits and refutes until every branch is finished.
fn finish(draft: &mut Draft, goals: &[Goal], waiting: &mut Vec<Facts>) -> Result<(), AllocError> {
    let mut splits = if draft.random.coin() {
        draft.random.byte(MOST_SPLITS)
    } else {
        0
    };
    let eager = draft.random.coin();
    let mut first = true;
    // more turns than the splits and the branches that they leave
    for _ in 0..u8::MAX {
        idle_steps(draft)?;
        if splits > 0 && draft.facts.depth < MOST_OPEN && (eager || draft.random.coin()) {
            splits -= 1;
            open_split(draft, waiting)?;
        } else {
            refute_one(draft, goals, first)?;
            first = false;
            match waiting.pop() {
                Some(facts) => draft.facts = facts,
                None => break,
            }
        }
    }
    Ok(())
}

// A certificate, which only whole numbers take if asked for.
pub fn certificate(heap: Global, random: Random, whole: bool) -> Result<Draft, AllocError> {
    let mut draft = Draft::new(heap, random);
    let mut goals = Vec::new(heap);
    let mut waiting = Vec::new(heap);
    state_goals(&mut draft, &mut goals, whole)?;
    draft.begin()?;
    finish(&mut draft, goals.as_slice(), &mut waiting)?;
    Ok(draft)
}
