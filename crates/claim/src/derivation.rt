// A derivation: steps, until every branch is finished.
ghost use Rattle.std.specs.Prelude.{◌≡◌, ℕ, ◌<◌, ◌≤◌, false, List, [], ◌∷◌, ◌++◌, length, reverse, OnErr, Option};
ghost use Rattle.facts.specs.declared.literal.Literal.{Literal};
ghost use Rattle.theory.specs.Places.{Places};
ghost use Rattle.claim.specs.Histories.{listed};
ghost use Rattle.claim.specs.Calls.{Answer, Levelled, Fit, fault_of};
ghost use Rattle.claim.specs.Counted.{place_of};
ghost use Rattle.claim.specs.Derivations.{RoomTold, all_dropped, comparison_of, next, working, open_splits};
ghost use Rattle.claim.specs.Stacks.{stack_splits};
ghost use Rattle.claim.specs.Endings.{Ended, unbegun};
ghost use Rattle.claim.specs.Derived.{state_of, answer_at, BranchBegun, Moved, Stepped, SplitAnswer, Reached};

use crate::counts::Counts;
use crate::seal::{Ending, Seal};
use crate::sent::SentStep;
use crate::step::{Branch, MOST_SPLITS, OpenSplit, Step};
use arrayvec::ArrayVec;
use facts::{CallFault, Cause, Comparison, Name, Refusal};
use theory::{Inference, Outcome, Theory};

// What fits is a premise of each contract: a generic type cannot state it of the theory inside.
#[derive(Drop)]
pub struct Derivation<T> {
    theory: T,
    // the open splits, the oldest first
    stack: ArrayVec<OpenSplit, MOST_SPLITS>,
    // no `Option` of the stack, which every method after `take` would have to open again
    closed: bool,
    counts: Counts,
}

impl<T: Theory> Derivation<T> {
    // No split is open, and no step was taken.
    pub(crate) fn new(theory: T, counts: Counts) -> Derivation<T>
        ensures state { state_of T.Theory.places result ≡ working (T.Theory.places theory) [] }
        ensures counts { result.counts ≡ counts }
    {
        Derivation {
            theory,
            stack: ArrayVec::new(),
            closed: false,
            counts,
        }
    }

    // Begins a branch of a split: opens a level, in which the branch's comparison is told.
    fn begin_branch(&mut self, split: OpenSplit)
        ensures begun { Levelled (length (stack_splits self.old.stack)) (T.Theory.places self.old.theory) → length (stack_splits self.old.stack) < 8 → RoomTold T.Theory.rules (comparison_of split) (T.Theory.places self.old.theory) → BranchBegun T.Theory.places T.Theory.rules split self.old self.new }
        ensures closed { self.new.closed ≡ self.old.closed }
        ensures counts { self.new.counts ≡ self.old.counts }
    {
        // not refused: a branch begins only where there is room
        let _ = self.theory.push_level();
        let _ = self.theory.tell(split.comparison());
        let _ = self.stack.try_push(split);
    }

    // Goes on with the next branch that waits, from the newest split outwards, or closes the
    // derivation.
    fn finish_branch(&mut self)
        ensures state { self.old.closed ≡ false → Fit T.Theory.rules (working (T.Theory.places self.old.theory) (stack_splits self.old.stack)) → state_of T.Theory.places self.new ≡ next T.Theory.rules (stack_splits self.old.stack) (all_dropped (T.Theory.places self.old.theory)) }
        ensures counts { self.new.counts ≡ self.old.counts }
    {
        let Some(split) = self.stack.pop() else {
            self.closed = true;
            return;
        };
        let _ = self.theory.pop_level();
        match split.branch.next() {
            Some(branch) => self.begin_branch(OpenSplit { branch, ..split }),
            None => self.finish_branch(),
        }
    }

    // Takes an inference at an address, where the derivation is not closed.
    fn infer(&mut self, address: u8, inference: Inference) -> Result<(), Cause>
        ensures { self.old.closed ≡ false → Fit T.Theory.rules (state_of T.Theory.places self.old) → Moved T.Theory.places T.Theory.rules (Step.Infer address inference) result self.old self.new }
    {
        match self.theory.infer(usize::from(address), inference)? {
            Outcome::Current(_) | Outcome::Pushed(_) => {}
            Outcome::Equal(left, right) => self.theory.tell(Comparison::Equal(left, right))?,
            Outcome::Contradiction => self.finish_branch(),
        }
        Ok(())
    }

    // Why a split's tellings are refused: each of the three needs room.
    fn split_refusal(&self, left: Name, right: Name) -> Option<Refusal>
        ensures { SplitAnswer T.Theory.rules (T.Theory.places self.now.theory) left right result }
    {
        self.theory
            .tell_refusal(Comparison::Less(left, right))
            .or_else(|| self.theory.tell_refusal(Comparison::Equal(left, right)))
            .or_else(|| self.theory.tell_refusal(Comparison::Greater(left, right)))
    }

    // Takes a split, where the derivation is not closed, and goes on in its first branch.
    fn split(&mut self, left: Name, right: Name) -> Result<(), Cause>
        ensures { self.old.closed ≡ false → Fit T.Theory.rules (state_of T.Theory.places self.old) → Moved T.Theory.places T.Theory.rules (Step.Split left right) result self.old self.new }
    {
        if self.stack.is_full() {
            return Err(Refusal::LevelLimit.into());
        }
        if let Some(refusal) = self.split_refusal(left, right) {
            return Err(refusal.into());
        }
        self.begin_branch(OpenSplit {
            left,
            right,
            branch: Branch::First,
        });
        Ok(())
    }

    // How much was taken so far.
    pub fn counts(&self) -> Counts
        ensures { result ≡ self.now.counts }
    {
        self.counts
    }

    // How many splits are open; none once every branch is finished.
    pub fn depth(&self) -> u8
        ensures value { result ≡ open_splits (state_of T.Theory.places self.now) }
        ensures bound { result ≤ 8 }
    {
        if self.closed {
            0
        } else {
            u8::try_from(self.stack.len()).unwrap()
        }
    }

    // The fault of a call that is refused now.
    fn fault(&self, cause: Cause, address: u8) -> CallFault
        ensures { result ≡ fault_of cause address (place_of self.now.counts) (open_splits (state_of T.Theory.places self.now)) }
    {
        CallFault {
            cause,
            address,
            place: self.counts.place(),
            depth: self.depth(),
        }
    }

    // Takes a step. Where a history of calls led here, this call goes on with it.
    pub fn step(&mut self, step: SentStep) -> Result<(), CallFault>
        ensures call { Fit T.Theory.rules (state_of T.Theory.places self.old) → Stepped T.Theory.places T.Theory.rules step result self.old self.new }
        ensures history { (ps : Places) (literals : List Literal) (ss : List SentStep) (rs : List Answer) (taken : List Step) → Reached T.Theory.places T.Theory.rules self.old ps literals ss rs taken → (t : Option Step) × Reached T.Theory.places T.Theory.rules self.new ps literals (ss ++ (step ∷ [])) (rs ++ (result ∷ [])) (taken ++ listed t) }
    {
        self.take(step)
            .map_err(|cause| self.fault(cause, step.address()))
    }

    // Takes a step, or says why not.
    fn take(&mut self, step: SentStep) -> Result<(), Cause>
        ensures call { Fit T.Theory.rules (state_of T.Theory.places self.old) → Stepped T.Theory.places T.Theory.rules step (answer_at T.Theory.places self.old step result) self.old self.new }
        ensures same { Fit T.Theory.rules (state_of T.Theory.places self.old) → OnErr result (self.new ≡ self.old) }
    {
        if self.closed {
            return Err(Refusal::AlreadyClosed.into());
        }
        let step = step.check()?;
        let counts = self.counts.with_step(step)?;
        match step {
            Step::Infer(address, inference) => self.infer(address, inference)?,
            Step::Split(left, right) => self.split(left, right)?,
        }
        self.counts = counts;
        Ok(())
    }
}

impl<T: Theory + Drop> Derivation<T> {
    // Uses the derivation up: a seal if it is closed, else the number of branches left.
    pub fn end(self) -> Ending
        ensures { Ended (state_of T.Theory.places self) self.counts result }
    {
        if self.closed {
            Ending::Sealed(Seal::new(self.counts))
        } else {
            Ending::Open(1 + waiting(self.stack.as_slice()))
        }
    }
}

// How many branches of these splits are not begun.
fn waiting(splits: &[OpenSplit]) -> u32
    requires { length splits.now ≤ 8 }
    ensures value { result ≡ unbegun (reverse splits.now) }
    ensures bound { result ≤ 16 }
{
    let mut total = 0;
    for split in splits {
        total += split.branch.waiting();
    }
    total
}
