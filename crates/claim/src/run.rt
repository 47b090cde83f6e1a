// A whole run of a claim: every literal, the begin, every step and the end, with every answer.
ghost use Rattle.std.specs.Prelude.{List, [], IfOk};
ghost use Rattle.theory.specs.Places.{Places};
ghost use Rattle.claim.specs.Derived.{Claimed, Reached};
ghost use Rattle.claim.specs.Replays.{Replayed};

use crate::derivation::Derivation;
use crate::opening::Claim;
use crate::seal::Ending;
use crate::sent::SentStep;
use crate::step::Step;
use facts::{CallFault, Literal};
use std::alloc::{AllocError, Global};
use theory::Theory;

// The answers of all calls, in their order, and the ending.
#[derive(Drop)]
pub struct Transcript {
    pub literals: Vec<Result<(), CallFault>>,
    pub steps: Vec<Result<(), CallFault>>,
    pub ending: Ending,
}

// Not one function with `send_steps`: a closure that calls a claim changes it, and no contract says
// what many such calls leave.
fn send_literals<T: Theory>(
    heap: Global,
    claim: &mut Claim<T>,
    literals: &[Literal],
) -> Result<Vec<Result<(), CallFault>>, AllocError>
    ensures { IfOk result (λ v. Claimed T.Theory.places T.Theory.rules claim.old [] [] [] → (taken : List Literal) × Claimed T.Theory.places T.Theory.rules claim.new literals.now v.items taken) }
{
    let mut answers = Vec::new(heap);
    for literal in literals {
        answers.push(claim.literal(*literal))?;
    }
    Ok(answers)
}

fn send_steps<T: Theory>(
    heap: Global,
    derivation: &mut Derivation<T>,
    steps: &[SentStep],
) -> Result<Vec<Result<(), CallFault>>, AllocError>
    ensures { IfOk result (λ v. (ps : Places) (literals : List Literal) → Reached T.Theory.places T.Theory.rules derivation.old ps literals [] [] [] → (taken : List Step) × Reached T.Theory.places T.Theory.rules derivation.new ps literals steps.now v.items taken) }
{
    let mut answers = Vec::new(heap);
    for step in steps {
        answers.push(derivation.step(*step))?;
    }
    Ok(answers)
}

// Opens a claim, sends every literal, begins, sends every step and ends.
pub fn replay<T: Theory + Drop>(
    heap: Global,
    literals: &[Literal],
    steps: &[SentStep],
) -> Result<Transcript, AllocError>
    ensures { IfOk result (λ t. Replayed T.Theory.admits T.Theory.rules literals.now steps.now t.literals.items t.steps.items t.ending) }
{
    let mut claim = Claim::<T>::open();
    let taken = send_literals(heap, &mut claim, literals)?;
    let mut derivation = claim.begin();
    let answers = send_steps(heap, &mut derivation, steps)?;
    Ok(Transcript {
        literals: taken,
        steps: answers,
        ending: derivation.end(),
    })
}
