// A step as a caller sends it: its fields are raw, and may be out of range.
ghost use Rattle.std.specs.Prelude.{◌≡◌, ◌<◌, ◌≤◌, MatchOption};
ghost use Rattle.claim.specs.Sent.{StepChecked, flag_byte, position_byte, step_address};

use crate::step::Step;
use facts::{BadField, Name, SentTerm};
use theory::{Factor, Inference, Position};

// An address and a fact's number may be any byte; what is not there is refused later.
#[derive(Clone, Copy)]
pub enum SentStep {
    Reflexivity(u8, SentTerm),
    // the fact, and whether it is turned
    Transitivity(u8, u8, u8),
    // the fact, the position, and whether the fact is turned
    Congruence(u8, u8, u8, u8),
    Clash(u8, u8),
    Propagate(u8),
    Zero(u8),
    // the fact and the factor
    Add(u8, u8, i32),
    // the fact and two names
    Antisymmetry(u8, u8, u8, u8),
    Falsify(u8),
    Strengthen(u8),
    Cut(u8),
    Push(u8),
    // two names
    Split(u8, u8),
}

// A flag's byte is 0 or 1. `bool` is no type of ours, so this is no `TryFrom`.
fn flag(byte: u8) -> Option<bool>
    ensures { MatchOption result (1 < byte) (λ b. flag_byte b ≡ byte) }
{
    match byte {
        0 => Some(false),
        1 => Some(true),
        _ => None,
    }
}

// `Position` is a type of `theory`, which knows no bytes, so this is no `TryFrom`.
fn position(byte: u8) -> Option<Position>
    ensures { MatchOption result (1 ≤ byte → 2 < byte) (λ p. position_byte p ≡ byte) }
{
    match byte {
        1 => Some(Position::First),
        2 => Some(Position::Second),
        _ => None,
    }
}

impl SentStep {
    // The address that the step is sent to; 0 for a split.
    pub fn address(self) -> u8
        ensures { result ≡ step_address self }
    {
        match self {
            SentStep::Reflexivity(address, _)
            | SentStep::Transitivity(address, _, _)
            | SentStep::Congruence(address, _, _, _)
            | SentStep::Clash(address, _)
            | SentStep::Propagate(address)
            | SentStep::Zero(address)
            | SentStep::Add(address, _, _)
            | SentStep::Antisymmetry(address, _, _, _)
            | SentStep::Falsify(address)
            | SentStep::Strengthen(address)
            | SentStep::Cut(address)
            | SentStep::Push(address) => address,
            SentStep::Split(_, _) => 0,
        }
    }

    // The step, or its first bad field.
    pub fn check(self) -> Result<Step, BadField>
        ensures { StepChecked self result }
    {
        match self {
            SentStep::Reflexivity(address, term) => check_reflexivity(address, term),
            SentStep::Transitivity(address, fact, turned) => check_transitivity(
                address, fact, turned,
            ),
            SentStep::Congruence(address, fact, position, turned) => check_congruence(
                address, fact, position, turned,
            ),
            SentStep::Clash(address, fact) => Ok(Step::Infer(address, Inference::Clash(fact))),
            SentStep::Propagate(address) => Ok(Step::Infer(address, Inference::Propagate)),
            SentStep::Zero(address) => Ok(Step::Infer(address, Inference::Zero)),
            SentStep::Add(address, fact, factor) => check_add(address, fact, factor),
            SentStep::Antisymmetry(address, fact, first, second) => check_antisymmetry(
                address, fact, first, second,
            ),
            SentStep::Falsify(address) => Ok(Step::Infer(address, Inference::Falsify)),
            SentStep::Strengthen(address) => Ok(Step::Infer(address, Inference::Strengthen)),
            SentStep::Cut(address) => Ok(Step::Infer(address, Inference::Cut)),
            SentStep::Push(address) => Ok(Step::Infer(address, Inference::Push)),
            SentStep::Split(first, second) => check_split(first, second),
        }
    }
}

fn check_reflexivity(address: u8, term: SentTerm) -> Result<Step, BadField>
    ensures { StepChecked (SentStep.Reflexivity address term) result }
{
    let term = term.check().map_err(|bad| BadField { byte: 2 + bad.byte })?;
    Ok(Step::Infer(address, Inference::Reflexivity(term)))
}

fn check_transitivity(address: u8, fact: u8, turned: u8) -> Result<Step, BadField>
    ensures { StepChecked (SentStep.Transitivity address fact turned) result }
{
    let turned = flag(turned).ok_or(BadField { byte: 3 })?;
    Ok(Step::Infer(address, Inference::Transitivity(fact, turned)))
}

fn check_congruence(address: u8, fact: u8, at: u8, turned: u8) -> Result<Step, BadField>
    ensures { StepChecked (SentStep.Congruence address fact at turned) result }
{
    let at = position(at).ok_or(BadField { byte: 3 })?;
    let turned = flag(turned).ok_or(BadField { byte: 4 })?;
    Ok(Step::Infer(address, Inference::Congruence(fact, at, turned)))
}

fn check_add(address: u8, fact: u8, factor: i32) -> Result<Step, BadField>
    ensures { StepChecked (SentStep.Add address fact factor) result }
{
    let factor = Factor::new(factor).ok_or(BadField { byte: 3 })?;
    Ok(Step::Infer(address, Inference::Add(fact, factor)))
}

fn check_antisymmetry(address: u8, fact: u8, first: u8, second: u8) -> Result<Step, BadField>
    ensures { StepChecked (SentStep.Antisymmetry address fact first second) result }
{
    let first = Name::new(first).ok_or(BadField { byte: 3 })?;
    let second = Name::new(second).ok_or(BadField { byte: 4 })?;
    Ok(Step::Infer(address, Inference::Antisymmetry(fact, first, second)))
}

fn check_split(first: u8, second: u8) -> Result<Step, BadField>
    ensures { StepChecked (SentStep.Split first second) result }
{
    let first = Name::new(first).ok_or(BadField { byte: 1 })?;
    let second = Name::new(second).ok_or(BadField { byte: 2 })?;
    Ok(Step::Split(first, second))
}
