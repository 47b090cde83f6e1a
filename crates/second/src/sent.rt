// What a record sends: literals, readings, rules and splits with their fields in range.
use crate::cause::Cause;
use crate::fact::{Equation, Fact, Names, Relation, Row, RowFact, Term};
use crate::fields::Fields;
use crate::kind::{LiteralKind, RuleKind};

/// The count that the converter clips at.
const CLIPPED: u16 = 4095;

/// Which argument of a symbol.
#[derive(Clone, Copy)]
pub enum Position {
    First,
    Second,
}

/// A rule that is applied at an address.
#[derive(Clone, Copy)]
pub enum Rule {
    Reflexivity {
        term: Term,
    },
    Transitivity {
        fact: u8,
        turned: bool,
    },
    Congruence {
        fact: u8,
        position: Position,
        turned: bool,
    },
    Clash {
        fact: u8,
    },
    Propagate,
    Zero,
    Add {
        fact: u8,
        factor: i128,
    },
    Antisymmetry {
        fact: u8,
        names: Names,
    },
    Falsify,
    Strengthen,
    Cut,
    Push,
}

// The fact that a literal states.
pub fn read_literal(kind: LiteralKind, fields: &mut Fields) -> Result<Fact, Cause> {
    match kind {
        LiteralKind::Terms { equal } => {
            let left = fields.term()?;
            let right = fields.term()?;
            Ok(Fact::OfTerms(Equation { left, right, equal }))
        }
        LiteralKind::Compared(relation) => {
            let row = fields.row()?;
            Ok(Fact::OfRow(RowFact { row, relation }))
        }
    }
}

/// A name and what the converter stored for it.
#[derive(Clone, Copy)]
pub struct Reading {
    pub name: u8,
    pub count: u16,
}

// The name and the count of a reading.
pub fn read_reading(fields: &mut Fields) -> Result<Reading, Cause> {
    let name = fields.name()?;
    let count = fields.count()?;
    Ok(Reading { name, count })
}

impl Reading {
    // n − c ≥ 0
    pub fn low(self) -> Fact {
        let mut row = Row::constant(i128::from(self.count).saturating_neg());
        row.add(self.name, 1);
        Fact::OfRow(RowFact {
            row,
            relation: Relation::AtLeast,
        })
    }

    // c + 1 − n > 0, but for a clipped count, which bounds nothing from above.
    pub fn high(self) -> Option<Fact> {
        if self.count >= CLIPPED {
            return None;
        }
        let mut row = Row::constant(i128::from(self.count).saturating_add(1));
        row.add(self.name, -1);
        Some(Fact::OfRow(RowFact {
            row,
            relation: Relation::Above,
        }))
    }
}

// The rule of a record, whose address is read already.
pub fn read_rule(kind: RuleKind, fields: &mut Fields) -> Result<Rule, Cause> {
    Ok(match kind {
        RuleKind::Reflexivity => Rule::Reflexivity {
            term: fields.term()?,
        },
        RuleKind::Transitivity => Rule::Transitivity {
            fact: fields.byte(),
            turned: fields.turned()?,
        },
        RuleKind::Congruence => Rule::Congruence {
            fact: fields.byte(),
            position: fields.position()?,
            turned: fields.turned()?,
        },
        RuleKind::Clash => Rule::Clash {
            fact: fields.byte(),
        },
        RuleKind::Propagate => Rule::Propagate,
        RuleKind::Zero => Rule::Zero,
        RuleKind::Add => Rule::Add {
            fact: fields.byte(),
            factor: fields.factor()?,
        },
        RuleKind::Antisymmetry => Rule::Antisymmetry {
            fact: fields.byte(),
            names: fields.names()?,
        },
        RuleKind::Falsify => Rule::Falsify,
        RuleKind::Strengthen => Rule::Strengthen,
        RuleKind::Cut => Rule::Cut,
        RuleKind::Push => Rule::Push,
    })
}
