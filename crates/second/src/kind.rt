// The kinds of records.
ghost use Rattle.std.specs.Prelude.{◌≤◌, IfSome};

use crate::fact::Relation;

/// What a record is.
#[derive(Clone, Copy)]
pub enum Kind {
    Literal(LiteralKind),
    Reading,
    Begin,
    Infer(RuleKind),
    Split,
}

/// A literal over terms or over a row.
#[derive(Clone, Copy)]
pub enum LiteralKind {
    Terms { equal: bool },
    Compared(Relation),
}

/// A rule that is applied at an address.
#[derive(Clone, Copy)]
pub enum RuleKind {
    Reflexivity,
    Transitivity,
    Congruence,
    Clash,
    Propagate,
    Zero,
    Add,
    Antisymmetry,
    Falsify,
    Strengthen,
    Cut,
    Push,
}

impl Kind {
    // The kind that a record's first byte stands for, and how many bytes its body has.
    pub fn of(byte: u8) -> Option<(Kind, usize)>
        ensures { IfSome result (λ x. x.1 ≤ 24) }
    {
        Some(match byte {
            b'E' => (Kind::Literal(LiteralKind::Terms { equal: true }), 8),
            b'D' => (Kind::Literal(LiteralKind::Terms { equal: false }), 8),
            b'G' => (Kind::Literal(LiteralKind::Compared(Relation::AtLeast)), 24),
            b'S' => (Kind::Literal(LiteralKind::Compared(Relation::Above)), 24),
            b'Z' => (Kind::Literal(LiteralKind::Compared(Relation::Zero)), 24),
            b'K' => (Kind::Reading, 3),
            b'B' => (Kind::Begin, 0),
            b'R' => (Kind::Infer(RuleKind::Reflexivity), 5),
            b'T' => (Kind::Infer(RuleKind::Transitivity), 3),
            b'C' => (Kind::Infer(RuleKind::Congruence), 4),
            b'N' => (Kind::Infer(RuleKind::Clash), 2),
            b'X' => (Kind::Infer(RuleKind::Propagate), 1),
            b'O' => (Kind::Infer(RuleKind::Zero), 1),
            b'M' => (Kind::Infer(RuleKind::Add), 6),
            b'Q' => (Kind::Infer(RuleKind::Antisymmetry), 4),
            b'F' => (Kind::Infer(RuleKind::Falsify), 1),
            b'I' => (Kind::Infer(RuleKind::Strengthen), 1),
            b'U' => (Kind::Infer(RuleKind::Cut), 1),
            b'P' => (Kind::Infer(RuleKind::Push), 1),
            b'Y' => (Kind::Split, 2),
            _ => return None,
        })
    }
}
