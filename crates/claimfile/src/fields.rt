// The fields of a record's body.
ghost use Rattle.std.specs.Prelude.{◌≡◌, ◌+◌, ◌≤◌, ◌∷◌, length, take, drop, Some, ◌≢◌};
ghost use Rattle.claimfile.specs.Entries.{Fits32, AllPairsFit, LiteralFits, StepFits, term_bytes, number_bytes, pair_bytes, row_bytes, literal_bytes, step_bytes};
ghost use Rattle.claimfile.specs.Kinds.{shape_of, front, later};
ghost use Rattle.reading.specs.Lists.{record_bytes as reading_bytes};

use claim::SentStep;
use facts::{Literal, Relation, SentPair, SentRow, SentTerm};
use reading::SentReading;
use std::array;

// Bodies are cut into slices, with their lengths asked: an array would take an `unwrap` at each call.

// The term of four bytes.
fn term_of(bytes: &[u8]) -> SentTerm
    requires { length bytes.now ≡ 4 }
    ensures { term_bytes result ≡ bytes.now }
{
    SentTerm {
        tag: bytes[0],
        letter: bytes[1],
        first: bytes[2],
        second: bytes[3],
    }
}

// The signed number of four bytes.
fn number_of(bytes: &[u8]) -> i32
    requires { length bytes.now ≡ 4 }
    ensures written { number_bytes result ≡ bytes.now }
    ensures fits { Fits32 result }
{
    i32::from_le_bytes(bytes.try_into().unwrap())
}

// The name and coefficient of five bytes.
fn pair_of(bytes: &[u8]) -> SentPair
    requires { length bytes.now ≡ 5 }
    ensures written { pair_bytes result ≡ bytes.now }
    ensures fits { Fits32 result.coefficient }
{
    SentPair {
        name: bytes[0],
        coefficient: number_of(&bytes[1..]),
    }
}

// The row that a body holds: its constant, and four pairs.
fn row_of(body: &[u8]) -> SentRow
    requires { length body.now ≡ 24 }
    ensures written { row_bytes result ≡ body.now }
    ensures constant { Fits32 result.constant }
    ensures pairs { AllPairsFit result.pairs }
{
    SentRow {
        constant: number_of(&body[..4]),
        pairs: array::from_fn(|i| pair_of(&body[4 + 5 * i..9 + 5 * i])),
    }
}

// The literal of a record, which is of kind E, D, G, S or Z.
pub(crate) fn literal_of(kind: char, body: &[u8]) -> Literal
    requires shape { shape_of kind ≡ Some (front (length body.now)) }
    requires not_reading { kind ≢ 75 }
    requires not_begin { kind ≢ 66 }
    ensures bytes { literal_bytes result ≡ kind ∷ body.now }
    ensures fits { LiteralFits result }
{
    match kind {
        'E' => Literal::Equal(term_of(&body[..4]), term_of(&body[4..])),
        'D' => Literal::Distinct(term_of(&body[..4]), term_of(&body[4..])),
        'G' => Literal::Linear(Relation::NonNegative, row_of(body)),
        'S' => Literal::Linear(Relation::Positive, row_of(body)),
        _ => Literal::Linear(Relation::Zero, row_of(body)),
    }
}

// The reading of a record.
pub(crate) fn reading_of(body: &[u8]) -> SentReading
    requires { length body.now ≡ 3 }
    ensures { reading_bytes result ≡ 75 ∷ body.now }
{
    SentReading {
        name: body[0],
        count: u16::from_le_bytes([body[1], body[2]]),
    }
}

// The step of a record, whose kind is one of those after the begin.
pub(crate) fn step_of(kind: char, body: &[u8]) -> SentStep
    requires { shape_of kind ≡ Some (later (length body.now)) }
    ensures bytes { step_bytes result ≡ kind ∷ body.now }
    ensures fits { StepFits result }
{
    match kind {
        'R' => SentStep::Reflexivity(body[0], term_of(&body[1..])),
        'T' => SentStep::Transitivity(body[0], body[1], body[2]),
        'C' => SentStep::Congruence(body[0], body[1], body[2], body[3]),
        'N' => SentStep::Clash(body[0], body[1]),
        'X' => SentStep::Propagate(body[0]),
        'O' => SentStep::Zero(body[0]),
        'M' => SentStep::Add(body[0], body[1], number_of(&body[2..])),
        'Q' => SentStep::Antisymmetry(body[0], body[1], body[2], body[3]),
        'F' => SentStep::Falsify(body[0]),
        'I' => SentStep::Strengthen(body[0]),
        'U' => SentStep::Cut(body[0]),
        'P' => SentStep::Push(body[0]),
        _ => SentStep::Split(body[0], body[1]),
    }
}
