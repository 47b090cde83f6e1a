// The fields of literals at the edges of their ranges.
use facts::{Fact, Literal, Name, Refusal, Relation, SentPair, SentRow, SentTerm};
use std::test::Fail;

fn term(tag: u8, letter: u8, first: u8, second: u8) -> SentTerm {
    SentTerm {
        tag,
        letter,
        first,
        second,
    }
}

fn pair(name: u8, coefficient: i32) -> SentPair {
    SentPair { name, coefficient }
}

fn row(constant: i32, first: SentPair, second: SentPair) -> Literal {
    let none = pair(0, 0);
    let row = SentRow {
        constant,
        pairs: [first, second, none, none],
    };
    Literal::Linear(Relation::NonNegative, row)
}

// The byte of the first bad field.
fn bad_byte(literal: Literal) -> Option<u8> {
    literal.check().err().map(|bad| bad.byte)
}

fn bad_sides(left: SentTerm, right: SentTerm) -> Option<u8> {
    bad_byte(Literal::Equal(left, right))
}

// The coefficient of a name in the row that a literal stands for.
fn coefficient(literal: Literal, name: u8) -> Option<i64> {
    let name = Name::new(name)?;
    let Ok(Fact::Linear(_, row)) = literal.check() else {
        return None;
    };
    Some(row.coefficient(name))
}

#[test]
fn names_end_at_31(rt: HostRuntime) {
    let n0 = term(0, 0, 0, 0);
    assert_eq!(rt; bad_sides(n0, term(0, 0, 31, 0)), None);
    assert_eq!(rt; bad_sides(n0, term(0, 0, 32, 0)), Some(7));
    assert_eq!(rt; bad_sides(term(0, 0, 32, 0), n0), Some(3));
    assert!(rt; Name::new(31).is_some());
    assert!(rt; Name::new(32).is_none());
}

#[test]
fn a_tag_says_what_its_fields_may_be(rt: HostRuntime) {
    let n0 = term(0, 0, 0, 0);
    assert_eq!(rt; bad_sides(term(3, 0, 0, 0), n0), Some(1));
    assert_eq!(rt; bad_sides(term(0, 1, 0, 0), n0), Some(2));
    assert_eq!(rt; bad_sides(term(0, 0, 0, 1), n0), Some(4));
    assert_eq!(rt; bad_sides(term(1, 15, 31, 0), n0), None);
    assert_eq!(rt; bad_sides(term(1, 16, 32, 1), n0), Some(2));
    assert_eq!(rt; bad_sides(n0, term(1, 0, 0, 1)), Some(8));
    assert_eq!(rt; bad_sides(n0, term(2, 15, 31, 31)), None);
    assert_eq!(rt; bad_sides(n0, term(2, 15, 31, 32)), Some(8));
}

#[test]
fn a_bare_name_is_told(rt: HostRuntime) -> Result<(), Fail> {
    let Ok(bare) = term(0, 0, 31, 0).check() else {
        return Err(Fail::new("a good term"));
    };
    let Ok(applied) = term(1, 0, 31, 0).check() else {
        return Err(Fail::new("a good term"));
    };
    assert!(rt; applied.bare_name().is_none());
    match bare.bare_name() {
        Some(name) => {
            assert_eq!(rt; name.index(), 31);
            Ok(())
        },
        None => Err(Fail::new("a bare name")),
    }
}

#[test]
fn numbers_end_at_a_thousand_million(rt: HostRuntime) {
    let most = 1_000_000_000;
    assert_eq!(rt; bad_byte(row(most, pair(0, -most), pair(31, most))), None);
    assert_eq!(rt; bad_byte(row(most + 1, pair(0, 0), pair(0, 0))), Some(1));
    assert_eq!(rt; bad_byte(row(i32::MIN, pair(0, 0), pair(0, 0))), Some(1));
    assert_eq!(rt; bad_byte(row(0, pair(0, -most - 1), pair(32, 0))), Some(6));
    assert_eq!(rt; bad_byte(row(0, pair(0, i32::MAX), pair(0, 0))), Some(6));
    assert_eq!(rt; bad_byte(row(0, pair(0, 1), pair(32, 0))), Some(10));
    assert_eq!(rt; bad_byte(row(0, pair(0, 1), pair(31, i32::MIN))), Some(11));
}

#[test]
fn the_coefficients_of_a_name_add(rt: HostRuntime) {
    let most = 1_000_000_000;
    assert_eq!(rt; coefficient(row(0, pair(3, 5), pair(3, 7)), 3), Some(12));
    assert_eq!(rt; coefficient(row(0, pair(3, 5), pair(3, -5)), 3), Some(0));
    assert_eq!(rt;
        coefficient(row(0, pair(3, most), pair(3, most)), 3),
        Some(2_000_000_000)
    );
    assert_eq!(rt; coefficient(row(0, pair(3, 5), pair(4, 7)), 4), Some(7));
    assert_eq!(rt; coefficient(row(0, pair(3, 5), pair(4, 7)), 5), Some(0));
}

#[test]
fn refusals_have_numbers(rt: HostRuntime) {
    assert_eq!(rt; Refusal::InputTooLong.number(), 1);
    assert_eq!(rt; Refusal::FieldOutOfRange.number(), 6);
    assert_eq!(rt; Refusal::SheetFull.number(), 19);
    assert!(rt; Refusal::TableFull == Refusal::TableFull);
    assert!(rt; Refusal::TableFull != Refusal::SheetFull);
}
