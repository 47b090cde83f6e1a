// What a refused caller is told.
ghost use Rattle.facts.specs.Faults.{because, cause_by, no_address, out_of_range};
ghost use Rattle.facts.specs.Lines.{refused_line};
ghost use Rattle.std.specs.Prelude.{◌≡◌, Some};

use crate::refusal::Refusal;
use std::fmt;

// A refusal, with what the part that refuses knows: the detail (the byte of a bad field in its
// record, or how many facts there are where one is missing, else 0), and the number of the theory
// that refuses, or 0. Numbers, since they are printed so, and any theory may bring its own.
#[derive(Clone, Copy, PartialEq, Eq, Debug)]
pub struct Cause {
    pub refusal: Refusal,
    pub detail: u8,
    pub theory: u8,
}

impl Cause {
    // The same refusal, by the theory with this number.
    pub fn by(self, theory: u8) -> Cause
        ensures { result ≡ cause_by theory self }
    {
        Cause { theory, ..self }
    }
}

// Where the detail and the theory's number are 0.
impl From<Refusal> for Cause {
    ghost from_gives = { λ refusal cause. cause ≡ because refusal };

    fn from(refusal: Refusal) -> Cause {
        Cause {
            refusal,
            detail: 0,
            theory: 0,
        }
    }
}

// A field of a record is out of its range: the place of its first byte.
#[derive(Clone, Copy, PartialEq, Eq, Debug)]
pub struct BadField {
    pub byte: u8,
}

impl From<BadField> for Cause {
    ghost from_gives = { λ field cause. cause ≡ out_of_range field.byte };

    fn from(field: BadField) -> Cause {
        Cause {
            detail: field.byte,
            ..Cause::from(Refusal::FieldOutOfRange)
        }
    }
}

// A refused call on a claim: the address that it was sent to, how many literals and steps were
// taken before it, and how many splits were open.
#[derive(Clone, Copy, PartialEq, Eq, Debug)]
pub struct CallFault {
    pub cause: Cause,
    pub address: u8,
    pub place: u32,
    pub depth: u8,
}

impl CallFault {
    // A call that was sent to no address.
    pub fn unaddressed(cause: Cause, place: u32, depth: u8) -> CallFault
        ensures { result ≡ no_address cause place depth }
    {
        CallFault {
            cause,
            address: 0,
            place,
            depth,
        }
    }
}

// A refused record: the refused call, and where the record begins in its file.
#[derive(Clone, Copy, PartialEq, Eq, Debug)]
pub struct RecordFault {
    pub call: CallFault,
    pub offset: usize,
}

impl fmt::Display for RecordFault {
    ghost output = { λ x. Some (refused_line x) };

    fn fmt<W: fmt::Write>(&self, f: &mut fmt::Formatter<W>) -> fmt::Result {
        let number = self.call.cause.refusal.number();
        let offset = self.offset;
        let place = self.call.place;
        let depth = self.call.depth;
        let address = self.call.address;
        let theory = self.call.cause.theory;
        let detail = self.call.cause.detail;
        write!(
            f,
            "REFUSED {number} offset {offset} place {place} depth {depth} side {address} theory {theory} detail {detail}"
        )
    }
}
