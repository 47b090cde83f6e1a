// Why a call stops.
use crate::refusal::Refusal;
use std::alloc::{AllocError, AllocFailed};

/// The theories, each with its number.
#[derive(Clone, Copy, PartialEq, Eq, Debug)]
pub enum Theory {
    Equality = 1,
    Fractions = 2,
    Whole = 3,
}

/// A refusal, the address that the step was sent to, which may be any byte, the theory that refused and
/// the detail.
#[derive(Clone, Copy, PartialEq, Eq, Debug)]
pub struct Cause {
    pub refusal: Refusal,
    pub side: u8,
    pub theory: Option<Theory>,
    pub detail: usize,
}

impl From<Refusal> for Cause {
    fn from(refusal: Refusal) -> Cause {
        Cause {
            refusal,
            side: 0,
            theory: None,
            detail: 0,
        }
    }
}

impl Cause {
    // The field at this place of its record is out of its range.
    pub(crate) fn field(place: usize) -> Cause {
        Cause {
            detail: place,
            ..Cause::from(Refusal::FieldOutOfRange)
        }
    }

    // There is no such fact among so many.
    pub(crate) fn no_fact(count: usize) -> Cause {
        Cause {
            detail: count,
            ..Cause::from(Refusal::NoSuchFact)
        }
    }

    // The same refusal, by this theory.
    pub(crate) fn by(self, theory: Theory) -> Cause {
        Cause {
            theory: Some(theory),
            ..self
        }
    }

    // The same refusal, of a step that was sent to this address.
    pub(crate) fn sent_to(self, address: u8) -> Cause {
        Cause {
            side: address,
            ..self
        }
    }

    // The number of the theory that refused, 0 where none did.
    pub(crate) fn theory_number(&self) -> usize {
        self.theory.map_or(0, |theory| theory as usize)
    }
}

/// A call was refused, or there was no memory for it.
#[derive(Drop)]
pub enum Stop {
    Refused(Cause),
    Memory,
}

impl Stop {
    // The same, of a step that was sent to this address.
    pub(crate) fn sent_to(self, address: u8) -> Stop {
        match self {
            Stop::Refused(cause) => Stop::Refused(cause.sent_to(address)),
            Stop::Memory => Stop::Memory,
        }
    }
}

impl From<Cause> for Stop {
    fn from(cause: Cause) -> Stop {
        Stop::Refused(cause)
    }
}

impl From<Refusal> for Stop {
    fn from(refusal: Refusal) -> Stop {
        Stop::Refused(Cause::from(refusal))
    }
}

impl From<AllocError> for Stop {
    fn from(_e: AllocError) -> Stop {
        Stop::Memory
    }
}

impl<T: Drop> From<AllocFailed<T>> for Stop {
    fn from(_e: AllocFailed<T>) -> Stop {
        Stop::Memory
    }
}
