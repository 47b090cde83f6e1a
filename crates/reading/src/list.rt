// A list of reading records, and the text that is printed of it.
ghost use Rattle.std.specs.Prelude.{◌≡◌, ◌<◌, length, IfOk, Some, string_bytes};
ghost use Rattle.reading.specs.Lists.{Report, RecordRead, reading_text, fault_at};

use crate::bound::Bounds;
use crate::count::SentReading;
use facts::{CallFault, Cause, RecordFault, Refusal};
use std::alloc::{AllocError, Global};
use std::fmt::{self, Write};

// The longest input that a program reads.
pub const LONGEST_INPUT: usize = 32_768;

// How long a record is: its kind, its name, and its count with the low byte first.
const RECORD_LENGTH: usize = 4;

// A reading that is taken, as it was sent, with the literals that it states.
#[derive(Clone, Copy)]
struct Reading {
    sent: SentReading,
    bounds: Bounds,
}

impl fmt::Display for Reading {
    ghost output = { λ x. Some (reading_text x.sent x.bounds) };

    fn fmt<W: fmt::Write>(&self, f: &mut fmt::Formatter<W>) -> fmt::Result {
        let name = self.sent.name;
        let count = self.sent.count;
        let bounds = self.bounds;
        write!(f, "n{name} {count}: {bounds}")
    }
}

// The reading of the record that some bytes are, or begin.
fn read_record(bytes: &[u8]) -> Result<Reading, Cause>
    requires { 0 < length bytes.now }
    ensures { RecordRead bytes.now result }
{
    if char::from(bytes[0]) != 'K' {
        return Err(Refusal::UnknownKind.into());
    }
    let [_, name, low, high, ..] = *bytes else {
        return Err(Refusal::BodyCutShort.into());
    };
    let sent = SentReading {
        name,
        count: u16::from_le_bytes([low, high]),
    };
    let bounds = sent.check()?;
    Ok(Reading { sent, bounds })
}

// The fault of a record that begins at an offset, after so many literals.
fn fault_at(cause: Cause, place: u32, offset: usize) -> RecordFault
    ensures { result ≡ fault_at cause place offset }
{
    let call = CallFault::unaddressed(cause, place, 0);
    RecordFault { call, offset }
}

// The text that is printed of an input.
pub fn report(heap: Global, input: &[u8]) -> Result<String, AllocError>
    ensures { IfOk result (λ text. Report input.now (string_bytes text)) }
{
    let mut out = String::new(heap);
    if input.len() > LONGEST_INPUT {
        let fault = fault_at(Refusal::InputTooLong.into(), 0, 0);
        writeln!(out, "{fault}")?;
        return Ok(out);
    }
    let mut literals = 0;
    for (i, record) in input.chunks(RECORD_LENGTH).enumerate() {
        match read_record(record) {
            Ok(reading) => {
                writeln!(out, "{reading}")?;
                literals += reading.bounds.count();
            }
            Err(cause) => {
                let fault = fault_at(cause, literals, RECORD_LENGTH * i);
                writeln!(out, "{fault}")?;
                return Ok(out);
            }
        }
    }
    let readings = input.len() / RECORD_LENGTH;
    writeln!(out, "readings {readings} literals {literals}")?;
    Ok(out)
}
