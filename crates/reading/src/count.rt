ghost use Rattle.std.specs.Prelude.{◌≡◌, ◌≤◌};
ghost use Rattle.reading.specs.Converter.{ReadingChecked, highest_count, rule};

use crate::bound::{Bound, Bounds};
use facts::{BadField, Cause, Name};

// The highest count that the converter stores.
pub const HIGHEST_COUNT: u16 = 4095;

// A count that was stored for a name, as it is sent.
#[derive(Clone, Copy)]
pub struct SentReading {
    pub name: u8,
    pub count: u16,
}

impl SentReading {
    // The literals that the reading states, or why it is refused.
    pub fn check(self) -> Result<Bounds, Cause>
        ensures { ReadingChecked self result }
    {
        let name = Name::new(self.name).ok_or(BadField { byte: 1 })?;
        if self.count > HIGHEST_COUNT {
            return Err(BadField { byte: 2 }.into());
        }
        Ok(stated(name, self.count))
    }
}

// The literals by the reading rule.
fn stated(name: Name, count: u16) -> Bounds
    requires { count ≤ highest_count }
    ensures { result ≡ rule name count }
{
    Bounds {
        lower: Bound::AtLeast(name, count),
        upper: (count < HIGHEST_COUNT).then_some(Bound::LessThan(name, count + 1)),
    }
}
