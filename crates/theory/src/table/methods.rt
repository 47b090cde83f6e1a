ghost use Rattle.std.specs.Prelude.{◌≡◌, ◌≤◌, [], length, MatchResult, nat_le};
ghost use Rattle.facts.specs.declared.refusal.Refusal.{Refusal};
ghost use Rattle.theory.specs.Places.{most_facts, most_below};
ghost use Rattle.theory.specs.Tables.{table_facts, table_below, RowWritten, LevelOpened, LevelDropped};

use super::Table;
use facts::{Fact, Refusal};

// How many facts an address holds at most, and how many levels above the first.
pub const MOST_FACTS: usize = 64;

pub const MOST_MARKS: usize = 8;

impl Table {
    // One empty level. What the unused rows hold does not matter.
    pub fn new(filler: Fact) -> Table
        ensures facts { table_facts result ≡ [] }
        ensures below { table_below result ≡ [] }
    {
        Table {
            rows: [filler; 64],
            used: 0,
            marks: [0; 8],
            levels: 0,
        }
    }

    // The facts of all levels, the oldest first.
    pub fn facts(&self) -> &[Fact]
        ensures { result.now ≡ table_facts self.now }
    {
        &self.rows[0..self.used]
    }

    // Whether there is no room for a fact more.
    pub fn is_full(&self) -> bool
        ensures { result ≡ nat_le 64 (length (table_facts self.now)) }
    {
        self.used >= MOST_FACTS
    }

    // How many levels there are above the first.
    pub fn levels(&self) -> usize
        ensures { result ≡ length (table_below self.now) }
    {
        self.levels
    }

    // Writes the next row, and no other. A full table refuses it, and is as it was.
    pub fn push(&mut self, fact: &Fact) -> Result<(), Refusal>
        ensures { MatchResult result (λ _. RowWritten self.old fact.now self.new) (λ e. (e ≡ Refusal.TableFull) × (most_facts ≤ length (table_facts self.old)) × (self.new ≡ self.old)) }
    {
        let next = self.used;
        if next >= MOST_FACTS {
            return Err(Refusal::TableFull);
        }
        self.rows[next] = *fact;
        self.used = next + 1;
        Ok(())
    }

    // Opens a level. With nine it is refused, and all is as it was.
    pub fn open_level(&mut self) -> Result<(), Refusal>
        ensures { MatchResult result (λ _. LevelOpened self.old self.new) (λ e. (e ≡ Refusal.LevelLimit) × (most_below ≤ length (table_below self.old)) × (self.new ≡ self.old)) }
    {
        let next = self.levels;
        if next >= MOST_MARKS {
            return Err(Refusal::LevelLimit);
        }
        self.marks[next] = self.used;
        self.levels = next + 1;
        Ok(())
    }

    // Drops the newest level. With one level it is refused, and all is as it was. The rows above the
    // level's mark are no longer in use.
    pub fn drop_level(&mut self) -> Result<(), Refusal>
        ensures { MatchResult result (λ _. LevelDropped self.old self.new) (λ e. (e ≡ Refusal.LevelLimit) × (length (table_below self.old) ≡ 0) × (self.new ≡ self.old)) }
    {
        let top = self.levels.checked_sub(1).ok_or(Refusal::LevelLimit)?;
        let mark = self.marks[top];
        self.used = mark;
        self.levels = top;
        Ok(())
    }
}
