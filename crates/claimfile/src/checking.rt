// The check of a whole file.
ghost use Rattle.std.specs.Prelude.{◌≡◌, List};
ghost use Rattle.theory.specs.Places.{Places};
ghost use Rattle.facts.specs.declared.literal.Literal.{Literal};
ghost use Rattle.claimfile.specs.Entries.{Entry};
ghost use Rattle.claimfile.specs.Sending.{all_taken};
ghost use Rattle.claimfile.specs.Progress.{EntrySent, Opened, Fronted, Running, SteppedThrough};
ghost use Rattle.claim.specs.Derived.{Claimed, state_of};
ghost use Rattle.claimfile.specs.Judging.{Concluded, EstablishedMeans, Judged, verdict_of, unfinished};

use crate::fields::{literal_of, reading_of, step_of};
use crate::reader::Reader;
use crate::record::{Record, Stage};
use crate::verdict::{Unfinished, Verdict};
use claim::{Claim, Counts, Derivation, Ending, Line};
use facts::{CallFault, RecordFault, Refusal};
use reading::SentReading;
use theory::Theory;

// The longest file that is checked.
pub const LONGEST_FILE: usize = 32_768;

// Sends the literals of a reading, each by a call of its own.
fn send_reading<T: Theory>(claim: &mut Claim<T>, sent: SentReading) -> Result<(), CallFault>
    ensures { (ls : List Literal) → Claimed T.Theory.places T.Theory.rules claim.old ls (all_taken ls) ls → EntrySent T.Theory.places T.Theory.rules (Entry.reading sent) ls claim.old result claim.new }
{
    let place = claim.counts().place();
    let bounds = sent
        .check()
        .map_err(|cause| CallFault::unaddressed(cause, place, 0))?;
    claim.literal(bounds.lower.literal())?;
    match bounds.upper {
        Some(upper) => claim.literal(upper.literal()),
        None => Ok(()),
    }
}

// Takes the records before the begin, up to where the steps begin, or to the end where no begin comes.
fn take_front<'a, T: Theory>(
    claim: &mut Claim<T>,
    mut reader: Reader<'a>,
) -> Result<Option<Reader<'a>>, RecordFault>
    ensures { Opened T.Theory.places T.Theory.rules reader.entry.file.now reader.entry.at claim.old → Fronted T.Theory.places T.Theory.rules reader.entry.file.now result claim.new }
{
    loop {
        let offset = reader.at;
        let refused = |call| RecordFault { call, offset };
        match reader.next(Stage::Literals, claim.counts().place(), 0)? {
            None => return Ok(None),
            Some(Record::Begin) => return Ok(Some(reader)),
            Some(Record::Literal(kind, body)) => claim
                .literal(literal_of(kind, body))
                .map_err(refused)?,
            Some(Record::Reading(body)) => send_reading(claim, reading_of(body)).map_err(refused)?,
            // no step is read before the begin; a type of records for each stage says the same twice
            Some(Record::Step(_, _)) => unreachable(),
        }
    }
}

// Takes the records after the begin.
fn take_steps<T: Theory>(
    derivation: &mut Derivation<T>,
    mut reader: Reader,
) -> Result<(), RecordFault>
    ensures { (ps : Places) (ls : List Literal) → Running T.Theory.places T.Theory.rules reader.entry.file.now ps ls reader.entry.at reader.entry.at derivation.old → SteppedThrough T.Theory.places T.Theory.rules reader.entry.file.now ps ls reader.entry.at result derivation.new }
{
    loop {
        let offset = reader.at;
        let place = derivation.counts().place();
        let Some(record) = reader.next(Stage::Steps, place, derivation.depth())? else {
            return Ok(());
        };
        // after the begin only steps are read
        let Record::Step(kind, body) = record else {
            unreachable()
        };
        derivation
            .step(step_of(kind, body))
            .map_err(|call| RecordFault { call, offset })?;
    }
}

// What is left open, by what was taken and how many branches are left.
fn unfinished(counts: Counts, branches: u32) -> Unfinished
    ensures { result ≡ unfinished counts.literals counts.steps counts.splits branches }
{
    Unfinished {
        line: Line::from(counts),
        branches,
    }
}

// The verdict where every record was taken.
fn conclude<T: Theory + Drop>(derivation: Derivation<T>) -> Verdict
    ensures { Concluded (state_of T.Theory.places derivation) derivation.counts.literals derivation.counts.steps derivation.counts.splits result }
{
    let counts = derivation.counts();
    match derivation.end() {
        Ending::Sealed(seal) => Verdict::Established(seal),
        Ending::Open(branches) => Verdict::Open(unfinished(counts, branches)),
    }
}

// Sends the records of a file to a fresh claim, until one is refused or the file ends.
fn judge<T: Theory + Drop>(file: &[u8]) -> Result<Verdict, RecordFault>
    ensures verdict { Judged T.Theory.rules file.now (verdict_of result) }
    ensures established { EstablishedMeans T.Theory.admits file.now (verdict_of result) }
{
    if file.len() > LONGEST_FILE {
        let call = CallFault::unaddressed(Refusal::InputTooLong.into(), 0, 0);
        return Err(RecordFault { call, offset: 0 });
    }
    let mut claim = Claim::<T>::open();
    let Some(steps) = take_front(&mut claim, Reader { file, at: 0 })? else {
        return Ok(Verdict::Open(unfinished(claim.counts(), 1)));
    };
    let mut derivation = claim.begin();
    take_steps(&mut derivation, steps)?;
    Ok(conclude(derivation))
}

// Checks a file on a fresh claim.
pub fn check<T: Theory + Drop>(file: &[u8]) -> Verdict
    ensures verdict { Judged T.Theory.rules file.now result }
    ensures established { EstablishedMeans T.Theory.admits file.now result }
{
    judge::<T>(file).unwrap_or_else(Verdict::Refused)
}
