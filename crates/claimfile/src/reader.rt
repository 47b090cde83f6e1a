// How far the records of a file have been read.
ghost use Rattle.std.specs.Prelude.{◌≡◌, ◌≤◌, length};
ghost use Rattle.claimfile.specs.Records.{Passed, ReadAt};

use crate::record::{Record, Stage, read};
use facts::{CallFault, RecordFault};

// A file, and where its next record begins.
#[derive(Clone, Copy)]
pub(crate) struct Reader<'a> {
    pub file: &'a [u8],
    pub at: usize,
    ghost inside: { at ≤ length file.now },
}

impl<'a> Reader<'a> {
    // Reads the next record, unless none is left, and moves past it. The fault of one that cannot be
    // read has the place and depth of the claim.
    pub(crate) fn next(
        &mut self,
        stage: Stage,
        place: u32,
        depth: u8,
    ) -> Result<Option<Record<'a>>, RecordFault>
        ensures file { self.new.file ≡ self.old.file }
        ensures record { ReadAt stage self.old.file.now self.old.at place depth result }
        ensures passed { Passed self.old.at result self.new.at }
    {
        let file = self.file;
        let offset = self.at;
        let next = read(&file[offset..], stage).map_err(|refusal| RecordFault {
            call: CallFault::unaddressed(refusal.into(), place, depth),
            offset,
        })?;
        if let Some(record) = next {
            self.at += record.len();
        }
        Ok(next)
    }
}
