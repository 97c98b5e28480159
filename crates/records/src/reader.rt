// Reader: holds a lent session and a place in it. The functions over it are thin: `record_at`, which takes
// the slice and the place, has the work.
ghost use Rattle.std.specs.Prelude.{◌≡◌};
ghost use Rattle.records.specs.Records.{record_at};
ghost use Rattle.records.specs.Told.{told_step};

use crate::step::{Step, record_at};

#[derive(Clone, Copy)]
pub struct Reader<'a> {
    pub session: &'a [u8],
    pub at: usize,
}

// A reader at a place of a session.
pub fn reader_at<'a>(session: &'a [u8], at: usize) -> Reader<'a>
    ensures { (result.session ≡ session.entry) × (result.at ≡ at) }
{
    Reader { session, at }
}

// The record at the reader's place.
pub fn next<'a>(reader: Reader<'a>) -> Step
    ensures { told_step result ≡ record_at reader.entry.session.now reader.entry.at }
{
    record_at(reader.session, reader.at)
}

// The same for a caller that keeps the place itself: a reader is made there and asked.
pub fn next_from(session: &[u8], at: usize) -> Step
    ensures { told_step result ≡ record_at session.now at }
{
    next(reader_at(session, at))
}
