// find_runs: the runs of changed places of two files, as headings, with what they come to. run_from asks for a
// changed place of two files whose changed places can all be written.
ghost use Rattle.std.specs.Prelude.{◌≡◌, ◌≤◌};
ghost use Rattle.bursts.specs.Runs.{bridged};
ghost use Rattle.chip.specs.File.{caption, file_length};
ghost use Rattle.runs.specs.Found.{ChangeAt, RunFound, RunsFound, told_found, heading_bytes};

use crate::fixed::any_fixed;
use arrayvec::ArrayVec;
use changes::Files;
use chip::file::{FILE_LENGTH, is_caption};

// A run goes on over a gap of so many places.
const BRIDGE: usize = 2;

// A burst has so many bytes of heading.
const HEADING: usize = 2;

// A run has a place, and leaves one behind it.
pub const MOST: usize = FILE_LENGTH / 2;

// Where a run ends, and the next changed place behind it, or the file's length, as next_change has it.
// Two places and no range: what lies between them matters too.
#[derive(Clone, Copy)]
pub struct Extent {
    pub end: usize,
    pub next: usize,
}

// A run as a burst begins with it: the first place, and how many.
#[derive(Clone, Copy, Default)]
pub struct Heading {
    pub start: u8,
    pub count: u8,
}

// The runs from the lowest place up.
pub type Headings = ArrayVec<Heading, MOST>;

// Whether a run that ends at `end` goes on at `next`. A gap that is bridged has two places at most, its first
// and its last.
fn goes_on(end: usize, next: usize) -> bool
    requires { (end ≤ next) × (next ≤ file_length) }
    ensures { result ≡ bridged caption end next }
{
    if next == end {
        return true;
    }
    if end + BRIDGE < next {
        return false;
    }
    !(is_caption(end) | is_caption(next - 1))
}

// The run that begins at a changed place. No `for`: each turn begins at the change that the one before found.
fn run_from(files: Files, start: usize) -> Extent
    requires { ChangeAt files.from.now files.to.now start }
    ensures { RunFound files.entry.from.now files.entry.to.now start result }
{
    let mut end = start + 1;
    let mut next = files.next_change(end);
    while next < FILE_LENGTH {
        if !goes_on(end, next) {
            return Extent { end, next };
        }
        end = next + 1;
        next = files.next_change(end);
    }
    Extent { end, next }
}

// The bytes of a list that writes the runs, whose headings go into the lent vector, or None where a changed place
// can't be written. Lent, since one that is handed out is copied, by memcpy, which the archive for C does without.
pub fn find_runs(files: Files, headings: &mut Headings) -> Option<usize>
    ensures { RunsFound files.entry.from.now files.entry.to.now
        (told_found result headings.new.items) (heading_bytes headings.new.items) }
{
    headings.clear();
    let mut bytes: usize = 0;
    let mut start = files.next_change(0);
    // Equal files are answered before all places are tested. No `for`: each run says where the next begins.
    if start < FILE_LENGTH && any_fixed(files) {
        return None;
    }
    while start < FILE_LENGTH {
        let run = run_from(files, start);
        let count = run.end - start;
        headings.push(Heading {
            start: start as u8,
            count: count as u8,
        });
        bytes += HEADING + count;
        start = run.next;
    }
    Some(bytes)
}
