// plan: the shortest list of writes from one register file to another.
ghost use Rattle.std.specs.Prelude.{◌≡◌};
ghost use Rattle.plan.specs.Meaning.{PlanMeans};
ghost use Rattle.plan.specs.Plan.{told_plan};

use crate::write::write_list;
use changes::Files;
use reply::Refusal;
use runs::find::{Headings, find_runs};

// The bytes and the bursts of a list.
#[derive(Clone, Copy)]
pub struct Planned {
    pub bytes: usize,
    pub bursts: usize,
}

// The list lies at the buffer's front, and what stands behind it stays; a refusal leaves the buffer.
pub fn plan(from: &[u8], to: &[u8], out: &mut [u8]) -> Result<Planned, Refusal>
    ensures { PlanMeans from.now to.now out.old (told_plan result) out.new }
{
    let files = Files::new(from, to).ok_or(Refusal::WrongLength)?;
    let mut headings = Headings::new();
    let bytes = find_runs(files, &mut headings).ok_or(Refusal::NotWritable)?;
    if out.len() < bytes {
        return Err(Refusal::TooLong);
    }
    write_list(files.to, &headings, out);
    Ok(Planned {
        bytes,
        bursts: headings.len(),
    })
}

// An answer by its numbers: the reply, and the list's bytes and bursts, both 0 beside a refusal.
#[tactic(auto, unfolding(crate::specs::Plan::refusal))]
pub fn numbers_of(answer: Result<Planned, Refusal>) -> (u8, Planned)
    ensures { told_plan answer ≡ record { reply = result.0; bytes = result.1.bytes; bursts = result.1.bursts } }
{
    match answer {
        Ok(list) => (0, list),
        Err(refusal) => (
            u8::from(refusal),
            Planned {
                bytes: 0,
                bursts: 0,
            },
        ),
    }
}
