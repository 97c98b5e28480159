// The list of writes.
ghost use Rattle.plan.specs.Meaning.{PlanMeans};
ghost use Rattle.thymeflask.specs.Results.{planned_in};

use plan::plan::plan;

// Where bytes and bursts begin in the result: bytes above the reply, bursts above 24 bits of bytes.
const BYTES: u64 = 256;

const BURSTS: u64 = 4294967296;

// The list of writes in the buffer: the reply, its bytes and its bursts.
#[unsafe(no_mangle)]
pub extern "C" fn thymeflask_plan(from: &[u8], to: &[u8], out: &mut [u8]) -> u64
    ensures { PlanMeans from.now to.now out.old
        (planned_in result) out.new }
{
    match plan(from, to, out) {
        Ok(planned) => BYTES * (planned.bytes as u64) + BURSTS * (planned.bursts as u64),
        Err(refusal) => u64::from(u8::from(refusal)),
    }
}
