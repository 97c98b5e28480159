// Sessions.
ghost use Rattle.std.specs.Prelude.{◌≡◌};
ghost use Rattle.session.specs.Runs.{bench_state, run_answer, run_buffer};

use session::run::bench;

// A session on a fresh SAA7103: how many bytes are printed.
#[unsafe(no_mangle)]
pub extern "C" fn thymeflask_session(session: &[u8], out: &mut [u8]) -> usize
    ensures { (result ≡ (run_answer bench_state session.now out.old).bytes)
        × (out.new ≡ run_buffer bench_state session.now out.old) }
{
    bench(session, out)
}
