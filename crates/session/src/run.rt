// run: a session done on a state, with what it prints in a lent buffer; bench does it on a fresh SAA7103.
ghost use Rattle.std.specs.Prelude.{◌≡◌, ◌≤◌, length};
ghost use Rattle.std.proofs.lemmas.List.Edits.{sets};
ghost use Rattle.session.specs.Runs.{play, bench_state, run_answer, run_buffer};
ghost use Rattle.session.specs.Runs.{longest_session, longest_print};

use bus::state::State;
use effects::effect::do_record;
use effects::print::print_record;
use lines::put_line;
use records::reader::next_from;
use records::record::Record;
use records::step::Step;
use reply::Refusal;

// A session has at most so many bytes, and prints at most so many.
const LONGEST_SESSION: usize = 16384;

const LONGEST_PRINT: usize = 65536;

// The chip byte of the SAA7103. A byte, as State::fresh answers for any.
const SAA7103: u8 = 0x03;

// The next state, and how many bytes were printed.
#[derive(Clone, Copy, Debug, PartialEq, Eq)]
pub struct Ran {
    pub state: State,
    pub bytes: usize,
}

// The records from the first to the last, each on what the one before left. The arrays are taken out of the state
// once and put together again at the end: of those that nothing reads then, as the colours under bench, the compiler
// leaves out the writes, which it can't for a state that is lent whole.
#[tactic(auto, using(crate::proofs::Fitting::session_fits))]
fn walk(state: State, session: &[u8], out: &mut [u8]) -> Ran
    requires { (length session.now ≤ longest_session) × (longest_print ≤ length out.old) }
    ensures state { result.state ≡ (play state 0 session.now).state }
    ensures bytes { result.bytes ≡ length (play state 0 session.now).printed }
    ensures out { out.new ≡ sets out.old 0 (play state 0 session.now).printed }
{
    let State {
        mut file,
        mut colours,
        mut cursor,
        status,
        chip,
        fifo,
    } = state;
    let mut at = 0;
    let mut bytes = 0;
    // No `for`: each record says where the next begins.
    loop {
        match next_from(session, at) {
            Step::Record { kind, body, next } => {
                let whole = Record {
                    kind,
                    body: &session[body..next],
                };
                let answer = do_record(&mut file, &mut colours, &mut cursor, whole);
                bytes += print_record(&mut out[bytes..], whole, answer, &file);
                at = next;
            }
            Step::Broken(kind) => {
                let reply = u8::from(Refusal::WrongLength);
                bytes += put_line(&mut out[bytes..], kind, reply, None);
                break;
            }
            Step::End => break,
        }
    }
    Ran {
        state: State {
            file,
            colours,
            cursor,
            status,
            chip,
            fifo,
        },
        bytes,
    }
}

// A session done on a state. A buffer under the longest print is refused: nothing is done.
pub fn run(state: State, session: &[u8], out: &mut [u8]) -> Ran
    ensures { (result ≡ run_answer state session.now out.old)
        × (out.new ≡ run_buffer state session.now out.old) }
{
    if out.len() < LONGEST_PRINT {
        // No Err: `run_answer` has 0 bytes printed for such a buffer.
        return Ran { state, bytes: 0 };
    }
    if LONGEST_SESSION < session.len() {
        let bytes = put_line(out, 0, u8::from(Refusal::WrongLength), None);
        return Ran { state, bytes };
    }
    walk(state, session, out)
}

// A session done on a fresh SAA7103: how many bytes were printed.
pub fn bench(session: &[u8], out: &mut [u8]) -> usize
    ensures { (result ≡ (run_answer bench_state session.now out.old).bytes)
        × (out.new ≡ run_buffer bench_state session.now out.old) }
{
    run(State::fresh(SAA7103).state, session, out).bytes
}
