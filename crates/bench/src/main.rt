// The bench: a session is read from standard input and done on a fresh SAA7103, and what it prints is
// written to standard output. Where a read or a write fails, a line on standard error says so; after a failed
// read nothing is done, and nothing else is written.
#![tactic(auto)]

ghost use Rattle.std.specs.Prelude.{◌≡◌, ◌+◌, ◌≤◌, length, take, IfOk};
ghost use Rattle.session.specs.Runs.{played, bench_state, longest_session, longest_print};

use std::io;
use std::io::{Read, Write, writer};

// Reads into the front of a buffer until the input ends or the buffer is full. The answer is how many bytes
// stand there. There is room for a byte more than the longest session, so that one that is too long is seen
// to be.
fn read_session<R: Read>(input: &mut R, buffer: &mut [u8]) -> io::Result<usize>
    requires { length buffer.old ≡ longest_session + 1 }
    ensures { IfOk result (λ bytes. (bytes ≤ length buffer.new) × (bytes ≡ length (take bytes buffer.new))) }
{
    let mut at = 0;
    // No `for`: each read moves the place by as much as it read.
    while at < buffer.len() {
        let count = input.read(&mut buffer[at..])?;
        if count == 0 {
            break;
        }
        at += count;
    }
    Ok(at)
}

// A session done on a fresh SAA7103: what it prints is the front of the buffer. The answer is its length.
fn do_session(session: &[u8], out: &mut [u8]) -> usize
    requires { length out.old ≡ longest_print }
    ensures { (result ≤ length out.new) × (result ≡ length (take result out.new))
        × (take result out.new ≡ (played bench_state session.now).printed) }
{
    session::run::bench(session, out)
}

fn main(rt: HostRuntime) {
    let mut buffer = [0u8; 16385];
    let mut reader = rt.reader();
    let Ok(bytes) = read_session(&mut reader, &mut buffer) else {
        let _ = eprintln!(rt; "bench: standard input could not be read");
        return;
    };
    let mut out = [0u8; 65536];
    let printed = do_session(&buffer[..bytes], &mut out);
    if writer(&rt).write_all(&out[..printed]).is_err() {
        let _ = eprintln!(rt; "bench: standard output could not be written");
    }
}
