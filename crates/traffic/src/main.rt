// Bus traffic with a fresh SAA7103: each transaction with its reply, and what the state then holds. A write
// that fails is not told: what is missing then is seen where the output is compared.
#![tactic(auto)]

use bus::state::State;
use cursor::cursor_row;
use reply::reply_of;
use report::Hex;

// The answer is the state that the write leaves.
fn write(rt: &impl Print, state: State, transaction: &[u8]) -> State {
    let answer = state.write(transaction);
    let _ = println!(rt; "write{}: {}", Hex(transaction), reply_of(answer.reply));
    answer.state
}

// Beside a refusal the byte is 0.
fn read(rt: &impl Print, state: State, transaction: &[u8]) -> State {
    let answer = state.read(transaction);
    let (reply, byte) = answer.numbers();
    let _ = println!(rt; "read{}: {reply} {byte:02x}", Hex(transaction));
    answer.state
}

// Named and unnamed bits, a run, the last place, and what is refused.
fn registers(rt: &impl Print, mut state: State) -> State {
    state = write(rt, state, b"\x88\x61\xff\xff\xff");
    state = write(rt, state, b"\x88\x81\x2b\x3f\x21");
    state = write(rt, state, b"\x88\xfd\x80");
    state = write(rt, state, b"\x88\xfd\x80\x80");
    state = write(rt, state, b"\x88");
    state = write(rt, state, b"\x8a\x61\x00");
    let _ = println!(rt; "places 61h to 63h{}", Hex(&state.file[0x61..0x64]));
    let _ = println!(rt; "places 81h to 83h{}", Hex(&state.file[0x81..0x84]));
    state
}

// Cells of the cursor map and of the colour table, and what is refused of them.
fn cells(rt: &impl Print, mut state: State) -> State {
    state = write(rt, state, b"\x88\xfe\x08\x1b\xe4");
    state = write(rt, state, b"\x88\xfe\xff\x01\x02");
    state = write(rt, state, b"\x88\xff\x02\x10\x20\x30\x40\x50\x60");
    state = write(rt, state, b"\x88\xff\x02\x10\x20");
    let _ = println!(rt; "cursor row 1{}", Hex(cursor_row(&state.cursor, 1)));
    let _ = println!(rt; "cursor row 32{}", Hex(cursor_row(&state.cursor, 32)));
    let _ = println!(rt; "colour cells 2 and 3{}", Hex(&state.colours[6..12]));
    state
}

// The readable bytes, and what is refused of a read.
fn readable(rt: &impl Print, mut state: State) -> State {
    state = read(rt, state, b"\x88\x00\x89");
    state = read(rt, state, b"\x88\x1c\x89");
    state = read(rt, state, b"\x88\x80\x89");
    state = read(rt, state, b"\x88\x81\x89");
    state = read(rt, state, b"\x88\x00\x88");
    read(rt, state, b"\x88\x00")
}

fn main(rt: HostRuntime) {
    let state = registers(&rt, State::fresh(0x03).state);
    let state = cells(&rt, state);
    readable(&rt, state.set_status(0x41).set_fifo(0x02));
    let refused = reply_of(State::fresh(0x04).reply);
    let _ = println!(&rt; "fresh{}: {refused}", Hex(b"\x04"));
}
