// Sessions: each with its name and its bytes, what it prints, and some bytes of the state that it leaves.
// They are the empty one, one of every kind, those that are cut short or of unknown kind, the longest, one
// that is too long, and one whose buffer is too short. A write that fails is not told: what is missing then is
// seen where the output is compared.
#![tactic(auto)]

use bus::state::State;
use report::{Hex, part};
use session::run::run;
use std::array;
use std::io::{Write, writer};

// The longest session has so many bytes.
const LONGEST: usize = 16384;

const TOO_LONG: usize = LONGEST + 1;

// A fresh SAA7103, with a status byte and a fifo byte that are not 0.
fn fresh() -> State {
    State::fresh(0x03).state.set_status(0x41).set_fifo(0x02)
}

// A session's name and bytes, and what it prints. The answer is the next state. Not inlined, so that its buffer
// does not lie on the stack beside that of another.
#[inline(never)]
fn show(rt: &impl Print, name: &str, session: &[u8]) -> State {
    let _ = println!(rt; "{name}{}", Hex(session));
    let mut out = [0; 65536];
    let ran = run(fresh(), session, &mut out);
    let _ = writer(rt).write_all(part(&out, 0, ran.bytes));
    ran.state
}

fn show_readable(rt: &impl Print, state: &State) {
    let _ = println!(rt;
        "  status, chip, fifo:{}",
        Hex(&[state.status, state.chip, state.fifo])
    );
}

// The colour table's first and last cell.
fn show_colours(rt: &impl Print, state: &State) {
    let _ = println!(rt; "  colour cell 0:{}", Hex(&state.colours[..3]));
    let _ = println!(rt; "  colour cell 255:{}", Hex(&state.colours[765..]));
}

// The cursor map's first and last byte.
fn show_cursor(rt: &impl Print, state: &State) {
    let _ = println!(rt; "  cursor byte 0:{}", Hex(&state.cursor[..1]));
    let _ = println!(rt; "  cursor byte 255:{}", Hex(&state.cursor[255..]));
}

// PCL's places in the file.
fn show_clock(rt: &impl Print, state: &State) {
    let _ = println!(rt; "  places 81h to 83h:{}", Hex(&state.file[0x81..0x84]));
}

// Some bytes of each part of the state.
fn show_state(rt: &impl Print, state: &State) {
    show_clock(rt, state);
    show_colours(rt, state);
    show_cursor(rt, state);
    show_readable(rt, state);
}

// All is done; no record changes the readable bytes.
fn whole(rt: &impl Print) {
    show_state(rt, &show(rt, "no record:", b""));
    show_state(
        rt,
        &show(
            rt,
            "every kind:",
            b"\x01\x00\x80\x02\xe0\x01\x20\x03\x80\x02\xd8\x00\x00\x00\x50\x00\x42\x00\x00\x02\x82\xc0\
          \x03\x00\x11\x22\x33\x03\xff\x44\x55\x66\x04\x00\x77\x04\xff\x88\x05\x81\x05\x82",
        ),
    );
}

// The kind alone.
fn kinds_alone(rt: &impl Print) {
    show(rt, "01 alone:", b"\x01");
    show(rt, "02 alone:", b"\x02");
    show(rt, "03 alone:", b"\x03");
    show(rt, "04 alone:", b"\x04");
    show(rt, "05 alone:", b"\x05");
}

// A byte is missing, behind a record that is whole: that one is done, and the last is not.
fn cut_short(rt: &impl Print) {
    show_clock(
        rt,
        &show(
            rt,
            "01, figure 1 of document 01, a byte short:",
            b"\x02\x82\x3f\x01\x00\x80\x02\xe0\x01\x20\x03\x80\x02\xd8\x00\x00\x00\x50\x00\x42\x00",
        ),
    );
    show_clock(rt, &show(rt, "02 a byte short:", b"\x02\x82\x3f\x02\x81"));
    show_colours(
        rt,
        &show(
            rt,
            "03 a byte short:",
            b"\x03\xff\x44\x55\x66\x03\x00\x11\x22",
        ),
    );
    show_cursor(rt, &show(rt, "04 a byte short:", b"\x04\xff\x88\x04\x00"));
    show_clock(rt, &show(rt, "05 a byte short:", b"\x02\x82\x3f\x05"));
}

// What stands behind a record of unknown kind is not done.
fn unknown(rt: &impl Print) {
    show_clock(rt, &show(rt, "kind 00:", b"\x02\x82\x3f\x00\x02\x81\x2b"));
    show_clock(rt, &show(rt, "kind 06:", b"\x02\x82\x3f\x06\x02\x81\x2b"));
    show_clock(rt, &show(rt, "kind ff:", b"\x02\x82\x3f\xff\x02\x81\x2b"));
}

// A long session: how many bytes it prints, its first line, whose length is given, and its last line if there
// is another.
fn show_long(rt: &impl Print, session: &[u8], line: usize) {
    let _ = println!(rt; "05 81 again and again, bytes: {}", session.len());
    let mut out = [0; 65536];
    let bytes = run(fresh(), session, &mut out).bytes;
    let _ = println!(rt; "  bytes printed: {bytes}");
    let _ = writer(rt).write_all(part(&out, 0, line));
    if line < bytes {
        let _ = writer(rt).write_all(part(&out, bytes - line, bytes));
    }
}

// A line of 05 has 8 bytes, and the line 00 1 has 5.
fn long(rt: &impl Print) {
    let session: [u8; TOO_LONG] = array::from_fn(|place| if place % 2 == 0 { 0x05 } else { 0x81 });
    show_long(rt, part(&session, 0, LONGEST), 8);
    show_long(rt, &session, 5);
}

// A buffer of a byte too few: nothing is done. Not inlined, as `show`.
#[inline(never)]
fn short_buffer(rt: &impl Print) {
    let mut out = [0xFF; 65535];
    let session = b"\x02\x81\x2b\x05\x81";
    let _ = println!(rt; "a buffer of 65535 bytes:{}", Hex(session));
    let ran = run(fresh(), session, &mut out);
    let _ = println!(rt; "  bytes printed: {}", ran.bytes);
    let _ = println!(rt; "  buffer from 0:{}", Hex(part(&out, 0, 13)));
    let _ = println!(rt; "  buffer from 65522:{}", Hex(part(&out, 65522, 65535)));
    show_state(rt, &ran.state);
}

fn main(rt: HostRuntime) {
    whole(&rt);
    kinds_alone(&rt);
    cut_short(&rt);
    unknown(&rt);
    long(&rt);
    short_buffer(&rt);
}
