// Plans: the shortest list of writes from one file to another, and what it does on the bus. Each plan is
// printed with its reply, bytes and bursts. Then its bursts are sent in turn, each as a bus write, to a
// fresh SAA7103 that has the first file, and the file that they leave is compared with the wanted one. The
// plans are those of figure 7 of document 01, some between the pictures of figures 1 and 4, and refused ones.
// A write that fails is not told: what is missing then is seen where the output is compared.
#![tactic(auto)]

ghost use Rattle.std.specs.Prelude.{◌≡◌, ◌++◌, ◌<◌, length};

use bus::state::State;
use picture::write::write_picture;
use plan::plan::{Planned, numbers_of, plan};
use reply::reply_of;
use report::examples::{FIGURE_1, FIGURE_4};
use report::{Hex, part};
use scaler::request::Request;

// The slave address, for a write.
const WRITE_ADDRESS: u8 = 0x88;

// A burst has so many bytes of heading: subaddress and count.
const HEADING: usize = 2;

// The longest transaction: a heading, and the places 00h to FDh.
const LONGEST: usize = 256;

const FILE_LENGTH: usize = 256;

// The first burst of a list, and what stands behind it; a list that breaks off ends the burst too.
fn first_burst(list: &[u8]) -> (&[u8], &[u8])
    ensures whole { result.0.now ++ result.1.now ≡ list.now }
    ensures some { 0 < length list.now → 0 < length result.0.now }
    ensures shorter { 0 < length list.now → length result.1.now < length list.now }
{
    let size = match list {
        [_, count, ..] => HEADING + usize::from(*count),
        _ => list.len(),
    };
    list.split_at_checked(size).unwrap_or((list, &[]))
}

// A burst, and the reply to its bus write: the write address, the subaddress and the data.
fn send(rt: &impl Print, state: &mut State, burst: &[u8]) {
    let [subaddress, _, ..] = burst else {
        return;
    };
    let mut transaction = [0; LONGEST];
    let Some(sent) = transaction.get_mut(..burst.len()) else {
        return;
    };
    sent.copy_from_slice(burst);
    sent[0] = WRITE_ADDRESS;
    sent[1] = *subaddress;
    let reply = reply_of(state.apply(sent));
    let _ = println!(rt; "  burst{}, write: {reply}", Hex(burst));
}

// Whether a list, sent burst by burst to a fresh state with the first file, leaves the wanted one. No `for`: each
// burst says how long it is.
fn reaches(rt: &impl Print, from: [u8; FILE_LENGTH], to: &[u8; FILE_LENGTH], list: &[u8]) -> bool {
    let mut state = State::fresh(0x03).state;
    state.file = from;
    let mut rest = list;
    while !rest.is_empty() {
        let (burst, behind) = first_burst(rest);
        send(rt, &mut state, burst);
        rest = behind;
    }
    state.file == *to
}

// A plan's reply, and its list's bytes and bursts. The answer is the bytes.
fn show_plan(rt: &impl Print, name: &str, from: &[u8], to: &[u8], buffer: &mut [u8]) -> usize {
    let (reply, Planned { bytes, bursts }) = numbers_of(plan(from, to, buffer));
    let _ = println!(rt; "{name}\n  plan: {reply}, bytes {bytes}, bursts {bursts}");
    bytes
}

// A plan, and its list on the bus.
fn show(rt: &impl Print, name: &str, from: [u8; FILE_LENGTH], to: [u8; FILE_LENGTH]) {
    let mut buffer = [0; 512];
    let bytes = show_plan(rt, name, &from, &to, &mut buffer);
    let reached = reaches(rt, from, &to, part(&buffer, 0, bytes));
    let file = if reached {
        "the wanted file"
    } else {
        "another file"
    };
    let _ = println!(rt; "  replay: {file}");
}

// A plan that is refused, and the buffer of six bytes that it was lent.
fn show_refusal(rt: &impl Print, name: &str, from: &[u8], to: &[u8]) {
    let mut buffer = [0xFF; 6];
    show_plan(rt, name, from, to, &mut buffer);
    let _ = println!(rt; "  buffer{}", Hex(&buffer));
}

// A zero file with a picture written into it.
fn pictured(q: Request) -> [u8; FILE_LENGTH] {
    let mut file = [0; FILE_LENGTH];
    let _ = write_picture(&mut file, q);
    file
}

// A file of zeros with a one in some places.
fn ones(places: &[u8]) -> [u8; FILE_LENGTH] {
    let mut file = [0; FILE_LENGTH];
    for &place in places {
        file[usize::from(place)] = 1;
    }
    file
}

// A gap of two places is bridged, and one of three is not.
fn figure_7(rt: &impl Print) {
    let zeros = [0; FILE_LENGTH];
    show(
        rt,
        "figure 7, changed 70h, 71h and 74h",
        zeros,
        ones(&[0x70, 0x71, 0x74]),
    );
    show(
        rt,
        "figure 7, changed 70h and 74h",
        zeros,
        ones(&[0x70, 0x74]),
    );
}

fn pictures(rt: &impl Print) {
    let vga = pictured(FIGURE_1);
    let svga = pictured(FIGURE_4);
    show(rt, "figure 1 to figure 4", vga, svga);
    show(rt, "figure 4 to figure 1", svga, vga);
    show(rt, "figure 1 to figure 1", vga, vga);
}

// The refusals 1, 10 and 11.
fn refusals(rt: &impl Print) {
    let zeros = [0; FILE_LENGTH];
    show_refusal(rt, "a file of 255 bytes", &zeros, &[0; 255]);
    show_refusal(rt, "changed 67h, a caption byte", &zeros, &ones(&[0x67]));
    let mut unnamed = zeros;
    unnamed[0x61] = 0x20;
    show_refusal(
        rt,
        "changed bit 5 of 61h, which has no name",
        &zeros,
        &unnamed,
    );
    show_refusal(
        rt,
        "figure 7, changed 70h, 71h and 74h, a byte too few",
        &zeros,
        &ones(&[0x70, 0x71, 0x74]),
    );
}

fn main(rt: HostRuntime) {
    figure_7(&rt);
    pictures(&rt);
    refusals(&rt);
}
