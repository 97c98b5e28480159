// store_run: a run of bytes into a lent file, as it is. A leaf for other crates: the run must lie in the file.
#![tactic(auto)]

ghost use Rattle.std.specs.Prelude.{◌≡◌, ◌+◌, ◌≤◌, ◌<◌, length};
ghost use Rattle.std.proofs.lemmas.List.Edits.{sets};

// Under four bytes, one by one: the loop below is made for longer runs and costs more before its first byte.
fn store_few(file: &mut [u8], at: usize, bytes: &[u8])
    requires { (at + length bytes.now ≤ length file.old) × (length bytes.now < 4) }
    ensures { file.new ≡ sets file.old at bytes.now }
{
    let [first, rest @ ..] = bytes else {
        return;
    };
    file[at] = *first;
    let [second, rest @ ..] = rest else {
        return;
    };
    file[at + 1] = *second;
    let [third, ..] = rest else {
        return;
    };
    file[at + 2] = *third;
}

// Each byte of a run replaces what its place held. The run must lie in the file: a place and no part of it, as its
// callers have a place. A loop, since copy_from_slice would need memmove of the C library, and the archive for C
// takes nothing from it but memset.
pub fn store_run(file: &mut [u8], at: usize, bytes: &[u8])
    requires { at + length bytes.now ≤ length file.old }
    ensures { file.new ≡ sets file.old at bytes.now }
{
    if bytes.len() < 4 {
        store_few(file, at, bytes);
    } else {
        for (i, &byte) in bytes.iter().enumerate() {
            file[at + i] = byte;
        }
    }
}
