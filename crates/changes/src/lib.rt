// Two register files that are compared: Files, with next_change, the first place from a place on in which they
// differ; and same_four, which compares four places of two runs of bytes.
#![tactic(auto)]

ghost use Rattle.std.specs.Prelude.{◌≡◌, ◌+◌, ◌≤◌, ◌↔◌, length, IsSome, IfSome};
ghost use Rattle.chip.specs.File.{file_length};
ghost use Rattle.changes.specs.Places.{IsFile, same_four, same_eight, Unchanged, NextChange};

use chip::file::FILE_LENGTH;

// Eight places are compared at once: joined by `&`, the tests are one comparison of words.
const WIDE: usize = 8;

// Whether two runs of bytes agree at a place and the three behind it. Beside same_eight, which is two of it, as `runs`
// asks for the four caption bytes.
pub fn same_four(from: &[u8], to: &[u8], p: usize) -> bool
    requires { (p + 4 ≤ length from.now) × (p + 4 ≤ length to.now) }
    ensures { result ≡ same_four from.now to.now p }
{
    (from[p] == to[p])
        & ((from[p + 1] == to[p + 1]) & ((from[p + 2] == to[p + 2]) & (from[p + 3] == to[p + 3])))
}

// What the chip holds, and what it is to hold.
#[derive(Clone, Copy)]
pub struct Files<'a> {
    pub from: &'a [u8; FILE_LENGTH],
    pub to: &'a [u8; FILE_LENGTH],
    pub ghost from_file: { IsFile from.now },
    pub ghost to_file: { IsFile to.now },
}

impl<'a> Files<'a> {
    // None unless each has a file's length.
    pub fn new(from: &'a [u8], to: &'a [u8]) -> Option<Files<'a>>
        ensures files { IsSome result ↔ ((length from.now ≡ file_length) × (length to.now ≡ file_length)) }
        ensures lent { IfSome result (λ files. (files.from.now ≡ from.now) × (files.to.now ≡ to.now)) }
    {
        let from: &[u8; FILE_LENGTH] = from.try_into().ok()?;
        let to: &[u8; FILE_LENGTH] = to.try_into().ok()?;
        Some(Files { from, to })
    }

    fn same_eight(self, p: usize) -> bool
        requires { p + 8 ≤ file_length }
        ensures { result ≡ same_eight self.entry.from.now self.entry.to.now p }
    {
        let from = self.from;
        let to = self.to;
        same_four(from, to, p) & same_four(from, to, p + 4)
    }

    // Past unchanged places, eight at a time. No `for`: the place that it comes to, and no element, is the
    // answer.
    fn skip_eights(self, p: usize) -> usize
        requires { p ≤ file_length }
        ensures { Unchanged self.entry.from.now self.entry.to.now p result }
    {
        let mut q = p;
        while q + WIDE <= FILE_LENGTH && self.same_eight(q) {
            q += WIDE;
        }
        q
    }

    // The first changed place from p on, or the file's length. No Option: callers compare it with places, as a
    // range's end, and `NextChange` and `RunFound` speak of it.
    pub fn next_change(self, p: usize) -> usize
        requires { p ≤ file_length }
        ensures { NextChange self.entry.from.now self.entry.to.now p result }
    {
        if FILE_LENGTH <= p {
            return p;
        }
        if self.from[p] != self.to[p] {
            return p;
        }
        for q in self.skip_eights(p)..FILE_LENGTH {
            if self.from[q] != self.to[q] {
                return q;
            }
        }
        FILE_LENGTH
    }
}
