// What several layers need and none owns: choices, lists of bytes and their laws (specs/, proofs/), runs of bytes by their place and length,
// and the functions on slices that everyone calls.
#![tactic(auto)]

ghost use Rattle.std.specs.Prelude.{◌≡◌, ◌+◌, ◌≤◌, ◌<◌, ◌*◌, ◌^◌, length, get_or, drop};
ghost use Rattle.laws.specs.Bytes.{pasted, same, be16, of_be16};
ghost use Rattle.laws.specs.Parts.{part_of};

// A run of bytes: where it starts among those that it was read from, and its length.
#[derive(Clone, Copy, Debug, PartialEq, Eq)]
pub struct Run {
    pub start: usize,
    pub len: usize,
}

impl Run {
    // The run's bytes, lent on out of those that it lies in.
    pub fn of<'a>(self, s: &'a [u8]) -> &'a [u8]
        requires { self.start + self.len ≤ length s.now }
        ensures { result.now ≡ part_of s.now self.start self.len }
    {
        &s[self.start..self.start + self.len]
    }
}

// Writes src into buf from place at on; the other bytes of buf stay.
pub fn put(buf: &mut [u8], at: usize, src: &[u8])
    requires { at + length src.now ≤ length buf.old }
    ensures { buf.new ≡ pasted buf.old at src.now }
{
    buf[at..at + src.len()].copy_from_slice(src);
}

// Writes n into two bytes of buf from place at on, the high one first; the other bytes of buf stay.
pub fn put_be16(buf: &mut [u8], at: usize, n: usize)
    requires { at + 1 < length buf.old }
    ensures { buf.new ≡ pasted buf.old at (be16 n) }
{
    buf[at] = (n / 256 % 256) as u8;
    buf[at + 1] = (n % 256) as u8;
}

// The byte of s at place i, or 0 past its end.
pub fn byte_at(s: &[u8], i: usize) -> u8
    ensures { result ≡ get_or s.now i 0 }
{
    s.get(i).copied().unwrap_or(0)
}

// The number in two bytes of s from place at on, the high one first; a byte past the end counts as 0.
pub fn be16_at(s: &[u8], at: usize) -> usize
    requires { at + 1 < 2 ^ 64 }
    ensures { (result ≡ of_be16 (drop at s.now)) × (result < 65536) }
{
    usize::from(byte_at(s, at)) * 256 + usize::from(byte_at(s, at + 1))
}

// Whether a and b hold the same bytes: the language's `==`, in the definitions' own word for it.
pub fn equal(a: &[u8], b: &[u8]) -> bool
    ensures { result ≡ same a.now b.now }
{
    a == b
}
