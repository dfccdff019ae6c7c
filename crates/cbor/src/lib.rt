// CBOR (RFC 8949) as far as the port allows it: heads of any width, strings of definite length, integers, false, true and null; and heads
// written the shortest way.
#![tactic(auto)]

ghost use Rattle.std.specs.Prelude.{◌≡◌, ◌+◌, ◌≤◌, ◌<◌, ◌∷◌, length, Some};
ghost use Rattle.cbor.specs.Read.{be_after, width_of, head_at_def, string_from_def, value_after_def, item_at};
ghost use Rattle.cbor.specs.Write.{be_bytes, head_of};
ghost use Rattle.writer.specs.Writer.{HasRoom, Wrote};

use laws::Run;
use writer::Writer;

// One item's value. A string is the run of its bytes among those that were read.
#[derive(Clone, Copy, Debug, PartialEq, Eq)]
pub enum Value {
    Unsigned(u64),
    // The number -1 - n.
    Negative(u64),
    Bytes(Run),
    Text(Run),
    Flag(bool),
    Null,
}

// A head: its major type, its argument, and the place after it.
#[derive(Clone, Copy, Debug, PartialEq, Eq)]
pub struct Head {
    pub major: u8,
    pub argument: u64,
    pub next: usize,
}

// An item: its value, and the place after it.
#[derive(Clone, Copy, Debug, PartialEq, Eq)]
pub struct Item {
    pub value: Value,
    pub next: usize,
}

// How many bytes follow an initial byte with these five low bits.
#[tactic(auto, unfolding(crate::specs::Read::width_of))]
fn width_of(info: u8) -> usize
    requires { (24 ≤ info) × (info ≤ 27) }
    ensures { (result ≡ width_of info) × (1 ≤ result) × (result ≤ 8) }
{
    match info {
        24 => 1,
        25 => 2,
        26 => 4,
        _ => 8,
    }
}

// The number in at most eight bytes, the high one first.
fn number_in(s: &[u8]) -> u64
    requires { length s.now ≤ 8 }
    ensures { result ≡ be_after 0 s.now }
{
    let mut n = 0;
    for b in s {
        n = n * 256 + u64::from(*b);
    }
    n
}

// The number in at most eight bytes, the high one first: one of one, two or four bytes, as most heads have, is read with no loop.
#[tactic(auto, using(crate::proofs::Numbers::one_byte, crate::proofs::Numbers::two_bytes, crate::proofs::Numbers::four_bytes))]
fn argument_in(s: &[u8]) -> u64
    requires { length s.now ≤ 8 }
    ensures { result ≡ be_after 0 s.now }
{
    match s {
        [b] => u64::from(*b),
        [high, low] => u64::from(*high) * 256 + u64::from(*low),
        [a, b, c, d] => {
            ((u64::from(*a) * 256 + u64::from(*b)) * 256 + u64::from(*c)) * 256 + u64::from(*d)
        }
        _ => number_in(s),
    }
}

// The head at a place of s; none where it is malformed.
#[tactic(auto, unfolding(crate::specs::Read::head_at_def, crate::specs::Read::head_after, laws::specs::Choice::pick))]
pub fn head_at(s: &[u8], at: usize) -> Option<Head>
    ensures { result ≡ head_at_def s.now at }
{
    let b = *s.get(at)?;
    let major = b / 32;
    let info = b % 32;
    let next = at + 1;
    if info < 24 {
        return Some(Head {
            major,
            argument: u64::from(info),
            next,
        });
    }
    if 27 < info {
        return None;
    }
    let end = next + width_of(info);
    let argument = argument_in(s.get(next..end)?);
    Some(Head {
        major,
        argument,
        next: end,
    })
}

// The item of a string of n bytes from a place of s on; none where they are not there.
#[tactic(auto, unfolding(crate::specs::Read::string_from_def, laws::specs::Choice::pick))]
fn string_from(s: &[u8], value: Value, n: u64, at: usize) -> Option<Item>
    requires { at ≤ length s.now }
    ensures { result ≡ string_from_def s.now value n at }
{
    // Casts between u64 and usize, both of 64 bits: TryFrom would be no plainer, since it adds a case that never comes.
    let left = (s.len() - at) as u64;
    if left < n {
        return None;
    }
    Some(Item {
        value,
        next: at + n as usize,
    })
}

// The item that a head begins, which ends within s.
#[tactic(auto, unfolding(crate::specs::Read::value_after_def, laws::specs::Choice::pick))]
fn value_after(s: &[u8], head: Head) -> Option<Item>
    requires { head.next ≤ length s.now }
    ensures { result ≡ value_after_def s.now (Some head) }
{
    let Head {
        major,
        argument,
        next,
    } = head;
    let run = Run {
        start: next,
        len: argument as usize,
    };
    match major {
        0 => Some(Item {
            value: Value::Unsigned(argument),
            next,
        }),
        1 => Some(Item {
            value: Value::Negative(argument),
            next,
        }),
        2 => string_from(s, Value::Bytes(run), argument, next),
        3 => string_from(s, Value::Text(run), argument, next),
        _ => None,
    }
}

// The item at a place of s; none where it is malformed.
#[tactic(auto, using(crate::proofs::Laws::head_place), unfolding(crate::specs::Read::item_at, crate::specs::Read::value_after_def, laws::specs::Choice::pick))]
pub fn item_at(s: &[u8], at: usize) -> Option<Item>
    ensures { result ≡ item_at s.now at }
{
    let value = match *s.get(at)? {
        0xF4 => Value::Flag(false),
        0xF5 => Value::Flag(true),
        0xF6 => Value::Null,
        _ => return value_after(s, head_at(s, at)?),
    };
    Some(Item {
        value,
        next: at + 1,
    })
}

// How many bytes the shortest head of this argument has, whatever its major type.
#[tactic(auto, unfolding(crate::specs::Write::head_of, laws::specs::Choice::pick, crate::specs::Write::be_bytes))]
pub fn head_len(n: u64) -> usize
    ensures { result ≡ length (head_of 0 n) }
{
    match n {
        0..24 => 1,
        24..256 => 2,
        256..65536 => 3,
        65536..4294967296 => 5,
        _ => 9,
    }
}

// Writes the initial byte and n in w bytes after it. It is compiled into its caller, where w is a constant, as is put_head, where the argument often is.
#[inline(always)]
fn put_wide(out: &mut Writer, first: u8, w: usize, n: u64)
    requires { (w ≤ 8) × HasRoom out.old (first ∷ be_bytes w n) }
    ensures { Wrote out.old out.new (first ∷ be_bytes w n) }
{
    out.byte(first);
    out.bytes(&n.to_be_bytes()[8 - w..]);
}

// Writes the shortest head of this major type and argument.
#[tactic(auto, unfolding(crate::specs::Write::head_of, crate::specs::Write::be_bytes, laws::specs::Choice::pick))]
#[inline(always)]
pub fn put_head(out: &mut Writer, major: u8, n: u64)
    requires { (major < 8) × HasRoom out.old (head_of major n) }
    ensures { Wrote out.old out.new (head_of major n) }
{
    let m = major * 32;
    match n {
        0..24 => put_wide(out, m + n as u8, 0, n),
        24..256 => put_wide(out, m + 24, 1, n),
        256..65536 => put_wide(out, m + 25, 2, n),
        65536..4294967296 => put_wide(out, m + 26, 4, n),
        _ => put_wide(out, m + 27, 8, n),
    }
}
