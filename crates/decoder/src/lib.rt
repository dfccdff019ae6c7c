// Base64 from a text to a lent buffer, in one pass: a table is taken once a call and lent to a leaf that does one group.
#![tactic(auto)]

ghost use Rattle.std.specs.Prelude.{◌≡◌, ◌*◌, ◌/◌, ◌<◌, ◌≤◌, length, get_or, MatchOption, is_some};
ghost use Rattle.strict_base64.specs.Base64.{value, pad};
ghost use Rattle.decoder.specs.Inner.{Decodes, Values, Group, Last, final_at};

// The number that each byte stands for as a character, 64 where it stands for none.
const VALUES: [u8; 256] = *b"\
    \x40\x40\x40\x40\x40\x40\x40\x40\x40\x40\x40\x40\x40\x40\x40\x40\
    \x40\x40\x40\x40\x40\x40\x40\x40\x40\x40\x40\x40\x40\x40\x40\x40\
    \x40\x40\x40\x40\x40\x40\x40\x40\x40\x40\x40\x3E\x40\x40\x40\x3F\
    \x34\x35\x36\x37\x38\x39\x3A\x3B\x3C\x3D\x40\x40\x40\x40\x40\x40\
    \x40\x00\x01\x02\x03\x04\x05\x06\x07\x08\x09\x0A\x0B\x0C\x0D\x0E\
    \x0F\x10\x11\x12\x13\x14\x15\x16\x17\x18\x19\x40\x40\x40\x40\x40\
    \x40\x1A\x1B\x1C\x1D\x1E\x1F\x20\x21\x22\x23\x24\x25\x26\x27\x28\
    \x29\x2A\x2B\x2C\x2D\x2E\x2F\x30\x31\x32\x33\x40\x40\x40\x40\x40\
    \x40\x40\x40\x40\x40\x40\x40\x40\x40\x40\x40\x40\x40\x40\x40\x40\
    \x40\x40\x40\x40\x40\x40\x40\x40\x40\x40\x40\x40\x40\x40\x40\x40\
    \x40\x40\x40\x40\x40\x40\x40\x40\x40\x40\x40\x40\x40\x40\x40\x40\
    \x40\x40\x40\x40\x40\x40\x40\x40\x40\x40\x40\x40\x40\x40\x40\x40\
    \x40\x40\x40\x40\x40\x40\x40\x40\x40\x40\x40\x40\x40\x40\x40\x40\
    \x40\x40\x40\x40\x40\x40\x40\x40\x40\x40\x40\x40\x40\x40\x40\x40\
    \x40\x40\x40\x40\x40\x40\x40\x40\x40\x40\x40\x40\x40\x40\x40\x40\
    \x40\x40\x40\x40\x40\x40\x40\x40\x40\x40\x40\x40\x40\x40\x40\x40\
    ";

// The table of the numbers: for each byte the number that it stands for as a character.
#[derive(Drop)]
pub struct Table {
    numbers: [u8; 256],
    ghost each: { Values numbers },
}

impl Table {
    // The table, as it stands in the program.
    pub fn new() -> Self {
        Table { numbers: VALUES }
    }

    // The number that a character stands for, 64 where it stands for none.
    pub fn look(&self, c: u8) -> u8
        ensures { result ≡ value c }
    {
        self.numbers[usize::from(c)]
    }

    // The number that a character stands for, or that it stands for none.
    pub fn number(&self, c: u8) -> Option<u8>
        ensures { MatchOption result (64 ≤ value c) (λ v. (v ≡ value c) × (v < 64)) }
    {
        let v = self.look(c);
        if v < 64 { Some(v) } else { None }
    }

    // The lengths of both parts stand in each contract from here on: they are parts of slices, out of which no array can be lent to be written.
    // Decodes the first four characters to the first three bytes, by one word of 24 bits, where all four stand for numbers; else nothing is
    // stored.
    fn group(&self, text: &[u8], out: &mut [u8]) -> Option<()>
        requires text_bound { 4 ≤ length text.now }
        requires out_bound { 3 ≤ length out.old }
        ensures { Group text.now out.old (is_some result) out.new }
    {
        // By look and not by number: the four numbers are tested at once, by their bitwise or; a test of each takes five instructions more.
        let a = self.look(text[0]);
        let b = self.look(text[1]);
        let c = self.look(text[2]);
        let d = self.look(text[3]);
        if a | b | c | d >= 64 {
            return None;
        }
        let w = u32::from(a) * 262144 + u32::from(b) * 4096 + u32::from(c) * 64 + u32::from(d);
        out[0] = (w / 65536) as u8;
        out[1] = (w / 256 % 256) as u8;
        out[2] = (w % 256) as u8;
        Some(())
    }

    // Decodes a last group of two characters and `==` to one byte, and gives how many bytes, unless it is at fault.
    fn last_one(&self, text: &[u8], out: &mut [u8]) -> Option<usize>
        requires text_bound { 4 ≤ length text.now }
        requires out_bound { 3 ≤ length out.old }
        requires third { get_or text.now 2 0 ≡ pad }
        requires fourth { get_or text.now 3 0 ≡ pad }
        ensures { Last (final_at text.now 0) out.old result out.new }
    {
        let a = self.number(text[0])?;
        let b = self.number(text[1])?;
        if b % 16 != 0 {
            return None;
        }
        out[0] = a * 4 + b / 16;
        Some(1)
    }

    // Decodes a last group of three characters and `=` to two bytes, and gives how many bytes, unless it is at fault.
    fn last_two(&self, text: &[u8], out: &mut [u8]) -> Option<usize>
        requires text_bound { 4 ≤ length text.now }
        requires out_bound { 3 ≤ length out.old }
        requires third { get_or text.now 2 0 ≡ pad → ⊥ }
        requires fourth { get_or text.now 3 0 ≡ pad }
        ensures { Last (final_at text.now 0) out.old result out.new }
    {
        let a = self.number(text[0])?;
        let b = self.number(text[1])?;
        let c = self.number(text[2])?;
        if c % 4 != 0 {
            return None;
        }
        out[0] = a * 4 + b / 16;
        out[1] = b % 16 * 16 + c / 4;
        Some(2)
    }

    // Decodes the last group, and gives how many bytes, unless it is at fault.
    fn last(&self, text: &[u8], out: &mut [u8]) -> Option<usize>
        requires text_bound { 4 ≤ length text.now }
        requires out_bound { 3 ≤ length out.old }
        ensures { Last (final_at text.now 0) out.old result out.new }
    {
        if text[3] == b'=' {
            if text[2] == b'=' {
                return self.last_one(text, out);
            }
            return self.last_two(text, out);
        }
        self.group(text, out)?;
        Some(3)
    }
}

// Decodes a text to the start of out, in one pass: the answer is how many bytes it stands for, unless it is not well formed.
pub fn decode(text: &[u8], out: &mut [u8]) -> Option<usize>
    requires { length text.now / 4 * 3 ≤ length out.old }
    ensures { Decodes text.now out.old result out.new }
{
    let n = text.len();
    if n == 0 || n % 4 != 0 {
        return None;
    }
    let table = Table::new();
    let before = n / 4 - 1;
    // By ranges and not by chunks: the library has no `chunks_exact_mut`, and of `chunks_mut` a proof learns nothing about the elements.
    for g in 0..before {
        table.group(&text[4 * g..], &mut out[3 * g..])?;
    }
    let k = table.last(&text[4 * before..], &mut out[3 * before..])?;
    Some(3 * before + k)
}
