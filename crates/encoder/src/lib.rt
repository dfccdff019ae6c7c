// Base64 from bytes to a text in a lent buffer, in one pass: a table is taken once a call and lent to a leaf that does one group.
#![tactic(auto)]

ghost use Rattle.std.specs.Prelude.{◌≡◌, ◌+◌, ◌*◌, ◌/◌, ◌<◌, ◌≤◌, length};
ghost use Rattle.laws.specs.Bytes.{pasted};
ghost use Rattle.strict_base64.specs.Base64.{char};
ghost use Rattle.encoder.specs.Inner.{Encodes, Chars, text_of_three, text_of_one, text_of_two};

// The character that stands for each number below 64.
const CHARS: [u8; 64] = *b"ABCDEFGHIJKLMNOPQRSTUVWXYZabcdefghijklmnopqrstuvwxyz0123456789+/";

// The table of the characters: for each number below 64 the character that stands for it.
#[derive(Drop)]
struct Table {
    letters: [u8; 64],
    ghost each: { Chars letters },
}

impl Table {
    // The room for four characters stands in each contract below: it is a part of a slice, out of which no array can be lent to be written.
    // The table, as it stands in the program.
    fn new() -> Self {
        Table { letters: CHARS }
    }

    // The character that stands for a number below 64.
    fn letter(&self, v: u8) -> u8
        requires { v < 64 }
        ensures { result ≡ char v }
    {
        self.letters[usize::from(v)]
    }

    // Encodes the first three bytes to the first four characters.
    fn encode_group(&self, raw: &[u8], out: &mut [u8])
        requires raw_bound { 3 ≤ length raw.now }
        requires out_bound { 4 ≤ length out.old }
        ensures { out.new ≡ pasted out.old 0 (text_of_three raw.now 0) }
    {
        let a = raw[0];
        let b = raw[1];
        let c = raw[2];
        let p = self.letter(a / 4);
        let q = self.letter(a % 4 * 16 + b / 16);
        let r = self.letter(b % 16 * 4 + c / 64);
        let s = self.letter(c % 64);
        out[0] = p;
        out[1] = q;
        out[2] = r;
        out[3] = s;
    }

    // Encodes a last byte to two characters and `==`.
    fn encode_one(&self, a: u8, out: &mut [u8])
        requires { 4 ≤ length out.old }
        ensures { out.new ≡ pasted out.old 0 (text_of_one a) }
    {
        out[0] = self.letter(a / 4);
        out[1] = self.letter(a % 4 * 16);
        out[2] = b'=';
        out[3] = b'=';
    }

    // Encodes the last two bytes to three characters and `=`.
    fn encode_two(&self, a: u8, b: u8, out: &mut [u8])
        requires { 4 ≤ length out.old }
        ensures { out.new ≡ pasted out.old 0 (text_of_two a b) }
    {
        out[0] = self.letter(a / 4);
        out[1] = self.letter(a % 4 * 16 + b / 16);
        out[2] = self.letter(b % 16 * 4);
        out[3] = b'=';
    }
}

// Encodes raw to the start of out, and gives how many characters that is.
pub fn encode(raw: &[u8], out: &mut [u8]) -> usize
    requires { (length raw.now + 2) / 3 * 4 ≤ length out.old }
    ensures { Encodes raw.now out.old result out.new }
{
    let table = Table::new();
    let n = raw.len() / 3;
    // By ranges and not by chunks: the library has no `chunks_exact_mut`, and of `chunks_mut` a proof learns nothing about the elements.
    for g in 0..n {
        table.encode_group(&raw[3 * g..], &mut out[4 * g..]);
    }
    match raw.len() % 3 {
        0 => return 4 * n,
        1 => table.encode_one(raw[3 * n], &mut out[4 * n..]),
        _ => table.encode_two(raw[3 * n], raw[3 * n + 1], &mut out[4 * n..]),
    }
    4 * n + 4
}
