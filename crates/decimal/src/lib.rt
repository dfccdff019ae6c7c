// Numbers in decimal, as text in ASCII.
#![tactic(auto)]

ghost use Rattle.std.specs.Prelude.{◌≡◌, [], ◌∷◌, ◌++◌, ◌+◌, ◌≤◌, length};
ghost use Rattle.writer.specs.Writer.{HasRoom, Wrote};
ghost use Rattle.decimal.specs.Decimal.{digits, digit_count_def, decimal};

use writer::Writer;

// How many decimal digits n has, of which `more` at most stand after the first. A number of one digit is told first: most are.
#[inline]
pub fn digit_count(more: usize, n: usize) -> usize
    ensures { (result ≡ digit_count_def more n) × (1 ≤ result) × (result ≤ more + 1) }
{
    if n < 10 {
        return 1;
    }
    let after = n.checked_ilog10().unwrap_or(0) as usize;
    1 + after.min(more)
}

// Writes the last decimal digits of n, as many as there is room for.
// Kept, no plainer: itoa::write_digits goes back from an end that the count gives just so, and has a second definition of the text.
#[inline]
fn put_digits(text: &mut [u8], n: usize)
    ensures { text.new ≡ digits (length text.old) n }
{
    let mut v = n;
    for i in (0..text.len()).rev() {
        text[i] = b'0' + (v % 10) as u8;
        v /= 10;
    }
}

// Writes a number in decimal. It is compiled into its caller, as is put_ended, so that the writer's place stays in a register.
#[inline(always)]
pub fn put_decimal(out: &mut Writer, more: usize, n: usize)
    requires { HasRoom out.old (decimal more n) }
    ensures { Wrote out.old out.new (decimal more n) }
{
    let next = out.at + digit_count(more, n);
    put_digits(&mut out.buf[out.at..next], n);
    out.at = next;
}

// Writes a number in decimal and one byte after it.
#[inline(always)]
pub fn put_ended(out: &mut Writer, more: usize, n: usize, last: u8)
    requires { HasRoom out.old (decimal more n ++ (last ∷ [])) }
    ensures { Wrote out.old out.new (decimal more n ++ (last ∷ [])) }
{
    put_decimal(out, more, n);
    out.byte(last);
}
