// Runs the published CRC and Base64 vectors through the proved functions and writes what they give, a line each. What is written is
// compared with the file stdout beside src/, which has the published values.
#![tactic(auto)]

ghost use Rattle.std.specs.Prelude.{◌≤◌, length};

use std::io;
use std::io::Write;

// Writes one CRC vector: its name and the CRC of its bytes, in hexadecimal.
fn crc_of<W: Write>(out: &mut W, name: &[u8], s: &[u8]) -> io::Result<()> {
    let crc = crc::continued(0, s);
    out.write_all(b"crc ")?;
    out.write_all(name)?;
    writeln!(out, " {crc:04x}")
}

// Writes one Base64 vector: the bytes, their text, and what the text decodes to.
fn text_of<W: Write>(out: &mut W, raw: &[u8]) -> io::Result<()>
    requires { length raw.now ≤ 9 }
{
    let mut text = [0u8; 12];
    let n = encoder::encode(raw, &mut text);
    out.write_all(b"base64 ")?;
    out.write_all(raw)?;
    out.write_all(b" ")?;
    if n <= 12 {
        out.write_all(&text[..n])?;
        bytes_of(out, &text[..n])?;
    }
    out.write_all(b"\n")
}

// Writes what a text decodes to.
fn bytes_of<W: Write>(out: &mut W, text: &[u8]) -> io::Result<()>
    requires { length text.now ≤ 12 }
{
    let mut raw = [0u8; 9];
    match decoder::decode(text, &mut raw) {
        Some(n) => {
            if n <= 9 {
                out.write_all(b" back ")?;
                out.write_all(&raw[..n])?;
            }
            Ok(())
        }
        None => out.write_all(b" not well formed"),
    }
}

// Writes a text and what it decodes to.
fn shown<W: Write>(out: &mut W, text: &[u8]) -> io::Result<()>
    requires { length text.now ≤ 12 }
{
    out.write_all(b"text ")?;
    out.write_all(text)?;
    bytes_of(out, text)?;
    out.write_all(b"\n")
}

fn main(rt: HostRuntime) -> io::Result<()> {
    let mut out = rt.stdout();
    crc_of(&mut out, b"empty", b"")?;
    crc_of(&mut out, b"123456789", b"123456789")?;
    crc_of(&mut out, b"00", b"\x00")?;
    crc_of(&mut out, b"01", b"\x01")?;
    crc_of(&mut out, b"A", b"A")?;
    text_of(&mut out, b"")?;
    text_of(&mut out, b"f")?;
    text_of(&mut out, b"fo")?;
    text_of(&mut out, b"foo")?;
    text_of(&mut out, b"foob")?;
    text_of(&mut out, b"fooba")?;
    text_of(&mut out, b"foobar")?;
    shown(&mut out, b"Zh==")?;
    shown(&mut out, b"Zm9=")?;
    shown(&mut out, b"A===")?;
    shown(&mut out, b"====")?;
    shown(&mut out, b"AA==AAAA")?;
    shown(&mut out, b"AA=A")?;
    shown(&mut out, b"AAAA=")?;
    shown(&mut out, b"Zm9v\n")?;
    shown(&mut out, b"Zm-_")?;
    Ok(())
}
