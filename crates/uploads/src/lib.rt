// The host's upload requests, written into a lent buffer.
#![tactic(auto)]

ghost use Rattle.std.specs.Prelude.{◌≡◌, false, ◌++◌, ◌+◌, ◌≤◌, length};
ghost use Rattle.writer.specs.Writer.{HasRoom, Wrote};
ghost use Rattle.cbor.specs.Write.{bytes_of, text_of};
ghost use Rattle.host.specs.Write.{request_packet, outcome, put};
ghost use Rattle.uploads.specs.Upload.{later_map, first_map, odd_length, mis_sized_def, write_first_def, write_upload_def};
ghost use Rattle.uploads.specs.Inner.{first_pairs};

use refusal::Refusal;
use writer::Writer;

// Writes a key of this name with a byte string. It is compiled into its caller, as are the writers below, so that the writer's place stays in a register.
#[inline(always)]
fn put_bytes(out: &mut Writer, name: &[u8], x: &[u8])
    requires { HasRoom out.old (text_of name.now ++ bytes_of x.now) }
    ensures { Wrote out.old out.new (text_of name.now ++ bytes_of x.now) }
{
    smp::put_text(out, name);
    smp::put_string(out, 2, x);
}

// Writes the map {"data": data, "off": off}.
#[inline(always)]
fn put_later(out: &mut Writer, data: &[u8], off: u64)
    requires { HasRoom out.old (later_map «data».now off) }
    ensures { Wrote out.old out.new (later_map «data».now off) }
{
    cbor::put_head(out, 5, 2);
    put_bytes(out, b"data", data);
    smp::put_number(out, b"off", off);
}

// Writes the pairs "data": data, "len": size, "off": 0.
#[inline(always)]
fn put_pairs(out: &mut Writer, data: &[u8], size: u64)
    requires { HasRoom out.old (first_pairs «data».now size) }
    ensures { Wrote out.old out.new (first_pairs «data».now size) }
{
    put_bytes(out, b"data", data);
    smp::put_number(out, b"len", size);
    smp::put_number(out, b"off", 0);
}

// Writes the map of an upload at offset 0.
#[inline(always)]
fn put_first(out: &mut Writer, data: &[u8], size: u64, tag: &[u8])
    requires { HasRoom out.old (first_map «data».now size tag.now) }
    ensures { Wrote out.old out.new (first_map «data».now size tag.now) }
{
    if tag.is_empty() {
        cbor::put_head(out, 5, 3);
        put_pairs(out, data, size);
    } else {
        cbor::put_head(out, 5, 4);
        put_pairs(out, data, size);
        put_bytes(out, b"sha", tag);
    }
}

// Writes an upload request past offset 0, where it can be sent.
fn send_later(sequence: u8, data: &[u8], off: u64, out: &mut [u8]) -> Result<usize, Refusal>
    ensures { outcome result out.new ≡ put (request_packet 1 sequence 1 (later_map «data».now off)) out.old }
{
    let n = data.len();
    let total = 18 + cbor::head_len(n as u64) + n + cbor::head_len(off);
    if !host::is_sendable(total, out.len()) {
        return Err(Refusal::Unsendable);
    }
    let mut map = Writer { buf: out, at: 8 };
    put_later(&mut map, data, off);
    let end = map.at;
    host::put_front(map.buf, 1, sequence, 1, end);
    Ok(end)
}

// Whether a tag of n bytes is neither absent nor of 32.
// Kept, C's call takes a tag of no bytes for an absent one: the length 0 says so, as in upload_data.
#[tactic(auto, unfolding(crate::specs::Upload::odd_length, laws::specs::Choice::both))]
pub fn is_mis_sized(n: usize) -> bool
    ensures { result ≡ odd_length n }
{
    n != 0 && n != 32
}

// How long the packet of an upload at offset 0 is.
fn first_len(data: &[u8], size: u64, tag: &[u8]) -> usize
    requires data_len_bound { length «data».now ≤ 4294967295 }
    requires tag_value { mis_sized_def tag.now ≡ false }
    ensures { result ≡ 8 + length (first_map «data».now size tag.now) }
{
    let n = data.len();
    let total = 23 + cbor::head_len(n as u64) + n + cbor::head_len(size);
    if tag.is_empty() { total } else { total + 38 }
}

// Writes an upload request at offset 0, where it can be sent.
fn send_first(
    sequence: u8,
    data: &[u8],
    size: u64,
    tag: &[u8],
    out: &mut [u8],
) -> Result<usize, Refusal>
    requires data_len_bound { length «data».now ≤ 4294967295 }
    requires tag_value { mis_sized_def tag.now ≡ false }
    ensures { outcome result out.new ≡ put (request_packet 1 sequence 1 (first_map «data».now size tag.now)) out.old }
{
    let total = first_len(data, size, tag);
    if !host::is_sendable(total, out.len()) {
        return Err(Refusal::Unsendable);
    }
    let mut map = Writer { buf: out, at: 8 };
    put_first(&mut map, data, size, tag);
    let end = map.at;
    host::put_front(map.buf, 1, sequence, 1, end);
    Ok(end)
}

// Writes an upload request at offset 0 to the start of out.
#[tactic(auto, unfolding(crate::specs::Upload::write_first_def, laws::specs::Choice::pick))]
fn write_first(
    sequence: u8,
    data: &[u8],
    size: u64,
    tag: &[u8],
    out: &mut [u8],
) -> Result<usize, Refusal>
    ensures { outcome result out.new ≡ write_first_def sequence «data».now size tag.now out.old }
{
    if size == 0 || 4294967295 < size || size < data.len() as u64 || is_mis_sized(tag.len()) {
        return Err(Refusal::Unsendable);
    }
    send_first(sequence, data, size, tag, out)
}

// Writes an upload request to the start of out; gives how long it is, or refusal 12 where it cannot be sent.
#[tactic(auto, unfolding(crate::specs::Upload::write_upload_def, laws::specs::Choice::pick))]
pub fn write_upload(
    sequence: u8,
    data: &[u8],
    off: u64,
    length: u64,
    tag: &[u8],
    out: &mut [u8],
) -> Result<usize, Refusal>
    ensures { outcome result out.new ≡ write_upload_def sequence «data».now off length tag.now out.old }
{
    if 4294967295 < off || data.is_empty() {
        return Err(Refusal::Unsendable);
    }
    if off == 0 {
        return write_first(sequence, data, length, tag, out);
    }
    send_later(sequence, data, off, out)
}
