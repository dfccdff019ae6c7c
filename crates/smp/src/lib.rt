// A packet of the Simple Management Protocol: its header, and replies written.
#![tactic(auto)]

ghost use Rattle.std.specs.Prelude.{◌≡◌, not, ◌++◌, ◌+◌, ◌-◌, ◌≤◌, ◌<◌, ltb, length};
ghost use Rattle.laws.specs.Bytes.{pasted};
ghost use Rattle.writer.specs.Writer.{HasRoom, Wrote};
ghost use Rattle.cbor.specs.Write.{head_of, unsigned, text_of};
ghost use Rattle.reason.specs.Rc.{rc_of_def};
ghost use Rattle.smp.specs.Packet.{header_in_def, sized, header_bytes};
ghost use Rattle.smp.specs.Reply.{rc_map, reply_map, reply_header_def, reply_packet, Sayable};
ghost use Rattle.smp.specs.Inner.{Starts, Written};

use laws::Run;
use reason::Reason;
use writer::Writer;

// The eight bytes before a packet's map.
#[derive(Clone, Copy, Debug, PartialEq, Eq)]
pub struct Header {
    pub op: u8,
    pub flags: u8,
    pub length: usize,
    pub group: usize,
    pub sequence: u8,
    pub command: u8,
}

// What a reply says.
#[derive(Clone, Copy, Debug, PartialEq, Eq)]
pub enum Reply {
    // A refusal for this reason.
    Refused(Reason),
    // Success, and nothing more.
    Done,
    // Success, and the next expected offset.
    Placed(usize),
    // This text of the packet.
    Text(Run),
}

// The header of a packet.
pub fn header_in(s: &[u8]) -> Header
    ensures { result ≡ header_in_def s.now }
{
    Header {
        op: laws::byte_at(s, 0),
        flags: laws::byte_at(s, 1),
        length: laws::be16_at(s, 2),
        group: laws::be16_at(s, 4),
        sequence: laws::byte_at(s, 6),
        command: laws::byte_at(s, 7),
    }
}

// Whether a packet has the right length.
#[tactic(auto, unfolding(crate::specs::Packet::sized, laws::specs::Choice::both))]
pub fn is_sized(s: &[u8]) -> bool
    ensures { result ≡ sized s.now }
{
    8 <= s.len() && s.len() == 8 + laws::be16_at(s, 2) && s.len() <= 65533
}

// Writes a header into the first eight bytes of buf; the other bytes of buf stay.
pub fn put_header(buf: &mut [u8], h: Header)
    requires { 8 ≤ length buf.old }
    ensures { buf.new ≡ pasted buf.old 0 (header_bytes h) }
{
    laws::put(buf, 0, &[h.op, h.flags]);
    laws::put_be16(buf, 2, h.length);
    laws::put_be16(buf, 4, h.group);
    laws::put(buf, 6, &[h.sequence, h.command]);
}

// Writes a string of this major type: 2 of bytes, 3 of text. It is compiled into its caller, as are the writers below, so that the writer's place stays in a
// register from byte to byte.
#[inline(always)]
pub fn put_string(out: &mut Writer, major: u8, x: &[u8])
    requires major_bound { major < 8 }
    requires has_room { HasRoom out.old (head_of major (length x.now) ++ x.now) }
    ensures { Wrote out.old out.new (head_of major (length x.now) ++ x.now) }
{
    cbor::put_head(out, major, x.len() as u64);
    out.bytes(x);
}

// Writes a text string.
#[inline(always)]
pub fn put_text(out: &mut Writer, text: &[u8])
    requires { HasRoom out.old (text_of text.now) }
    ensures { Wrote out.old out.new (text_of text.now) }
{
    put_string(out, 3, text);
}

// Writes a key of this name with a number.
#[inline(always)]
pub fn put_number(out: &mut Writer, name: &[u8], n: u64)
    requires { HasRoom out.old (text_of name.now ++ unsigned n) }
    ensures { Wrote out.old out.new (text_of name.now ++ unsigned n) }
{
    put_text(out, name);
    cbor::put_head(out, 0, n);
}

// Writes the map {"rc": n}.
#[inline(always)]
fn put_rc(out: &mut Writer, n: u8)
    requires { HasRoom out.old (rc_map n) }
    ensures { Wrote out.old out.new (rc_map n) }
{
    cbor::put_head(out, 5, 1);
    put_number(out, b"rc", u64::from(n));
}

// Writes a reply's map: {"rc": n}, {"rc": 0, "off": n} or {"r": text}, the text a part of s.
#[inline(always)]
fn put_map(out: &mut Writer, s: &[u8], reply: Reply)
    requires sayable { Sayable s.now reply }
    requires has_room { HasRoom out.old (reply_map s.now reply) }
    ensures { Wrote out.old out.new (reply_map s.now reply) }
{
    match reply {
        Reply::Refused(why) => put_rc(out, u8::from(why)),
        Reply::Done => put_rc(out, 0),
        Reply::Placed(n) => {
            cbor::put_head(out, 5, 2);
            put_number(out, b"rc", 0);
            put_number(out, b"off", n as u64);
        }
        Reply::Text(text) => {
            cbor::put_head(out, 5, 1);
            put_text(out, b"r");
            put_text(out, text.of(s));
        }
    }
}

// Writes the header of a reply whose map stands from place 8 of buf to this end. What is asked of the header's op, of the buffer's length and of the
// reply stands in each contract: op is any byte in a header that is read, and the others are of what is lent, so a type would hold none of it.
pub fn put_reply_header(h: Header, buf: &mut [u8], end: usize)
    requires op_bound { h.op < 255 }
    requires le_end { (8 ≤ end) × (8 ≤ length buf.old) }
    ensures { buf.new ≡ pasted buf.old 0 (header_bytes (reply_header_def h (end - 8))) }
{
    let header = Header {
        op: h.op + 1,
        flags: 0,
        length: end - 8,
        ..h
    };
    put_header(buf, header);
}

// Writes a reply that fits to the start of buf, the map first and then the header with its length; gives how long it is.
#[inline(always)]
fn put_reply(h: Header, s: &[u8], reply: Reply, buf: &mut [u8]) -> usize
    requires op_bound { h.op < 255 }
    requires sayable { Sayable s.now reply }
    requires reply_in_bounds { 8 + length (reply_map s.now reply) ≤ length buf.old }
    ensures { Starts buf.old (reply_packet h (reply_map s.now reply)) result buf.new }
{
    let mut out = Writer { buf, at: 8 };
    put_map(&mut out, s, reply);
    let end = out.at;
    put_reply_header(h, out.buf, end);
    end
}

// Writes the rc of a reply that does not fit to the start of buf; gives how long it is.
pub fn put_too_long(h: Header, buf: &mut [u8]) -> usize
    requires in_bounds { 32 ≤ length buf.old }
    requires op_bound { h.op < 255 }
    ensures { Starts buf.old (reply_packet h (rc_map (rc_of_def Reason.ReplyTooLong))) result buf.new }
{
    put_reply(h, &[], Reply::Refused(Reason::ReplyTooLong), buf)
}

// Whether a reply to the request s fits into this many bytes, at least 32: only an echo's can be too long.
fn fits_in(s: &[u8], reply: Reply, room: usize) -> bool
    requires le_room { 32 ≤ room }
    requires sayable { Sayable s.now reply }
    ensures { result ≡ not (ltb room (8 + length (reply_map s.now reply))) }
{
    match reply {
        Reply::Text(text) => 11 + cbor::head_len(text.len as u64) + text.len <= room,
        _ => true,
    }
}

// Writes a reply to the start of buf, or rc 7 where an echo's is longer than buf; gives how long it is. The bytes after it stay.
pub fn write_reply(h: Header, s: &[u8], reply: Reply, buf: &mut [u8]) -> usize
    requires in_bounds { 32 ≤ length buf.old }
    requires op_bound { h.op < 255 }
    requires sayable { Sayable s.now reply }
    ensures { Written h (reply_map s.now reply) buf.old result buf.new }
{
    if !fits_in(s, reply, buf.len()) {
        return put_too_long(h, buf);
    }
    put_reply(h, s, reply, buf)
}
