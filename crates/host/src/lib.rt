// The host's echo, reset and erase requests, written into a lent buffer, and what every request writer shares.
#![tactic(auto)]

ghost use Rattle.std.specs.Prelude.{◌≡◌, ◌-◌, ◌≤◌, length};
ghost use Rattle.laws.specs.Bytes.{pasted};
ghost use Rattle.writer.specs.Writer.{HasRoom, Wrote};
ghost use Rattle.smp.specs.Packet.{header_bytes};
ghost use Rattle.host.specs.Write.{request_header, echo_map, outcome, sendable, write_echo_def, write_reset_def, write_erase_def};
ghost use Rattle.host.specs.Inner.{empty_request};

use refusal::Refusal;
use smp::Header;
use writer::Writer;

// Whether a packet of this many bytes may be sent and goes into this room.
#[tactic(auto, unfolding(crate::specs::Write::sendable, laws::specs::Choice::both))]
pub fn is_sendable(total: usize, room: usize) -> bool
    ensures { result ≡ sendable total room }
{
    total <= 65533 && total <= room
}

// Writes the header of a request to the start of buf, in front of its map, which ends before place end.
pub fn put_front(buf: &mut [u8], group: usize, sequence: u8, command: u8, end: usize)
    requires { (8 ≤ end) × (8 ≤ length buf.old) }
    ensures { buf.new ≡ pasted buf.old 0 (header_bytes (request_header group sequence command (end - 8))) }
{
    let header = Header {
        op: 2,
        flags: 0,
        length: end - 8,
        group,
        sequence,
        command,
    };
    smp::put_header(buf, header);
}

// Writes a request of command 5 with an empty map; gives how long it is, or refusal 12 where it cannot be sent.
fn write_empty(group: usize, sequence: u8, out: &mut [u8]) -> Result<usize, Refusal>
    ensures { outcome result out.new ≡ empty_request group sequence out.old }
{
    if !is_sendable(9, out.len()) {
        return Err(Refusal::Unsendable);
    }
    let mut map = Writer { buf: out, at: 8 };
    cbor::put_head(&mut map, 5, 0);
    let end = map.at;
    put_front(map.buf, group, sequence, 5, end);
    Ok(end)
}

// Writes a reset request to the start of out, as write_erase does an erase, since each is a call of C's; gives how long it is, or refusal 12 where it
// cannot be sent.
#[tactic(auto, unfolding(crate::specs::Write::write_reset_def))]
pub fn write_reset(sequence: u8, out: &mut [u8]) -> Result<usize, Refusal>
    ensures { outcome result out.new ≡ write_reset_def sequence out.old }
{
    write_empty(0, sequence, out)
}

// Writes an erase request to the start of out; gives how long it is, or refusal 12 where it cannot be sent.
#[tactic(auto, unfolding(crate::specs::Write::write_erase_def))]
pub fn write_erase(sequence: u8, out: &mut [u8]) -> Result<usize, Refusal>
    ensures { outcome result out.new ≡ write_erase_def sequence out.old }
{
    write_empty(1, sequence, out)
}

// Writes the map {"d": text}.
fn put_echo(out: &mut Writer, text: &[u8])
    requires { HasRoom out.old (echo_map text.now) }
    ensures { Wrote out.old out.new (echo_map text.now) }
{
    cbor::put_head(out, 5, 1);
    smp::put_text(out, b"d");
    smp::put_text(out, text);
}

// Writes an echo request to the start of out; gives how long it is, or refusal 12 where it cannot be sent.
pub fn write_echo(sequence: u8, text: &[u8], out: &mut [u8]) -> Result<usize, Refusal>
    ensures { outcome result out.new ≡ write_echo_def sequence text.now out.old }
{
    let n = text.len();
    let total = 11 + cbor::head_len(n as u64) + n;
    if !is_sendable(total, out.len()) {
        return Err(Refusal::Unsendable);
    }
    let mut map = Writer { buf: out, at: 8 };
    put_echo(&mut map, text);
    let end = map.at;
    put_front(map.buf, 0, sequence, 0, end);
    Ok(end)
}
