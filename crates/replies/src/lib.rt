// The host's reply reader: a packet read as a reply.
#![tactic(auto)]

ghost use Rattle.std.specs.Prelude.{◌≡◌};
ghost use Rattle.replies.specs.Read.{said, reply_with_def, values_of, is_reply_def, read_reply_def};

use fields::{Fields, Key, Kind};
use laws::Run;
use refusal::Refusal;
use smp::Header;

// The largest number of four bytes.
const LARGEST: u64 = 4294967295;

// A reply: its header fields, its return code, and its offset and text where they are there.
#[derive(Clone, Copy, Debug, PartialEq, Eq)]
pub struct Reply {
    pub header: Header,
    pub rc: u64,
    pub off: Option<u64>,
    pub text: Option<Run>,
}

// Whether a packet is of a reply's kind. Its twin requests::is_request differs in both ops: one function of them would be no plainer.
#[tactic(auto, unfolding(crate::specs::Read::is_reply_def, laws::specs::Choice::both))]
fn is_reply(s: &[u8]) -> bool
    ensures { result ≡ is_reply_def s.now }
{
    smp::is_sized(s) && matches!(laws::byte_at(s, 0), 1 | 3)
}

// The values of a reply with this return code, offset and text.
#[tactic(auto, unfolding(crate::specs::Read::or_zero))]
fn reply_with(s: &[u8], rc: Option<u64>, off: Option<u64>, text: Option<Run>) -> Reply
    ensures { result ≡ reply_with_def s.now rc off text }
{
    Reply {
        header: smp::header_in(s),
        rc: rc.unwrap_or(0),
        off,
        text,
    }
}

// A reply's values, from its map's fields.
#[tactic(auto, unfolding(crate::specs::Read::values_of, laws::specs::Choice::pick))]
fn values_of(s: &[u8], f: &Fields) -> Result<Reply, Refusal>
    ensures { said result ≡ values_of s.now f.now }
{
    let rc = f.number(Key::Rc);
    let off = f.number(Key::Off);
    if rules::is_above(LARGEST, rc) || rules::is_above(LARGEST, off) {
        return Err(Refusal::WrongKind);
    }
    Ok(reply_with(s, rc, off, f.run(Key::Text)))
}

// A packet read as a reply: the text stays in the packet.
#[tactic(auto, unfolding(crate::specs::Read::read_reply_def, crate::specs::Read::map_read, laws::specs::Choice::pick))]
pub fn read_reply(s: &[u8]) -> Result<Reply, Refusal>
    ensures { said result ≡ read_reply_def s.now }
{
    if !is_reply(s) {
        return Err(Refusal::WrongKind);
    }
    let mut f = Fields::new();
    map::map_from(Kind::Reply, s, 8, &mut f).ok_or(Refusal::WrongKind)?;
    values_of(s, &f)
}
