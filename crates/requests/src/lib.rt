// Requests: a packet read as one, its map's fields as values.
#![tactic(auto)]

ghost use Rattle.std.specs.Prelude.{◌≡◌, None, Ok, Some, OnOk, IfErr};
ghost use Rattle.fields.specs.Fields.{nothing};
ghost use Rattle.map.specs.Walk.{map_from_def};
ghost use Rattle.requests.specs.Request.{mapped, command_of_def, upload_of_def, request_of_def, is_request_def, read_request_def};

use fields::{Fields, Key, Kind};
use laws::Run;
use reason::Reason;
use rules::Upload;
use smp::Header;

// What a request's op, group and command ask for together.
#[derive(Clone, Copy, Debug, PartialEq, Eq)]
pub enum Command {
    Echo,
    Reset,
    Images,
    Upload,
    Erase,
}

// A request as a value; strings are the runs of their bytes in the packet.
#[derive(Clone, Copy, Debug, PartialEq, Eq)]
pub enum Request {
    Echo(Run),
    Reset,
    // The list of the images in both slots.
    Images,
    Upload(Upload),
    Erase,
}

// What a header's op, group and command ask for together; none where they ask for nothing.
#[tactic(auto, unfolding(crate::specs::Request::command_of_def, crate::specs::Request::image_read_def, laws::specs::Choice::pick, laws::specs::Choice::both))]
fn command_of(h: Header) -> Option<Command>
    ensures { result ≡ command_of_def h }
{
    match (h.group, h.op, h.command) {
        (0, _, 0) => Some(Command::Echo),
        (0, 2, 5) => Some(Command::Reset),
        (1, 0, 0) => Some(Command::Images),
        (1, 2, 1) => Some(Command::Upload),
        (1, 2, 5) => Some(Command::Erase),
        _ => None,
    }
}

// A packet's map is read into fields of which nothing has been read.
fn read_fields(kind: Kind, s: &[u8], f: &mut Fields) -> Result<(), Reason>
    requires { f.old ≡ nothing }
    ensures ok { OnOk result (map_from_def kind s.now 8 ≡ Some f.new) }
    ensures malformed { IfErr result (λ why. (why ≡ Reason.MalformedMap) × (map_from_def kind s.now 8 ≡ None)) }
{
    map::map_from(kind, s, 8, f).ok_or(Reason::MalformedMap)
}

// The echo request in a packet.
#[tactic(auto, unfolding(crate::specs::Request::request_of_def, crate::specs::Request::mapped, crate::specs::Request::echo_with))]
fn echo_in(s: &[u8]) -> Result<Request, Reason>
    ensures { result ≡ request_of_def (Some Command.Echo) s.now }
{
    let mut f = Fields::new();
    read_fields(Kind::Echo, s, &mut f)?;
    let Some(text) = f.run(Key::Text) else {
        return Err(Reason::NoText);
    };
    Ok(Request::Echo(text))
}

// A request in a packet whose map may be any.
#[tactic(auto, unfolding(crate::specs::Request::mapped))]
fn bare_in(request: Request, s: &[u8]) -> Result<Request, Reason>
    ensures { result ≡ mapped (λ f. Ok request) (map_from_def Kind.Bare s.now 8) }
{
    read_fields(Kind::Bare, s, &mut Fields::new())?;
    Ok(request)
}

// The erase request in a packet.
#[tactic(auto, unfolding(crate::specs::Request::request_of_def, crate::specs::Request::mapped, crate::specs::Request::erase_with, laws::specs::Choice::pick))]
fn erase_in(s: &[u8]) -> Result<Request, Reason>
    ensures { result ≡ request_of_def (Some Command.Erase) s.now }
{
    let mut f = Fields::new();
    read_fields(Kind::Erase, s, &mut f)?;
    let Some(slot) = f.number(Key::Slot) else {
        return Ok(Request::Erase);
    };
    if slot == 1 {
        Ok(Request::Erase)
    } else {
        Err(Reason::OtherSlot)
    }
}

// The upload request of a map's fields: "off" and "data" have to be there.
#[tactic(auto, unfolding(crate::specs::Request::upload_with))]
fn upload_of(f: &Fields) -> Result<Request, Reason>
    ensures { result ≡ upload_of_def f.now }
{
    let Some(off) = f.number(Key::Off) else {
        return Err(Reason::NoOffset);
    };
    let Some(data) = f.run(Key::Data) else {
        return Err(Reason::NoData);
    };
    Ok(Request::Upload(Upload {
        off,
        data,
        length: f.number(Key::Len),
        image: f.number(Key::Image),
        sha: f.run(Key::Sha),
        upgrade: f.flag(Key::Upgrade),
    }))
}

// The upload request in a packet.
#[tactic(auto, unfolding(crate::specs::Request::request_of_def, crate::specs::Request::mapped))]
fn upload_in(s: &[u8]) -> Result<Request, Reason>
    ensures { result ≡ request_of_def (Some Command.Upload) s.now }
{
    let mut f = Fields::new();
    read_fields(Kind::Upload, s, &mut f)?;
    upload_of(&f)
}

// What a packet of this command asks for, or the reason of the rc that answers it.
#[tactic(auto, unfolding(crate::specs::Request::request_of_def))]
fn request_of(command: Option<Command>, s: &[u8]) -> Result<Request, Reason>
    ensures { result ≡ request_of_def command s.now }
{
    match command.ok_or(Reason::UnknownCommand)? {
        Command::Echo => echo_in(s),
        Command::Reset => bare_in(Request::Reset, s),
        Command::Images => bare_in(Request::Images, s),
        Command::Upload => upload_in(s),
        Command::Erase => erase_in(s),
    }
}

// Whether a packet is a request. Its twin replies::is_reply differs in both ops: one function of them would be no plainer than the two lines.
#[tactic(auto, unfolding(crate::specs::Request::is_request_def, laws::specs::Choice::both))]
fn is_request(s: &[u8]) -> bool
    ensures { result ≡ is_request_def s.now }
{
    smp::is_sized(s) && matches!(laws::byte_at(s, 0), 0 | 2)
}

// A packet read as a request: strings stay in the packet. None where it is no request; a request that is refused by its map, its keys or its command
// is the reason of the rc that answers it.
#[tactic(auto, unfolding(crate::specs::Request::read_request_def, laws::specs::Choice::pick))]
pub fn read_request(s: &[u8]) -> Option<Result<Request, Reason>>
    ensures { result ≡ read_request_def s.now }
{
    if !is_request(s) {
        return None;
    }
    let header = smp::header_in(s);
    Some(request_of(command_of(header), s))
}
