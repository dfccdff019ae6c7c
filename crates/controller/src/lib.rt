// The controller's request call: a packet goes in, and a reply comes out; the slot is written as the upload rules say.
#![tactic(auto)]

ghost use Rattle.std.specs.Prelude.{◌≡◌, true, List, ℕ, ◌+◌, ◌≤◌, ◌<◌, length, Some, Ok};
ghost use Rattle.laws.specs.Parts.{Within};
ghost use Rattle.session.specs.Session.{region_ok, layout_ok, session_ok, state_of};
ghost use Rattle.slot.specs.Store.{state_in};
ghost use Rattle.smp.specs.Packet.{header_in_def};
ghost use Rattle.requests.specs.Request.{read_request_def};
ghost use Rattle.smp.specs.Inner.{Written};
ghost use Rattle.controller.specs.Doing.{reply_to_def, response_map, asks_reset_def};
ghost use Rattle.controller.specs.Handle.{outcome, handle};
ghost use Rattle.controller.specs.Inner.{Carried, Answerable, Took};

use reason::Reason;
use refusal::Refusal;
use requests::Request;
use rules::{Plan, Upload};
use session::{Layout, Session};
use slot::Store;
use smp::Reply;

// A reply of this many bytes stands at the reply buffer's start; and whether its request asks for a reset.
#[derive(Clone, Copy, Debug, PartialEq, Eq)]
pub struct Replied {
    pub length: usize,
    pub asks_reset: bool,
}

// The call's answer, or the refusal at which nothing was done, with the session record for the next call.
#[derive(Clone, Copy, Debug, PartialEq, Eq)]
pub struct Handled {
    pub answer: Result<Replied, Refusal>,
    pub session: Session,
}

// What a request is answered with.
#[derive(Clone, Copy, Debug, PartialEq, Eq)]
pub enum Response {
    // A reply that its own words say.
    Reply(Reply),
    // The list of the images in both slots.
    Images,
}

// The reply to an upload request that came to a plan and left this session.
#[tactic(auto, unfolding(crate::specs::Doing::reply_to_def))]
fn reply_to(plan: Result<Plan, Reason>, after: Session) -> Reply
    ensures { (m tag : List ℕ) → result ≡ reply_to_def plan (state_of m tag after) }
{
    match plan {
        Err(why) => Reply::Refused(why),
        Ok(Plan::Tell(n)) => Reply::Placed(n),
        Ok(Plan::Append | Plan::Start(_)) => Reply::Placed(after.place),
    }
}

// An upload request is planned and carried out in the store.
#[tactic(auto, unfolding(crate::specs::Doing::act_for, crate::specs::Doing::response_for))]
fn do_upload(store: &mut Store, packet: &[u8], upload: Upload) -> Reply
    requires memory_value { (region_ok store.old.slot (length store.old.memory.now) ≡ true) × (session_ok store.old.slot store.old.session ≡ true) }
    requires size_in_bounds { (upload.data.start + upload.data.len ≤ length packet.now) × Within packet.now upload.sha }
    ensures { Carried store.old store.new packet.now (Ok (Request.Upload upload)) (Response.Reply result) }
{
    let tag = &*store.tag;
    let plan = rules::plan_upload(store.slot, store.session, tag, packet, upload);
    store.carry_out(packet, upload, plan);
    reply_to(plan, store.session)
}

// A request is carried out in the store.
#[tactic(auto, unfolding(crate::specs::Doing::act_for, crate::specs::Doing::response_for, slot::specs::Act::done))]
fn carry(store: &mut Store, packet: &[u8], request: Result<Request, Reason>) -> Response
    requires memory_value { (region_ok store.old.slot (length store.old.memory.now) ≡ true) × (session_ok store.old.slot store.old.session ≡ true) }
    requires packet_value { read_request_def packet.now ≡ Some request }
    ensures { Carried store.old store.new packet.now request result }
{
    let request = match request {
        Ok(request) => request,
        Err(why) => return Response::Reply(Reply::Refused(why)),
    };
    match request {
        Request::Echo(text) => Response::Reply(Reply::Text(text)),
        Request::Reset => {
            store.end();
            Response::Reply(Reply::Done)
        }
        Request::Images => Response::Images,
        Request::Upload(upload) => Response::Reply(do_upload(store, packet, upload)),
        Request::Erase => {
            store.erase();
            Response::Reply(Reply::Done)
        }
    }
}

// Whether a request asks for a reset.
#[tactic(auto, unfolding(crate::specs::Doing::asks_reset_def))]
fn asks_reset(request: Result<Request, Reason>) -> bool
    ensures { result ≡ asks_reset_def request }
{
    matches!(request, Ok(Request::Reset))
}

// Writes the response to a request: its own reply, or the list of the images in the store's memory.
#[tactic(auto, unfolding(crate::specs::Doing::response_map))]
fn write_response(
    layout: Layout,
    store: &Store,
    packet: &[u8],
    response: Response,
    reply: &mut [u8],
) -> usize
    requires memory_value { layout_ok layout (length store.now.memory.now) ≡ true }
    requires in_bounds { 32 ≤ length reply.old }
    requires packet_bound { (header_in_def packet.now).op < 255 }
    requires answerable { Answerable packet.now response }
    ensures { Written (header_in_def packet.now) (response_map layout store.now.memory.now packet.now response)
        reply.old result reply.new }
{
    let header = smp::header_in(packet);
    match response {
        Response::Reply(meant) => smp::write_reply(header, packet, meant, reply),
        Response::Images => {
            let memory = &*store.memory;
            listing::write_list(header, memory, layout, reply)
        }
    }
}

// Takes one request packet in the store of the layout's upload slot: a reply, or the refusal at which nothing changes.
fn take(
    layout: Layout,
    store: &mut Store,
    packet: &[u8],
    reply: &mut [u8],
) -> Result<Replied, Refusal>
    requires { store.old.slot ≡ layout.slot1 }
    ensures { Took layout store.old store.new packet.now reply.old reply.new result }
{
    if !session::possible(layout, store.session, store.memory.len()) {
        return Err(Refusal::Impossible);
    }
    if reply.len() < 32 {
        return Err(Refusal::ReplyTooShort);
    }
    let request = requests::read_request(packet).ok_or(Refusal::WrongKind)?;
    let response = carry(store, packet, request);
    let length = write_response(layout, store, packet, response, reply);
    Ok(Replied {
        length,
        asks_reset: asks_reset(request),
    })
}

// Takes one request packet: the slot is written as the upload rules say, and a reply stands at the reply buffer's start; or a refusal, and
// nothing changes. Gives the session record for the next call; its tag stands beside it. C's call and the theorems hand its parts over one by
// one, so they come apart here, and stand together in the store from here on.
pub fn handle_packet(
    layout: Layout,
    session: Session,
    tag: &mut [u8; 32],
    memory: &mut [u8],
    packet: &[u8],
    reply: &mut [u8],
) -> Handled
    ensures { outcome result memory.new tag.new reply.new
        ≡ handle layout (state_of memory.old tag.old session) packet.now reply.old }
{
    let mut store = Store {
        slot: layout.slot1,
        session,
        tag,
        memory,
    };
    let answer = take(layout, &mut store, packet, reply);
    Handled {
        answer,
        session: store.session,
    }
}
