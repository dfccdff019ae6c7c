// The calls of packets on arrays of numbers: configuring, a request is taken, a reply is read.
// C calls them: so a refusal is given as its number, and what else is given goes to lent arrays.
#![tactic(auto)]

ghost use Rattle.std.specs.Prelude.{◌≡◌};
ghost use Rattle.packet_calls.specs.Calls.{handled_c, configured_c, read_c};

// Says whether the two regions are possible in a memory of this many bytes; if so, the session record is made a closed one.
#[tactic(auto, unfolding(crate::specs::Calls::configured_c, crate::specs::Calls::configured_by, records::specs::Records::session_numbers, fields::specs::Fields::flag_number_def))]
pub fn configure(
    layout: &[usize; 4],
    room: usize,
    session: &mut [u32; 4],
    tag: &mut [u8; 32],
) -> u32
    ensures { record { result = result; session = session.new; tag = tag.new } ≡ configured_c layout.now room
        session.old tag.old }
{
    let regions = records::layout_from(layout);
    match session::configure(regions, room) {
        Ok(_) => {
            *session = [0u32; 4];
            *tag = [0u8; 32];
            0
        }
        Err(why) => u32::from(why),
    }
}

// Takes one request packet.
#[tactic(auto, unfolding(crate::specs::Calls::handled_c))]
pub fn handle(
    layout: &[usize; 4],
    memory: &mut [u8],
    record: &mut [u32; 4],
    tag: &mut [u8; 32],
    packet: &[u8],
    reply: &mut [u8],
    answer: &mut [u32; 2],
) -> u32
    ensures { record {
      result = result;
      memory = memory.new;
      session = «record».new;
      tag = tag.new;
      reply = reply.new;
      answer = answer.new;
    } ≡ handled_c layout.now memory.old «record».old tag.old
        packet.now reply.old answer.old }
{
    let before = records::session_from(record);
    let regions = records::layout_from(layout);
    let handled = controller::handle_packet(regions, before, tag, memory, packet, reply);
    records::told_handled(handled, record, answer)
}

// Reads a packet as a reply.
#[tactic(auto, unfolding(crate::specs::Calls::read_c, crate::specs::Calls::read_by))]
pub fn read_reply(packet: &[u8], reply: &mut [u32; 12]) -> u32
    ensures { record { result = result; reply = reply.new } ≡ read_c packet.now reply.old }
{
    match replies::read_reply(packet) {
        Ok(heard) => {
            *reply = records::reply_numbers(heard);
            0
        }
        Err(why) => u32::from(why),
    }
}
