// A run of packets, each taken by the request call. The theorems over any history of calls are in specs/, their proofs in proofs/.
#![tactic(auto)]

ghost use Rattle.history.specs.Calls.{Ran};

use laws::Run;
use session::{Layout, Session};

// Takes a run of packets from a closed session on, each behind its length in two bytes, the high one first, as far as they are whole. Gives
// the session record after the last, and leaves what the calls left. What every history of packets keeps, it keeps. Its parts come apart, as
// handle_packet asks for them.
pub fn handle_run(
    layout: Layout,
    tag: &mut [u8; 32],
    memory: &mut [u8],
    run: &[u8],
    reply: &mut [u8],
) -> Session
    ensures { Ran layout memory.old run.now reply.old memory.new tag.new result reply.new }
{
    let mut session = Session::closed();
    *tag = [0u8; 32];
    let mut at = 0;
    // A packet's length says where the next one stands.
    while 2 <= run.len() - at {
        let size = laws::be16_at(run, at);
        let start = at + 2;
        if run.len() - start < size {
            return session;
        }
        let packet = Run { start, len: size };
        let handled = controller::handle_packet(
            layout,
            session,
            tag,
            memory,
            packet.of(run),
            reply,
        );
        session = handled.session;
        at = start + size;
    }
    session
}
