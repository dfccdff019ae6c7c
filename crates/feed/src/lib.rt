// Lines fed to a controller on a bench, by the calls that C has, with their numbers: each line goes to the reader, and the packet that it completes to
// the request call.
#![tactic(auto)]

ghost use Rattle.std.specs.Prelude.{◌≡◌, take};
ghost use Rattle.feed.specs.Feed.{rc_in, said, IsNumbered, hand_over_def, feed_line_def};
ghost use Rattle.feed.specs.Rig.{bench_in, SameRig};

// The size of each slot: slot 0 is the first half of the memory, the upload slot the second.
const HALF: usize = 4096;

// A controller on the bench, in the numbers and bytes of the calls: memory, session and tag, the reader's record, and the packet and reply buffers.
#[derive(Drop)]
pub struct Rig<'a> {
    pub memory: &'a mut [u8],
    pub session: &'a mut [u32; 4],
    pub tag: &'a mut [u8; 32],
    pub reader: &'a mut [u32; 4],
    pub packet: &'a mut [u8],
    pub reply: &'a mut [u8],
}

// A line that is refused, or whose packet is: the number that the call gives for it, as C's array of answers has it, and the place in a line that is
// refused for its text, or 0.
#[derive(Clone, Copy, Debug, PartialEq, Eq)]
pub struct Refused {
    pub refusal: u32,
    pub place: u32,
}

// The first n bytes of a slice, or all where it has fewer.
fn first(s: &[u8], n: u32) -> &[u8]
    ensures { result.now ≡ take n s.now }
{
    &s[..s.len().min(n as usize)]
}

// The return code of the reply of n bytes at the start of the reply buffer.
#[tactic(auto, unfolding(crate::specs::Feed::rc_in))]
fn rc_of(reply: &[u8], n: u32) -> u32
    ensures { result ≡ rc_in (take n reply.now) }
{
    let mut heard = [0u32; 12];
    packet_calls::read_reply(first(reply, n), &mut heard);
    heard[6]
}

impl Rig<'_> {
    // The packet of n bytes at the packet buffer's start goes to the request call. Gives the return code of its reply.
    // Its layout and results are numbers, since C's call takes and gives them so.
    #[tactic(auto, unfolding(crate::specs::Feed::hand_over_def, crate::specs::Feed::answered, laws::specs::Choice::pick))]
    fn hand_over(&mut self, n: u32) -> Result<Option<u32>, Refused>
        ensures bench { record { says = said result; bench = bench_in self.new } ≡ hand_over_def (bench_in self.old) n }
        ensures numbered { IsNumbered result }
        ensures same { SameRig self.old self.new }
    {
        let layout = [0, HALF, HALF, HALF];
        let mut told = [0u32; 2];
        let packet = &mut *self.packet;
        let packet = first(packet, n);
        let refusal = packet_calls::handle(
            &layout,
            self.memory,
            self.session,
            self.tag,
            packet,
            self.reply,
            &mut told,
        );
        if refusal != 0 {
            return Err(Refused { refusal, place: 0 });
        }
        let reply = &mut *self.reply;
        Ok(Some(rc_of(reply, told[0])))
    }

    // One line goes to the reader, and the packet that it completes to the request call. Gives the return code of a reply, or nothing where more is
    // wanted.
    #[tactic(auto, unfolding(crate::specs::Feed::feed_line_def, crate::specs::Feed::go_on, laws::specs::Choice::pick))]
    pub fn feed_line(&mut self, line: &[u8]) -> Result<Option<u32>, Refused>
        ensures bench { record { says = said result; bench = bench_in self.new } ≡ feed_line_def (bench_in self.old) line.now }
        ensures numbered { IsNumbered result }
        ensures same { SameRig self.old self.new }
    {
        let mut body = 0u32;
        let mut place = 0u32;
        let refusal = line_calls::take_line(self.reader, line, self.packet, &mut body, &mut place);
        if refusal != 0 {
            return Err(Refused { refusal, place });
        }
        if body == 0 {
            return Ok(None);
        }
        self.hand_over(body)
    }
}
