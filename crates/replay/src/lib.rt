// The replay of a recording: its lines to the controller go to a fresh one, one after the other, and what is said of each is kept.
#![tactic(auto)]

ghost use Rattle.std.specs.Prelude.{◌≡◌, List, ◌∷◌, length};
ghost use Rattle.recording.specs.Recording.{Entry, Reads};
ghost use Rattle.feed.specs.Feed.{said};
ghost use Rattle.feed.specs.Rig.{SameRig};
ghost use Rattle.replay.specs.Replay.{numbers, replayed};
ghost use Rattle.replay.specs.Inner.{Ahead, Room, Pushed, Grown, leads_to, came_to};

use feed::{Refused, Rig};
use recording::First;
use refusal::Refusal;

// The size of the bench's memory, and of its packet and reply buffers.
pub const MEMORY: usize = 8192;

pub const BUFFER: usize = 1024;

// How many numbers an answer has: C's array has these four of each.
const NUMBERS: usize = 4;

// C's array of the answers' numbers, and how many answers stand there.
#[derive(Drop)]
struct Answers<'a> {
    numbers: &'a mut [u32],
    count: usize,
}

// An answer in its four numbers.
fn numbers_of(answer: Result<Option<u32>, Refused>) -> [u32; NUMBERS]
    ensures { result ≡ numbers (said answer) }
{
    match answer {
        Ok(None) => [0; NUMBERS],
        Ok(Some(rc)) => [0, 1, rc, 0],
        Err(why) => [why.refusal, 0, 0, why.place],
    }
}

impl Answers<'_> {
    // One answer more, behind the others.
    #[tactic(auto, using(laws::proofs::Lists::filled_part))]
    fn push(&mut self, answer: Result<Option<u32>, Refused>)
        requires { Room self.old 1 }
        ensures { Pushed self.old self.new (said answer) }
    {
        let at = NUMBERS * self.count;
        self.numbers[at..at + NUMBERS].copy_from_slice(&numbers_of(answer));
        self.count += 1;
    }
}

// One record: a line to the controller is fed, and its answer kept; a line from it changes nothing.
#[tactic(auto, using(crate::proofs::Laws::pushed_grown, crate::proofs::Laws::fed_leads), unfolding(crate::specs::Replay::fed, laws::specs::Choice::pick))]
fn replay_record(rig: &mut Rig, answers: &mut Answers, to_controller: bool, line: &[u8])
    requires { Room answers.old 1 }
    ensures leads { (rest : List Entry) → leads_to rig.new answers.new rest
        ≡ leads_to rig.old answers.old (record { is_to_controller = to_controller; line = line.now } ∷ rest) }
    ensures same_rig { SameRig rig.old rig.new }
    ensures grown { Grown answers.old answers.new 1 }
{
    if to_controller {
        let answer = rig.feed_line(line);
        answers.push(answer);
    }
}

// The records of a file from the first on.
fn replay_records(rig: &mut Rig, answers: &mut Answers, file: &[u8], first: First)
    requires ahead { Ahead file.now first.place first.number }
    requires room { Room answers.old first.number }
    ensures ends { (es : List Entry) → Reads file.now first.place es → length es ≡ first.number
        → came_to rig.new answers.new ≡ leads_to rig.old answers.old es }
    ensures same_rig { SameRig rig.old rig.new }
    ensures grown { Grown answers.old answers.new first.number }
{
    let mut at = first.place;
    for _ in 0..first.number {
        let Ok(Some(record)) = recording::read_at(file, at) else {
            return;
        };
        replay_record(rig, answers, record.to_controller, record.line.of(file));
        at = record.line.start + record.line.len;
    }
}

// Replays a file: its lines to the controller are fed to a fresh one in the lent memory, in order, and the numbers of each answer stored behind those of
// the one before. Refusal 12, and everything stays, where the file is no recording or there is no room for an answer to each of its records.
// Kept as it is, since C's call has these parameters: here they become a rig and its answers.
pub fn replay_file(
    file: &[u8],
    memory: &mut [u8; MEMORY],
    session: &mut [u32; 4],
    tag: &mut [u8; 32],
    reader: &mut [u32; 4],
    packet: &mut [u8; BUFFER],
    reply: &mut [u8; BUFFER],
    answers: &mut [u32],
    count: &mut usize,
) -> u32
    ensures { record {
      result = result;
      bench = record {
        memory = memory.new;
        session = session.new;
        tag = tag.new;
        reader = reader.new;
        packet = packet.new;
        reply = reply.new;
      };
      answers = answers.new;
      count = count.new;
    } ≡ replayed (record {
      memory = memory.old;
      session = session.old;
      tag = tag.old;
      reader = reader.old;
      packet = packet.old;
      reply = reply.old;
    }) answers.old count.old file.now }
{
    let Ok(first) = recording::first_record(file) else {
        return u32::from(Refusal::Unsendable);
    };
    if answers.len() / NUMBERS < first.number {
        return u32::from(Refusal::Unsendable);
    }
    memory.fill(255);
    *session = [0u32; 4];
    *tag = [0u8; 32];
    *reader = [0u32; 4];
    let mut rig = Rig {
        memory,
        session,
        tag,
        reader,
        packet,
        reply,
    };
    let mut kept = Answers {
        numbers: answers,
        count: 0,
    };
    replay_records(&mut rig, &mut kept, file, first);
    *count = kept.count;
    0
}
