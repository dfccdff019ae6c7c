// The text of a replay: a line for each answer, and the session at the end.
#![tactic(auto)]

ghost use Rattle.std.specs.Prelude.{◌≡◌, ◌+◌, ◌*◌, ◌≤◌, leb, length};
ghost use Rattle.writer.specs.Writer.{HasRoom, Wrote};
ghost use Rattle.transcript.specs.Transcript.{rc_text, line_text, end_text, transcript, said, written};
ghost use Rattle.transcript.specs.Inner.{printed_at};

use refusal::Refusal;
use session::Session;
use writer::Writer;

// How many numbers an answer has: the refusal or 0, whether there is a reply, its return code, and a place, which the text leaves out.
pub const NUMBERS: usize = 4;

// The most digits of a number of 64 bits after its first.
const MORE: usize = 19;

// The numbers of an answer that its line prints.
#[derive(Clone, Copy)]
struct Printed {
    refusal: u32,
    replied: u32,
    rc: u32,
}

impl Printed {
    // Those of answer k.
    fn at(answers: &[u32], k: usize) -> Printed
        requires { 4 * (k + 1) ≤ length answers.now }
        ensures { result ≡ printed_at answers.now k }
    {
        let from = NUMBERS * k;
        Printed {
            refusal: answers[from],
            replied: answers[from + 1],
            rc: answers[from + 2],
        }
    }

    // How long the end of the line is: the return code or '-', and 0A.
    #[tactic(auto, using(laws::proofs::Tests::tests, crate::proofs::Laws::ended_length), unfolding(crate::specs::Transcript::rc_text))]
    fn rc_len(self) -> usize
        ensures { (result ≡ length (rc_text self.replied self.rc)) × (result ≤ 21) }
    {
        if self.replied == 0 {
            return 2;
        }
        decimal::digit_count(MORE, self.rc as usize) + 1
    }

    // Writes the end of the line.
    #[tactic(auto, using(laws::proofs::Tests::tests), unfolding(crate::specs::Transcript::rc_text))]
    fn put_rc(self, out: &mut Writer)
        requires { HasRoom out.old (rc_text self.replied self.rc) }
        ensures { Wrote out.old out.new (rc_text self.replied self.rc) }
    {
        if self.replied == 0 {
            out.bytes(b"-\n");
        } else {
            decimal::put_ended(out, MORE, self.rc as usize, b'\n');
        }
    }

    // How long the line of number k is.
    #[tactic(auto, using(crate::proofs::Laws::line_length))]
    fn line_len(self, k: usize) -> usize
        ensures { (result ≡ length (line_text k self.refusal self.replied self.rc)) × (result ≤ 63) }
    {
        let first = decimal::digit_count(MORE, k);
        let second = decimal::digit_count(MORE, self.refusal as usize);
        first + second + 2 + self.rc_len()
    }

    // Writes the line of number k.
    #[tactic(auto, using(writer::proofs::Steps::room_first, smp::proofs::Writing::second_room, smp::proofs::Writing::third_room))]
    fn put_line(self, out: &mut Writer, k: usize)
        requires { HasRoom out.old (line_text k self.refusal self.replied self.rc) }
        ensures { Wrote out.old out.new (line_text k self.refusal self.replied self.rc) }
    {
        decimal::put_ended(out, MORE, k, b' ');
        decimal::put_ended(out, MORE, self.refusal as usize, b' ');
        self.put_rc(out);
    }
}

// How long the last line is.
#[tactic(auto, using(laws::proofs::Tests::tests, crate::proofs::Laws::ended_length), unfolding(crate::specs::Transcript::end_text))]
fn end_len(session: Session) -> usize
    ensures { (result ≡ length (end_text session)) × (result ≤ 25) }
{
    if session.running {
        return 5 + decimal::digit_count(MORE, session.place);
    }
    9
}

// Writes the last line.
#[tactic(auto, using(laws::proofs::Tests::tests), unfolding(crate::specs::Transcript::end_text))]
fn put_end(out: &mut Writer, session: Session)
    requires { HasRoom out.old (end_text session) }
    ensures { Wrote out.old out.new (end_text session) }
{
    if session.running {
        out.bytes(b"end ");
        decimal::put_ended(out, MORE, session.place, b'\n');
    } else {
        out.bytes(b"end none\n");
    }
}

// Whether the text of so many answers fits into this much room.
#[tactic(auto, using(laws::proofs::Tests::tests, crate::proofs::Laws::lines_length, crate::proofs::Laws::lines_none, crate::proofs::Laws::text_length_lem))]
fn fits(answers: &[u32], count: usize, session: Session, room: usize) -> bool
    requires { 4 * count ≤ length answers.now }
    ensures { result ≡ leb (length (transcript answers.now count session)) room }
{
    let last = end_len(session);
    if room < last {
        return false;
    }
    let mut left = room - last;
    for k in 0..count {
        let len = Printed::at(answers, k).line_len(k);
        if left < len {
            return false;
        }
        left -= len;
    }
    true
}

// Writes the text of so many answers, which fits.
fn put_all(answers: &[u32], count: usize, session: Session, out: &mut Writer)
    requires count_in_bounds { 4 * count ≤ length answers.now }
    requires has_room { HasRoom out.old (transcript answers.now count session) }
    ensures { Wrote out.old out.new (transcript answers.now count session) }
{
    for k in 0..count {
        Printed::at(answers, k).put_line(out, k);
    }
    put_end(out, session);
}

// Writes the text of a replay to the start of out, and gives its length: a line for each of the first `count` answers, and the session at the end.
// Refusal 12, and nothing is written, where the answers are fewer or out is shorter than the text.
pub fn write_transcript(
    answers: &[u32],
    count: usize,
    session: Session,
    out: &mut [u8],
) -> Result<usize, Refusal>
    ensures { record { says = said result; out = out.new } ≡ written answers.now count session out.old }
{
    if answers.len() / NUMBERS < count || !fits(answers, count, session, out.len()) {
        return Err(Refusal::Unsendable);
    }
    let mut text = Writer { buf: out, at: 0 };
    put_all(answers, count, session, &mut text);
    Ok(text.at)
}
