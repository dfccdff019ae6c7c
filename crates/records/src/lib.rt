// The records and answers of both ends as arrays of numbers, and back. C lends them so, whatever stands in them: hence numbers for flags and refusals here.
#![tactic(auto)]

ghost use Rattle.std.specs.Prelude.{◌≡◌, List, ◌≤◌, ℕ, length};
ghost use Rattle.refusal.specs.Number.{number_of};
ghost use Rattle.frame.specs.Line.{longest};
ghost use Rattle.collector.specs.Collector.{most, said};
ghost use Rattle.records.specs.Records.{layout_of, collector_of, collector_numbers, reader_of, reader_numbers, session_of, session_numbers, reply_numbers_def};
ghost use Rattle.records.specs.Results.{step_result_def, step_length_def, went_on_def, keeps_record_def, took_by, handled_by, wrote_by};
ghost use Rattle.records.specs.Inner.{Storable, SmallBy, Held32, HandledSmall, ReplySmall};
ghost use Rattle.reader.specs.Reader as reading;
ghost use Rattle.controller.specs.Handle as handling;
ghost use Rattle.host.specs.Write.{told, packet};

use collector::Collector;
use controller::Handled;
use laws::Run;
use reader::{LineError, Reader, Taken};
use refusal::Refusal;
use replies::Reply;
use session::{Layout, Session, Slot};

// The reader's record out of its four numbers.
#[tactic(auto, unfolding(crate::specs::Records::reader_from_def, laws::specs::Choice::pick))]
pub fn reader_from(record: &[u32; 4]) -> Reader
    ensures { result ≡ reader_of «record».now }
{
    let [open, total, come, first] = *record;
    if open == 0 {
        return Reader::Idle;
    }
    if 255 < first {
        return Reader::Open {
            total: 0,
            come: 0,
            first: 0,
        };
    }
    Reader::Open {
        total: total as usize,
        come: come as usize,
        first: first as u8,
    }
}

// The reader's record goes to its four numbers.
#[tactic(auto, unfolding(crate::specs::Records::reader_numbers))]
fn store_reader(record: &mut [u32; 4], reader: Reader)
    requires { Storable reader }
    ensures { «record».new ≡ reader_numbers reader }
{
    *record = match reader {
        Reader::Idle => [0, 0, 0, 0],
        Reader::Open { total, come, first } => [1, total as u32, come as u32, u32::from(first)],
    };
}

// Whether a refusal leaves the reader's record as it was lent.
#[tactic(auto, unfolding(laws::specs::Choice::both))]
fn keeps_record(why: Refusal) -> bool
    ensures { result ≡ keeps_record_def (number_of why) }
{
    match why {
        Refusal::LineTooLong | Refusal::NoFrame | Refusal::NoPacketOpen => true,
        _ => false,
    }
}

// The session record out of its four numbers.
pub fn session_from(record: &[u32; 4]) -> Session
    ensures { (result ≡ session_of «record».now) × Held32 result }
{
    let [running, length, place, tagged] = *record;
    Session {
        running: running != 0,
        length: length as usize,
        place: place as usize,
        tagged: tagged != 0,
    }
}

// The session record goes to its four numbers.
#[tactic(auto, unfolding(crate::specs::Records::session_numbers, fields::specs::Fields::flag_number_def))]
fn store_session(record: &mut [u32; 4], session: Session)
    requires { Held32 session }
    ensures { «record».new ≡ session_numbers session }
{
    *record = [
        u32::from(session.running),
        session.length as u32,
        session.place as u32,
        u32::from(session.tagged),
    ];
}

// The collector's record out of its two numbers and its bytes.
pub fn collector_from(record: &[u32; 2], held: [u8; collector::MOST]) -> Collector
    ensures { (result ≡ collector_of «record».now held) × (length result.held ≡ most) }
{
    let [count, skipping] = *record;
    Collector {
        held,
        count: count as usize,
        skipping: skipping != 0,
    }
}

// The collector's record goes to its two numbers and its bytes.
#[tactic(auto, unfolding(crate::specs::Records::collector_numbers, fields::specs::Fields::flag_number_def))]
pub fn store_collector(
    record: &mut [u32; 2],
    held: &mut [u8; collector::MOST],
    collector: Collector,
)
    requires { collector.count ≤ most }
    ensures { («record».new ≡ collector_numbers collector) × (held.new ≡ collector.held) }
{
    *record = [collector.count as u32, u32::from(collector.skipping)];
    let bytes = collector.held;
    *held = bytes;
}

// What a step of the collector gave, as a result.
#[tactic(auto, unfolding(crate::specs::Results::step_result_def))]
pub fn step_result(got: Result<Option<usize>, Refusal>) -> u32
    ensures { result ≡ step_result_def (said got) }
{
    match got {
        Ok(_) => 0,
        Err(why) => u32::from(why),
    }
}

// The length of the line that a step of the collector gave, or 0.
#[tactic(auto, unfolding(crate::specs::Results::step_length_def))]
pub fn step_length(got: Result<Option<usize>, Refusal>) -> u32
    requires { step_length_def (said got) ≤ longest }
    ensures { result ≡ step_length_def (said got) }
{
    match got {
        Ok(Some(n)) => n as u32,
        Ok(None) => 0,
        Err(_) => 0,
    }
}

// Whether a step with this result went on in its lump.
#[tactic(auto, unfolding(laws::specs::Choice::pick))]
pub fn went_on(res: u32) -> bool
    ensures { result ≡ went_on_def res }
{
    matches!(res, 0 | 2)
}

// The two regions out of their four numbers.
pub fn layout_from(numbers: &[usize; 4]) -> Layout
    ensures { result ≡ layout_of numbers.now }
{
    let slot0 = Slot {
        start: numbers[0],
        size: numbers[1],
    };
    let slot1 = Slot {
        start: numbers[2],
        size: numbers[3],
    };
    Layout { slot0, slot1 }
}

// What the reader gave, as a result: its record, the body's length and the place of bad text are stored, unless a refusal leaves them.
#[tactic(auto, unfolding(crate::specs::Results::took_by, laws::specs::Choice::pick))]
pub fn told_line(taken: Taken, record: &mut [u32; 4], body: &mut u32, place: &mut u32) -> u32
    requires { SmallBy (reading.said taken.answer) taken.reader }
    ensures { ((p : List ℕ) → record {
      result = result;
      record_after = «record».new;
      packet = p;
      body = body.new;
      place = place.new;
    } ≡ took_by «record».old body.old place.old taken.reader p (reading.said taken.answer)) }
{
    match taken.answer {
        Ok(packet) => {
            store_reader(record, taken.reader);
            *body = packet.unwrap_or(0) as u32;
            0
        }
        Err(LineError::Refused(why)) => {
            if !keeps_record(why) {
                store_reader(record, taken.reader);
            }
            u32::from(why)
        }
        Err(LineError::BadText(i)) => {
            store_reader(record, taken.reader);
            *place = i as u32;
            u32::from(Refusal::BadText)
        }
    }
}

// What the request call gave, as a result: unless it refused, the session record is stored, and the reply's length with whether a reset is
// asked.
#[tactic(auto, unfolding(crate::specs::Results::handled_by, laws::specs::Choice::pick))]
pub fn told_handled(handled: Handled, record: &mut [u32; 4], answer: &mut [u32; 2]) -> u32
    requires { Held32 handled.session × HandledSmall (handling.said handled.answer) }
    ensures { ((m tag b : List ℕ) → record {
      result = result;
      memory = m;
      session = «record».new;
      tag = tag;
      reply = b;
      answer = answer.new;
    } ≡ handled_by «record».old answer.old (handling.outcome handled m tag b) (handling.said handled.answer)) }
{
    match handled.answer {
        Ok(replied) => {
            store_session(record, handled.session);
            *answer = [replied.length as u32, u32::from(replied.asks_reset)];
            0
        }
        Err(why) => u32::from(why),
    }
}

// What a writer said, as a result: the packet's length is stored.
#[tactic(auto, unfolding(crate::specs::Results::wrote_by))]
pub fn told_c(w: Result<usize, Refusal>, size: &mut u32) -> u32
    requires { (n : ℕ) → told w ≡ packet n → n ≤ 65533 }
    ensures { ((out : List ℕ) → record { result = result; out = out; size = size.new } ≡ wrote_by size.old out (told w)) }
{
    match w {
        Ok(n) => {
            *size = n as u32;
            0
        }
        Err(why) => u32::from(why),
    }
}

// The numbers of a reply.
#[tactic(auto, unfolding(crate::specs::Records::reply_numbers_def, crate::specs::Records::there_of_def, crate::specs::Records::run_there_def, crate::specs::Records::run_start_def, crate::specs::Records::run_length_def, replies::specs::Read::or_zero))]
pub fn reply_numbers(reply: Reply) -> [u32; 12]
    requires { ReplySmall reply }
    ensures { result ≡ reply_numbers_def reply }
{
    let header = reply.header;
    let text = reply.text.unwrap_or(Run { start: 0, len: 0 });
    [
        u32::from(header.op),
        u32::from(header.flags),
        header.length as u32,
        header.group as u32,
        u32::from(header.sequence),
        u32::from(header.command),
        reply.rc as u32,
        u32::from(reply.off.is_some()),
        reply.off.unwrap_or(0) as u32,
        u32::from(reply.text.is_some()),
        text.start as u32,
        text.len as u32,
    ]
}
