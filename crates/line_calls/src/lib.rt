// The calls of the line on arrays of numbers: a line is taken, bytes are collected into lines, a frame is sent.
// C calls them: so a refusal is given as its number, and what else is given goes to lent arrays.
#![tactic(auto)]

ghost use Rattle.std.specs.Prelude.{◌≡◌};
ghost use Rattle.line_calls.specs.Calls.{collected_c, took_line, sent_frame};

// Takes one line.
#[tactic(auto, unfolding(crate::specs::Calls::took_line))]
pub fn take_line(
    record: &mut [u32; 4],
    line: &[u8],
    packet: &mut [u8],
    body: &mut u32,
    place: &mut u32,
) -> u32
    ensures { record {
      result = result;
      record_after = «record».new;
      packet = packet.new;
      body = body.new;
      place = place.new;
    } ≡ took_line «record».old line.now packet.old body.old place.old }
{
    let before = records::reader_from(record);
    let taken = reader::take_line(before, line, packet);
    records::told_line(taken, record, body, place)
}

// Goes on in a lump, to the end of the next line or to the lump's end.
#[tactic(auto, unfolding(crate::specs::Calls::collected_c, crate::specs::Calls::collected_by, laws::specs::Choice::pick))]
pub fn collect(
    record: &mut [u32; 2],
    held: &mut [u8; collector::MOST],
    lump: &[u8],
    at: usize,
    line: &mut [u8; frame::LONGEST],
    got: &mut [u32; 2],
) -> u32
    ensures { record {
      result = result;
      record_after = «record».new;
      held = held.new;
      line = line.new;
      got = got.new;
    } ≡ collected_c «record».old held.old lump.now at line.old got.old }
{
    let before = records::collector_from(record, *held);
    let step = before.collect(lump, at, line);
    let gave = step.got;
    let result = records::step_result(gave);
    if records::went_on(result) {
        let length = records::step_length(gave);
        records::store_collector(record, held, step.collector);
        *got = [length, step.place as u32];
        return result;
    }
    result
}

// Writes frame number k of a body, as a line, to the start of out.
#[tactic(auto, unfolding(crate::specs::Calls::sent_frame, crate::specs::Calls::sent_by))]
pub fn send_frame(body: &[u8], k: usize, out: &mut [u8], sent: &mut [u32; 2]) -> u32
    ensures { record { result = result; out = out.new; sent = sent.new } ≡ sent_frame body.now k out.old
        sent.old }
{
    match sender::send_frame(body, k, out) {
        Ok(frame) => {
            *sent = [frame.length as u32, frame.count as u32];
            0
        }
        Err(why) => u32::from(why),
    }
}
