// Sender and reader together: one function that sends a body's frames and takes them, whose promise ends in the round trip's own conclusion. The
// theorems over the two calls' definitions are in specs/, their proofs in proofs/.
#![tactic(auto)]

ghost use Rattle.std.specs.Prelude.{◌≡◌, ◌<◌, length, MatchResult};
ghost use Rattle.refusal.specs.Number.{number_of};
ghost use Rattle.reader.specs.Reader.{outcome, keeping};
ghost use Rattle.sender.specs.Sender.{frame_count_def};
ghost use Rattle.roundtrip.specs.RoundTrip.{passed, line_after_def, Passed};
ghost use Rattle.roundtrip.specs.Inner.{Went, Stayed};

use reader::{Reader, Taken};
use refusal::Refusal;

// Sends one frame of a body, and takes its line: what the reader gives, and how many frames the body takes.
fn pass_frame(
    body: &[u8],
    k: usize,
    reader: Reader,
    line: &mut [u8],
    packet: &mut [u8],
) -> Result<(Taken, usize), Refusal>
    ensures { MatchResult result
        (λ t. Went body.now k reader packet.old line.old t.0 t.1 packet.new line.new)
        (λ e. k < frame_count_def (length body.now) → Stayed body.now packet.old line.old e packet.new line.new) }
{
    let sent = sender::send_frame(body, k, line)?;
    let taken = reader::take_line(reader, &line[..sent.length], packet);
    Ok((taken, sent.count))
}

// Sends the frames of a body one after the other, and takes the line of each.
fn pass_frames(
    body: &[u8],
    reader: Reader,
    line: &mut [u8],
    packet: &mut [u8],
) -> Result<Taken, Refusal>
    ensures packet_after { MatchResult result
        (λ t. outcome t packet.new ≡ passed body.now reader packet.old line.old)
        (λ e. keeping (number_of e) reader packet.new ≡ passed body.now reader packet.old line.old) }
    ensures line_after { line.new ≡ line_after_def body.now line.old }
{
    let (mut taken, count) = pass_frame(body, 0, reader, line, packet)?;
    for k in 1..count {
        (taken, _) = pass_frame(body, k, taken.reader, line, packet)?;
    }
    Ok(taken)
}

// Sends the frames of a body into the line buffer, one after the other, and takes each line: what was said to the last one, and the reader's record
// after it; or refusal 12, where the body or the line buffer is not one that the sender takes. What the round trip says, it keeps.
pub fn send_and_take(body: &[u8], reader: Reader, line: &mut [u8], packet: &mut [u8]) -> Taken
    ensures { Passed body.now reader packet.old line.old result packet.new line.new }
{
    match pass_frames(body, reader, line, packet) {
        Ok(taken) => taken,
        Err(why) => Taken {
            answer: Err(why.into()),
            reader,
        },
    }
}
