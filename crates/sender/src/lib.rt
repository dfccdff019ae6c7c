// The frame sender: frame number k of a body, as a line at the start of a lent buffer.
#![tactic(auto)]

ghost use Rattle.std.specs.Prelude.{◌≡◌, ◌+◌, ◌-◌, ◌≤◌, ◌<◌, length};
ghost use Rattle.laws.specs.Bytes.{pasted, be16};
ghost use Rattle.writer.specs.Writer.{HasRoom, Wrote};
ghost use Rattle.strict_base64.specs.Base64.{encode};
ghost use Rattle.frame.specs.Line.{longest, raw_most, frame};
ghost use Rattle.sender.specs.Sender.{frame_count_def, start_of, piece_of, marker_of, frame_of, outcome, send_frame_def};
ghost use Rattle.sender.specs.Inner.{head_of, to_of, from_of, middle_of, tail_of};

use refusal::Refusal;
use writer::Writer;

// A frame that stands at the buffer's start: its length, and how many frames the body takes.
#[derive(Clone, Copy, Debug, PartialEq, Eq)]
pub struct Sent {
    pub length: usize,
    pub count: usize,
}

// A body of this many bytes or more takes more than one frame.
const SEVERAL_FROM: usize = 90;

// The longest body in two frames, one with total and one with the CRC.
const TWO_FRAMES: usize = 2 * (frame::RAW_MOST - 2);

// How many frames a body of b bytes takes.
fn frame_count(b: usize) -> usize
    requires { b ≤ 65533 }
    ensures { (result ≡ frame_count_def b) × (result ≤ 705) }
{
    if b < SEVERAL_FROM {
        return 1;
    }
    if b <= TWO_FRAMES {
        return 2;
    }
    // Rounded up by a sum: `div_ceil` takes four instructions more a frame.
    2 + (b - TWO_FRAMES + (frame::RAW_MOST - 1)) / frame::RAW_MOST
}

// Where frame k's raw bytes begin among those of a body of b bytes.
fn start_of(b: usize, k: usize) -> usize
    requires { (b ≤ 65533) × (k ≤ 705) }
    ensures { result ≡ start_of b k }
{
    (frame::RAW_MOST * k).min(b + 2)
}

// Writes a number in two bytes, the high one first.
fn put_be16(out: &mut Writer, n: usize)
    requires { HasRoom out.old (be16 n) }
    ensures { Wrote out.old out.new (be16 n) }
{
    laws::put_be16(out.buf, out.at, n);
    out.at += 2;
}

// Writes a frame's marker: initial for frame 0, else partial.
fn put_marker(out: &mut Writer, k: usize)
    requires { HasRoom out.old (marker_of k) }
    ensures { Wrote out.old out.new (marker_of k) }
{
    if k == 0 {
        out.bytes(&frame::INITIAL);
    } else {
        out.bytes(&frame::PARTIAL);
    }
}

// Writes the text of some raw bytes.
fn put_text(out: &mut Writer, raw: &[u8])
    requires { HasRoom out.old (encode raw.now) }
    ensures { Wrote out.old out.new (encode raw.now) }
{
    let n = encoder::encode(raw, &mut out.buf[out.at..]);
    out.at += n;
}

// Frame k's line with these raw bytes goes to the start of out; gives its length.
fn put_line(k: usize, raw: &[u8], out: &mut [u8]) -> usize
    requires { (length raw.now ≤ raw_most) × (longest ≤ length out.old) }
    ensures { (result ≡ length (frame (marker_of k) raw.now))
        × (out.new ≡ pasted out.old 0 (frame (marker_of k) raw.now)) }
{
    let mut line = Writer { buf: out, at: 0 };
    put_marker(&mut line, k);
    put_text(&mut line, raw);
    line.byte(frame::NEWLINE);
    line.at
}

// One of the frames of a body that can be sent: its number, and how many frames the body takes.
#[derive(Clone, Copy)]
struct Frame<'a> {
    body: &'a [u8],
    k: usize,
    count: usize,
    ghost long_enough: { 8 ≤ length body.now },
    ghost short_enough: { length body.now ≤ 65533 },
    ghost counted: { count ≡ frame_count_def (length body.now) },
    ghost few: { count ≤ 705 },
    ghost one_of_them: { k < count },
}

impl<'a> Frame<'a> {
    // Where the frame's run of the body begins.
    fn body_start(self) -> usize
        ensures { result ≡ from_of (length self.entry.body.now) self.entry.k }
    {
        start_of(self.body.len(), self.k).saturating_sub(2)
    }

    // Where the frame's run of the body ends.
    fn body_end(self) -> usize
        ensures { (result ≡ to_of (length self.entry.body.now) self.entry.k) × (result ≤ length self.entry.body.now)
            × (from_of (length self.entry.body.now) self.entry.k ≤ result) }
    {
        if self.k + 1 == self.count {
            return self.body.len();
        }
        let next = start_of(self.body.len(), self.k + 1);
        next - 2
    }

    // Writes total, in frame 0.
    fn put_head(self, raw: &mut Writer)
        requires { HasRoom raw.old (head_of (length self.body.now) self.k) }
        ensures { Wrote raw.old raw.new (head_of (length self.entry.body.now) self.entry.k) }
    {
        if self.k == 0 {
            put_be16(raw, self.body.len() + 2);
        }
    }

    // Writes the frame's run of the body.
    fn put_middle(self, raw: &mut Writer)
        requires { HasRoom raw.old (middle_of self.body.now self.k) }
        ensures { Wrote raw.old raw.new (middle_of self.entry.body.now self.entry.k) }
    {
        let from = self.body_start();
        let to = self.body_end();
        raw.bytes(&self.body[from..to]);
    }

    // Writes the CRC, in the last frame.
    fn put_tail(self, raw: &mut Writer)
        requires { HasRoom raw.old (tail_of self.body.now self.k) }
        ensures { Wrote raw.old raw.new (tail_of self.entry.body.now self.entry.k) }
    {
        if self.k + 1 == self.count {
            let crc = crc::continued(0, self.body);
            put_be16(raw, usize::from(crc));
        }
    }

    // The frame's raw bytes go to the start of raw; gives how many there are.
    fn put_piece(self, raw: &mut [u8]) -> usize
        requires { length raw.old ≡ raw_most }
        ensures { (result ≡ length (piece_of self.entry.body.now self.entry.k))
            × (raw.new ≡ pasted raw.old 0 (piece_of self.entry.body.now self.entry.k)) × (result ≤ raw_most) }
    {
        let mut piece = Writer { buf: raw, at: 0 };
        self.put_head(&mut piece);
        self.put_middle(&mut piece);
        self.put_tail(&mut piece);
        piece.at
    }

    // The frame's line goes to the start of out; gives its length.
    fn write(self, out: &mut [u8]) -> usize
        requires { longest ≤ length out.old }
        ensures { (result ≡ length (frame_of self.entry.body.now self.entry.k))
            × (out.new ≡ pasted out.old 0 (frame_of self.entry.body.now self.entry.k)) }
    {
        let mut raw = [0u8; frame::RAW_MOST];
        let n = self.put_piece(&mut raw);
        put_line(self.k, &raw[..n], out)
    }
}

// Writes frame number k of a body, as a line, to the start of out: its length and the frame count, or a refusal that writes nothing.
pub fn send_frame(body: &[u8], k: usize, out: &mut [u8]) -> Result<Sent, Refusal>
    ensures { outcome result out.new ≡ send_frame_def body.now k out.old }
{
    if out.len() < frame::LONGEST || body.len() < 8 || 65533 < body.len() {
        return Err(Refusal::Unsendable);
    }
    let count = frame_count(body.len());
    if count <= k {
        return Err(Refusal::NoSuchFrame);
    }
    let frame = Frame { body, k, count };
    let length = frame.write(out);
    Ok(Sent { length, count })
}
