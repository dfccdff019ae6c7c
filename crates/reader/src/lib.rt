// The frame reader: one line at a time becomes "more", a packet, or one refusal.
#![tactic(auto)]

ghost use Rattle.std.specs.Prelude.{◌≡◌, List, ℕ, ◌+◌, ◌-◌, ◌≤◌, ◌<◌, length, get_or, take, drop, Err, MatchResult};
ghost use Rattle.laws.specs.Bytes.{of_be16};
ghost use Rattle.crc.specs.Crc.{crc_of_def};
ghost use Rattle.strict_base64.specs.Base64.{decode};
ghost use Rattle.decoder.specs.Inner.{Decodes};
ghost use Rattle.frame.specs.Line.{longest, raw_most, text_of};
ghost use Rattle.reader.specs.declared.LineError.TheVariants.{Refused};
ghost use Rattle.reader.specs.declared.Reader.TheVariants.{Idle};
ghost use Rattle.reader.specs.Reader.{outcome, crc_bytes, filled, waiting, completed, absorb, begin, resume, framed, place_in, decoded};
ghost use Rattle.reader.specs.Reader.{take_line_def};
ghost use Rattle.reader.specs.Inner.{left};

use refusal::Refusal;

// The reader's record between two lines. The C interface lends it, so its numbers may be any, and it has no invariant; `Idle` is a state of the paper's.
#[derive(Clone, Copy, Debug, PartialEq, Eq)]
pub enum Reader {
    // No packet is open.
    Idle,
    // A packet is open: its total, how many body and CRC bytes have come, and the first CRC byte where only the last is missing, else 0.
    Open {
        total: usize,
        come: usize,
        first: u8,
    },
}

// Why the reader refuses a line.
#[derive(Clone, Copy, Debug, PartialEq, Eq)]
pub enum LineError {
    // Not for its text.
    Refused(Refusal),
    // For its text, which is not well formed: from this place in the line on.
    BadText(usize),
}

impl From<Refusal> for LineError {
    // A refusal that is not for the text.
    ghost from_gives = { λ r e. e ≡ Refused r };

    fn from(r: Refusal) -> LineError {
        LineError::Refused(r)
    }
}

// The reader's answer, with its record for the next line.
#[derive(Clone, Copy, Debug, PartialEq, Eq)]
pub struct Taken {
    // The line completed a packet: this many body bytes stand at the packet buffer's start; none: the packet wants more. Or why the line was refused.
    pub answer: Result<Option<usize>, LineError>,
    pub reader: Reader,
}

// A packet that is open: an open record within its bounds.
#[derive(Clone, Copy)]
struct Packet {
    total: usize,
    come: usize,
    first: u8,
    ghost least: { 10 ≤ total },
    ghost most: { total ≤ 65535 },
    ghost unfinished: { come < total },
}

impl Packet {
    // The raw bytes of an initial frame begin a packet: what follows its total comes first.
    fn begin(raw: &[u8]) -> Result<Packet, Refusal>
        ensures { MatchResult result
            (λ k. (2 ≤ length raw.now) × ((p : List ℕ) → absorb k.total k.come k.first (drop 2 raw.now) p ≡ begin raw.now p))
            (λ e. (p : List ℕ) → left (Err e) Idle p ≡ begin raw.now p) }
    {
        if raw.len() < 2 {
            return Err(Refusal::BadTotal);
        }
        let total = laws::be16_at(raw, 0);
        if total < 10 {
            return Err(Refusal::BadTotal);
        }
        Ok(Packet {
            total,
            come: 0,
            first: 0,
        })
    }

    // The raw bytes of a partial frame go on with the open packet.
    fn resume(reader: Reader) -> Result<Packet, Refusal>
        ensures { MatchResult result
            (λ k. (raw p : List ℕ) → absorb k.total k.come k.first raw p ≡ resume reader raw p)
            (λ e. (raw p : List ℕ) → left (Err e) reader p ≡ resume reader raw p) }
    {
        let Reader::Open { total, come, first } = reader else {
            return Err(Refusal::NoPacketOpen);
        };
        if total < 10 || 65535 < total || total <= come {
            return Err(Refusal::NoPacketOpen);
        }
        Ok(Packet { total, come, first })
    }

    // How many body bytes the packet has.
    fn body(self) -> usize
        ensures { result ≡ self.total - 2 }
    {
        self.total - 2
    }

    // The packet buffer takes the body bytes among x, which come on top of those that have come.
    fn fill(self, x: &[u8], p: &mut [u8])
        requires { self.total - 2 ≤ length p.old }
        ensures { p.new ≡ filled self.total self.come x.now p.old }
    {
        let body = self.body();
        if self.come < body {
            let n = (body - self.come).min(x.len());
            laws::put(p, self.come, &x[..n]);
        }
    }

    // The first CRC byte, from x or from the record.
    fn crc_first(self, x: &[u8]) -> u8
        ensures { result ≡ get_or (crc_bytes self.total self.come self.first x.now) 0 0 }
    {
        let body = self.body();
        if self.come <= body {
            laws::byte_at(x, body - self.come)
        } else {
            self.first
        }
    }

    // The CRC that came, in x, or its first byte in the record.
    fn crc_came(self, x: &[u8]) -> usize
        ensures { result ≡ of_be16 (crc_bytes self.total self.come self.first x.now) }
    {
        let body = self.body();
        if self.come <= body {
            laws::be16_at(x, body - self.come)
        } else {
            usize::from(self.first) * 256 + usize::from(laws::byte_at(x, 0))
        }
    }

    // The CRC of the body as the packet buffer would have it with the body bytes of x in: nothing is written.
    fn crc_due(self, x: &[u8], p: &[u8]) -> u16
        requires { (self.total - 2 ≤ length p.now) × (self.total ≤ self.come + length x.now) }
        ensures { result ≡ crc_of_def (take (self.total - 2) (filled self.total self.come x.now p.now)) }
    {
        let body = self.body();
        if self.come < body {
            let c = crc::continued(0, &p[..self.come]);
            crc::continued(c, &x[..body - self.come])
        } else {
            crc::continued(0, &p[..body])
        }
    }

    // The last bytes of the packet have come: it is handed out where its CRC is right.
    fn complete(self, x: &[u8], p: &mut [u8]) -> Result<Option<usize>, Refusal>
        requires { (self.total - 2 ≤ length p.old) × (self.total ≤ self.come + length x.now) }
        ensures { left result Idle p.new ≡ completed self.total self.come self.first x.now p.old }
    {
        let came = self.crc_came(x);
        let due = self.crc_due(x, p);
        if came != usize::from(due) {
            return Err(Refusal::CrcDiffers);
        }
        self.fill(x, p);
        Ok(Some(self.body()))
    }

    // The record of the packet, which wants more after x.
    fn wait(self, x: &[u8]) -> Reader
        requires { self.come + length x.now < self.total }
        ensures { result ≡ waiting self.total self.come self.first x.now }
    {
        let come = self.come + x.len();
        let first = if come + 1 == self.total {
            self.crc_first(x)
        } else {
            0
        };
        Reader::Open {
            total: self.total,
            come,
            first,
        }
    }

    // Body and CRC bytes x come on top of those that have come.
    fn take(self, x: &[u8], reader: &mut Reader, p: &mut [u8]) -> Result<Option<usize>, Refusal>
        ensures { left result reader.new p.new ≡ absorb self.total self.come self.first x.now p.old }
    {
        *reader = Reader::Idle;
        let there = self.come + x.len();
        if p.len() < self.body() {
            return Err(Refusal::BodyTooLong);
        }
        if self.total < there {
            return Err(Refusal::TooManyBytes);
        }
        if there < self.total {
            *reader = self.wait(x);
            self.fill(x, p);
            return Ok(None);
        }
        self.complete(x, p)
    }
}

// The raw bytes of a frame are taken, by its marker: an initial one begins a packet, whatever was open, a partial one goes on with the open one.
fn take_raw(
    initial: bool,
    reader: &mut Reader,
    raw: &[u8],
    p: &mut [u8],
) -> Result<Option<usize>, Refusal>
    ensures { left result reader.new p.new ≡ framed initial reader.old raw.now p.old }
{
    let (packet, bytes) = if initial {
        *reader = Reader::Idle;
        (Packet::begin(raw)?, &raw[2..])
    } else {
        (Packet::resume(*reader)?, raw)
    };
    packet.take(bytes, reader, p)
}

// A line's text, between its marker and its 0A, is handed to the Base64 decoder as the part of the line that it is.
fn decode_text(line: &[u8], raw: &mut [u8]) -> Option<usize>
    requires { (3 ≤ length line.now) × (length line.now ≤ longest) × (length raw.old ≡ raw_most) }
    ensures { Decodes (text_of line.now) raw.old result raw.new }
{
    let end = line.len() - 1;
    decoder::decode(&line[2..end], raw)
}

// The place in a line at which its text stops being the beginning of a well-formed one.
fn place_in(line: &[u8]) -> usize
    requires { 3 ≤ length line.now }
    ensures { result ≡ place_in line.now }
{
    let newline = line.len() - 1;
    fault::place(&line[2..newline]) + 2
}

// A frame: its text is decoded, and begins a packet or goes on with the open one. Its marker is a flag, as in the definitions (`framed`, `decoded`).
fn take_frame(
    initial: bool,
    reader: &mut Reader,
    line: &[u8],
    p: &mut [u8],
) -> Result<Option<usize>, LineError>
    requires { (3 ≤ length line.now) × (length line.now ≤ longest) }
    ensures { outcome (record { answer = result; reader = reader.new }) p.new
        ≡ decoded initial reader.old (place_in line.now) (decode (text_of line.now)) p.old }
{
    let mut raw = [0u8; frame::RAW_MOST];
    let Some(n) = decode_text(line, &mut raw) else {
        *reader = Reader::Idle;
        return Err(LineError::BadText(place_in(line)));
    };
    Ok(take_raw(initial, reader, &raw[..n], p)?)
}

// A line that is a frame is taken; another is refused, and leaves all.
fn take(reader: &mut Reader, line: &[u8], p: &mut [u8]) -> Result<Option<usize>, LineError>
    ensures { outcome (record { answer = result; reader = reader.new }) p.new ≡ take_line_def reader.old line.now p.old }
{
    let n = line.len();
    if frame::LONGEST < n {
        return Err(LineError::Refused(Refusal::LineTooLong));
    }
    if n < 3 {
        return Err(LineError::Refused(Refusal::NoFrame));
    }
    if line[n - 1] != frame::NEWLINE {
        return Err(LineError::Refused(Refusal::NoFrame));
    }
    let initial = line.starts_with(&frame::INITIAL);
    if !initial {
        if !line.starts_with(&frame::PARTIAL) {
            return Err(LineError::Refused(Refusal::NoFrame));
        }
    }
    take_frame(initial, reader, line, p)
}

// Takes one line, with its 0A: more is wanted, a packet stands in the packet buffer, or the line is refused. Gives the record for the
// next line.
pub fn take_line(reader: Reader, line: &[u8], p: &mut [u8]) -> Taken
    ensures { outcome result p.new ≡ take_line_def reader line.now p.old }
{
    let mut next = reader;
    let answer = take(&mut next, line, p);
    Taken {
        answer,
        reader: next,
    }
}
