// Recordings of the line: a preface, records and a trailer that points back to them. What stands at a place of the file, where the first record
// stands, and a reader that keeps the lent file and its place in it.
#![tactic(auto)]

ghost use Rattle.std.specs.Prelude.{◌≡◌, ◌+◌, ◌^◌, ◌≤◌, ◌<◌, length};
ghost use Rattle.recording.specs.Recording.{be16_at, be32_at, said, line_at, record_at_def, step_at_def, is_some, entries_from, begun, first_record_def};

use laws::Run;
use refusal::Refusal;

// A record of a recording: whether its line goes to the controller, and where that line lies in the file. The next record stands behind it.
// The way is a flag, as in the definitions (`Entry`).
#[derive(Clone, Copy, Debug, PartialEq, Eq)]
pub struct Record {
    pub to_controller: bool,
    pub line: Run,
}

// Where the records of a file begin: the first one's place, and how many there are.
#[derive(Clone, Copy, Debug, PartialEq, Eq)]
pub struct First {
    pub place: usize,
    pub number: usize,
}

// The first byte of a record to the controller, and of one from it.
const TO_CONTROLLER: u8 = 0x3E;

const FROM_CONTROLLER: u8 = 0x3C;

// How many bytes stand before a record's line, and how many the trailer has.
const HEAD: usize = 3;

const TRAILER: usize = 8;

// The number in two bytes from a place on, the high one first. Both are there, so that none is looked for first, as laws::be16_at does: that takes a third
// more instructions a record.
fn two_at(s: &[u8], i: usize) -> usize
    requires { i + 1 < length s.now }
    ensures { (result ≡ be16_at s.now i) × (result < 65536) }
{
    usize::from(s[i]) * 256 + usize::from(s[i + 1])
}

// The number in four bytes from a place on, the high one first.
fn four_at(s: &[u8], i: usize) -> usize
    requires { i + 3 < length s.now }
    ensures { (result ≡ be32_at s.now i) × (result < 2 ^ 32) }
{
    two_at(s, i) * 65536 + two_at(s, i + 2)
}

// The record that begins at a place of a file with a first byte that was read, where its line ends before another place.
fn line_at(file: &[u8], stop: usize, at: usize, to_controller: bool) -> Option<Record>
    requires { (stop ≤ length file.now) × (at + 3 ≤ stop) }
    ensures { result ≡ line_at file.now stop at to_controller }
{
    let start = at + HEAD;
    let len = two_at(file, at + 1);
    if stop - start < len {
        return None;
    }
    let line = Run { start, len };
    Some(Record {
        to_controller,
        line,
    })
}

// The record that begins at a place of a file and ends before another; none with a wrong first byte, or where it runs past that end.
fn record_at(file: &[u8], stop: usize, at: usize) -> Option<Record>
    requires { stop ≤ length file.now }
    ensures { result ≡ record_at_def file.now stop at }
{
    if stop < at || stop - at < HEAD {
        return None;
    }
    match file[at] {
        TO_CONTROLLER => line_at(file, stop, at, true),
        FROM_CONTROLLER => line_at(file, stop, at, false),
        _ => None,
    }
}

// The record that stands at a place of a file; none at the trailer, where the records are over; refusal 12 where neither stands there.
pub fn step_at(file: &[u8], at: usize) -> Result<Option<Record>, Refusal>
    ensures { said result ≡ step_at_def file.now at }
{
    let stop = file.len().checked_sub(TRAILER).ok_or(Refusal::Unsendable)?;
    if at == stop {
        return Ok(None);
    }
    let record = record_at(file, stop, at).ok_or(Refusal::Unsendable)?;
    Ok(Some(record))
}

// Whether as many records as `number` says stand from a place on, and end where the trailer begins.
fn fills(file: &[u8], place: usize, number: usize) -> bool
    requires { 8 ≤ length file.now }
    ensures { result ≡ is_some (entries_from file.now number place) }
{
    let stop = file.len() - TRAILER;
    let mut at = place;
    for _ in 0..number {
        let Some(record) = record_at(file, stop, at) else {
            return false;
        };
        at = record.line.start + record.line.len;
    }
    at == stop
}

// Where the first record of a file stands and how many there are, or refusal 12 where its records do not fill the distance or are not as many as
// its trailer says.
pub fn first_record(file: &[u8]) -> Result<First, Refusal>
    ensures { begun result ≡ first_record_def file.now }
{
    let stop = file.len().checked_sub(TRAILER).ok_or(Refusal::Unsendable)?;
    let distance = four_at(file, stop);
    let number = four_at(file, stop + 4);
    let place = stop.checked_sub(distance).ok_or(Refusal::Unsendable)?;
    if !fills(file, place, number) {
        return Err(Refusal::Unsendable);
    }
    Ok(First { place, number })
}

// The recording reader: the lent file, and its place in it.
#[derive(Clone, Copy, Debug)]
pub struct Recording<'a> {
    pub file: &'a [u8],
    pub at: usize,
}

// The reader of a file at a place.
pub fn reader_at<'a>(file: &'a [u8], at: usize) -> Recording<'a>
    ensures { (result.file ≡ file.entry) × (result.at ≡ at) }
{
    Recording { file, at }
}

impl<'a> Recording<'a> {
    // What stands at the reader's place.
    pub fn next(self) -> Result<Option<Record>, Refusal>
        ensures { said result ≡ step_at_def self.entry.file.now self.entry.at }
    {
        step_at(self.file, self.at)
    }

    // The reader at another place of its file.
    pub fn moved(self, at: usize) -> Recording<'a>
        ensures { (result.file ≡ self.entry.file) × (result.at ≡ at) }
    {
        Recording { at, ..self }
    }
}

// What the reader of a file finds at a place, for whoever keeps the file and the place himself: step_at's promise, kept by the
// reader's own methods.
pub fn read_at(file: &[u8], at: usize) -> Result<Option<Record>, Refusal>
    ensures { said result ≡ step_at_def file.now at }
{
    reader_at(file, at).next()
}
