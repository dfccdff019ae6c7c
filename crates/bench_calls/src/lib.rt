// The calls of the bench on arrays of numbers, as C lends them: the records of a recording, and the text of a replay.
#![tactic(auto)]

ghost use Rattle.std.specs.Prelude.{◌≡◌};
ghost use Rattle.bench_calls.specs.Calls.{kind_number_def, first_c, record_c, transcript_c};

// Where the first record of a file stands and how many there are.
#[tactic(auto, unfolding(crate::specs::Calls::first_c, crate::specs::Calls::first_by_def))]
pub fn first_numbers(file: &[u8], first: &mut [usize; 2]) -> u32
    ensures { record { result = result; first = first.new } ≡ first_c file.now first.old }
{
    match recording::first_record(file) {
        Ok(found) => {
            *first = [found.place, found.number];
            0
        }
        Err(why) => u32::from(why),
    }
}

// The first byte of a record whose line goes to the controller, or of one that comes from it: C's record has the file's own byte.
#[tactic(auto, unfolding(laws::specs::Choice::pick))]
fn kind_number(to_controller: bool) -> usize
    ensures { result ≡ kind_number_def to_controller }
{
    if to_controller { 0x3E } else { 0x3C }
}

// The record at a place of a file.
#[tactic(auto, unfolding(crate::specs::Calls::record_c, crate::specs::Calls::record_by))]
pub fn record_numbers(file: &[u8], at: usize, record: &mut [usize; 3]) -> u32
    ensures { record { result = result; numbers = «record».new } ≡ record_c file.now at «record».old }
{
    match recording::read_at(file, at) {
        Ok(Some(found)) => {
            *record = [
                kind_number(found.to_controller),
                found.line.start,
                found.line.len,
            ];
            0
        }
        Ok(None) => {
            *record = [0, at, 0];
            0
        }
        Err(why) => u32::from(why),
    }
}

// Writes the text of a replay.
#[tactic(auto, unfolding(crate::specs::Calls::transcript_c, crate::specs::Calls::transcript_by))]
pub fn transcript_numbers(
    answers: &[u32],
    count: usize,
    session: &[u32; 4],
    out: &mut [u8],
    size: &mut usize,
) -> u32
    ensures { record { result = result; out = out.new; size = size.new }
        ≡ transcript_c answers.now count session.now out.old size.old }
{
    let last = records::session_from(session);
    match transcript::write_transcript(answers, count, last, out) {
        Ok(n) => {
            *size = n;
            0
        }
        Err(why) => u32::from(why),
    }
}
