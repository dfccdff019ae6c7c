// The C interface: both ends of the port as functions on numbers, byte slices and small arrays of numbers. port_c exports them, and
// include/belagunthi.h declares them, with each promise beside its call. Each name is here and in port_c: a crate that exports names to C can't be
// called from a crate, and caller's theorems and the archive need both.
#![tactic(auto)]

ghost use Rattle.std.specs.Prelude.{◌≡◌};
ghost use Rattle.line_calls.specs.Calls.{collected_c, took_line, sent_frame};
ghost use Rattle.packet_calls.specs.Calls.{handled_c, configured_c, read_c};
ghost use Rattle.host_calls.specs.Calls.{wrote_c};
ghost use Rattle.bench_calls.specs.Calls.{first_c, record_c, transcript_c};
ghost use Rattle.replay.specs.Replay.{replayed};
ghost use Rattle.host.specs.Write.{write_echo_def, write_reset_def, write_erase_def};
ghost use Rattle.uploads.specs.Upload.{write_upload_def};
ghost use Rattle.sequence.specs.Sequence.{next_sequence_def};
ghost use Rattle.sizes.specs.Size.{most_data_def};

// Takes one line: see include/belagunthi.h.
pub fn bg_take_line(
    record: &mut [u32; 4],
    line: &[u8],
    packet: &mut [u8],
    body: &mut u32,
    place: &mut u32,
) -> u32
    ensures { record {
      result = result;
      record_after = «record».new;
      packet = packet.new;
      body = body.new;
      place = place.new;
    } ≡ took_line «record».old line.now packet.old body.old place.old }
{
    line_calls::take_line(record, line, packet, body, place)
}

// Goes on in a lump, to the end of the next line or to the lump's end: see include/belagunthi.h.
pub fn bg_collect(
    record: &mut [u32; 2],
    held: &mut [u8; collector::MOST],
    lump: &[u8],
    at: usize,
    line: &mut [u8; frame::LONGEST],
    got: &mut [u32; 2],
) -> u32
    ensures { record {
      result = result;
      record_after = «record».new;
      held = held.new;
      line = line.new;
      got = got.new;
    } ≡ collected_c «record».old held.old lump.now at line.old got.old }
{
    line_calls::collect(record, held, lump, at, line, got)
}

// Takes one request packet: see include/belagunthi.h.
pub fn bg_handle(
    layout: &[usize; 4],
    memory: &mut [u8],
    record: &mut [u32; 4],
    tag: &mut [u8; 32],
    packet: &[u8],
    reply: &mut [u8],
    answer: &mut [u32; 2],
) -> u32
    ensures { record {
      result = result;
      memory = memory.new;
      session = «record».new;
      tag = tag.new;
      reply = reply.new;
      answer = answer.new;
    } ≡ handled_c layout.now memory.old «record».old tag.old
        packet.now reply.old answer.old }
{
    packet_calls::handle(layout, memory, record, tag, packet, reply, answer)
}

// The sequence number after this one.
pub fn bg_next_sequence(sequence: u8) -> u8
    ensures { result ≡ next_sequence_def sequence }
{
    host_calls::next_sequence(sequence)
}

// Writes an echo request to the start of out.
pub fn bg_write_echo(sequence: u8, text: &[u8], out: &mut [u8], size: &mut u32) -> u32
    ensures { record { result = result; out = out.new; size = size.new } ≡ wrote_c size.old
        (write_echo_def sequence text.now out.old) }
{
    host_calls::write_echo(sequence, text, out, size)
}

// Writes a reset request to the start of out.
pub fn bg_write_reset(sequence: u8, out: &mut [u8], size: &mut u32) -> u32
    ensures { record { result = result; out = out.new; size = size.new } ≡ wrote_c size.old
        (write_reset_def sequence out.old) }
{
    host_calls::write_reset(sequence, out, size)
}

// Writes an erase request to the start of out.
pub fn bg_write_erase(sequence: u8, out: &mut [u8], size: &mut u32) -> u32
    ensures { record { result = result; out = out.new; size = size.new } ≡ wrote_c size.old
        (write_erase_def sequence out.old) }
{
    host_calls::write_erase(sequence, out, size)
}

// Writes an upload request to the start of out.
pub fn bg_write_upload(
    sequence: u8,
    data: &[u8],
    off: u64,
    length: u64,
    tag: &[u8],
    out: &mut [u8],
    size: &mut u32,
) -> u32
    ensures { record { result = result; out = out.new; size = size.new } ≡ wrote_c size.old
        (write_upload_def sequence «data».now off length tag.now out.old) }
{
    host_calls::write_upload(sequence, data, off, length, tag, out, size)
}

// The most data that an upload request can carry, for an output of this many bytes: 0 where it can carry none.
pub fn bg_most_data(out_len: usize, off: u64, length: u64, tag_len: usize) -> u32
    ensures { result ≡ most_data_def out_len off length tag_len }
{
    host_calls::most_data(out_len, off, length, tag_len)
}

// Writes frame number k of a body, as a line, to the start of out.
pub fn bg_send_frame(body: &[u8], k: usize, out: &mut [u8], sent: &mut [u32; 2]) -> u32
    ensures { record { result = result; out = out.new; sent = sent.new } ≡ sent_frame body.now k out.old
        sent.old }
{
    line_calls::send_frame(body, k, out, sent)
}

// Says whether the two regions are possible in a memory of this many bytes; if so, the session record is made a closed one.
pub fn bg_configure(
    layout: &[usize; 4],
    room: usize,
    session: &mut [u32; 4],
    tag: &mut [u8; 32],
) -> u32
    ensures { record { result = result; session = session.new; tag = tag.new } ≡ configured_c layout.now room
        session.old tag.old }
{
    packet_calls::configure(layout, room, session, tag)
}

// Reads a packet as a reply.
pub fn bg_read_reply(packet: &[u8], reply: &mut [u32; 12]) -> u32
    ensures { record { result = result; reply = reply.new } ≡ read_c packet.now reply.old }
{
    packet_calls::read_reply(packet, reply)
}

// Finds the first record of a recording: see include/belagunthi.h.
pub fn bg_first_record(file: &[u8], first: &mut [usize; 2]) -> u32
    ensures { record { result = result; first = first.new } ≡ first_c file.now first.old }
{
    bench_calls::first_numbers(file, first)
}

// Reads the record at a place of a recording: see include/belagunthi.h.
pub fn bg_next_record(file: &[u8], at: usize, record: &mut [usize; 3]) -> u32
    ensures { record { result = result; numbers = «record».new } ≡ record_c file.now at «record».old }
{
    bench_calls::record_numbers(file, at, record)
}

// Replays a recording on a fresh controller: see include/belagunthi.h.
pub fn bg_replay(
    file: &[u8],
    memory: &mut [u8; replay::MEMORY],
    session: &mut [u32; 4],
    tag: &mut [u8; 32],
    reader: &mut [u32; 4],
    packet: &mut [u8; replay::BUFFER],
    reply: &mut [u8; replay::BUFFER],
    answers: &mut [u32],
    count: &mut usize,
) -> u32
    ensures { record {
      result = result;
      bench = record {
        memory = memory.new;
        session = session.new;
        tag = tag.new;
        reader = reader.new;
        packet = packet.new;
        reply = reply.new;
      };
      answers = answers.new;
      count = count.new;
    } ≡ replayed (record {
      memory = memory.old;
      session = session.old;
      tag = tag.old;
      reader = reader.old;
      packet = packet.old;
      reply = reply.old;
    }) answers.old count.old file.now }
{
    replay::replay_file(
        file, memory, session, tag, reader, packet, reply, answers, count,
    )
}

// Writes the text of a replay: see include/belagunthi.h.
pub fn bg_write_transcript(
    answers: &[u32],
    count: usize,
    session: &[u32; 4],
    out: &mut [u8],
    size: &mut usize,
) -> u32
    ensures { record { result = result; out = out.new; size = size.new }
        ≡ transcript_c answers.now count session.now out.old size.old }
{
    bench_calls::transcript_numbers(answers, count, session, out, size)
}
