// The host's calls on numbers, as C has them, one function for each of C's calls, with its parameters: requests are written, and how long they are
// is told in 32 bits.
#![tactic(auto)]

ghost use Rattle.std.specs.Prelude.{◌≡◌};
ghost use Rattle.host.specs.Write.{write_echo_def, write_reset_def, write_erase_def};
ghost use Rattle.uploads.specs.Upload.{write_upload_def};
ghost use Rattle.sequence.specs.Sequence.{next_sequence_def};
ghost use Rattle.sizes.specs.Size.{most_data_def};
ghost use Rattle.host_calls.specs.Calls.{wrote_c};

// Writes an echo request to the start of out.
pub fn write_echo(sequence: u8, text: &[u8], out: &mut [u8], size: &mut u32) -> u32
    ensures { record { result = result; out = out.new; size = size.new } ≡ wrote_c size.old
        (write_echo_def sequence text.now out.old) }
{
    records::told_c(host::write_echo(sequence, text, out), size)
}

// Writes a reset request to the start of out.
pub fn write_reset(sequence: u8, out: &mut [u8], size: &mut u32) -> u32
    ensures { record { result = result; out = out.new; size = size.new } ≡ wrote_c size.old
        (write_reset_def sequence out.old) }
{
    records::told_c(host::write_reset(sequence, out), size)
}

// Writes an erase request to the start of out.
pub fn write_erase(sequence: u8, out: &mut [u8], size: &mut u32) -> u32
    ensures { record { result = result; out = out.new; size = size.new } ≡ wrote_c size.old
        (write_erase_def sequence out.old) }
{
    records::told_c(host::write_erase(sequence, out), size)
}

// Writes an upload request to the start of out.
pub fn write_upload(
    sequence: u8,
    data: &[u8],
    off: u64,
    length: u64,
    tag: &[u8],
    out: &mut [u8],
    size: &mut u32,
) -> u32
    ensures { record { result = result; out = out.new; size = size.new } ≡ wrote_c size.old
        (write_upload_def sequence «data».now off length tag.now out.old) }
{
    records::told_c(
        uploads::write_upload(sequence, data, off, length, tag, out),
        size,
    )
}

// The most data that an upload request can carry, for an output of this many bytes: 0 where it can carry none.
pub fn most_data(out_len: usize, off: u64, length: u64, tag_len: usize) -> u32
    ensures { result ≡ most_data_def out_len off length tag_len }
{
    sizes::most_data(out_len, off, length, tag_len) as u32
}

// The sequence number after this one.
pub fn next_sequence(sequence: u8) -> u8
    ensures { result ≡ next_sequence_def sequence }
{
    sequence::next_sequence(sequence)
}
