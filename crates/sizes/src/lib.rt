// The most data that an upload request can carry, by lengths alone. The theorems on what each writer says are in specs/, their proofs in proofs/.
#![tactic(auto)]

ghost use Rattle.std.specs.Prelude.{◌≡◌};
ghost use Rattle.sizes.specs.Size.{first_over_def, most_in_def, most_past_def, most_first_def, most_data_def};

// The answer where an upload request can carry no data.
// Kept, C's call gives this 0: include/belagunthi.h, bg_most_data.
const NO_DATA: usize = 0;

// The most data that has room, with its head, in so many bytes.
#[tactic(auto, unfolding(crate::specs::Size::most_in_def, laws::specs::Choice::pick))]
fn most_in(left: usize) -> usize
    ensures { result ≡ most_in_def left }
{
    match left {
        0..=24 => left.saturating_sub(1),
        25..=257 => left - 2,
        _ => left - 3,
    }
}

// The most data of a packet that takes `over` bytes without it, for an output of `room` bytes.
fn most_past(room: usize, over: usize) -> usize
    ensures { result ≡ most_past_def room over }
{
    most_in(room.min(65533).saturating_sub(over))
}

// How many bytes an upload at offset 0 takes without its data and the data's head.
fn first_over(size: u64, tag_len: usize) -> usize
    ensures { result ≡ first_over_def size tag_len }
{
    let over = 23 + cbor::head_len(size);
    if tag_len == 0 { over } else { over + 38 }
}

// The most data of an upload at offset 0.
#[tactic(auto, unfolding(crate::specs::Size::most_first_def, laws::specs::Choice::pick))]
fn most_first(room: usize, size: u64, tag_len: usize) -> usize
    ensures { result ≡ most_first_def room size tag_len }
{
    if size == 0 || 4294967295 < size || uploads::is_mis_sized(tag_len) {
        return NO_DATA;
    }
    most_past(room, first_over(size, tag_len)).min(size as usize)
}

// The most data that an upload request can carry, for an output of `room` bytes and a tag of `tag_len`: 0 where it can carry none.
pub fn most_data(room: usize, off: u64, length: u64, tag_len: usize) -> usize
    ensures { result ≡ most_data_def room off length tag_len }
{
    if 4294967295 < off {
        return NO_DATA;
    }
    if 0 < off {
        return most_past(room, 18 + cbor::head_len(off));
    }
    most_first(room, length, tag_len)
}
