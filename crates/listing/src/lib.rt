// The list of the images in both slots, written as a reply.
#![tactic(auto)]

ghost use Rattle.std.specs.Prelude.{◌≡◌, true, ◌+◌, ◌≤◌, ◌<◌, length};
ghost use Rattle.std.specs.Option.{ForSome};
ghost use Rattle.writer.specs.Writer.{HasRoom, Wrote};
ghost use Rattle.session.specs.Session.{layout_ok};
ghost use Rattle.slot.specs.History.{slot_in};
ghost use Rattle.smp.specs.Inner.{Written};
ghost use Rattle.listing.specs.Listing.{version_text, image_map, image_count, image_at_def, list_map};
ghost use Rattle.listing.specs.Inner.{version_part, hash_part, image_length, map_listed};

use images::{Image, Version};
use laws::Run;
use session::{Layout, Slot};
use smp::Header;
use writer::Writer;

// The most digits of a number below 100,000 after its first.
const MORE: usize = 4;

// How long a version is as text.
#[tactic(auto, using(crate::proofs::Laws::version_length))]
fn version_len(version: Version) -> usize
    ensures { (result ≡ length (version_text version)) × (result ≤ 17) }
{
    let first = decimal::digit_count(MORE, usize::from(version.major));
    let second = decimal::digit_count(MORE, usize::from(version.minor));
    let third = decimal::digit_count(MORE, version.revision);
    first + second + third + 2
}

// Writes a version: three numbers with a point between them. It is compiled into its caller, as are the writers below, so that the writer's place stays in
// a register from byte to byte.
#[inline(always)]
fn put_version_text(out: &mut Writer, version: Version)
    requires { HasRoom out.old (version_text version) }
    ensures { Wrote out.old out.new (version_text version) }
{
    decimal::put_ended(out, MORE, usize::from(version.major), b'.');
    decimal::put_ended(out, MORE, usize::from(version.minor), b'.');
    decimal::put_decimal(out, MORE, version.revision);
}

// Writes the key of a version and the version as a text string.
#[inline(always)]
fn put_version(out: &mut Writer, version: Version)
    requires { HasRoom out.old (version_part version) }
    ensures { Wrote out.old out.new (version_part version) }
{
    smp::put_text(out, b"version");
    // A cast from usize to u64, both of 64 bits: TryFrom would be no plainer, since it adds a case that never comes.
    cbor::put_head(out, 3, version_len(version) as u64);
    put_version_text(out, version);
}

// Writes the key of a hash and its 32 bytes, those of s from place hash on, as a byte string.
#[inline(always)]
fn put_hash(out: &mut Writer, s: &[u8], hash: usize)
    requires hash_in_bounds { hash + 32 ≤ length s.now }
    requires has_room { HasRoom out.old (hash_part s.now hash) }
    ensures { Wrote out.old out.new (hash_part s.now hash) }
{
    smp::put_text(out, b"hash");
    let hash = Run {
        start: hash,
        len: 32,
    };
    smp::put_string(out, 2, hash.of(s));
}

// A slot's bytes and the image in them.
#[derive(Clone, Copy)]
struct Listed<'a> {
    bytes: &'a [u8],
    image: Option<Image>,
    // the image's hash lies in the slot
    ghost within: { ForSome image (λ i. i.hash + 32 ≤ length bytes.now) },
}

impl<'a> Listed<'a> {
    // A slot of the memory, read.
    fn new(memory: &'a [u8], slot: Slot) -> Listed<'a>
        requires { slot.start + slot.size ≤ length memory.now }
        ensures { (result.bytes.now ≡ slot_in slot memory.now) × (result.image ≡ image_at_def memory.now slot) }
    {
        let slot = Run {
            start: slot.start,
            len: slot.size,
        };
        let bytes = slot.of(memory);
        Listed {
            bytes,
            image: images::image_in(bytes),
        }
    }

    // How many images the slot has.
    #[tactic(auto, unfolding(crate::specs::Listing::image_count))]
    fn count(&self) -> u64
        ensures { (result ≡ image_count self.now.image) × (result ≤ 1) }
    {
        u64::from(self.image.is_some())
    }

    // How long the map of the slot's image is, for a slot's number of one digit.
    #[tactic(auto, unfolding(crate::specs::Inner::image_length))]
    fn map_len(&self) -> usize
        ensures { (result ≡ image_length self.now.image) × (result ≤ 72) }
    {
        self.image
            .map_or(0, |image| 55 + version_len(image.version))
    }

    // Writes the map of the slot's image; the slot has this number.
    #[tactic(auto, unfolding(crate::specs::Listing::image_map))]
    #[inline(always)]
    fn put_map(&self, out: &mut Writer, number: u64)
        requires { HasRoom out.old (image_map number self.now.bytes.now self.now.image) }
        ensures { Wrote out.old out.new (image_map number self.now.bytes.now self.now.image) }
    {
        let Some(image) = self.image else {
            return;
        };
        cbor::put_head(out, 5, 3);
        smp::put_number(out, b"slot", number);
        put_version(out, image.version);
        let bytes = self.bytes;
        put_hash(out, bytes, image.hash);
    }
}

// Writes the list's map.
fn put_list(out: &mut Writer, first: &Listed, second: &Listed)
    requires { HasRoom out.old (map_listed first.now.bytes.now first.now.image second.now.bytes.now second.now.image) }
    ensures { Wrote out.old out.new (map_listed first.now.bytes.now first.now.image second.now.bytes.now second.now.image) }
{
    let n = first.count() + second.count();
    cbor::put_head(out, 5, 1);
    smp::put_text(out, b"images");
    cbor::put_head(out, 4, n);
    first.put_map(out, 0);
    second.put_map(out, 1);
}

// Writes the list of the images in both slots as a reply to the start of buf, or rc 7 where it is longer than buf; gives how long the reply is.
// The bytes after it stay.
pub fn write_list(h: Header, memory: &[u8], layout: Layout, buf: &mut [u8]) -> usize
    requires in_bounds { 32 ≤ length buf.old }
    requires op_bound { h.op < 255 }
    requires memory_value { layout_ok layout (length memory.now) ≡ true }
    ensures { Written h (list_map memory.now layout) buf.old result buf.new }
{
    let first = Listed::new(memory, layout.slot0);
    let second = Listed::new(memory, layout.slot1);
    let size = 17 + first.map_len() + second.map_len();
    if buf.len() < size {
        return smp::put_too_long(h, buf);
    }
    let mut out = Writer { buf, at: 8 };
    put_list(&mut out, &first, &second);
    let end = out.at;
    smp::put_reply_header(h, out.buf, end);
    end
}
