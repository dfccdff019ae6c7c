// An image in a region of memory: whether there is a valid one, its version, and where its hash stands.
#![tactic(auto, using(laws::proofs::Tests::tests))]

ghost use Rattle.std.specs.Prelude.{◌≡◌, ◌+◌, ◌^◌, ◌≤◌, ◌<◌, length};
ghost use Rattle.images.specs.Image.{le16_at, le32_at, header_ok, area_after_def, area_in_def, entries, hash_of, image_in_def};

// Where the entries of an image's TLV area stand in its region.
#[derive(Clone, Copy, Debug, PartialEq, Eq)]
pub struct Area {
    pub start: usize,
    pub stop: usize,
}

// An image's version, as its header has it.
#[derive(Clone, Copy, Debug, PartialEq, Eq)]
pub struct Version {
    pub major: u8,
    pub minor: u8,
    pub revision: usize,
}

// A region's image: its version, and where its hash stands in the region.
#[derive(Clone, Copy, Debug, PartialEq, Eq)]
pub struct Image {
    pub version: Version,
    pub hash: usize,
}

// The number in two bytes of s from place at on, the low one first; a byte past the end counts as 0. le32 is two of them in one line: a width as a
// parameter would be no plainer, since it takes a loop.
fn le16(s: &[u8], at: usize) -> usize
    requires { at + 1 < 2 ^ 64 }
    ensures { (result ≡ le16_at s.now at) × (result < 65536) }
{
    usize::from(laws::byte_at(s, at)) + usize::from(laws::byte_at(s, at + 1)) * 256
}

// The number in four bytes of s from place at on, the low one first; a byte past the end counts as 0.
fn le32(s: &[u8], at: usize) -> usize
    requires { at + 3 < 2 ^ 64 }
    ensures { (result ≡ le32_at s.now at) × (result < 4294967296) }
{
    le16(s, at) + le16(s, at + 2) * 65536
}

// Whether a region passes the header check.
#[tactic(auto, using(laws::proofs::Tests::tests), unfolding(crate::specs::Image::header_ok))]
fn header_passes(region: &[u8]) -> bool
    ensures { result ≡ header_ok region.now }
{
    le32(region, 0) == 0x96F3B83D
        && le32(region, 4) == 0
        && le16(region, 10) == 0
        && le32(region, 16) == 0
}

// Where the entries stand after header and body of these two sizes.
#[tactic(auto, using(laws::proofs::Tests::tests), unfolding(crate::specs::Image::area_after_def))]
fn area_after(region: &[u8], header: usize, body: usize) -> Option<Area>
    requires { (header < 65536) × (body < 4294967296) }
    ensures { result ≡ area_after_def region.now (header + body) }
{
    let end = header + body;
    if region.len() < end + 4 || le16(region, end) != 0x6907 {
        return None;
    }
    let total = le16(region, end + 2);
    if total < 4 || region.len() < end + total {
        return None;
    }
    Some(Area {
        start: end + 4,
        stop: end + total,
    })
}

// Where the entries of a region's area stand.
#[tactic(auto, using(laws::proofs::Tests::tests), unfolding(crate::specs::Image::area_in_def))]
fn area_in(region: &[u8]) -> Option<Area>
    ensures { result ≡ area_in_def region.now }
{
    if !header_passes(region) {
        return None;
    }
    let header = le16(region, 8);
    if header < 32 {
        return None;
    }
    area_after(region, header, le32(region, 12))
}

// Where the one SHA-256 entry of an area has its 32 bytes; none where there is no such, or the entries are not well formed. An entry's length
// says where the next one starts.
fn find_hash(s: &[u8], area: Area) -> Option<usize>
    requires { (area.start ≤ area.stop) × (area.stop ≤ length s.now) }
    ensures { result ≡ hash_of (entries s.now area.start area.stop) }
{
    let mut at = area.start;
    let mut hash = None;
    while at < area.stop {
        if area.stop - at < 4 {
            return None;
        }
        let kind = le16(s, at);
        let size = le16(s, at + 2);
        let place = at + 4;
        if area.stop - place < size {
            return None;
        }
        if kind == 0x10 {
            if size != 32 || hash.is_some() {
                return None;
            }
            hash = Some(place);
        }
        at = place + size;
    }
    hash
}

// The image of a region.
#[tactic(auto, unfolding(crate::specs::Image::image_of, crate::specs::Image::image_with))]
pub fn image_in(region: &[u8]) -> Option<Image>
    ensures { result ≡ image_in_def region.now }
{
    let area = area_in(region)?;
    let hash = find_hash(region, area)?;
    let version = Version {
        major: laws::byte_at(region, 20),
        minor: laws::byte_at(region, 21),
        revision: le16(region, 22),
    };
    Some(Image { version, hash })
}
