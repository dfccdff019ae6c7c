// The upload rules: what an upload request comes to, by the checks in their order.
#![tactic(auto, using(laws::proofs::Tests::tests))]

ghost use Rattle.std.specs.Prelude.{◌≡◌, ◌+◌, ◌≤◌, List, true, ℕ, length};
ghost use Rattle.std.specs.Option.{ForSome};
ghost use Rattle.laws.specs.Parts.{Within};
ghost use Rattle.session.specs.Session.{session_ok, state_of};
ghost use Rattle.rules.specs.Plan.{above, mis_sized_def, same_tag, plan_later_def, plan_sized_def, plan_length_def, plan_first_def, plan_of};

use laws::Run;
use reason::Reason;
use session::{Session, Slot};

// An upload request: the offset, where its data stands in the bytes that it came in, and the keys that count at offset 0.
#[derive(Clone, Copy, Debug, PartialEq, Eq)]
pub struct Upload {
    pub off: u64,
    pub data: Run,
    pub length: Option<u64>,
    pub image: Option<u64>,
    pub sha: Option<Run>,
    pub upgrade: bool,
}

// What an upload request that is not refused comes to.
#[derive(Clone, Copy, Debug, PartialEq, Eq)]
pub enum Plan {
    // Answered with success and this offset; all stays.
    Tell(usize),
    // The data goes to the slot's next place.
    Append,
    // The slot is set to 255, the data goes to its start, and a session of this length begins.
    Start(usize),
}

// An upload request as the checks see it: beside the slot, the session and its tag, and with the bytes that it came in.
#[derive(Clone, Copy)]
struct Asked<'a> {
    slot: Slot,
    session: Session,
    tag: &'a [u8; 32],
    source: &'a [u8],
    upload: Upload,
    // the session is possible
    ghost possible: { session_ok slot session ≡ true },
    // the request's tag lies in the bytes that it came in
    ghost within: { ForSome upload.sha (λ run. run.start + run.len ≤ length source.now) },
}

// Whether a number that is there is above n.
#[tactic(auto, using(laws::proofs::Tests::tests), unfolding(crate::specs::Plan::above))]
pub fn is_above(n: u64, number: Option<u64>) -> bool
    ensures { result ≡ above n number }
{
    number.is_some_and(|v| n < v)
}

// Whether a tag that is there is not of 32 bytes.
#[tactic(auto, using(laws::proofs::Tests::tests), unfolding(crate::specs::Plan::mis_sized_def))]
fn is_mis_sized(sha: Option<Run>) -> bool
    ensures { result ≡ mis_sized_def sha }
{
    sha.is_some_and(|run| run.len != 32)
}

impl Asked<'_> {
    // Whether the request's tag is the open session's.
    #[tactic(auto, using(laws::proofs::Tests::tests), unfolding(crate::specs::Plan::same_tag, laws::specs::Parts::bytes_in))]
    fn has_same_tag(&self) -> bool
        ensures { (m : List ℕ) → result ≡ same_tag (state_of m self.now.tag.now self.now.session) self.now.source.now self.now.upload.sha }
    {
        let Some(sha) = self.upload.sha else {
            return false;
        };
        let tag = self.tag;
        let source = self.source;
        self.session.running && self.session.tagged && laws::equal(tag, sha.of(source))
    }

    // What a request with an offset above 0 comes to. The sum of place and data could wrap, so none is made.
    #[tactic(auto, using(laws::proofs::Tests::tests), unfolding(crate::specs::Plan::plan_later_def, session::specs::Session::session_ok))]
    fn plan_later(&self) -> Result<Plan, Reason>
        ensures { (m : List ℕ) → result ≡ plan_later_def (state_of m self.now.tag.now self.now.session) self.now.upload }
    {
        if !self.session.running {
            return Ok(Plan::Tell(0));
        }
        // Casts between usize and u64, both of 64 bits, here and below: TryFrom would be no plainer, since it adds a case that never comes.
        if self.upload.off != self.session.place as u64 {
            return Ok(Plan::Tell(self.session.place));
        }
        if self.session.length - self.session.place < self.upload.data.len {
            return Err(Reason::BeyondLength);
        }
        Ok(Plan::Append)
    }

    // What a request at offset 0 comes to, whose length is one that the slot has.
    #[tactic(auto, using(laws::proofs::Tests::tests), unfolding(crate::specs::Plan::plan_sized_def))]
    fn plan_sized(&self, length: usize) -> Result<Plan, Reason>
        ensures { (m : List ℕ) → result ≡ plan_sized_def (state_of m self.now.tag.now self.now.session) self.now.source.now self.now.upload length }
    {
        if length < self.upload.data.len {
            return Err(Reason::DataTooLong);
        }
        let same = self.has_same_tag();
        if same && length != self.session.length {
            return Err(Reason::OtherLength);
        }
        if self.upload.upgrade {
            return Err(Reason::Upgrade);
        }
        if same {
            return Ok(Plan::Tell(self.session.place));
        }
        Ok(Plan::Start(length))
    }

    // What a request at offset 0 comes to.
    #[tactic(auto, using(laws::proofs::Tests::tests), unfolding(crate::specs::Plan::plan_first_def, crate::specs::Plan::plan_length_def))]
    fn plan_first(&self) -> Result<Plan, Reason>
        ensures { (m : List ℕ) → result ≡ plan_first_def self.now.slot (state_of m self.now.tag.now self.now.session) self.now.source.now self.now.upload }
    {
        if is_above(0, self.upload.image) {
            return Err(Reason::OtherImage);
        }
        let length = self.upload.length.ok_or(Reason::NoLength)?;
        if length == 0 {
            return Err(Reason::ZeroLength);
        }
        if (self.slot.size as u64) < length {
            return Err(Reason::AboveSlot);
        }
        if is_mis_sized(self.upload.sha) {
            return Err(Reason::TagSize);
        }
        self.plan_sized(length as usize)
    }
}

// What an upload request comes to. Its data and its tag are named by their places in the bytes that it came in. That the tag lies there is asked, and
// no fact of Upload's: those bytes are lent beside it, and another crate reads it out of them.
#[tactic(auto, using(laws::proofs::Tests::tests), unfolding(crate::specs::Plan::plan_of))]
pub fn plan_upload(
    slot: Slot,
    session: Session,
    tag: &[u8; 32],
    source: &[u8],
    upload: Upload,
) -> Result<Plan, Reason>
    requires session_value { session_ok slot session ≡ true }
    requires within { Within source.now upload.sha }
    ensures { (m : List ℕ) → result ≡ plan_of slot (state_of m tag.now session) source.now upload }
{
    if 4294967295 < upload.off {
        return Err(Reason::OffsetTooLarge);
    }
    if is_above(4294967295, upload.length) {
        return Err(Reason::LengthTooLarge);
    }
    if upload.data.len == 0 {
        return Err(Reason::EmptyData);
    }
    let asked = Asked {
        slot,
        session,
        tag,
        source,
        upload,
    };
    if 0 < upload.off {
        asked.plan_later()
    } else {
        asked.plan_first()
    }
}
