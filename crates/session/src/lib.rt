// The memory's two regions and the session record: which are possible, and configuring.
#![tactic(auto, using(laws::proofs::Tests::tests))]

ghost use Rattle.std.specs.Prelude.{◌≡◌, ◌+◌, ◌^◌, ◌<◌};
ghost use Rattle.laws.specs.Choice.{both};
ghost use Rattle.session.specs.Session.{lies_in_def, region_ok, overlapping, layout_ok, session_ok, closed, said, configured};

use refusal::Refusal;

// A slot: where it starts in the memory, and its size.
#[derive(Clone, Copy, Debug, PartialEq, Eq)]
pub struct Slot {
    pub start: usize,
    pub size: usize,
}

// The memory's two regions: slot 0, which is only read, and slot 1, the upload slot.
#[derive(Clone, Copy, Debug, PartialEq, Eq)]
pub struct Layout {
    pub slot0: Slot,
    pub slot1: Slot,
}

// The session record. Of a closed one nothing else counts; the calls give it as zeros. Its flags stand beside their values, and no Option holds
// them: C's record keeps its four numbers over a call that leaves the session as it was.
#[derive(Clone, Copy, Debug, PartialEq, Eq)]
pub struct Session {
    pub running: bool,
    // how long the whole image is to be
    pub length: usize,
    // the next expected offset
    pub place: usize,
    // whether it has a tag, which stands beside the record
    pub tagged: bool,
}

impl Slot {
    // Whether the slot lies in a memory of this many bytes. The sum of start and size could wrap, so none is made.
    fn lies_in(self, room: usize) -> bool
        ensures { result ≡ lies_in_def self room }
    {
        self.size <= room && self.start <= room - self.size
    }

    // Whether the slot is possible as the upload slot of a memory of this many bytes.
    #[tactic(auto, using(laws::proofs::Tests::tests), unfolding(crate::specs::Session::region_ok))]
    fn is_possible(self, room: usize) -> bool
        ensures { result ≡ region_ok self room }
    {
        1 <= self.size && self.size <= 1048576 && self.lies_in(room)
    }

    // Whether two slots have a byte in common.
    #[tactic(auto, using(laws::proofs::Tests::tests), unfolding(crate::specs::Session::overlapping))]
    fn overlaps(self, other: Slot) -> bool
        requires { (self.start + self.size < 2 ^ 64) × (other.start + other.size < 2 ^ 64) }
        ensures { result ≡ overlapping self other }
    {
        let end = self.start + self.size;
        let other_end = other.start + other.size;
        other.start < end && self.start < other_end && self.size != 0 && other.size != 0
    }
}

impl Layout {
    // Whether both regions are possible, in a memory of this many bytes.
    #[tactic(auto, using(laws::proofs::Tests::tests), unfolding(crate::specs::Session::region_ok, crate::specs::Session::layout_ok))]
    fn is_possible(self, room: usize) -> bool
        ensures { result ≡ layout_ok self room }
    {
        self.slot1.is_possible(room) && self.slot0.lies_in(room) && !self.slot0.overlaps(self.slot1)
    }
}

impl Session {
    // The closed session record.
    pub fn closed() -> Session
        ensures { result ≡ closed }
    {
        Session {
            running: false,
            length: 0,
            place: 0,
            tagged: false,
        }
    }

    // Whether the record is possible for a slot.
    #[tactic(auto, using(laws::proofs::Tests::tests), unfolding(crate::specs::Session::session_ok))]
    fn is_possible(self, slot: Slot) -> bool
        ensures { result ≡ session_ok slot self }
    {
        !self.running
            || 1 <= self.length
                && self.length <= slot.size
                && 1 <= self.place
                && self.place <= self.length
    }
}

// Whether both regions and the session are possible, in a memory of this many bytes.
pub fn possible(layout: Layout, session: Session, room: usize) -> bool
    ensures { result ≡ both (layout_ok layout room) (session_ok layout.slot1 session) }
{
    layout.is_possible(room) && session.is_possible(layout.slot1)
}

// The two regions, or refusal 1 where one does not lie in the memory as it has to, or they overlap.
#[tactic(auto, using(laws::proofs::Tests::tests), unfolding(crate::specs::Session::configured))]
pub fn configure(layout: Layout, room: usize) -> Result<Layout, Refusal>
    ensures { said result ≡ configured layout room }
{
    if layout.is_possible(room) {
        Ok(layout)
    } else {
        Err(Refusal::Impossible)
    }
}
