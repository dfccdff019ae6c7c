// The upload slot in the lent memory: what an upload request comes to is carried out there, and the slot is erased.
#![tactic(auto, using(laws::proofs::Tests::tests))]

ghost use Rattle.std.specs.Prelude.{◌≡◌, true, false, ℕ, ◌+◌, ◌≤◌, length, is_some};
ghost use Rattle.laws.specs.Parts.{Within};
ghost use Rattle.session.specs.Session.{region_ok, session_ok};
ghost use Rattle.rules.specs.Plan.{mis_sized_def, plan_of};
ghost use Rattle.slot.specs.Act.{Act, blank, tag_kept, data_in, act_of};
ghost use Rattle.slot.specs.Store.{state_in, Did};

use laws::Run;
use reason::Reason;
use rules::{Plan, Upload};
use session::{Session, Slot};

// The upload slot of a lent memory, with the session and its tag, which is lent too. That the slot is possible is asked by the methods that need
// it and is no fact of the store, which is made of parts that are not tested yet.
#[derive(Drop)]
pub struct Store<'a> {
    pub slot: Slot,
    pub session: Session,
    pub tag: &'a mut [u8; 32],
    pub memory: &'a mut [u8],
}

// Sets every byte of the slot to 255.
#[tactic(auto, using(laws::proofs::Tests::tests), unfolding(session::specs::Session::region_ok))]
fn clear(slot: Slot, memory: &mut [u8])
    requires { region_ok slot (length memory.old) ≡ true }
    ensures { memory.new ≡ blank slot memory.old }
{
    memory[slot.start..slot.start + slot.size].fill(255);
}

// The tag that a session keeps: the request's 32 bytes, or zeros where it has none.
#[tactic(auto, using(laws::proofs::Tests::tests), unfolding(crate::specs::Act::tag_kept, laws::specs::Parts::bytes_in, rules::specs::Plan::mis_sized_def))]
fn kept_tag(source: &[u8], sha: Option<Run>) -> [u8; 32]
    requires within { Within source.now sha }
    requires sha_value { mis_sized_def sha ≡ false }
    ensures { result ≡ tag_kept source.now sha }
{
    let mut tag = [0u8; 32];
    if let Some(run) = sha {
        tag.copy_from_slice(run.of(source));
    }
    tag
}

impl Store<'_> {
    // Puts data at the session's place in the slot, whatever offset the request named.
    #[tactic(auto, using(laws::proofs::Tests::tests), unfolding(session::specs::Session::region_ok, crate::specs::Act::done))]
    fn append(&mut self, data: &[u8])
        requires memory_value { region_ok self.old.slot (length self.old.memory.now) ≡ true }
        requires room { self.old.session.place + length «data».now ≤ self.old.slot.size }
        ensures { (off : ℕ) → Did self.old self.new (Act.append off «data».now) }
    {
        let at = self.slot.start + self.session.place;
        let memory = &mut *self.memory;
        laws::put(memory, at, data);
        self.session.place += data.len();
    }

    // Starts a session of this length with an upload request's tag, or none: the slot is all 255 but for the request's data at its start.
    #[tactic(auto, using(laws::proofs::Tests::tests), unfolding(session::specs::Session::region_ok, crate::specs::Act::done))]
    fn start(&mut self, len: usize, source: &[u8], upload: Upload)
        requires memory_value { region_ok self.old.slot (length self.old.memory.now) ≡ true }
        requires data_inside { (upload.data.start + upload.data.len ≤ length source.now) × (upload.data.len ≤ self.old.slot.size) }
        requires tag_inside { Within source.now upload.sha × (mis_sized_def upload.sha ≡ false) }
        ensures { Did self.old self.new (Act.start len (is_some upload.sha) (tag_kept source.now upload.sha) (data_in source.now upload)) }
    {
        clear(self.slot, self.memory);
        let data = upload.data.of(source);
        laws::put(self.memory, self.slot.start, data);
        *self.tag = kept_tag(source, upload.sha);
        self.session = Session {
            running: true,
            length: len,
            place: data.len(),
            tagged: upload.sha.is_some(),
        };
    }

    // Ends the session, whichever it was.
    #[tactic(auto, using(laws::proofs::Tests::tests), unfolding(crate::specs::Act::done))]
    pub fn end(&mut self)
        ensures { Did self.old self.new Act.end }
    {
        *self.tag = [0u8; 32];
        self.session = Session::closed();
    }

    // Sets the whole slot to 255 and ends the session, whichever it was.
    #[tactic(auto, using(laws::proofs::Tests::tests), unfolding(crate::specs::Act::done))]
    pub fn erase(&mut self)
        requires { region_ok self.old.slot (length self.old.memory.now) ≡ true }
        ensures { Did self.old self.new Act.erase }
    {
        clear(self.slot, self.memory);
        self.end();
    }

    // Carries out what an upload request came to: all stays, or the slot takes the data.
    #[tactic(auto, using(laws::proofs::Tests::tests), unfolding(crate::specs::Act::done, crate::specs::Act::act_of))]
    pub fn carry_out(&mut self, source: &[u8], upload: Upload, plan: Result<Plan, Reason>)
        requires memory_value { region_ok self.old.slot (length self.old.memory.now) ≡ true }
        requires session_value { session_ok self.old.slot self.old.session ≡ true }
        requires plan_value { plan ≡ plan_of self.old.slot (state_in self.old) source.now upload }
        requires size_in_bounds { upload.data.start + upload.data.len ≤ length source.now }
        requires within { Within source.now upload.sha }
        ensures { Did self.old self.new (act_of source.now upload plan) }
    {
        let Ok(plan) = plan else {
            return;
        };
        match plan {
            Plan::Tell(_) => {}
            Plan::Append => self.append(upload.data.of(source)),
            Plan::Start(length) => self.start(length, source, upload),
        }
    }
}
