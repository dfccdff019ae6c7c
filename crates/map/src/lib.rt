// The one walk over a packet's map: its known keys become fields, its other keys are skipped, and anything else is malformed.
#![tactic(auto)]

ghost use Rattle.std.specs.Prelude.{◌≡◌, None, Some, MatchOption};
ghost use Rattle.fields.specs.Fields.{nothing};
ghost use Rattle.map.specs.Walk.{entered, pair_at, pairs, map_at_def, map_from_def};

use cbor::Item;
use fields::{Fields, Key, Kind};
use laws::Run;

// Enters the value of a known key, which comes for the first time and with its type; gives the place after it, or none where this is malformed.
#[tactic(auto, using(fields::proofs::Types::types_apart), unfolding(crate::specs::Walk::entered, laws::specs::Choice::pick))]
fn enter(k: Key, item: Item, f: &mut Fields) -> Option<usize>
    ensures { MatchOption result (entered k item.value item.next f.old ≡ None) (λ at. entered k item.value item.next f.old ≡ Some (at, f.new)) }
{
    if f.holds(k) {
        return None;
    }
    if fields::type_of(item.value) != fields::type_for(k) {
        return None;
    }
    f.store(k, item.value);
    Some(item.next)
}

// Reads and enters the pair at a place of s; another key than the known ones is skipped.
#[tactic(auto, using(cbor::proofs::Laws::head_place), unfolding(crate::specs::Walk::keyed, crate::specs::Walk::valued, laws::specs::Choice::pick))]
fn pair_at(kind: Kind, s: &[u8], at: usize, f: &mut Fields) -> Option<usize>
    ensures { MatchOption result (pair_at kind s.now at f.old ≡ None) (λ to. pair_at kind s.now at f.old ≡ Some (to, f.new)) }
{
    let head = cbor::head_at(s, at)?;
    if head.major != 3 {
        return None;
    }
    // Casts between u64 and usize, both of 64 bits: TryFrom would be no plainer, since it adds a case that never comes.
    let left = (s.len() - head.next) as u64;
    if left < head.argument {
        return None;
    }
    let name = Run {
        start: head.next,
        len: head.argument as usize,
    };
    let item = cbor::item_at(s, name.start + name.len)?;
    let Some(key) = fields::key_of(kind, name.of(s)) else {
        return Some(item.next);
    };
    enter(key, item, f)
}

// Reads and enters n pairs of s from a place on.
#[tactic(auto, using(crate::proofs::Ways::pairs_end, crate::proofs::Ways::pairs_bad, crate::proofs::Ways::pairs_on))]
fn walk(kind: Kind, s: &[u8], n: u64, from: usize, f: &mut Fields) -> Option<usize>
    ensures { MatchOption result (pairs kind s.now n from f.old ≡ None) (λ to. pairs kind s.now n from f.old ≡ Some (to, f.new)) }
{
    let mut at = from;
    for _ in 0..n {
        at = pair_at(kind, s, at, f)?;
    }
    Some(at)
}

// Reads the map at a place of s, whatever follows it: its known pairs are entered. Gives the place after it, or none where it is malformed.
#[tactic(auto, unfolding(crate::specs::Walk::map_at_def, crate::specs::Walk::map_after, laws::specs::Choice::pick))]
pub fn map_at(kind: Kind, s: &[u8], from: usize, f: &mut Fields) -> Option<usize>
    ensures { MatchOption result (map_at_def kind s.now from f.old ≡ None) (λ to. map_at_def kind s.now from f.old ≡ Some (to, f.new)) }
{
    let head = cbor::head_at(s, from)?;
    if head.major != 5 {
        return None;
    }
    walk(kind, s, head.argument, head.next, f)
}

// Reads the map of a packet whose payload begins at a place of s into fields of which nothing has been read: they are lent, so that none are copied.
// None where it is malformed.
#[tactic(auto, unfolding(crate::specs::Walk::map_from_def, crate::specs::Walk::ending_at, laws::specs::Choice::pick))]
pub fn map_from(kind: Kind, s: &[u8], from: usize, f: &mut Fields) -> Option<()>
    requires { f.old ≡ nothing }
    ensures { MatchOption result (map_from_def kind s.now from ≡ None) (λ _. map_from_def kind s.now from ≡ Some f.new) }
{
    if s.len() != from {
        let end = map_at(kind, s, from, f)?;
        if end != s.len() {
            return None;
        }
    }
    Some(())
}
