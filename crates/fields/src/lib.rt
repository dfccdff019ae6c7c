// The keys of a packet's map, by their names, and its fields: what has been read for each key, stored there and read there.
#![tactic(auto)]

ghost use Rattle.std.specs.Prelude.{◌≡◌, ◌<◌};
ghost use Rattle.fields.specs.Keys.{key_of, type_of, type_for_def};
ghost use Rattle.fields.specs.Fields.{index_of, nothing, under, there, first_of, second_of, stored, number_in_def, run_in_def, flag_in_def};

use cbor::Value;
use laws::Run;

// Whose map it is: what differs is which keys are known.
#[derive(Clone, Copy, Debug, PartialEq, Eq)]
pub enum Kind {
    Echo,
    // of a command without keys of its own: reset and the state read
    Bare,
    Upload,
    Erase,
    Reply,
}

// A known key.
#[derive(Clone, Copy, Debug, PartialEq, Eq)]
pub enum Key {
    Text,
    Data,
    Sha,
    Off,
    Len,
    Image,
    Upgrade,
    Slot,
    Rc,
}

// A value's type.
#[derive(Clone, Copy, Debug, PartialEq, Eq)]
pub enum ValueType {
    Unsigned,
    Negative,
    Bytes,
    Text,
    Flag,
    Null,
}

// What has been read for each key.
#[derive(Clone, Copy, Debug, PartialEq, Eq)]
pub struct Fields {
    values: [Option<Value>; 9],
}

// The key of this name in a map of this kind; none where it is not known.
#[tactic(auto, using(laws::proofs::Lists::same_false, crate::proofs::Names::same_read), unfolding(crate::specs::Keys::key_of, laws::specs::Choice::pick))]
pub fn key_of(kind: Kind, name: &[u8]) -> Option<Key>
    ensures { result ≡ key_of kind name.now }
{
    match kind {
        Kind::Echo => match name {
            b"d" => Some(Key::Text),
            _ => None,
        },
        Kind::Bare => None,
        Kind::Upload => match name {
            b"data" => Some(Key::Data),
            b"off" => Some(Key::Off),
            b"len" => Some(Key::Len),
            b"image" => Some(Key::Image),
            b"sha" => Some(Key::Sha),
            b"upgrade" => Some(Key::Upgrade),
            _ => None,
        },
        Kind::Erase => match name {
            b"slot" => Some(Key::Slot),
            _ => None,
        },
        Kind::Reply => match name {
            b"rc" => Some(Key::Rc),
            b"off" => Some(Key::Off),
            b"r" => Some(Key::Text),
            _ => None,
        },
    }
}

// A value's type.
#[tactic(auto, unfolding(crate::specs::Keys::type_of))]
pub fn type_of(v: Value) -> ValueType
    ensures { result ≡ type_of v }
{
    match v {
        Value::Unsigned(_) => ValueType::Unsigned,
        Value::Negative(_) => ValueType::Negative,
        Value::Bytes(_) => ValueType::Bytes,
        Value::Text(_) => ValueType::Text,
        Value::Flag(_) => ValueType::Flag,
        Value::Null => ValueType::Null,
    }
}

// The type listed for a key.
#[tactic(auto, unfolding(crate::specs::Keys::type_for_def))]
pub fn type_for(k: Key) -> ValueType
    ensures { result ≡ type_for_def k }
{
    match k {
        Key::Data | Key::Sha => ValueType::Bytes,
        Key::Off | Key::Len | Key::Image | Key::Slot | Key::Rc => ValueType::Unsigned,
        Key::Text => ValueType::Text,
        Key::Upgrade => ValueType::Flag,
    }
}

// The first number of a value.
#[tactic(auto, unfolding(crate::specs::Fields::first_of, crate::specs::Fields::flag_number_def))]
fn first_of(v: Value) -> u64
    ensures { result ≡ first_of v }
{
    match v {
        Value::Unsigned(n) | Value::Negative(n) => n,
        Value::Bytes(run) | Value::Text(run) => run.start as u64,
        Value::Flag(b) => u64::from(b),
        Value::Null => 0,
    }
}

// The second number of a value.
#[tactic(auto, unfolding(crate::specs::Fields::second_of))]
fn second_of(v: Value) -> u64
    ensures { result ≡ second_of v }
{
    match v {
        Value::Bytes(run) | Value::Text(run) => run.len as u64,
        Value::Unsigned(_) | Value::Negative(_) | Value::Flag(_) | Value::Null => 0,
    }
}

// A key's place among a map's fields.
#[tactic(auto, unfolding(crate::specs::Fields::index_of))]
pub fn place_of(k: Key) -> usize
    ensures { (result ≡ index_of k) × (result < 9) }
{
    k as usize
}

impl Fields {
    // The fields of a map of which nothing has been read.
    pub fn new() -> Fields
        ensures { result ≡ nothing }
    {
        Fields { values: [None; 9] }
    }

    // What has been read for a key.
    fn under(&self, k: Key) -> Option<Value>
        ensures { result ≡ under k self.now }
    {
        self.values[place_of(k)]
    }

    // Whether a value has been read for a key.
    pub fn holds(&self, k: Key) -> bool
        ensures { result ≡ there k self.now }
    {
        self.under(k).is_some()
    }

    // Stores a value under a key.
    #[tactic(auto, unfolding(crate::specs::Fields::stored))]
    pub fn store(&mut self, k: Key, v: Value)
        ensures { self.new ≡ stored k v self.old }
    {
        self.values[place_of(k)] = Some(v);
    }

    // The number under a key: none only where the key has not been there.
    #[tactic(auto, unfolding(crate::specs::Fields::number_in_def, crate::specs::Fields::as_number, crate::specs::Fields::first_of))]
    pub fn number(&self, k: Key) -> Option<u64>
        ensures { result ≡ number_in_def self.now k }
    {
        match self.under(k) {
            Some(Value::Unsigned(n)) => Some(n),
            Some(v) => Some(first_of(v)),
            None => None,
        }
    }

    // The string under a key, bytes or text: none only where the key has not been there.
    #[tactic(auto, unfolding(crate::specs::Fields::run_in_def, crate::specs::Fields::as_run, crate::specs::Fields::first_of, crate::specs::Fields::second_of))]
    pub fn run(&self, k: Key) -> Option<Run>
        ensures { result ≡ run_in_def self.now k }
    {
        match self.under(k) {
            Some(Value::Bytes(run) | Value::Text(run)) => Some(run),
            Some(v) => Some(Run {
                start: first_of(v) as usize,
                len: second_of(v) as usize,
            }),
            None => None,
        }
    }

    // The flag under a key; one that is left out is false.
    #[tactic(auto, unfolding(crate::specs::Fields::flag_in_def, crate::specs::Fields::as_flag, crate::specs::Fields::first_of, crate::specs::Fields::flag_number_def))]
    pub fn flag(&self, k: Key) -> bool
        ensures { result ≡ flag_in_def self.now k }
    {
        match self.under(k) {
            Some(Value::Flag(b)) => b,
            Some(v) => first_of(v) == 1,
            None => false,
        }
    }
}
