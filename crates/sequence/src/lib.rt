// The number after a sequence number.
#![tactic(auto)]

ghost use Rattle.std.specs.Prelude.{◌≡◌};
ghost use Rattle.sequence.specs.Sequence.{next_sequence_def};

// The sequence number after this one.
#[tactic(auto, unfolding(crate::specs::Sequence::next_sequence_def))]
pub fn next_sequence(sequence: u8) -> u8
    ensures { result ≡ next_sequence_def sequence }
{
    sequence.wrapping_add(1)
}
