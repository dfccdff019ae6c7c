// The refusals, one for each row of the table "What the numbers mean", and the number that the table gives each.
#![tactic(auto)]

ghost use Rattle.std.specs.Prelude.{◌≡◌};
ghost use Rattle.refusal.specs.Number.{number_of};

// Why a call refused its input.
#[derive(Clone, Copy, Debug, PartialEq, Eq)]
pub enum Refusal {
    // The slot region, the session record or the collector's record is impossible.
    Impossible,
    // The line is over 127 bytes.
    LineTooLong,
    // The line is under 3 bytes, has no marker, or no 0A at its end.
    NoFrame,
    // The text is not well-formed Base64.
    BadText,
    // A partial frame, and no packet open.
    NoPacketOpen,
    // An initial frame with under 2 raw bytes, or total under 10.
    BadTotal,
    // The body is longer than the packet buffer.
    BodyTooLong,
    // More bytes came than total says.
    TooManyBytes,
    // The CRC differs.
    CrcDiffers,
    // Not a packet of the kind asked for.
    WrongKind,
    // The reply buffer is under 32 bytes.
    ReplyTooShort,
    // What the sender or a writer cannot send, or a lump over 256 bytes.
    Unsendable,
    // The frame number is not below the count.
    NoSuchFrame,
}

impl From<Refusal> for u32 {
    // The table's number of a refusal.
    ghost from_gives = { λ r n. n ≡ number_of r };

    fn from(r: Refusal) -> u32 {
        match r {
            Refusal::Impossible => 1,
            Refusal::LineTooLong => 2,
            Refusal::NoFrame => 3,
            Refusal::BadText => 4,
            Refusal::NoPacketOpen => 5,
            Refusal::BadTotal => 6,
            Refusal::BodyTooLong => 7,
            Refusal::TooManyBytes => 8,
            Refusal::CrcDiffers => 9,
            Refusal::WrongKind => 10,
            Refusal::ReplyTooShort => 11,
            Refusal::Unsendable => 12,
            Refusal::NoSuchFrame => 13,
        }
    }
}
