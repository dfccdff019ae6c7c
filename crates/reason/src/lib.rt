// Why a request is answered with an rc other than 0, and the rc of each reason. Whoever finds a fault names the reason; the number is given
// here alone.
#![tactic(auto)]

ghost use Rattle.std.specs.Prelude.{◌≡◌};
ghost use Rattle.reason.specs.Rc.{rc_of_def};

// What is wrong with a request.
#[derive(Clone, Copy, Debug, PartialEq, Eq)]
pub enum Reason {
    // Its op, group and command are no command together.
    UnknownCommand,
    // Its map is malformed.
    MalformedMap,
    // An echo without "d".
    NoText,
    // An erase of another slot than 1.
    OtherSlot,
    // An upload without "off".
    NoOffset,
    // An upload without "data".
    NoData,
    // "off" above 4,294,967,295.
    OffsetTooLarge,
    // "len" above 4,294,967,295.
    LengthTooLarge,
    // Data of zero bytes.
    EmptyData,
    // "off" plus data beyond the session's length.
    BeyondLength,
    // "image" present and not 0.
    OtherImage,
    // "len" missing at offset 0.
    NoLength,
    // "len" 0 at offset 0.
    ZeroLength,
    // "len" above the slot's size.
    AboveSlot,
    // "sha" not of 32 bytes.
    TagSize,
    // Data longer than "len".
    DataTooLong,
    // The open session's tag with another length.
    OtherLength,
    // "upgrade" true.
    Upgrade,
    // An echo whose reply is longer than its buffer.
    ReplyTooLong,
}

impl From<Reason> for u8 {
    // The rc of a reason.
    ghost from_gives = { λ r n. n ≡ rc_of_def r };

    fn from(r: Reason) -> u8 {
        match r {
            Reason::UnknownCommand => 8,
            Reason::MalformedMap => 3,
            Reason::NoText => 3,
            Reason::OtherSlot => 3,
            Reason::NoOffset => 3,
            Reason::NoData => 3,
            Reason::OffsetTooLarge => 3,
            Reason::LengthTooLarge => 3,
            Reason::EmptyData => 3,
            Reason::BeyondLength => 3,
            Reason::OtherImage => 3,
            Reason::NoLength => 3,
            Reason::ZeroLength => 3,
            Reason::AboveSlot => 2,
            Reason::TagSize => 3,
            Reason::DataTooLong => 3,
            Reason::OtherLength => 6,
            Reason::Upgrade => 8,
            Reason::ReplyTooLong => 7,
        }
    }
}
