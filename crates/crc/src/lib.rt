// The frame's CRC-16 over a run of bytes, continued from where an earlier run left it: a byte at a time, by a table that is taken once a
// call and lent to the step.
#![tactic(auto)]

mod table;

ghost use Rattle.std.specs.Prelude.{◌≡◌};
ghost use Rattle.crc.specs.Crc.{byte, onward};
ghost use Rattle.crc.specs.Inner.{Entries};

// The table of the registers: for each byte the register after it, from 0.
// The decoder and the encoder have their own: one type for all three is no plainer, since a trait would have to say of what each has the entries.
#[derive(Drop)]
struct Registers {
    entries: [u16; 256],
    ghost each: { Entries entries },
}

impl Registers {
    // The table, as it stands in the program.
    fn new() -> Self {
        Registers {
            entries: table::TABLE,
        }
    }

    // The register after the byte k, from 0.
    fn look(&self, k: u8) -> u16
        ensures { result ≡ byte 0 k }
    {
        self.entries[usize::from(k)]
    }

    // The register after one byte: its low half moves up, and its high half and the byte go in by the table.
    fn step(&self, c: u16, b: u8) -> u16
        ensures { result ≡ byte c b }
    {
        (c % 256 * 256) ^ self.look((c / 256) as u8 ^ b)
    }
}

// The CRC c continued over the bytes of s: from 0, the CRC of s.
pub fn continued(c: u16, s: &[u8]) -> u16
    ensures { result ≡ onward c s.now }
{
    let table = Registers::new();
    let mut r = c;
    for b in s {
        r = table.step(r, *b);
    }
    r
}
