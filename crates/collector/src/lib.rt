// The line collector: bytes come in lumps, as a serial driver has them, and each line is handed on when its 0A comes.
#![tactic(auto)]

ghost use Rattle.std.specs.Prelude.{◌≡◌, ◌+◌, ◌≤◌, ◌<◌, false, length, drop, MatchOption};
ghost use Rattle.collector.specs.Collector.{most, before, has_newline, impossible, nothing, empty, longer, ended, said, saying, outcome, stepped, collect};

use refusal::Refusal;

// The most bytes that stand before a line's 0A.
pub const MOST: usize = frame::LONGEST - 1;

// The longest lump.
pub const LONGEST_LUMP: usize = 256;

// The collector's record between two steps. The C interface lends all its bytes and any count: so the held bytes are an array and a count beside it, with
// no invariant, and what the methods ask of the count stands in their clauses.
#[derive(Clone, Copy, Debug, PartialEq, Eq)]
pub struct Collector {
    // The bytes of the line that has begun stand at the start of this array; what stands behind them is not looked at.
    pub held: [u8; MOST],
    // How many bytes are held.
    pub count: usize,
    // The line that has begun is too long: its bytes are thrown away up to and including its 0A.
    pub skipping: bool,
}

// What a step gives, the place of the lump to go on from, and the collector for the next step.
#[derive(Clone, Copy, Debug, PartialEq, Eq)]
pub struct Step {
    // A line of this many bytes, its 0A included, stands at the start of the lent array; none: the lump is used up. Or the record or the lump was
    // refused, and nothing was taken; or a line that is too long has ended.
    pub got: Result<Option<usize>, Refusal>,
    pub place: usize,
    pub collector: Collector,
}

// Where the first 0A stands among some bytes.
fn first_newline(s: &[u8]) -> Option<usize>
    ensures { MatchOption result (has_newline s.now ≡ false) (λ n. (n ≡ before s.now) × (n < length s.now)) }
{
    memchr::memchr(frame::NEWLINE, s)
}

impl Collector {
    // A collector that holds nothing, inside a line that is too long or not: a flag beside the count, since C's record has both.
    fn nothing(skipping: bool) -> Collector
        ensures { result ≡ nothing skipping }
    {
        Collector {
            held: [0u8; MOST],
            count: 0,
            skipping,
        }
    }

    // A collector that holds nothing.
    pub fn new() -> Collector
        ensures { result ≡ empty }
    {
        Collector::nothing(false)
    }

    // The collector with the bytes x more of its line, none of them 0A.
    fn with(self, x: &[u8]) -> Collector
        requires { self.count ≤ most }
        ensures { result ≡ longer self x.now }
    {
        if self.skipping {
            return self;
        }
        let there = self.count + x.len();
        if MOST < there {
            return Collector::nothing(true);
        }
        let mut held = self.held;
        laws::put(&mut held, self.count, x);
        Collector {
            held,
            count: there,
            skipping: false,
        }
    }

    // The line of the collector ends after the bytes x: it goes to the start of the lent array, unless it is too long.
    fn end(self, x: &[u8], line: &mut [u8; frame::LONGEST]) -> Result<Option<usize>, Refusal>
        requires { self.count ≤ most }
        ensures { (said result, line.new) ≡ saying (ended self x.now) line.old }
    {
        if self.skipping {
            return Err(Refusal::LineTooLong);
        }
        let last = self.count + x.len();
        if MOST < last {
            return Err(Refusal::LineTooLong);
        }
        laws::put(line, 0, &self.held[..self.count]);
        laws::put(line, self.count, x);
        line[last] = frame::NEWLINE;
        Ok(Some(last + 1))
    }

    // Whether the collector holds more bytes than a line can have before its 0A, or an 0A.
    fn is_impossible(self) -> bool
        ensures { result ≡ impossible self }
    {
        MOST < self.count || self.held[..self.count].contains(&frame::NEWLINE)
    }

    // A step through a lump that is no longer than it may be.
    fn step(self, lump: &[u8], at: usize, line: &mut [u8; frame::LONGEST]) -> Step
        requires { self.count ≤ most }
        ensures { outcome result line.new ≡ stepped self (length lump.now) at (drop at lump.now) line.old }
    {
        let from = at.min(lump.len());
        let rest = &lump[from..];
        match first_newline(rest) {
            None => Step {
                got: Ok(None),
                place: lump.len(),
                collector: self.with(rest),
            },
            Some(n) => Step {
                got: self.end(&rest[..n], line),
                place: from + n + 1,
                collector: Collector::new(),
            },
        }
    }

    // Goes on in a lump from a place: to the end of the next line, or to the lump's end.
    pub fn collect(self, lump: &[u8], at: usize, line: &mut [u8; frame::LONGEST]) -> Step
        ensures { outcome result line.new ≡ collect self lump.now at line.old }
    {
        if self.is_impossible() {
            return Step {
                got: Err(Refusal::Impossible),
                place: at,
                collector: self,
            };
        }
        if LONGEST_LUMP < lump.len() {
            return Step {
                got: Err(Refusal::Unsendable),
                place: at,
                collector: self,
            };
        }
        self.step(lump, at, line)
    }
}
