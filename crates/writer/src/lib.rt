// A writer of bytes: a lent buffer, and the place from which the next bytes go into it. Whatever is written out of parts takes one along.
#![tactic(auto)]

ghost use Rattle.std.specs.Prelude.{◌≡◌, [], ◌∷◌};
ghost use Rattle.writer.specs.Writer.{HasRoom, Wrote};

// A lent buffer, and the place from which the next bytes go into it.
#[derive(Drop)]
pub struct Writer<'a> {
    pub buf: &'a mut [u8],
    pub at: usize,
}

impl Writer<'_> {
    // Writes one byte.
    pub fn byte(&mut self, b: u8)
        requires { HasRoom self.old (b ∷ []) }
        ensures { Wrote self.old self.new (b ∷ []) }
    {
        self.buf[self.at] = b;
        self.at += 1;
    }

    // Writes the bytes of x.
    pub fn bytes(&mut self, x: &[u8])
        requires { HasRoom self.old x.now }
        ensures { Wrote self.old self.new x.now }
    {
        laws::put(self.buf, self.at, x);
        self.at += x.len();
    }
}
