ghost use Rattle.std.specs.Prelude.{◌≡◌, ◌+◌, ◌-◌, ◌≤◌, length, min};
ghost use Rattle.floyd_lex.specs.SpotClauses.{IsSpot};

/// A place on the way through a file: an offset, how many line feeds stand before it, and where its line begins.
#[derive(Clone, Copy)]
pub struct Spot {
    pub at: usize,
    pub feeds: usize,
    pub begin: usize,
}

impl Spot {
    /// The place n bytes further on.
    pub fn pass(self, bytes: &[u8], n: usize) -> Spot
        requires spot { IsSpot bytes.now self }
        requires within { self.at + n ≤ length bytes.now }
        ensures spot { IsSpot bytes.now result }
        ensures at { result.at ≡ self.at + n }
    {
        let mut spot = self;
        let end = self.at + n;
        'each: while spot.at < end {
            spot = spot.step(bytes);
        }
        spot
    }

    /// The place one byte further on.
    fn step(self, bytes: &[u8]) -> Spot
        requires spot { IsSpot bytes.now self }
        requires within { self.at + 1 ≤ length bytes.now }
        ensures spot { IsSpot bytes.now result }
        ensures at { result.at ≡ self.at + 1 }
    {
        let at = self.at + 1;
        if bytes[self.at] == b'\n' {
            Spot {
                at,
                feeds: self.feeds + 1,
                begin: at,
            }
        } else {
            Spot {
                at,
                feeds: self.feeds,
                begin: self.begin,
            }
        }
    }

    /// Its line, from 1.
    pub fn line(self) -> u32
        ensures { result ≡ min (self.feeds + 1) 4294967295 }
    {
        number_from_one(self.feeds)
    }

    /// Its column, from 1.
    pub fn column(self) -> u32
        requires { self.begin ≤ self.at }
        ensures { result ≡ min (self.at - self.begin + 1) 4294967295 }
    {
        number_from_one(self.at - self.begin)
    }
}

/// One more, or the greatest number there is.
fn number_from_one(n: usize) -> u32
    ensures { result ≡ min (n + 1) 4294967295 }
{
    if n < 4294967295 {
        n as u32 + 1
    } else {
        u32::MAX
    }
}
