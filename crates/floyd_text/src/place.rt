ghost use Rattle.std.specs.Prelude.{◌≡◌, ◌+◌, ◌≤◌, length, min, count_by};
ghost use Rattle.std.specs.List.{suffix_len};
ghost use Rattle.floyd_text.specs.Place.{is_feed, is_other, place_at};

/// A place in a file of a project: the file's number, and its line and column in bytes, both from 1.
///
/// A line or a column beyond 4294967295 is given as that number.
#[derive(Clone, Copy, PartialEq, Eq, Debug)]
pub struct Place {
    pub file: u32,
    pub line: u32,
    pub column: u32,
}

/// The place of the byte at `at`, or of the file's end where `at` is its length.
pub fn place_of(file: u32, bytes: &[u8], at: usize) -> Place
    requires { at ≤ length bytes.now }
    ensures { result ≡ place_at file bytes.now at }
{
    let front = &bytes[..at];
    Place {
        file,
        line: capped(line_feeds(front)),
        column: capped(bytes_on_last_line(front)),
    }
}

/// How many line feeds there are.
fn line_feeds(front: &[u8]) -> usize
    ensures { result ≡ count_by is_feed front.now }
{
    front.iter().filter(|b| **b == b'\n').count()
}

/// How many bytes stand after the last line feed.
fn bytes_on_last_line(front: &[u8]) -> usize
    ensures { result ≡ suffix_len is_other front.now }
{
    let mut n = front.len();
    'back: while n > 0 && front[n - 1] != b'\n' {
        n -= 1;
    }
    front.len() - n
}

/// One more, or the greatest number there is.
fn capped(n: usize) -> u32
    ensures { result ≡ min (n + 1) 4294967295 }
{
    if n < 4294967295 {
        n as u32 + 1
    } else {
        u32::MAX
    }
}
