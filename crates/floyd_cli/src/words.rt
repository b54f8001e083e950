ghost use Rattle.std.specs.Prelude.{◌≡◌, map, IsTrue, ◌↔◌, codes};
ghost use Rattle.std.specs.String.{string_bytes};
ghost use Rattle.floyd_cli.specs.Words as spec;

/// The number of the first word with which the words so far begin no command line, or one more than there are words
/// where they are too few. None where they are one.
pub fn wrong_word(words: &[String]) -> Option<u64>
    ensures { result ≡ spec.wrong_word (map string_bytes words.now) }
{
    match words {
        [] => Some(1),
        [first, rest @ ..] => {
            if first.as_str() == "check" {
                wrong_after_check(rest)
            } else {
                Some(1)
            }
        }
    }
}

/// The same after the word `check`.
fn wrong_after_check(words: &[String]) -> Option<u64>
    ensures { result ≡ spec.wrong_after_check (map string_bytes words.now) }
{
    match words {
        [] => Some(2),
        [_] => None,
        [_, _, ..] => Some(3),
    }
}
