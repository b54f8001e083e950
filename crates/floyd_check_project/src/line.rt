//! The forms of a line, and the words that lines begin with.
ghost use Rattle.std.specs.Prelude.{◌≡◌, ◌+◌, ◌≤◌, length, option_copied, drop, codes};
ghost use Rattle.std.specs.List.{prefix_len, list_all};
ghost use Rattle.floyd_text.specs.Place.{is_other};
ghost use Rattle.floyd_check_project.specs.Lines.{is_blank, is_comment, begins_identifier, is_word_byte, is_identifier, is_file_byte, is_file_name};
ghost use Rattle.floyd_check_project.specs.Project.{name_after};

/// Where the line that begins at `at` ends: at its line feed, or at the end of the bytes.
pub fn line_end(bytes: &[u8], at: usize) -> usize
    requires { at ≤ length bytes.now }
    ensures value { result ≡ at + prefix_len is_other (drop at bytes.now) }
    ensures within { result ≤ length bytes.now }
    ensures forward { at ≤ result }
{
    let mut end = at;
    'line: while end < bytes.len() && bytes[end] != b'\n' {
        end += 1;
    }
    end
}

pub fn is_blank(line: &[u8]) -> bool
    ensures { result ≡ is_blank line.now }
{
    line.iter().all(|b| *b == b' ' || *b == b'\t')
}

pub fn is_comment(line: &[u8]) -> bool
    ensures { result ≡ is_comment line.now }
{
    match line {
        [b, ..] => *b == b'#',
        [] => false,
    }
}

fn begins_identifier(b: u8) -> bool
    ensures { result ≡ begins_identifier b }
{
    matches!(b, b'a'..=b'z' | b'A'..=b'Z' | b'_')
}

fn is_word_byte(b: u8) -> bool
    ensures { result ≡ is_word_byte b }
{
    matches!(b, b'a'..=b'z' | b'A'..=b'Z' | b'0'..=b'9' | b'_')
}

fn are_word_bytes(bytes: &[u8]) -> bool
    ensures { result ≡ list_all is_word_byte bytes.now }
{
    bytes.iter().all(|b| is_word_byte(*b))
}

pub fn is_identifier(name: &[u8]) -> bool
    ensures { result ≡ is_identifier name.now }
{
    match name {
        [b, rest @ ..] => begins_identifier(*b) && are_word_bytes(rest) && name.len() <= 255,
        [] => false,
    }
}

fn is_file_byte(b: u8) -> bool
    ensures { result ≡ is_file_byte b }
{
    is_word_byte(b) || matches!(b, b'.' | b'-' | b'/')
}

fn are_file_bytes(bytes: &[u8]) -> bool
    ensures { result ≡ list_all is_file_byte bytes.now }
{
    bytes.iter().all(|b| is_file_byte(*b))
}

pub fn is_file_name(name: &[u8]) -> bool
    ensures { result ≡ is_file_name name.now }
{
    1 <= name.len() && name.len() <= 255 && are_file_bytes(name)
}

/// The name on a line `module NAME`.
pub fn module_name(line: &[u8]) -> Option<&[u8]>
    ensures { option_copied result ≡ name_after (codes "module") line.now }
{
    match line {
        [b'm', b'o', b'd', b'u', b'l', b'e', b' ', name @ ..] => Some(name),
        _ => None,
    }
}

/// The name on a line `source NAME`.
pub fn source_name(line: &[u8]) -> Option<&[u8]>
    ensures { option_copied result ≡ name_after (codes "source") line.now }
{
    match line {
        [b's', b'o', b'u', b'r', b'c', b'e', b' ', name @ ..] => Some(name),
        _ => None,
    }
}

/// The name on a line `spec NAME`.
pub fn spec_name(line: &[u8]) -> Option<&[u8]>
    ensures { option_copied result ≡ name_after (codes "spec") line.now }
{
    match line {
        [b's', b'p', b'e', b'c', b' ', name @ ..] => Some(name),
        _ => None,
    }
}

/// The name on a line `script NAME`.
pub fn script_name(line: &[u8]) -> Option<&[u8]>
    ensures { option_copied result ≡ name_after (codes "script") line.now }
{
    match line {
        [b's', b'c', b'r', b'i', b'p', b't', b' ', name @ ..] => Some(name),
        _ => None,
    }
}
