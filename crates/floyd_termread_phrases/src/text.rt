use floyd_lex::Tokens;

/// The tokens of a file, or an unbroken part of them, with the bytes of the file.
#[derive(Clone, Copy)]
pub struct Text<'a> {
    pub bytes: &'a [u8],
    pub tokens: &'a Tokens,
}
