//! What a byte is outside bars and comments.

ghost use Rattle.std.specs.Prelude.{◌≡◌};
ghost use Rattle.ops_tokens.specs.Byte.{kind_of};

/// The part that a byte plays in the text.
#[derive(Clone, Copy)]
pub enum ByteKind {
    /// White space but for the line feed.
    Blank,
    /// White space, and the end of a comment.
    LineFeed,
    Semicolon,
    Bar,
    Open,
    Close,
    OpenBrace,
    CloseBrace,
    Caret,
    /// Any other byte: it stands in words.
    Letter,
}

pub(crate) fn kind_of(byte: u8) -> ByteKind
    ensures { result ≡ kind_of byte }
{
    match byte {
        9 | 12 | 13 | 32 => ByteKind::Blank,
        b'\n' => ByteKind::LineFeed,
        b';' => ByteKind::Semicolon,
        b'|' => ByteKind::Bar,
        b'(' => ByteKind::Open,
        b')' => ByteKind::Close,
        b'{' => ByteKind::OpenBrace,
        b'}' => ByteKind::CloseBrace,
        b'^' => ByteKind::Caret,
        _ => ByteKind::Letter,
    }
}
