//! The tokens of the instance syntax.

/// A token of the instance syntax. Places count characters from 0.
#[derive(Clone, Copy, Debug, PartialEq, Eq)]
pub struct Token<'a> {
    pub kind: TokenKind,

    /// The characters from `from` up to `to`.
    pub text: &'a str,

    pub from: u32,
    pub to: u32,
}

#[derive(Clone, Copy, Debug, PartialEq, Eq)]
pub enum TokenKind {
    /// An identifier; its place alone decides which is a keyword.
    Word,

    /// `$` and an identifier.
    Alias,

    Literal,
    Integer,

    /// One of `{`, `}`, `=`, `;` and `,`.
    Mark,
}
