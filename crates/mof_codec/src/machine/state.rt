//! What the machine knows of the characters that it has read.

/// What the rules expect, once the token that is half read is through. Each but `Start` is after a token of a declaration.
#[derive(Clone, Copy, Debug, PartialEq, Eq)]
pub(crate) enum Place {
    /// Between declarations.
    Start,

    /// After `instance`.
    AfterInstance,

    /// After `of`.
    AfterOf,

    /// After the name of the class.
    AfterClass,

    /// After `as`.
    AfterAs,

    /// After the alias of the declaration.
    AfterAlias,

    /// After the brace of the declaration, or after a property.
    Body,

    /// After the closing brace of the declaration.
    AfterBody,

    /// After the name of a property.
    AfterName,

    /// After `=`.
    AfterEquals,

    /// After a literal that is a property's value or a front of it.
    AfterStrings,

    /// After any other value of a property.
    AfterValue,

    /// After the brace of an array.
    InArray,

    /// After a comma in an array.
    AfterComma,

    /// After a literal that is an element or a front of it.
    AfterElementStrings,

    /// After any other element.
    AfterElement,
}

#[derive(Clone, Copy, Debug, PartialEq, Eq)]
pub(crate) enum Keyword {
    Instance,
    Of,
    As,
    True,
    False,
    Null,
}

/// What was read of an integer.
#[derive(Clone, Copy, Debug, PartialEq, Eq)]
pub(crate) enum Numeral {
    Sign,

    /// A single 0.
    Zero,

    /// A 0 and binary digits: octal, or binary if a `b` ends it.
    ZeroBits,

    Octal,

    /// Binary digits that begin with 1: decimal, or binary if a `b` ends it.
    Bits,

    Decimal,

    /// `0x`, and no digit yet.
    Prefix,

    Hexadecimal,

    /// Binary digits and the `b`.
    Binary,
}

/// What was read of a token or a separator.
#[derive(Clone, Copy, Debug, PartialEq, Eq)]
pub(crate) enum Half {
    /// None of it.
    Gap,

    /// The slash of a comment.
    Slash,

    /// A comment that ends with the line.
    Line,

    /// A comment that ends with `*/`.
    Block,

    /// Such a comment, of which the star is the last character.
    Star,

    /// An identifier.
    Name,

    /// The `$` of an alias.
    Alias,

    /// The keyword, and how many letters of it.
    Key(Keyword, usize),

    Integer(Numeral),

    /// A literal.
    Literal,

    /// The backslash of an escape.
    Escape,

    /// The `x` of an escape.
    EscapeX,

    /// Digits of an escape: how many more may come, and their value so far.
    Digits(u8, u16),
}

/// What the last character began.
#[derive(Clone, Copy, Debug, PartialEq, Eq)]
pub(crate) enum Event {
    Quiet,
    Declaration,
    Property,
    Element,
}

#[derive(Clone, Copy, Debug, PartialEq, Eq)]
pub(crate) struct State {
    pub(crate) place: Place,
    pub(crate) half: Half,
    pub(crate) begun: Event,
}

/// Before the first character.
pub(crate) const START: State = State {
    place: Place::Start,
    half: Half::Gap,
    begun: Event::Quiet,
};
