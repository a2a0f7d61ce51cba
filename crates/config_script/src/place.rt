//! The places of a script, and the tokens that may stand at each.
ghost use Rattle.std.specs.Prelude.{◌≡◌, false, [], option_map};
ghost use Rattle.std.specs.Str.{chars};
ghost use Rattle.config_script.specs.declared.place.Place.TheVariants.{AfterConfiguration, InConfiguration, AfterNodeName, InBlock, InResource, AfterEmpty, AfterProperty, AfterEquals, AfterValue, AfterSemicolon, InArray, AfterElement};
ghost use Rattle.config_script.specs.Lexing.{token_of};
ghost use Rattle.config_script.specs.Named.{name_chars};
ghost use Rattle.config_script.specs.Places.{Property, scalar_of, event_of, step_of, goes, gives, left_brace, keyword_if, step};
ghost use Rattle.config_script.specs.Scripts.{name_in, scalar_in};

use crate::name::{Name, is_word};
use crate::part::{Part, Scalar, Word};
use crate::token::Token;

/// A place between two tokens.
#[derive(Clone, Copy, Debug)]
pub(crate) enum Place {
    Start,
    AfterConfiguration,
    AfterTitle,
    InConfiguration,
    AfterNode,
    AfterNodeName,
    InBlock,
    AfterKind,
    AfterResourceName,

    /// Nothing of the resource was read.
    InResource,

    /// Only semicolons of the resource were read.
    AfterEmpty,

    AfterProperty,
    AfterEquals,
    AfterValue,

    /// After a semicolon that follows a value.
    AfterSemicolon,

    InArray,
    AfterComma,
    AfterElement,
    End,
}

/// The place after a token, and what the token adds.
#[derive(Clone, Copy, Debug)]
pub(crate) struct Step<'a> {
    pub(crate) place: Place,
    pub(crate) part: Option<Part<'a>>,
}

impl Place {
    /// After a token that stands where `from` begins; `fed` says whether a line feed stands before it.
    #[inline(always)]
    pub(crate) fn after<'a>(self, fed: bool, token: Token<'a>, from: &'a str) -> Option<Step<'a>>
        ensures { step_of result ≡ step self fed (chars from.now) (token_of token.entry) }
    {
        match self {
            Place::Start => keyword(token, "configuration", Place::AfterConfiguration),
            Place::AfterConfiguration => title(token),
            Place::AfterTitle => left_brace(token, Place::InConfiguration),
            Place::InConfiguration => in_configuration(token),
            Place::AfterNode => gives(Place::AfterNodeName, Part::Node(name_in(token)?)),
            Place::AfterNodeName => after_node_name(token),
            Place::InBlock => in_block(token, from),
            Place::AfterKind => gives(
                Place::AfterResourceName,
                Part::ResourceName(name_in(token)?),
            ),
            Place::AfterResourceName => left_brace(token, Place::InResource),
            Place::InResource => in_resource(token, from),
            Place::AfterEmpty => after_empty(token),
            Place::AfterProperty => after_property(token),
            Place::AfterEquals => after_equals(token),
            Place::AfterValue => after_value(fed, token, from),
            Place::AfterSemicolon => after_semicolon(token, from),
            Place::InArray => in_array(token),
            Place::AfterComma => gives(Place::AfterElement, Part::Further(scalar_in(token)?)),
            Place::AfterElement => after_element(token),
            Place::End => None,
        }
    }
}

fn title(token: Token<'_>) -> Option<Step<'_>>
    ensures { step_of result ≡ step AfterConfiguration false [] (token_of token.entry) }
{
    match token {
        Token::Word(word) => gives(Place::AfterTitle, Part::Title(word)),
        _ => None,
    }
}

fn in_configuration(token: Token<'_>) -> Option<Step<'_>>
    ensures { step_of result ≡ step InConfiguration false [] (token_of token.entry) }
{
    match token {
        Token::RightBrace => goes(Place::End),
        _ => keyword(token, "node", Place::AfterNode),
    }
}

fn after_node_name(token: Token<'_>) -> Option<Step<'_>>
    ensures { step_of result ≡ step AfterNodeName false [] (token_of token.entry) }
{
    match token {
        Token::Comma => goes(Place::AfterNode),
        Token::LeftBrace => goes(Place::InBlock),
        _ => None,
    }
}

fn in_block<'a>(token: Token<'a>, from: &'a str) -> Option<Step<'a>>
    ensures { step_of result ≡ step InBlock false (chars from.now) (token_of token.entry) }
{
    match token {
        Token::Word(text) => gives(Place::AfterKind, Part::Kind(Word { text, from })),
        Token::RightBrace => gives(Place::InConfiguration, Part::BlockEnd),
        _ => None,
    }
}

fn in_resource<'a>(token: Token<'a>, from: &'a str) -> Option<Step<'a>>
    ensures { step_of result ≡ step InResource false (chars from.now) (token_of token.entry) }
{
    match token {
        Token::Word(word) => property(word, from),
        Token::Semicolon => goes(Place::AfterEmpty),
        Token::RightBrace => gives(Place::InBlock, Part::ResourceEnd),
        _ => None,
    }
}

fn after_empty(token: Token<'_>) -> Option<Step<'_>>
    ensures { step_of result ≡ step AfterEmpty false [] (token_of token.entry) }
{
    match token {
        Token::Semicolon => goes(Place::AfterEmpty),
        Token::RightBrace => gives(Place::InBlock, Part::ResourceEnd),
        _ => None,
    }
}

fn after_property(token: Token<'_>) -> Option<Step<'_>>
    ensures { step_of result ≡ step AfterProperty false [] (token_of token.entry) }
{
    match token {
        Token::EqualsSign => goes(Place::AfterEquals),
        _ => None,
    }
}

fn after_equals(token: Token<'_>) -> Option<Step<'_>>
    ensures { step_of result ≡ step AfterEquals false [] (token_of token.entry) }
{
    match token {
        Token::ArrayBegin => gives(Place::InArray, Part::ArrayBegin),
        _ => gives(Place::AfterValue, Part::One(scalar_in(token)?)),
    }
}

fn after_value<'a>(fed: bool, token: Token<'a>, from: &'a str) -> Option<Step<'a>>
    ensures { step_of result ≡ step AfterValue fed (chars from.now) (token_of token.entry) }
{
    match token {
        Token::Word(word) => { if fed { property(word, from) } else { None } }
        Token::Semicolon => goes(Place::AfterSemicolon),
        Token::RightBrace => gives(Place::InBlock, Part::ResourceEnd),
        _ => None,
    }
}

fn after_semicolon<'a>(token: Token<'a>, from: &'a str) -> Option<Step<'a>>
    ensures { step_of result ≡ step AfterSemicolon false (chars from.now) (token_of token.entry) }
{
    match token {
        Token::Word(word) => property(word, from),
        Token::Semicolon => goes(Place::AfterSemicolon),
        Token::RightBrace => gives(Place::InBlock, Part::ResourceEnd),
        _ => None,
    }
}

fn in_array(token: Token<'_>) -> Option<Step<'_>>
    ensures { step_of result ≡ step InArray false [] (token_of token.entry) }
{
    match token {
        Token::ArrayEnd => gives(Place::AfterValue, Part::ArrayEnd),
        _ => gives(Place::AfterElement, Part::Element(scalar_in(token)?)),
    }
}

fn after_element(token: Token<'_>) -> Option<Step<'_>>
    ensures { step_of result ≡ step AfterElement false [] (token_of token.entry) }
{
    match token {
        Token::Comma => goes(Place::AfterComma),
        Token::ArrayEnd => gives(Place::AfterValue, Part::ArrayEnd),
        _ => None,
    }
}

fn goes<'a>(place: Place) -> Option<Step<'a>>
    ensures { step_of result ≡ goes place }
{
    Some(Step { place, part: None })
}

fn gives(place: Place, part: Part<'_>) -> Option<Step<'_>>
    ensures { step_of result ≡ gives place (event_of part.entry) }
{
    Some(Step {
        place,
        part: Some(part),
    })
}

fn left_brace(token: Token<'_>, place: Place) -> Option<Step<'_>>
    ensures { step_of result ≡ left_brace place (token_of token.entry) }
{
    match token {
        Token::LeftBrace => goes(place),
        _ => None,
    }
}

fn keyword<'a>(token: Token<'a>, word: &str, place: Place) -> Option<Step<'a>>
    ensures { step_of result ≡ keyword_if place word.now (token_of token.entry) }
{
    match token {
        Token::Word(text) if is_word(text, word) => goes(place),
        _ => None,
    }
}

fn property<'a>(text: &'a str, from: &'a str) -> Option<Step<'a>>
    ensures { step_of result ≡ gives AfterProperty (Property (chars from.now) (chars text.now)) }
{
    gives(Place::AfterProperty, Part::Property(Word { text, from }))
}

fn name_in(token: Token<'_>) -> Option<Name<'_>>
    ensures { option_map name_chars result ≡ name_in (token_of token.entry) }
{
    match token {
        Token::Word(word) => Some(Name::Plain(word)),
        Token::Text(text) => Some(text),
        _ => None,
    }
}

fn scalar_in(token: Token<'_>) -> Option<Scalar<'_>>
    ensures { option_map scalar_of result ≡ scalar_in (token_of token.entry) }
{
    match token {
        Token::Text(text) => Some(Scalar::Text(text)),
        Token::Integer(number) => Some(Scalar::Integer(number)),
        Token::True => Some(Scalar::Bool(true)),
        Token::False => Some(Scalar::Bool(false)),
        Token::Null => Some(Scalar::Null),
        _ => None,
    }
}
