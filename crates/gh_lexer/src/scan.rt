// What a scan of the bytes finds.
use crate::token::NameClass;

/// What stands at the front of the bytes.
#[derive(Clone, Copy, Debug, PartialEq, Eq)]
pub enum Class {
    /// White space or a comment.
    Skip,
    /// A name without a qualifier.
    Name(NameClass),
    /// A name with a qualifier of so many bytes.
    Qualified(NameClass, usize),
    /// A reserved word.
    Word,
    /// A bracket, separator or reserved operator.
    Mark,
    /// An integer.
    Int,
    /// A character literal.
    Char,
    /// A string literal.
    Str,
}

/// A class, and the length in bytes.
#[derive(Clone, Copy, Debug, PartialEq, Eq)]
pub struct Scan {
    pub class: Class,
    pub len: usize,
}

/// Why no piece stands at the front.
#[derive(Clone, Copy, Debug, PartialEq, Eq)]
pub enum Wrong {
    NoToken,
    OpenComment,
    OpenText,
}

/// What a part of a literal gives.
#[derive(Clone, Copy, Debug, PartialEq, Eq)]
pub enum Meaning {
    /// No character: a gap or `\&`.
    Nothing,
    /// A character.
    Char(char),
    /// A number that is no Unicode scalar value.
    TooGreat,
}

/// A part of a literal, with its length in bytes.
#[derive(Clone, Copy, Debug, PartialEq, Eq)]
pub struct Item {
    pub len: usize,
    pub meaning: Meaning,
}

/// An escape that is no character, by its first byte and the byte after its last, counted from the opening quote.
#[derive(Clone, Copy, Debug, PartialEq, Eq)]
pub struct Escape {
    pub from: usize,
    pub to: usize,
}

/// The reserved words (Haskell 98 Report, 2.4).
pub const RESERVED: [&[u8]; 22] = [
    b"case",
    b"class",
    b"data",
    b"default",
    b"deriving",
    b"do",
    b"else",
    b"if",
    b"import",
    b"in",
    b"infix",
    b"infixl",
    b"infixr",
    b"instance",
    b"let",
    b"module",
    b"newtype",
    b"of",
    b"then",
    b"type",
    b"where",
    b"_",
];

/// The reserved operators (Haskell 98 Report, 2.4).
pub const OPERATORS: [&[u8]; 11] = [
    b"..", b":", b"::", b"=", b"\\", b"|", b"<-", b"->", b"@", b"~", b"=>",
];
