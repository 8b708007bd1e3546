// Tokens.
use gh_base::{ListOf, NameId, Span};

/// The classes of names (Haskell 98 Report, 2.4).
#[derive(Clone, Copy, Debug, PartialEq, Eq)]
pub enum NameClass {
    /// A variable name: it begins with a lower-case letter or `_`.
    VarId,
    /// A constructor, type or module name: it begins with an upper-case letter.
    ConId,
    /// A variable operator: symbol characters, of which the first is no `:`.
    VarSym,
    /// A constructor operator: symbol characters, of which the first is `:`.
    ConSym,
}

/// What a token is (Haskell 98 Report, 2.2).
#[derive(Debug, Drop)]
pub enum TokenKind {
    /// A name with its class, its qualifier where it has one, and its last part.
    Name(NameClass, Option<NameId>, NameId),
    /// A reserved word.
    Word(NameId),
    /// A bracket, separator or reserved operator.
    Mark(NameId),
    /// An integer, below 2^63.
    Int(u64),
    /// A character literal, by its value.
    Char(char),
    /// A string literal, by its characters.
    Str(ListOf<char>),
}

/// A token and its place.
#[derive(Debug, Drop)]
pub struct Token {
    /// What it is.
    pub kind: TokenKind,
    /// Its bytes in the file, from 0.
    pub span: Span,
    /// The line of its first byte, from 1.
    pub line: u32,
    /// The column of its first byte, from 1: a character takes one, and a tab goes on to the next column 8k + 1.
    pub column: u32,
    /// Whether no earlier token begins on its line.
    pub first: bool,
}
