// Laid tokens, each with what it is for the grammar.
use gh_base::{ListOf, NameId, Span};

/// What a laid token is for the grammar. Each reserved word, reserved operator and bracket that a production names
/// has a variant of its own.
#[derive(Drop)]
pub enum Kind {
    /// A variable name, with its qualifier where it has one. `as`, `qualified`, `hiding` and `extends` are such names.
    VarId(Option<NameId>, NameId),
    /// A constructor, type or module name, with its qualifier where it has one.
    ConId(Option<NameId>, NameId),
    /// A variable operator, with its qualifier where it has one. `-` is one.
    VarSym(Option<NameId>, NameId),
    /// A constructor operator, with its qualifier where it has one.
    ConSym(Option<NameId>, NameId),
    /// An integer.
    Int(u64),
    /// A character literal.
    Char(char),
    /// A string literal, by its characters.
    Str(ListOf<char>),
    /// `case`
    Case,
    /// `data`
    Data,
    /// `else`
    Else,
    /// `if`
    If,
    /// `import`
    Import,
    /// `in`
    In,
    /// `infix`
    Infix,
    /// `infixl`
    Infixl,
    /// `infixr`
    Infixr,
    /// `let`
    Let,
    /// `module`
    Module,
    /// `newtype`
    Newtype,
    /// `of`
    Of,
    /// `then`
    Then,
    /// `type`
    TypeWord,
    /// `where`
    Where,
    /// `_`
    Underscore,
    /// `..`
    DotDot,
    /// `:`
    Colon,
    /// `::`
    Colons,
    /// `=`
    Equals,
    /// `\`
    Backslash,
    /// `|`
    Bar,
    /// `->`
    Arrow,
    /// `@`
    At,
    /// `=>`
    DoubleArrow,
    /// `(`
    Open,
    /// `)`
    Close,
    /// `,`
    Comma,
    /// `;`, as it is written
    Semicolon,
    /// `[`
    OpenList,
    /// `]`
    CloseList,
    /// A backquote.
    Backquote,
    /// `{`, as it is written
    OpenBrace,
    /// `}`, as it is written
    CloseBrace,
    /// `{|`
    OpenBanana,
    /// `|}`
    CloseBanana,
    /// A `{` of the layout, before the token of this place.
    InsertedOpen(u32),
    /// A `;` of the layout, before the token of this place.
    InsertedSemicolon(u32),
    /// A `}` of the layout, before the token of this place.
    InsertedClose(u32),
    /// A reserved word or operator that no production names.
    Unused(NameId),
}

/// A laid token with its bytes. One that the layout inserted has no bytes: its span is 0 to 0 of file 0.
#[derive(Drop)]
pub struct Sym {
    /// What it is.
    pub kind: Kind,
    /// Its bytes.
    pub span: Span,
}
