// The laid tokens of a file as the grammar sees them.
ghost use Rattle.std.specs.Prelude.{◌≡◌, IfOk, slice_get};
ghost use Rattle.gh_lexer.specs.declared.token.TokenKind.TheVariants as token;
ghost use Rattle.gh_tree.specs.declared.symbol.Kind.TheVariants as k;
ghost use Rattle.gh_tree.specs.Syms as spec;

use crate::symbol::{Kind, Sym};
use gh_base::fixed::{
    AT, BACKQUOTE, BACKSLASH, BAR, CASE, CLOSE_BANANA, CLOSE_BRACE, CLOSE_BRACKET,
    CLOSE_PARENTHESIS, COLON, COMMA, DATA, DOT_DOT, DOUBLE_ARROW, DOUBLE_COLON, ELSE, EQUALS, IF,
    IMPORT, IN, INFIX, INFIXL, INFIXR, LET, MODULE, NEWTYPE, OF, OPEN_BANANA, OPEN_BRACE,
    OPEN_BRACKET, OPEN_PARENTHESIS, RIGHT_ARROW, SEMICOLON, THEN, TYPE, UNDERSCORE, WHERE,
};
use gh_base::{ListOf, NameId, NoMemory, Span};
use gh_layout::LaidToken;
use gh_lexer::{NameClass, Token, TokenKind};
use std::alloc::Global;

const NOWHERE: Span = Span {
    file: 0,
    from: 0,
    to: 0,
};

// What a reserved word is.
fn word_kind(name: NameId) -> Kind
    ensures { result ≡ spec.listed spec.words (k.Unused name) name }
{
    match name {
        CASE => Kind::Case,
        DATA => Kind::Data,
        ELSE => Kind::Else,
        IF => Kind::If,
        IMPORT => Kind::Import,
        IN => Kind::In,
        INFIX => Kind::Infix,
        INFIXL => Kind::Infixl,
        INFIXR => Kind::Infixr,
        LET => Kind::Let,
        MODULE => Kind::Module,
        NEWTYPE => Kind::Newtype,
        OF => Kind::Of,
        THEN => Kind::Then,
        TYPE => Kind::TypeWord,
        WHERE => Kind::Where,
        UNDERSCORE => Kind::Underscore,
        _ => Kind::Unused(name),
    }
}

// What a bracket, a separator or a reserved operator is.
fn mark_kind(name: NameId) -> Kind
    ensures { result ≡ spec.listed spec.marks (k.Unused name) name }
{
    match name {
        DOT_DOT => Kind::DotDot,
        COLON => Kind::Colon,
        DOUBLE_COLON => Kind::Colons,
        EQUALS => Kind::Equals,
        BACKSLASH => Kind::Backslash,
        BAR => Kind::Bar,
        RIGHT_ARROW => Kind::Arrow,
        AT => Kind::At,
        DOUBLE_ARROW => Kind::DoubleArrow,
        OPEN_PARENTHESIS => Kind::Open,
        CLOSE_PARENTHESIS => Kind::Close,
        COMMA => Kind::Comma,
        SEMICOLON => Kind::Semicolon,
        OPEN_BRACKET => Kind::OpenList,
        CLOSE_BRACKET => Kind::CloseList,
        BACKQUOTE => Kind::Backquote,
        OPEN_BRACE => Kind::OpenBrace,
        CLOSE_BRACE => Kind::CloseBrace,
        OPEN_BANANA => Kind::OpenBanana,
        CLOSE_BANANA => Kind::CloseBanana,
        _ => Kind::Unused(name),
    }
}

// What a name is.
fn name_kind(class: NameClass, qualifier: Option<NameId>, name: NameId) -> Kind
    ensures { result ≡ spec.kind_of (token.Name class qualifier name) }
{
    match class {
        NameClass::VarId => Kind::VarId(qualifier, name),
        NameClass::ConId => Kind::ConId(qualifier, name),
        NameClass::VarSym => Kind::VarSym(qualifier, name),
        NameClass::ConSym => Kind::ConSym(qualifier, name),
    }
}

// What a token of the file is. A string's characters are copied.
fn kind_of(alloc: Global, kind: &TokenKind) -> Result<Kind, NoMemory>
    ensures { IfOk result (λ found. found ≡ spec.kind_of kind.now) }
{
    match kind {
        TokenKind::Name(class, qualifier, name) => Ok(name_kind(*class, *qualifier, *name)),
        TokenKind::Word(name) => Ok(word_kind(*name)),
        TokenKind::Mark(name) => Ok(mark_kind(*name)),
        TokenKind::Int(value) => Ok(Kind::Int(*value)),
        TokenKind::Char(value) => Ok(Kind::Char(*value)),
        TokenKind::Str(text) => {
            let mut copied = ListOf::new(alloc);
            copied.extend_from_slice(text.as_slice())?;
            Ok(Kind::Str(copied))
        }
    }
}

// The token at a place of the file.
fn real(alloc: Global, tokens: &[Token], place: u32) -> Result<Sym, NoMemory>
    ensures { IfOk result (λ s. s ≡ spec.real place (slice_get tokens.now place)) }
{
    match tokens.get(place as usize) {
        None => Ok(Sym {
            kind: Kind::InsertedSemicolon(place),
            span: NOWHERE,
        }),
        Some(token) => Ok(Sym {
            kind: kind_of(alloc, &token.kind)?,
            span: token.span,
        }),
    }
}

// A mark of the layout.
fn inserted(kind: Kind) -> Sym
    ensures { result ≡ spec.at kind spec.nowhere }
{
    Sym {
        kind,
        span: NOWHERE,
    }
}

// What a laid token is.
fn sym_of(alloc: Global, tokens: &[Token], laid: LaidToken) -> Result<Sym, NoMemory>
    ensures { IfOk result (λ s. s ≡ spec.sym_of tokens.now laid) }
{
    match laid {
        LaidToken::Real(place) => real(alloc, tokens, place),
        LaidToken::Begin(place) => Ok(inserted(Kind::InsertedOpen(place))),
        LaidToken::Semi(place) => Ok(inserted(Kind::InsertedSemicolon(place))),
        LaidToken::End(place) => Ok(inserted(Kind::InsertedClose(place))),
    }
}

/// The laid tokens of a file as the grammar sees them, by its tokens and its laid tokens. Time is linear in both.
pub fn syms_of(
    alloc: Global,
    tokens: &ListOf<Token>,
    laid: &ListOf<LaidToken>,
) -> Result<ListOf<Sym>, NoMemory>
    ensures { IfOk result (λ found. found ≡ spec.syms_of tokens.now laid.now) }
{
    let mut found = ListOf::new(alloc);
    for token in laid.as_slice() {
        found.push(sym_of(alloc, tokens.as_slice(), *token)?)?;
    }
    Ok(found)
}
