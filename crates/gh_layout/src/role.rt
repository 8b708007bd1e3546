// What a token does to the layout.
ghost use Rattle.std.specs.Prelude.{◌≡◌};
ghost use Rattle.gh_layout.specs.Roles.{role_of, role_of_word, role_of_mark, block_after, stands_for_block};

use crate::entry::{Opening, Owner};
use gh_base::NameId;
use gh_base::fixed::{
    CASE, CLOSE_BANANA, CLOSE_BRACE, CLOSE_BRACKET, CLOSE_PARENTHESIS, COMMA, ELSE, EQUALS, IF, IN,
    LET, MODULE, OF, OPEN_BANANA, OPEN_BRACE, OPEN_BRACKET, OPEN_PARENTHESIS, SEMICOLON, THEN,
    WHERE,
};
use gh_lexer::TokenKind;

/// What a token does to the layout.
#[derive(Clone, Copy, Debug, PartialEq, Eq)]
pub enum Role {
    /// `{`
    OpenBrace,
    /// `}`
    CloseBrace,
    /// `;`
    Semicolon,
    /// `(`, `[`, `{|`, `if`, `case` or `let`
    Opens(Opening),
    /// `)`, `]` or `|}`
    Closes(Opening),
    /// `of`
    Of,
    /// `then`
    Then,
    /// `else`
    Else,
    /// `in`
    In,
    /// `,`
    Comma,
    /// `where`
    Where,
    /// `=`
    Equals,
    /// `module`
    Module,
    /// Any other token.
    Other,
}

/// What a token does to the layout, by what it is.
pub fn role_of(kind: &TokenKind) -> Role
    ensures { result ≡ role_of kind.now }
{
    match kind {
        TokenKind::Word(name) => role_of_word(*name),
        TokenKind::Mark(name) => role_of_mark(*name),
        TokenKind::Name(..) => Role::Other,
        TokenKind::Int(_) => Role::Other,
        TokenKind::Char(_) => Role::Other,
        TokenKind::Str(_) => Role::Other,
    }
}

// What a reserved word does.
fn role_of_word(name: NameId) -> Role
    ensures { result ≡ role_of_word name }
{
    match name {
        LET => Role::Opens(Opening::Let),
        WHERE => Role::Where,
        OF => Role::Of,
        IN => Role::In,
        IF => Role::Opens(Opening::If),
        THEN => Role::Then,
        ELSE => Role::Else,
        CASE => Role::Opens(Opening::Case),
        MODULE => Role::Module,
        _ => Role::Other,
    }
}

// What a bracket, a separator or a reserved operator does.
fn role_of_mark(name: NameId) -> Role
    ensures { result ≡ role_of_mark name }
{
    match name {
        OPEN_BRACE => Role::OpenBrace,
        CLOSE_BRACE => Role::CloseBrace,
        SEMICOLON => Role::Semicolon,
        OPEN_PARENTHESIS => Role::Opens(Opening::Parenthesis),
        CLOSE_PARENTHESIS => Role::Closes(Opening::Parenthesis),
        OPEN_BRACKET => Role::Opens(Opening::Bracket),
        CLOSE_BRACKET => Role::Closes(Opening::Bracket),
        OPEN_BANANA => Role::Opens(Opening::Banana),
        CLOSE_BANANA => Role::Closes(Opening::Banana),
        COMMA => Role::Comma,
        EQUALS => Role::Equals,
        _ => Role::Other,
    }
}

/// What the block belongs to that begins after this token, where one does.
pub fn block_after(role: Role) -> Option<Owner>
    ensures { result ≡ block_after role }
{
    match role {
        Role::Opens(Opening::Let) => Some(Owner::Let),
        Role::Where => Some(Owner::Where),
        Role::Of => Some(Owner::Of),
        _ => None,
    }
}

/// Whether no implicit block of this owner begins before this token, which begins the block itself.
pub fn stands_for_block(owner: Owner, role: Role) -> bool
    ensures { result ≡ stands_for_block owner role }
{
    match role {
        Role::OpenBrace => true,
        Role::Module => matches!(owner, Owner::File),
        _ => false,
    }
}
