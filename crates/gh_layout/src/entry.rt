// What stands open at a token.
ghost use Rattle.std.specs.Prelude.{◌≡◌};

/// What an implicit block belongs to.
#[derive(Clone, Copy, Debug, PartialEq, Eq)]
pub enum Owner {
    /// The file, where it begins with no header.
    File,
    /// The word `let`.
    Let,
    /// The word `where`.
    Where,
    /// The word `of`.
    Of,
}

/// What is closed by a token of its own.
#[derive(Clone, Copy, Debug, PartialEq, Eq)]
pub enum Opening {
    /// `(`, up to `)`.
    Parenthesis,
    /// `[`, up to `]`.
    Bracket,
    /// `{|`, up to `|}`.
    Banana,
    /// `let`, up to `in`.
    Let,
    /// `if`, up to `then`.
    If,
    /// `then`, up to `else`.
    Then,
    /// `case`, up to `of`.
    Case,
}

/// A block that lines make, and its present item.
#[derive(Clone, Copy, Debug, PartialEq, Eq)]
pub struct Block {
    /// The column of its items, from 1.
    pub column: u32,
    /// What it belongs to.
    pub owner: Owner,
    /// Whether its present item has no token yet.
    pub is_empty: bool,
    /// Whether its present item has an `=` so far.
    pub has_equals: bool,
}

/// One thing that stands open. A place is the number of the token that opened it, from 0.
#[derive(Clone, Copy, Debug, PartialEq, Eq)]
pub enum Entry {
    /// A block that lines make.
    Implicit(Block),
    /// A block in braces, and the place of its `{`.
    Explicit(u32),
    /// An opening, and its place. That of `then` is the place of its `if`.
    Opened(Opening, u32),
}

impl Opening {
    ghost use Rattle.gh_layout.specs.Entries.{is_same, is_bracket};

    /// Whether two openings are the same.
    pub fn is(self, other: Opening) -> bool
        ensures { result ≡ is_same self other }
    {
        match self {
            Opening::Parenthesis => matches!(other, Opening::Parenthesis),
            Opening::Bracket => matches!(other, Opening::Bracket),
            Opening::Banana => matches!(other, Opening::Banana),
            Opening::Let => matches!(other, Opening::Let),
            Opening::If => matches!(other, Opening::If),
            Opening::Then => matches!(other, Opening::Then),
            Opening::Case => matches!(other, Opening::Case),
        }
    }

    /// Whether commas separate what stands between this opening and its close.
    pub fn is_bracket(self) -> bool
        ensures { result ≡ is_bracket self }
    {
        matches!(
            self,
            Opening::Parenthesis | Opening::Bracket | Opening::Banana
        )
    }
}
