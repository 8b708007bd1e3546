// Why a program is refused.
ghost use Rattle.std.specs.Prelude.{◌≡◌};
ghost use Rattle.gh_base.specs.Refusals.{number_of, span_of};

use crate::list_of::ListOf;
use crate::names::NameId;
use crate::no_memory::NoMemory;
use crate::place::{Origin, Span, TyCon};

/// What is counted against a limit.
#[derive(Clone, Copy, Debug, PartialEq, Eq)]
pub enum Limit {
    /// Type parameters of a declaration: at most 8.
    Parameters,
    /// Dependencies of a generic signature: at most 8.
    Dependencies,
    /// Constructors of a type: at most 128.
    Constructors,
    /// Fields of a constructor: at most 16.
    Fields,
    /// Arguments of a clause or of a lambda: at most 16.
    Arguments,
    /// Names that one local declaration list binds, and one more for each of its bindings of a pattern: at most 64.
    Bindings,
    /// Clauses of one definition or case: at most 1,000.
    Clauses,
}

/// The first reason for which a program is refused, with its place. `TooManyFiles` and `NoMain` have no place.
#[derive(Debug, Drop)]
pub enum Refusal {
    /// 1: the first byte of the first ill-formed sequence of the file.
    NotUtf8 {
        span: Span,
    },
    /// 2: a byte at which no token begins, or the first byte of a piece that is no token.
    NoToken {
        span: Span,
    },
    /// 3: the first byte of a `{-` that has no close.
    OpenComment {
        span: Span,
    },
    /// 4: the opening quote of a literal with no close on its line, or with a wrong character or escape.
    OpenText {
        span: Span,
    },
    /// 5: an integer of 2^63 or more, or a numeric escape that is no Unicode scalar value.
    NumberOutOfRange {
        span: Span,
    },
    /// 6: a name of more than 255 bytes.
    NameTooLong {
        span: Span,
    },
    /// 7: the token at which the layout rules have no answer.
    BadLayout {
        span: Span,
    },
    /// 8: the token whose bracket, brace or keyword is left open at the end.
    Unclosed {
        span: Span,
    },
    /// 9: the first top item whose tokens are those of no tree.
    NoParse {
        span: Span,
    },
    /// 10: a top item whose tree is deeper than 2,000.
    TooDeep {
        span: Span,
    },
    /// 11: an operator list with no arrangement: `left` and `right` are the operators that clash.
    FixityClash {
        span: Span,
        left: NameId,
        right: NameId,
    },
    /// 12: an import of a module that is not there.
    UnknownModule {
        span: Span,
        name: NameId,
    },
    /// 13: the first import that lies on a cycle: `names` is the shortest cycle through it.
    CyclicImports {
        span: Span,
        names: ListOf<NameId>,
    },
    /// 14: an import item that the module does not export.
    NotExported {
        span: Span,
        name: NameId,
    },
    /// 15: a second module of one name, or one named Prelude.
    DoubleModule {
        span: Span,
        name: NameId,
    },
    /// 16: a use of a name that has no origin.
    UnknownName {
        span: Span,
        name: NameId,
    },
    /// 17: a use of a name that has two origins or more.
    AmbiguousName {
        span: Span,
        name: NameId,
    },
    /// 18: a second definition, signature or fixity of a name in one list.
    DoubleDefinition {
        span: Span,
        name: NameId,
    },
    /// 19: a clause with another number of arguments than the first.
    UnequalArity {
        span: Span,
        name: NameId,
    },
    /// 20: a variable that stands twice in one pattern list or declaration head.
    RepeatedVariable {
        span: Span,
        name: NameId,
    },
    /// 21: a pattern that gives a constructor another number of fields.
    ConstructorArity {
        span: Span,
        name: NameId,
    },
    /// 22: a plain signature or fixity with no definition in its list.
    SignatureAlone {
        span: Span,
        name: NameId,
    },
    /// 23: a synonym that reaches itself through synonyms.
    SynonymCycle {
        span: Span,
        name: NameId,
    },
    /// 24: a synonym with fewer arguments than parameters.
    SynonymArity {
        span: Span,
        name: NameId,
    },
    /// 25: a node at which the kinding rules fail.
    KindClash {
        span: Span,
    },
    /// 26: a node whose kinds pass 63 nodes.
    KindTooLarge {
        span: Span,
    },
    /// 27: a node at which the typing rules fail.
    TypeClash {
        span: Span,
    },
    /// 28: a node whose types pass 1,000 nodes.
    TypeTooLarge {
        span: Span,
    },
    /// 29: a signature of a generic function that breaks the rule of that number, from 1.
    BadSignature {
        span: Span,
        rule: u32,
    },
    /// 30: `x` depends on `y` and `y` on `z`, and `x` does not depend on `z`.
    NotClosed {
        span: Span,
        x: NameId,
        y: NameId,
        z: NameId,
    },
    /// 31: the head of a case, or its module, is not allowed.
    BadCaseHead {
        span: Span,
    },
    /// 32: a second case for one head.
    DoubleCase {
        span: Span,
    },
    /// 33: a generic call that is not available: `function` does not stand at `name`.
    MissingDependency {
        span: Span,
        function: NameId,
        name: NameId,
    },
    /// 34: a needed pair with no case and no representation, after the pairs that lead to it.
    NoCase {
        span: Span,
        chain: ListOf<(Origin, TyCon)>,
    },
    /// 35: an `extends` that is not allowed.
    BadExtends {
        span: Span,
    },
    /// 36: the file has more than 1,048,576 bytes; the span is the empty one at its byte 0.
    FileTooLong {
        span: Span,
    },
    /// 37: there are more than 64 files.
    TooManyFiles,
    /// 38: there is no module Main, or it exports no plain `main`.
    NoMain,
    /// 39: `main` is no text: `[Char]` is no instance of its type.
    MainNotText {
        span: Span,
    },
    /// 40: a counted thing passes its limit.
    LimitPassed {
        span: Span,
        which: Limit,
    },
}

impl Refusal {
    /// The number under which the refusal is printed, 1 to 40.
    pub fn number(&self) -> u32
        ensures { result ≡ number_of self.now }
    {
        match self {
            Refusal::NotUtf8 { .. } => 1,
            Refusal::NoToken { .. } => 2,
            Refusal::OpenComment { .. } => 3,
            Refusal::OpenText { .. } => 4,
            Refusal::NumberOutOfRange { .. } => 5,
            Refusal::NameTooLong { .. } => 6,
            Refusal::BadLayout { .. } => 7,
            Refusal::Unclosed { .. } => 8,
            Refusal::NoParse { .. } => 9,
            Refusal::TooDeep { .. } => 10,
            Refusal::FixityClash { .. } => 11,
            Refusal::UnknownModule { .. } => 12,
            Refusal::CyclicImports { .. } => 13,
            Refusal::NotExported { .. } => 14,
            Refusal::DoubleModule { .. } => 15,
            Refusal::UnknownName { .. } => 16,
            Refusal::AmbiguousName { .. } => 17,
            Refusal::DoubleDefinition { .. } => 18,
            Refusal::UnequalArity { .. } => 19,
            Refusal::RepeatedVariable { .. } => 20,
            Refusal::ConstructorArity { .. } => 21,
            Refusal::SignatureAlone { .. } => 22,
            Refusal::SynonymCycle { .. } => 23,
            Refusal::SynonymArity { .. } => 24,
            Refusal::KindClash { .. } => 25,
            Refusal::KindTooLarge { .. } => 26,
            Refusal::TypeClash { .. } => 27,
            Refusal::TypeTooLarge { .. } => 28,
            Refusal::BadSignature { .. } => 29,
            Refusal::NotClosed { .. } => 30,
            Refusal::BadCaseHead { .. } => 31,
            Refusal::DoubleCase { .. } => 32,
            Refusal::MissingDependency { .. } => 33,
            Refusal::NoCase { .. } => 34,
            Refusal::BadExtends { .. } => 35,
            Refusal::FileTooLong { .. } => 36,
            Refusal::TooManyFiles => 37,
            Refusal::NoMain => 38,
            Refusal::MainNotText { .. } => 39,
            Refusal::LimitPassed { .. } => 40,
        }
    }

    /// The place of the refusal, in bytes from 0. A refusal of the whole program has none.
    pub fn span(&self) -> Option<Span>
        ensures { result ≡ span_of self.now }
    {
        match self {
            Refusal::NotUtf8 { span } => Some(*span),
            Refusal::NoToken { span } => Some(*span),
            Refusal::OpenComment { span } => Some(*span),
            Refusal::OpenText { span } => Some(*span),
            Refusal::NumberOutOfRange { span } => Some(*span),
            Refusal::NameTooLong { span } => Some(*span),
            Refusal::BadLayout { span } => Some(*span),
            Refusal::Unclosed { span } => Some(*span),
            Refusal::NoParse { span } => Some(*span),
            Refusal::TooDeep { span } => Some(*span),
            Refusal::FixityClash { span, .. } => Some(*span),
            Refusal::UnknownModule { span, .. } => Some(*span),
            Refusal::CyclicImports { span, .. } => Some(*span),
            Refusal::NotExported { span, .. } => Some(*span),
            Refusal::DoubleModule { span, .. } => Some(*span),
            Refusal::UnknownName { span, .. } => Some(*span),
            Refusal::AmbiguousName { span, .. } => Some(*span),
            Refusal::DoubleDefinition { span, .. } => Some(*span),
            Refusal::UnequalArity { span, .. } => Some(*span),
            Refusal::RepeatedVariable { span, .. } => Some(*span),
            Refusal::ConstructorArity { span, .. } => Some(*span),
            Refusal::SignatureAlone { span, .. } => Some(*span),
            Refusal::SynonymCycle { span, .. } => Some(*span),
            Refusal::SynonymArity { span, .. } => Some(*span),
            Refusal::KindClash { span } => Some(*span),
            Refusal::KindTooLarge { span } => Some(*span),
            Refusal::TypeClash { span } => Some(*span),
            Refusal::TypeTooLarge { span } => Some(*span),
            Refusal::BadSignature { span, .. } => Some(*span),
            Refusal::NotClosed { span, .. } => Some(*span),
            Refusal::BadCaseHead { span } => Some(*span),
            Refusal::DoubleCase { span } => Some(*span),
            Refusal::MissingDependency { span, .. } => Some(*span),
            Refusal::NoCase { span, .. } => Some(*span),
            Refusal::BadExtends { span } => Some(*span),
            Refusal::FileTooLong { span } => Some(*span),
            Refusal::TooManyFiles => None,
            Refusal::NoMain => None,
            Refusal::MainNotText { span } => Some(*span),
            Refusal::LimitPassed { span, .. } => Some(*span),
        }
    }
}

/// A refusal, or there is not enough memory.
#[derive(Debug, Drop)]
pub enum Fault {
    /// The program is refused.
    Refused(Refusal),
    /// A request for memory was not met.
    NoMemory,
}

impl From<NoMemory> for Fault {
    ghost use Rattle.std.specs.Prelude.{◌≡◌};
    ghost use Rattle.gh_base.specs.declared.refusal.Fault.TheVariants as fault;

    ghost from_gives = { λ _ e. e ≡ fault.NoMemory };

    fn from(_: NoMemory) -> Fault {
        Fault::NoMemory
    }
}
