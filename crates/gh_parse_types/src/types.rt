// The reader of types. Its rules take the reader of a whole type as a parameter, so that each is proved by itself.
ghost use Rattle.std.specs.Prelude.{option_copied, ◌≡◌, MatchResult};
ghost use Rattle.gh_tree.specs.Read as read;
ghost use Rattle.gh_tree.specs.ReadTypes as spec;
ghost use Rattle.gh_reader.specs.Reads.{Reads};
ghost use Rattle.gh_parse_types.specs.Types.{Nests, Spells, Refuses};

use gh_base::{ListOf, Span};
use gh_reader::{Stop, Tokens, close, close_list, commas, is_comma};
use gh_tree::{ArgType, Arrow, BType, Kind, Name, Sym, TypeExpr, TypePart};
use sqlite_items::Boxed;
use std::alloc::Global;

// How many bytes of the stack one level of types may use: its readers, the measure of its depth, and its dropping.
const LEVEL: u32 = 3400;

/// The reader of types of the level below.
#[derive(Clone, Copy)]
pub struct Reader<F> {
    pub alloc: Global,
    /// How deep types may still nest.
    pub depth: usize,
    pub type_expr: F,
}

// Whether a token begins a type that may be an argument.
fn begins_arg(kind: Option<&Kind>) -> bool
    ensures { result ≡ spec.begins_arg_by (option_copied kind.entry) }
{
    match kind {
        Some(Kind::ConId(..)) | Some(Kind::VarId(None, _)) => true,
        Some(Kind::Open) | Some(Kind::OpenList) => true,
        _ => false,
    }
}

// Whether this is `->`.
fn is_arrow(kind: Option<&Kind>) -> bool
    ensures { result ≡ read.is_arrow (option_copied kind.entry) }
{
    matches!(kind, Some(Kind::Arrow))
}

// `)`, behind `(`.
#[tactic(auto, unfolding(gh_tree::specs::ReadTypes::unit))]
fn unit(tokens: &mut Tokens<'_>, start: &[Sym], left: Span) -> Result<ArgType, Stop>
    ensures { Reads (spec.unit start.now left tokens.old) result tokens.new }
{
    let close = tokens.take();
    Ok(ArgType::Unit(tokens.since(start), left, close))
}

// `]`, behind `[`.
#[tactic(auto, unfolding(gh_tree::specs::ReadTypes::no_list))]
fn no_list(tokens: &mut Tokens<'_>, start: &[Sym], left: Span) -> Result<ArgType, Stop>
    ensures { Reads (spec.no_list start.now left tokens.old) result tokens.new }
{
    let close = tokens.take();
    Ok(ArgType::NoList(tokens.since(start), left, close))
}

// `->` and `)`, behind `(`.
#[tactic(auto, unfolding(gh_tree::specs::ReadTypes::no_arrow))]
fn no_arrow(tokens: &mut Tokens<'_>, start: &[Sym], left: Span) -> Result<ArgType, Stop>
    ensures { Reads (spec.no_arrow start.now left tokens.old) result tokens.new }
{
    let arrow = tokens.take();
    let close = close(tokens)?;
    Ok(ArgType::NoArrow(tokens.since(start), left, arrow, close))
}

// Commas and `)`, behind `(`.
#[tactic(auto, unfolding(gh_tree::specs::ReadTypes::no_tuple))]
fn no_tuple(
    alloc: Global,
    tokens: &mut Tokens<'_>,
    start: &[Sym],
    left: Span,
) -> Result<ArgType, Stop>
    ensures { Reads (spec.no_tuple start.now left tokens.old) result tokens.new }
{
    let marks = commas(alloc, tokens)?;
    let close = close(tokens)?;
    let count = marks.as_slice().len();
    if count == 0 || count > 6 {
        return Err(Stop::NoParse);
    }
    Ok(ArgType::NoTuple(tokens.since(start), left, marks, close))
}

// `)`, behind `(` and a type.
#[tactic(auto, unfolding(gh_tree::specs::ReadTypes::paren))]
fn paren(
    tokens: &mut Tokens<'_>,
    start: &[Sym],
    left: Span,
    first: Boxed<TypeExpr>,
) -> Result<ArgType, Stop>
    ensures { Reads (spec.paren start.now left first tokens.old) result tokens.new }
{
    let close = close(tokens)?;
    Ok(ArgType::Paren(tokens.since(start), left, first, close))
}

// `]`, behind `[` and a type.
#[tactic(auto, unfolding(gh_tree::specs::ReadTypes::list_end))]
fn list_end(
    tokens: &mut Tokens<'_>,
    start: &[Sym],
    left: Span,
    first: Boxed<TypeExpr>,
) -> Result<ArgType, Stop>
    ensures { Reads (spec.list_end start.now left first tokens.old) result tokens.new }
{
    let close = close_list(tokens)?;
    Ok(ArgType::List(tokens.since(start), left, first, close))
}

impl<F: Fn(Global, &mut Tokens<'_>, usize) -> Result<Boxed<TypeExpr>, Stop>> Reader<F> {
    fn type_expr(&self, tokens: &mut Tokens<'_>) -> Result<Boxed<TypeExpr>, Stop>
        requires { Nests self.now.depth (F.pre self.now.type_expr) (F.post self.now.type_expr) }
        ensures { Reads (spec.type_expr self.now.depth tokens.old) result tokens.new }
    {
        tokens.go_down(LEVEL)?;
        let found = (self.type_expr)(self.alloc, tokens, self.depth)?;
        tokens.go_up(LEVEL);
        Ok(found)
    }

    // A comma and a type.
    #[tactic(auto, unfolding(gh_tree::specs::ReadTypes::type_part))]
    fn type_part(&self, tokens: &mut Tokens<'_>) -> Result<TypePart, Stop>
        requires { Nests self.now.depth (F.pre self.now.type_expr) (F.post self.now.type_expr) }
        ensures { Reads (spec.type_part (spec.type_expr self.now.depth) tokens.old) result tokens.new }
    {
        let mark = tokens.take();
        let part = self.type_expr(tokens)?;
        Ok(TypePart {
            mark,
            part: part.into_inner(),
        })
    }

    fn type_parts(&self, tokens: &mut Tokens<'_>) -> Result<ListOf<TypePart>, Stop>
        requires { Nests self.now.depth (F.pre self.now.type_expr) (F.post self.now.type_expr) }
        ensures { Reads (spec.type_parts (spec.type_expr self.now.depth) tokens.old) result tokens.new }
    {
        let mut found = ListOf::new(self.alloc);
        for _turn in 0..tokens.rest().len() {
            if !is_comma(tokens.kind()) {
                return Ok(found);
            }
            found.push(self.type_part(tokens)?)?;
        }
        Ok(found)
    }

    // The other parts of a tuple, and `)`.
    #[tactic(auto, unfolding(gh_tree::specs::ReadTypes::enclosed))]
    fn enclosed(
        &self,
        tokens: &mut Tokens<'_>,
        start: &[Sym],
        left: Span,
        first: Boxed<TypeExpr>,
    ) -> Result<ArgType, Stop>
        requires { Nests self.now.depth (F.pre self.now.type_expr) (F.post self.now.type_expr) }
        ensures { Reads (spec.enclosed (spec.type_expr self.now.depth) start.now left first tokens.old) result tokens.new }
    {
        let others = self.type_parts(tokens)?;
        let close = close(tokens)?;
        let count = others.as_slice().len();
        if count == 0 || count > 6 {
            return Err(Stop::NoParse);
        }
        Ok(ArgType::Tuple(tokens.since(start), left, first, others, close))
    }

    // What stands behind `(` and a type.
    #[tactic(auto, unfolding(gh_tree::specs::ReadTypes::behind))]
    fn behind(
        &self,
        tokens: &mut Tokens<'_>,
        start: &[Sym],
        left: Span,
        first: Boxed<TypeExpr>,
    ) -> Result<ArgType, Stop>
        requires { Nests self.now.depth (F.pre self.now.type_expr) (F.post self.now.type_expr) }
        ensures { Reads (spec.behind (spec.type_expr self.now.depth) start.now left first tokens.old) result tokens.new }
    {
        match tokens.kind() {
            Some(Kind::Comma) => self.enclosed(tokens, start, left, first),
            _ => paren(tokens, start, left, first),
        }
    }

    // What stands behind `(`.
    #[tactic(auto, unfolding(gh_tree::specs::ReadTypes::opened))]
    fn opened(&self, tokens: &mut Tokens<'_>, start: &[Sym], left: Span) -> Result<ArgType, Stop>
        requires { Nests self.now.depth (F.pre self.now.type_expr) (F.post self.now.type_expr) }
        ensures { Reads (spec.opened (spec.type_expr self.now.depth) start.now left tokens.old) result tokens.new }
    {
        match tokens.kind() {
            Some(Kind::Close) => unit(tokens, start, left),
            Some(Kind::Arrow) => no_arrow(tokens, start, left),
            Some(Kind::Comma) => no_tuple(self.alloc, tokens, start, left),
            _ => {
                let first = self.type_expr(tokens)?;
                self.behind(tokens, start, left, first)
            }
        }
    }

    // What stands behind `[`.
    #[tactic(auto, unfolding(gh_tree::specs::ReadTypes::listed))]
    fn listed(&self, tokens: &mut Tokens<'_>, start: &[Sym], left: Span) -> Result<ArgType, Stop>
        requires { Nests self.now.depth (F.pre self.now.type_expr) (F.post self.now.type_expr) }
        ensures { Reads (spec.listed (spec.type_expr self.now.depth) start.now left tokens.old) result tokens.new }
    {
        match tokens.kind() {
            Some(Kind::CloseList) => no_list(tokens, start, left),
            _ => {
                let first = self.type_expr(tokens)?;
                list_end(tokens, start, left, first)
            }
        }
    }

    #[tactic(auto, unfolding(gh_tree::specs::ReadTypes::arg_type))]
    fn arg_type(&self, tokens: &mut Tokens<'_>) -> Result<ArgType, Stop>
        requires { Nests self.now.depth (F.pre self.now.type_expr) (F.post self.now.type_expr) }
        ensures { Reads (spec.arg_type (spec.type_expr self.now.depth) tokens.old) result tokens.new }
    {
        let start = tokens.rest();
        match tokens.kind() {
            Some(Kind::ConId(qualifier, id)) => Ok(ArgType::Con(Name {
                span: tokens.take(),
                qualifier: *qualifier,
                id: *id,
            })),
            Some(Kind::VarId(None, id)) => Ok(ArgType::Var(Name {
                span: tokens.take(),
                qualifier: None,
                id: *id,
            })),
            Some(Kind::Open) => {
                let left = tokens.take();
                self.opened(tokens, start, left)
            }
            Some(Kind::OpenList) => {
                let left = tokens.take();
                self.listed(tokens, start, left)
            }
            _ => Err(Stop::NoParse),
        }
    }

    fn arg_types(&self, tokens: &mut Tokens<'_>) -> Result<ListOf<ArgType>, Stop>
        requires { Nests self.now.depth (F.pre self.now.type_expr) (F.post self.now.type_expr) }
        ensures { Reads (spec.arg_types (spec.type_expr self.now.depth) tokens.old) result tokens.new }
    {
        let mut found = ListOf::new(self.alloc);
        for _turn in 0..tokens.rest().len() {
            if !begins_arg(tokens.kind()) {
                return Ok(found);
            }
            found.push(self.arg_type(tokens)?)?;
        }
        Ok(found)
    }

    #[tactic(auto, unfolding(gh_tree::specs::ReadTypes::btype))]
    fn btype(&self, tokens: &mut Tokens<'_>) -> Result<BType, Stop>
        requires { Nests self.now.depth (F.pre self.now.type_expr) (F.post self.now.type_expr) }
        ensures { Reads (spec.btype (spec.type_expr self.now.depth) tokens.old) result tokens.new }
    {
        let start = tokens.rest();
        let head = self.arg_type(tokens)?;
        let args = self.arg_types(tokens)?;
        Ok(BType {
            span: tokens.since(start),
            head,
            args,
        })
    }

    // An arrow and a type.
    #[tactic(auto, unfolding(gh_tree::specs::ReadTypes::arrow))]
    fn arrow(&self, tokens: &mut Tokens<'_>) -> Result<Arrow, Stop>
        requires { Nests self.now.depth (F.pre self.now.type_expr) (F.post self.now.type_expr) }
        ensures { Reads (spec.arrow (spec.type_expr self.now.depth) tokens.old) result tokens.new }
    {
        let mark = tokens.take();
        let to = self.btype(tokens)?;
        Ok(Arrow { mark, to })
    }

    fn arrows(&self, tokens: &mut Tokens<'_>) -> Result<ListOf<Arrow>, Stop>
        requires { Nests self.now.depth (F.pre self.now.type_expr) (F.post self.now.type_expr) }
        ensures { Reads (spec.arrows (spec.type_expr self.now.depth) tokens.old) result tokens.new }
    {
        let mut found = ListOf::new(self.alloc);
        for _turn in 0..tokens.rest().len() {
            if !is_arrow(tokens.kind()) {
                return Ok(found);
            }
            found.push(self.arrow(tokens)?)?;
        }
        Ok(found)
    }

    #[tactic(auto, unfolding(gh_tree::specs::ReadTypes::whole))]
    fn whole(&self, tokens: &mut Tokens<'_>) -> Result<Boxed<TypeExpr>, Stop>
        requires { Nests self.now.depth (F.pre self.now.type_expr) (F.post self.now.type_expr) }
        ensures { Reads (spec.whole (spec.type_expr self.now.depth) tokens.old) result tokens.new }
    {
        let start = tokens.rest();
        let first = self.btype(tokens)?;
        let arrows = self.arrows(tokens)?;
        let span = tokens.since(start);
        Ok(Boxed::new(
            self.alloc,
            TypeExpr {
                span,
                first,
                arrows,
            },
        )?)
    }
}

/// A type from the front of these tokens, where it nests at most so deep.
pub fn type_expr(
    alloc: Global,
    tokens: &mut Tokens<'_>,
    depth: usize,
) -> Result<Boxed<TypeExpr>, Stop>
    ensures { Reads (spec.type_expr depth tokens.old) result tokens.new }
{
    if depth == 0 {
        return Err(Stop::NoParse);
    }
    Reader {
        alloc,
        depth: depth - 1,
        type_expr,
    }
    .whole(tokens)
}

/// A type that may be an argument from the front of these tokens, where types in it nest at most so deep.
pub fn arg_type(alloc: Global, tokens: &mut Tokens<'_>, depth: usize) -> Result<ArgType, Stop>
    ensures { Reads (spec.arg_type (spec.type_expr depth) tokens.old) result tokens.new }
{
    Reader {
        alloc,
        depth,
        type_expr,
    }
    .arg_type(tokens)
}

/// Types that may be arguments from the front of these tokens, as many as there are, where types in each nest at most
/// so deep.
pub fn arg_types(
    alloc: Global,
    tokens: &mut Tokens<'_>,
    depth: usize,
) -> Result<ListOf<ArgType>, Stop>
    ensures { Reads (spec.arg_types (spec.type_expr depth) tokens.old) result tokens.new }
{
    Reader {
        alloc,
        depth,
        type_expr,
    }
    .arg_types(tokens)
}

/// An applied type from the front of these tokens, where types in it nest at most so deep.
pub fn btype(alloc: Global, tokens: &mut Tokens<'_>, depth: usize) -> Result<BType, Stop>
    ensures { Reads (spec.btype (spec.type_expr depth) tokens.old) result tokens.new }
{
    Reader {
        alloc,
        depth,
        type_expr,
    }
    .btype(tokens)
}

/// The one type whose tokens these are.
pub fn parse_type(alloc: Global, syms: &[Sym]) -> Result<Boxed<TypeExpr>, Stop>
    ensures { MatchResult result (Spells syms.now) (λ e. Refuses e syms.now) }
{
    let mut tokens = Tokens::new(syms);
    let found = type_expr(alloc, &mut tokens, syms.len())?;
    if !tokens.is_empty() {
        return Err(Stop::NoParse);
    }
    Ok(found)
}
