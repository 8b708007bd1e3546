// The reader of patterns. Its rules take the reader of an argument as a parameter, so that each is proved by itself.
ghost use Rattle.std.specs.Prelude.{◌≡◌, MatchResult};
ghost use Rattle.gh_tree.specs.Read as read;
ghost use Rattle.gh_tree.specs.ReadPatterns as spec;
ghost use Rattle.gh_reader.specs.Reads.{Reads};
ghost use Rattle.gh_parse_patterns.specs.Patterns.{Nests, Spells, Refuses};

use crate::arguments::{begins_arg, paren, signed};
use gh_base::{ListOf, Span};
use gh_reader::{
    Stop, Tokens, close, close_list, con_op, con_op_next, gen_con, gen_con_next, is_comma, var,
    var_next,
};
use gh_tree::{ArgPattern, GenCon, Kind, NextPattern, PatOperand, PatPart, Pattern, Sym, Var};
use sqlite_items::Boxed;
use std::alloc::Global;

// How many bytes of the stack one level of patterns may use: its readers, the measure of its depth, and its dropping.
const LEVEL: u32 = 3750;

/// The reader of patterns of the level below.
#[derive(Clone, Copy)]
pub struct Reader<F> {
    pub alloc: Global,
    /// How deep patterns may still nest.
    pub depth: usize,
    pub arg: F,
}

impl<F: Fn(Global, &mut Tokens<'_>, usize) -> Result<Boxed<ArgPattern>, Stop>> Reader<F> {
    fn arg(&self, tokens: &mut Tokens<'_>) -> Result<Boxed<ArgPattern>, Stop>
        requires { Nests self.now.depth (F.pre self.now.arg) (F.post self.now.arg) }
        ensures { Reads (spec.arg self.now.depth tokens.old) result tokens.new }
    {
        tokens.go_down(LEVEL)?;
        let found = (self.arg)(self.alloc, tokens, self.depth)?;
        tokens.go_up(LEVEL);
        Ok(found)
    }

    fn args(&self, tokens: &mut Tokens<'_>) -> Result<ListOf<ArgPattern>, Stop>
        requires { Nests self.now.depth (F.pre self.now.arg) (F.post self.now.arg) }
        ensures { Reads (spec.args (spec.arg self.now.depth) tokens.old) result tokens.new }
    {
        let mut found = ListOf::new(self.alloc);
        for _turn in 0..tokens.rest().len() {
            if !begins_arg(tokens.kind()) {
                return Ok(found);
            }
            found.push(self.arg(tokens)?.into_inner())?;
        }
        Ok(found)
    }

    // The arguments of a constructor behind its first one.
    #[tactic(auto, unfolding(gh_tree::specs::ReadPatterns::applied_con))]
    fn applied_con(
        &self,
        tokens: &mut Tokens<'_>,
        start: &[Sym],
        con: GenCon,
    ) -> Result<PatOperand, Stop>
        requires { Nests self.now.depth (F.pre self.now.arg) (F.post self.now.arg) }
        ensures { Reads (spec.applied_con (spec.arg self.now.depth) start.now con tokens.old) result tokens.new }
    {
        let first = self.arg(tokens)?;
        let others = self.args(tokens)?;
        Ok(PatOperand::Con(tokens.since(start), con, first, others))
    }

    // A constructor, with its arguments where it has any.
    #[tactic(auto, unfolding(gh_tree::specs::ReadPatterns::con_operand))]
    fn con_operand(&self, tokens: &mut Tokens<'_>, start: &[Sym]) -> Result<PatOperand, Stop>
        requires { Nests self.now.depth (F.pre self.now.arg) (F.post self.now.arg) }
        ensures { Reads (spec.con_operand (spec.arg self.now.depth) start.now tokens.old) result tokens.new }
    {
        let con = gen_con(self.alloc, tokens)?;
        if begins_arg(tokens.kind()) {
            return self.applied_con(tokens, start, con);
        }
        Ok(PatOperand::Arg(Boxed::new(self.alloc, ArgPattern::Con(con))?))
    }

    // An operand that does not begin with a constructor.
    #[tactic(auto, unfolding(gh_tree::specs::ReadPatterns::other_operand))]
    fn other_operand(&self, tokens: &mut Tokens<'_>) -> Result<PatOperand, Stop>
        requires { Nests self.now.depth (F.pre self.now.arg) (F.post self.now.arg) }
        ensures { Reads (spec.other_operand (spec.arg self.now.depth) tokens.old) result tokens.new }
    {
        match tokens.kind() {
            Some(Kind::VarSym(None, name)) => signed(tokens, *name),
            _ => Ok(PatOperand::Arg(self.arg(tokens)?)),
        }
    }

    #[tactic(auto, unfolding(gh_tree::specs::ReadPatterns::operand))]
    fn operand(&self, tokens: &mut Tokens<'_>) -> Result<PatOperand, Stop>
        requires { Nests self.now.depth (F.pre self.now.arg) (F.post self.now.arg) }
        ensures { Reads (spec.operand (spec.arg self.now.depth) tokens.old) result tokens.new }
    {
        if gen_con_next(tokens) {
            let start = tokens.rest();
            return self.con_operand(tokens, start);
        }
        self.other_operand(tokens)
    }

    // An operator and an operand.
    #[tactic(auto, unfolding(gh_tree::specs::ReadPatterns::next_pattern))]
    fn next_pattern(&self, tokens: &mut Tokens<'_>) -> Result<NextPattern, Stop>
        requires { Nests self.now.depth (F.pre self.now.arg) (F.post self.now.arg) }
        ensures { Reads (spec.next_pattern (spec.arg self.now.depth) tokens.old) result tokens.new }
    {
        let op = con_op(tokens)?;
        let operand = self.operand(tokens)?;
        Ok(NextPattern { op, operand })
    }

    fn next_patterns(&self, tokens: &mut Tokens<'_>) -> Result<ListOf<NextPattern>, Stop>
        requires { Nests self.now.depth (F.pre self.now.arg) (F.post self.now.arg) }
        ensures { Reads (spec.next_patterns (spec.arg self.now.depth) tokens.old) result tokens.new }
    {
        let mut found = ListOf::new(self.alloc);
        for _turn in 0..tokens.rest().len() {
            if !con_op_next(tokens) {
                return Ok(found);
            }
            found.push(self.next_pattern(tokens)?)?;
        }
        Ok(found)
    }

    #[tactic(auto, unfolding(gh_tree::specs::ReadPatterns::pattern))]
    fn pattern(&self, tokens: &mut Tokens<'_>) -> Result<Boxed<Pattern>, Stop>
        requires { Nests self.now.depth (F.pre self.now.arg) (F.post self.now.arg) }
        ensures { Reads (spec.pattern (spec.arg self.now.depth) tokens.old) result tokens.new }
    {
        let start = tokens.rest();
        let first = self.operand(tokens)?;
        let others = self.next_patterns(tokens)?;
        let span = tokens.since(start);
        Ok(Boxed::new(
            self.alloc,
            Pattern {
                span,
                first,
                others,
            },
        )?)
    }

    // A comma and a pattern.
    #[tactic(auto, unfolding(gh_tree::specs::ReadPatterns::pat_part))]
    fn pat_part(&self, tokens: &mut Tokens<'_>) -> Result<PatPart, Stop>
        requires { Nests self.now.depth (F.pre self.now.arg) (F.post self.now.arg) }
        ensures { Reads (spec.pat_part (spec.arg self.now.depth) tokens.old) result tokens.new }
    {
        let mark = tokens.take();
        let part = self.pattern(tokens)?;
        Ok(PatPart {
            mark,
            part: part.into_inner(),
        })
    }

    fn pat_parts(&self, tokens: &mut Tokens<'_>) -> Result<ListOf<PatPart>, Stop>
        requires { Nests self.now.depth (F.pre self.now.arg) (F.post self.now.arg) }
        ensures { Reads (spec.pat_parts (spec.arg self.now.depth) tokens.old) result tokens.new }
    {
        let mut found = ListOf::new(self.alloc);
        for _turn in 0..tokens.rest().len() {
            if !is_comma(tokens.kind()) {
                return Ok(found);
            }
            found.push(self.pat_part(tokens)?)?;
        }
        Ok(found)
    }

    // The other parts of a tuple, and `)`.
    #[tactic(auto, unfolding(gh_tree::specs::ReadPatterns::enclosed))]
    fn enclosed(
        &self,
        tokens: &mut Tokens<'_>,
        start: &[Sym],
        left: Span,
        first: Boxed<Pattern>,
    ) -> Result<ArgPattern, Stop>
        requires { Nests self.now.depth (F.pre self.now.arg) (F.post self.now.arg) }
        ensures { Reads (spec.enclosed (spec.arg self.now.depth) start.now left first tokens.old) result tokens.new }
    {
        let others = self.pat_parts(tokens)?;
        let close = close(tokens)?;
        let count = others.as_slice().len();
        if count == 0 || count > 6 {
            return Err(Stop::NoParse);
        }
        Ok(ArgPattern::Tuple(tokens.since(start), left, first, others, close))
    }

    // What stands behind `(` and a pattern.
    #[tactic(auto, unfolding(gh_tree::specs::ReadPatterns::behind))]
    fn behind(
        &self,
        tokens: &mut Tokens<'_>,
        start: &[Sym],
        left: Span,
        first: Boxed<Pattern>,
    ) -> Result<ArgPattern, Stop>
        requires { Nests self.now.depth (F.pre self.now.arg) (F.post self.now.arg) }
        ensures { Reads (spec.behind (spec.arg self.now.depth) start.now left first tokens.old) result tokens.new }
    {
        match tokens.kind() {
            Some(Kind::Comma) => self.enclosed(tokens, start, left, first),
            _ => paren(tokens, start, left, first),
        }
    }

    // What stands behind `(`.
    #[tactic(auto, unfolding(gh_tree::specs::ReadPatterns::opened))]
    fn opened(&self, tokens: &mut Tokens<'_>, start: &[Sym], left: Span) -> Result<ArgPattern, Stop>
        requires { Nests self.now.depth (F.pre self.now.arg) (F.post self.now.arg) }
        ensures { Reads (spec.opened (spec.arg self.now.depth) start.now left tokens.old) result tokens.new }
    {
        let first = self.pattern(tokens)?;
        self.behind(tokens, start, left, first)
    }

    // What stands behind `[`.
    #[tactic(auto, unfolding(gh_tree::specs::ReadPatterns::listed))]
    fn listed(&self, tokens: &mut Tokens<'_>, start: &[Sym], left: Span) -> Result<ArgPattern, Stop>
        requires { Nests self.now.depth (F.pre self.now.arg) (F.post self.now.arg) }
        ensures { Reads (spec.listed (spec.arg self.now.depth) start.now left tokens.old) result tokens.new }
    {
        let first = self.pattern(tokens)?;
        let others = self.pat_parts(tokens)?;
        let close = close_list(tokens)?;
        Ok(ArgPattern::List(tokens.since(start), left, first, others, close))
    }

    // What stands behind a variable and `@`.
    #[tactic(auto, unfolding(gh_tree::specs::ReadPatterns::as_end))]
    fn as_end(
        &self,
        tokens: &mut Tokens<'_>,
        start: &[Sym],
        name: Var,
        mark: Span,
    ) -> Result<ArgPattern, Stop>
        requires { Nests self.now.depth (F.pre self.now.arg) (F.post self.now.arg) }
        ensures { Reads (spec.as_end (spec.arg self.now.depth) start.now name mark tokens.old) result tokens.new }
    {
        let inner = self.arg(tokens)?;
        Ok(ArgPattern::As(tokens.since(start), name, mark, inner))
    }

    // A variable, alone or with a pattern behind `@`.
    #[tactic(auto, unfolding(gh_tree::specs::ReadPatterns::var_arg, gh_tree::specs::ReadPatterns::after_var))]
    fn var_arg(&self, tokens: &mut Tokens<'_>, start: &[Sym]) -> Result<ArgPattern, Stop>
        requires { Nests self.now.depth (F.pre self.now.arg) (F.post self.now.arg) }
        ensures { Reads (spec.var_arg (spec.arg self.now.depth) start.now tokens.old) result tokens.new }
    {
        let name = var(tokens)?;
        match tokens.kind() {
            Some(Kind::At) => {
                let mark = tokens.take();
                self.as_end(tokens, start, name, mark)
            }
            _ => Ok(ArgPattern::Var(name)),
        }
    }

    // An argument that is no constructor and no variable.
    #[tactic(auto, unfolding(gh_tree::specs::ReadPatterns::other_arg))]
    fn other_arg(&self, tokens: &mut Tokens<'_>, start: &[Sym]) -> Result<ArgPattern, Stop>
        requires { Nests self.now.depth (F.pre self.now.arg) (F.post self.now.arg) }
        ensures { Reads (spec.other_arg (spec.arg self.now.depth) start.now tokens.old) result tokens.new }
    {
        match tokens.kind() {
            Some(Kind::Int(value)) => Ok(ArgPattern::Int(tokens.take(), *value)),
            Some(Kind::Char(value)) => Ok(ArgPattern::Char(tokens.take(), *value)),
            Some(Kind::Str(text)) => {
                let mut copied = ListOf::new(self.alloc);
                copied.extend_from_slice(text.as_slice())?;
                Ok(ArgPattern::Str(tokens.take(), copied))
            }
            Some(Kind::Underscore) => Ok(ArgPattern::Wild(tokens.take())),
            Some(Kind::Open) => {
                let left = tokens.take();
                self.opened(tokens, start, left)
            }
            Some(Kind::OpenList) => {
                let left = tokens.take();
                self.listed(tokens, start, left)
            }
            _ => Err(Stop::NoParse),
        }
    }

    // An argument.
    #[tactic(auto, unfolding(gh_tree::specs::ReadPatterns::whole_arg))]
    fn chosen_arg(&self, tokens: &mut Tokens<'_>) -> Result<ArgPattern, Stop>
        requires { Nests self.now.depth (F.pre self.now.arg) (F.post self.now.arg) }
        ensures { Reads (spec.whole_arg (spec.arg self.now.depth) tokens.old) result tokens.new }
    {
        if gen_con_next(tokens) {
            return Ok(ArgPattern::Con(gen_con(self.alloc, tokens)?));
        }
        let start = tokens.rest();
        if var_next(tokens) {
            return self.var_arg(tokens, start);
        }
        self.other_arg(tokens, start)
    }

    fn whole_arg(&self, tokens: &mut Tokens<'_>) -> Result<Boxed<ArgPattern>, Stop>
        requires { Nests self.now.depth (F.pre self.now.arg) (F.post self.now.arg) }
        ensures { Reads (spec.whole_arg (spec.arg self.now.depth) tokens.old) result tokens.new }
    {
        Ok(Boxed::new(self.alloc, self.chosen_arg(tokens)?)?)
    }
}

/// A pattern that may be an argument from the front of these tokens, where it nests at most so deep.
pub fn arg(alloc: Global, tokens: &mut Tokens<'_>, depth: usize) -> Result<Boxed<ArgPattern>, Stop>
    ensures { Reads (spec.arg depth tokens.old) result tokens.new }
{
    if depth == 0 {
        return Err(Stop::NoParse);
    }
    Reader {
        alloc,
        depth: depth - 1,
        arg,
    }
    .whole_arg(tokens)
}

/// As many patterns that may be arguments as stand at the front of these tokens, where they nest at most so deep.
pub fn args(
    alloc: Global,
    tokens: &mut Tokens<'_>,
    depth: usize,
) -> Result<ListOf<ArgPattern>, Stop>
    ensures { Reads (spec.args (spec.arg depth) tokens.old) result tokens.new }
{
    Reader { alloc, depth, arg }.args(tokens)
}

/// An operand of a pattern from the front of these tokens, where its arguments nest at most so deep.
pub fn operand(alloc: Global, tokens: &mut Tokens<'_>, depth: usize) -> Result<PatOperand, Stop>
    ensures { Reads (spec.operand (spec.arg depth) tokens.old) result tokens.new }
{
    Reader { alloc, depth, arg }.operand(tokens)
}

/// As many constructor operators, each with the operand behind it, as stand at the front of these tokens, where
/// arguments nest at most so deep.
pub fn next_patterns(
    alloc: Global,
    tokens: &mut Tokens<'_>,
    depth: usize,
) -> Result<ListOf<NextPattern>, Stop>
    ensures { Reads (spec.next_patterns (spec.arg depth) tokens.old) result tokens.new }
{
    Reader { alloc, depth, arg }.next_patterns(tokens)
}

/// As many commas, each with the pattern behind it, as stand at the front of these tokens, where arguments nest at
/// most so deep.
pub fn pat_parts(
    alloc: Global,
    tokens: &mut Tokens<'_>,
    depth: usize,
) -> Result<ListOf<PatPart>, Stop>
    ensures { Reads (spec.pat_parts (spec.arg depth) tokens.old) result tokens.new }
{
    Reader { alloc, depth, arg }.pat_parts(tokens)
}

/// A pattern from the front of these tokens, where its arguments nest at most so deep.
pub fn pattern(alloc: Global, tokens: &mut Tokens<'_>, depth: usize) -> Result<Boxed<Pattern>, Stop>
    ensures { Reads (spec.pattern (spec.arg depth) tokens.old) result tokens.new }
{
    Reader { alloc, depth, arg }.pattern(tokens)
}

/// The one pattern whose tokens these are.
pub fn parse_pattern(alloc: Global, syms: &[Sym]) -> Result<Boxed<Pattern>, Stop>
    ensures { MatchResult result (Spells syms.now) (λ e. Refuses e syms.now) }
{
    let mut tokens = Tokens::new(syms);
    let found = pattern(alloc, &mut tokens, syms.len())?;
    if !tokens.is_empty() {
        return Err(Stop::NoParse);
    }
    Ok(found)
}
