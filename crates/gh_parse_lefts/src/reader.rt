// The reader of left sides. What stands between parentheses at the front is read as a left side.
ghost use Rattle.std.specs.Prelude.{◌≡◌, MatchResult};
ghost use Rattle.gh_tree.specs.ReadPatterns.{arg};
ghost use Rattle.gh_parse_lefts.specs.Lefts as spec;
ghost use Rattle.gh_parse_lefts.specs.Wholes.{Nests, Spells, Refuses};
ghost use Rattle.gh_reader.specs.Reads.{Reads};

use crate::fronts::{behind_inside, operand_front, var_front};
use crate::operands::go;
use crate::sides::{Front, Left, Side, left_of};
use gh_reader::{Stop, Tokens, gen_con_next, var_next};
use gh_tree::{Kind, Sym};
use std::alloc::Global;

// How many bytes of the stack one level of left sides may use: its readers, the measure of its depth, and its dropping.
const LEVEL: u32 = 3600;

/// The rules in which a left side may stand inside, with the reader of that one.
#[derive(Clone, Copy)]
pub struct Reader<F> {
    /// Where trees are made.
    pub alloc: Global,
    /// How deep left sides may still nest.
    pub depth: usize,
    /// How deep patterns may nest.
    pub patterns: usize,
    /// The reader of a left side that stands inside.
    pub side: F,
}

impl<F: Fn(Global, &mut Tokens<'_>, usize) -> Result<Side, Stop>> Reader<F> {
    fn side(&self, tokens: &mut Tokens<'_>) -> Result<Side, Stop>
        requires { Nests self.now.depth (F.pre self.now.side) (F.post self.now.side) }
        ensures { Reads (spec.side self.now.depth tokens.old) result tokens.new }
    {
        tokens.go_down(LEVEL)?;
        let found = (self.side)(self.alloc, tokens, self.depth)?;
        tokens.go_up(LEVEL);
        Ok(found)
    }

    // `(`, where it begins neither a variable nor a constructor.
    #[tactic(auto, unfolding(crate::specs::Lefts::opened))]
    fn opened(&self, tokens: &mut Tokens<'_>, start: &[Sym]) -> Result<Front, Stop>
        requires { Nests self.now.depth (F.pre self.now.side) (F.post self.now.side) }
        ensures { Reads (spec.opened (arg self.now.patterns) (spec.side self.now.depth) start.now tokens.old) result tokens.new }
    {
        let left = tokens.take();
        let inside = self.side(tokens)?;
        behind_inside(self.alloc, tokens, self.patterns, start, left, inside)
    }

    // What stands at the front.
    #[tactic(auto, unfolding(crate::specs::Lefts::front))]
    fn front(&self, tokens: &mut Tokens<'_>, start: &[Sym]) -> Result<Front, Stop>
        requires { Nests self.now.depth (F.pre self.now.side) (F.post self.now.side) }
        ensures { Reads (spec.front (arg self.now.patterns) (spec.side self.now.depth) start.now tokens.old) result tokens.new }
    {
        if gen_con_next(tokens) {
            return operand_front(self.alloc, tokens, self.patterns);
        }
        if var_next(tokens) {
            return var_front(self.alloc, tokens, self.patterns, start);
        }
        if matches!(tokens.kind(), Some(Kind::Open)) {
            return self.opened(tokens, start);
        }
        operand_front(self.alloc, tokens, self.patterns)
    }

    #[tactic(auto, unfolding(crate::specs::Lefts::whole))]
    fn whole(&self, tokens: &mut Tokens<'_>) -> Result<Side, Stop>
        requires { Nests self.now.depth (F.pre self.now.side) (F.post self.now.side) }
        ensures { Reads (spec.whole (arg self.now.patterns) (spec.side self.now.depth) tokens.old) result tokens.new }
    {
        let start = tokens.rest();
        let front = self.front(tokens, start)?;
        go(self.alloc, tokens, self.patterns, start, front)
    }
}

// A left side from the front of these tokens, where it nests at most so deep.
fn side(alloc: Global, tokens: &mut Tokens<'_>, depth: usize) -> Result<Side, Stop>
    ensures { Reads (spec.side depth tokens.old) result tokens.new }
{
    if depth == 0 {
        return Err(Stop::NoParse);
    }
    Reader {
        alloc,
        depth: depth - 1,
        patterns: depth,
        side,
    }
    .whole(tokens)
}

/// The left side of a declaration from the front of these tokens, where it nests at most so deep. `NoParse` where no left
/// side begins there.
#[tactic(auto, unfolding(crate::specs::Lefts::left))]
pub fn left(alloc: Global, tokens: &mut Tokens<'_>, depth: usize) -> Result<Left, Stop>
    ensures { Reads (spec.left depth tokens.old) result tokens.new }
{
    let side = side(alloc, tokens, depth)?;
    left_of(alloc, side)
}

/// The one left side whose tokens these are. `NoParse` where there is none.
pub fn parse_left(alloc: Global, syms: &[Sym]) -> Result<Left, Stop>
    ensures { MatchResult result (Spells syms.now) (λ e. Refuses e syms.now) }
{
    let mut tokens = Tokens::new(syms);
    let found = left(alloc, &mut tokens, syms.len())?;
    if !tokens.is_empty() {
        return Err(Stop::NoParse);
    }
    Ok(found)
}
