// The rules of expressions and declarations take the readers of what nests as parameters, so that each is proved by
// itself.
ghost use Rattle.gh_reader.specs.Reads.{Reads};
ghost use Rattle.gh_parse_exps.specs.Reading.{NestsExp, NestsDecls};
ghost use Rattle.gh_parse_exps.specs.Exps as spec;
ghost use Rattle.gh_parse_exps.specs.Decls as decls;

use crate::narrow::{operands_open, plain_of};
use gh_parse_lefts::Left;
use gh_reader::{Stop, Tokens};
use gh_tree::{ArgPattern, Decls, Exp, OperandList, TypeExpr};
use sqlite_items::Boxed;
use std::alloc::Global;

/// The readers of the level below: of expressions and of blocks of declarations.
#[derive(Clone, Copy)]
pub struct Reader<F, G> {
    pub alloc: Global,
    /// How deep expressions and declarations may still nest.
    pub depth: usize,
    pub exp: F,
    pub decls: G,
}

impl<
    F: Fn(Global, &mut Tokens<'_>, usize) -> Result<Exp, Stop>,
    G: Fn(Global, &mut Tokens<'_>, usize) -> Result<Boxed<Decls>, Stop>,
> Reader<F, G> {
    /// An expression inside this one, by a level of so many bytes of the stack.
    #[inline(always)]
    pub fn exp(&self, tokens: &mut Tokens<'_>, bytes: u32) -> Result<Exp, Stop>
        requires { NestsExp self.now.depth (F.pre self.now.exp) (F.post self.now.exp) }
        ensures { Reads ((spec.knot self.now.depth).exp tokens.old) result tokens.new }
    {
        tokens.go_down(bytes)?;
        let found = (self.exp)(self.alloc, tokens, self.depth)?;
        tokens.go_up(bytes);
        Ok(found)
    }

    /// A block of declarations inside this one, by a level of so many bytes of the stack.
    #[inline(always)]
    pub fn decls(&self, tokens: &mut Tokens<'_>, bytes: u32) -> Result<Boxed<Decls>, Stop>
        requires { NestsDecls self.now.depth (G.pre self.now.decls) (G.post self.now.decls) }
        ensures { Reads ((spec.knot self.now.depth).decls tokens.old) result tokens.new }
    {
        tokens.go_down(bytes)?;
        let found = (self.decls)(self.alloc, tokens, self.depth)?;
        tokens.go_up(bytes);
        Ok(found)
    }

    /// The type that the tokens begin with; they go on behind it.
    pub fn type_expr(&self, tokens: &mut Tokens<'_>) -> Result<Boxed<TypeExpr>, Stop>
        ensures { Reads ((spec.knot self.now.depth).typ tokens.old) result tokens.new }
    {
        gh_parse_types::type_expr(self.alloc, tokens, self.depth)
    }

    /// The argument pattern that the tokens begin with; they go on behind it.
    pub fn arg(&self, tokens: &mut Tokens<'_>) -> Result<Boxed<ArgPattern>, Stop>
        ensures { Reads ((spec.knot self.now.depth).arg tokens.old) result tokens.new }
    {
        gh_parse_patterns::arg(self.alloc, tokens, self.depth)
    }

    /// The left side of a declaration that the tokens begin with; they go on behind it.
    #[inline(never)]
    pub fn left(&self, tokens: &mut Tokens<'_>) -> Result<Boxed<Left>, Stop>
        ensures { Reads ((spec.knot self.now.depth).left tokens.old) result tokens.new }
    {
        let left = gh_parse_lefts::left(self.alloc, tokens, self.depth)?;
        Ok(Boxed::new(self.alloc, left)?)
    }

    /// Operands without a type, by a level of so many bytes of the stack.
    #[tactic(auto, unfolding(crate::specs::Decls::plain))]
    #[inline(never)]
    pub fn plain(&self, tokens: &mut Tokens<'_>, bytes: u32) -> Result<Boxed<OperandList>, Stop>
        requires { NestsExp self.now.depth (F.pre self.now.exp) (F.post self.now.exp) }
        ensures { Reads (decls.plain (spec.knot self.now.depth) tokens.old) result tokens.new }
    {
        match plain_of(self.exp(tokens, bytes)?) {
            None => Err(Stop::NoParse),
            Some(operands) => Ok(operands),
        }
    }

    /// Operands without a type, of which none goes on to the right, by a level of so many bytes of the stack.
    #[tactic(auto, unfolding(crate::specs::Decls::closed))]
    #[inline(never)]
    pub fn closed(&self, tokens: &mut Tokens<'_>, bytes: u32) -> Result<Boxed<OperandList>, Stop>
        requires { NestsExp self.now.depth (F.pre self.now.exp) (F.post self.now.exp) }
        ensures { Reads (decls.closed (spec.knot self.now.depth) tokens.old) result tokens.new }
    {
        match plain_of(self.exp(tokens, bytes)?) {
            None => Err(Stop::NoParse),
            Some(operands) => {
                if operands_open(operands.get()) {
                    return Err(Stop::NoParse);
                }
                Ok(operands)
            }
        }
    }
}
