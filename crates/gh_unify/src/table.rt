// The variables that were drawn, each with its type where it is solved.
ghost use Rattle.std.specs.Prelude.{◌≡◌, ℕ, ◌<◌, IfOk, length, Some};
ghost use Rattle.gh_unify.specs.Types.{inst, mono};
ghost use Rattle.gh_unify.specs.Kept.{AreDrawn, eqs_of};
ghost use Rattle.gh_unify.specs.Tables.{best, replaced, with_solved};

use gh_base::{ListOf, NoMemory};
use gh_typeterm::{Ty, TyNode, substitute};
use std::alloc::Global;

/// A variable that was drawn.
#[derive(Drop)]
pub struct Variable {
    /// The level of its scope.
    pub level: u32,
    /// Whether it stands for itself alone.
    pub rigid: bool,
    /// What it is solved to. All variables in it are unsolved.
    pub term: Option<Ty>,
}

/// A type with each solved variable replaced.
pub fn read(alloc: Global, kept: &[Variable], term: &Ty) -> Result<Ty, NoMemory>
    requires drawn { AreDrawn kept.now term.now }
    ensures { IfOk result (λ made. mono made ≡ inst (best (eqs_of kept.now)) (mono term.now)) }
{
    match term.get() {
        TyNode::Con(_) => term.share(),
        TyNode::Name(_) => term.share(),
        TyNode::Var(v) => match &kept[*v as usize].term {
            Some(solved) => solved.share(),
            None => term.share(),
        },
        TyNode::App(head, arg) => {
            let head = read(alloc, kept, head)?;
            let arg = read(alloc, kept, arg)?;
            Ty::app(alloc, head, arg)
        }
    }
}

/// A copy of the table, which shares its types.
pub fn copy(alloc: Global, kept: &[Variable]) -> Result<Vec<Variable>, NoMemory>
    ensures { IfOk result (λ made. made.items ≡ kept.now) }
{
    let mut made = Vec::new(alloc);
    for variable in kept {
        let term = match &variable.term {
            Some(term) => Some(term.share()?),
            None => None,
        };
        made.push(Variable {
            level: variable.level,
            rigid: variable.rigid,
            term,
        })?;
    }
    Ok(made)
}

/// The table with one more variable solved: its type stands for it in the others.
pub fn solved(
    alloc: Global,
    kept: &[Variable],
    number: u32,
    term: &Ty,
) -> Result<Vec<Variable>, NoMemory>
    requires { number < length kept.now }
    ensures { IfOk result (λ made. made.items ≡ with_solved kept.now number term.now) }
{
    let mut by = ListOf::new(alloc);
    by.push((number, term.share()?))?;
    let mut made = Vec::new(alloc);
    for variable in kept {
        made.push(replace(alloc, variable, &by)?)?;
    }
    let at = number as usize;
    let term = term.share()?;
    made[at] = Variable {
        level: kept[at].level,
        rigid: kept[at].rigid,
        term: Some(term),
    };
    Ok(made)
}

// A variable with replacements made in its type.
fn replace(alloc: Global, variable: &Variable, by: &ListOf<(u32, Ty)>) -> Result<Variable, NoMemory>
    ensures { IfOk result (λ made. made ≡ replaced by.now variable.now) }
{
    let term = match &variable.term {
        Some(term) => Some(substitute(alloc, term, by)?),
        None => None,
    };
    Ok(Variable {
        level: variable.level,
        rigid: variable.rigid,
        term,
    })
}
