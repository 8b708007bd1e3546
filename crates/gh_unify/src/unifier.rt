// The unifier, and its refusals.
ghost use Rattle.std.specs.Prelude.{◌≡◌, ◌↔◌, ℕ, ◌+◌, ◌-◌, ◌<◌, ◌≤◌, ◌^◌, [], ◌∷◌, ◌++◌, None, true, false, IfOk, IsTrue, MatchOption, MatchResult, OnOk, OnErr, length};
ghost use Rattle.gh_unify.specs.Types.{Val, has, inst, mono, nodes};
ghost use Rattle.gh_unify.specs.Kept.{AreDrawn, CanBeMet, HasValues, InScope, InSize, IsRead, IsSolution, MostGeneral, SolvesBoth, drawn_of, eqs_of, is_rigid, level_of};
ghost use Rattle.gh_unify.specs.Causes.{Lacks, Shows};
ghost use Rattle.gh_unify.specs.Levels.{IsLeast, IsLowered, IsReached};
ghost use Rattle.gh_unify.specs.Steps.{Exceeds, IsSettled, IsTidy, Leaves, Stays};
ghost use Rattle.gh_unify.specs.Tables.{best};

use crate::solving::{occurs, solve};
use crate::table::{Variable, read};
use gh_base::NoMemory;
use gh_typeterm::{Ty, TyNode, size};
use std::alloc::Global;
use std::marker::Model;

/// Why an equation is refused.
#[derive(Drop)]
pub enum UnifyFault {
    /// The two types are forced to be equal, and differ at their heads.
    Clash {
        /// The one type.
        left: Ty,
        /// The other.
        right: Ty,
    },
    /// The variable is forced to be equal to a larger type that holds it.
    Occurs {
        /// The number of the variable.
        var: u32,
        /// The type.
        term: Ty,
    },
    /// In every solution the type of the variable holds the rigid variable, whose level is greater.
    Escapes {
        /// The number of the rigid variable.
        rigid: u32,
        /// The number of the variable.
        var: u32,
    },
    /// In every solution the type of the variable has more than 1,000 nodes.
    TooLarge {
        /// The number of the variable.
        var: u32,
    },
    /// A request for memory was not met.
    NoMemory,
}

// The most nodes of a variable's type.
const MOST_NODES: u32 = 1000;

/// Equations between types, solved. Contracts see what it keeps: each variable that was drawn, with its level, whether
/// it is rigid, and its type where it is solved.
#[derive(Drop)]
pub struct Unifier {
    alloc: Global,
    kept: Vec<Variable>,
}

impl Model for Unifier {
    ghost use Rattle.std.specs.Prelude.{List};
    ghost use Rattle.gh_unify.specs.declared.table.Variable.{Variable};
    ghost use Rattle.gh_unify.specs.Steps.{IsSettled};
    ghost use Rattle.gh_unify.specs.contracts.table.Variable as variable;
    ghost use Rattle.std.specs.Coded.{coded_list};

    ghost Value = { List Variable };

    ghost coded = { coded_list variable.the_row.coded };

    ghost view = { λ u. u.kept.items };

    ghost invariant = { λ u. IsSettled u.kept.items };
}

impl Unifier {
    /// No variable, and so no equation. It takes no memory.
    pub fn new(alloc: Global) -> Unifier
        ensures { result ≡ [] }
    {
        Unifier {
            alloc,
            kept: Vec::new(alloc),
        }
    }

    /// A new variable of this level, by its number. Without memory the unifier stays as it was.
    pub fn fresh(&mut self, level: u32) -> Result<u32, NoMemory>
        requires { length self.old < 2 ^ 32 - 1 }
        ensures ok { IfOk result (λ v. (v ≡ length self.old)
            × (self.new ≡ self.old ++ record { level = level; rigid = false; term = None } ∷ [])) }
        ensures err { OnErr result (self.new ≡ self.old) }
    {
        let number = self.kept.len() as u32;
        self.kept.push(Variable {
            level,
            rigid: false,
            term: None,
        })?;
        Ok(number)
    }

    /// A new rigid variable of this level, by its number: it stands for itself alone. Without memory the unifier stays
    /// as it was.
    pub fn rigid(&mut self, level: u32) -> Result<u32, NoMemory>
        requires { length self.old < 2 ^ 32 - 1 }
        ensures ok { IfOk result (λ v. (v ≡ length self.old)
            × (self.new ≡ self.old ++ record { level = level; rigid = true; term = None } ∷ [])) }
        ensures err { OnErr result (self.new ≡ self.old) }
    {
        let number = self.kept.len() as u32;
        self.kept.push(Variable {
            level,
            rigid: true,
            term: None,
        })?;
        Ok(number)
    }

    /// One more equation (Robinson's unification; Damas and Milner). After any refusal the unifier is as it was.
    pub fn unify(&mut self, a: &Ty, b: &Ty) -> Result<(), UnifyFault>
        requires left { AreDrawn self.old a.now }
        requires right { AreDrawn self.old b.now }
        // The solutions are those of the old equations and the new one together.
        ensures solutions { OnOk result ((ρ : Val) → IsSolution self.new ρ ↔ SolvesBoth self.old a.now b.now ρ) }
        // What holds of all solutions holds too where rigid variables have other values.
        ensures values { OnOk result ((ρ : Val) → HasValues self.old ρ → inst ρ (mono a.now) ≡ inst ρ (mono b.now) → HasValues self.new ρ) }
        // What was drawn stays.
        ensures drawn { OnOk result (drawn_of self.new ≡ drawn_of self.old) }
        // Before and after the call there is a solution in scope and in size.
        ensures before { CanBeMet self.old }
        ensures after { CanBeMet self.new }
        // A refusal but for want of memory comes only where there is none with the new equation.
        ensures refused { MatchResult result (λ _. Unit {0}) (λ fault. Lacks fault self.old a.now b.now) }
        ensures shown { MatchResult result (λ _. Unit {0}) (λ fault. Shows fault self.old a.now b.now) }
        ensures same { OnErr result (self.new ≡ self.old) }
    {
        let made = match solve(self.alloc, self.kept.as_slice(), a, b) {
            Ok(made) => made,
            Err(fault) => return Err(fault),
        };
        if let Some((rigid, var)) = escape(made.as_slice()) {
            return Err(UnifyFault::Escapes { rigid, var });
        }
        if let Some(var) = too_large(made.as_slice()) {
            return Err(UnifyFault::TooLarge { var });
        }
        self.kept = made;
        Ok(())
    }

    /// A type under the most general solution.
    pub fn read(&self, a: &Ty) -> Result<Ty, NoMemory>
        requires { AreDrawn self.now a.now }
        ensures read { IfOk result (λ made. IsRead self.now a.now made) }
        // It is one most general solution, whatever is read.
        ensures general { MostGeneral self.now (best (eqs_of self.now)) }
        ensures value { IfOk result (λ made. mono made ≡ inst (best (eqs_of self.now)) (mono a.now)) }
    {
        read(self.alloc, self.kept.as_slice(), a)
    }

    /// The least level of the variables whose type under the most general solution holds this one, itself included: the
    /// level of the outermost scope that it reaches. It takes no memory.
    pub fn level(&self, var: u32) -> u32
        requires { var < length self.now }
        ensures least { IsLeast self.now var (length self.now) result }
        // An unsolved variable is in its own type at least; a solved one is in none.
        ensures reached { eqs_of self.now var ≡ None → IsReached self.now var result }
    {
        least_level(self.kept.as_slice(), var)
    }
}

// Whether the type of a variable holds a variable.
fn holds(kept: &[Variable], number: u32, var: u32) -> bool
    requires { number < length kept.now }
    ensures { result ≡ has var (best (eqs_of kept.now) number) }
{
    match &kept[number as usize].term {
        None => var == number,
        Some(term) => occurs(var, term),
    }
}

// The lesser of a level and that of a variable whose type holds the other one.
fn lower(kept: &[Variable], number: u32, var: u32, least: u32) -> u32
    requires { number < length kept.now }
    ensures { IsLowered kept.now var number least result }
{
    if holds(kept, number, var) {
        return least.min(kept[number as usize].level);
    }
    least
}

// The least level of the variables whose types hold a variable.
fn least_level(kept: &[Variable], var: u32) -> u32
    requires drawn { var < length kept.now }
    requires count { length kept.now < 2 ^ 32 }
    ensures least { IsLeast kept.now var (length kept.now) result }
    ensures reached { eqs_of kept.now var ≡ None → IsReached kept.now var result }
{
    let mut least = kept[var as usize].level;
    for number in 0..kept.len() as u32 {
        least = lower(kept, number, var, least);
    }
    least
}

// A rigid variable in a type, of a level greater than this one.
fn above(kept: &[Variable], term: &Ty, level: u32) -> Option<u32>
    requires { AreDrawn kept.now term.now }
    ensures { MatchOption result
        ((r : ℕ) → IsTrue (has r (mono term.now)) → IsTrue (is_rigid (drawn_of kept.now) r) → level_of (drawn_of kept.now) r ≤ level)
        (λ r. IsTrue (has r (mono term.now)) × IsTrue (is_rigid (drawn_of kept.now) r) × (level < level_of (drawn_of kept.now) r)) }
{
    match term.get() {
        TyNode::Con(_) => None,
        TyNode::Name(_) => None,
        TyNode::Var(v) => {
            let at = *v as usize;
            if !kept[at].rigid {
                return None;
            }
            if level < kept[at].level {
                return Some(*v);
            }
            None
        }
        TyNode::App(head, arg) => {
            if let Some(rigid) = above(kept, head, level) {
                return Some(rigid);
            }
            above(kept, arg, level)
        }
    }
}

// A rigid variable in the type of a variable, of a level greater than that one's.
fn escape_at(kept: &[Variable], number: u32) -> Option<u32>
    requires tidy { IsTidy (eqs_of kept.now) (drawn_of kept.now) }
    requires drawn { number < length kept.now }
    ensures { MatchOption result (Stays kept.now number) (λ r. Leaves kept.now r number) }
{
    let at = number as usize;
    match &kept[at].term {
        None => None,
        Some(term) => above(kept, term, kept[at].level),
    }
}

// The first variable whose type holds a rigid one of a greater level, behind that one.
fn escape(kept: &[Variable]) -> Option<(u32, u32)>
    requires tidy { IsTidy (eqs_of kept.now) (drawn_of kept.now) }
    requires count { length kept.now < 2 ^ 32 }
    ensures { MatchOption result (InScope (drawn_of kept.now) (best (eqs_of kept.now))) (λ p. Leaves kept.now p.0 p.1) }
{
    for number in 0..kept.len() as u32 {
        if let Some(rigid) = escape_at(kept, number) {
            return Some((rigid, number));
        }
    }
    None
}

// Whether the type of a variable passes 1,000 nodes.
fn passes(kept: &[Variable], number: u32) -> bool
    requires { number < length kept.now }
    ensures { IsTrue result ↔ (1000 < nodes (best (eqs_of kept.now) number)) }
{
    match &kept[number as usize].term {
        None => false,
        Some(term) => size(term, MOST_NODES).is_none(),
    }
}

// The first variable whose type passes 1,000 nodes.
fn too_large(kept: &[Variable]) -> Option<u32>
    requires { length kept.now < 2 ^ 32 }
    ensures { MatchOption result (InSize (drawn_of kept.now) (best (eqs_of kept.now))) (λ v. Exceeds kept.now v) }
{
    for number in 0..kept.len() as u32 {
        if passes(kept, number) {
            return Some(number);
        }
    }
    None
}
