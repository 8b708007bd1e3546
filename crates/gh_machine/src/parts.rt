// The machine's state, and the demand of a term.
ghost use Rattle.std.specs.Prelude.{◌≡◌, ◌+◌, ◌-◌, ◌*◌, ◌<◌, ◌≤◌, ◌^◌, [], ◌∷◌, ◌++◌, length, vec_len, vec_capacity, IfOk, OnOk, ℕ, true, false, drop};
ghost use Rattle.gh_core.specs.Closing.{close, without, is_in};
ghost use Rattle.gh_core.specs.Terms.{string};
ghost use Rattle.gh_core.specs.Reading.{term_of};
ghost use Rattle.gh_core.specs.Reduce as r;
ghost use Rattle.gh_core.specs.Run.{start};
ghost use Rattle.gh_core.specs.Bindings.{binding_count};
ghost use Rattle.gh_machine.specs.Unload.{IsFine, envs_of, env_in, env_of, closed_in, demanded_in, demand_env, group, binds_in};
ghost use Rattle.gh_machine.specs.Stacks.{stack_in, waiting_in, env_of_frame, AreWithin};
ghost use Rattle.gh_machine.specs.Texts.{text_of};
ghost use Rattle.gh_machine.specs.Reach.{reach_of, demand_reach, frame_reach, text_reach, IsNear, AreNear};
ghost use Rattle.gh_machine.specs.Values.{cause_of};
ghost use Rattle.gh_machine.specs.Sound.{state_of, program_in, IsHeld, HasRoom, Goes, Leads};

use crate::bind::bind_group;
use crate::closure::{Cell, Closure, Demand, Frame};
use crate::look::resolve;
use crate::primitive::prelude_value;
use crate::program::Program;
use crate::stack::{arg_at, count_args, drop_top, push_frame};
use crate::text::{Head, Pair, Text, further, list_head, split};
use crate::turn::{Stop, StopCause, Turn};
use gh_base::fixed::{CONS, NIL};
use gh_base::{NoMemory, Origin, Span};
use gh_core::{Erased, ErasedTerm};
use std::alloc::Global;

/// What a machine keeps.
#[derive(Drop)]
pub struct Parts<'a> {
    pub program: Program<'a>,
    pub cells: Vec<Cell<'a>>,
    pub stack: Vec<Frame<'a>>,
    pub demand: Demand<'a>,
    pub turn: Turn,
    pub pending: Vec<u8>,
    /// No text that is kept goes on from a later character than this.
    pub furthest: u32,
}

impl<'a> Parts<'a> {
    /// A machine at the start.
    pub fn new(alloc: Global, program: &'a Erased) -> Result<Parts<'a>, NoMemory>
        ensures held { IfOk result (λ p. IsHeld p) }
        ensures state { IfOk result (λ p. state_of p ≡ start (term_of program.now.main)) }
        ensures program { IfOk result (λ p. p.program ≡ program.now) }
        ensures room { IfOk result (λ p. HasRoom 0 p) }
        ensures cells { IfOk result (λ p. length p.cells.items ≡ 0) }
    {
        let mut parts = Parts {
            program: Program::new(alloc, program)?,
            cells: Vec::with_capacity(alloc, 1)?,
            stack: Vec::with_capacity(alloc, 1)?,
            demand: Demand::At(Closure::Term(0, &program.main)),
            turn: Turn::Running,
            pending: Vec::new(alloc),
            furthest: 0,
        };
        parts.go(Demand::At(Closure::Term(0, &program.main)));
        Ok(parts)
    }

    /// The demand passes to this.
    pub fn go(&mut self, demand: Demand<'a>)
        requires cells { IsFine self.old.cells.items }
        requires stack { AreWithin (length self.old.cells.items) self.old.stack.items }
        requires within { demand_env demand ≤ length self.old.cells.items }
        requires near_cells { IsNear self.old.furthest self.old.cells.items }
        requires near_stack { AreNear self.old.furthest self.old.stack.items }
        requires near { demand_reach demand ≤ self.old.furthest }
        requires far { self.old.furthest < 2 ^ 32 - 1 }
        requires room { 0 < vec_capacity self.old.stack }
        ensures { Goes self.old self.new (r.demand (demanded_in (envs_of self.old.cells.items) demand.entry) (stack_in (envs_of self.old.cells.items) [] self.old.stack.items) self.old.pending.items) }
    {
        let demand = resolve(&self.cells, demand);
        self.demand = demand;
        self.turn = Turn::Running;
        match list_head(demand) {
            Head::Chars(text) => self.settle_text(text),
            Head::Con(con) => self.settle_con(con),
            Head::Other => {}
        }
    }

    // A string is the printed list where nothing waits.
    fn settle_text(&mut self, text: Text<'a>)
        requires held { IsHeld self.old }
        requires near { text_reach text ≤ self.old.furthest }
        requires far { self.old.furthest < 2 ^ 32 - 1 }
        requires room { 0 < vec_capacity self.old.stack }
        ensures { Goes self.old self.new (r.settled_at (string (text_of text.entry)) (state_of self.old).stack (state_of self.old).out (state_of self.old)) }
    {
        if self.stack.is_empty() {
            match split(text) {
                Some(pair) => self.print_next(pair),
                None => self.turn = Turn::Ended,
            }
        }
    }

    // A constructor is the printed list where nothing but its arguments waits.
    fn settle_con(&mut self, con: Origin)
        requires held { IsHeld self.old }
        requires room { 0 < vec_capacity self.old.stack }
        ensures { Goes self.old self.new (r.listed con (r.args_of (state_of self.old).stack) (r.after_args (state_of self.old).stack) (state_of self.old).out (state_of self.old)) }
    {
        let count = count_args(&self.stack);
        if count == self.stack.len() {
            if count == 0 && con == prelude_value(NIL) {
                self.turn = Turn::Ended;
            } else if count == 2 && con == prelude_value(CONS) {
                self.settle_cons();
            }
        }
    }

    // A cell of the printed list.
    fn settle_cons(&mut self)
        requires held { IsHeld self.old }
        requires two { length (r.args_of (state_of self.old).stack) ≡ 2 }
        requires all { vec_len self.old.stack ≡ 2 }
        ensures { Goes self.old self.new (r.list_cell false true (r.args_of (state_of self.old).stack) (state_of self.old).out (state_of self.old)) }
    {
        match arg_at(&self.stack, 0) {
            Some(first) => match arg_at(&self.stack, 1) {
                Some(rest) => {
                    drop_top(&mut self.stack, 2);
                    self.print_next(Pair { first, rest });
                }
                None => unreachable!(),
            },
            None => unreachable!(),
        }
    }

    // A character is demanded, and these come after it.
    fn print_next(&mut self, pair: Pair<'a>)
        requires held { IsHeld self.old }
        requires first { env_of pair.first ≤ length self.old.cells.items }
        requires rest { env_of pair.rest ≤ length self.old.cells.items }
        requires near_first { reach_of pair.first ≤ self.old.furthest }
        requires near_rest { reach_of pair.rest ≤ self.old.furthest + 1 }
        requires empty { vec_len self.old.stack ≡ 0 }
        requires room { 0 < vec_capacity self.old.stack }
        ensures { Goes self.old self.new (r.at (closed_in (envs_of self.old.cells.items) pair.entry.first) (r.printing (closed_in (envs_of self.old.cells.items) pair.entry.rest) ∷ []) self.old.pending.items) }
    {
        self.furthest = further(self.furthest, pair.rest);
        push_frame(&mut self.stack, Frame::Printing(pair.rest));
        self.demand = Demand::At(pair.first);
        self.turn = Turn::Running;
    }

    /// The demand passes to this, while that waits.
    pub fn wait(&mut self, frame: Frame<'a>, demand: Demand<'a>)
        requires held { IsHeld self.old }
        requires frame { env_of_frame frame ≤ length self.old.cells.items }
        requires within { demand_env demand ≤ length self.old.cells.items }
        requires near_frame { frame_reach frame ≤ self.old.furthest }
        requires near { demand_reach demand ≤ self.old.furthest }
        requires far { self.old.furthest < 2 ^ 32 - 1 }
        requires room { vec_len self.old.stack < vec_capacity self.old.stack }
        ensures { Leads 0 self.old self.new (r.demand (demanded_in (envs_of self.old.cells.items) demand.entry) (waiting_in (envs_of self.old.cells.items) frame.entry ∷ (state_of self.old).stack) (state_of self.old).out) }
    {
        push_frame(&mut self.stack, frame);
        self.go(demand);
    }

    /// So many of what waits are gone, and the demand passes to this.
    pub fn go_without(&mut self, count: usize, demand: Demand<'a>)
        requires held { IsHeld self.old }
        requires count { count ≤ vec_len self.old.stack }
        requires within { demand_env demand ≤ length self.old.cells.items }
        requires near { demand_reach demand ≤ self.old.furthest }
        requires far { self.old.furthest < 2 ^ 32 - 1 }
        requires room { 0 < vec_capacity self.old.stack }
        ensures leads { Leads 0 self.old self.new (r.demand (demanded_in (envs_of self.old.cells.items) demand.entry) (drop count (state_of self.old).stack) (state_of self.old).out) }
        ensures less { vec_len self.new.cells + vec_len self.new.stack + count ≤ vec_len self.old.cells + vec_len self.old.stack + 1 }
        ensures near { self.new.furthest ≤ self.old.furthest + 1 }
    {
        drop_top(&mut self.stack, count);
        self.go(demand);
    }

    /// So many of what waits are gone, and the demand passes to this, while that waits.
    pub fn wait_without(&mut self, count: usize, frame: Frame<'a>, demand: Demand<'a>)
        requires held { IsHeld self.old }
        requires count { count ≤ vec_len self.old.stack }
        requires some { 0 < count }
        requires frame { env_of_frame frame ≤ length self.old.cells.items }
        requires within { demand_env demand ≤ length self.old.cells.items }
        requires near_frame { frame_reach frame ≤ self.old.furthest }
        requires near { demand_reach demand ≤ self.old.furthest }
        requires far { self.old.furthest < 2 ^ 32 - 1 }
        ensures { Leads 0 self.old self.new (r.demand (demanded_in (envs_of self.old.cells.items) demand.entry) (waiting_in (envs_of self.old.cells.items) frame.entry ∷ drop count (state_of self.old).stack) (state_of self.old).out) }
    {
        drop_top(&mut self.stack, count);
        push_frame(&mut self.stack, frame);
        self.go(demand);
    }

    /// A `letrec` gives way to this term in all its bindings.
    pub fn unroll(&mut self, env: u32, term: &'a ErasedTerm, body: &'a ErasedTerm)
        requires held { IsHeld self.old }
        requires within { env ≤ length self.old.cells.items }
        requires room { HasRoom 1 self.old }
        ensures { Leads (binding_count (binds_in (term_of term.now))) self.old self.new (r.demand (close (term_of body.now) (group (binds_in (term_of term.now)) (env_in (envs_of self.old.cells.items) env))) (state_of self.old).stack (state_of self.old).out) }
    {
        let top = bind_group(&mut self.cells, env, term);
        self.go_without(0, Demand::At(Closure::Term(top, body)));
    }

    /// The run fails.
    pub fn fail(&mut self, cause: StopCause, span: Span)
        requires held { IsHeld self.old }
        ensures { Leads 0 self.old self.new (r.with_status (r.failed (cause_of cause) span) (state_of self.old)) }
    {
        self.turn = Turn::Failed(Stop { cause, span });
    }

    /// Room for so many reductions. A refusal changes nothing that is seen.
    pub fn reserve(&mut self, k: u32) -> Result<(), NoMemory>
        requires held { IsHeld self.old }
        requires small { k ≤ 1000 }
        ensures held { IsHeld self.new }
        ensures state { state_of self.new ≡ state_of self.old }
        ensures cells { length self.new.cells.items ≡ length self.old.cells.items }
        ensures program { self.new.program ≡ self.old.program }
        ensures room { OnOk result (HasRoom k self.new) }
        ensures kept { (n : ℕ) → HasRoom n self.old → HasRoom n self.new }
    {
        let held = self.cells.len().checked_add(self.stack.len());
        match held {
            Some(held) if held < 4_294_965_000 && self.furthest < 4_294_965_000 => {
                let k = k as usize;
                self.cells.reserve(self.stack.len() + 2 * k)?;
                self.stack.reserve(k)?;
                self.pending.reserve(4 * k)?;
                Ok(())
            }
            _ => Err(NoMemory),
        }
    }
}
