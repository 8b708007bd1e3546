// One reduction.
ghost use Rattle.std.specs.Prelude.{◌≡◌, ◌+◌, ◌<◌, ◌≤◌, ◌==◌, [], ◌∷◌, ◌++◌, length, drop, true, vec_len, vec_capacity, ℕ};
ghost use Rattle.std.specs.Char.{encode_utf8};
ghost use Rattle.gh_core.specs.Closing.{close, close_alts, without, is_in, put_all, empty};
ghost use Rattle.gh_core.specs.Primitives as p;
ghost use Rattle.gh_core.specs.Reading.{term_of, defs_of};
ghost use Rattle.gh_core.specs.Reduce as r;
ghost use Rattle.gh_core.specs.Bindings as b;
ghost use Rattle.gh_machine.specs.Unload.{envs_of, env_in, demanded_in, demand_env, alts_in, scrutinee_in, IsFree, env_of, closed_in};
ghost use Rattle.gh_machine.specs.Texts.{text_of};
ghost use Rattle.gh_machine.specs.Reach.{reach_of, text_reach, demand_reach};
ghost use Rattle.gh_machine.specs.Values.{literal_of, outcome_of, status_of};
ghost use Rattle.gh_machine.specs.Picks.{HasNames, goes_on};
ghost use Rattle.gh_machine.specs.Sound.{state_of, program_in, IsHeld, HasRoom, Leads};

use crate::bind::{bind, bind_args};
use crate::closure::{Closure, Demand, Frame};
use crate::look::resolve;
use crate::parts::Parts;
use crate::pick::{
    Picked, binding_of, newtype_of, on_newtype, pick_con, pick_literal, scrutinee_of,
};
use crate::primitive::{
    Literal, Outcome, Primitive, binary_outcome, prelude_value, primitive_named, unary_outcome,
};
use crate::stack::{add, arg_at, count_args, frame_at};
use crate::text::{Pair, Text, digit, further, letter, split};
use crate::turn::StopCause;
use gh_base::fixed::{CONS, NIL};
use gh_base::{Origin, Span};
use gh_core::{CoreName, ErasedTerm};

impl<'a> Parts<'a> {
    // A function with its argument, if one waits.
    fn enter(&mut self, name: u32, env: u32, body: &'a ErasedTerm)
        requires held { IsHeld self.old }
        requires within { env ≤ length self.old.cells.items }
        requires room { HasRoom 1 self.old }
        ensures { Leads (b.names_entered (state_of self.old).stack) self.old self.new (r.enter name (close (term_of body.now) (without (env_in (envs_of self.old.cells.items) env) (λ y. y == name))) (state_of self.old).stack (state_of self.old).out (state_of self.old)) }
    {
        if let Some(value) = arg_at(&self.stack, 0) {
            let top = bind(&mut self.cells, name, env, value);
            self.go_without(1, Demand::At(Closure::Term(top, body)));
        }
    }

    // The first definition of a name, if there is one.
    fn unfold(&mut self, name: CoreName)
        requires held { IsHeld self.old }
        requires room { HasRoom 1 self.old }
        ensures { Leads 0 self.old self.new (r.unfold_global (r.defined (program_in self.old).defs name) (state_of self.old).stack (state_of self.old).out (state_of self.old)) }
    {
        if let Some(term) = self.program.definition(name) {
            self.go_without(0, Demand::At(Closure::Term(0, term)));
        }
    }

    // A case demands its scrutinee, or goes on with the contents of a newtype.
    fn begin_case(&mut self, env: u32, case: &'a ErasedTerm)
        requires held { IsHeld self.old }
        requires within { env ≤ length self.old.cells.items }
        requires room { HasRoom 1 self.old }
        ensures { Leads (b.names_begun self.old.program.newtypes (close_alts (alts_in (term_of case.now)) (env_in (envs_of self.old.cells.items) env))) self.old self.new (r.begin_case self.old.program.newtypes (close (scrutinee_in (term_of case.now)) (env_in (envs_of self.old.cells.items) env)) (close_alts (alts_in (term_of case.now)) (env_in (envs_of self.old.cells.items) env)) (state_of self.old).stack (state_of self.old).out) }
    {
        match on_newtype(self.program.newtypes(), case) {
            Some(one) => {
                let top = bind(&mut self.cells, one.name, env, Closure::Contents(env, case));
                self.go_without(0, Demand::At(Closure::Term(top, one.body)));
            }
            None => self.wait(
                Frame::OfCase(env, case),
                Demand::At(Closure::Term(env, scrutinee_of(case))),
            ),
        }
    }

    // A constructor, with the arguments that wait, for what waits behind them.
    fn give(&mut self, con: Origin)
        requires held { IsHeld self.old }
        requires room { HasRoom 1 self.old }
        ensures { Leads (b.names_given con (r.args_of (state_of self.old).stack) (r.after_args (state_of self.old).stack)) self.old self.new (r.give con (r.args_of (state_of self.old).stack) (r.after_args (state_of self.old).stack) (state_of self.old).out (state_of self.old)) }
    {
        let count = count_args(&self.stack);
        match frame_at(&self.stack, count) {
            Some(Frame::OfCase(env, case)) => self.choose(con, count, env, case),
            Some(Frame::Under(newtype)) => {
                if count == 1 && con == newtype {
                    self.uncover();
                }
            }
            Some(Frame::Arg(_)) => {}
            Some(Frame::Only(_, _)) => {}
            Some(Frame::First(_, _, _)) => {}
            Some(Frame::Second(_, _, _)) => {}
            Some(Frame::Printing(_)) => {}
            None => {}
        }
    }

    // The only argument is what stands under a newtype's constructor.
    fn uncover(&mut self)
        requires held { IsHeld self.old }
        requires one { length (r.args_of (state_of self.old).stack) ≡ 1 }
        requires room { HasRoom 1 self.old }
        requires two { 2 ≤ vec_len self.old.stack }
        ensures { Leads 0 self.old self.new (r.uncover true (r.args_of (state_of self.old).stack) (drop 2 (state_of self.old).stack) (state_of self.old).out (state_of self.old)) }
    {
        match arg_at(&self.stack, 0) {
            Some(value) => self.go_without(2, Demand::At(value)),
            None => unreachable!(),
        }
    }

    // The first alternative for a constructor, where a case waits behind its arguments.
    fn choose(&mut self, con: Origin, count: usize, env: u32, case: &'a ErasedTerm)
        requires held { IsHeld self.old }
        requires count { length (r.args_of (state_of self.old).stack) ≡ count }
        requires some { count < vec_len self.old.stack }
        requires within { env ≤ length self.old.cells.items }
        requires room { HasRoom 1 self.old }
        ensures { Leads (b.names_chosen (close_alts (alts_in (term_of case.now)) (env_in (envs_of self.old.cells.items) env)) con (r.args_of (state_of self.old).stack)) self.old self.new (r.choose (close_alts (alts_in (term_of case.now)) (env_in (envs_of self.old.cells.items) env)) con (r.args_of (state_of self.old).stack) (drop (count + 1) (state_of self.old).stack) (state_of self.old).out (state_of self.old)) }
    {
        match pick_con(case, con, count) {
            Picked::Bound(names, body) => self.take_args(names, env, body),
            Picked::Plain(body) => self.go_without(count + 1, Demand::At(Closure::Term(env, body))),
            Picked::Nothing => {}
        }
    }

    // The arguments stand for these names.
    fn take_args(&mut self, names: &[u32], env: u32, body: &'a ErasedTerm)
        requires held { IsHeld self.old }
        requires names { length (r.args_of (state_of self.old).stack) ≡ length names.now }
        requires some { length names.now < vec_len self.old.stack }
        requires within { env ≤ length self.old.cells.items }
        requires room { HasRoom 1 self.old }
        ensures { Leads (length names.now) self.old self.new (r.demand (close (close (term_of body.now) (without (env_in (envs_of self.old.cells.items) env) (is_in names.now))) (put_all empty names.now (r.args_of (state_of self.old).stack))) (drop (length names.now + 1) (state_of self.old).stack) (state_of self.old).out) }
    {
        let top = bind_args(&mut self.cells, names, &self.stack, env);
        self.go_without(names.len() + 1, Demand::At(Closure::Term(top, body)));
    }

    // A string for what waits.
    fn give_text(&mut self, text: Text<'a>)
        requires held { IsHeld self.old }
        requires near { text_reach text ≤ self.old.furthest }
        requires room { HasRoom 1 self.old }
        ensures { Leads (b.names_given (r.string_con (text_of text.entry)) (r.string_args (text_of text.entry)) (state_of self.old).stack) self.old self.new (r.give (r.string_con (text_of text.entry)) (r.string_args (text_of text.entry)) (state_of self.old).stack (state_of self.old).out (state_of self.old)) }
    {
        match frame_at(&self.stack, 0) {
            Some(Frame::OfCase(env, case)) => match split(text) {
                Some(pair) => self.choose_pair(pair, env, case),
                None => self.choose_end(env, case),
            },
            Some(Frame::Under(_)) => {}
            Some(Frame::Arg(_)) => {}
            Some(Frame::Only(_, _)) => {}
            Some(Frame::First(_, _, _)) => {}
            Some(Frame::Second(_, _, _)) => {}
            Some(Frame::Printing(_)) => {}
            None => {}
        }
    }

    // The first alternative for the end of a string.
    fn choose_end(&mut self, env: u32, case: &'a ErasedTerm)
        requires held { IsHeld self.old }
        requires some { 0 < vec_len self.old.stack }
        requires within { env ≤ length self.old.cells.items }
        requires room { HasRoom 1 self.old }
        ensures { Leads (b.names_chosen (close_alts (alts_in (term_of case.now)) (env_in (envs_of self.old.cells.items) env)) p.nil []) self.old self.new (r.choose (close_alts (alts_in (term_of case.now)) (env_in (envs_of self.old.cells.items) env)) p.nil [] (drop 1 (state_of self.old).stack) (state_of self.old).out (state_of self.old)) }
    {
        match pick_con(case, prelude_value(NIL), 0) {
            Picked::Bound(_, body) => self.go_without(1, Demand::At(Closure::Term(env, body))),
            Picked::Plain(body) => self.go_without(1, Demand::At(Closure::Term(env, body))),
            Picked::Nothing => {}
        }
    }

    // The first alternative for a character and the rest of a string.
    fn choose_pair(&mut self, pair: Pair<'a>, env: u32, case: &'a ErasedTerm)
        requires held { IsHeld self.old }
        requires some { 0 < vec_len self.old.stack }
        requires within { env ≤ length self.old.cells.items }
        requires first { env_of pair.first ≡ 0 }
        requires rest { env_of pair.rest ≡ 0 }
        requires near_first { reach_of pair.first ≤ self.old.furthest }
        requires near_rest { reach_of pair.rest ≤ self.old.furthest + 1 }
        requires room { HasRoom 1 self.old }
        ensures { Leads (b.names_chosen (close_alts (alts_in (term_of case.now)) (env_in (envs_of self.old.cells.items) env)) p.cons (closed_in (envs_of self.old.cells.items) pair.entry.first ∷ closed_in (envs_of self.old.cells.items) pair.entry.rest ∷ [])) self.old self.new (r.choose (close_alts (alts_in (term_of case.now)) (env_in (envs_of self.old.cells.items) env)) p.cons (closed_in (envs_of self.old.cells.items) pair.entry.first ∷ closed_in (envs_of self.old.cells.items) pair.entry.rest ∷ []) (drop 1 (state_of self.old).stack) (state_of self.old).out (state_of self.old)) }
    {
        match pick_con(case, prelude_value(CONS), 2) {
            Picked::Bound(names, body) => self.take_pair(names[0], names[1], pair, env, body),
            Picked::Plain(body) => self.go_without(1, Demand::At(Closure::Term(env, body))),
            Picked::Nothing => {}
        }
    }

    // A character and the rest of a string stand for two names. Of equal names the first counts.
    fn take_pair(&mut self, x: u32, y: u32, pair: Pair<'a>, env: u32, body: &'a ErasedTerm)
        requires held { IsHeld self.old }
        requires some { 0 < vec_len self.old.stack }
        requires within { env ≤ length self.old.cells.items }
        requires first { env_of pair.first ≡ 0 }
        requires rest { env_of pair.rest ≡ 0 }
        requires near_first { reach_of pair.first ≤ self.old.furthest }
        requires near_rest { reach_of pair.rest ≤ self.old.furthest + 1 }
        requires room { HasRoom 1 self.old }
        ensures { Leads 2 self.old self.new (r.demand (close (term_of body.now) (put_all (env_in (envs_of self.old.cells.items) env) (x ∷ y ∷ []) (closed_in (envs_of self.old.cells.items) pair.entry.first ∷ closed_in (envs_of self.old.cells.items) pair.entry.rest ∷ []))) (drop 1 (state_of self.old).stack) (state_of self.old).out) }
    {
        self.furthest = further(self.furthest, pair.rest);
        let below = bind(&mut self.cells, y, env, pair.rest);
        let top = bind(&mut self.cells, x, below, pair.first);
        self.go_without(1, Demand::At(Closure::Term(top, body)));
    }

    // A primitive with the arguments that wait.
    fn operate(&mut self, prim: Origin, place: Span)
        requires held { IsHeld self.old }
        requires room { HasRoom 1 self.old }
        ensures { Leads 0 self.old self.new (r.operate (p.named p.primitives prim) place (r.args_of (state_of self.old).stack) (state_of self.old).stack (state_of self.old).out (state_of self.old)) }
    {
        let Some(primitive) = primitive_named(prim) else {
            return;
        };
        let Some(first) = arg_at(&self.stack, 0) else {
            return;
        };
        match primitive {
            Primitive::Error => self.fail(StopCause::ErrorCalled, place),
            Primitive::Unary(unary) => self.wait_without(
                1,
                Frame::Only(unary, place),
                Demand::At(first),
            ),
            Primitive::Binary(binary) => {
                if let Some(second) = arg_at(&self.stack, 1) {
                    self.wait_without(2, Frame::First(binary, place, second), Demand::At(first));
                }
            }
        }
    }

    // A literal for what waits.
    fn supply(&mut self, literal: Literal)
        requires held { IsHeld self.old }
        requires room { HasRoom 1 self.old }
        ensures { Leads 0 self.old self.new (r.supply (literal_of literal) (state_of self.old).stack (state_of self.old).out (state_of self.old)) }
    {
        match frame_at(&self.stack, 0) {
            Some(Frame::OfCase(env, case)) => self.choose_literal(literal, env, case),
            Some(Frame::Only(unary, place)) => self.conclude(unary_outcome(unary, literal), place),
            Some(Frame::First(binary, place, second)) => self.wait_without(
                1,
                Frame::Second(binary, place, literal),
                Demand::At(second),
            ),
            Some(Frame::Second(binary, place, first)) => {
                self.conclude(binary_outcome(binary, first, literal), place)
            }
            Some(Frame::Printing(rest)) => self.print(literal, rest),
            Some(Frame::Under(_)) => {}
            Some(Frame::Arg(_)) => {}
            None => {}
        }
    }

    // The first alternative for a literal.
    fn choose_literal(&mut self, literal: Literal, env: u32, case: &'a ErasedTerm)
        requires held { IsHeld self.old }
        requires some { 0 < vec_len self.old.stack }
        requires within { env ≤ length self.old.cells.items }
        requires room { HasRoom 1 self.old }
        ensures { Leads 0 self.old self.new (r.choose_literal (close_alts (alts_in (term_of case.now)) (env_in (envs_of self.old.cells.items) env)) (literal_of literal) (drop 1 (state_of self.old).stack) (state_of self.old).out (state_of self.old)) }
    {
        match pick_literal(case, literal) {
            Some(body) => self.go_without(1, Demand::At(Closure::Term(env, body))),
            None => {}
        }
    }

    // The answer or failure of a primitive.
    fn conclude(&mut self, outcome: Outcome, place: Span)
        requires held { IsHeld self.old }
        requires some { 0 < vec_len self.old.stack }
        requires room { HasRoom 1 self.old }
        ensures { Leads 0 self.old self.new (r.conclude (outcome_of outcome) place (drop 1 (state_of self.old).stack) (state_of self.old).out (state_of self.old)) }
    {
        match outcome {
            Outcome::Value(literal) => self.go_without(1, Demand::Value(literal)),
            Outcome::Con(con) => self.go_without(1, Demand::Con(con)),
            Outcome::Digits(number) => self.go_without(1, Demand::At(Closure::Digits(0, number))),
            Outcome::Fails(cause) => self.fail(cause, place),
            Outcome::Nothing => {}
        }
    }

    // A literal where a character is to be printed, and these come after it.
    fn print(&mut self, literal: Literal, rest: Closure<'a>)
        requires held { IsHeld self.old }
        requires some { 0 < vec_len self.old.stack }
        requires within { env_of rest ≤ length self.old.cells.items }
        requires near { reach_of rest ≤ self.old.furthest }
        requires room { HasRoom 1 self.old }
        ensures { Leads 0 self.old self.new (r.print (literal_of literal) (closed_in (envs_of self.old.cells.items) rest.entry) (drop 1 (state_of self.old).stack) (state_of self.old).out (state_of self.old)) }
    {
        if let Literal::Char(c) = literal {
            push_char(&mut self.pending, c);
            self.go_without(1, Demand::At(rest));
        }
    }

    // One reduction where a term of the program is demanded.
    fn act_term(&mut self, env: u32, term: &'a ErasedTerm)
        requires held { IsHeld self.old }
        requires within { env ≤ length self.old.cells.items }
        requires free { IsFree (envs_of self.old.cells.items) (Demand.At (Closure.Term env term)) }
        requires room { HasRoom 1 self.old }
        ensures { Leads (b.names_at (program_in self.old) (r.opened (close (term_of term.now) (env_in (envs_of self.old.cells.items) env))) (state_of self.old).stack) self.old self.new (r.reduce_at (program_in self.old) (r.opened (close (term_of term.now) (env_in (envs_of self.old.cells.items) env))) (state_of self.old).stack (state_of self.old).out (state_of self.old)) }
    {
        match term {
            ErasedTerm::Var(_) => {}
            ErasedTerm::Global(name) => self.unfold(*name),
            ErasedTerm::Con(con) => self.give(*con),
            ErasedTerm::Int(n) => self.supply(Literal::Int(*n)),
            ErasedTerm::Char(c) => self.supply(Literal::Char(*c)),
            ErasedTerm::Str(_) => self.give_text(Text::Letters(0, term)),
            ErasedTerm::Prim(prim, place) => self.operate(*prim, *place),
            ErasedTerm::Lam(name, body) => self.enter(*name, env, body.get()),
            ErasedTerm::App(function, argument) => self.wait(
                Frame::Arg(Closure::Term(env, argument.get())),
                Demand::At(Closure::Term(env, function.get())),
            ),
            ErasedTerm::LetRec(_, body) => self.unroll(env, term, body.get()),
            ErasedTerm::Case(_, _, _) => self.begin_case(env, term),
            ErasedTerm::Stop(place) => self.fail(StopCause::NoMatch, *place),
        }
    }

    // One reduction where a closure is demanded.
    fn act_at(&mut self, value: Closure<'a>)
        requires held { IsHeld self.old }
        requires within { env_of value ≤ length self.old.cells.items }
        requires near { reach_of value ≤ self.old.furthest }
        requires free { IsFree (envs_of self.old.cells.items) (Demand.At value) }
        requires room { HasRoom 1 self.old }
        ensures { Leads (b.names_at (program_in self.old) (r.opened (closed_in (envs_of self.old.cells.items) value.entry)) (state_of self.old).stack) self.old self.new (r.reduce_at (program_in self.old) (r.opened (closed_in (envs_of self.old.cells.items) value.entry)) (state_of self.old).stack (state_of self.old).out (state_of self.old)) }
    {
        match value {
            Closure::Term(env, term) => self.act_term(env, term),
            Closure::Contents(env, case) => self.wait(
                Frame::Under(newtype_of(case)),
                Demand::At(Closure::Term(env, scrutinee_of(case))),
            ),
            Closure::Rest(at, term) => self.give_text(Text::Letters(at, term)),
            Closure::Letter(at, term) => self.supply(Literal::Char(letter(at, term))),
            Closure::Digits(at, number) => self.give_text(Text::Digits(at, number)),
            Closure::Digit(at, number) => self.supply(Literal::Char(digit(at, number))),
        }
    }

    // One reduction of what is demanded.
    fn act(&mut self, demand: Demand<'a>)
        requires held { IsHeld self.old }
        requires within { demand_env demand ≤ length self.old.cells.items }
        requires near { demand_reach demand ≤ self.old.furthest }
        requires free { IsFree (envs_of self.old.cells.items) demand }
        requires room { HasRoom 1 self.old }
        ensures { Leads (b.names_at (program_in self.old) (r.opened (demanded_in (envs_of self.old.cells.items) demand.entry)) (state_of self.old).stack) self.old self.new (r.reduce_at (program_in self.old) (r.opened (demanded_in (envs_of self.old.cells.items) demand.entry)) (state_of self.old).stack (state_of self.old).out (state_of self.old)) }
    {
        match demand {
            Demand::At(value) => self.act_at(value),
            Demand::Binding(env, index, term) => self.unroll(env, term, binding_of(term, index)),
            Demand::Value(literal) => self.supply(literal),
            Demand::Con(con) => self.give(con),
        }
    }

    /// One reduction of a run that goes on.
    pub fn step(&mut self)
        requires held { IsHeld self.old }
        requires running { status_of self.old.turn ≡ r.running }
        requires room { HasRoom 1 self.old }
        ensures { Leads (b.names_bound (program_in self.old) (state_of self.old)) self.old self.new (r.reduce (program_in self.old) (state_of self.old)) }
    {
        let demand = resolve(&self.cells, self.demand);
        self.act(demand);
    }
}

// A character more, in UTF-8.
fn push_char(to: &mut Vec<u8>, c: char)
    requires { vec_len to.old + 4 ≤ vec_capacity to.old }
    ensures items { to.new.items ≡ to.old.items ++ encode_utf8 c }
    ensures len { vec_len to.new ≤ vec_len to.old + 4 }
    ensures capacity { vec_capacity to.old ≤ vec_capacity to.new }
{
    let mut buffer = [0; 4];
    match to.extend_from_slice(c.encode_utf8(&mut buffer).as_bytes()) {
        Ok(()) => {}
        Err(_) => unreachable!(),
    }
}
