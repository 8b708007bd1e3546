// What waits, the innermost last.
ghost use Rattle.std.specs.Prelude.{◌≡◌, ℕ, ◌+◌, ◌<◌, ◌≤◌, ◌++◌, ◌∷◌, [], List, length, drop, true, false, vec_len, vec_capacity, MatchOption};
ghost use Rattle.gh_core.specs.Closing.{Env};
ghost use Rattle.gh_core.specs.Reduce.{args_of, arg};
ghost use Rattle.gh_machine.specs.Unload.{closed_in, env_of};
ghost use Rattle.gh_machine.specs.Stacks.{stack_in, waiting_in, env_of_frame, AreWithin};
ghost use Rattle.gh_machine.specs.Reach.{reach_of, frame_reach, AreNear};

use crate::closure::{Closure, Frame};

/// What waits at this place, counted from the innermost, which is 0.
pub fn frame_at<'a>(stack: &[Frame<'a>], i: usize) -> Option<Frame<'a>>
    ensures value { MatchOption result ((envs : List Env) → drop i (stack_in envs [] stack.now) ≡ []) (λ f. (envs : List Env) → drop i (stack_in envs [] stack.now) ≡ waiting_in envs f ∷ drop (i + 1) (stack_in envs [] stack.now)) }
    ensures within { MatchOption result Unit (λ f. (n : ℕ) → AreWithin n stack.now → env_of_frame f ≤ n) }
    ensures near { MatchOption result Unit (λ f. (n : ℕ) → AreNear n stack.now → frame_reach f ≤ n) }
    ensures inside { MatchOption result Unit (λ f. i < length stack.now) }
{
    if i < stack.len() {
        let frame = stack[stack.len() - 1 - i];
        Some(frame)
    } else {
        None
    }
}

/// The argument that waits at this place, if what waits there is one.
pub fn arg_at<'a>(stack: &[Frame<'a>], i: usize) -> Option<Closure<'a>>
    ensures value { MatchOption result ((envs : List Env) → args_of (drop i (stack_in envs [] stack.now)) ≡ []) (λ v. (envs : List Env) → drop i (stack_in envs [] stack.now) ≡ arg (closed_in envs v) ∷ drop (i + 1) (stack_in envs [] stack.now)) }
    ensures within { MatchOption result Unit (λ v. (n : ℕ) → AreWithin n stack.now → env_of v ≤ n) }
    ensures near { MatchOption result Unit (λ v. (n : ℕ) → AreNear n stack.now → reach_of v ≤ n) }
    ensures inside { MatchOption result Unit (λ v. i < length stack.now) }
{
    match frame_at(stack, i) {
        Some(Frame::Arg(value)) => Some(value),
        Some(Frame::OfCase(_, _)) => None,
        Some(Frame::Under(_)) => None,
        Some(Frame::Only(_, _)) => None,
        Some(Frame::First(_, _, _)) => None,
        Some(Frame::Second(_, _, _)) => None,
        Some(Frame::Printing(_)) => None,
        None => None,
    }
}

// Whether an argument waits at this place.
fn has_arg(stack: &[Frame], i: usize) -> bool
    ensures yes { result ≡ true → (envs : List Env) → length (args_of (drop i (stack_in envs [] stack.now))) ≡ 1 + length (args_of (drop (i + 1) (stack_in envs [] stack.now))) }
    ensures no { result ≡ false → (envs : List Env) → args_of (drop i (stack_in envs [] stack.now)) ≡ [] }
    ensures inside { result ≡ true → i < length stack.now }
{
    match arg_at(stack, i) {
        Some(_) => true,
        None => false,
    }
}

/// How many arguments wait.
pub fn count_args(stack: &[Frame]) -> usize
    ensures count { (envs : List Env) → length (args_of (stack_in envs [] stack.now)) ≡ result }
    ensures within { result ≤ length stack.now }
{
    let mut count = 0;
    while has_arg(stack, count) {
        count += 1;
    }
    count
}

/// Takes so many away, the innermost first.
pub fn drop_top<'a>(stack: &mut Vec<Frame<'a>>, n: usize)
    requires { n ≤ vec_len stack.old }
    ensures stack { (envs : List Env) → stack_in envs [] stack.new.items ≡ drop n (stack_in envs [] stack.old.items) }
    ensures within { (m : ℕ) → AreWithin m stack.old.items → AreWithin m stack.new.items }
    ensures near { (m : ℕ) → AreNear m stack.old.items → AreNear m stack.new.items }
    ensures len { vec_len stack.new + n ≡ vec_len stack.old }
    ensures capacity { vec_capacity stack.old ≤ vec_capacity stack.new }
{
    let left = stack.len() - n;
    stack.truncate(left);
}

/// One more that waits, the innermost.
pub fn push_frame<'a>(stack: &mut Vec<Frame<'a>>, frame: Frame<'a>)
    requires { vec_len stack.old < vec_capacity stack.old }
    ensures stack { (envs : List Env) → stack_in envs [] stack.new.items ≡ waiting_in envs frame.entry ∷ stack_in envs [] stack.old.items }
    ensures within { (m : ℕ) → AreWithin m stack.old.items → env_of_frame frame.entry ≤ m → AreWithin m stack.new.items }
    ensures near { (m : ℕ) → AreNear m stack.old.items → frame_reach frame.entry ≤ m → AreNear m stack.new.items }
    ensures len { vec_len stack.new ≡ vec_len stack.old + 1 }
    ensures capacity { vec_capacity stack.old ≤ vec_capacity stack.new }
{
    add(stack, frame);
}

/// One more item, for which there is room.
pub fn add<T: Drop>(to: &mut Vec<T>, item: T)
    requires { vec_len to.old < vec_capacity to.old }
    ensures items { to.new.items ≡ to.old.items ++ item ∷ [] }
    ensures len { vec_len to.new ≡ vec_len to.old + 1 }
    ensures capacity { vec_capacity to.old ≤ vec_capacity to.new }
{
    match to.push(item) {
        Ok(()) => {}
        Err(_) => unreachable!(),
    }
}
