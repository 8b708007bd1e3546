// The layout of a file.
ghost use Rattle.std.specs.Prelude.{◌≡◌, ℕ, ◌<◌, ◌^◌, [], ◌∷◌, ◌++◌, length, OnOk, IfOk};
ghost use Rattle.gh_base.specs.declared.refusal.Refusal.{Refusal};
ghost use Rattle.gh_layout.specs.Entries.{lowest};
ghost use Rattle.gh_layout.specs.Follows.{Follows, fault_of, Gives};
ghost use Rattle.gh_layout.specs.Laws.{IsInOrder, IsNested};
ghost use Rattle.gh_layout.specs.Layout.{layout, line_marks, marks, pieces, end_pieces, all_treated, blocks_ended, span_at, finished};
ghost use Rattle.gh_layout.specs.Roles.{role_of};

use crate::entry::{Entry, Owner};
use crate::laying::{Ending, LaidToken, Laying, Stop};
use crate::role::{Role, block_after, role_of, stands_for_block};
use crate::stack::Stack;
use gh_base::{Fault, ListOf, Refusal, Span};
use gh_lexer::Token;
use std::alloc::Global;

// The place of the lowest entry that is no implicit block.
fn lowest_open(mut stack: Stack) -> Option<u32>
    ensures { result ≡ lowest stack }
{
    let mut found = None;
    while let Some(entry) = stack.pop() {
        match entry {
            Entry::Implicit(_) => {}
            Entry::Explicit(place) => found = Some(place),
            Entry::Opened(_, place) => found = Some(place),
        }
    }
    found
}

// The bytes of the token at a place, or of the last one where the file ends there.
fn span_of(tokens: &[Token], place: u32) -> Span
    ensures { result ≡ span_at tokens.now place }
{
    let last = tokens.len().saturating_sub(1);
    match tokens.get((place as usize).min(last)) {
        Some(token) => token.span,
        None => Span {
            file: 0,
            from: 0,
            to: 0,
        },
    }
}

// The fault of a step that is not made at a place.
fn fault_at(tokens: &[Token], place: u32, stop: Stop) -> Fault
    ensures { result ≡ fault_of tokens.now place stop }
{
    match stop {
        Stop::BadLayout => Fault::Refused(Refusal::BadLayout {
            span: span_of(tokens, place),
        }),
        Stop::NoMemory => Fault::NoMemory,
    }
}

// Treats a token that is awaited by no block: it may be the first of its line.
fn lay_line(laying: &mut Laying, token: &Token, place: u32) -> Result<(), Stop>
    ensures { Follows (all_treated (line_marks token.now place) laying.old) result laying.new }
{
    if token.first {
        return laying.begin_line(token.column, place);
    }
    Ok(())
}

// Treats what stands before a token.
fn lay_marks(
    laying: &mut Laying,
    awaited: Option<Owner>,
    token: &Token,
    role: Role,
    place: u32,
) -> Result<(), Stop>
    requires { role ≡ role_of token.now.kind }
    ensures { Follows (all_treated (marks awaited token.now place) laying.old) result laying.new }
{
    let Some(owner) = awaited else {
        return lay_line(laying, token, place);
    };
    if stands_for_block(owner, role) {
        return lay_line(laying, token, place);
    }
    laying.begin_block(token.column, owner, place)
}

// Treats what stands before a token, and the token.
fn lay_next(
    laying: &mut Laying,
    awaited: Option<Owner>,
    token: &Token,
    role: Role,
    place: u32,
) -> Result<(), Stop>
    requires { role ≡ role_of token.now.kind }
    ensures { Follows (all_treated (pieces awaited token.now place) laying.old) result laying.new }
{
    if let Err(stop) = lay_marks(laying, awaited, token, role, place) {
        return Err(stop);
    }
    laying.lay_token(role, place)
}

// Treats the end of the file.
fn lay_end(laying: &mut Laying, awaited: Option<Owner>, place: u32) -> Result<(), Stop>
    ensures { Follows (all_treated (end_pieces awaited place) laying.old) result laying.new }
{
    if let Some(owner) = awaited {
        if let Err(stop) = laying.begin_block(0, owner, place) {
            return Err(stop);
        }
    }
    laying.end_blocks(Ending::Always, place)?;
    Ok(())
}

// What is laid, where nothing is left open.
fn finish(laying: Laying, tokens: &[Token]) -> Result<ListOf<LaidToken>, Fault>
    ensures { Gives result (finished tokens.now (lowest laying.stack) laying.output) }
{
    let Laying { stack, output } = laying;
    match lowest_open(stack) {
        None => Ok(output),
        Some(place) => Err(Fault::Refused(Refusal::Unclosed {
            span: span_of(tokens, place),
        })),
    }
}

/// The layout of a file (Haskell 98 Report, 9.3, with this language's own rules for where an implicit block ends):
/// its tokens, and the braces and semicolons that stand for its lines. Where the rules have no answer at a token, it
/// is refused there with `BadLayout`; where something is left open at the end, with `Unclosed` at the token that
/// opened the lowest such thing.
pub fn lay(alloc: Global, tokens: &ListOf<Token>) -> Result<ListOf<LaidToken>, Fault>
    requires { length tokens.now < 2 ^ 32 }
    ensures laid { IfOk result (λ out. layout tokens.now ≡ Ok out) }
    ensures order { IfOk result (λ out. IsInOrder (length tokens.now) out) }
    ensures nested { IfOk result (λ out. IsNested tokens.now out) }
    ensures refused { (r : Refusal) → result ≡ Err (Fault.Refused r) → layout tokens.now ≡ Err r }
{
    let tokens = tokens.as_slice();
    let mut laying = Laying::new(alloc);
    let mut awaited = Some(Owner::File);
    for (i, token) in tokens.iter().enumerate() {
        let role = role_of(&token.kind);
        if let Err(stop) = lay_next(&mut laying, awaited, token, role, i as u32) {
            return Err(fault_at(tokens, i as u32, stop));
        }
        awaited = block_after(role);
    }
    let end = tokens.len() as u32;
    if let Err(stop) = lay_end(&mut laying, awaited, end) {
        return Err(fault_at(tokens, end, stop));
    }
    finish(laying, tokens)
}
