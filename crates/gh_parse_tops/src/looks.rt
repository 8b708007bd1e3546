// What comes next: looks ahead over a few tokens.
ghost use Rattle.std.specs.Prelude.{option_copied, ◌≡◌};
ghost use Rattle.gh_tree.specs.Read as read;
ghost use Rattle.gh_parse_exps.specs.Marks as marks;
ghost use Rattle.gh_parse_exps.specs.Ops as ops;
ghost use Rattle.gh_parse_tops.specs.Generics as spec;
ghost use Rattle.gh_parse_tops.specs.Tops as tops;

use crate::words::is_word;
use gh_base::fixed::EXTENDS;
use gh_parse_exps::{any_var_next, call_next};
use gh_reader::{Tokens, is_close, var_next};
use gh_tree::Kind;

// Whether this is `{|`.
fn is_banana(kind: Option<&Kind>) -> bool
    ensures { result ≡ ops.is_banana (option_copied kind.entry) }
{
    matches!(kind, Some(Kind::OpenBanana))
}

// Whether this is `(`.
fn is_open(kind: Option<&Kind>) -> bool
    ensures { result ≡ read.is_open (option_copied kind.entry) }
{
    matches!(kind, Some(Kind::Open))
}

// Whether this is `=>`.
fn is_double_arrow(kind: Option<&Kind>) -> bool
    ensures { result ≡ spec.is_double_arrow (option_copied kind.entry) }
{
    matches!(kind, Some(Kind::DoubleArrow))
}

// Whether this is `::`.
fn is_colons(kind: Option<&Kind>) -> bool
    ensures { result ≡ marks.is_colons (option_copied kind.entry) }
{
    matches!(kind, Some(Kind::Colons))
}

// Whether this is a constructor operator.
fn is_con_sym(kind: Option<&Kind>) -> bool
    ensures { result ≡ tops.is_con_sym (option_copied kind.entry) }
{
    matches!(kind, Some(Kind::ConSym(..)))
}

// Whether this is `extends`.
fn is_extends(kind: Option<&Kind>) -> bool
    ensures { result ≡ spec.is_extends (option_copied kind.entry) }
{
    match kind {
        Some(Kind::VarId(None, name)) => name.0 == EXTENDS.0,
        _ => false,
    }
}

// What the fourth token from here is.
fn fourth<'a>(tokens: &Tokens<'a>) -> Option<&'a Kind>
    ensures { option_copied result ≡ read.kind (read.after (read.after (read.after tokens.now))) }
{
    match tokens.rest() {
        [_, _, _, fourth, ..] => Some(&fourth.kind),
        _ => None,
    }
}

// The tokens behind the next one.
fn after<'a>(tokens: &Tokens<'a>) -> Tokens<'a>
    ensures { result ≡ read.after tokens.now }
{
    let mut ahead = Tokens::new(tokens.rest());
    ahead.take();
    ahead
}

// The tokens behind a variable that comes next.
#[tactic(auto, unfolding(crate::specs::Tops::after_var))]
fn after_var<'a>(tokens: &Tokens<'a>) -> Tokens<'a>
    ensures { result ≡ tops.after_var tokens.now }
{
    match tokens.kind() {
        Some(Kind::Open) => after(&after(&after(tokens))),
        _ => after(tokens),
    }
}

// Whether `()` and `=>` come next.
fn empty_deps(tokens: &Tokens<'_>) -> bool
    ensures { result ≡ spec.empty_deps tokens.now }
{
    is_close(tokens.second()) && is_double_arrow(tokens.third())
}

/// Whether the dependencies of a generic function come next.
#[tactic(auto, unfolding(crate::specs::Generics::deps_next))]
pub fn deps_next(tokens: &Tokens<'_>) -> bool
    ensures { result ≡ spec.deps_next tokens.now }
{
    is_open(tokens.kind()) && (empty_deps(tokens) || call_next(&after(tokens)))
}

// Whether this stands behind the first variable of a generic signature alone, where `behind` stands behind it.
fn ends_first(kind: Option<&Kind>, behind: Option<&Kind>) -> bool
    ensures { result ≡ spec.ends_first (option_copied kind.entry) (option_copied behind.entry) }
{
    match kind {
        Some(Kind::Comma) | Some(Kind::Bar) => true,
        Some(Kind::CloseBanana) => is_colons(behind),
        _ => false,
    }
}

/// Whether the variables of a generic signature come next.
#[tactic(auto, unfolding(crate::specs::Generics::gen_vars_next))]
pub fn gen_vars_next(tokens: &Tokens<'_>) -> bool
    ensures { result ≡ spec.gen_vars_next tokens.now }
{
    is_word(tokens.second()) && ends_first(tokens.third(), fourth(tokens))
}

/// Whether a constructor operator between parentheses comes next.
#[tactic(auto, unfolding(crate::specs::Tops::symbol_next))]
pub fn symbol_next(tokens: &Tokens<'_>) -> bool
    ensures { result ≡ tops.symbol_next tokens.now }
{
    match tokens.kind() {
        Some(Kind::Open) => is_con_sym(tokens.second()),
        _ => false,
    }
}

/// Whether a variable and `{|` come next.
#[tactic(auto, unfolding(crate::specs::Tops::generic_next))]
pub fn generic_next(tokens: &Tokens<'_>) -> bool
    ensures { result ≡ tops.generic_next tokens.now }
{
    var_next(tokens) && is_banana(after_var(tokens).kind())
}

// Whether nothing comes next.
fn is_end(tokens: &Tokens<'_>) -> bool
    ensures { result ≡ tops.is_end tokens.now }
{
    match tokens.rest() {
        [] => true,
        [_, ..] => false,
    }
}

// Whether a variable comes next, and nothing behind it.
fn last_var(tokens: &Tokens<'_>) -> bool
    ensures { result ≡ tops.last_var tokens.now }
{
    any_var_next(tokens) && is_end(&after_var(tokens))
}

/// Whether a variable, `extends` and a variable come next, and nothing behind them.
#[tactic(auto, unfolding(crate::specs::Tops::extension_next))]
pub fn extension_next(tokens: &Tokens<'_>) -> bool
    ensures { result ≡ tops.extension_next tokens.now }
{
    let behind = after_var(tokens);
    var_next(tokens) && (is_extends(behind.kind()) && last_var(&after(&behind)))
}
