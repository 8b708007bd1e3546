// The two refusals.
ghost use Rattle.std.specs.Prelude.{◌≡◌};
ghost use Rattle.gh_base.specs.declared.refusal.Fault.TheVariants as fault;
ghost use Rattle.gh_parser.specs.Parse as spec;
ghost use Rattle.gh_tree.specs.Syms.{cover};

use gh_base::{Fault, Refusal, Span};
use gh_reader::Tokens;
use gh_tree::Sym;

/// The deepest tree of an item that is accepted.
pub const LIMIT: u32 = 2000;

/// The bytes from the first to the last of these tokens.
#[tactic(auto, using(crate::proofs::Covered::covered_all))]
pub fn span_of(syms: &[Sym]) -> Span
    ensures { result ≡ cover syms.now }
{
    Tokens::new(&[]).since(syms)
}

/// These tokens are those of no tree.
pub fn no_parse(syms: &[Sym]) -> Fault
    ensures { result ≡ fault.Refused (spec.no_parse syms.now) }
{
    Fault::Refused(Refusal::NoParse {
        span: span_of(syms),
    })
}

/// The tree of these tokens is too deep.
pub fn too_deep(syms: &[Sym]) -> Fault
    ensures { result ≡ fault.Refused (spec.too_deep syms.now) }
{
    Fault::Refused(Refusal::TooDeep {
        span: span_of(syms),
    })
}
