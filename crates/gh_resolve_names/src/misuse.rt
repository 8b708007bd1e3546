// Wrong uses of names, and the first of them.
ghost use Rattle.std.specs.Prelude.{◌≡◌};
ghost use Rattle.gh_resolve_names.specs.Misuses as spec;

use gh_base::{NameId, Span};

/// The rule that a use of a name breaks.
#[derive(Clone, Copy)]
pub enum Rule {
    /// No origin stands for it.
    Unknown,
    /// Two origins or more stand for it.
    Ambiguous,
    /// A pattern gives a constructor another number of fields than its declaration.
    Fields,
    /// A synonym reaches itself through synonyms.
    Cycle,
    /// A synonym has fewer arguments than parameters.
    Arguments,
}

/// A name that is used against a rule.
#[derive(Clone, Copy)]
pub struct Misuse {
    /// The rule.
    pub rule: Rule,
    /// The bytes that the refusal names.
    pub span: Span,
    /// The name, without its qualifier.
    pub name: NameId,
}

/// The number of the refusal that a rule is.
pub fn number(rule: Rule) -> u32
    ensures { result ≡ spec.number rule }
{
    match rule {
        Rule::Unknown => 16,
        Rule::Ambiguous => 17,
        Rule::Fields => 21,
        Rule::Cycle => 23,
        Rule::Arguments => 24,
    }
}

fn is_before(a: Misuse, b: Misuse) -> bool
    ensures { result ≡ spec.is_before a b }
{
    if a.span.from == b.span.from {
        return number(a.rule) < number(b.rule);
    }
    a.span.from < b.span.from
}

/// The one of both that stands first: by the first byte, and then by the number of the refusal.
pub fn earlier(found: Option<Misuse>, misuse: Misuse) -> Option<Misuse>
    ensures { result ≡ spec.earlier found misuse }
{
    match found {
        None => Some(misuse),
        Some(before) => {
            if is_before(misuse, before) {
                Some(misuse)
            } else {
                Some(before)
            }
        }
    }
}
