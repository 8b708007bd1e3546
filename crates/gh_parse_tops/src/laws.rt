//! Laws on declarations of the top. Each function does nothing: its contract is the law.

ghost use Rattle.gh_parse_tops.specs.Whole.{HaveOneTop};

/// Well-formed declarations of the top with the same tokens are one declaration.
pub fn has_one_top()
    ensures { HaveOneTop }
{}
