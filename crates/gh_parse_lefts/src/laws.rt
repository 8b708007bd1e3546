//! Laws on left sides. Each function does nothing: its contract is the law.

ghost use Rattle.gh_parse_lefts.specs.Wholes.{HaveOneLeft};

/// Well-formed left sides with the same tokens are one left side.
pub fn has_one_left()
    ensures { HaveOneLeft }
{}
