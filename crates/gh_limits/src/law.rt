// A law on the first limit. The function does nothing: its contract is the law.
ghost use Rattle.gh_limits.specs.First.{AnswersFirst};

/// The answer for a file is a refusal exactly where this limit is passed by what is counted at this declaration, none is
/// passed at an earlier one, and no earlier limit is passed there; and there is none exactly where no declaration passes
/// one.
pub fn answers_the_first()
    ensures { AnswersFirst }
{}
