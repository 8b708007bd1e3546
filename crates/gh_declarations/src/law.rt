// A law on the first failure. The function does nothing: its contract is the law.
ghost use Rattle.gh_declarations.specs.First.{AnswersFirst};

/// The answer for a file is a refusal only where its rule fails there and none that fails is before it; it is the refusal
/// of each rule that fails before every other; and there is none exactly where no rule fails.
pub fn answers_the_first()
    ensures { AnswersFirst }
{}
