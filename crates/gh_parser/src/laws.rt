// Laws on the reading of files. Each function does nothing: its contract is the law.
ghost use Rattle.gh_parser.specs.Laws.{
  GivesFirstFault,
  GivesItsTree,
  HaveOneDecls,
  HaveOneExp,
  ReadsEachTree,
};
ghost use Rattle.gh_tree.specs.Print.{HaveOneTree};

/// Each well-formed tree of depth 2,000 at most is read from its tokens.
pub fn parses_every_tree()
    ensures { ReadsEachTree }
{}

/// Well-formed trees with the same laid tokens are one tree, however deep they are.
pub fn has_one_tree()
    ensures { HaveOneTree }
{}

/// A tree is the answer for a file exactly where it is well formed, its tokens are the laid tokens of the file (Haskell 98
/// Report, 5.1 and 9.5), and its depth is 2,000 at most.
pub fn gives_its_tree()
    ensures { GivesItsTree }
{}

/// A refusal is the answer for a file exactly where it is that of the first item that is no tree's, as `NoParse`, or
/// whose tree is deeper than 2,000, as `TooDeep`, whichever item comes first.
pub fn gives_first_fault()
    ensures { GivesFirstFault }
{}

/// Well-formed expressions with the same tokens are one expression (Haskell 98 Report, 3), however deep they are.
pub fn has_one_exp()
    ensures { HaveOneExp }
{}

/// Well-formed blocks of declarations with the same tokens are one block (Haskell 98 Report, 4.4), however deep they are.
pub fn has_one_decls()
    ensures { HaveOneDecls }
{}
