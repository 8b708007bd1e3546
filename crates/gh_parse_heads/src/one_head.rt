// Laws on headers and imports. Each function does nothing: its contract is the law.
ghost use Rattle.gh_parse_heads.specs.OneHead.{HaveOneImport};
ghost use Rattle.gh_tree.specs.OneTree.{HaveOneHeader};

/// Well-formed headers with the same tokens are one header; a file without one is among them.
pub fn has_one_header()
    ensures { HaveOneHeader }
{}

/// Well-formed imports with the same tokens are one import.
pub fn has_one_import()
    ensures { HaveOneImport }
{}
