// Laws on the items of a file. Each function does nothing: its contract is the law.
ghost use Rattle.gh_tree.specs.Cut.{HavePlacedMarks, PrintsAgain};
ghost use Rattle.gh_tree.specs.Items.{closing_brace, opening_brace, part_mark};
ghost use Rattle.gh_tree.specs.OneTree.{HaveOneTreeByItems};
ghost use Rattle.gh_tree.specs.Print.{block_close, block_open, block_semi};
ghost use Rattle.gh_tree.specs.TreeItems.{HaveTheirItems};

/// The tokens of a file's tree are cut into those of its header and of each of its items, in their order, well formed
/// or not. So a file has a tree only where each of its top items has one.
pub fn has_its_items()
    ensures { HaveTheirItems }
{}

/// Among the laid tokens of a file, those that the layout inserted have no bytes.
pub fn has_placed_marks()
    ensures { HavePlacedMarks }
{}

/// A mark of a block, made of a token that is placed, prints that token: so `block_mark` loses nothing.
pub fn has_marks_again()
    ensures opening { PrintsAgain opening_brace block_open }
    ensures parting { PrintsAgain part_mark block_semi }
    ensures closing { PrintsAgain closing_brace block_close }
{}

/// Where well-formed headers are told by their tokens, and well-formed items too, so are well-formed trees of files.
pub fn has_one_tree_by_items()
    ensures { HaveOneTreeByItems }
{}
