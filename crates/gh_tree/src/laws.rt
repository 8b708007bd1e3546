//! Laws on trees and their tokens. Each function does nothing: its contract is the law.

ghost use Rattle.gh_tree.specs.Print.{HaveOneExportList, HaveOnePattern, HaveOneType};

/// Well-formed types with the same tokens are one type.
pub fn has_one_type()
    ensures { HaveOneType }
{}

/// Well-formed patterns with the same tokens are one pattern.
pub fn has_one_pattern()
    ensures { HaveOnePattern }
{}

/// Well-formed export lists with the same tokens are one export list.
pub fn has_one_export_list()
    ensures { HaveOneExportList }
{}
