// The laws of arranged programs.
ghost use Rattle.gh_fixity.specs.Built.{op_nodes, pat_nodes};
ghost use Rattle.gh_fixity.specs.Reads.{BuildsInOrder, SettlesWithTheTree};

/// The laws of the lists of a program: a list settles with a tree exactly where that tree arranges it, and the node that
/// is built of a tree has its shape, and the operands, operators and minus signs that it took from the list, in their order
/// and with the bytes that it should have.
pub fn has_settled_lists()
    ensures tree { SettlesWithTheTree }
    ensures operands { BuildsInOrder op_nodes }
    ensures patterns { BuildsInOrder pat_nodes }
{}
