// Leaves looked up by label.
//
// No public function has a `requires`. Arrays are lent as tree arrays have them; those that stand for no tree are answered by
// the same definitions.
#![tactic(auto)]

ghost use Rattle.std.specs.Prelude.{◌≡◌, ◌<◌};
ghost use Rattle.leaves.specs.Find.{labelled, leaf_found};
ghost use Rattle.trees.specs.Arrays.{node_limit};
ghost use Rattle.trees.specs.Edition.{in_edition, key};

use trees::{Edition, NODE_LIMIT, TreeArrays};

// Leaf u of the arrays has the label that a token stands for, as an edition reads both.
fn has_label(edition: Edition, text: &[u8], tree: &TreeArrays, token: &[u8], u: usize) -> bool
    requires { u < node_limit }
    ensures { result ≡
        labelled
        (in_edition edition text.now)
        tree.now.left
        tree.now.start
        tree.now.size
        (key edition token.now)
        u }
{
    if usize::from(tree.left[u]) != u {
        return false;
    }
    trees::same_label(
        edition,
        trees::leaf_label(text, &tree.start, &tree.size, u),
        token,
    )
}

// The number of the first leaf with the label that a token stands for, as an edition reads both, if there is one.
pub fn find_leaf(edition: Edition, text: &[u8], tree: &TreeArrays, token: &[u8]) -> Option<usize>
    ensures { result ≡
        leaf_found
        (in_edition edition text.now)
        tree.now.left
        tree.now.start
        tree.now.size
        (key edition token.now)
        tree.now.nodes }
{
    for u in 0..tree.nodes.min(NODE_LIMIT) {
        if has_label(edition, text, tree, token, u) {
            return Some(u);
        }
    }
    None
}
