// From the leaves up: how many required leaves are below each node, and the least of their ranks.
ghost use Rattle.std.specs.Prelude.{◌≡◌, true, List, ◌%◌, ◌<◌, ◌≤◌};
ghost use Rattle.trees.specs.Label.{Label};
ghost use Rattle.trees.specs.Tree.{Tree};
ghost use Rattle.trees.specs.Arrays.{nodes_of};
ghost use Rattle.places.specs.Nodes.{is_inner, required_at, many_at, least_rank_at, TreeRanks, BelowIs, manys, leasts};

use table::RANKS;
use trees::{LEAF_LIMIT, NODE_LIMIT, TreeArrays};

// Of the required leaves below a node: how many there are, and the least of their ranks, 80 for none (the neutral value of `min`).
#[derive(Clone, Copy)]
pub(crate) struct Below {
    pub many: u8,
    pub least: u8,
}

// Whether node u has the children a and b: both come before it. In a tree's arrays a leaf is its own left child. In any others the test
// keeps indices in range.
pub(crate) fn is_inner(a: usize, b: usize, u: usize) -> bool
    ensures value { result ≡ is_inner a b u }
    ensures a_lt_u { result ≡ true → (a < u) × (b < u) }
{
    a < u && b < u
}

// Whether the label of this rank is required. Ranks from m on are of labels that are not common.
#[tactic(auto, unfolding(crate::specs::Nodes::required_at))]
fn is_required(number: &[u8; RANKS], rank: usize, m: usize) -> bool
    requires { m ≤ 80 }
    ensures { result ≡ required_at number.now rank m }
{
    rank < m && number[rank] != 0
}

// Node u, from its children, or as a leaf of this rank.
#[tactic(auto, using(crate::proofs::ArrayLaws::many_get, crate::proofs::ArrayLaws::least_get), unfolding(crate::specs::Nodes::many_at, crate::specs::Nodes::least_rank_at))]
fn below_at(
    below: &[Below; NODE_LIMIT],
    a: usize,
    b: usize,
    u: usize,
    required: bool,
    rank: u8,
) -> Below
    requires { u < 159 }
    ensures many { result.many ≡ many_at (manys below.now) a b u required % 256 }
    ensures least { result.least ≡ least_rank_at (leasts below.now) a b u required rank % 256 }
{
    if is_inner(a, b, u) {
        let p = below[a];
        let q = below[b];
        return Below {
            many: p.many.wrapping_add(q.many),
            least: p.least.min(q.least),
        };
    }
    if required {
        return Below {
            many: 1,
            least: rank,
        };
    }
    Below {
        many: 0,
        least: LEAF_LIMIT as u8,
    }
}

// All nodes, children before parents.
pub(crate) fn below_of(
    tree: TreeArrays,
    rank: &[u8; NODE_LIMIT],
    m: usize,
    number: &[u8; RANKS],
) -> [Below; NODE_LIMIT]
    requires { m ≤ 80 }
    ensures { (t : Tree) (C K : List Label) → TreeRanks t C K tree rank.now m number.now
        → BelowIs t C K (nodes_of t) (manys result) (leasts result) }
{
    let nodes = tree.nodes.min(NODE_LIMIT);
    let mut below = [Below { many: 0, least: 0 }; NODE_LIMIT];
    for u in 0..nodes {
        let a = usize::from(tree.left[u]);
        let b = usize::from(tree.right[u]);
        let required = is_required(number, usize::from(rank[u]), m);
        below[u] = below_at(&below, a, b, u, required, rank[u]);
    }
    below
}
