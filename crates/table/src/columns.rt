// A tree's nodes as columns of bytes, so that they are lent as one.
ghost use Rattle.std.specs.Prelude.{◌≡◌, ◌<◌, ◌≤◌, List, length};
ghost use Rattle.trees.specs.Label.{Label};
ghost use Rattle.trees.specs.Tree.{Tree};
ghost use Rattle.table.specs.Table.{join_need};
ghost use Rattle.table.specs.Columns.{child_at, need_at, low_at, leaf_place, NodePut, Gathered};
ghost use Rattle.table.specs.Choice.{Given};
ghost use Rattle.table.specs.Solving.{Rooted, OwnColumns};

use trees::{LEAF_LIMIT, NODE_LIMIT, TreeArrays};

// No leaf's rank. A number: a leaf whose label is not common has 80 by the definition `Ranked`, and an inner node one more.
const INNER: usize = LEAF_LIMIT + 1;

// By node: left children, right children, ranks, how many rows of the table it needs beside two, and the first node below. By rank the
// leaf. Nodes are numbered children first, and a leaf is its own left child. Columns of fixed length: no heap. The leaf of a rank that
// has none is 255, past every node: so one `min` serves a row with a leaf and one without; an `Option` would need a case for each.
#[derive(Clone, Copy)]
pub(crate) struct TreeColumns {
    pub(crate) left: [u8; NODE_LIMIT],
    pub(crate) right: [u8; NODE_LIMIT],
    pub(crate) rank: [u8; NODE_LIMIT],
    pub(crate) rows: [u8; NODE_LIMIT],
    pub(crate) low: [u8; NODE_LIMIT],
    pub(crate) leaf: [u8; NODE_LIMIT],
    pub(crate) nodes: usize,
}

// The rows that a node needs, from what its children need.
#[tactic(auto, unfolding(crate::specs::Table::join_need))]
fn joined_need(a: usize, b: usize) -> usize
    ensures { result ≡ join_need a b }
{
    if a < b {
        return b;
    }
    if b < a {
        return a;
    }
    if a < 255 { a + 1 } else { 255 }
}

// Child a of node u, whose other child is b; u where they do not both come before it. Then u is taken for a leaf: in a tree's arrays it
// is one, and in any others indices stay in range.
#[tactic(auto, unfolding(crate::specs::Columns::child_at))]
fn child(a: usize, b: usize, u: usize) -> usize
    ensures value { result ≡ child_at a b u }
    ensures upper_bound { result ≤ u }
{
    if u <= a {
        return u;
    }
    if b < u { a } else { u }
}

// Where node u with left child a and rank n is stored as the leaf of its rank; an inner node where no leaf is.
fn leaf_place(u: usize, a: usize, n: usize) -> usize
    requires { n ≤ 80 }
    ensures value { result ≡ leaf_place u a n }
    ensures upper_bound { result ≤ 81 }
{
    if a == u { n } else { INNER }
}

impl TreeColumns {
    // The rows that node u with children a and b needs; a leaf is its own left child.
    fn needed(&self, u: usize, a: usize, b: usize) -> usize
        requires { (u < 159) × (a ≤ u) × (b ≤ u) }
        ensures { result ≡ need_at self.now u a b }
    {
        if a == u {
            return 0;
        }
        joined_need(usize::from(self.rows[a]), usize::from(self.rows[b]))
    }

    // The first node below node u with left child a.
    fn first_below(&self, u: usize, a: usize) -> usize
        requires { (u < 159) × (a ≤ u) }
        ensures { result ≡ low_at self.now u a }
    {
        if a == u {
            return u;
        }
        usize::from(self.low[a])
    }

    // Stores node u, which has these children and this rank in the arrays.
    fn put(&mut self, u: usize, left: usize, right: usize, rank: usize)
        requires { u < 159 }
        ensures { NodePut u left right rank self.old self.new }
    {
        let a = child(left, right, u);
        let b = child(right, left, u);
        let need = self.needed(u, a, b);
        let low = self.first_below(u, a);
        let n = rank.min(LEAF_LIMIT);
        self.left[u] = trees::narrow(a);
        self.right[u] = trees::narrow(b);
        self.rank[u] = trees::narrow(n);
        self.rows[u] = trees::narrow(need);
        self.low[u] = trees::narrow(low);
        self.leaf[leaf_place(u, a, n)] = trees::narrow(u);
    }
}

// The columns of the first `nodes` nodes.
fn gathered(
    left: &[u8; NODE_LIMIT],
    right: &[u8; NODE_LIMIT],
    rank: &[u8; NODE_LIMIT],
    nodes: usize,
) -> TreeColumns
    requires { nodes ≤ 159 }
    ensures { Gathered nodes left.now right.now rank.now nodes result }
{
    let mut columns = TreeColumns {
        left: [0; NODE_LIMIT],
        right: [0; NODE_LIMIT],
        rank: [0; NODE_LIMIT],
        rows: [0; NODE_LIMIT],
        low: [0; NODE_LIMIT],
        leaf: [255; NODE_LIMIT],
        nodes,
    };
    for u in 0..nodes {
        columns.put(
            u,
            usize::from(left[u]),
            usize::from(right[u]),
            usize::from(rank[u]),
        );
    }
    columns
}

// The number of nodes: no more than an array has, and a root at least.
fn nodes_in(nodes: usize) -> usize
    ensures { (0 < result) × (result ≤ 159) × (0 < nodes → nodes ≤ 159 → result ≡ nodes) }
{
    nodes.clamp(1, NODE_LIMIT)
}

// The columns of a tree by its arrays and its leaves' ranks.
pub(crate) fn columns_of(tree: TreeArrays, rank: &[u8; NODE_LIMIT]) -> TreeColumns
    ensures rooted { Rooted result }
    ensures own_columns { (t : Tree) (C : List Label) → length C ≤ 80 → Given t C tree rank.now → OwnColumns t C result }
{
    let left = tree.left;
    let right = tree.right;
    gathered(&left, &right, rank, nodes_in(tree.nodes))
}
