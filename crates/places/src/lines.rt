// From nodes to ranks: the line of each common label, and each line's head.
ghost use Rattle.std.specs.Prelude.{◌≡◌, cond, List, ℕ, ◌<◌, ◌≤◌, min, length, set};
ghost use Rattle.trees.specs.Label.{Label};
ghost use Rattle.trees.specs.Tree.{Tree};
ghost use Rattle.trees.specs.Arrays.{nodes_of};
ghost use Rattle.places.specs.Nodes.{is_inner, line_at, TreeRanks, ValuesByRank, LinesByRank, numbers, tops};

use crate::downward::NodePlace;
use crate::upward::is_inner;
use table::RANKS;
use trees::{LEAF_LIMIT, NODE_LIMIT, TreeArrays};

// 80 required leaves have 159 places. One line more is for the labels that are on none: so each label has a line, and no step needs a case
// for none.
const NO_LINE: usize = NODE_LIMIT;

pub(crate) const LINES: usize = NO_LINE + 1;

// By rank the label's line, 159 for none, and by line the rank of its head, 80 if no label there is required; none for a line without leaf.
#[derive(Clone, Copy)]
pub(crate) struct RankLines {
    pub line: [u8; RANKS],
    pub heads: [Option<u8>; LINES],
}

// The place of node u is stored if it is a leaf.
fn put_place(
    a: usize,
    b: usize,
    u: usize,
    rank: usize,
    place: NodePlace,
    out: &mut [NodePlace; RANKS],
)
    ensures out_after { out.new ≡ cond (is_inner a b u) out.old (set out.old (min rank 80) place) }
    ensures out_len_unchanged { length out.new ≡ length out.old }
{
    if is_inner(a, b, u) {
        return;
    }
    let r = rank.min(LEAF_LIMIT);
    out[r] = place;
}

// The places of a tree's leaves by rank.
pub(crate) fn by_rank(
    tree: TreeArrays,
    rank: &[u8; NODE_LIMIT],
    places: &[NodePlace; NODE_LIMIT],
) -> [NodePlace; RANKS]
    ensures { (t : Tree) (C K : List Label) (m : ℕ) (ks : List ℕ) → TreeRanks t C K tree rank.now m ks
        → ValuesByRank t C (nodes_of t) (numbers places.now) (numbers result)
        × ValuesByRank t C (nodes_of t) (tops places.now) (tops result) }
{
    let nodes = tree.nodes.min(NODE_LIMIT);
    let mut out = [NodePlace { number: 0, top: 0 }; RANKS];
    for u in 0..nodes {
        let a = usize::from(tree.left[u]);
        let b = usize::from(tree.right[u]);
        let r = usize::from(rank[u]);
        put_place(a, b, u, r, places[u], &mut out);
    }
    out
}

// The line of a label with this number in the required list, 0 for none, and these numbers of its place in both trees.
#[tactic(auto, unfolding(crate::specs::Nodes::line_at))]
fn line_at(number: u8, one: u8, two: u8) -> usize
    ensures value { result ≡ line_at number one two }
    ensures upper_bound { result ≤ 159 }
{
    if number != 0 || one != two {
        return NO_LINE;
    }
    usize::from(one).min(NO_LINE)
}

// The label of rank r is put on line j, whose head is `top`.
fn put_line(r: usize, j: usize, top: u8, line: &mut [u8; RANKS], heads: &mut [Option<u8>; LINES])
    requires { (r < 80) × (j ≤ 159) }
    ensures line_after { line.new ≡ set line.old r j }
    ensures heads_after { heads.new ≡ set heads.old j (Some top) }
{
    line[r] = trees::narrow(j);
    heads[j] = Some(top);
}

// The lines of the first m ranks, from their places in both trees. The heads are those of the first.
pub(crate) fn lines_of(
    number: &[u8; RANKS],
    one: &[NodePlace; RANKS],
    two: &[NodePlace; RANKS],
    m: usize,
) -> RankLines
    requires { m ≤ 80 }
    ensures { LinesByRank m number.now (numbers one.now) (numbers two.now) (tops one.now) result.line result.heads }
{
    let mut line = [0u8; RANKS];
    let mut heads = [None; LINES];
    for r in 0..m {
        let p = one[r];
        let q = two[r];
        let j = line_at(number[r], p.number, q.number);
        put_line(r, j, p.top, &mut line, &mut heads);
    }
    RankLines { line, heads }
}
