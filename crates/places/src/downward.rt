// From the root down: the number of the place above each node, among the places of the required leaves' tree, and the rank of the least
// required label below that place. A child without required leaves, or the only one with any, has its parent's place.
ghost use Rattle.std.specs.Prelude.{◌≡◌, List, ℕ, ◌-◌, ◌*◌, ◌<◌, min, length};
ghost use Rattle.trees.specs.Label.{Label};
ghost use Rattle.trees.specs.Tree.{Tree};
ghost use Rattle.trees.specs.Arrays.{nodes_of};
ghost use Rattle.places.specs.Nodes.{child_number, child_top, PassedOn, TreeRanks, BelowIs, LeafNumbers, manys, leasts, numbers, tops};

use crate::upward::{Below, is_inner};
use trees::{LEAF_LIMIT, NODE_LIMIT, TreeArrays};

// A place by its number, and the rank of its head.
#[derive(Clone, Copy)]
pub(crate) struct NodePlace {
    pub number: u8,
    pub top: u8,
}

// The number of the root's place: `count` required leaves have 2 * count - 1 places.
fn root_number(count: usize) -> u8
    ensures { result ≡ 2 * min count 80 - 2 }
{
    trees::narrow((2 * count.min(LEAF_LIMIT)).saturating_sub(2))
}

// The place of a child of a node at `place`; `other` is its sibling. The child with the greater least rank comes right before its parent.
#[tactic(auto, unfolding(crate::specs::Nodes::child_number, crate::specs::Nodes::child_top))]
fn child_place(child: Below, other: Below, place: NodePlace) -> NodePlace
    ensures number { result.number ≡ child_number child.many other.many child.least other.least place.number }
    ensures top { result.top ≡ child_top child.many other.many child.least place.top }
{
    if child.many == 0 || other.many == 0 {
        return place;
    }
    let n = usize::from(place.number);
    if child.least < other.least {
        return NodePlace {
            number: trees::narrow(n.saturating_sub(2 * usize::from(other.many))),
            top: child.least,
        };
    }
    NodePlace {
        number: trees::narrow(n.saturating_sub(1)),
        top: child.least,
    }
}

// Node u passes its place on to its children.
fn pass_on(
    below: &[Below; NODE_LIMIT],
    a: usize,
    b: usize,
    u: usize,
    places: &mut [NodePlace; NODE_LIMIT],
)
    requires { u < 159 }
    ensures { PassedOn (manys below.now) (leasts below.now) a b u
        (numbers places.old) (tops places.old) (numbers places.new) (tops places.new) }
{
    if !is_inner(a, b, u) {
        return;
    }
    let place = places[u];
    places[a] = child_place(below[a], below[b], place);
    places[b] = child_place(below[b], below[a], place);
}

// All nodes, parents before children. The root's place is there from the beginning.
pub(crate) fn places_in(
    tree: TreeArrays,
    below: &[Below; NODE_LIMIT],
    count: usize,
) -> [NodePlace; NODE_LIMIT]
    ensures { (t : Tree) (C K : List Label) (rank : List ℕ) (m : ℕ) (ks : List ℕ) → TreeRanks t C K tree rank m ks
        → BelowIs t C K (nodes_of t) (manys below.now) (leasts below.now) → count ≡ length K
        → LeafNumbers t C K (numbers result) (tops result) }
{
    let nodes = tree.nodes.min(NODE_LIMIT);
    let root = below[nodes.saturating_sub(1)];
    let mut places = [NodePlace {
        number: root_number(count),
        top: root.least,
    }; NODE_LIMIT];
    for u in (0..nodes).rev() {
        let a = usize::from(tree.left[u]);
        let b = usize::from(tree.right[u]);
        pass_on(below, a, b, u, &mut places);
    }
    places
}
