// The lines in the order of their numbers, as one list of ranks. Lines without leaf are skipped at once: there are at most 80 others.
ghost use Rattle.std.specs.Prelude.{true, false, cond, List, [], ◌∷◌, ◌++◌, ◌<◌, ◌≤◌, eqb, get_or};
ghost use Rattle.places.specs.Marks.{leaf_marks, line_marks, marks_to, ListHolds};
ghost use Rattle.places.specs.declared.Mark.{Mark};

use crate::lines::LINES;
use crate::{ITEMS, Mark, PieceList};
use table::RANKS;
use trees::{LEAF_LIMIT, NODE_LIMIT};

impl PieceList {
    // The list without entry.
    fn new() -> PieceList
        ensures { ListHolds result [] }
    {
        PieceList {
            count: 0,
            items: [Mark {
                rank: 0,
                head: false,
            }; ITEMS],
        }
    }

    // One more entry, if there is room. A job's pieces always have room.
    fn push(&mut self, rank: u8, head: bool)
        ensures { (L : List Mark) → ListHolds self.old L
            → ListHolds self.new (L ++ (record { rank = rank; head = head } ∷ [])) }
    {
        if ITEMS <= self.count {
            return;
        }
        self.items[self.count] = Mark { rank, head };
        self.count += 1;
    }

    // Rank r, if it is on line j.
    fn push_leaf(&mut self, line: &[u8; RANKS], j: usize, r: usize)
        requires { r < 80 }
        ensures { (L : List Mark) → ListHolds self.old L
            → ListHolds self.new (L ++ cond (eqb (get_or line.now r 0) j) (record { rank = r; head = false } ∷ []) []) }
    {
        if usize::from(line[r]) == j {
            self.push(r as u8, false);
        }
    }

    // The leaves of line j, in label order.
    fn push_leaves(&mut self, line: &[u8; RANKS], m: usize, j: usize)
        requires { m ≤ 80 }
        ensures { (L : List Mark) → ListHolds self.old L → ListHolds self.new (L ++ leaf_marks line.now j m) }
    {
        for r in 0..m {
            self.push_leaf(line, j, r);
        }
    }

    // Line j with its head, if it has a leaf.
    fn push_line(&mut self, line: &[u8; RANKS], m: usize, j: usize, top: Option<u8>)
        requires { m ≤ 80 }
        ensures { (L : List Mark) → ListHolds self.old L → ListHolds self.new (L ++ line_marks line.now m j top) }
    {
        let Some(top) = top else {
            return;
        };
        if usize::from(top) < LEAF_LIMIT {
            self.push(top, true);
        }
        self.push_leaves(line, m, j);
    }
}

// All lines.
pub(crate) fn list_lines(line: &[u8; RANKS], tops: &[Option<u8>; LINES], m: usize) -> PieceList
    requires { m ≤ 80 }
    ensures { ListHolds result (marks_to line.now tops.now m 159) }
{
    let mut list = PieceList::new();
    for j in 0..NODE_LIMIT {
        list.push_line(line, m, j, tops[j]);
    }
    list
}
