// The chain of one segment, from its start to its end: a step to each split point that stays, and to the end.
#![tactic(auto)]

ghost use Rattle.std.specs.Prelude.{◌≡◌, ◌≤◌};
ghost use Rattle.limits.specs.Limits.{most_splits};
ghost use Rattle.graph_splits.specs.Next.{at};
ghost use Rattle.graph_moves.specs.Moves.{draw_all};
ghost use Rattle.graph_chain.specs.Kept.{chain_in};
ghost use Rattle.graph_chain.specs.Along.{traced_along, Traceable};

use graph_splits::Buffer;
use graph_strokes::Traced;
use grid::Point;

// From a, whose node is the one last come to, along the split points that stay, of which there are `count` sorted
// by distance, to b.
pub fn trace_chain(traced: &mut Traced, splits: &Buffer, count: usize, a: Point, b: Point)
    requires few { count ≤ most_splits }
    requires room { Traceable (at a.x a.y) (draw_all (chain_in splits.now.xs splits.now.ys count (at a.x a.y) (at b.x b.y))) traced.old }
    ensures { traced.new ≡ traced_along (at a.x a.y) (draw_all (chain_in splits.now.xs splits.now.ys count (at a.x a.y) (at b.x b.y))) traced.old }
{
    let mut p = a;
    let mut next = 0;
    while let Some(j) = splits.next_split(count, next, a, b, p) {
        let q = splits.point(j);
        traced.step(p, q);
        p = q;
        next = j + 1;
    }
    traced.step(p, b);
}
