// The node at which the walk starts: of a list of nodes the one that lies best, first on ties.
#![tactic(auto)]

ghost use Rattle.std.specs.Prelude.{◌≡◌, ◌≤◌, ◌<◌, take};
ghost use Rattle.limits.specs.Limits.{most_nodes, most_side};
ghost use Rattle.drawing_spec.specs.OnGrid.{OnGrid};
ghost use Rattle.file_records.specs.Meaning.{settings_of};
ghost use Rattle.graph_arrays.specs.Arrays.{point_in, nodes_in, edges_in, NodesHeld, EdgesLinked, Front};
ghost use Rattle.graph_arrays.specs.NodeList.{NodeList};
ghost use Rattle.walk_spec.specs.Start as definition;
ghost use Rattle.walk_start.specs.Better.{point_from, point_of, lies_better, better_of};

use file_records::Settings;
use graph_adjacency::Adjacency;
use graph_nodes::Table;
use grid::Point;
use limits::MOST_NODES;

// The point of a node.
pub fn point_of(nodes: &Table, v: usize) -> Point
    requires { v < most_nodes }
    ensures { result ≡ point_from (point_in nodes.now.xs nodes.now.ys v) }
{
    Point {
        x: nodes.xs[v],
        y: nodes.ys[v],
    }
}

// Whether the point p lies strictly better than q: nearer to the centre of the canvas where the line is to start
// inside, and farther from it otherwise.
pub fn lies_better(settings: Settings, p: Point, q: Point) -> bool
    requires sides { (settings.width ≤ most_side) × (settings.height ≤ most_side) }
    requires points { OnGrid (point_of p) × OnGrid (point_of q) }
    ensures { result ≡ lies_better (settings_of settings) (point_of p) (point_of q) }
{
    let inside = settings.flags / 2 % 2 == 1;
    let a = center::from_center(settings.width, settings.height, p);
    let b = center::from_center(settings.width, settings.height, q);
    center::better(inside, a, b)
}

// The node u where it lies strictly better than v, and v otherwise.
fn better_of(nodes: &Table, n: usize, settings: Settings, v: usize, u: usize) -> usize
    requires sides { (settings.width ≤ most_side) × (settings.height ≤ most_side) }
    requires two { (v < n) × (u < n) }
    requires nodes { NodesHeld n nodes.now.xs nodes.now.ys }
    ensures value { result ≡ better_of (settings_of settings) (nodes_in n nodes.now.xs nodes.now.ys) v u }
    ensures upper_bound { result < n }
{
    let better = lies_better(settings, point_of(nodes, u), point_of(nodes, v));
    if better { u } else { v }
}

// The best of the first `count` nodes of a list; node 0 where there is none.
pub fn best(
    nodes: &Table,
    n: usize,
    settings: Settings,
    list: &[u16; MOST_NODES],
    count: usize,
) -> usize
    requires sides { (settings.width ≤ most_side) × (settings.height ≤ most_side) }
    requires some { 0 < n }
    requires nodes { NodesHeld n nodes.now.xs nodes.now.ys }
    requires list { NodeList n most_nodes list.now count }
    ensures value { result ≡ definition.best (settings_of settings) (nodes_in n nodes.now.xs nodes.now.ys) (take count list.now) }
    ensures upper_bound { result < n }
{
    if count == 0 {
        return 0;
    }
    let mut v = usize::from(list[0]);
    for i in 1..count {
        let u = usize::from(list[i]);
        v = better_of(nodes, n, settings, v, u);
    }
    v
}

// Lists the nodes with edges, in ascending order; the answer is how many there are. What stands behind them is left open.
pub fn nodes_with_edges(
    edges: &Adjacency,
    n: usize,
    m: usize,
    list: &mut [u16; MOST_NODES],
) -> usize
    requires { EdgesLinked n m edges.now }
    ensures { Front (definition.with_edges (edges_in m edges.now) n 0) list.new result }
{
    let mut count: usize = 0;
    for v in 0..n {
        let arc = edges.first_arc(v);
        let drawn = arc != 0;
        if drawn {
            list[count] = v as u16;
            count += 1;
        }
    }
    count
}
