// The line turned so that it starts at its better end: reversed only where the last point is strictly better.
#![tactic(auto)]

ghost use Rattle.std.specs.Prelude.{◌≡◌, ◌≤◌};
ghost use Rattle.limits.specs.Limits.{line_room, most_side};
ghost use Rattle.file_records.specs.Meaning.{settings_of};
ghost use Rattle.graph_arrays.specs.Arrays.{NodesHeld};
ghost use Rattle.graph_arrays.specs.NodeList.{NodeList, points_along};
ghost use Rattle.walk_spec.specs.Orient as definition;
ghost use Rattle.walk_orient.specs.Ends.{ends_from};

use file_records::Settings;
use graph_nodes::Table;
use grid::Point;
use limits::LINE_ROOM;

// The first and the last point of a line.
#[derive(Clone, Copy)]
pub struct EndPoints {
    pub first: Point,
    pub last: Point,
}

// The end points of a line of `count` nodes; none where it has no node.
pub fn end_points(
    nodes: &Table,
    n: usize,
    line: &[u16; LINE_ROOM],
    count: usize,
) -> Option<EndPoints>
    requires nodes { NodesHeld n nodes.now.xs nodes.now.ys }
    requires line { NodeList n line_room line.now count }
    ensures { result ≡ ends_from (definition.end_points (points_along n nodes.now.xs nodes.now.ys line.now count)) }
{
    if count == 0 {
        return None;
    }
    let first = walk_start::point_of(nodes, usize::from(line[0]));
    let last = walk_start::point_of(nodes, usize::from(line[count - 1]));
    Some(EndPoints { first, last })
}

// Turns a line of `count` nodes where its last point is strictly better than its first. What stands in `line` behind them is
// left open.
pub fn orient_path(
    nodes: &Table,
    n: usize,
    settings: Settings,
    line: &mut [u16; LINE_ROOM],
    count: usize,
)
    requires sides { (settings.width ≤ most_side) × (settings.height ≤ most_side) }
    requires nodes { NodesHeld n nodes.now.xs nodes.now.ys }
    requires line { NodeList n line_room line.old count }
    ensures count_after { points_along n nodes.now.xs nodes.now.ys line.new count ≡ definition.orient (settings_of settings) (points_along n nodes.now.xs nodes.now.ys line.old count) }
    ensures node_list { NodeList n line_room line.new count }
{
    let Some(EndPoints { first, last }) = end_points(nodes, n, line, count) else {
        return;
    };
    let turn = walk_start::lies_better(settings, last, first);
    if turn {
        line[..count].reverse();
    }
}
