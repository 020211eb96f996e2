// The line through the repaired graph, written into the output: the last step of a plan, with check 14.
#![tactic(auto)]

ghost use Rattle.std.specs.Prelude.{◌≡◌, ◌≤◌};
ghost use Rattle.limits.specs.Limits.{most_side};
ghost use Rattle.file_records.specs.Meaning.{settings_of};
ghost use Rattle.graph_arrays.specs.Arrays.{nodes_in, edges_in, NodesHeld, EdgesHeld};
ghost use Rattle.walk_spec.specs.Line.{line_of};
ghost use Rattle.planner_output.specs.Output.{emitted_of, output_with};

use file_records::Settings;
use graph_adjacency::Adjacency;
use graph_nodes::Table;
use limits::{HEAD_SIZE, LINE_ROOM, POINT_SIZE};

// Writes the line of m edges between n nodes; the answer is how many points it has. Where the output has no room for them,
// nothing is written, and there is none. What the edges are afterwards is left open.
pub fn emit_line(
    nodes: &Table,
    edges: &mut Adjacency,
    n: usize,
    m: usize,
    settings: Settings,
    output: &mut [u8],
) -> Option<usize>
    requires sides { (settings.width ≤ most_side) × (settings.height ≤ most_side) }
    requires nodes { NodesHeld n nodes.now.xs nodes.now.ys }
    requires edges { EdgesHeld n m edges.old }
    ensures value { result ≡ emitted_of output.old (line_of (settings_of settings) (nodes_in n nodes.now.xs nodes.now.ys) (edges_in m edges.old)) }
    ensures output_after { output.new ≡ output_with output.old (line_of (settings_of settings) (nodes_in n nodes.now.xs nodes.now.ys) (edges_in m edges.old)) }
{
    // 8,004 bytes; with the arrays of the walk below it 30,652 in all.
    let mut line = [0u16; LINE_ROOM];
    let count = walk::line_of(nodes, edges, n, m, settings, &mut line);
    if output.len() < HEAD_SIZE + POINT_SIZE * count {
        return None;
    }
    record::write_line(nodes, &line, count, output);
    Some(count)
}
