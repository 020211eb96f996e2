// The line through all edges from a start that is known.
#![tactic(auto)]

ghost use Rattle.std.specs.Prelude.{◌≡◌, ◌<◌, take};
ghost use Rattle.limits.specs.Limits.{edge_room, line_room};
ghost use Rattle.graph_arrays.specs.Arrays.{EdgesLinked, edges_in};
ghost use Rattle.graph_arrays.specs.NodeList.{NodeList};
ghost use Rattle.walk_euler.specs.Euler.{closed_line, open_line};

use graph_adjacency::Adjacency;
use limits::LINE_ROOM;
use walk_circuit::Entries;

// The circuit from s: the definition's answer for any graph. It is a line through all edges where no node is odd and all
// are reached. The answer is how many nodes the line has; what stands behind them is left open.
pub fn closed_line(
    edges: &Adjacency,
    n: usize,
    m: usize,
    s: usize,
    line: &mut [u16; LINE_ROOM],
) -> usize
    requires start { s < n }
    requires edges { EdgesLinked n m edges.now }
    ensures line_after { take result line.new ≡ closed_line s (edges_in m edges.now) }
    ensures node_list { NodeList n line_room line.new result }
{
    // 16,008 bytes in its arrays; the line that is lent has 8,004.
    let mut entries = Entries::new();
    walk_circuit::circuit(edges, n, m, s, &mut entries);
    walk_cut::whole(&entries, line)
}

// The line from s between two nodes, u and v: the virtual edge from u to v is added, and its step is cut, which is known
// by the edge's number, m. It is the definition's answer for any graph, and a line through all edges where u and v alone
// are odd and all are reached. The answer is how many nodes the line has; what stands behind them is left open. What the
// edges are afterwards, with the virtual edge, is left open.
pub fn open_line(
    edges: &mut Adjacency,
    n: usize,
    m: usize,
    u: usize,
    v: usize,
    s: usize,
    line: &mut [u16; LINE_ROOM],
) -> usize
    requires nodes { (u < n) × (v < n) × (s < n) }
    requires apart { u ≡ v → ⊥ }
    requires room { m < edge_room }
    requires edges { EdgesLinked n m edges.old }
    ensures line_after { take result line.new ≡ open_line u v s (edges_in m edges.old) }
    ensures node_list { NodeList n line_room line.new result }
{
    edges.push_edge(m, u, v, 0.0);
    let mut entries = Entries::new();
    walk_circuit::circuit(edges, n, m + 1, s, &mut entries);
    walk_cut::cut(&entries, m, line)
}
