// The odd nodes of a graph: degrees counted in one pass over the edges, then the odd ones listed.
#![tactic(auto)]

ghost use Rattle.std.specs.Prelude.{◌≡◌, ◌+◌, get_or};
ghost use Rattle.limits.specs.Limits.{edge_room};
ghost use Rattle.graph_spec.specs.Odd.{odd_nodes};
ghost use Rattle.graph_arrays.specs.Arrays.{edges_in, EdgesLinked, Front};
ghost use Rattle.graph_odd.specs.Degrees.{Countable, bumped, Degrees};

use graph_adjacency::Adjacency;
use limits::{EDGE_ROOM, MOST_NODES};

// A node's edges, counted: 4,001 at most, the repaired ones and the virtual one, of which each has two different ends.
type Degree = u16;

// One more at both ends of the edge i, which are two nodes.
fn count_edge(edges: &Adjacency, degrees: &mut [Degree; MOST_NODES], i: usize)
    requires { Countable i edges.now.ends degrees.old }
    ensures { degrees.new ≡ bumped degrees.old (get_or edges.now.ends i 0) (get_or edges.now.ends (i + edge_room) 0) }
{
    let u = usize::from(edges.ends[i]);
    let v = usize::from(edges.ends[i + EDGE_ROOM]);
    degrees[u] += 1;
    degrees[v] += 1;
}

// The degree of each node, by the first m edges.
fn count_degrees(edges: &Adjacency, n: usize, m: usize) -> [Degree; MOST_NODES]
    requires { EdgesLinked n m edges.now }
    ensures { Degrees (edges_in m edges.now) result }
{
    let mut degrees: [Degree; MOST_NODES] = [0; MOST_NODES];
    for i in 0..m {
        count_edge(edges, &mut degrees, i);
    }
    degrees
}

// Lists the odd ones of n nodes, ascending; the answer is how many there are. What stands behind them is left open.
pub fn odd_nodes(edges: &Adjacency, n: usize, m: usize, odd: &mut [u16; MOST_NODES]) -> usize
    requires { EdgesLinked n m edges.now }
    ensures { Front (odd_nodes n (edges_in m edges.now)) odd.new result }
{
    let degrees = count_degrees(edges, n, m);
    let mut count: usize = 0;
    for v in 0..n {
        let odd_degree = degrees[v] % 2 == 1;
        if odd_degree {
            odd[count] = v as u16;
            count += 1;
        }
    }
    count
}
