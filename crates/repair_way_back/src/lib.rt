// The way back from a node to the start of a search, by the distances that the search found, in the edges
// of a graph in flat arrays (crates/graph_adjacency).
#![tactic(auto)]

ghost use Rattle.std.specs.Prelude.{◌≡◌, [], ◌-◌, ◌<◌, ◌≤◌, length, get_or};
ghost use Rattle.limits.specs.Limits.{most_nodes, edge_room, arc_room};
ghost use Rattle.graph_adjacency.specs.Lists.{edge_number};
ghost use Rattle.graph_arrays.specs.Arrays.{edges_in, EdgesLinked};
ghost use Rattle.repair_spec.specs.Retrace.{on_way_back, way_back};
ghost use Rattle.repair_way_back.specs.Back.{fitting};
ghost use Rattle.repair_way_back.specs.Answer.{way_in};

use graph_adjacency::{Adjacency, edge_number};
use limits::MOST_NODES;

// The source's 1e-10, `tolerance` of the definitions: by less than this the distances on the way back may be off. `on_way_back`
// promises the definition's answer for every three floats, which ties the two together.
const TOLERANCE: f64 = 1e-10;

// Whether a neighbour at the distance d, by an edge of weight w, is on the way back from a node at the
// distance c.
pub fn on_way_back(d: f64, w: f64, c: f64) -> bool
    ensures { result ≡ on_way_back d w c }
{
    let x = d + w - c;
    x.abs() < TOLERANCE
}

// Whether the arc k of the node v leads to a node that is not seen yet and on the way back from v.
fn fits(
    edges: &Adjacency,
    dist: &[f64; MOST_NODES],
    seen: &[bool; MOST_NODES],
    v: usize,
    k: usize,
) -> bool
    requires { (v < most_nodes) × (0 < k) × (k ≤ arc_room) × (edge_number k < edge_room) × (get_or edges.now.ends (k - 1) 0 < most_nodes) }
    ensures { result ≡ fitting edges.now dist.now seen.now v k }
{
    let u = usize::from(edges.ends[k - 1]);
    !seen[u] && on_way_back(dist[u], edges.weights[edge_number(k)], dist[v])
}

// From the node t back to s, by the distances from s: at each node on to the first neighbour, in the order
// of its edges, that is not yet on the way and from which the edge makes up the distance. The nodes are
// written into `path` from its end; the answer is the place of the first, and none where there is no way. What stands in front
// of the way, and all of `path` where there is none, is left open. By
// least distances, along edges of a grid step or more, no node on the way fits again (repair_early_exit/proofs/Found: each
// step leads to a nearer node); the contract is for any distances, where one may.
pub fn way_back(
    edges: &Adjacency,
    n: usize,
    m: usize,
    dist: &[f64; MOST_NODES],
    path: &mut [u16; MOST_NODES],
    s: usize,
    t: usize,
) -> Option<usize>
    requires t_lt_n { (t < n) × (length dist.now ≡ most_nodes) × (length path.old ≡ most_nodes) }
    requires edges_linked { EdgesLinked n m edges.now }
    ensures way { way_in path.new result ≡ way_back n (edges_in m edges.now) dist.now s t [] }
    ensures long { length path.new ≡ most_nodes }
{
    let mut seen = [false; MOST_NODES];
    let mut v = t;
    'back: for step in 0..n {
        let at = MOST_NODES - 1 - step;
        path[at] = v as u16;
        let arrived = v == s;
        if arrived {
            return Some(at);
        }
        seen[v] = true;
        let mut k = edges.first_arc(v);
        while k != 0 {
            if fits(edges, dist, &seen, v, k) {
                v = usize::from(edges.ends[k - 1]);
                continue 'back;
            }
            k = edges.next_arc(v, k);
        }
        return None;
    }
    None
}
