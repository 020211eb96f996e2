// The copies that a retrace lays along its path, in the edges of a graph in flat arrays (crates/graph_adjacency).
#![tactic(auto)]

ghost use Rattle.std.specs.Prelude.{◌≡◌, ℕ, ◌+◌, ◌<◌, ◌≤◌, length, get_or, drop};
ghost use Rattle.limits.specs.Limits.{most_nodes, edge_room};
ghost use Rattle.graph_arrays.specs.Arrays.{edges_in, EdgesLinked};
ghost use Rattle.repair_spec.specs.Copies.{lay_path};
ghost use Rattle.repair_copies.specs.Laying.{laid_of, copies_from};

use graph_adjacency::{Adjacency, edge_number};
use limits::MOST_NODES;

// One copy for each edge of the path, from its start to its end; the path stands from `first` to the array's end.
// Each has the weight of the first of the node's edges that leads to the next node, copies laid before
// among them. There are m edges before; the answer is `sum` with the weight of each copy added.
pub fn lay_path(
    edges: &mut Adjacency,
    n: usize,
    m: usize,
    path: &[u16; MOST_NODES],
    first: usize,
    sum: f64,
) -> f64
    requires first_lt_most_nodes { (first < most_nodes) × (m + copies_from first ≤ edge_room) × (length path.now ≡ most_nodes) × ((j : ℕ) → first ≤ j → j < most_nodes → get_or path.now j 0 < n) }
    requires apart { (j : ℕ) → first ≤ j → j + 1 < most_nodes → get_or path.now j 0 ≡ get_or path.now (j + 1) 0 → ⊥ }
    requires edges_linked { EdgesLinked n m edges.old }
    ensures laid { laid_of (edges_in (m + copies_from first) edges.new) result ≡ lay_path (drop first path.now) (laid_of (edges_in m edges.old) sum) }
    ensures linked { EdgesLinked n (m + copies_from first) edges.new }
{
    let mut total = sum;
    let mut e = m;
    'step: for i in first..MOST_NODES - 1 {
        let u = usize::from(path[i]);
        let v = usize::from(path[i + 1]);
        let mut k = edges.first_arc(u);
        while k != 0 {
            if usize::from(edges.ends[k - 1]) == v {
                let w = edges.weights[edge_number(k)];
                edges.push_edge(e, u, v, w);
                e += 1;
                total += w;
                continue 'step;
            }
            k = edges.next_arc(u, k);
        }
        edges.push_edge(e, u, v, 0.0);
        e += 1;
        total += 0.0;
    }
    total
}
