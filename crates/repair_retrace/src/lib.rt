// Retraces: for each pair of nodes a copy of each edge along a way between them, in the edges of a graph in flat
// arrays (crates/graph_adjacency). It is the way back that fits the least distances within 1e-10, which the source calls
// the shortest path.
#![tactic(auto)]

ghost use Rattle.std.specs.Prelude.{◌≡◌, [], ◌∷◌, ◌<◌, ◌≤◌, length};
ghost use Rattle.limits.specs.Limits.{most_nodes, most_edges, most_pairs};
ghost use Rattle.graph_arrays.specs.Arrays.{edges_in, EdgesHeld};
ghost use Rattle.repair_spec.specs.Retrace.{shortest_path};
ghost use Rattle.repair_spec.specs.Pairing.{pair};
ghost use Rattle.repair_spec.specs.PairsIn.{pairs_in, PairsAmong};
ghost use Rattle.repair_spec.specs.Repair.{apply_matching};
ghost use Rattle.repair_search.specs.Touched.{Unreached};
ghost use Rattle.repair_way_back.specs.Answer.{way_in};
ghost use Rattle.repair_retrace.specs.Outcome.{so_far};
ghost use Rattle.repair_retrace.specs.Answer.{Answers};

use graph_adjacency::Adjacency;
use limits::{MOST_NODES, REFUSED_PATH};
use repair_copies::lay_path;
use repair_search::Search;
use repair_spec::PairList;
use repair_way_back::way_back;

// The sum with the copies' weights, and the number of edges with the copies.
#[derive(Clone, Copy)]
pub struct Laid {
    pub sum: f64,
    pub edges: usize,
}

// The way from s to t that fits the least distances within 1e-10, the definition's `shortest_path`, written into `path` as
// the way back writes it: what stands in front of it, and all of `path` where there is none, is left open. The search is made in
// a lent one, in which afterwards no node is reached, as before; what `touched` holds is left open.
pub fn shortest_path(
    edges: &Adjacency,
    n: usize,
    m: usize,
    search: &mut Search,
    path: &mut [u16; MOST_NODES],
    s: usize,
    t: usize,
) -> Option<usize>
    requires s_lt_n { (s < n) × (t < n) × (length path.old ≡ most_nodes) × Unreached n search.old }
    requires edges_held { EdgesHeld n m edges.now }
    ensures way { way_in path.new result ≡ shortest_path n (edges_in m edges.now) s t }
    ensures kept { (length path.new ≡ most_nodes) × Unreached n search.new }
{
    let count = search.search_from(edges, n, m, s, t);
    let way = way_back(edges, n, m, &search.dist, path, s, t);
    search.clear(n, count);
    way
}

// One retrace, between the nodes `from` and `to`: its copies laid, of which each weight is added to `sum`. Refused with
// `number` where there would be more than `most` edges, which is known before a copy is laid. After a refusal it is
// left open what the arrays hold.
// The number is no enum, since a caller may name any: `fix_parity` promises its answer for each.
pub fn apply_pair(
    edges: &mut Adjacency,
    n: usize,
    m: usize,
    search: &mut Search,
    from: usize,
    to: usize,
    sum: f64,
    most: usize,
    number: u8,
) -> Result<Laid, u8>
    requires from_lt_n { (from < n) × (to < n) × (most ≤ most_edges) × Unreached n search.old }
    requires edges_held { EdgesHeld n m edges.old }
    ensures answer { Answers n (apply_matching most number n (pair from to ∷ []) (so_far (edges_in m edges.old) sum)) result edges.new }
    ensures kept { Unreached n search.new }
{
    let mut path = [0; MOST_NODES];
    let Some(first) = shortest_path(edges, n, m, search, &mut path, from, to) else {
        return Err(REFUSED_PATH);
    };
    let count = m + (MOST_NODES - 1 - first);
    let past_most = most < count;
    if past_most {
        return Err(number);
    }
    let total = lay_path(edges, n, m, &path, first, sum);
    Ok(Laid {
        sum: total,
        edges: count,
    })
}

// The retraces of the pairs, one after the other, each on the graph as it then is. After a refusal it is
// left open what the arrays hold.
pub fn apply_matching(
    edges: &mut Adjacency,
    n: usize,
    m: usize,
    search: &mut Search,
    pairs: &PairList,
    sum: f64,
    most: usize,
    number: u8,
) -> Result<Laid, u8>
    requires most_le_most_edges { (most ≤ most_edges) × (pairs.now.count ≤ most_pairs) × Unreached n search.old × PairsAmong n pairs.now.firsts pairs.now.seconds pairs.now.count }
    requires edges_held { EdgesHeld n m edges.old }
    ensures answer { Answers n (apply_matching most number n (pairs_in pairs.now.firsts pairs.now.seconds 0 pairs.now.count) (so_far (edges_in m edges.old) sum)) result edges.new }
    ensures kept { Unreached n search.new }
{
    let mut laid = Laid { sum, edges: m };
    for i in 0..pairs.count {
        let from = usize::from(pairs.firsts[i]);
        let to = usize::from(pairs.seconds[i]);
        laid = apply_pair(
            edges, n, laid.edges, search, from, to, laid.sum, most, number,
        )?;
    }
    Ok(laid)
}
