// The pairs of more odd nodes than Optimal tries all pairings of: Greedy's, or those that are nearest by graph distance,
// whichever cost less by graph distance. The distances between the nodes stand in the lent table, row by row.
#![tactic(auto)]

ghost use Rattle.std.specs.Prelude.{◌≡◌, ◌*◌, ◌<◌, ◌≤◌, length};
ghost use Rattle.limits.specs.Limits.{most_nodes};
ghost use Rattle.graph_spec.specs.Odd.{odd_nodes};
ghost use Rattle.graph_arrays.specs.Arrays.{nodes_in, edges_in, EdgesHeld, NodesHeld, Front};
ghost use Rattle.graph_arrays.specs.NodeList.{NodeList};
ghost use Rattle.repair_spec.specs.PairsIn.{listed, PairRoom};
ghost use Rattle.repair_spec.specs.Pairing.{cost_of};
ghost use Rattle.repair_greedy.specs.Costs.{entry_of, DistancesHeld};
ghost use Rattle.repair_greedy.specs.Rounds.{Paired};
ghost use Rattle.repair_busy.specs.Table.{Placed, Numbers, BusyBy, busy_for};

use graph_adjacency::Adjacency;
use graph_nodes::Table;
use limits::MOST_NODES;
use repair_greedy::{Cost, Distances};
use repair_spec::PairList;

// The place of each of the first `count` nodes of `odd`; a node that is not among them is left at place 0.
fn place_nodes(odd: &[u16; MOST_NODES], count: usize) -> [u16; MOST_NODES]
    requires { (0 < count) × NodeList most_nodes most_nodes odd.now count }
    ensures { Placed odd.now count count result }
{
    let mut places = [0; MOST_NODES];
    for i in 0..count {
        let v = usize::from(odd[i]);
        places[v] = i as u16;
    }
    places
}

// The distance from u to v.
fn distance_in(distances: &Distances, u: u16, v: u16) -> f64
    requires { (u < most_nodes) × (v < most_nodes) × DistancesHeld distances.now }
    ensures { result ≡ entry_of distances.now u v }
{
    let at = distances.start(u) + usize::from(distances.places[usize::from(v)]);
    distances.table[at]
}

// What the pairs cost: the distance of each is added, in their order.
fn pairs_cost(distances: &Distances, pairs: &PairList) -> f64
    requires { DistancesHeld distances.now × Paired pairs.now }
    ensures { result ≡ cost_of (entry_of distances.now) (listed pairs.now) }
{
    let mut cost = 0.0;
    for k in 0..pairs.count {
        cost = cost + distance_in(distances, pairs.firsts[k], pairs.seconds[k]);
    }
    cost
}

// Greedy's pairs where they cost no more than the nearest by the table, and else those, in the list afterwards. By `BusyBy` the
// pairs are `busy_pairs` for any distances that the table has for the nodes of `odd`.
fn choose_pairs(
    nodes: &Table,
    n: usize,
    odd: &[u16; MOST_NODES],
    count: usize,
    table: &[f64],
    pairs: &mut PairList,
)
    requires { (0 < count) × NodesHeld n nodes.now.xs nodes.now.ys × NodeList n most_nodes odd.now count × (count * count ≤ length table.now) × Numbers count table.now × PairRoom pairs.old.firsts pairs.old.seconds }
    ensures { BusyBy (nodes_in n nodes.now.xs nodes.now.ys) odd.now count table.now (listed pairs.new) }
{
    let distances = Distances {
        table,
        places: place_nodes(odd, count),
        size: count,
    };
    let mut near = PairList::new();
    repair_greedy::nearest_pairs(&distances, odd, count, &mut near);
    repair_greedy::greedy_pairs(nodes, n, odd, count, pairs);
    let paid = pairs_cost(&distances, pairs);
    let asked = pairs_cost(&distances, &near);
    let no_dearer = paid <= asked;
    if no_dearer {
        return;
    }
    *pairs = near;
}

// The pairs of the odd nodes, by the distances between them, which are worked out into the table first. What stands in the
// table afterwards is left open.
pub fn busy_pairs(
    nodes: &Table,
    edges: &Adjacency,
    n: usize,
    m: usize,
    odd: &[u16; MOST_NODES],
    count: usize,
    table: &mut [f64],
    pairs: &mut PairList,
)
    requires nodes { NodesHeld n nodes.now.xs nodes.now.ys }
    requires edges { EdgesHeld n m edges.now }
    requires listed { Front (odd_nodes n (edges_in m edges.now)) odd.now count × (2 < count) }
    requires room { (count * count ≤ length table.old) × PairRoom pairs.old.firsts pairs.old.seconds }
    ensures { listed pairs.new ≡ busy_for (nodes_in n nodes.now.xs nodes.now.ys) n (edges_in m edges.now) }
{
    repair_distances::fill_rows(edges, n, m, odd, count, table, 0);
    choose_pairs(nodes, n, odd, count, table, pairs);
}
