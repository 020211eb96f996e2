// Which odd nodes repair joins by retraces: the pairs of Greedy or of Optimal, and the refusal of Optimal's
// tables. What the lent tables hold afterwards is left open: whoever lent them clears them once, at the end.
#![tactic(auto)]

ghost use Rattle.std.specs.Prelude.{◌≡◌, ◌<◌, ◌≤◌, length};
ghost use Rattle.limits.specs.Limits.{most_nodes};
ghost use Rattle.file_records.specs.Meaning.{settings_of};
ghost use Rattle.graph_spec.specs.Odd.{odd_nodes};
ghost use Rattle.graph_arrays.specs.Arrays.{edges_in, graph_in, EdgesHeld, NodesHeld, Front};
ghost use Rattle.repair_spec.specs.PairsIn.{listed, PairRoom};
ghost use Rattle.repair_spec.specs.Repair.{pairs_of};
ghost use Rattle.repair_pairs.specs.Refusal.{Room, number_in, short, refusal};
ghost use Rattle.repair_pairs.specs.Pairs.{optimal_for, pairs_for};
ghost use Rattle.repair_pairs.specs.Meaning.{found_in};

use file_records::Settings;
use graph_adjacency::Adjacency;
use graph_nodes::Table;
use limits::{MOST_NODES, MOST_ODD, Refusal};
use repair_spec::PairList;

// The pairing byte of Optimal.
const OPTIMAL: u8 = 1;

// Refused where the table has fewer entries than it must have.
fn short_of(entries: usize, floats: usize) -> Result<(), Refusal>
    ensures { number_in result ≡ short entries floats }
{
    if floats < entries {
        return Err(Refusal::Tables);
    }
    Ok(())
}

// Condition 11, for n odd nodes and tables of these lengths. More odd nodes than all pairings are tried of need a table of
// n² floats, and no bytes.
fn optimal_refusal(settings: Settings, n: usize, floats: usize, bytes: usize) -> Result<(), Refusal>
    requires { n ≤ most_nodes }
    ensures { number_in result ≡ refusal (settings_of settings) n floats bytes }
{
    if settings.pairing != OPTIMAL {
        return Ok(());
    }
    if n < 4 {
        return Ok(());
    }
    let busy = MOST_ODD < n;
    if busy {
        return short_of(n * n, floats);
    }
    let states = repair_table::power(n);
    short_of(states + n * n, floats)?;
    short_of(states, bytes)
}

// Optimal's pairs of up to 20 odd nodes, by the distances between them, which stand in the table of floats behind the room
// for 2^count costs, in the list afterwards.
fn optimal_of(
    edges: &Adjacency,
    n: usize,
    m: usize,
    odd: &[u16; MOST_NODES],
    count: usize,
    floats: &mut [f64],
    bytes: &mut [u8],
    pairs: &mut PairList,
)
    requires edges { EdgesHeld n m edges.now }
    requires listed { Front (odd_nodes n (edges_in m edges.now)) odd.now count × (2 < count) }
    requires room { Room count (length floats.old) (length bytes.old) × PairRoom pairs.old.firsts pairs.old.seconds }
    ensures { listed pairs.new ≡ optimal_for n (edges_in m edges.now) }
{
    let base = repair_table::power(count);
    repair_distances::fill_rows(edges, n, m, odd, count, floats, base);
    repair_optimal::optimal_pairs(floats, bytes, odd, count, pairs);
}

// The pairs that the settings ask for, of the odd nodes, in order, in the list afterwards.
fn pairs_of(
    nodes: &Table,
    edges: &Adjacency,
    n: usize,
    m: usize,
    settings: Settings,
    odd: &[u16; MOST_NODES],
    count: usize,
    floats: &mut [f64],
    bytes: &mut [u8],
    pairs: &mut PairList,
)
    requires nodes { NodesHeld n nodes.now.xs nodes.now.ys }
    requires edges { EdgesHeld n m edges.now }
    requires listed { Front (odd_nodes n (edges_in m edges.now)) odd.now count }
    requires room { (refusal (settings_of settings) count (length floats.old) (length bytes.old) ≡ 0) × PairRoom pairs.old.firsts pairs.old.seconds }
    ensures { listed pairs.new ≡ pairs_of (graph_in n m nodes.now.xs nodes.now.ys edges.now) (settings_of settings) (odd_nodes n (edges_in m edges.now)) }
{
    if count <= 2 {
        pairs.count = 0;
        return;
    }
    if settings.pairing != OPTIMAL {
        repair_greedy::greedy_pairs(nodes, n, odd, count, pairs);
        return;
    }
    let busy = MOST_ODD < count;
    if busy {
        repair_busy::busy_pairs(nodes, edges, n, m, odd, count, floats, pairs);
        return;
    }
    optimal_of(edges, n, m, odd, count, floats, bytes, pairs);
}

// The number of odd nodes, and the pairs that repair retraces, in the list; or the refusal 11, where Optimal has too small a
// table. It is left open what stands in the list behind the pairs and after a refusal, and what the tables hold.
pub fn find_pairs(
    nodes: &Table,
    edges: &Adjacency,
    n: usize,
    m: usize,
    settings: Settings,
    floats: &mut [f64],
    bytes: &mut [u8],
    pairs: &mut PairList,
) -> Result<usize, Refusal>
    requires nodes { NodesHeld n nodes.now.xs nodes.now.ys }
    requires edges { EdgesHeld n m edges.now }
    requires room { PairRoom pairs.old.firsts pairs.old.seconds }
    ensures { found_in result (listed pairs.new) ≡ pairs_for (graph_in n m nodes.now.xs nodes.now.ys edges.now) (settings_of settings) (length floats.old) (length bytes.old) }
{
    let mut listed = [0; MOST_NODES];
    let odd = graph_odd::odd_nodes(edges, n, m, &mut listed);
    optimal_refusal(settings, odd, floats.len(), bytes.len())?;
    pairs_of(
        nodes, edges, n, m, settings, &listed, odd, floats, bytes, pairs,
    );
    Ok(odd)
}
