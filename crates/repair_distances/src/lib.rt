// The distances between the odd nodes, for Optimal: from each odd node the least distances to all, and of these the
// distances to the odd nodes. They stand in the table of floats from `base` on, row by row. The least distances are found by
// sweeps (crates/repair_sweep); from the first row on where these do not come to their end, by Dijkstra's algorithm
// (crates/repair_search), since a graph that is hard to sweep from one node is so from the others.
#![tactic(auto)]

ghost use Rattle.std.specs.Prelude.{◌≡◌, true, ◌+◌, ◌*◌, ◌^◌, ◌<◌, ◌≤◌, length};
ghost use Rattle.limits.specs.Limits.{most_nodes};
ghost use Rattle.graph_arrays.specs.Arrays.{edges_in, EdgesHeld};
ghost use Rattle.graph_arrays.specs.NodeList.{NodeList};
ghost use Rattle.repair_search.specs.Touched.{Unreached};
ghost use Rattle.repair_sweep.specs.Sweeps.{Unswept};
ghost use Rattle.repair_distances.specs.Rows.{Copied, SameBefore, Row, Rows};

use graph_adjacency::Adjacency;
use limits::MOST_NODES;
use repair_search::Search;
use repair_sweep::Sweep;

// The distances `at` of the odd nodes, of which there are `count`, go into the table from `start` on.
fn copy_row(
    at: &[f64; MOST_NODES],
    odd: &[u16; MOST_NODES],
    count: usize,
    table: &mut [f64],
    start: usize,
)
    requires { (start + count ≤ length table.old) × NodeList most_nodes most_nodes odd.now count }
    ensures { Copied at.now odd.now count start table.old table.new }
{
    for j in 0..count {
        let v = usize::from(odd[j]);
        table[start + j] = at[v];
    }
}

// The row of the odd node at place i, by Dijkstra's algorithm. The search is lent, and afterwards has reached no node, as before.
fn search_row(
    search: &mut Search,
    edges: &Adjacency,
    n: usize,
    m: usize,
    odd: &[u16; MOST_NODES],
    count: usize,
    table: &mut [f64],
    base: usize,
    i: usize,
)
    requires search { Unreached n search.old }
    requires edges { EdgesHeld n m edges.now }
    requires listed { NodeList n most_nodes odd.now count × (i < count) × (base ≤ 2 ^ 32) × (base + count * count ≤ length table.old) }
    ensures row { Row n (edges_in m edges.now) odd.now count base i table.old table.new }
    ensures kept { Unreached n search.new }
{
    let s = usize::from(odd[i]);
    let reached = search.search_from(edges, n, m, s, MOST_NODES);
    let start = base + i * count;
    copy_row(&search.dist, odd, count, table, start);
    search.clear(n, reached);
}

// The rows from the place `first` on, by Dijkstra's algorithm, where those before it are right. Not compiled into `fill_rows`, and `sweep_rows`
// neither: there the room of the search, 40 KB, would stand beside that of the sweeps.
#[inline(never)]
fn search_rows(
    edges: &Adjacency,
    n: usize,
    m: usize,
    odd: &[u16; MOST_NODES],
    count: usize,
    table: &mut [f64],
    base: usize,
    first: usize,
)
    requires edges { EdgesHeld n m edges.now }
    requires listed { NodeList n most_nodes odd.now count × (base ≤ 2 ^ 32) × (base + count * count ≤ length table.old) }
    requires rows { (first ≤ count) × Rows n (edges_in m edges.now) odd.now count base first table.old }
    ensures { Rows n (edges_in m edges.now) odd.now count base count table.new }
{
    let mut search = Search::new();
    for i in first..count {
        search_row(&mut search, edges, n, m, odd, count, table, base, i);
    }
}

// The row of the odd node at place i, by sweeps: the answer is whether they came to their end, so that the row is right.
// They are lent, and afterwards have reached no node, as before.
fn sweep_row(
    sweep: &mut Sweep,
    edges: &Adjacency,
    n: usize,
    m: usize,
    odd: &[u16; MOST_NODES],
    count: usize,
    table: &mut [f64],
    base: usize,
    i: usize,
) -> bool
    requires sweeps { Unswept sweep.old }
    requires edges { EdgesHeld n m edges.now }
    requires listed { NodeList n most_nodes odd.now count × (i < count) × (base ≤ 2 ^ 32) × (base + count * count ≤ length table.old) }
    ensures row { result ≡ true → Row n (edges_in m edges.now) odd.now count base i table.old table.new }
    ensures before { SameBefore count base i table.old table.new }
    ensures kept { Unswept sweep.new }
{
    let s = usize::from(odd[i]);
    let swept = sweep.sweep_from(edges, n, m, s);
    let start = base + i * count;
    copy_row(&sweep.dist, odd, count, table, start);
    sweep.clear(n, swept.count);
    swept.settled
}

// The rows by sweeps, up to the first for which they do not come to their end: the answer is how many rows are right.
#[inline(never)]
fn sweep_rows(
    edges: &Adjacency,
    n: usize,
    m: usize,
    odd: &[u16; MOST_NODES],
    count: usize,
    table: &mut [f64],
    base: usize,
) -> usize
    requires edges { EdgesHeld n m edges.now }
    requires listed { NodeList n most_nodes odd.now count × (base ≤ 2 ^ 32) × (base + count * count ≤ length table.old) }
    ensures { (result ≤ count) × Rows n (edges_in m edges.now) odd.now count base result table.new }
{
    let mut sweep = Sweep::new();
    for i in 0..count {
        let right = sweep_row(&mut sweep, edges, n, m, odd, count, table, base, i);
        if !right {
            return i;
        }
    }
    count
}

// The least distances between the first `count` nodes of `odd`: the row at place i has those from the node at
// place i. What stands in the table before the rows is left open.
pub fn fill_rows(
    edges: &Adjacency,
    n: usize,
    m: usize,
    odd: &[u16; MOST_NODES],
    count: usize,
    table: &mut [f64],
    base: usize,
)
    requires edges { EdgesHeld n m edges.now }
    requires listed { NodeList n most_nodes odd.now count × (base ≤ 2 ^ 32) × (base + count * count ≤ length table.old) }
    ensures { Rows n (edges_in m edges.now) odd.now count base count table.new }
{
    let first = sweep_rows(edges, n, m, odd, count, table, base);
    let rows_left = first < count;
    if rows_left {
        search_rows(edges, n, m, odd, count, table, base, first);
    }
}
