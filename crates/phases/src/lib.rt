// What each phase of the planner makes of a graph that stands in arrays, for timing (crates/phases_c): told by two counts
// and a length, so that no phase's work can be left out.
#![tactic(auto)]

ghost use Rattle.std.specs.Prelude.{◌≡◌, ◌<◌, ◌≤◌, length};
ghost use Rattle.std.specs.Float.{binary64};
ghost use Rattle.std.specs.Float.Ieee.{add};
ghost use Rattle.limits.specs.Limits.{most_side, most_pairs};
ghost use Rattle.file_records.specs.Meaning.{settings_of};
ghost use Rattle.graph_arrays.specs.Arrays.{nodes_in, edges_in, graph_in, NodesHeld, EdgesHeld, EdgesLinked};
ghost use Rattle.repair_spec.specs.Distance.{zero_length, distance_at, distances};
ghost use Rattle.repair_spec.specs.PairsIn.{listed, PairsAmong};
ghost use Rattle.repair_search.specs.Touched.{Unreached};
ghost use Rattle.walk_spec.specs.Line.{line_of};
ghost use Rattle.planner_graph.specs.Answer.{Plannable};
ghost use Rattle.phases.specs.Ends.{refused_with, made, odd_end, searched, pairs_end, line_made, repair_end};

use file_records::Settings;
use graph_adjacency::Adjacency;
use graph_nodes::Table;
use limits::{LINE_ROOM, MOST_EDGES, MOST_NODES, REFUSED_EDGES};
use repair::Parity;
use repair_search::Search;
use repair_spec::PairList;

// The phases that a call may stop after; any other number is the last phase, the line. Numbers and no enum, since C calls by them.
pub const READ: u32 = 0;

pub const GRAPH: u32 = 1;

pub const ODD: u32 = 2;

pub const PAIRS: u32 = 3;

pub const SEARCHES: u32 = 4;

pub const REPAIR: u32 = 5;

// The number of a refusal and zeros; or 0 with two counts and a length of what the last phase made.
#[repr(C)]
#[derive(Clone, Copy)]
pub struct Phase {
    pub refusal: u32,
    pub first: usize,
    pub second: usize,
    pub total: f64,
}

pub fn refused(number: u8) -> Phase
    ensures { result ≡ refused_with number }
{
    Phase {
        refusal: u32::from(number),
        first: 0,
        second: 0,
        total: 0.0,
    }
}

pub fn made(first: usize, second: usize) -> Phase
    ensures { result ≡ made first second zero_length }
{
    Phase {
        refusal: 0,
        first,
        second,
        total: 0.0,
    }
}

// The number of odd nodes, and the last of them.
pub fn end_of_odd(edges: &Adjacency, n: usize, m: usize) -> Phase
    requires { EdgesLinked n m edges.now }
    ensures { result ≡ odd_end n (edges_in m edges.now) }
{
    let mut listed = [0; MOST_NODES];
    let odd = graph_odd::odd_nodes(edges, n, m, &mut listed);
    if odd == 0 {
        return made(0, 0);
    }
    made(odd, usize::from(listed[odd - 1]))
}

// The least distance from one node to another, added to `sum`. The search is lent, and afterwards has reached no node, as before.
fn add_distance(
    search: &mut Search,
    edges: &Adjacency,
    n: usize,
    m: usize,
    from: usize,
    to: usize,
    sum: f64,
) -> f64
    requires from_lt_n { (from < n) × (to < n) × Unreached n search.old }
    requires edges_held { EdgesHeld n m edges.now }
    ensures added { result ≡ add binary64 sum (distance_at (distances n (edges_in m edges.now) from) to) }
    ensures kept { Unreached n search.new }
{
    let count = search.search_from(edges, n, m, from, to);
    let found = search.dist[to];
    search.clear(n, count);
    sum + found
}

// The least distances between the nodes of each pair, added up in order.
fn search_pairs(edges: &Adjacency, n: usize, m: usize, pairs: &PairList) -> f64
    requires pairs_le_most_pairs { (pairs.now.count ≤ most_pairs) × PairsAmong n pairs.now.firsts pairs.now.seconds pairs.now.count }
    requires edges_held { EdgesHeld n m edges.now }
    ensures { result ≡ searched n (edges_in m edges.now) (listed pairs.now) zero_length }
{
    let mut search = Search::new();
    let mut sum = 0.0;
    for i in 0..pairs.count {
        let from = usize::from(pairs.firsts[i]);
        let to = usize::from(pairs.seconds[i]);
        sum = add_distance(&mut search, edges, n, m, from, to, sum);
    }
    sum
}

// The number of odd nodes and of pairs; or, past the pairs, the sum of their least distances too. What the edges and the tables
// are afterwards is left open, here and below.
pub fn end_of_pairs(
    nodes: &Table,
    edges: &Adjacency,
    n: usize,
    m: usize,
    settings: Settings,
    floats: &mut [f64],
    bytes: &mut [u8],
    last: u32,
) -> Phase
    requires nodes { NodesHeld n nodes.now.xs nodes.now.ys }
    requires edges { EdgesHeld n m edges.now }
    ensures { result ≡ pairs_end (graph_in n m nodes.now.xs nodes.now.ys edges.now) (settings_of settings) (length floats.old) (length bytes.old) last }
{
    let mut pairs = PairList::new();
    match repair_pairs::find_pairs(nodes, edges, n, m, settings, floats, bytes, &mut pairs) {
        Err(refusal) => refused(refusal.number()),
        Ok(odd) => {
            if last == PAIRS {
                return made(odd, pairs.count);
            }
            let total = search_pairs(edges, n, m, &pairs);
            Phase {
                refusal: 0,
                first: odd,
                second: pairs.count,
                total,
            }
        }
    }
}

// The line through the repaired graph: the number of its points, and in which column the last of them lies.
fn end_of_line(
    nodes: &Table,
    edges: &mut Adjacency,
    n: usize,
    m: usize,
    settings: Settings,
    retrace: f64,
) -> Phase
    requires sides { (settings.width ≤ most_side) × (settings.height ≤ most_side) }
    requires nodes { NodesHeld n nodes.now.xs nodes.now.ys }
    requires edges { EdgesHeld n m edges.old }
    ensures { result ≡ line_made (line_of (settings_of settings) (nodes_in n nodes.now.xs nodes.now.ys) (edges_in m edges.old)) retrace }
{
    let mut line = [0; LINE_ROOM];
    let count = walk::line_of(nodes, edges, n, m, settings, &mut line);
    if count == 0 {
        return Phase {
            refusal: 0,
            first: 0,
            second: 0,
            total: retrace,
        };
    }
    let v = usize::from(line[count - 1]);
    Phase {
        refusal: 0,
        first: count,
        second: nodes.xs[v] as usize,
        total: retrace,
    }
}

// The number of nodes left odd, that of edges with the copies, and the length of the retraces; or, past repair, the line.
pub fn end_of_repair(
    nodes: &Table,
    edges: &mut Adjacency,
    n: usize,
    m: usize,
    settings: Settings,
    floats: &mut [f64],
    bytes: &mut [u8],
    last: u32,
) -> Phase
    requires { Plannable settings n m nodes.now.xs nodes.now.ys edges.old }
    ensures { result ≡ repair_end (graph_in n m nodes.now.xs nodes.now.ys edges.old) (settings_of settings) (length floats.old) (length bytes.old) last }
{
    let repair = repair::fix_parity(
        nodes,
        edges,
        n,
        m,
        settings,
        floats,
        bytes,
        MOST_EDGES,
        REFUSED_EDGES,
    );
    match repair.parity {
        Parity::Refused(number) => refused(number),
        Parity::Repaired(retrace, _, after) => {
            if last == REPAIR {
                return Phase {
                    refusal: 0,
                    first: after,
                    second: repair.edges,
                    total: retrace,
                };
            }
            end_of_line(nodes, edges, n, repair.edges, settings, retrace)
        }
    }
}
