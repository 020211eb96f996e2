// The retraces of the pairs, and then of the two nodes that they leave odd, where the line is to be closed.
#![tactic(auto)]

ghost use Rattle.std.specs.Prelude.{◌≡◌, ◌≤◌};
ghost use Rattle.limits.specs.Limits.{most_edges, most_pairs};
ghost use Rattle.graph_arrays.specs.Arrays.{edges_in, EdgesHeld};
ghost use Rattle.repair_spec.specs.Distance.{zero_length};
ghost use Rattle.repair_spec.specs.PairsIn.{pairs_in, PairsAmong};
ghost use Rattle.repair_spec.specs.Repair.{repaired, apply_matching, close_if};
ghost use Rattle.repair_search.specs.Touched.{Unreached};
ghost use Rattle.repair_retrace.specs.Outcome.{so_far};
ghost use Rattle.repair_retrace.specs.Answer.{Answers};

use graph_adjacency::Adjacency;
use graph_odd::odd_nodes;
use limits::MOST_NODES;
use repair_retrace::{Laid, apply_matching, apply_pair};
use repair_search::Search;
use repair_spec::PairList;

// The two nodes that are left odd are joined, if `closing`. This retrace is summed by itself and then added
// to `sum`. What the arrays hold after a refusal is left open.
fn close(
    edges: &mut Adjacency,
    n: usize,
    m: usize,
    search: &mut Search,
    sum: f64,
    closing: bool,
    most: usize,
    number: u8,
) -> Result<Laid, u8>
    requires most_le_most_edges { (most ≤ most_edges) × Unreached n search.old }
    requires edges_held { EdgesHeld n m edges.old }
    ensures { Answers n (close_if closing most number n (repaired (so_far (edges_in m edges.old) sum))) result edges.new }
{
    let open = !closing;
    if open {
        return Ok(Laid { sum, edges: m });
    }
    let mut odd = [0u16; MOST_NODES];
    let count = odd_nodes(edges, n, m, &mut odd);
    let no_pair = count != 2;
    if no_pair {
        return Ok(Laid { sum, edges: m });
    }
    let from = usize::from(odd[0]);
    let to = usize::from(odd[1]);
    let last = apply_pair(edges, n, m, search, from, to, 0.0, most, number)?;
    Ok(Laid {
        sum: sum + last.sum,
        edges: last.edges,
    })
}

// The retraces of the pairs, one after the other, and then `close`: all by the same search, which is set only where there
// is something to retrace. What the arrays of the edges hold after a refusal is left open.
pub fn retrace_pairs(
    edges: &mut Adjacency,
    n: usize,
    m: usize,
    pairs: &PairList,
    closing: bool,
    most: usize,
    number: u8,
) -> Result<Laid, u8>
    requires most_le_most_edges { (most ≤ most_edges) × (pairs.now.count ≤ most_pairs) × PairsAmong n pairs.now.firsts pairs.now.seconds pairs.now.count }
    requires edges_held { EdgesHeld n m edges.old }
    ensures { Answers n (close_if closing most number n (apply_matching most number n (pairs_in pairs.now.firsts pairs.now.seconds 0 pairs.now.count) (so_far (edges_in m edges.old) zero_length))) result edges.new }
{
    let nothing_left = !closing && pairs.count == 0;
    if nothing_left {
        return Ok(Laid { sum: 0.0, edges: m });
    }
    let mut search = Search::new();
    let laid = apply_matching(edges, n, m, &mut search, pairs, 0.0, most, number)?;
    close(
        edges,
        n,
        laid.edges,
        &mut search,
        laid.sum,
        closing,
        most,
        number,
    )
}
