// The circuit's nodes as a line: cut at the step by one edge, with the places from that step's end to the last
// first and those from the second place to that step's start behind them.
#![tactic(auto)]

ghost use Rattle.std.specs.Prelude.{◌≡◌, ℕ, ◌+◌, ◌-◌, ◌<◌, ◌≤◌, take};
ghost use Rattle.limits.specs.Limits.{edge_room, line_room};
ghost use Rattle.graph_arrays.specs.NodeList.{NodeList};
ghost use Rattle.walk_circuit.specs.Entries.{EntriesIn};
ghost use Rattle.walk_cut.specs.Copy.{Copy, nodes_from};
ghost use Rattle.walk_cut.specs.Cut.{FirstEntered, cut_line};

use limits::LINE_ROOM;
use walk_circuit::Entries;

// The first place of a circuit that was entered by b.
fn find_entry(entries: &Entries, b: usize) -> Option<usize>
    requires { entries.now.first ≤ line_room }
    ensures { FirstEntered entries.now.bys entries.now.first b result }
{
    for p in entries.first..LINE_ROOM {
        let by = usize::from(entries.bys[p]);
        if by == b {
            return Some(p);
        }
    }
    None
}

// Puts the nodes from one place to before another behind the n nodes of a line; the answer is how many it has
// then.
fn copy(
    nodes: &[u16; LINE_ROOM],
    from: usize,
    to: usize,
    line: &mut [u16; LINE_ROOM],
    n: usize,
) -> usize
    requires { (to ≤ line_room) × (n + (to - from) ≤ line_room) }
    ensures { Copy nodes.now from to line.old n line.new result }
{
    let mut count = n;
    for p in from..to {
        line[count] = nodes[p];
        count += 1;
    }
    count
}

// The line of a circuit. The answer is how many nodes it has. `nodes`: whatever graph the circuit's nodes belong to, the
// line's do. What stands behind them is left open.
pub fn whole(entries: &Entries, line: &mut [u16; LINE_ROOM]) -> usize
    requires { entries.now.first < line_room }
    ensures line_after { take result line.new ≡ nodes_from entries.now.first entries.now.nodes }
    ensures nodes { (n : ℕ) → EntriesIn n entries.now.first entries.now.nodes → NodeList n line_room line.new result }
{
    copy(&entries.nodes, entries.first, LINE_ROOM, line, 0)
}

// The line of a circuit cut at the step by the edge i. Where no entry was entered by i, it is the circuit. The answer is how
// many nodes it has. `nodes`: whatever graph the circuit's nodes belong to, the line's do. What stands behind them is left
// open.
pub fn cut(entries: &Entries, i: usize, line: &mut [u16; LINE_ROOM]) -> usize
    requires { (entries.now.first < line_room) × (i < edge_room) }
    ensures line_after { take result line.new ≡ cut_line i entries.now.first entries.now.nodes entries.now.bys }
    ensures nodes { (n : ℕ) → EntriesIn n entries.now.first entries.now.nodes → NodeList n line_room line.new result }
{
    let Some(p) = find_entry(entries, i + 1) else {
        return whole(entries, line);
    };
    let n = copy(&entries.nodes, p, LINE_ROOM, line, 0);
    copy(&entries.nodes, entries.first + 1, p, line, n)
}
