// The ends of links that are lent as a slice of structs: each link is taken out by value and handed to `graph_filing`.
#![tactic(auto)]

ghost use Rattle.std.specs.Prelude.{◌≡◌, ◌≤◌, length};
ghost use Rattle.limits.specs.Limits.{most_links};
ghost use Rattle.graph_filing.specs.Stored.{store_links, LinksFit};

use file_records::MstEdge;
use graph_segment_ends::SegmentEnds;
use limits::MOST_LINES;

// Files the ends of all links, in their order.
pub fn file_lent(ends: &mut SegmentEnds, starts: &[u16; MOST_LINES + 1], links: &[MstEdge])
    requires { (length links.now ≤ most_links) × LinksFit starts.now links.now (length links.now) }
    ensures { ends.new ≡ store_links starts.now links.now (length links.now) 0 ends.old }
{
    for i in 0..links.len() {
        graph_filing::file_link(ends, starts, i, links[i]);
    }
}
