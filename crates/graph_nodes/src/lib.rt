// The nodes of a graph, numbered by first use, in flat arrays.
#![tactic(auto)]

ghost use Rattle.std.specs.Prelude.{◌≡◌, ◌<◌, ◌≤◌};
ghost use Rattle.limits.specs.Limits.{most_nodes};
ghost use Rattle.graph_nodes.specs.Table.{no_nodes, bucket_count, hash_of, is_at, seek, known, inserted, HasRoom, number_in, table_with, count_with};

use grid::Point;
use limits::MOST_NODES;

pub const BUCKETS: usize = 2048;

// No node, in the lists of nodes by their hash.
const NO_NODE: u16 = MOST_NODES as u16;

// `xs` and `ys` have each node's coordinates as places on the grid. `buckets` has the newest node of each hash of coordinates, and
// `next` has for each node the next older one of its hash; MOST_NODES is none.
#[derive(Clone, Copy)]
pub struct Table {
    pub xs: [u32; MOST_NODES],
    pub ys: [u32; MOST_NODES],
    pub next: [u16; MOST_NODES],
    pub buckets: [u16; BUCKETS],
}

// The bucket of a point: digits from the middle of a sum of products, which depend on all digits of both
// coordinates. (A remainder by the number of buckets would put all points of some straight strokes, in steps
// of about 20 pixels, into one bucket.) Both factors are below 2^31, so that the sum is below 2^64.
fn hash(p: Point) -> usize
    ensures { (result ≡ hash_of p.x p.y) × (result < bucket_count) }
{
    let x = p.x as usize;
    let y = p.y as usize;
    (1565004953 * x + 1269492321 * y) / 2147483648 % BUCKETS
}

impl Table {
    // No nodes. In place, since a table that is made apart is copied.
    pub fn clear(&mut self)
        ensures { self.new ≡ no_nodes }
    {
        self.xs.fill(0);
        self.ys.fill(0);
        self.next.fill(NO_NODE);
        self.buckets.fill(NO_NODE);
    }

    // Whether node i is at p.
    fn is_at(&self, p: Point, i: usize) -> bool
        requires { i < most_nodes }
        ensures { result ≡ is_at self.now.xs self.now.ys p.x p.y i }
    {
        self.xs[i] == p.x && self.ys[i] == p.y
    }

    // The node at p that is found from `start` on, looking at `count` nodes at most.
    fn find_node(&self, p: Point, start: usize, count: usize) -> Option<usize>
        ensures { result ≡ known (seek count self.now.xs self.now.ys self.now.next p.x p.y start) }
    {
        let mut i = start;
        for _ in 0..count {
            if MOST_NODES <= i {
                return None;
            }
            let at = self.is_at(p, i);
            if at {
                return Some(i);
            }
            i = usize::from(self.next[i]);
        }
        None
    }

    // Puts the new node n at p into the arrays.
    fn insert(&mut self, p: Point, n: usize)
        requires { n < most_nodes }
        ensures { self.new ≡ inserted n p.x p.y self.old }
    {
        let bucket = hash(p);
        self.xs[n] = p.x;
        self.ys[n] = p.y;
        self.next[n] = self.buckets[bucket];
        self.buckets[bucket] = n as u16;
    }

    // The number of the node at p, where there are n nodes. A new node gets the number n, and is put into the arrays.
    pub fn get_or_insert(&mut self, p: Point, n: usize) -> usize
        requires { HasRoom n p.x p.y self.old }
        ensures number { result ≡ number_in n p.x p.y self.old }
        ensures nodes { self.new ≡ table_with n p.x p.y self.old }
    {
        let start = usize::from(self.buckets[hash(p)]);
        match self.find_node(p, start, n) {
            Some(found) => found,
            None => {
                self.insert(p, n);
                n
            }
        }
    }
}

// How many nodes there are once `get_or_insert` has answered `number`: n + 1 where the point was new (`number` is n),
// else n.
pub fn count_with(n: usize, number: usize) -> usize
    requires { n ≤ most_nodes }
    ensures { result ≡ count_with n number }
{
    let new = number == n;
    if new { n + 1 } else { n }
}
