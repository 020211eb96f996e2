// The least of n values that change, by a tournament: the value v stands at n + v, and each place j from 1
// up to n - 1 has the lesser of what stands at 2 * j and 2 * j + 1. So place 1 has the least of all, and a
// value that changes touches only the places on its way up, which halving gives.
#![tactic(auto)]

ghost use Rattle.std.specs.Prelude.{◌≡◌, Bool, true, false, ℕ, ◌<◌, ◌≤◌};
ghost use Rattle.std.specs.Float.{binary64};
ghost use Rattle.limits.specs.Limits.{most_nodes};
ghost use Rattle.sums.specs.Key.{Nonneg};
ghost use Rattle.repair_tournament.specs.Tree.{lesser, at, value, no_values, Tree, Stored};

use limits::MOST_NODES;

// What stands at each place; place 0 stands for nothing.
#[derive(Clone, Copy)]
pub struct Tournament {
    pub values: [f64; 2 * MOST_NODES],
}

impl Tournament {
    // No value is stored: each is infinity, for any n. In place, since a tournament that is made apart is copied.
    pub fn clear(&mut self)
        ensures { self.new.values ≡ no_values }
    {
        self.values.fill(f64::INFINITY);
    }

    // Stores x as the value v. `won` is what stands at i, so that only the other of each two has to be read on the way up.
    pub fn store(&mut self, n: usize, v: usize, x: f64)
        requires { (n ≤ most_nodes) × (v < n) × Tree n self.old.values × Nonneg binary64 x }
        ensures { Stored n v x self.old.values self.new.values }
    {
        let mut i = n + v;
        let mut won = x;
        self.values[i] = won;
        while 1 < i {
            let above = i / 2;
            let other = 2 * above + (1 - i % 2);
            won = lesser(won, self.values[other]);
            if !differ(self.values[above], won) {
                return;
            }
            self.values[above] = won;
            i = above;
        }
    }

    // Which value is the least; any of them where several are.
    fn least(&self, n: usize) -> usize
        requires { (0 < n) × (n ≤ most_nodes) × Tree n self.now.values }
        ensures { (result < n) × (value n self.now.values result ≡ at self.now.values 1) }
    {
        let mut i: usize = 1;
        while i < n {
            i = 2 * i;
            if self.values[i + 1] < self.values[i] {
                i += 1;
            }
        }
        i - n
    }

    // Which value is a least one, where v is tried first: in a search the node that was reached last often is the nearest.
    // Place 1 has the least of all values, so a value that is what stands there is a least one.
    pub fn least_at(&self, n: usize, v: usize) -> usize
        requires { (v < n) × (n ≤ most_nodes) × Tree n self.now.values }
        ensures { (result < n) × (value n self.now.values result ≡ at self.now.values 1) }
    {
        if differ(self.values[n + v], self.values[1]) {
            return self.least(n);
        }
        v
    }
}

fn lesser(x: f64, y: f64) -> f64
    ensures { result ≡ lesser x y }
{
    let below = y < x;
    if below { y } else { x }
}

fn differ(x: f64, y: f64) -> bool
    requires { Nonneg binary64 x × Nonneg binary64 y }
    ensures { result ≡ false → x ≡ y }
{
    x < y || y < x
}
