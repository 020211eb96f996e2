// The marks of the edges that the walk has used: a bit for each edge, 64 in a word, the lowest bit first.
#![tactic(auto)]

ghost use Rattle.std.specs.Prelude.{◌≡◌, true, false, ◌<◌, length, get_or, set, replicate};
ghost use Rattle.limits.specs.Limits.{edge_room};
ghost use Rattle.walk_marks.specs.Marks.{words, marks_in};

use limits::EDGE_ROOM;

// Words for the marks of all edges, 504 bytes.
pub const WORDS: usize = EDGE_ROOM / 64 + 1;

// Which edges are used.
#[derive(Drop)]
pub struct Marks {
    pub words: [u64; WORDS],
}

impl Marks {
    // No edge is used yet.
    pub fn new() -> Self
        ensures none { marks_in result.words ≡ replicate edge_room false }
        ensures long { length result.words ≡ words }
    {
        Marks { words: [0; WORDS] }
    }

    // Whether the edge i is used.
    pub fn is_used(&self, i: usize) -> bool
        requires { i < edge_room }
        ensures { result ≡ get_or (marks_in self.now.words) i false }
    {
        let word = self.words[i / 64];
        (word >> (i % 64)) % 2 == 1
    }

    // The edge i is used from now on.
    pub fn mark_used(&mut self, i: usize)
        requires { i < edge_room }
        ensures marks_after { marks_in self.new.words ≡ set (marks_in self.old.words) i true }
        ensures long { length self.new.words ≡ words }
    {
        self.words[i / 64] |= 1 << (i % 64);
    }
}
