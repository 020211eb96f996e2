// Checks 2 to 7 of a drawing file, and 15 among them: `heads` has checks 2, 3, 4 and 6, `settings` checks 5 and 15, and
// `coordinates` check 7.
// A crate of its own, so that an edit of a check leaves the arrays of the drawing proved.
#![tactic(auto)]

pub mod coordinates;
pub mod heads;
pub mod settings;

// What may come next in a file: its settings; lines or links; links only. `Broken` is a file whose
// records do not come in that order.
#[derive(Clone, Copy)]
pub enum Order {
    Settings,
    Lines,
    Links,
    Broken,
}

// What the heads of a file's records say: their order, whether each body has the length that its kind
// asks, and how many lines, points and links there are.
#[derive(Clone, Copy)]
pub struct Tally {
    pub order: Order,
    pub lengths: bool,
    pub lines: usize,
    pub points: usize,
    pub links: usize,
}
