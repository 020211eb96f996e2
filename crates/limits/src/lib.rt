// The limits and the refusals of document 01, for the code. specs/Limits.antt has them for the definitions;
// `layout_tied`, `limits_tied` and `refusals_tied` tie the two together.
#![tactic(auto)]

ghost use Rattle.std.specs.Prelude.{◌≡◌};
ghost use Rattle.limits.specs.Refused.{number_of};
ghost use Rattle.limits.specs.Tied.{layout_is, limits_are, refusals_are};

// Check 1: the bytes of a file.
pub const MOST_BYTES: usize = 65_536;

// The kinds of record; and the bytes of a record's head, of settings, of a point and of a link (checks 3 and 4).
pub const KIND_SETTINGS: u16 = 1;

pub const KIND_LINE: u16 = 2;

pub const KIND_LINK: u16 = 3;

// The line that is answered.
pub const KIND_ANSWER: u16 = 4;

pub const HEAD_SIZE: usize = 6;

pub const SETTINGS_SIZE: usize = 10;

pub const POINT_SIZE: usize = 16;

pub const LINK_SIZE: usize = 40;

// Check 5: a side of the canvas, the pairing byte and the flags byte.
pub const MOST_SIDE: u32 = 8192;

pub const MOST_PAIRING: u8 = 1;

pub const MOST_FLAGS: u8 = 7;

// Check 6: the lines, their points in all and the links.
pub const MOST_LINES: usize = 256;

pub const MOST_POINTS: usize = 1024;

pub const MOST_LINKS: usize = 255;

// The most bytes of a file within check 6: its settings, the head of each line, its points, its links.
pub const MOST_FILE: usize = HEAD_SIZE
    + SETTINGS_SIZE
    + HEAD_SIZE * MOST_LINES
    + POINT_SIZE * MOST_POINTS
    + (HEAD_SIZE + LINK_SIZE) * MOST_LINKS;

// Check 11: the odd nodes of which Optimal tries all pairings.
pub const MOST_ODD: usize = 20;

// Check 13: the edges of a repaired graph.
pub const MOST_EDGES: usize = 4000;

// Two split points for each link, and a node for each of them and for each point.
pub const MOST_SPLITS: usize = 2 * MOST_LINKS;

pub const MOST_NODES: usize = MOST_POINTS + MOST_SPLITS;

// Each node is in one pair at most.
pub const MOST_PAIRS: usize = MOST_NODES / 2;

// The walk adds the virtual edge to the edges; an edge is an arc from each of its ends; a walk has one
// node more than edges.
pub const EDGE_ROOM: usize = MOST_EDGES + 1;

pub const ARC_ROOM: usize = 2 * EDGE_ROOM;

pub const LINE_ROOM: usize = EDGE_ROOM + 1;

// The numbers of the refusals.
pub const REFUSED_BYTES: u8 = 1;

pub const REFUSED_CUT: u8 = 2;

pub const REFUSED_KINDS: u8 = 3;

pub const REFUSED_LENGTHS: u8 = 4;

pub const REFUSED_SETTINGS: u8 = 5;

pub const REFUSED_COUNTS: u8 = 6;

pub const REFUSED_COORDINATES: u8 = 7;

pub const REFUSED_LINKS: u8 = 8;

pub const REFUSED_APART: u8 = 9;

// 10 is given no more, and stays unused.
pub const REFUSED_TABLES: u8 = 11;

pub const REFUSED_PATH: u8 = 12;

pub const REFUSED_EDGES: u8 = 13;

pub const REFUSED_OUTPUT: u8 = 14;

// Links of its own in a file that asks the planner for links: among the checks it stands between 6 and 7.
pub const REFUSED_OWN_LINKS: u8 = 15;

// The writer's: a destination that is too short for the file.
pub const REFUSED_DESTINATION: u8 = 16;

// Why a file, a drawing or a plan is refused, in the order of the checks.
#[derive(Clone, Copy, PartialEq, Eq)]
pub enum Refusal {
    Bytes,
    Cut,
    Kinds,
    Lengths,
    Settings,
    Counts,
    OwnLinks,
    Coordinates,
    Links,
    Apart,
    Tables,
    Path,
    Edges,
    Output,
    Destination,
}

impl Refusal {
    // The document's number of the refusal.
    pub fn number(self) -> u8
        ensures { result ≡ number_of self }
    {
        match self {
            Refusal::Bytes => REFUSED_BYTES,
            Refusal::Cut => REFUSED_CUT,
            Refusal::Kinds => REFUSED_KINDS,
            Refusal::Lengths => REFUSED_LENGTHS,
            Refusal::Settings => REFUSED_SETTINGS,
            Refusal::Counts => REFUSED_COUNTS,
            Refusal::OwnLinks => REFUSED_OWN_LINKS,
            Refusal::Coordinates => REFUSED_COORDINATES,
            Refusal::Links => REFUSED_LINKS,
            Refusal::Apart => REFUSED_APART,
            Refusal::Tables => REFUSED_TABLES,
            Refusal::Path => REFUSED_PATH,
            Refusal::Edges => REFUSED_EDGES,
            Refusal::Output => REFUSED_OUTPUT,
            Refusal::Destination => REFUSED_DESTINATION,
        }
    }
}

#[derive(Clone, Copy)]
pub struct Layout {
    pub settings: u16,
    pub line: u16,
    pub link: u16,
    pub answer: u16,
    pub head_size: usize,
    pub settings_size: usize,
    pub point_size: usize,
    pub link_size: usize,
}

// The code's kinds and lengths of records are those of the definitions.
pub fn layout_tied() -> Layout
    ensures { result ≡ layout_is }
{
    Layout {
        settings: KIND_SETTINGS,
        line: KIND_LINE,
        link: KIND_LINK,
        answer: KIND_ANSWER,
        head_size: HEAD_SIZE,
        settings_size: SETTINGS_SIZE,
        point_size: POINT_SIZE,
        link_size: LINK_SIZE,
    }
}

#[derive(Clone, Copy)]
pub struct Limits {
    pub bytes: usize,
    pub side: u32,
    pub pairing: u8,
    pub flags: u8,
    pub lines: usize,
    pub points: usize,
    pub links: usize,
    pub file: usize,
    pub odd: usize,
    pub edges: usize,
    pub splits: usize,
    pub nodes: usize,
    pub pairs: usize,
    pub edge_room: usize,
    pub arc_room: usize,
    pub line_room: usize,
}

// The code's limits and sizes are those of the definitions.
pub fn limits_tied() -> Limits
    ensures { result ≡ limits_are }
{
    Limits {
        bytes: MOST_BYTES,
        side: MOST_SIDE,
        pairing: MOST_PAIRING,
        flags: MOST_FLAGS,
        lines: MOST_LINES,
        points: MOST_POINTS,
        links: MOST_LINKS,
        file: MOST_FILE,
        odd: MOST_ODD,
        edges: MOST_EDGES,
        splits: MOST_SPLITS,
        nodes: MOST_NODES,
        pairs: MOST_PAIRS,
        edge_room: EDGE_ROOM,
        arc_room: ARC_ROOM,
        line_room: LINE_ROOM,
    }
}

#[derive(Clone, Copy)]
pub struct Refusals {
    pub bytes: u8,
    pub cut: u8,
    pub kinds: u8,
    pub lengths: u8,
    pub settings: u8,
    pub counts: u8,
    pub coordinates: u8,
    pub links: u8,
    pub apart: u8,
    pub tables: u8,
    pub path: u8,
    pub edges: u8,
    pub output: u8,
    pub own_links: u8,
    pub destination: u8,
}

// And so are its numbers of refusals.
pub fn refusals_tied() -> Refusals
    ensures { result ≡ refusals_are }
{
    Refusals {
        bytes: REFUSED_BYTES,
        cut: REFUSED_CUT,
        kinds: REFUSED_KINDS,
        lengths: REFUSED_LENGTHS,
        settings: REFUSED_SETTINGS,
        counts: REFUSED_COUNTS,
        coordinates: REFUSED_COORDINATES,
        links: REFUSED_LINKS,
        apart: REFUSED_APART,
        tables: REFUSED_TABLES,
        path: REFUSED_PATH,
        edges: REFUSED_EDGES,
        output: REFUSED_OUTPUT,
        own_links: REFUSED_OWN_LINKS,
        destination: REFUSED_DESTINATION,
    }
}
