// The records of a drawing file, read where they stand: a 4-byte body length, a 2-byte kind, the body,
// every number with its lowest byte first. Nothing is copied but what a record's body says.
#![tactic(auto)]

ghost use Rattle.std.specs.Prelude.{◌≡◌, ◌+◌, ◌≤◌, ◌<◌, length, drop};
ghost use Rattle.limits.specs.Limits.{head_size, settings_size, point_size, link_size};
ghost use Rattle.grid.specs.Grid.{read_place, place_at, on_grid};
ghost use Rattle.drawing_spec.specs.Bytes.{number};
ghost use Rattle.drawing_spec.specs.Read.{settings_of, link_of, point};
ghost use Rattle.file_records.specs.Kind.{kind_of};
ghost use Rattle.file_records.specs.Walk.{size_at, kind_at, next_at};
ghost use Rattle.file_records.specs.Body.{settings_from, point_from, edge_from, whole_at, body_read, record_read};

use limits::{
    HEAD_SIZE, KIND_LINE, KIND_LINK, KIND_SETTINGS, LINK_SIZE, POINT_SIZE, SETTINGS_SIZE,
};

// The kinds of record that document 01 has, by the number in a record's head; `Other` is any other number.
#[derive(Clone, Copy, PartialEq, Eq)]
pub enum Kind {
    Settings,
    Line,
    Link,
    Other,
}

impl From<u16> for Kind {
    fn from(number: u16) -> Kind
        ensures { result ≡ kind_of number }
    {
        match number {
            KIND_SETTINGS => Kind::Settings,
            KIND_LINE => Kind::Line,
            KIND_LINK => Kind::Link,
            _ => Kind::Other,
        }
    }
}

// A point of a link: the source's type.
#[derive(Clone, Copy)]
pub struct Point {
    pub x: f64,
    pub y: f64,
}

// A link, by the source's name: the line and the segment that each of its ends splits, and where.
#[derive(Clone, Copy)]
pub struct MstEdge {
    pub poly_a: u16,
    pub seg_a: u16,
    pub poly_b: u16,
    pub seg_b: u16,
    pub point_a: Point,
    pub point_b: Point,
}

#[derive(Clone, Copy)]
pub struct Settings {
    pub width: u32,
    pub height: u32,
    pub pairing: u8,
    pub flags: u8,
}

// What a record's body holds; of a line, how many points. `Other` is a record that document 01 does not have: it passes the end of
// the file, or its kind or its length is none of the three.
#[derive(Clone, Copy)]
pub enum Body {
    Settings(Settings),
    Line(usize),
    Link(MstEdge),
    Other,
}

// A record read, with its place in the file.
#[derive(Clone, Copy)]
pub struct Record {
    pub at: usize,
    pub body: Body,
}

// The numbers in 2, 4 and 8 bytes at a place.
fn number2(file: &[u8], at: usize) -> u16
    requires { at + 2 ≤ length file.now }
    ensures { result ≡ number 2 (drop at file.now) }
{
    u16::from_le_bytes([file[at], file[at + 1]])
}

fn number4(file: &[u8], at: usize) -> u32
    requires { at + 4 ≤ length file.now }
    ensures { result ≡ number 4 (drop at file.now) }
{
    u32::from_le_bytes([file[at], file[at + 1], file[at + 2], file[at + 3]])
}

fn number8(file: &[u8], at: usize) -> u64
    requires { at + 8 ≤ length file.now }
    ensures { result ≡ number 8 (drop at file.now) }
{
    u64::from_le_bytes([
        file[at],
        file[at + 1],
        file[at + 2],
        file[at + 3],
        file[at + 4],
        file[at + 5],
        file[at + 6],
        file[at + 7],
    ])
}

// The length of the body and the number of the kind of the record at a place that has room for a head.
pub fn size_at(file: &[u8], at: usize) -> usize
    requires { at + head_size ≤ length file.now }
    ensures { result ≡ size_at file.now at }
{
    number4(file, at) as usize
}

pub fn kind_at(file: &[u8], at: usize) -> u16
    requires { at + head_size ≤ length file.now }
    ensures { result ≡ kind_at file.now at }
{
    number2(file, at + 4)
}

// The place that the coordinate at `at` stands for, and nowhere where it is off the grid; whether it is on it.
pub fn place_at(file: &[u8], at: usize) -> u32
    requires { at + 8 ≤ length file.now }
    ensures { result ≡ place_at (read_place (number 8 (drop at file.now))) }
{
    grid::place_number(grid::read_place(number8(file, at)))
}

pub fn on_grid(file: &[u8], at: usize) -> bool
    requires { at + 8 ≤ length file.now }
    ensures { result ≡ on_grid (read_place (number 8 (drop at file.now))) }
{
    grid::on_grid(number8(file, at))
}

fn point_at(file: &[u8], at: usize) -> Point
    requires { at + point_size ≤ length file.now }
    ensures { result ≡ point_from (point (drop at file.now)) }
{
    Point {
        x: grid::coordinate(place_at(file, at)),
        y: grid::coordinate(place_at(file, at + 8)),
    }
}

fn settings_at(file: &[u8], at: usize) -> Settings
    requires { at + settings_size ≤ length file.now }
    ensures { result ≡ settings_from (settings_of (drop at file.now)) }
{
    Settings {
        width: number4(file, at),
        height: number4(file, at + 4),
        pairing: file[at + 8],
        flags: file[at + 9],
    }
}

fn edge_at(file: &[u8], at: usize) -> MstEdge
    requires { at + link_size ≤ length file.now }
    ensures { result ≡ edge_from (link_of (drop at file.now)) }
{
    MstEdge {
        poly_a: number2(file, at),
        seg_a: number2(file, at + 2),
        poly_b: number2(file, at + 4),
        seg_b: number2(file, at + 6),
        point_a: point_at(file, at + 8),
        point_b: point_at(file, at + 24),
    }
}

// Whether a record stands whole at a place.
#[tactic(auto, using(std::proofs::lemmas::Bool::Decides::nat_tests))]
pub fn whole_at(file: &[u8], at: usize) -> bool
    ensures { result ≡ whole_at file.now at }
{
    at <= file.len()
        && HEAD_SIZE <= file.len() - at
        && size_at(file, at) <= file.len() - at - HEAD_SIZE
}

// What a record that stands whole holds, by its kind and its length.
fn body_at(file: &[u8], at: usize) -> Body
    requires { next_at file.now at ≤ length file.now }
    ensures { result ≡ body_read file.now at }
{
    let size = size_at(file, at);
    let start = at + HEAD_SIZE;
    match Kind::from(kind_at(file, at)) {
        Kind::Settings if size == SETTINGS_SIZE => Body::Settings(settings_at(file, start)),
        Kind::Line if size % POINT_SIZE == 0 => Body::Line(size / POINT_SIZE),
        Kind::Link if size == LINK_SIZE => Body::Link(edge_at(file, start)),
        _ => Body::Other,
    }
}

// The record at a place of the file, whatever stands there.
pub fn record_at(file: &[u8], at: usize) -> Record
    ensures { result ≡ record_read file.now at }
{
    let body = if whole_at(file, at) {
        body_at(file, at)
    } else {
        Body::Other
    };
    Record { at, body }
}
