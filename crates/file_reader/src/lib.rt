// The record reader: a struct that refers to the file's bytes, with a place in them. `next` hands out the body of the next
// record as a part of the file, and the reader behind that record; `body_of` and `place_behind` do the same from a plain slice and a
// number, so that a pass over a file keeps its place as a number. These three are thin; `body_part` and `behind_at` do the work.
#![tactic(auto)]

ghost use Rattle.std.specs.Prelude.{◌≡◌};
ghost use Rattle.file_reader.specs.Part.{body_part, behind_at};

use limits::HEAD_SIZE;

#[derive(Clone, Copy)]
pub struct RecordReader<'a> {
    pub file: &'a [u8],
    pub at: usize,
}

// The body of the next record, and the reader behind it.
#[derive(Clone, Copy)]
pub struct NextRecord<'a> {
    pub body: &'a [u8],
    pub behind: RecordReader<'a>,
}

// The body of the record at a place, as a part of the file's bytes, and no bytes where none stands there whole.
fn body_part(file: &[u8], at: usize) -> &[u8]
    ensures { result.now ≡ body_part file.now at }
{
    if !file_records::whole_at(file, at) {
        return &[];
    }
    let start = at + HEAD_SIZE;
    let end = start + file_records::size_at(file, at);
    &file[start..end]
}

// The place behind the record at a place, and that place itself where none stands there whole.
fn behind_at(file: &[u8], at: usize) -> usize
    ensures { result ≡ behind_at file.now at }
{
    if !file_records::whole_at(file, at) {
        return at;
    }
    at + (HEAD_SIZE + file_records::size_at(file, at))
}

impl<'a> RecordReader<'a> {
    // The body of the record that the reader stands at, as a part of the file's bytes, and the reader behind that record. Where none
    // stands there whole, the body is empty and the reader stays.
    pub fn next(self) -> NextRecord<'a>
        ensures { (result.body.now ≡ body_part self.entry.file.now self.entry.at) × (result.behind.file ≡ self.entry.file) × (result.behind.at ≡ behind_at self.entry.file.now self.entry.at) }
    {
        NextRecord {
            body: body_part(self.file, self.at),
            behind: RecordReader {
                file: self.file,
                at: behind_at(self.file, self.at),
            },
        }
    }
}

// The body of the record at a place of a file, and the place behind it; no bytes and the place itself where none stands there whole.
pub fn body_of(file: &[u8], at: usize) -> &[u8]
    ensures { result.now ≡ body_part file.now at }
{
    RecordReader { file, at }.next().body
}

pub fn place_behind(file: &[u8], at: usize) -> usize
    ensures { result ≡ behind_at file.now at }
{
    RecordReader { file, at }.next().behind.at
}
