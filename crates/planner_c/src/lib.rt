// The planner for programs in other languages; `save` is the writer for them.
#![tactic(auto)]

pub mod save;

ghost use Rattle.std.specs.Prelude.{◌≡◌};
ghost use Rattle.planner_spec.specs.Plan.{called, drawing_in};
ghost use Rattle.planner_spec.specs.Demand3.{Demand3};
ghost use Rattle.planner.specs.Answer.{call};
ghost use Rattle.planner_c.specs.Exported.{exported};

use planner_graph::Answer;

// The number of a refusal and zeros; or 0 with the retrace's length, the odd nodes before and after, and the
// points of the line.
#[repr(C)]
#[derive(Clone, Copy)]
pub struct Outcome {
    pub refusal: u32,
    pub retrace: f64,
    pub before: usize,
    pub after: usize,
    pub points: usize,
}

// The number of a refusal and 0; or 0 and how many bytes the file has.
#[repr(C)]
#[derive(Clone, Copy)]
pub struct Saved {
    pub refusal: u32,
    pub bytes: usize,
}

// Plans a drawing file, whatever bytes it holds: `plan_file` of crates/planner, with its answer, output and tables, and
// demand 3. That the retrace is no NaN has no clause: the answer has the f64 whose bits the definition gives.
#[unsafe(no_mangle)]
pub extern "C" fn plan(
    file: &[u8],
    floats: &mut [f64],
    bytes: &mut [u8],
    output: &mut [u8],
) -> Outcome
    ensures answer { result ≡ exported (called file.now (call floats.old bytes.old output.old)).answer }
    ensures output { output.new ≡ (called file.now (call floats.old bytes.old output.old)).output }
    ensures tables { (floats.new ≡ (called file.now (call floats.old bytes.old output.old)).floats) × (bytes.new ≡ (called file.now (call floats.old bytes.old output.old)).bytes) }
    ensures demand3 { result.refusal ≡ 0 → Demand3 (drawing_in file.now) output.old output.new }
{
    match planner::plan_file(file, floats, bytes, output) {
        Answer::Refused(number) => Outcome {
            refusal: u32::from(number),
            retrace: 0.0,
            before: 0,
            after: 0,
            points: 0,
        },
        Answer::Planned(retrace, before, after, points) => Outcome {
            refusal: 0,
            retrace,
            before,
            after,
            points,
        },
    }
}
