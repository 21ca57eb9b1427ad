// Refusal 12: a function that no point of the task calls.
ghost use Rattle.std.specs.Prelude.{◌≡◌, false, ◌||◌, ℕ, ◌<◌, ◌≤◌, length};
ghost use Rattle.model.specs.Basic.{any, up_to};
ghost use Rattle.model.specs.Limits.{most_funcs};
ghost use Rattle.model.specs.Refusal.{is_called, call_rows};
ghost use Rattle.model.specs.Rows.{row_verdict};
ghost use Rattle.model.specs.Walk.{called, is};
ghost use Rattle.tables.specs.Tables.{task_of};
ghost use Rattle.reach.specs.Calls.{calls_at, mark_of};

use model::{Limits, Point, Refusal, Row, Verdict};
use tables::HeldTask;

// Marks the function that a point calls.
fn mark(x: Point, marks: &mut [bool])
    requires { most_funcs ≤ length marks.old }
    ensures { (f : ℕ) → f < most_funcs → mark_of marks.new f ≡ (mark_of marks.old f || is f (called x)) }
{
    if let Point::Call(number) = x {
        let callee = number as usize;
        if callee < Limits::FUNCS {
            marks[callee] = true;
        }
    }
}

// Marks each function that one of the task's points calls.
fn mark_calls(task: HeldTask, marks: &mut [bool; Limits::FUNCS])
    requires { (f : ℕ) → mark_of marks.old f ≡ false }
    ensures { (f : ℕ) → f < most_funcs → mark_of marks.new f ≡ any (calls_at task.entry.work.now f) (up_to task.entry.header.points) }
{
    for i in 0..task.header.points {
        mark(tables::point_at(task.work, i), marks);
    }
}

// The first function from 1 on that has no mark. Its place is the line that opens it, so first_failing, which goes over points, does not serve here.
fn first_unmarked(task: HeldTask, marks: &[bool; Limits::FUNCS]) -> Verdict
    requires { (f : ℕ) → f < task.header.funcs → mark_of marks.now f ≡ is_called (task_of task.work.now task.header) f }
    ensures { result ≡ row_verdict (call_rows (task_of task.entry.work.now task.entry.header)) }
{
    for f in 1..task.header.funcs {
        if !marks[f] {
            let func = task.func(f);
            return Err(Refusal {
                row: Row::Uncalled,
                place: tables::opening_line(f, func.span.base),
            });
        }
    }
    Ok(())
}

// 12 of the task.
pub fn call_rows(task: HeldTask) -> Verdict
    ensures { result ≡ row_verdict (call_rows (task_of task.entry.work.now task.entry.header)) }
{
    let mut marks = [false; Limits::FUNCS];
    mark_calls(task, &mut marks);
    first_unmarked(task, &marks)
}
