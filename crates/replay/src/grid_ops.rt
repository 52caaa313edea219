// The operations on elevation grids.
use crate::refused::put_refusal;
use shape::elevation::{ElevationGrid, Heights, Line, Patch, coefficients, row_slopes};
use shape::refusal::Refusal;
use stored::answer::Answer;
use stored::lent::Case;

// ---- patch

pub(crate) fn patch_case(case: &mut Case, answer: &mut Answer) -> Option<()> {
    let mut m = [0.0f64; 16];
    for x in m.iter_mut() {
        *x = case.double();
    }
    for x in coefficients(Patch { m }).m {
        answer.double(x);
    }
    Some(())
}

// ---- slopes

// A height that may be missing: whether it is there, and it.
fn spot(case: &mut Case) -> Option<f64> {
    let there = case.word() > 0;
    let z = case.double();
    there.then_some(z)
}

pub(crate) fn slopes_case(case: &mut Case, answer: &mut Answer) -> Option<()> {
    let slopes = row_slopes(Line {
        before: spot(case),
        first: spot(case),
        second: spot(case),
        after: spot(case),
    });
    answer.test(slopes.is_some());
    match slopes {
        Some(t) => {
            answer.double(t.first);
            answer.double(t.second);
        }
        None => answer.zeros(4),
    }
    Some(())
}

// ---- heights

// The numbers of a grid.
pub(crate) fn grid(case: &mut Case) -> ElevationGrid {
    ElevationGrid {
        origin_x: case.double(),
        origin_y: case.double(),
        sin: case.double(),
        cos: case.double(),
        start: case.double(),
        spacing: case.double(),
    }
}

// An answer of four words: 0, then 1 and a height or three times 0; or a refusal's number and place,
// and twice 0.
fn put_elevation(answer: &mut Answer, found: Result<Option<f64>, Refusal>) {
    match found {
        Ok(Some(z)) => {
            answer.word(0);
            answer.word(1);
            answer.double(z);
        }
        Ok(None) => answer.zeros(4),
        Err(r) => {
            put_refusal(answer, r);
            answer.zeros(2);
        }
    }
}

// How many questions there are, and the answers that `height` has to them.
pub(crate) fn height_case<F>(height: F, case: &mut Case, answer: &mut Answer) -> Option<()>
where
    F: Fn(ElevationGrid, Heights, f64, f64) -> Result<Option<f64>, Refusal>,
    requires { F.IsAlwaysCallable height }
{
    let mut rows = [0u32; 6200];
    let mut left = [0.0f64; 2100];
    let mut right = [0.0f64; 2100];
    let mut questions = [0.0f64; 200];
    let grid = grid(case);
    let heights = Heights {
        rows: case.list(&mut rows)?,
        left: case.list(&mut left)?,
        right: case.list(&mut right)?,
    };
    let questions = case.list(&mut questions)?;
    answer.number(questions.len() / 2);
    for q in questions.chunks_exact(2) {
        put_elevation(answer, height(grid, heights, q[0], q[1]));
    }
    Some(())
}
