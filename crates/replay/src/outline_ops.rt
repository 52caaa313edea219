// The operations on junction outlines.
use crate::refused::put_refusal;
use shape::junction_areas::{Boundary, Outline, ring};
use stored::answer::Answer;
use stored::lent::{BLANK, Case};

fn put_outline(answer: &mut Answer, o: Outline) {
    answer.word(0);
    answer.number(o.count);
    answer.number(o.dropped);
    answer.single(o.gap);
    answer.test(o.closed);
    answer.test(o.turned);
}

pub(crate) fn ring_case(case: &mut Case, answer: &mut Answer) -> Option<()> {
    let mut segments = [0u32; 520];
    let mut points = [0.0f32; 12300];
    let mut line = [BLANK; 12300];
    let boundary = Boundary {
        segments: case.list(&mut segments)?,
        points: case.list(&mut points)?,
    };
    let line = &mut line[..case.room(12300)?];
    match ring(boundary, line) {
        Ok(o) => put_outline(answer, o),
        Err(r) => put_refusal(answer, r),
    }
    answer.singles(line);
    Some(())
}
