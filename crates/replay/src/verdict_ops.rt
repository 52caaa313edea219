// The verdict on a mesh, its sentence, and the reading of one.
use crate::bytes::{next_bytes, put_bytes};
use crate::lists::MeshMemory;
use crate::refused::{put_count, put_refusal};
use shape::refusal::Refusal;
use shape::validate::MeshError;
use stored::answer::Answer;
use stored::lent::{BLANK_BYTE, Case};
use surface::sentence;

// What is found, by the oracle's number, and up to three numbers with it.
fn put_found(answer: &mut Answer, kind: usize, a: usize, b: usize, c: usize) {
    answer.word(0);
    answer.number(kind);
    answer.number(a);
    answer.number(b);
    answer.number(c);
}

fn put_verdict(answer: &mut Answer, verdict: Result<Result<(), MeshError>, Refusal>) {
    match verdict {
        Ok(Ok(())) => put_found(answer, 0, 0, 0, 0),
        Ok(Err(MeshError::Empty)) => put_found(answer, 1, 0, 0, 0),
        Ok(Err(MeshError::NonFiniteVertex(i))) => put_found(answer, 2, i, 0, 0),
        Ok(Err(MeshError::IndexOutOfRange(t, i, n))) => put_found(answer, 3, t, i, n),
        Ok(Err(MeshError::DegenerateTriangle(t))) => put_found(answer, 4, t, 0, 0),
        Err(r) => put_refusal(answer, r),
    }
}

pub(crate) fn validate_case(case: &mut Case, answer: &mut Answer) -> Option<()> {
    let mut memory = MeshMemory::new();
    let mesh = memory.mesh(case)?;
    put_verdict(answer, mesh.validate());
    Some(())
}

// ---- sentences

// A count of 64 bits, its low word first.
fn next_count(case: &mut Case) -> usize {
    let low = case.word();
    let high = case.word();
    low as usize + (high as usize) * 0x1_0000_0000
}

// The verdict that a case gives, by its kind and three counts.
fn next_verdict(case: &mut Case) -> Result<(), MeshError> {
    let kind = case.word();
    let [a, b, c] = [next_count(case), next_count(case), next_count(case)];
    match kind {
        0 => Ok(()),
        1 => Err(MeshError::Empty),
        2 => Err(MeshError::NonFiniteVertex(a)),
        3 => Err(MeshError::IndexOutOfRange(a, b, c)),
        _ => Err(MeshError::DegenerateTriangle(a)),
    }
}

// A verdict and the room for its sentence.
pub(crate) fn sentence_case(case: &mut Case, answer: &mut Answer) -> Option<()> {
    let mut text = [BLANK_BYTE; 90];
    let verdict = next_verdict(case);
    let text = text.get_mut(..case.number())?;
    put_count(answer, sentence::write(verdict, text));
    put_bytes(answer, text);
    Some(())
}

// The bytes that are read.
pub(crate) fn read_case(case: &mut Case, answer: &mut Answer) -> Option<()> {
    let mut text = [0u8; 1000];
    let text = next_bytes(case, &mut text)?;
    put_verdict(answer, sentence::read(text));
    Some(())
}
