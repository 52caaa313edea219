// Refusals as words.
use shape::refusal::Refusal;
use stored::answer::Answer;

// A refusal by its number, and the place.
pub(crate) fn put_refusal(answer: &mut Answer, r: Refusal) {
    answer.word(r.number());
    answer.number(r.place());
}

// 0 and how many there are, or a refusal.
pub(crate) fn put_count(answer: &mut Answer, count: Result<usize, Refusal>) {
    match count {
        Ok(n) => {
            answer.word(0);
            answer.number(n);
        }
        Err(r) => put_refusal(answer, r),
    }
}
