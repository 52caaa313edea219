// Bytes in a case and in an answer: how many, and these in words, the low byte first, filled up with 0.
use stored::answer::Answer;
use stored::lent::Case;

// The next bytes of a case, as many as `bytes` has room for.
pub(crate) fn take_bytes(case: &mut Case, bytes: &mut [u8]) {
    for part in bytes.chunks_mut(4) {
        for (byte, from) in part.iter_mut().zip(case.word().to_le_bytes()) {
            *byte = from;
        }
    }
}

// The next number of a case and that many bytes, at the front of `memory`, if they have room there.
pub(crate) fn next_bytes<'m>(case: &mut Case, memory: &'m mut [u8]) -> Option<&'m [u8]> {
    let bytes = memory.get_mut(..case.number())?;
    take_bytes(case, bytes);
    Some(bytes)
}

pub(crate) fn put_bytes(answer: &mut Answer, bytes: &[u8]) {
    answer.number(bytes.len());
    for part in bytes.chunks(4) {
        let mut word = [0; 4];
        for (byte, from) in word.iter_mut().zip(part) {
            *byte = *from;
        }
        answer.word(u32::from_le_bytes(word));
    }
}
