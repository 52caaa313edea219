// A surface file: its text, the words held of it, and the file of held words.
use crate::bytes::{next_bytes, put_bytes, take_bytes};
use crate::refused::put_count;
use stored::answer::Answer;
use stored::lent::{BLANK_BYTE, BLANK_WORD, Case};
use surface::file;
use surface::report::report;

// A file's text. Of a longer file the first 65,537 bytes are read, as `probe` reads them.
pub(crate) fn probe_case(case: &mut Case, answer: &mut Answer) -> Option<()> {
    let mut bytes = [0u8; 65537]; // the longest file, and a byte
    let mut text = [0u8; 204834]; // the longest text
    let bytes = &mut bytes[..case.number().min(65537)];
    take_bytes(case, bytes);
    let length = report(bytes, &mut text).ok()?;
    put_bytes(answer, text.get(..length)?);
    Some(())
}

// A file, where the case gives the room for its words next.
pub(crate) fn held_case(case: &mut Case, answer: &mut Answer) -> Option<()> {
    let mut bytes = [0u8; 65537];
    let mut held = [BLANK_WORD; 16384];
    let bytes = next_bytes(case, &mut bytes)?;
    let held = &mut held[..case.room(16384)?];
    put_count(answer, file::read(bytes, held));
    answer.words(held);
    Some(())
}

// Held words, where the case gives the room for the file next.
pub(crate) fn file_case(case: &mut Case, answer: &mut Answer) -> Option<()> {
    let mut held = [0u32; 16392]; // the most words, and a record
    let mut bytes = [BLANK_BYTE; 65536];
    let held = case.list(&mut held)?;
    let bytes = &mut bytes[..case.room(65536)?];
    put_count(answer, file::write(held, bytes));
    put_bytes(answer, bytes);
    Some(())
}
