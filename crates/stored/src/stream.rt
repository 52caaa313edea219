// Words from a reader, as standard input, the low byte first, however short the reads are.
ghost use Rattle.std.specs.Prelude.{◌≡◌, ◌+◌, ◌*◌, ◌≤◌, length, slice_set, take, IfSome};
ghost use Rattle.std.specs.Io.KnownBytes.{Consumes};
ghost use Rattle.stored.specs.Words.{word_at, get_word};

use std::io::Read;

// Word i of the bytes, and 0 past their last whole word.
#[tactic(auto, using(crate::proofs::Bytes::word_four), unfolding(crate::specs::Words::word_at))]
pub fn word_at(bytes: &[u8], i: usize) -> u32
    ensures { result ≡ word_at bytes.now i }
{
    let (words, _) = bytes.as_chunks();
    if i < words.len() {
        u32::from_le_bytes(words[i])
    } else {
        0
    }
}

// Word i of a list, and 0 past its end.
pub fn word(list: &[u32], i: usize) -> u32
    ensures { result ≡ get_word list.now i }
{
    if i < list.len() { list[i] } else { 0 }
}

// Sets element i of a list, and nothing past its end.
pub fn put<T: Copy>(list: &mut [T], i: usize, x: T)
    ensures { list.new ≡ slice_set list.old i x }
{
    if i < list.len() {
        list[i] = x;
    }
}

// Reads until `bytes` is full, the input ends or a read fails, and answers how many bytes it put to the
// start.
fn read_full<R: Read>(input: &mut R, bytes: &mut [u8]) -> usize
    ensures fits { result ≤ length bytes.new }
    ensures same_length { length bytes.new ≡ length bytes.old }
    ensures read { Consumes (R.remaining input.old) (R.remaining input.new) (take result bytes.new) }
{
    let mut done: usize = 0;
    while done < bytes.len() {
        match input.read(&mut bytes[done..]) {
            Ok(n) if n > 0 => done += n,
            _ => return done,
        }
    }
    done
}

// How many bytes are read at once: a multiple of 4, so that no word lies across two reads.
const BUFFER: usize = 65536;

// The words of an input: `at` of the `held` words in the buffer are handed out, `read` in all, and `spare`
// bytes, too few for a word, ended the input. The buffer is left short only where the input ends or a read
// fails.
#[derive(Drop)]
pub struct Words<R> {
    input: R,
    buffer: [u8; BUFFER],
    at: usize,
    held: usize,
    spare: usize,
    read: u64,
    ghost in_buffer: { 4 * held + spare ≤ 65536 },
}

impl<R: Read> Words<R> {
    ghost use Rattle.std.specs.Prelude.{◌≡◌, ◌+◌, ◌%◌, ◌^◌, ◌<◌, ◌≤◌, ◌↔◌, ◌∷◌, [], if◌then◌else◌, is_some, length, IfNone, IfSome, IsTrue};
    ghost use Rattle.std.specs.Io.KnownBytes.{Keeps};
    ghost use Rattle.stored.specs.Words.{word_at};
    ghost use Rattle.stored.specs.Input.{Gives, ahead};

    pub fn new(input: R) -> Words<R>
        ensures count { result.read ≡ 0 }
        ensures input { Keeps (R.remaining input) (ahead R.remaining result) }
        ensures whole { result.spare ≡ 0 }
    {
        Words {
            input,
            buffer: [0; BUFFER],
            at: 0,
            held: 0,
            spare: 0,
            read: 0,
        }
    }

    // How many words are read.
    pub fn count(&self) -> u64
        ensures { result ≡ self.now.read }
    {
        self.read
    }

    // Did the input end within a word?
    pub fn is_torn(&self) -> bool
        ensures { IsTrue result ↔ (0 < self.now.spare) }
    {
        self.spare > 0
    }

    // Where no word is left in the buffer, it is filled anew. Where bytes are left over the input is at its end.
    fn refill(&mut self)
        ensures kept { Keeps (ahead R.remaining self.old) (ahead R.remaining self.new) }
        ensures held { self.old.at < self.old.held → self.new ≡ self.old }
        ensures count { self.new.read ≡ self.old.read }
    {
        if self.at < self.held || self.spare > 0 {
            return;
        }
        let Words { input, buffer, .. } = self;
        let got = read_full(input, buffer);
        self.at = 0;
        self.held = got / 4;
        self.spare = got % 4;
    }

    // The next word, if there is one.
    pub fn word(&mut self) -> Option<u32>
        ensures word { IfSome result (λ w. Gives (ahead R.remaining self.old) (ahead R.remaining self.new) (w ∷ [])) }
        ensures held { self.old.at < self.old.held → result ≡ Some (word_at self.old.buffer self.old.at) }
        ensures none { IfNone result (Keeps (ahead R.remaining self.old) (ahead R.remaining self.new) × (self.new.held ≤ self.new.at)) }
        ensures count { self.new.read ≡ (if is_some result then (self.old.read + 1) % 2 ^ 64 else self.old.read) }
    {
        self.refill();
        if self.at >= self.held {
            return None;
        }
        let w = word_at(&self.buffer, self.at);
        self.at += 1;
        self.read = self.read.wrapping_add(1);
        Some(w)
    }

    // Reads a count and that many words to the start of `memory`: these, if all came and had room.
    pub fn list<'m>(&mut self, memory: &'m mut [u32]) -> Option<&'m [u32]>
        ensures fits { IfSome result (λ list. length list.now ≤ length memory.old) }
        ensures words { IfSome result (λ list. Gives (ahead R.remaining self.old) (ahead R.remaining self.new) (length list.now ∷ list.now)) }
        ensures count { IfSome result (λ list. self.new.read ≡ (self.old.read + 1 + length list.now) % 2 ^ 64) }
    {
        let n = self.word()? as usize;
        if n > memory.len() {
            return None;
        }
        let list = &mut memory[..n];
        for x in list.iter_mut() {
            *x = self.word()?;
        }
        Some(list)
    }
}
