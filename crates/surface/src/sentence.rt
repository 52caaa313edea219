// A verdict on a mesh as a sentence in lent bytes, and the reading of one. A template for each kind of verdict
// serves both ways.
ghost use Rattle.std.specs.Prelude.{◌≡◌, ◌∷◌, [], ◌≤◌, ◌==◌, ℕ, List, IfOk, Ok, length};
ghost use Rattle.shape.specs.Memory.{Put};
ghost use Rattle.shape.specs.Refusal.{told, leaves};
ghost use Rattle.shape.specs.Verdict.{verdict_of, read_verdict};
ghost use Rattle.surface.specs.Sentence.{Part, bytes, count, fill, Counted, counts_of, too_large, sentence_of, sentence_answer, walk, read_sentence};
ghost use Rattle.surface.specs.SentenceSteps.{one_count, three_counts, digit_more, Counts, outcome, walk_at, then_on, behind};

use crate::memory::put;
use crate::text::put_number;
use shape::refusal::{Refusal, refuse_if};
use shape::validate::MeshError;

// ---- templates

// Two texts with a count between them.
#[derive(Clone, Copy)]
struct OneCount {
    first: &'static [u8],
    last: &'static [u8],
}

// Four texts with a count between each two.
#[derive(Clone, Copy)]
struct ThreeCounts {
    first: &'static [u8],
    second: &'static [u8],
    third: &'static [u8],
    last: &'static [u8],
}

const SOUND: &[u8] = b"mesh is sound.";

const EMPTY: &[u8] = b"mesh has no triangles.";

const NON_FINITE: OneCount = OneCount {
    first: b"vertex ",
    last: b" is not finite.",
};

const OUT_OF_RANGE: ThreeCounts = ThreeCounts {
    first: b"triangle ",
    second: b" indexes vertex ",
    third: b", past the ",
    last: b" vertices present.",
};

const DEGENERATE: OneCount = OneCount {
    first: b"triangle ",
    last: b" has no area.",
};

impl OneCount {
    // The sentence with this count, at the front of `line`, and where it ends.
    #[tactic(auto, using(crate::proofs::Filling::one_filled, crate::proofs::Filling::one_size, shape::proofs::Laws::Memory::put_then))]
    fn put(self, line: &mut [u8], n: u32) -> usize
        requires { length (fill (one_count self) (n ∷ [])) ≤ length line.old }
        ensures { Put line.old line.new 0 (fill (one_count self) (n ∷ [])) result }
    {
        let at = put_number(line, 0, self.first, n);
        put(line, at, self.last)
    }

    // The count of the sentence that the bytes are, or how far they go along the template.
    #[tactic(auto, using(crate::proofs::Walking::from_front), unfolding(crate::specs::SentenceSteps::then_on, crate::specs::SentenceSteps::behind))]
    fn read(self, text: &[u8]) -> Result<u32, usize>
        ensures { outcome (walk (one_count self) text.now) ≡ then_on result (λ n. Ok (n ∷ [])) }
    {
        let at = along(text, 0, self.first)?;
        let n = read_count(text, at)?;
        let at = along(text, n.end, self.last)?;
        end(text, at)?;
        Ok(n.value)
    }
}

impl ThreeCounts {
    // The sentence with these counts, at the front of `line`, and where it ends.
    #[tactic(auto, using(crate::proofs::Filling::three_filled, crate::proofs::Filling::three_size, shape::proofs::Laws::Memory::put_then))]
    fn put(self, line: &mut [u8], t: u32, i: u32, n: u32) -> usize
        requires { length (fill (three_counts self) (t ∷ i ∷ n ∷ [])) ≤ length line.old }
        ensures { Put line.old line.new 0 (fill (three_counts self) (t ∷ i ∷ n ∷ [])) result }
    {
        let at = put_number(line, 0, self.first, t);
        let at = put_number(line, at, self.second, i);
        let at = put_number(line, at, self.third, n);
        put(line, at, self.last)
    }

    // The counts of the sentence that the bytes are, or how far they go along the template.
    #[tactic(auto, using(crate::proofs::Walking::from_front), unfolding(crate::specs::SentenceSteps::then_on, crate::specs::SentenceSteps::behind))]
    fn read(self, text: &[u8]) -> Result<[u32; 3], usize>
        ensures { outcome (walk (three_counts self) text.now) ≡ result }
    {
        let at = along(text, 0, self.first)?;
        let t = read_count(text, at)?;
        let at = along(text, t.end, self.second)?;
        let i = read_count(text, at)?;
        let at = along(text, i.end, self.third)?;
        let n = read_count(text, at)?;
        let at = along(text, n.end, self.last)?;
        end(text, at)?;
        Ok([t.value, i.value, n.value])
    }
}

// ---- writing

// Room for the longest sentence: three counts of ten digits.
const LONGEST: usize = 84;

// The greatest count that has a sentence.
const MOST: usize = u32::MAX as usize;

// Has a verdict a count without a sentence?
#[tactic(auto, unfolding(shape::specs::Verdict::verdict_of, crate::specs::Sentence::too_large, crate::specs::Sentence::counts_of))]
fn too_large(verdict: Result<(), MeshError>) -> bool
    ensures { result ≡ too_large (counts_of (verdict_of verdict)) }
{
    match verdict {
        Ok(()) | Err(MeshError::Empty) => false,
        Err(MeshError::NonFiniteVertex(n) | MeshError::DegenerateTriangle(n)) => MOST < n,
        Err(MeshError::IndexOutOfRange(t, i, n)) => MOST < t || MOST < i || MOST < n,
    }
}

// The sentence of a verdict, at the front of `line`, and where it ends.
#[tactic(auto, using(crate::proofs::Laws::Sentence::sentence_few), unfolding(shape::specs::Verdict::verdict_of, crate::specs::Sentence::counts_of, crate::specs::Sentence::sentence_of))]
fn put_sentence(verdict: Result<(), MeshError>, line: &mut [u8; LONGEST]) -> usize
    requires { Counted (verdict_of verdict) }
    ensures { Put line.old line.new 0 (sentence_of (verdict_of verdict)) result }
{
    match verdict {
        Ok(()) => put(line, 0, SOUND),
        Err(MeshError::Empty) => put(line, 0, EMPTY),
        Err(MeshError::NonFiniteVertex(v)) => NON_FINITE.put(line, v as u32),
        Err(MeshError::IndexOutOfRange(t, i, n)) => {
            OUT_OF_RANGE.put(line, t as u32, i as u32, n as u32)
        }
        Err(MeshError::DegenerateTriangle(t)) => DEGENERATE.put(line, t as u32),
    }
}

// The sentence of a verdict into `text`: how many bytes it has. It is made elsewhere first, so that a short output
// is left as it was.
#[tactic(auto, using(crate::proofs::Laws::Sentence::sentence_few), unfolding(shape::specs::Refusal::told, shape::specs::Refusal::found, shape::specs::Refusal::judge, shape::specs::Refusal::refuse, shape::specs::Refusal::leaves, shape::specs::Refusal::number_of, shape::specs::Refusal::place_of, crate::specs::Sentence::sentence_answer, crate::specs::File::copy_of))]
pub fn write(verdict: Result<(), MeshError>, text: &mut [u8]) -> Result<usize, Refusal>
    ensures result_value { told result ≡ sentence_answer (verdict_of verdict) (length text.old) }
    ensures text_after { text.new ≡ leaves (sentence_answer (verdict_of verdict) (length text.old)) (sentence_of (verdict_of verdict)) text.old }
{
    refuse_if(too_large(verdict), Refusal::Oversize(MOST))?;
    let mut line = [0; LONGEST];
    let n = put_sentence(verdict, &mut line);
    refuse_if(text.len() < n, Refusal::ShortOutput(n))?;
    put(text, 0, &line[..n]);
    Ok(n)
}

// ---- walking along a template

// Along a word: where the bytes after it begin, or where they are not the word's.
#[tactic(auto, using(crate::proofs::Walking::word_turn, crate::proofs::Walking::word_differ, crate::proofs::Walking::word_over, crate::proofs::Walking::word_done), unfolding(crate::specs::SentenceSteps::then_on))]
fn along(text: &[u8], at: usize, word: &[u8]) -> Result<usize, usize>
    requires { at ≤ length text.now }
    ensures walked { (t : List Part) → walk_at at (bytes word.now t) text.now ≡ then_on result (λ k. walk_at k t text.now) }
    ensures within { IfOk result (λ k. k ≤ length text.now) }
{
    for (k, b) in word.iter().enumerate() {
        if text.len() <= at + k || text[at + k] != *b {
            return Err(at + k);
        }
    }
    Ok(at + word.len())
}

// A count that was read, and where the bytes after it begin.
#[derive(Clone, Copy)]
struct ReadCount {
    value: u32,
    end: usize,
}

// The value with a digit more, if the byte goes on so: no digit comes after a 0 that leads, and the count has 32 bits.
#[tactic(auto, unfolding(crate::specs::SentenceSteps::digit_more, crate::specs::Sentence::goes_on))]
fn with_digit(first: bool, value: u32, byte: u8) -> Option<u32>
    ensures { (used : ℕ) → (used == 0) ≡ first → result ≡ digit_more used value byte }
{
    if !first && value == 0 {
        return None;
    }
    let digit = (byte as char).to_digit(10)?;
    u32::try_from(10 * value as u64 + digit as u64).ok()
}

// The count that begins at a place, as far as its digits go; there may be none.
fn digits_at(text: &[u8], at: usize) -> ReadCount
    requires { at ≤ length text.now }
    ensures { Counts text.now at result.end result.value }
{
    let mut value = 0;
    let mut end = at;
    while end < text.len() {
        let Some(more) = with_digit(end == at, value, text[end]) else {
            return ReadCount { value, end };
        };
        value = more;
        end += 1;
    }
    ReadCount { value, end }
}

// Along a count, which has a digit at least.
#[tactic(auto, using(crate::proofs::Walking::counted, crate::proofs::Walking::not_counted), unfolding(crate::specs::SentenceSteps::then_on))]
fn read_count(text: &[u8], at: usize) -> Result<ReadCount, usize>
    requires { at ≤ length text.now }
    ensures walked { (t : List Part) → walk_at at (count ∷ t) text.now ≡ then_on result (λ c. behind (c.value ∷ []) (walk_at c.end t text.now)) }
    ensures within { IfOk result (λ c. c.end ≤ length text.now) }
{
    let count = digits_at(text, at);
    if count.end == at {
        return Err(at);
    }
    Ok(count)
}

// The end of a template: there are no more bytes, or the first of them is one too many.
#[tactic(auto, using(crate::proofs::Walking::end_here, crate::proofs::Walking::end_before), unfolding(crate::specs::SentenceSteps::then_on))]
fn end(text: &[u8], at: usize) -> Result<(), usize>
    requires { at ≤ length text.now }
    ensures { walk_at at [] text.now ≡ then_on result (λ _. Ok []) }
{
    if at < text.len() { Err(at) } else { Ok(()) }
}

// A template that is a text alone.
#[tactic(auto, using(crate::proofs::Walking::from_front), unfolding(crate::specs::SentenceSteps::then_on, crate::specs::SentenceSteps::behind))]
fn read_text(text: &[u8], word: &[u8]) -> Result<(), usize>
    ensures { outcome (walk (bytes word.now []) text.now) ≡ then_on result (λ _. Ok []) }
{
    let at = along(text, 0, word)?;
    end(text, at)
}

// ---- reading

// The verdict of a sentence, with its counts: that of the template that the bytes end, of which there is one at most.
// No more than 84 bytes are looked at.
pub fn read(text: &[u8]) -> Result<Result<(), MeshError>, Refusal>
    ensures { read_verdict result ≡ read_sentence text.now }
{
    let sound = match read_text(text, SOUND) {
        Ok(()) => return Ok(Ok(())),
        Err(far) => far,
    };
    let empty = match read_text(text, EMPTY) {
        Ok(()) => return Ok(Err(MeshError::Empty)),
        Err(far) => far,
    };
    let vertex = match NON_FINITE.read(text) {
        Ok(v) => return Ok(Err(MeshError::NonFiniteVertex(v as usize))),
        Err(far) => far,
    };
    let range = match OUT_OF_RANGE.read(text) {
        Ok(counts) => {
            let [t, i, n] = counts;
            return Ok(Err(MeshError::IndexOutOfRange(t as usize, i as usize, n as usize)));
        }
        Err(far) => far,
    };
    let area = match DEGENERATE.read(text) {
        Ok(t) => return Ok(Err(MeshError::DegenerateTriangle(t as usize))),
        Err(far) => far,
    };
    let far = sound.max(empty).max(vertex).max(range).max(area);
    Err(Refusal::NotAVerdict(far))
}
