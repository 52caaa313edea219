// The lane that a triangle belongs to: of the spans, whose runs of indices rise, the one that holds it.
ghost use Rattle.std.specs.Prelude.{◌≡◌, ◌+◌, ◌-◌, ◌*◌, ◌/◌, ◌<◌, ◌≤◌, length, MatchOption};
ghost use Rattle.lookup.specs.Sampler.{EndsRise, past_of, lane_of};
ghost use Rattle.lookup.specs.Steps.{Halved};

use shape::lists::{Records, SPAN_ID, SPAN_INDICES, SPAN_INDICES_END, SPAN_WORDS};

// The spans of a mesh in order: at most 1,024, whose runs of indices rise.
#[derive(Clone, Copy)]
pub(crate) struct Spans<'a> {
    pub words: &'a [u32],
    ghost few: { length words.now ≤ 5120 },
    ghost rise: { EndsRise words.now (length words.now / 5) },
}

// A part of the spans: the first of them, and how many there are.
#[derive(Clone, Copy)]
struct Part {
    low: usize,
    size: usize,
}

// A place moved on where a run of indices ends by i. Which way it goes cannot be foreseen, so the choice is
// no branch.
fn moved(low: usize, by: usize, end: usize, i: usize) -> usize
    requires { (low ≤ 1024) × (by ≤ 1024) }
    ensures { (end ≤ i → result ≡ low + by) × (i < end → result ≡ low) }
{
    if end <= i { low + by } else { low }
}

impl Spans<'_> {
    // The half of a part that leads to the first span whose run of indices ends past i.
    fn half(self, i: usize, p: Part) -> Part
        requires { let ss = self.words.now in Halved ss i (length ss / 5) p.low (p.low + p.size) }
        ensures halved_again { let ss = self.entry.words.now in Halved ss i (length ss / 5) result.low (result.low + result.size) }
        ensures size_value { result.size ≡ (p.size + 1) / 2 }
    {
        if p.size < 2 {
            return p;
        }
        let half = p.size / 2;
        let end = self.words[SPAN_WORDS * (p.low + half) - 1] as usize;
        Part {
            low: moved(p.low, half, end, i),
            size: p.size - half,
        }
    }

    // The first of the spans whose run of indices ends past i, if there is one. The ends rise, so it is found
    // by halving. Ten halves of 1,024 spans leave one; in a loop the compiler would make branches of the
    // choices.
    fn past(self, i: usize) -> Option<usize>
        ensures { let ss = self.entry.words.now in let n = length ss / 5 in
            MatchOption result (past_of ss i n ≡ n) (λ k. (k < n) × (k ≡ past_of ss i n)) }
    {
        let n = self.words.len() / SPAN_WORDS;
        let whole = Part { low: 0, size: n };
        let a = self.half(i, self.half(i, whole));
        let b = self.half(i, self.half(i, a));
        let c = self.half(i, self.half(i, b));
        let d = self.half(i, self.half(i, c));
        let e = self.half(i, self.half(i, d));
        if e.size < 1 {
            return None;
        }
        let end = self.words[SPAN_WORDS * e.low + SPAN_INDICES_END] as usize;
        let k = moved(e.low, 1, end, i);
        (k < n).then_some(k)
    }

    // The id of the lane that triangle t belongs to, if the spans name one.
    #[tactic(auto, using(crate::proofs::Laws::Spans::lane_of_span, crate::proofs::Laws::Spans::lane_before, crate::proofs::Laws::Spans::lane_past))]
    pub(crate) fn lane(self, t: usize) -> Option<usize>
        requires { t < 65536 }
        ensures { result ≡ lane_of self.entry.words.now t }
    {
        let k = self.past(3 * t)?;
        let records = Records::<SPAN_WORDS> { words: self.words };
        let begun = records.word(k, SPAN_INDICES) <= 3 * t;
        begun.then_some(records.word(k, SPAN_ID))
    }
}
