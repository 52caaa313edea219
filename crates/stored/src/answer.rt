// The answer to a case, word after word into lent memory. What has no room there is lost, but counted.
ghost use Rattle.std.specs.Prelude.{◌≡◌, ◌<◌, ◌≤◌, ◌%◌, ◌^◌, ◌∷◌, [], if◌then◌else◌, length, map, replicate, take, to_bits, IfSome, MatchOption};
ghost use Rattle.std.specs.Float.{binary64};
ghost use Rattle.stored.specs.Answers.{Puts, halves, point_words, vector_words, word_of};

use crate::stream::put;
use rounding::bits::{bits32, bits64};
use vector::coords::{Point, Vector};

#[derive(Drop)]
pub struct Answer<'a> {
    made: &'a mut [u32],
    count: usize,
}

impl<'a> Answer<'a> {
    pub fn new(made: &'a mut [u32]) -> Answer<'a>
        ensures same_memory { result.made.ghost_name ≡ made.entry.ghost_name }
        ensures as_it_was { result.made.now ≡ made.old }
        ensures none_put { result.count ≡ 0 }
    {
        Answer { made, count: 0 }
    }

    // The words that are put, if all had room.
    pub fn made(self) -> Option<&'a [u32]>
        ensures { let memory = self.entry.made.now in let count = self.entry.count in MatchOption result (length memory < count) (λ words. (count ≤ length memory) × (words.now ≡ take count memory)) }
    {
        let Answer { made, count } = self;
        if count > made.len() {
            return None;
        }
        Some(&made[..count])
    }

    pub fn word(&mut self, w: u32)
        ensures { Puts self.old self.new (w ∷ []) }
    {
        let at = self.count;
        put(self.made, at, w);
        self.count = at.wrapping_add(1);
    }

    // A number by its lowest word.
    pub fn number(&mut self, n: usize)
        ensures { Puts self.old self.new (n % 2 ^ 32 ∷ []) }
    {
        self.word((n % 0x1_0000_0000) as u32);
    }

    // A test as 1 or 0.
    pub fn test(&mut self, yes: bool)
        ensures { Puts self.old self.new ((if yes then 1 else 0) ∷ []) }
    {
        self.word(yes as u32);
    }

    pub fn single(&mut self, x: f32)
        ensures { Puts self.old self.new (word_of x ∷ []) }
    {
        self.word(bits32(x));
    }

    // A word of 64 bits, its low half first.
    pub fn wide(&mut self, w: u64)
        ensures { Puts self.old self.new (halves w) }
    {
        self.word((w % 0x1_0000_0000) as u32);
        self.word((w / 0x1_0000_0000) as u32);
    }

    pub fn double(&mut self, x: f64)
        ensures { Puts self.old self.new (halves (to_bits binary64 x)) }
    {
        self.wide(bits64(x));
    }

    pub fn point(&mut self, p: Point)
        ensures { Puts self.old self.new (point_words p) }
    {
        self.single(p.x);
        self.single(p.y);
        self.single(p.z);
    }

    pub fn vector(&mut self, v: Vector)
        ensures { Puts self.old self.new (vector_words v) }
    {
        self.single(v.x);
        self.single(v.y);
        self.single(v.z);
    }

    pub fn words(&mut self, xs: &[u32])
        ensures { Puts self.old self.new xs.now }
    {
        for x in xs {
            self.word(*x);
        }
    }

    pub fn singles(&mut self, xs: &[f32])
        ensures { Puts self.old self.new (map word_of xs.now) }
    {
        for x in xs {
            self.single(*x);
        }
    }

    pub fn zeros(&mut self, n: usize)
        ensures { Puts self.old self.new (replicate n 0) }
    {
        for _ in 0..n {
            self.word(0);
        }
    }
}
