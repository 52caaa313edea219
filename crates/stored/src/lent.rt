// A case, word after word, and its lists as the calls want them lent. In a case a list is its length, the
// count of the words that are given of it, and these. Where the list is longer they repeat, so that a long
// list is a short case.
ghost use Rattle.std.specs.Prelude.{◌≡◌, ℕ, length, is_some, ◌≤◌, ◌↔◌, ◌∷◌, [], if◌then◌else◌, nat_le, IfSome, IsTrue};
ghost use Rattle.stored.specs.Cases.{IsRead, IsNextList, given_double, given_single, given_word, list_fits, past_list, left1, left2, left3, next_double, next_point, next_single, next_vector, next_word};

use crate::stream::word;
use rounding::bits::{from_bits32, from_bits64};
use vector::coords::{Point, Vector};

// What lent memory holds before a call.
pub const BLANK: f32 = 1234.5;

pub const BLANK_WORD: u32 = 0x5a5a_5a5a;

pub const BLANK_BYTE: u8 = 0x5a;

// The words that are given of a list: `count` of the case's, from `from` on, over and over.
#[derive(Clone, Copy)]
pub struct Given<'a> {
    words: &'a [u32],
    from: usize,
    count: usize,
}

impl Given<'_> {
    fn word(self, k: usize) -> u32
        ensures { result ≡ given_word self.entry k }
    {
        if self.count == 0 {
            return 0;
        }
        word(self.words, self.from.wrapping_add(k % self.count))
    }
}

// What lists are of: words, singles by their bits, and doubles, low word first.
pub trait Listed: Copy {
    ghost use Rattle.stored.specs.declared.lent.Given.{Given};

    // What element i of a list is.
    ghost element: { Given → ℕ → Self };

    // How many words an element is.
    const WORDS: usize;

    ghost WORDS: { ℕ };

    // Element i of a list.
    fn listed(given: Given, i: usize) -> Self
        ensures { result ≡ element given.entry i };
}

impl Listed for u32 {
    ghost element = { given_word };

    const WORDS: usize = 1;

    ghost WORDS = { 1 };

    fn listed(given: Given, i: usize) -> u32 {
        given.word(i)
    }
}

impl Listed for f32 {
    ghost element = { given_single };

    const WORDS: usize = 1;

    ghost WORDS = { 1 };

    fn listed(given: Given, i: usize) -> f32 {
        from_bits32(given.word(i))
    }
}

impl Listed for f64 {
    ghost element = { given_double };

    const WORDS: usize = 2;

    ghost WORDS = { 2 };

    fn listed(given: Given, i: usize) -> f64 {
        let k = i.wrapping_add(i);
        from_bits64(given.word(k), given.word(k.wrapping_add(1)))
    }
}

// A case's words, read in order.
#[derive(Clone, Copy)]
pub struct Case<'a> {
    words: &'a [u32],
    at: usize,
}

impl<'a> Case<'a> {
    pub fn new(words: &'a [u32]) -> Case<'a>
        ensures words { result.words.now ≡ words.now }
        ensures first { result.at ≡ 0 }
    {
        Case { words, at: 0 }
    }

    // Are all words read, and none past the last?
    pub fn is_read(&self) -> bool
        ensures { IsTrue result ↔ IsRead self.now }
    {
        self.at == self.words.len()
    }

    pub fn word(&mut self) -> u32
        ensures value { result ≡ next_word self.old }
        ensures left { self.new ≡ left1 self.old }
    {
        let w = word(self.words, self.at);
        self.at = self.at.wrapping_add(1);
        w
    }

    pub fn number(&mut self) -> usize
        ensures value { result ≡ next_word self.old }
        ensures left { self.new ≡ left1 self.old }
    {
        self.word() as usize
    }

    pub fn single(&mut self) -> f32
        ensures value { result ≡ next_single self.old }
        ensures left { self.new ≡ left1 self.old }
    {
        from_bits32(self.word())
    }

    // A double, its low word first.
    pub fn double(&mut self) -> f64
        ensures value { result ≡ next_double self.old }
        ensures left { self.new ≡ left2 self.old }
    {
        from_bits64(self.word(), self.word())
    }

    // The next three singles.
    fn three(&mut self) -> [f32; 3]
        ensures values { result ≡ next_single self.old ∷ next_single (left1 self.old) ∷ next_single (left2 self.old) ∷ [] }
        ensures left { self.new ≡ left3 self.old }
    {
        [self.single(), self.single(), self.single()]
    }

    pub fn point(&mut self) -> Point
        ensures value { result ≡ next_point self.old }
        ensures left { self.new ≡ left3 self.old }
    {
        let [x, y, z] = self.three();
        Point { x, y, z }
    }

    pub fn vector(&mut self) -> Vector
        ensures value { result ≡ next_vector self.old }
        ensures left { self.new ≡ left3 self.old }
    {
        let [x, y, z] = self.three();
        Vector { x, y, z }
    }

    // The next number, which is how much room there is in an output: at most `most`.
    pub fn room(&mut self, most: usize) -> Option<usize>
        ensures value { result ≡ (if nat_le (next_word self.old) most then Some (next_word self.old) else None) }
        ensures room { IfSome result (λ n. n ≤ most) }
        ensures left { self.new ≡ left1 self.old }
    {
        let n = self.number();
        (n <= most).then_some(n)
    }

    // The next list, made at the front of `memory`, if it has the room and words are given of it.
    pub fn list<'m, T: Listed>(&mut self, memory: &'m mut [T]) -> Option<&'m [T]>
        ensures fits { is_some result ≡ list_fits (length memory.old) T.WORDS self.old }
        ensures list { IfSome result (λ list. IsNextList T.element self.old list.now) }
        ensures left { self.new ≡ past_list self.old }
    {
        let length = self.number();
        let count = self.number();
        let given = Given {
            words: self.words,
            from: self.at,
            count,
        };
        self.at = self.at.wrapping_add(count);
        if length > memory.len() || (length > 0 && count < T::WORDS) {
            return None;
        }
        let list = &mut memory[..length];
        for (i, x) in list.iter_mut().enumerate() {
            *x = T::listed(given, i);
        }
        Some(list)
    }
}
