// The surface file. A file is bytes and a held surface is words, eight to a record; both are judged by
// one rule and are turned into each other, record by record. They differ in how a triangle tells its lane.
ghost use Rattle.std.specs.Prelude.{◌≡◌, false, not, ◌&&◌, ℕ, ◌+◌, ◌*◌, ◌/◌, ◌%◌, ◌≤◌, ◌<◌, eqb, List, [], length, get_or};
ghost use Rattle.shape.specs.Gather.{any};
ghost use Rattle.shape.specs.Memory.{Put};
ghost use Rattle.shape.specs.Refusal.{found, told, leaves};
ghost use Rattle.surface.specs.File.{
  Form,
  File,
  Held,
  decode,
  encode,
  kind_of,
  triangle_kind,
  by_kind,
  spare,
  spare_used,
  bad_lane,
  bad_at,
  parts,
  held_of,
  file_of,
  held_record,
  file_record,
  past_at,
  held_fault,
  file_fault,
  surface_fault,
  words_of,
  bytes_of,
  read_of,
  write_of,
};
ghost use Rattle.surface.specs.Lane.{with_pair, lane_of_word, lane_of_held, past_greatest, bad_pair};
ghost use Rattle.surface.specs.Kind.{kind_from, number, number_before};
ghost use Rattle.surface.specs.FileSteps.{sound_kind, count_in, whole_in, record_in, first_of};

use crate::memory::put;
use shape::refusal::{Refusal, refuse_if};
use std::array::from_fn;

// The eight words of a record.
#[derive(Clone, Copy)]
struct Record {
    words: [u32; 8],
}

// The kind of a record is its word 0. Kinds never fall.
#[derive(Clone, Copy, PartialEq, Eq, PartialOrd, Ord)]
pub(crate) enum Kind {
    Vertex = 1,
    Triangle = 2,
    Question = 3,
}

impl Kind {
    // The kind of this number, if there is one.
    #[tactic(auto, unfolding(crate::specs::Kind::kind_from))]
    fn of(word: u32) -> Option<Kind>
        ensures { result ≡ kind_from word }
    {
        match word {
            1 => Some(Kind::Vertex),
            2 => Some(Kind::Triangle),
            3 => Some(Kind::Question),
            _ => None,
        }
    }

    // Its number.
    #[tactic(auto, unfolding(crate::specs::Kind::number))]
    pub(crate) fn number(self) -> u32
        ensures { result ≡ number self }
    {
        self as u32
    }
}

// The most records that a surface has.
const RECORDS: usize = 2048;

// Word i of the bytes, the low byte first, and 0 past their last whole word.
#[tactic(auto, using(crate::proofs::Chunks::word_here, crate::proofs::Chunks::word_past))]
pub(crate) fn word_at(bytes: &[u8], i: usize) -> u32
    ensures { result ≡ get_or (decode bytes.now) i 0 }
{
    let (words, _) = bytes.as_chunks();
    if i < words.len() {
        u32::from_le_bytes(words[i])
    } else {
        0
    }
}

// The bytes of words, from `at` of `bytes` on.
fn put_file(bytes: &mut [u8], at: usize, words: &[u32])
    requires { at + 4 * length words.now ≤ length bytes.old }
    ensures { Put bytes.old bytes.new at (encode words.now) (at + 4 * length words.now) }
{
    for (j, word) in words.iter().enumerate() {
        put(bytes, at + 4 * j, &word.to_le_bytes());
    }
}

// ---- the lane of a triangle

// The words of a triangle's record that tell it.
pub(crate) const LANE: usize = 4;

const NAMED: usize = 7;

// The greatest id that a file has a word for.
const GREATEST_ID: u32 = u32::MAX - 1;

// The lane that the word tells in a file: the word is the id plus one, or 0 for none.
#[tactic(auto, unfolding(crate::specs::Lane::lane_of_word))]
pub(crate) fn file_lane(word: u32) -> Option<u32>
    ensures { result ≡ lane_of_word word }
{
    word.checked_sub(1)
}

impl Record {
    // Is it a triangle's?
    #[tactic(auto, unfolding(crate::specs::Kind::number))]
    fn is_triangle(self) -> bool
        ensures { result ≡ eqb (kind_of self.words) triangle_kind }
    {
        self.words[0] == Kind::Triangle.number()
    }

    // The lane by a held triangle's record: the id, with 1 in word 7.
    #[tactic(auto, unfolding(crate::specs::Lane::lane_of_held))]
    fn held_lane(self) -> Option<u32>
        ensures { result ≡ lane_of_held self.words }
    {
        (self.words[NAMED] == 1).then_some(self.words[LANE])
    }

    // Do a held triangle's words tell neither a lane nor none: are they neither an id and 1 nor 0 and 0?
    #[tactic(auto, unfolding(crate::specs::Lane::bad_pair))]
    fn bad_pair(self) -> bool
        ensures { result ≡ bad_pair self.words }
    {
        !matches!((self.words[LANE], self.words[NAMED]), (_, 1) | (0, 0))
    }

    // The record with these words of a lane.
    #[tactic(auto, unfolding(crate::specs::Lane::with_pair))]
    fn with_pair(mut self, lane: u32, named: u32) -> Record
        ensures { result.words ≡ with_pair lane named self.words }
    {
        self.words[LANE] = lane;
        self.words[NAMED] = named;
        self
    }

    // A record of a file, as it is held.
    #[tactic(auto, using(crate::proofs::Laws::Lane::held_other, crate::proofs::Laws::Lane::held_named, crate::proofs::Laws::Lane::held_none))]
    fn held(self) -> Record
        ensures { result.words ≡ held_of (kind_of self.words) self.words }
    {
        if !self.is_triangle() {
            return self;
        }
        match file_lane(self.words[LANE]) {
            Some(id) => self.with_pair(id, 1),
            None => self.with_pair(0, 0),
        }
    }

    // Is the id of this held record's lane past the greatest, if it is a triangle's?
    #[tactic(auto, unfolding(crate::specs::File::by_kind, crate::specs::Lane::past_greatest))]
    fn past_greatest(self) -> bool
        ensures { result ≡ by_kind (kind_of self.words) false (past_greatest (lane_of_held self.words)) false }
    {
        self.is_triangle() && self.held_lane().is_some_and(|id| GREATEST_ID < id)
    }

    // A held record, as it stands in a file.
    #[tactic(auto, using(crate::proofs::Laws::Lane::filed_other, crate::proofs::Laws::Lane::filed_named, crate::proofs::Laws::Lane::filed_none, crate::proofs::Laws::Lane::named_within))]
    fn filed(self) -> Record
        requires { by_kind (kind_of self.words) false (past_greatest (lane_of_held self.words)) false ≡ false }
        ensures { result.words ≡ file_of (kind_of self.words) self.words }
    {
        if !self.is_triangle() {
            return self;
        }
        match self.held_lane() {
            Some(id) => self.with_pair(id + 1, 0),
            None => self.with_pair(0, 0),
        }
    }
}

// ---- records one after another

// The records of a surface, in the form that they are lent in.
trait Records: Copy {
    ghost form: { Form };

    // What is lent in the one form; there is nothing in the other.
    ghost bytes: { Self → List ℕ };

    ghost held: { Self → List ℕ };

    // How many there are, a part one counted.
    fn count(self) -> usize
        ensures { result ≡ count_in form (bytes self) (held self) };

    // How many of them are whole.
    fn whole(self) -> usize
        ensures { result ≡ whole_in form (bytes self) (held self) };

    // Whole record k.
    fn record(self, k: usize) -> Record
        requires { k < whole_in form (bytes self) (held self) }
        ensures { result.words ≡ record_in form (bytes self) (held self) k };

    // Has a record of this kind no use for its word j?
    fn spare(kind: Kind, j: usize) -> bool
        requires { j < 8 }
        ensures { result ≡ spare form (number kind) j };

    // Do the words of its lane tell neither a lane nor none, if it is a triangle's?
    fn bad_lane(kind: Kind, r: Record) -> bool
        requires { number kind ≡ kind_of r.words }
        ensures { result ≡ bad_lane form r.words };
}

// The bytes of a file, 32 to a record.
#[derive(Clone, Copy)]
struct FileBytes<'a> {
    bytes: &'a [u8],
}

impl Records for FileBytes<'_> {
    ghost form = { File };

    ghost bytes = { λ s. s.bytes.now };

    ghost held = { λ s. [] };

    #[tactic(auto, unfolding(crate::specs::File::parts, crate::specs::FileSteps::count_in))]
    fn count(self) -> usize {
        self.bytes.len().div_ceil(32)
    }

    #[tactic(auto, unfolding(crate::specs::FileSteps::whole_in))]
    fn whole(self) -> usize {
        self.bytes.len() / 32
    }

    #[tactic(auto, using(crate::proofs::Chunks::chunk_at), unfolding(crate::specs::FileSteps::whole_in, crate::specs::FileSteps::record_in, crate::specs::File::file_record))]
    fn record(self, k: usize) -> Record {
        let bytes = &self.bytes.as_chunks::<32>().0[k];
        Record {
            words: from_fn(|j| word_at(bytes, j)),
        }
    }

    #[tactic(auto, using(crate::proofs::Laws::Records::spare_vertex, crate::proofs::Laws::Records::spare_triangle, crate::proofs::Laws::Records::spare_question), unfolding(crate::specs::Kind::number))]
    fn spare(kind: Kind, j: usize) -> bool
        requires { j < 8 }
        ensures { result ≡ spare File (number kind) j }
    {
        match kind {
            Kind::Vertex => j == 7,
            Kind::Triangle => 4 < j,
            Kind::Question => 2 < j,
        }
    }

    #[tactic(auto, unfolding(crate::specs::File::bad_lane))]
    fn bad_lane(_kind: Kind, r: Record) -> bool
        ensures { result ≡ bad_lane File r.words }
    {
        false
    }
}

// Words as they are held, eight to a record.
#[derive(Clone, Copy)]
struct HeldWords<'a> {
    words: &'a [u32],
}

impl Records for HeldWords<'_> {
    ghost form = { Held };

    ghost bytes = { λ s. [] };

    ghost held = { λ s. s.words.now };

    #[tactic(auto, unfolding(crate::specs::File::parts, crate::specs::FileSteps::count_in))]
    fn count(self) -> usize {
        self.words.len().div_ceil(8)
    }

    #[tactic(auto, unfolding(crate::specs::FileSteps::whole_in))]
    fn whole(self) -> usize {
        self.words.len() / 8
    }

    #[tactic(auto, using(crate::proofs::Chunks::chunk_at), unfolding(crate::specs::FileSteps::whole_in, crate::specs::FileSteps::record_in, crate::specs::File::held_record))]
    fn record(self, k: usize) -> Record {
        Record {
            words: self.words.as_chunks().0[k],
        }
    }

    // As in a file, but for word 7 of a triangle.
    #[tactic(auto, using(crate::proofs::Laws::Records::spare_held, crate::proofs::Laws::Records::spare_same), unfolding(crate::specs::Kind::number))]
    fn spare(kind: Kind, j: usize) -> bool
        requires { j < 8 }
        ensures { result ≡ spare Held (number kind) j }
    {
        match kind {
            Kind::Triangle => 4 < j && j != NAMED,
            _ => FileBytes::spare(kind, j),
        }
    }

    #[tactic(auto, unfolding(crate::specs::File::bad_lane, crate::specs::File::by_kind, crate::specs::Kind::number))]
    fn bad_lane(kind: Kind, r: Record) -> bool
        requires { number kind ≡ kind_of r.words }
        ensures { result ≡ bad_lane Held r.words }
    {
        kind == Kind::Triangle && r.bad_pair()
    }
}

// ---- how they are judged

// Is a spare word of a record of this kind used?
#[tactic(auto, using(shape::proofs::Laws::Gather::any_next, shape::proofs::Laws::Gather::any_some), unfolding(shape::specs::Gather::any, crate::specs::File::spare_used))]
fn spare_used<R: Records>(kind: Kind, r: Record) -> bool
    requires { number kind ≡ kind_of r.words }
    ensures { result ≡ any (spare_used R.form r.words) 8 }
{
    for j in 0..8 {
        if R::spare(kind, j) && r.words[j] != 0 {
            return true;
        }
    }
    false
}

// The number of the kind before, and 0 before the first. Kinds are compared by it as numbers, since their own
// order looks both up in a table.
#[tactic(auto, unfolding(crate::specs::Kind::number_before))]
fn number_before(last: Option<Kind>) -> u32
    ensures { result ≡ number_before last }
{
    match last {
        Some(earlier) => earlier.number(),
        None => 0,
    }
}

// The kind of a record that follows one of kind `last`, unless it is bad.
#[tactic(auto, using(crate::proofs::Laws::Records::kind_number), unfolding(crate::specs::Kind::kind_from, crate::specs::FileSteps::sound_kind, crate::specs::File::bad_record))]
fn sound_kind<R: Records>(r: Record, last: Option<Kind>) -> Option<Kind>
    ensures { result ≡ kind_from (sound_kind R.form r.words (number_before last)) }
{
    let kind = Kind::of(r.words[0])?;
    if r.words[0] < number_before(last) || spare_used::<R>(kind, r) || R::bad_lane(kind, r) {
        return None;
    }
    Some(kind)
}

// The first bad record, if there is one. One after the whole ones is a part one, and so a bad one.
fn first_bad<R: Records>(records: R) -> Option<usize>
    ensures { let bs = R.bytes records in let ws = R.held records in result ≡ first_of (bad_at R.form (record_in R.form bs ws)) (count_in R.form bs ws) }
{
    let whole = records.whole();
    let mut last = None;
    for k in 0..whole {
        let Some(kind) = sound_kind::<R>(records.record(k), last) else {
            return Some(k);
        };
        last = Some(kind);
    }
    (whole < records.count()).then_some(whole)
}

// Why the records are turned back, if they are: the faults in their order. More records than the most
// are not read.
#[tactic(auto, unfolding(shape::specs::Refusal::found, shape::specs::Refusal::refuse, shape::specs::Refusal::number_of, shape::specs::Refusal::place_of, crate::specs::File::surface_fault, crate::specs::File::refuse_first, crate::specs::FileSteps::first_of))]
fn surface_fault<R: Records>(records: R) -> Result<(), Refusal>
    ensures { let bs = R.bytes records in let ws = R.held records in found result ≡ surface_fault R.form (count_in R.form bs ws) (record_in R.form bs ws) }
{
    let n = records.count();
    refuse_if(RECORDS < n, Refusal::Oversize(RECORDS))?;
    match first_bad(records) {
        Some(k) => Err(Refusal::BadRecord(k)),
        None => Ok(()),
    }
}

// Why held words are turned back, if they are.
#[tactic(auto, unfolding(crate::specs::File::held_fault, crate::specs::FileSteps::count_in, crate::specs::FileSteps::record_in))]
pub fn held_fault(held: &[u32]) -> Result<(), Refusal>
    ensures { found result ≡ held_fault held.now }
{
    surface_fault(HeldWords { words: held })
}

// Why a file is turned back, if it is.
#[tactic(auto, unfolding(crate::specs::File::file_fault, crate::specs::FileSteps::count_in, crate::specs::FileSteps::record_in))]
pub fn file_fault(bytes: &[u8]) -> Result<(), Refusal>
    ensures { found result ≡ file_fault bytes.now }
{
    surface_fault(FileBytes { bytes })
}

// ---- the calls

// The words held of a file, to the front of `held`. A record is put as it stands, several words at a time,
// and then the words from a triangle's lane on again: one that is looked into before it is put is put word
// by word, which takes this loop twice the time.
fn copy_words(bytes: &[u8], held: &mut [u32])
    requires { (length bytes.now % 32 ≡ 0) × (length bytes.now / 4 ≤ length held.old) }
    ensures { Put held.old held.new 0 (words_of bytes.now) (length bytes.now / 4) }
{
    let file = FileBytes { bytes };
    for k in 0..file.whole() {
        put(held, 8 * k, &file.record(k).words);
        let record = file.record(k);
        if record.is_triangle() {
            put(held, 8 * k + LANE, &record.held().words[LANE..]);
        }
    }
}

// Has a file no word for the lane of some held triangle?
#[tactic(auto, using(shape::proofs::Laws::Gather::any_next, shape::proofs::Laws::Gather::any_some), unfolding(shape::specs::Gather::any, crate::specs::File::past_at, crate::specs::FileSteps::whole_in, crate::specs::FileSteps::record_in))]
fn past_greatest(held: &[u32]) -> bool
    ensures { result ≡ any (past_at held.now) (length held.now / 8) }
{
    let surface = HeldWords { words: held };
    for k in 0..surface.whole() {
        if surface.record(k).past_greatest() {
            return true;
        }
    }
    false
}

// The file's bytes of held words, to the front of `bytes`: each record in two steps, as `copy_words` takes.
fn copy_bytes(held: &[u32], bytes: &mut [u8])
    requires room { (length held.now % 8 ≡ 0) × (4 * length held.now ≤ length bytes.old) }
    requires ids { any (past_at held.now) (length held.now / 8) ≡ false }
    ensures { Put bytes.old bytes.new 0 (bytes_of held.now) (4 * length held.now) }
{
    let surface = HeldWords { words: held };
    for k in 0..surface.whole() {
        put_file(bytes, 32 * k, &surface.record(k).words);
        let record = surface.record(k);
        if record.is_triangle() {
            put_file(bytes, 32 * k + 4 * LANE, &record.filed().words[LANE..]);
        }
    }
}

// The words of a file into `held`.
#[tactic(auto, using(crate::proofs::Laws::File::words_length, crate::proofs::Laws::File::whole_file), unfolding(shape::specs::Refusal::found, shape::specs::Refusal::told, shape::specs::Refusal::refuse, shape::specs::Refusal::judge, shape::specs::Refusal::leaves, shape::specs::Refusal::number_of, shape::specs::Refusal::place_of, crate::specs::File::copy_of, crate::specs::File::read_of))]
pub fn read(bytes: &[u8], held: &mut [u32]) -> Result<usize, Refusal>
    ensures result_value { told result ≡ read_of bytes.now (length held.old) }
    ensures held_after { held.new ≡ leaves (read_of bytes.now (length held.old)) (words_of bytes.now) held.old }
{
    file_fault(bytes)?;
    let wanted = bytes.len() / 4;
    refuse_if(held.len() < wanted, Refusal::ShortOutput(wanted))?;
    copy_words(bytes, held);
    Ok(wanted)
}

// The bytes of held words into `bytes`.
#[tactic(auto, using(crate::proofs::Laws::File::bytes_length, crate::proofs::Laws::File::whole_held), unfolding(shape::specs::Refusal::found, shape::specs::Refusal::told, shape::specs::Refusal::refuse, shape::specs::Refusal::judge, shape::specs::Refusal::leaves, shape::specs::Refusal::number_of, shape::specs::Refusal::place_of, crate::specs::File::copy_of, crate::specs::File::write_of))]
pub fn write(held: &[u32], bytes: &mut [u8]) -> Result<usize, Refusal>
    ensures result_value { told result ≡ write_of held.now (length bytes.old) }
    ensures bytes_after { bytes.new ≡ leaves (write_of held.now (length bytes.old)) (bytes_of held.now) bytes.old }
{
    held_fault(held)?;
    refuse_if(past_greatest(held), Refusal::Oversize(GREATEST_ID as usize))?;
    let wanted = 4 * held.len();
    refuse_if(bytes.len() < wanted, Refusal::ShortOutput(wanted))?;
    copy_bytes(held, bytes);
    Ok(wanted)
}
