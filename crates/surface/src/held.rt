// The mesh and the questions that a file stands for, read straight from its bytes: as a sound file is held,
// all words are the same but those of a lane.
ghost use Rattle.std.specs.Prelude.{◌≡◌, ◌+◌, ◌*◌, ◌/◌, ◌^◌, ◌≤◌, ◌<◌, length};
ghost use Rattle.shape.specs.Gather.{gather};
ghost use Rattle.shape.specs.Memory.{Put};
ghost use Rattle.shape.specs.Lists.{word_of};
ghost use Rattle.shape.specs.Refusal.{fine};
ghost use Rattle.surface.specs.File.{vertex_kind, decode, words_of, file_fault};
ghost use Rattle.surface.specs.Kind.{number};
ghost use Rattle.surface.specs.Held.{count_kind, sizes_of, single_in, three_in, vertices_in, normals_in, indices_in, lane_in, question_at, points_of};

use crate::file::{Kind, LANE, file_lane, word_at};
use crate::memory::put;
use rounding::bits::from_bits32;

// The words of a record, in a file as it is held, of three or two in a row the first: of a vertex, of a
// triangle, and of a question.
const PLACE: usize = 1;

const NORMAL: usize = 4;

const CORNERS: usize = 1;

const POINT: usize = 1;

// How many records of each kind there are.
#[derive(Clone, Copy)]
pub struct Sizes {
    pub vertices: usize,
    pub triangles: usize,
    pub questions: usize,
}

// Where a question asks.
#[derive(Clone, Copy)]
pub struct Question {
    pub x: f32,
    pub y: f32,
}

// Word j of record k of the file, 0 past the end.
#[tactic(auto, unfolding(shape::specs::Lists::word_of))]
fn word(bytes: &[u8], k: usize, j: usize) -> u32
    requires { (k < 2 ^ 40) × (j < 8) }
    ensures { result ≡ word_of 8 (decode bytes.now) k j }
{
    word_at(bytes, 8 * k + j)
}

// How many records of a sound file are of this kind.
#[tactic(auto, using(crate::proofs::Laws::File::words_length, crate::proofs::Laws::File::whole_file))]
fn count_kind(bytes: &[u8], kind: Kind) -> usize
    requires { file_fault bytes.now ≡ fine }
    ensures { result ≡ count_kind (words_of bytes.now) (number kind) }
{
    let mut found = 0;
    for k in 0..bytes.len() / 32 {
        found += (word(bytes, k, 0) == kind.number()) as usize;
    }
    found
}

// A sound file, and how many records of each kind it has.
#[derive(Clone, Copy)]
pub(crate) struct Surface<'a> {
    pub bytes: &'a [u8],
    pub sizes: Sizes,
    ghost sound: { file_fault bytes.now ≡ fine },
    ghost few: { length (words_of bytes.now) ≤ 16384 },
    ghost sized: { sizes ≡ sizes_of (words_of bytes.now) },
    ghost within: { (sizes.vertices ≤ 2048) × (sizes.triangles ≤ 2048) × (sizes.questions ≤ 2048) },
}

impl<'a> Surface<'a> {
    ghost use Rattle.surface.specs.Lent.{words_in};

    // A file that is not turned back.
    pub(crate) fn new(bytes: &'a [u8]) -> Surface<'a>
        requires { file_fault bytes.now ≡ fine }
        ensures { result.bytes.now ≡ bytes.now }
    {
        let sizes = Sizes {
            vertices: count_kind(bytes, Kind::Vertex),
            triangles: count_kind(bytes, Kind::Triangle),
            questions: count_kind(bytes, Kind::Question),
        };
        Surface { bytes, sizes }
    }

    // The single in word j of record k of the file.
    #[tactic(auto, unfolding(crate::specs::Held::single_in))]
    fn single(self, k: usize, j: usize) -> f32
        requires { (k < 2 ^ 40) × (j < 8) }
        ensures { result ≡ single_in (decode self.entry.bytes.now) k j }
    {
        from_bits32(word(self.bytes, k, j))
    }

    // ---- the lists of the mesh

    // Three singles from word j of each vertex on, to the front of `out`.
    fn unpack_threes(self, j: usize, out: &mut [f32])
        requires { (j < 6) × (3 * self.sizes.vertices ≤ length out.old) }
        ensures { let ws = words_in self.entry in Put out.old out.new 0 (gather (three_in ws j) (count_kind ws vertex_kind)) (3 * self.entry.sizes.vertices) }
    {
        for k in 0..self.sizes.vertices {
            let three = [
                self.single(k, j),
                self.single(k, j + 1),
                self.single(k, j + 2),
            ];
            put(out, 3 * k, &three);
        }
    }

    // The places of all vertices, to the front of `out`.
    #[tactic(auto, unfolding(crate::specs::Held::vertices_in, crate::specs::Held::place_in))]
    pub(crate) fn unpack_vertices(self, out: &mut [f32])
        requires { 3 * self.sizes.vertices ≤ length out.old }
        ensures { Put out.old out.new 0 (vertices_in (words_in self.entry)) (3 * self.entry.sizes.vertices) }
    {
        self.unpack_threes(PLACE, out)
    }

    // The normals of all vertices, to the front of `out`.
    #[tactic(auto, unfolding(crate::specs::Held::normals_in, crate::specs::Held::normal_in))]
    pub(crate) fn unpack_normals(self, out: &mut [f32])
        requires { 3 * self.sizes.vertices ≤ length out.old }
        ensures { Put out.old out.new 0 (normals_in (words_in self.entry)) (3 * self.entry.sizes.vertices) }
    {
        self.unpack_threes(NORMAL, out)
    }

    // The corners of all triangles, to the front of `out`.
    pub(crate) fn unpack_indices(self, out: &mut [u32])
        requires { 3 * self.sizes.triangles ≤ length out.old }
        ensures { Put out.old out.new 0 (indices_in (words_in self.entry)) (3 * self.entry.sizes.triangles) }
    {
        let first = self.sizes.vertices;
        for t in 0..self.sizes.triangles {
            let corners = [
                word(self.bytes, first + t, CORNERS),
                word(self.bytes, first + t, CORNERS + 1),
                word(self.bytes, first + t, CORNERS + 2),
            ];
            put(out, 3 * t, &corners);
        }
    }

    // ---- lanes and questions

    // The lane of triangle t, if it has one.
    #[tactic(auto, using(crate::proofs::Laws::Held::sized, crate::proofs::Laws::Held::lane_told), unfolding(crate::specs::Held::triangle_record))]
    pub(crate) fn lane_of(self, t: usize) -> Option<u32>
        requires { t < 2 ^ 32 }
        ensures { result ≡ lane_in (words_in self.entry) t }
    {
        file_lane(word(self.bytes, self.sizes.vertices + t, LANE))
    }

    // Where question k asks.
    #[tactic(auto, using(crate::proofs::Laws::Held::sized, crate::proofs::Laws::Held::point_single), unfolding(crate::specs::Held::question_at, crate::specs::Held::question_record))]
    pub(crate) fn question_at(self, k: usize) -> Question
        requires { k < 2 ^ 32 }
        ensures { result ≡ question_at (words_in self.entry) k }
    {
        let record = self.sizes.vertices + self.sizes.triangles + k;
        Question {
            x: self.single(record, POINT),
            y: self.single(record, POINT + 1),
        }
    }

    // The points of all questions, in pairs, to the front of `out`.
    pub(crate) fn unpack_points(self, out: &mut [f32])
        requires { 2 * self.sizes.questions ≤ length out.old }
        ensures { Put out.old out.new 0 (points_of (words_in self.entry)) (2 * self.entry.sizes.questions) }
    {
        for k in 0..self.sizes.questions {
            let q = self.question_at(k);
            put(out, 2 * k, &[q.x, q.y]);
        }
    }
}
