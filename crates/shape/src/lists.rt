// Lists as they are lent: flat lists of coordinates and banks, lists of records, and the runs that
// records have of other lists. The accessors take any place, so that what stands above them needs no
// proof about indices; the checks of lists stand here alone.
#![tactic(auto, using(crate::proofs::Laws::Lists::word_inside, crate::proofs::Laws::Gather::any_next, crate::proofs::Laws::Lists::get_d_any, crate::proofs::Laws::Lists::part_cut, crate::proofs::Laws::Lists::last_end_lem, crate::proofs::Laws::Lists::without_difference), unfolding(crate::specs::Refusal::found, crate::specs::Refusal::refuse, crate::specs::Refusal::number_of, crate::specs::Refusal::place_of, crate::specs::Refusal::or_else, crate::specs::Gather::any, crate::specs::Lists::word_of, crate::specs::Lists::last_end, crate::specs::Lists::run_bad, crate::specs::Lists::run_long, crate::specs::Lists::point_at, crate::specs::Lists::vector_at, crate::specs::Lists::longer, crate::specs::Lists::uneven, crate::specs::Lists::mesh_limits, crate::specs::Lists::mesh_ragged, crate::specs::Lists::mesh_fault, crate::specs::MeshMemory::result_limits, vector::specs::Coords::zero_vector))]

ghost use Rattle.std.specs.Prelude.{◌≡◌, ◌+◌, ◌-◌, ◌*◌, ◌/◌, ◌%◌, ◌^◌, ◌<◌, min, not, ◌&&◌, ◌||◌, length, slice_index, slice_index_or, slice_range};
ghost use Rattle.shape.specs.Gather.{any};
ghost use Rattle.shape.specs.Refusal.{found};
ghost use Rattle.shape.specs.Ears.{after};
ghost use Rattle.shape.specs.Outline.{next_on};
ghost use Rattle.shape.specs.Lists.{span_words, vertices_word, indices_word, word_of, last_end, run_bad, run_long, point_at, vector_at, lists_of, mesh_limits, mesh_ragged, mesh_fault};

use crate::memory::Lengths;
use crate::refusal::{Refusal, refuse_if};
use vector::coords::{Point, Vector};

// ---- document 01's limits: `max_lane_points` and so on in the definitions

// A lane's points, tangents, widths or banks, and how many lanes.
pub const MAX_LANE_POINTS: usize = 4096;

pub const MAX_LANES: usize = 1024;

// A boundary: its segments and its points.
pub const MAX_SEGMENTS: usize = 256;

pub const MAX_BOUNDARY_POINTS: usize = 4096;

// The points of a ring to clip.
pub const MAX_RING: usize = 1024;

// A grid: its rows, and the heights on each side of a row.
pub const MAX_ROWS: usize = 1024;

pub const MAX_SIDE: usize = 1024;

// A mesh. The limit of normals is that of vertices.
pub const MAX_VERTICES: usize = 65536;

pub const MAX_INDICES: usize = 196608;

pub const MAX_SPANS: usize = 1024;

// ---- the words of a span: its lane's id, the start and the end of its vertices, and of its indices

pub const SPAN_WORDS: usize = 5;

pub const SPAN_ID: usize = 0;

const SPAN_VERTICES: usize = 1;

const SPAN_VERTICES_END: usize = 2;

pub const SPAN_INDICES: usize = 3;

pub const SPAN_INDICES_END: usize = 4;

// ---- elements

// The word at a place of a list, 0 past its end.
pub fn word_at(xs: &[u32], i: usize) -> usize
    ensures { (result ≡ slice_index xs.now i) × (result < 2 ^ 32) }
{
    if i < xs.len() { xs[i] as usize } else { 0 }
}

// Point i of a list of coordinates that is known to hold it whole. Nothing is tested, so the loop over the
// points that may block an ear reads by this.
pub(crate) fn whole_point(xs: &[f32], i: usize) -> Point
    requires { 3 * i + 2 < length xs.now }
    ensures { result ≡ point_at xs.now i }
{
    let at = 3 * i;
    Point {
        x: xs[at],
        y: xs[at + 1],
        z: xs[at + 2],
    }
}

// Point i of any list of coordinates; the origin where the list does not hold it whole.
pub fn point_at(xs: &[f32], i: usize) -> Point
    ensures { result ≡ point_at xs.now i }
{
    let n = xs.len() / 3;
    if i < n {
        return whole_point(xs, i);
    }
    Point::ORIGIN
}

// Vector i of a list of coordinates; zero where the list does not hold it whole.
pub fn vector_at(xs: &[f32], i: usize) -> Vector
    ensures { result ≡ vector_at xs.now i }
{
    if i < xs.len() / 3 {
        let at = 3 * i;
        return Vector {
            x: xs[at],
            y: xs[at + 1],
            z: xs[at + 2],
        };
    }
    Vector::ZERO
}

// The single at a place of a list, `other` past its end.
pub fn single_or(xs: &[f32], i: usize, other: f32) -> f32
    ensures { result ≡ slice_index_or xs.now i other }
{
    if i < xs.len() { xs[i] } else { other }
}

// ---- positions

// The position after i on a closed ring of n: the first after the last.
#[tactic(auto, using(crate::proofs::Laws::Ears::after_last, crate::proofs::Laws::Ears::after_rest), unfolding(crate::specs::Outline::next_on))]
pub(crate) fn index_after(i: usize, n: usize) -> usize
    requires { i < 2 ^ 61 }
    ensures next { result ≡ next_on n i }
    ensures on_ring { i < n → (result ≡ after n i) × (result < n) }
{
    if i + 1 == n { 0 } else { i + 1 }
}

// ---- parts

// The part of a list from a to e, as far as there is one.
pub fn part<T>(xs: &[T], a: usize, e: usize) -> &[T]
    ensures { result.now ≡ slice_range xs.now a e }
{
    let to = e.min(xs.len());
    let from = a.min(to);
    &xs[from..to]
}

// ---- records and their runs

// Word j of record k, in a list of records of `width` words, 0 past the list's end. A place past every number is
// past the list too.
pub fn record_word(ws: &[u32], width: usize, k: usize, j: usize) -> usize
    ensures { (result ≡ word_of width ws.now k j) × (result < 2 ^ 32) }
{
    word_at(ws, width.saturating_mul(k).saturating_add(j))
}

// Records of WIDTH words as they are lent, and what part of one may follow them. A run's start is word `a`
// of its record and its end the word after it.
#[derive(Clone, Copy)]
pub struct Records<'a, const WIDTH: usize> {
    pub words: &'a [u32],
}

impl<const WIDTH: usize> Records<'_, WIDTH> {
    // How many whole records there are.
    pub(crate) fn len(self) -> usize
        requires { 0 < WIDTH }
        ensures { result ≡ length self.entry.words.now / WIDTH }
    {
        self.words.len() / WIDTH
    }

    // Word j of record k, 0 past the list's end.
    pub fn word(self, k: usize, j: usize) -> usize
        ensures { (result ≡ word_of WIDTH self.entry.words.now k j) × (result < 2 ^ 32) }
    {
        record_word(self.words, WIDTH, k, j)
    }

    // Word j of a whole record. Nothing is tested.
    pub(crate) fn whole_word(self, k: usize, j: usize) -> usize
        requires { (k < length self.words.now / WIDTH) × (j < WIDTH) }
        ensures { (result ≡ word_of WIDTH self.entry.words.now k j) × (result < 2 ^ 32) }
    {
        self.words[WIDTH * k + j] as usize
    }

    // Where the run of the record before k ended, 0 for the first record.
    fn last_end(self, a: usize, k: usize) -> usize
        requires { (k < length self.words.now / WIDTH) × (a + 1 < WIDTH) }
        ensures { result ≡ last_end WIDTH a self.entry.words.now k }
    {
        if k == 0 {
            return 0;
        }
        self.whole_word(k - 1, a + 1)
    }

    // Is the run of record k ragged, for a list of n elements?
    fn run_bad(self, a: usize, n: usize, k: usize) -> bool
        requires { (k < length self.words.now / WIDTH) × (a + 1 < WIDTH) }
        ensures { result ≡ run_bad WIDTH a self.entry.words.now n k }
    {
        let start = self.whole_word(k, a);
        let end = self.whole_word(k, a + 1);
        (end < start) | (start < self.last_end(a, k)) | (n < end)
    }

    // Is the run of record k longer than the limit?
    fn run_long(self, a: usize, limit: usize, k: usize) -> bool
        requires { (k < length self.words.now / WIDTH) × (a + 1 < WIDTH) × (limit < 2 ^ 32) }
        ensures { result ≡ run_long WIDTH a self.entry.words.now limit k }
    {
        self.whole_word(k, a) + limit < self.whole_word(k, a + 1)
    }

    // Is any run ragged?
    pub(crate) fn any_bad(self, a: usize, n: usize) -> bool
        requires { a + 1 < WIDTH }
        ensures { let ws = self.entry.words.now in result ≡ any (run_bad WIDTH a ws n) (length ws / WIDTH) }
    {
        for k in 0..self.len() {
            if self.run_bad(a, n, k) {
                return true;
            }
        }
        false
    }

    // Is any run longer than the limit?
    pub(crate) fn any_long(self, a: usize, limit: usize) -> bool
        requires { (a + 1 < WIDTH) × (limit < 2 ^ 32) }
        ensures { let ws = self.entry.words.now in result ≡ any (run_long WIDTH a ws limit) (length ws / WIDTH) }
    {
        for k in 0..self.len() {
            if self.run_long(a, limit, k) {
                return true;
            }
        }
        false
    }
}

// ---- meshes

// A mesh as it is lent: the coordinates of its vertices and of its normals in threes, the vertex numbers
// of its triangles in threes, and the lanes' spans.
#[derive(Clone, Copy)]
pub struct Mesh<'a> {
    pub vertices: &'a [f32],
    pub normals: &'a [f32],
    pub indices: &'a [u32],
    pub spans: &'a [u32],
}

// Do the runs of the spans rise, each start from the last end and each end from its start, and do they
// keep within n vertices and k indices? The single lookup asks this at every point, so in one pass that
// is left where it fails, and apart from its caller, whose many values would push the loop's out of registers.
#[inline(never)]
fn runs_rise(spans: &[u32], n: usize, k: usize) -> bool
    ensures { let ss = spans.now in let m = length ss / span_words in result ≡ not (any (run_bad span_words vertices_word ss n) m || any (run_bad span_words indices_word ss k) m) }
{
    let mut vertex: usize = 0;
    let mut index: usize = 0;
    for i in 0..spans.len() / SPAN_WORDS {
        let at = SPAN_WORDS * i;
        let a = spans[at + SPAN_VERTICES] as usize;
        let b = spans[at + SPAN_VERTICES_END] as usize;
        let c = spans[at + SPAN_INDICES] as usize;
        let d = spans[at + SPAN_INDICES_END] as usize;
        if a < vertex || b < a || c < index || d < c {
            return false;
        }
        vertex = b;
        index = d;
    }
    vertex <= n && index <= k
}

impl Mesh<'_> {
    // How many whole vertices there are.
    pub fn points(self) -> usize
        ensures { result ≡ length self.entry.vertices.now / 3 }
    {
        self.vertices.len() / 3
    }

    // How many triangles of three indices there are.
    pub fn triangles(self) -> usize
        ensures { result ≡ length self.entry.indices.now / 3 }
    {
        self.indices.len() / 3
    }

    // Which list is past its limit, if any is.
    pub fn limits(self) -> Result<(), Refusal>
        ensures { found result ≡ mesh_limits (lists_of self.entry) }
    {
        Lengths {
            vertices: self.vertices.len(),
            normals: self.normals.len(),
            indices: self.indices.len(),
            spans: self.spans.len(),
        }
        .limits()
    }

    // Which list is ragged, if any is, where the mesh's lists stand in the call from `first` on.
    pub fn ragged(self, first: u32) -> Result<(), Refusal>
        ensures { found result ≡ mesh_ragged first (lists_of self.entry) }
    {
        let p = first as usize;
        refuse_if(self.vertices.len() % 3 != 0, Refusal::Ragged(p))?;
        refuse_if(self.normals.len() % 3 != 0, Refusal::Ragged(p + 1))?;
        refuse_if(self.spans.len() % SPAN_WORDS != 0, Refusal::Ragged(p + 3))?;
        let rise = runs_rise(self.spans, self.points(), self.indices.len());
        refuse_if(!rise, Refusal::Ragged(p + 3))
    }

    // Why the lists are turned back, if they are. Every call that takes a mesh asks this; a list past its
    // limit is not read through.
    pub fn check(self) -> Result<(), Refusal>
        ensures { found result ≡ mesh_fault (lists_of self.entry) }
    {
        self.limits()?;
        self.ragged(0)
    }
}
