// The strips of lanes, merged into one mesh (`RoadNetwork::surface_mesh`).
#![tactic(auto, unfolding(crate::specs::Refusal::found, crate::specs::Refusal::refuse, crate::specs::Refusal::number_of, crate::specs::Refusal::place_of, crate::specs::Refusal::or_else, crate::specs::Lists::longer, crate::specs::Lists::uneven, crate::specs::SurfaceMesh::lane_limits, crate::specs::SurfaceMesh::runs_ragged, crate::specs::SurfaceMesh::lane_ragged, crate::specs::SurfaceMesh::input_fault, crate::specs::SurfaceMesh::counts_of))]

ghost use Rattle.std.specs.Prelude.{MatchResult, ◌≡◌, ◌/◌, ◌^◌, ◌<◌, false, length};
ghost use Rattle.shape.specs.Refusal.{found, told, fine};
ghost use Rattle.shape.specs.Lists.{max_lane_points, word_of, run_long, mesh_lists};
ghost use Rattle.shape.specs.MeshMemory.{lengths_of, room_fault, leaves_mesh};
ghost use Rattle.shape.specs.Strip.{lane_of};
ghost use Rattle.shape.specs.SurfaceMesh.{lane_words, points_word, given_of, lanes_of, lane_run, lane_at, lane_limits, runs_ragged, lane_ragged, input_fault, mesh_of, counts_of, answer_of};
ghost use Rattle.shape.specs.MeshSteps.{Topped, Enough, Sizes, Written, Fitting};

use crate::lists::{MAX_LANE_POINTS, MAX_LANES, Records, SPAN_WORDS, part};
use crate::memory::{Lengths, room_fault};
use crate::refusal::{Refusal, refuse_if};
use crate::rib::Lane;
use crate::strip::{At, put_strip, size_strip};
use rounding::bits::from_bits32;

// ---- the words of a lane: its id; the start and the end of its points, of its tangents, of its widths and of
// its banks; the bits of its default width

const LANE_WORDS: usize = 10;

const LANE_ID: usize = 0;

const LANE_POINTS: usize = 1;

const LANE_POINTS_END: usize = 2;

const LANE_TANGENTS: usize = 3;

const LANE_WIDTHS: usize = 5;

const LANE_BANKS: usize = 7;

const LANE_WIDTH: usize = 9;

// ---- all lanes

// Lanes as they are lent: the coordinates of their points and of their tangents in threes, their widths,
// their banks in twos as sine and cosine, and a record of ten words for each lane.
#[derive(Clone, Copy)]
pub struct Lanes<'a> {
    pub points: &'a [f32],
    pub tangents: &'a [f32],
    pub widths: &'a [f32],
    pub banks: &'a [f32],
    pub records: &'a [u32],
}

impl<'a> Lanes<'a> {
    // The records, of ten words each.
    fn words(self) -> Records<'a, LANE_WORDS>
        ensures { result.words.now ≡ self.entry.records.now }
    {
        Records {
            words: self.records,
        }
    }

    // Word j of lane k.
    fn word(self, k: usize, j: usize) -> usize
        ensures { (result ≡ word_of lane_words self.entry.records.now k j) × (result < 2 ^ 32) }
    {
        self.words().word(k, j)
    }

    // How many there are.
    fn count(self) -> usize
        ensures { result ≡ lanes_of (given_of self.entry) }
    {
        self.words().len()
    }

    // Lane k's run of a list whose elements are of u numbers. Word a of the lane is its start.
    #[tactic(auto, unfolding(crate::specs::SurfaceMesh::lane_run, crate::specs::Lists::run_of))]
    fn run(self, u: usize, xs: &'a [f32], a: usize, k: usize) -> &'a [f32]
        requires { (a < 8) × (u < 4) }
        ensures { result.now ≡ lane_run u xs.now self.entry.records.now a k }
    {
        let s = u * self.word(k, a);
        let e = u * self.word(k, a + 1);
        part(xs, s, e)
    }

    // Lane k.
    #[tactic(auto, unfolding(crate::specs::SurfaceMesh::lane_at))]
    fn lane(self, k: usize) -> Lane<'a>
        ensures { lane_of result ≡ lane_at (given_of self.entry) k }
    {
        Lane {
            points: self.run(3, self.points, LANE_POINTS, k),
            tangents: self.run(3, self.tangents, LANE_TANGENTS, k),
            widths: self.run(1, self.widths, LANE_WIDTHS, k),
            banks: self.run(2, self.banks, LANE_BANKS, k),
            width: from_bits32(self.word(k, LANE_WIDTH) as u32),
        }
    }
}

// ---- whether they are turned back

impl<'a> Lanes<'a> {
    // Runs and lanes past their limits.
    fn limits(self) -> Result<(), Refusal>
        ensures { found result ≡ lane_limits self.entry.records.now }
    {
        let words = self.words();
        let long = Refusal::Oversize(MAX_LANE_POINTS);
        refuse_if(words.any_long(LANE_POINTS, MAX_LANE_POINTS), long)?;
        refuse_if(words.any_long(LANE_TANGENTS, MAX_LANE_POINTS), long)?;
        refuse_if(words.any_long(LANE_WIDTHS, MAX_LANE_POINTS), long)?;
        refuse_if(words.any_long(LANE_BANKS, MAX_LANE_POINTS), long)?;
        refuse_if(
            LANE_WORDS * MAX_LANES < self.records.len(),
            Refusal::Oversize(MAX_LANES),
        )
    }

    // Runs out of order or past their lists.
    fn runs_ragged(self) -> Result<(), Refusal>
        ensures { found result ≡ runs_ragged (given_of self.entry) }
    {
        let words = self.words();
        let ragged = Refusal::Ragged(4);
        refuse_if(words.any_bad(LANE_POINTS, self.points.len() / 3), ragged)?;
        refuse_if(
            words.any_bad(LANE_TANGENTS, self.tangents.len() / 3),
            ragged,
        )?;
        refuse_if(words.any_bad(LANE_WIDTHS, self.widths.len()), ragged)?;
        refuse_if(words.any_bad(LANE_BANKS, self.banks.len() / 2), ragged)
    }

    // Lists not in their units, and such runs.
    fn ragged(self) -> Result<(), Refusal>
        ensures { found result ≡ lane_ragged (given_of self.entry) }
    {
        refuse_if(self.points.len() % 3 != 0, Refusal::Ragged(0))?;
        refuse_if(self.tangents.len() % 3 != 0, Refusal::Ragged(1))?;
        refuse_if(self.banks.len() % 2 != 0, Refusal::Ragged(3))?;
        refuse_if(self.records.len() % LANE_WORDS != 0, Refusal::Ragged(4))?;
        self.runs_ragged()
    }

    // The lanes as ones that are checked, or why they are turned back.
    fn check(self) -> Result<Checked<'a>, Refusal>
        ensures { MatchResult result (λ c. c.lanes ≡ self.entry) (λ r. found (Err r) ≡ input_fault (given_of self.entry)) }
    {
        self.limits()?;
        self.ragged()?;
        Ok(Checked { lanes: self })
    }
}

// ---- checked lanes

// Lanes whose lists are not turned back.
#[derive(Clone, Copy)]
struct Checked<'a> {
    lanes: Lanes<'a>,
    ghost sound: { input_fault (given_of lanes) ≡ fine },
}

// The most that lane k can add to the sizes: a rib for each point, or two.
#[tactic(auto, using(crate::proofs::Meshing::not_long))]
fn most_lane(lanes: Lanes, k: usize, at: At) -> At
    requires { (run_long lane_words points_word lanes.records.now max_lane_points k ≡ false) × (at.floats < 2 ^ 60) × (at.index < 2 ^ 60) × (at.word < 2 ^ 60) }
    ensures { Topped lanes.entry.records.now k at result }
{
    let s = lanes.word(k, LANE_POINTS);
    let e = lanes.word(k, LANE_POINTS_END);
    let n = e.saturating_sub(s).max(2);
    At {
        floats: at.floats + 6 * n,
        index: at.index + 6 * (n - 1),
        word: at.word + SPAN_WORDS,
    }
}

impl Checked<'_> {
    // The sizes of their mesh.
    fn totals(self) -> At
        ensures { let g = given_of self.entry.lanes in Sizes g (lanes_of g) result }
    {
        let mut kept = [0u32; MAX_LANE_POINTS];
        let mut at = At::START;
        for k in 0..self.lanes.count() {
            at = size_strip(self.lanes.lane(k), &mut kept, at);
        }
        at
    }

    // The most that they can give.
    fn most_sizes(self) -> At
        ensures { let g = given_of self.entry.lanes in Enough g (lanes_of g) result }
    {
        let mut at = At::START;
        for k in 0..self.lanes.count() {
            at = most_lane(self.lanes, k, at);
        }
        at
    }

    // Why their mesh is not written, if it is not. Where the most that they can give fits, nothing need be
    // counted first.
    fn room(self, lent: Lengths) -> Result<(), Refusal>
        ensures { found result ≡ room_fault (lengths_of (mesh_of (given_of self.entry.lanes))) lent }
    {
        if room_fault(Lengths::from(self.most_sizes()), lent).is_ok() {
            return Ok(());
        }
        room_fault(Lengths::from(self.totals()), lent)
    }

    // Their mesh into the memory.
    fn put(
        self,
        vertices: &mut [f32],
        normals: &mut [f32],
        indices: &mut [u32],
        spans: &mut [u32],
    ) -> At
        requires { let g = given_of self.lanes in Fitting g (lanes_of g) vertices.old normals.old indices.old spans.old }
        ensures { let g = given_of self.entry.lanes in
            Written g (lanes_of g) result
            vertices.old vertices.new normals.old normals.new
            indices.old indices.new spans.old spans.new }
    {
        let mut kept = [0u32; MAX_LANE_POINTS];
        let mut at = At::START;
        for k in 0..self.lanes.count() {
            let id = self.lanes.word(k, LANE_ID);
            at = put_strip(
                self.lanes.lane(k),
                id,
                &mut kept,
                at,
                vertices,
                normals,
                indices,
                spans,
            );
        }
        at
    }
}

// ---- the call

// What was made: vertices and normals in points, indices in numbers, spans in spans.
#[derive(Clone, Copy)]
pub struct MeshCounts {
    pub vertices: usize,
    pub normals: usize,
    pub indices: usize,
    pub spans: usize,
}

impl From<Lengths> for MeshCounts {
    ghost from_gives = { λ made counts. counts ≡ counts_of made };

    fn from(made: Lengths) -> Self {
        MeshCounts {
            vertices: made.vertices / 3,
            normals: made.normals / 3,
            indices: made.indices,
            spans: made.spans / SPAN_WORDS,
        }
    }
}

// The strips of all lanes, one after another, into the lent memory. A lane is ten words: its id; start
// and end of its points, tangents, widths and banks; the bits of its default width. A span is five: the
// lane's id; start and end of its vertices and of its indices.
pub fn surface_mesh(
    lanes: Lanes,
    vertices: &mut [f32],
    normals: &mut [f32],
    indices: &mut [u32],
    spans: &mut [u32],
) -> Result<MeshCounts, Refusal>
    ensures result_value { let g = given_of lanes.entry in
        let before = mesh_lists vertices.old normals.old indices.old spans.old in
        told result ≡ answer_of g before }
    ensures mesh_after { let g = given_of lanes.entry in
        let before = mesh_lists vertices.old normals.old indices.old spans.old in
        let after = mesh_lists vertices.new normals.new indices.new spans.new in
        after ≡ leaves_mesh (answer_of g before) (mesh_of g) before }
{
    let lent = Lengths {
        vertices: vertices.len(),
        normals: normals.len(),
        indices: indices.len(),
        spans: spans.len(),
    };
    let checked = lanes.check()?;
    checked.room(lent)?;
    let at = checked.put(vertices, normals, indices, spans);
    Ok(MeshCounts::from(Lengths::from(at)))
}
