// What is there for the speed of building alone. Each function's contract is that of the plain form. The compiler
// works the bounds of a box out two at a time and its columns four at a time, where the code lets it; each pass
// keeps the cells of 64 triangles before it uses them; and a bound on the entries saves the pass that counts them.
// The loops over triangles do only what all but a few need, with one test for the rest, a missing corner or a NaN;
// where there is such a one, a slower loop goes over the same triangles again. The slow way within these loops took
// a tenth more, since the compiler then joins both ways and moves the bounds about. What building takes with all this,
// and with the rows of `grid` that are counted and filled without a branch, stands in docs/FIGURES.md.
ghost use Rattle.std.specs.Prelude.{◌≡◌, ℕ, ◌+◌, ◌-◌, ◌*◌, ◌^◌, ◌<◌, ◌≤◌, min, true, List, length, if◌then◌else◌, Float, Some, None};
ghost use Rattle.std.specs.Float.{binary32};
ghost use Rattle.std.specs.Float.Ieee.{lt, to_unsigned};
ghost use Rattle.lookup.specs.Column.{col};
ghost use Rattle.rounding.specs.Extremes.{min_of, max_of};
ghost use Rattle.rounding.specs.Numbers.{IsNum};
ghost use Rattle.lookup.specs.Column.{Width};
ghost use Rattle.lookup.specs.Mesh.{triangles};
ghost use Rattle.lookup.specs.Box.{around_of, box_of};
ghost use Rattle.lookup.specs.Index.{block_of, in_cell, cells_of, start};
ghost use Rattle.lookup.specs.Steps.{Tells, Picked, Sound, Narrow, Reaches, Below, UpTo, Short, opened, kept_in, from, Kept};

use crate::boxes::{Aabb, around_any, grown, join};
use crate::frame::{Axis, Block, Grid};
use crate::grid::Layout;
use crate::mesh::{Triangle, corners};
use shape::lists::Mesh;

// ---- boxes

// The smaller of two where the first is a number, by one instruction; `min` takes a test more for a NaN in the
// first. The result is a NaN only where the first is one. The scan of a run takes it for the least weight too.
#[tactic(auto, using(crate::proofs::Picking::lower_moves, crate::proofs::Picking::lower_stays))]
pub(crate) fn lower(x: f32, y: f32) -> f32
    ensures { Picked min_of x y result }
{
    if y < x { y } else { x }
}

// The larger of two, alike.
#[tactic(auto, using(crate::proofs::Picking::upper_moves, crate::proofs::Picking::upper_stays))]
fn upper(x: f32, y: f32) -> f32
    ensures { Picked max_of x y result }
{
    if x < y { y } else { x }
}

// The box around a triangle by plain comparisons, right where its lower bounds are numbers. The lower bounds are
// worked out together, and the upper ones, so that the compiler does each pair in one instruction.
fn compared(t: Triangle) -> Aabb
    ensures { IsNum result.min_x → IsNum result.min_y → result ≡ around_of t.a t.b t.c }
{
    let Triangle { a, b, c } = t;
    Aabb {
        min_x: lower(lower(a.x, b.x), c.x),
        max_x: upper(upper(a.x, b.x), c.x),
        min_y: lower(lower(a.y, b.y), c.y),
        max_y: upper(upper(a.y, b.y), c.y),
    }
}

// The same, or none: a NaN in the first corner makes the sum of the lower bounds a NaN.
fn around_plain(t: Triangle) -> Option<Aabb>
    ensures { (e : Aabb) → result ≡ Some e → e ≡ around_of t.a t.b t.c }
{
    let e = compared(t);
    let both = e.min_x + e.min_y;
    if both != both {
        return None;
    }
    Some(e)
}

// The box around a triangle: by plain comparisons where its first corner has no NaN.
fn around(t: Triangle) -> Aabb
    ensures { result ≡ around_of t.a t.b t.c }
{
    around_plain(t).unwrap_or_else(|| around_any(t))
}

// Are all bounds numbers?
#[tactic(auto, using(shape::proofs::Reaching::own_number))]
fn sound(b: Aabb) -> bool
    ensures { result ≡ true → Sound b }
{
    b.min_x == b.min_x && b.max_x == b.max_x && b.min_y == b.min_y && b.max_y == b.max_y
}

// ---- the tally of the boxes

// A mesh that has passed its check: it has no more than 65,536 triangles.
#[derive(Clone, Copy)]
pub(crate) struct Checked<'a> {
    pub mesh: Mesh<'a>,
    ghost few: { length mesh.indices.now ≤ 196608 },
}

// How wide and how high the boxes are: none is wider or higher.
#[derive(Clone, Copy)]
pub(crate) struct Sides {
    pub width: f32,
    pub height: f32,
}

// What is known of the triangles: how many have a box, the box around these, and how wide and high they are, unless
// the sides of one are NaN.
#[derive(Clone, Copy)]
pub(crate) struct Tally {
    pub count: u32,
    pub extent: Option<Aabb>,
    pub sides: Option<Sides>,
}

// Is no number a NaN? It only chooses the way of tallying, and nothing rests on it: without it a mesh that has a NaN
// would be tallied twice, and building take a seventh longer.
fn no_nan(vertices: &[f32]) -> bool {
    let mut whole = true;
    for x in vertices {
        whole &= *x == *x;
    }
    whole
}

impl Checked<'_> {
    // The tally of the triangles, whatever they are.
    fn tally_any(self) -> Tally
        ensures { let m = self.entry.mesh in Tells m.vertices.now m.indices.now (triangles m.indices.now) result }
    {
        let mut count: u32 = 0;
        let mut extent = None;
        let mut narrow = true;
        let mut width: f32 = 0.0;
        let mut height: f32 = 0.0;
        for t in 0..self.mesh.triangles() {
            let Some(triangle) = corners(self.mesh, t) else {
                continue;
            };
            count += 1;
            let g = grown(around(triangle));
            extent = Some(join(extent, g));
            let wide = g.max_x - g.min_x;
            let high = g.max_y - g.min_y;
            let both = wide + high;
            if both != both {
                narrow = false; // a side is a NaN
                continue;
            }
            width = upper(width, wide);
            height = upper(height, high);
        }
        Tally {
            count,
            extent,
            sides: narrow.then_some(Sides { width, height }),
        }
    }

    // The same, where triangle 0 has the box `first` and its bounds are numbers, or none where the sides of a box are
    // NaN. The extent's lower bounds are worked out before the test and kept on both its ways, and the upper ones
    // after it, so that the compiler works each two out in one instruction: with all four after it, building took a
    // tenth more.
    fn tally_on(self, first: Aabb) -> Option<Tally>
        requires some { 0 < triangles self.mesh.indices.now }
        requires sound { Sound first × (box_of self.mesh.vertices.now self.mesh.indices.now 0 ≡ Some first) }
        ensures { let m = self.entry.mesh in (t : Tally) → result ≡ Some t → Tells m.vertices.now m.indices.now (triangles m.indices.now) t }
    {
        let mut count: u32 = 0;
        let mut extent = first;
        let mut narrow = true;
        let mut width: f32 = 0.0;
        let mut height: f32 = 0.0;
        for t in 0..self.mesh.triangles() {
            let Some(triangle) = corners(self.mesh, t) else {
                continue;
            };
            count += 1;
            let g = grown(compared(triangle));
            let w = g.max_x - g.min_x;
            let h = g.max_y - g.min_y;
            let min_x = lower(extent.min_x, g.min_x);
            let min_y = lower(extent.min_y, g.min_y);
            let both = w + h;
            if both != both {
                narrow = false; // and the rest is void
                extent = Aabb {
                    min_x,
                    max_x: first.max_x,
                    min_y,
                    max_y: first.max_y,
                };
                continue;
            }
            let max_x = upper(extent.max_x, g.max_x);
            let max_y = upper(extent.max_y, g.max_y);
            extent = Aabb {
                min_x,
                max_x,
                min_y,
                max_y,
            };
            width = upper(width, w);
            height = upper(height, h);
        }
        narrow.then_some(Tally {
            count,
            extent: Some(extent),
            sides: Some(Sides { width, height }),
        })
    }

    // The tally of the triangles.
    #[tactic(auto, using(crate::proofs::Laws::Plain::present_below), unfolding(crate::specs::Mesh::corners_of))]
    pub(crate) fn tally(self) -> Tally
        ensures { let m = self.entry.mesh in Tells m.vertices.now m.indices.now (triangles m.indices.now) result }
    {
        let Some(triangle) = corners(self.mesh, 0) else {
            return self.tally_any();
        };
        let first = grown(around(triangle));
        if sound(first) && no_nan(self.mesh.vertices) {
            if let Some(tally) = self.tally_on(first) {
                return tally;
            }
        }
        self.tally_any()
    }
}

// ---- the cells of a box

// 1 where x lies below y, else 0.
fn below(x: f32, y: f32) -> u32
    ensures { result ≡ (if lt x y then 1 else 0) }
{
    (x < y) as u32
}

impl Axis {
    // The whole part of q, as `cut` has it, without a branch, so that four are worked out at once, as building wants.
    // For one point, whose candidates wait for it, it takes longer than `cut`: a lookup with it took about 6 ns more.
    // `c` is q brought between 0 and the last column. From 2^23 on a single is whole, so the sum rounds c to a whole
    // number, which its bits count on from those of 2^23; where that lies past c it is one too many.
    fn cut_straight(self, q: f32) -> usize
        ensures { result ≡ min (to_unsigned 64 q) (self.count - 1) }
    {
        let last = std::num::nearest_u32_to_f32((self.count - 1) as u32);
        let c = lower(last, upper(0.0, q));
        let sum = c + 8388608.0;
        let near = f32::to_bits(sum) - 0x4b00_0000;
        (near - below(c, sum - 8388608.0)) as usize
    }

    // The column of x, as `col` has it, without a branch.
    #[tactic(auto, using(crate::proofs::Laws::Column::bucket_cut), unfolding(crate::specs::Column::col))]
    fn col_straight(self, x: f32) -> usize
        ensures { result ≡ col binary32 self.low self.cell self.count x }
    {
        self.cut_straight((x - self.low) / self.cell)
    }
}

impl Grid {
    // The cells of a box.
    #[tactic(auto, unfolding(crate::specs::Index::block_of))]
    fn block_in(self, b: Aabb) -> Block
        ensures { result ≡ block_of self.frame (Some b) }
    {
        let columns = self.columns();
        let rows = self.rows();
        Block {
            left: columns.col_straight(b.min_x),
            right: columns.col_straight(b.max_x),
            low: rows.col_straight(b.min_y),
            high: rows.col_straight(b.max_y),
        }
    }
}

// ---- blocks that are kept, 64 at a time: in 512 bytes of the stack. To keep those of all triangles was quicker still,
// but took 530 KB

// A block as it is kept: in 8 bytes.
#[derive(Clone, Copy)]
pub(crate) struct KeptBlock {
    left: u16,
    low: u16,
    right: u16,
    high: u16,
}

// What stands where none is kept yet.
pub(crate) const NO_BLOCK: KeptBlock = KeptBlock {
    left: 0,
    low: 0,
    right: 0,
    high: 0,
};

impl From<KeptBlock> for Block {
    ghost from_gives = { λ kept block. block ≡ opened kept };

    #[tactic(auto, unfolding(crate::specs::Steps::opened))]
    fn from(kept: KeptBlock) -> Block {
        Block {
            left: kept.left as usize,
            right: kept.right as usize,
            low: kept.low as usize,
            high: kept.high as usize,
        }
    }
}

// Keeps a block at place k.
#[tactic(auto, unfolding(crate::specs::Steps::kept_in, crate::specs::Steps::closed))]
fn keep(b: Block, k: usize, blocks: &mut [KeptBlock])
    requires short { Short b }
    requires k_in_bounds { k < length blocks.old }
    ensures { blocks.new ≡ kept_in blocks.old k b }
{
    blocks[k] = KeptBlock {
        left: b.left as u16,
        low: b.low as u16,
        right: b.right as u16,
        high: b.high as u16,
    };
}

impl Layout<'_> {
    ghost use Rattle.lookup.specs.Laid.{number, spots};

    // Keeps the blocks of the triangles from t on, one at each place, and says whether all have their corners, and no
    // NaN in the first; one that has not is passed over. Nothing else is kept in this loop: with a second store the
    // compiler would no longer work the four columns of a box out at once.
    #[tactic(auto, using(crate::proofs::Places::kept_there, crate::proofs::Laws::Frames::block_short))]
    fn keep_whole(self, t: usize, blocks: &mut [KeptBlock]) -> bool
        requires { t + length blocks.old ≤ number self }
        ensures { let l = self.entry in result ≡ true → Kept (from t (spots l)) (length blocks.new) blocks.new }
    {
        let mut whole = true;
        for k in 0..blocks.len() {
            let i = t + k;
            let Some(triangle) = corners(self.mesh, i) else {
                whole = false; // a corner is missing
                continue;
            };
            let Some(e) = around_plain(triangle) else {
                whole = false; // it is a NaN
                continue;
            };
            let block = self.grid.block_in(grown(e));
            keep(block, k, blocks);
        }
        whole
    }

    // The cells of triangle i, whatever its corners: of one without its corners, a block that starts past its end.
    #[tactic(auto, using(crate::proofs::Picking::block_quick, crate::proofs::Picking::block_missing))]
    fn block(self, i: usize) -> Block
        ensures { result ≡ spots self.entry i }
    {
        match corners(self.mesh, i) {
            Some(triangle) => self.grid.block_in(grown(around(triangle))),
            None => Block {
                left: 1,
                right: 0,
                low: 1,
                high: 0,
            },
        }
    }

    // The same as `keep_whole`, whatever the corners.
    #[tactic(auto, using(crate::proofs::Places::kept_next, crate::proofs::Laws::Frames::short_of))]
    fn keep_any(self, t: usize, blocks: &mut [KeptBlock])
        requires { t + length blocks.old ≤ number self }
        ensures { let l = self.entry in Kept (from t (spots l)) (length blocks.new) blocks.new }
    {
        for k in 0..blocks.len() {
            keep(self.block(t + k), k, blocks);
        }
    }

    // Keeps the blocks of the triangles from t on, one at each place.
    fn keep_blocks(self, t: usize, blocks: &mut [KeptBlock])
        requires { t + length blocks.old ≤ number self }
        ensures { let l = self.entry in Kept (from t (spots l)) (length blocks.new) blocks.new }
    {
        if self.keep_whole(t, blocks) {
            return;
        }
        self.keep_any(t, blocks);
    }

    // The same of the first triangles, 64 at a time, so that a triangle for the slow way takes only its own 64 there.
    pub(crate) fn keep_first(self, blocks: &mut [KeptBlock])
        requires { length blocks.old ≤ number self }
        ensures { let l = self.entry in Kept (from 0 (spots l)) (length blocks.new) blocks.new }
    {
        let n = blocks.len();
        for t in (0..n).step_by(64) {
            let m = (n - t).min(64);
            self.keep_blocks(t, &mut blocks[t..t + m]);
        }
    }

    // The blocks of the triangles from t on, in memory that is lent: of 64, or of those that are left.
    pub(crate) fn next_blocks<'a>(self, t: usize, room: &'a mut [KeptBlock; 64]) -> &'a [KeptBlock]
        requires { t ≤ number self }
        ensures many { t + length result.now ≡ min (t + 64) (number self.entry) }
        ensures kept { let l = self.entry in Kept (from t (spots l)) (length result.now) result.now }
    {
        let m = (self.mesh.triangles() - t).min(64);
        let blocks = &mut room[..m];
        self.keep_blocks(t, blocks);
        blocks
    }
}

// ---- how many entries there may be

impl Axis {
    // How far a box that is less than w wide may reach: the most columns from that of its lower bound to that of
    // its upper one. It is looked for by steps of half a column, which need not be exact: a column never falls
    // where a coordinate rises.
    fn reach(self, w: f32) -> usize
        requires { Width self.cell }
        ensures { Reaches self.low self.cell self.count (Below w) result }
    {
        let step = 0.5 * self.cell;
        let mut most = self.col(self.low + w);
        let mut x = self.low;
        for _ in 0..4096 {
            let here = self.col(x);
            if self.count - 1 <= here {
                return most;
            }
            let next = x + step;
            let there = self.col(next + w);
            if most + here < there {
                most = there - here;
            }
            x = next;
        }
        self.count - 1
    }

    // The same for a box that is no wider than `width`.
    fn reach_of(self, width: f32) -> usize
        requires { Width self.cell }
        ensures { Reaches self.low self.cell self.count (UpTo width) result }
    {
        let w = width + 0.01 * self.cell;
        if width < w {
            return self.reach(w);
        }
        self.count - 1
    }
}

impl Grid {
    // The most entries that n triangles can have whose boxes are no wider and no higher than this. Where so many fit
    // they need not be counted: building takes about a quarter longer where they are.
    pub(crate) fn most_of(self, n: usize, sides: Sides) -> usize
        requires few { n ≤ 65536 }
        requires width { Width self.frame.cell }
        ensures { ((vs : List Float) (is : List ℕ) → Narrow vs is n sides.width sides.height → start (in_cell vs is self.frame) n (cells_of self.frame) ≤ result) × (result ≤ 2 ^ 36) }
    {
        let across = self.columns().reach_of(sides.width) + 1;
        let along = self.rows().reach_of(sides.height) + 1;
        across * along * n
    }
}
