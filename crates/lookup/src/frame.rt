// The grid's frame: its extent, the side of a cell, how many cells there are, and the column of a coordinate.
ghost use Rattle.std.specs.Prelude.{◌≡◌, ◌+◌, ◌-◌, ◌*◌, ◌<◌, ◌≤◌, min};
ghost use Rattle.std.specs.Float.{binary32};
ghost use Rattle.std.specs.Float.Ieee.{to_unsigned};
ghost use Rattle.lookup.specs.Column.{col, Width};
ghost use Rattle.lookup.specs.Frame.{fine_of, side_of, frame_of};
ghost use Rattle.lookup.specs.Steps.{Framed};

use crate::boxes::Aabb;
use rounding::count::count;
use rounding::extremes::max;
use rounding::root::sqrt32;
use rounding::whole::ceil;

// ---- the frame

// The extent of the boxes, the side of a cell, and how many cells there are on each side.
#[derive(Clone, Copy)]
pub struct Frame {
    pub min_x: f32,
    pub min_y: f32,
    pub max_x: f32,
    pub max_y: f32,
    pub cell: f32,
    pub cols: usize,
    pub rows: usize,
}

// The most cells on a side, so that one enormous triangle makes no enormous grid.
const MAX_DIM: usize = 1024;

// How many boxes to a cell the grid aims for.
const ITEMS_PER_CELL: f32 = 2.0;

// The side of a cell, for two boxes to a cell of an extent w by h: floored, so that a straight road
// still gives one, and with no more than 1,024 cells on the longer side.
#[tactic(auto, unfolding(crate::specs::Frame::fine_of))]
fn fine(w: f32, h: f32, count: u32) -> f32
    ensures { result ≡ fine_of w h count }
{
    let target = max(std::num::nearest_u32_to_f32(count) / ITEMS_PER_CELL, 1.0);
    let area = max(w, 1e-3) * max(h, 1e-3);
    max(max(sqrt32(area / target), max(w, h) / 1024.0), 1e-3)
}

// How many cells a length takes.
#[tactic(auto, unfolding(crate::specs::Frame::side_of))]
fn side(w: f32, cell: f32) -> usize
    ensures { (result ≡ side_of w cell) × (result ≤ 1024) }
{
    (count(ceil(w / cell)) as usize).max(1).min(MAX_DIM)
}

// The frame of the grid over an extent: the cell's side is worked out anew from the counts, so that the
// grid spans the whole extent.
pub(crate) fn frame_of(e: Aabb, count: u32) -> Frame
    ensures { result ≡ frame_of e count }
{
    let w = e.max_x - e.min_x;
    let h = e.max_y - e.min_y;
    let first = fine(w, h, count);
    let cols = side(w, first);
    let rows = side(h, first);
    let across = std::num::nearest_u32_to_f32(cols as u32);
    let along = std::num::nearest_u32_to_f32(rows as u32);
    Frame {
        min_x: e.min_x,
        min_y: e.min_y,
        max_x: e.max_x,
        max_y: e.max_y,
        cell: max(max(w / across, h / along), 1e-3),
        cols,
        rows,
    }
}

// ---- columns

// The columns of a grid, or its rows: where the first starts, how wide each is, and how many there are.
#[derive(Clone, Copy)]
pub(crate) struct Axis {
    pub low: f32,
    pub cell: f32,
    pub count: usize,
    ghost some: { 0 < count },
    ghost few: { count ≤ 1024 },
}

impl Axis {
    // The whole part of q, cut to the last column. A NaN and what lies below 1 have 0. From 1 to 1,024 the whole
    // part is the bits of the fraction, with the leading digit, less those that are worth under 1.
    fn cut(self, q: f32) -> usize
        ensures { result ≡ min (to_unsigned 64 q) (self.count - 1) }
    {
        if q >= 1.0 {
            if q < 1024.0 {
                let bits = f32::to_bits(q);
                let digits = bits % 0x80_0000 + 0x80_0000;
                let i = (digits >> (150 - bits / 0x80_0000)) as usize;
                if i < self.count {
                    return i;
                }
                return self.count - 1;
            }
            return self.count - 1;
        }
        0
    }

    // The column of x, or the row of a y. A NaN and what lies before the first column go to it, and what lies past
    // the last to the last.
    #[tactic(auto, using(crate::proofs::Laws::Column::bucket_cut), unfolding(crate::specs::Column::col))]
    pub(crate) fn col(self, x: f32) -> usize
        ensures { result ≡ col binary32 self.low self.cell self.count x }
    {
        self.cut((x - self.low) / self.cell)
    }
}

// ---- the grid

// A frame that has a cell at least on each side, and few enough.
#[derive(Clone, Copy)]
pub(crate) struct Grid {
    pub frame: Frame,
    ghost framed: { Framed frame },
}

impl Grid {
    // The grid over an extent.
    #[tactic(auto, using(crate::proofs::Laws::Frames::framed, crate::proofs::Chain::frame_width))]
    pub(crate) fn over(e: Aabb, count: u32) -> Grid
        ensures { (result.frame ≡ frame_of e count) × Width result.frame.cell }
    {
        Grid {
            frame: frame_of(e, count),
        }
    }

    // Its columns.
    pub(crate) fn columns(self) -> Axis
        ensures { let f = self.frame in (result.low ≡ f.min_x) × (result.cell ≡ f.cell) × (result.count ≡ f.cols) }
    {
        Axis {
            low: self.frame.min_x,
            cell: self.frame.cell,
            count: self.frame.cols,
        }
    }

    // Its rows.
    pub(crate) fn rows(self) -> Axis
        ensures { let f = self.frame in (result.low ≡ f.min_y) × (result.cell ≡ f.cell) × (result.count ≡ f.rows) }
    {
        Axis {
            low: self.frame.min_y,
            cell: self.frame.cell,
            count: self.frame.rows,
        }
    }
}

// ---- the cells of a box

// A block of cells: its first and last column, its first and last row.
#[derive(Clone, Copy)]
pub struct Block {
    pub left: usize,
    pub right: usize,
    pub low: usize,
    pub high: usize,
}
