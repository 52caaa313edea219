// Height in a junction: the surface through the points of its elevation grid. Grid lines are numbered
// along (rows) and across (columns) the junction's reference line. Column 0 is the centre, 1 and up the
// left heights, -1 and down the right heights. A number of a line that may be below 0 is held with
// 2,048 added, so that it is a count.
ghost use Rattle.std.specs.Prelude.{◌≡◌, ◌+◌, ◌-◌, ◌*◌, ◌^◌, ◌<◌, not, length, ℤ, Float, Ok, Err, MatchResult};
ghost use Rattle.std.proofs.Math.IntN.{sub_ℕ};
ghost use Rattle.shape.specs.Refusal.{told};
ghost use Rattle.shape.specs.Elevation.{
  nth,
  part,
  row_of,
  column_of,
  heights_of,
  line_of,
  straight_of,
  slopes_of,
  across_of,
  first_of,
  second_of,
  frame_of,
  entry_of,
  mul_of,
  transpose_of,
  bicubic,
  coefficients_of,
  surface_of,
  in_square,
  tried_at,
  snap_of,
  within,
  height_of,
  locate_of,
  grid_check,
  height_answer,
  height_at_answer,
};
ghost use Rattle.shape.specs.ElevationSteps.{odd_run, pass_of, fault_of, refusal_of, table_row, Placed, Near, Limits};

use crate::lists::{MAX_ROWS, MAX_SIDE, Records};
use crate::refusal::Refusal;
use rounding::bits::from_bits64;
use rounding::count::count;
use rounding::extremes::abs;
use rounding::whole::{floor, round};

// Where the grid lies: the reference line's start and heading, where along it the first row is, and how
// far apart the points are.
#[derive(Clone, Copy)]
pub struct ElevationGrid {
    pub origin_x: f64,
    pub origin_y: f64,
    pub sin: f64,
    pub cos: f64,
    pub start: f64,
    pub spacing: f64,
}

// The lists of a grid as they are lent: the records of its rows, and the heights to the left and to the right
// of the reference line, row after row.
#[derive(Clone, Copy)]
pub struct Heights<'a> {
    pub rows: &'a [u32],
    pub left: &'a [f64],
    pub right: &'a [f64],
}

// The lists of a grid that are not faulty, and how many heights their longest side has.
#[derive(Clone, Copy)]
pub(crate) struct Survey<'a> {
    pub heights: Heights<'a>,
    pub most: usize,
    ghost limits: { Limits heights.rows.now most },
}

// The part of a list from start to end.
#[derive(Clone, Copy)]
pub struct Run {
    pub start: u32,
    pub end: u32,
}

// A row of the grid: its height on the line, and its runs of the left and of the right heights.
#[derive(Clone, Copy)]
pub struct GridRow {
    pub center: f64,
    pub left: Run,
    pub right: Run,
}

// Four points of a row one after another, the middle two at a square's edge.
#[derive(Clone, Copy)]
pub struct Line {
    pub before: Option<f64>,
    pub first: Option<f64>,
    pub second: Option<f64>,
    pub after: Option<f64>,
}

// The slopes at the two ends of an edge.
#[derive(Clone, Copy)]
pub struct Tilt {
    pub first: f64,
    pub second: f64,
}

// Sixteen numbers of a square, in rows of four: its corners, slopes and twists, or the coefficients of
// the bicubic surface.
#[derive(Clone, Copy)]
pub struct Patch {
    pub m: [f64; 16],
}

// A grid coordinate: the square it falls into, and where in it.
#[derive(Clone, Copy)]
pub struct Place {
    pub line: usize,
    pub part: f64,
}

// A place along the reference line and to its left.
#[derive(Clone, Copy)]
pub struct Station {
    pub s: f64,
    pub t: f64,
}

// ---- the points of the grid

// Height n of a run, from the line outward.
#[tactic(auto, using(crate::proofs::Heights::held, crate::proofs::Heights::short_run, crate::proofs::Heights::short_list))]
fn side(xs: &[f64], run: Run, n: usize) -> Option<f64>
    requires { n < 2 ^ 32 }
    ensures { result ≡ nth (part xs.now run) n }
{
    let k = run.start as usize + n;
    if k < run.end as usize && k < xs.len() {
        Some(xs[k])
    } else {
        None
    }
}

impl GridRow {
    // The height in column j - 2048, if the row has one there.
    #[tactic(auto, using(crate::proofs::Heights::left_line, crate::proofs::Heights::right_line), unfolding(crate::specs::Elevation::column_of))]
    fn at(self, heights: Heights, j: usize) -> Option<f64>
        requires { j < 2 ^ 32 }
        ensures { result ≡ column_of heights.entry.left.now heights.entry.right.now self (sub_ℕ j 2048) }
    {
        if j == 2048 {
            return Some(self.center);
        }
        if 2048 < j {
            return side(heights.left, self.left, j - 2049);
        }
        side(heights.right, self.right, 2047 - j)
    }

    // The heights in columns j - 2049 to j - 2046.
    #[tactic(auto, using(crate::proofs::Squares::line_is))]
    fn line(self, heights: Heights, j: usize) -> Line
        requires { (0 < j) × (j < 2 ^ 31) }
        ensures { result ≡ line_of (column_of heights.entry.left.now heights.entry.right.now self) (sub_ℕ j 2048) }
    {
        Line {
            before: self.at(heights, j - 1),
            first: self.at(heights, j),
            second: self.at(heights, j + 1),
            after: self.at(heights, j + 2),
        }
    }
}

impl Heights<'_> {
    // Row i of the grid, which has it.
    #[tactic(auto, unfolding(crate::specs::Elevation::row_of, crate::specs::Lists::word_of))]
    fn row(self, i: usize) -> GridRow
        requires { 6 * i + 5 < length self.rows.now }
        ensures { result ≡ row_of self.entry.rows.now i }
    {
        let rows = self.rows;
        let at = 6 * i;
        GridRow {
            center: from_bits64(rows[at], rows[at + 1]),
            left: Run {
                start: rows[at + 2],
                end: rows[at + 3],
            },
            right: Run {
                start: rows[at + 4],
                end: rows[at + 5],
            },
        }
    }

    // The heights of row i - 2048 in columns j - 2049 to j - 2046.
    #[tactic(auto, using(crate::proofs::Squares::line_held, crate::proofs::Squares::line_past, crate::proofs::Squares::line_below))]
    fn line_at(self, i: usize, j: usize) -> Line
        requires { (0 < j) × (i < 2 ^ 31) × (j < 2 ^ 31) }
        ensures { result ≡ line_of (heights_of self.entry (sub_ℕ i 2048)) (sub_ℕ j 2048) }
    {
        if 2048 <= i && 6 * (i - 2048) + 5 < self.rows.len() {
            return self.row(i - 2048).line(self, j);
        }
        Line {
            before: None,
            first: None,
            second: None,
            after: None,
        }
    }
}

// ---- a square's corners, slopes and twists

// The slopes of the line through b and c, a grid step apart.
#[tactic(auto, unfolding(crate::specs::Elevation::straight_of))]
fn straight(b: f64, c: f64) -> Tilt
    ensures { result ≡ straight_of b c }
{
    Tilt {
        first: c - b,
        second: c - b,
    }
}

// The slopes at b and c of four points a grid step apart: from the cubic through all four, or from the
// line through b and c where a or d is missing.
#[tactic(auto, unfolding(crate::specs::Elevation::slopes_of))]
pub fn slopes(a: Option<f64>, b: f64, c: f64, d: Option<f64>) -> Tilt
    ensures { result ≡ slopes_of a b c d }
{
    let (Some(p), Some(q)) = (a, d) else {
        return straight(b, c);
    };
    Tilt {
        first: (-2.0 * p - 3.0 * b + 6.0 * c - q) / 6.0,
        second: (p - 6.0 * b + 3.0 * c + 2.0 * q) / 6.0,
    }
}

// The slopes across a row at its middle points, if it has them.
#[tactic(auto, unfolding(crate::specs::Elevation::edge_of))]
pub fn row_slopes(line: Line) -> Option<Tilt>
    ensures { result ≡ across_of line }
{
    let b = line.first?;
    let c = line.second?;
    Some(slopes(line.before, b, c, line.after))
}

// The slope at the edge's first point.
#[tactic(auto, unfolding(crate::specs::Elevation::first_of))]
fn first_of(x: Option<Tilt>) -> Option<f64>
    ensures { result ≡ first_of x }
{
    x.map(|tilt| tilt.first)
}

// The slope at the edge's second point.
#[tactic(auto, unfolding(crate::specs::Elevation::second_of))]
fn second_of(x: Option<Tilt>) -> Option<f64>
    ensures { result ≡ second_of x }
{
    x.map(|tilt| tilt.second)
}

// ---- the surface over a square

// Row k of the table, the matrix that turns a square's corners, slopes and twists into its coefficients. Its
// sixteen numbers stand here alone: a constant that is indexed would be copied to the stack at each call.
#[tactic(auto, unfolding(crate::specs::ElevationSteps::table_row))]
fn table(k: usize) -> [f64; 4]
    requires { k < 4 }
    ensures { result ≡ table_row k }
{
    match k {
        0 => [1.0, 0.0, 0.0, 0.0],
        1 => [0.0, 0.0, 1.0, 0.0],
        2 => [-3.0, 3.0, -2.0, -1.0],
        _ => [2.0, -2.0, 1.0, 1.0],
    }
}

// Entry (r, c) of the table times f. Products with 0 are worked out, here and below: of an infinity or a NaN
// they are NaN.
#[tactic(auto, unfolding(crate::specs::Elevation::entry_of, crate::specs::ElevationSteps::table_row))]
fn table_times_at(f: Patch, r: usize, c: usize) -> f64
    requires { (r < 4) × (c < 4) }
    ensures { result ≡ entry_of bicubic.m f.m r c }
{
    let a = table(r);
    a[0] * f.m[c] + a[1] * f.m[4 + c] + a[2] * f.m[8 + c] + a[3] * f.m[12 + c]
}

// Entry (r, c) of f times the turned table, whose column c is row c of the table.
#[tactic(auto, using(crate::proofs::Laws::Elevation::by_row), unfolding(crate::specs::ElevationSteps::table_row))]
fn times_turned_at(f: Patch, r: usize, c: usize) -> f64
    requires { (r < 4) × (c < 4) }
    ensures { result ≡ entry_of f.m (transpose_of bicubic).m r c }
{
    let a = table(c);
    let k = 4 * r;
    f.m[k] * a[0] + f.m[k + 1] * a[1] + f.m[k + 2] * a[2] + f.m[k + 3] * a[3]
}

// The table times f, written out, so that each row of the table is known where it is used; a loop would look
// it up, and copy f, at each turn.
#[tactic(auto, unfolding(crate::specs::Elevation::mul_of, crate::specs::Gather::gather))]
fn table_times(f: Patch) -> Patch
    ensures { result ≡ mul_of bicubic f }
{
    Patch {
        m: [
            table_times_at(f, 0, 0),
            table_times_at(f, 0, 1),
            table_times_at(f, 0, 2),
            table_times_at(f, 0, 3),
            table_times_at(f, 1, 0),
            table_times_at(f, 1, 1),
            table_times_at(f, 1, 2),
            table_times_at(f, 1, 3),
            table_times_at(f, 2, 0),
            table_times_at(f, 2, 1),
            table_times_at(f, 2, 2),
            table_times_at(f, 2, 3),
            table_times_at(f, 3, 0),
            table_times_at(f, 3, 1),
            table_times_at(f, 3, 2),
            table_times_at(f, 3, 3),
        ],
    }
}

// f times the turned table.
#[tactic(auto, unfolding(crate::specs::Elevation::mul_of, crate::specs::Gather::gather))]
fn times_turned(f: Patch) -> Patch
    ensures { result ≡ mul_of f (transpose_of bicubic) }
{
    Patch {
        m: [
            times_turned_at(f, 0, 0),
            times_turned_at(f, 0, 1),
            times_turned_at(f, 0, 2),
            times_turned_at(f, 0, 3),
            times_turned_at(f, 1, 0),
            times_turned_at(f, 1, 1),
            times_turned_at(f, 1, 2),
            times_turned_at(f, 1, 3),
            times_turned_at(f, 2, 0),
            times_turned_at(f, 2, 1),
            times_turned_at(f, 2, 2),
            times_turned_at(f, 2, 3),
            times_turned_at(f, 3, 0),
            times_turned_at(f, 3, 1),
            times_turned_at(f, 3, 2),
            times_turned_at(f, 3, 3),
        ],
    }
}

// The coefficients of the surface with the corners, slopes and twists f: the table times f, times the turned
// table, which is never made.
#[tactic(auto, unfolding(crate::specs::Elevation::coefficients_of))]
pub fn coefficients(f: Patch) -> Patch
    ensures { result ≡ coefficients_of f }
{
    times_turned(table_times(f))
}

// The height of the surface at (x, y): the sum of its terms, row by row.
#[tactic(auto, unfolding(crate::specs::Elevation::surface_of, crate::specs::Elevation::sum_to, crate::specs::Elevation::power_of))]
pub fn terms(p: Patch, x: f64, y: f64) -> f64
    ensures { result ≡ surface_of p x y }
{
    let xs = [1.0, x, x * x, x * x * x];
    let ys = [1.0, y, y * y, y * y * y];
    let mut sum = xs[0] * p.m[0] * ys[0];
    for n in 1..16 {
        sum += xs[n / 4] * p.m[n] * ys[n % 4];
    }
    sum
}

// The corners, slopes and twists of the square whose corners q and r hold, between the rows p and w.
#[tactic(auto, unfolding(crate::specs::Elevation::frame_of))]
fn frame(p: Line, q: Line, r: Line, w: Line, z00: f64, z01: f64, z10: f64, z11: f64) -> Patch
    ensures { result ≡ frame_of p q r w z00 z01 z10 z11 }
{
    let t0 = slopes(q.before, z00, z01, q.after);
    let t1 = slopes(r.before, z10, z11, r.after);
    let s0 = slopes(p.first, z00, z10, w.first);
    let s1 = slopes(p.second, z01, z11, w.second);
    let tp = row_slopes(p);
    let tw = row_slopes(w);
    let st0 = slopes(first_of(tp), t0.first, t1.first, first_of(tw));
    let st1 = slopes(second_of(tp), t0.second, t1.second, second_of(tw));
    Patch {
        m: [
            z00, z01, t0.first, t0.second, z10, z11, t1.first, t1.second, s0.first, s1.first,
            st0.first, st1.first, s0.second, s1.second, st0.second, st1.second,
        ],
    }
}

// ---- the squares at a place

// A number less than 1e-6 from a whole one snaps to it.
#[tactic(auto, unfolding(crate::specs::Elevation::snap_of))]
fn snap(at: f64) -> f64
    ensures { result ≡ snap_of at }
{
    let near = round(at);
    if abs(at - near) < 1e-6 { near } else { at }
}

// Where a grid coordinate falls: the line at or below it, and how far past that.
#[tactic(auto, using(crate::proofs::Heights::line_of, crate::proofs::Heights::above_few, crate::proofs::Heights::below_few))]
fn place_of(at: f64) -> Place
    requires { Near at }
    ensures { Placed at result }
{
    let line = floor(at);
    let above = count(line);
    let below = count(-line);
    Place {
        line: (2048 + above - below) as usize,
        part: at - line,
    }
}

impl Heights<'_> {
    // The height at (x, y) within the square from row i - 2048 and column j - 2048, if the grid has its
    // corners.
    fn in_square(self, i: usize, x: f64, j: usize, y: f64) -> Option<f64>
        requires { (0 < i) × (0 < j) × (i < 2 ^ 30) × (j < 2 ^ 30) }
        ensures { result ≡ in_square (heights_of self.entry) (sub_ℕ i 2048) x (sub_ℕ j 2048) y }
    {
        let q = self.line_at(i, j);
        let r = self.line_at(i + 1, j);
        let z00 = q.first?;
        let z01 = q.second?;
        let z10 = r.first?;
        let z11 = r.second?;
        let p = self.line_at(i - 1, j);
        let w = self.line_at(i + 2, j);
        let f = frame(p, q, r, w, z00, z01, z10, z11);
        Some(terms(coefficients(f), x, y))
    }

    // The height at x past row i - 2048 and at a column's place: on a grid line in the square above it, else
    // in the one below.
    #[tactic(auto, using(crate::proofs::Squares::tried_below), unfolding(crate::specs::Elevation::tried_at, crate::specs::Elevation::or_spot))]
    fn in_row(self, i: usize, x: f64, column: Place) -> Option<f64>
        requires { (0 < i) × (i < 2 ^ 30) × (1 < column.line) × (column.line < 2 ^ 30) }
        ensures { let z = heights_of self.entry in
            result ≡ tried_at (λ (j : ℤ) (y : Float). in_square z (sub_ℕ i 2048) x j y) (sub_ℕ column.line 2048) column.part }
    {
        if column.part == 0.0 {
            let above = self.in_square(i, x, column.line, 0.0);
            if above.is_some() {
                return above;
            }
            return self.in_square(i, x, column.line - 1, 1.0);
        }
        self.in_square(i, x, column.line, column.part)
    }

    // The height at a row's place and a column's: on a grid line in the squares above it, else in those
    // below.
    #[tactic(auto, using(crate::proofs::Squares::tried_below), unfolding(crate::specs::Elevation::tried_at, crate::specs::Elevation::or_spot))]
    fn on_grid(self, row: Place, column: Place) -> Option<f64>
        requires { (1 < row.line) × (row.line < 2 ^ 30) × (1 < column.line) × (column.line < 2 ^ 30) }
        ensures { let z = heights_of self.entry in
            let column_at = sub_ℕ column.line 2048 in
            result ≡ tried_at (λ (i : ℤ) (x : Float). tried_at (λ (j : ℤ) (y : Float). in_square z i x j y) column_at column.part)
            (sub_ℕ row.line 2048) row.part }
    {
        if row.part == 0.0 {
            let above = self.in_row(row.line, 0.0, column);
            if above.is_some() {
                return above;
            }
            return self.in_row(row.line - 1, 1.0, column);
        }
        self.in_row(row.line, row.part, column)
    }
}

// A NaN is never between.
#[tactic(auto, unfolding(crate::specs::Elevation::within))]
fn is_within(lo: f64, x: f64, hi: f64) -> bool
    ensures { result ≡ within lo x hi }
{
    lo <= x && x <= hi
}

impl Survey<'_> {
    // The height at (s, t) along and to the left of the reference line, if there is one.
    #[tactic(auto, using(crate::proofs::Squares::row_near, crate::proofs::Squares::column_near, crate::proofs::Squares::on_grid_is, crate::proofs::Heights::count_whole), unfolding(crate::specs::Elevation::height_of, crate::specs::Elevation::coords_of))]
    pub(crate) fn height(self, grid: ElevationGrid, s: f64, t: f64) -> Option<f64>
        ensures { let h = self.entry.heights in result ≡ height_of grid h.rows.now h.left.now h.right.now s t }
    {
        let spacing = grid.spacing;
        let m = self.heights.rows.len() / 6;
        if spacing.is_nan() || spacing <= 0.0 || m == 0 {
            return None;
        }
        let u = snap((s - grid.start) / spacing);
        let v = snap(t / spacing);
        let last = (m - 1) as f64;
        let wide = self.most as f64;
        if !is_within(0.0, u, last) || !is_within(-wide, v, wide) {
            return None;
        }
        self.heights.on_grid(place_of(u), place_of(v))
    }
}

// ---- the check of the lists

// What is at fault with a grid's lists: something past its limit, or something ragged.
#[derive(Clone, Copy, PartialEq, Eq, Debug)]
pub enum GridFault {
    Long,
    Ragged,
}

impl GridFault {
    // The refusal of a call in which the rows are the list given.
    #[tactic(auto, unfolding(crate::specs::ElevationSteps::refusal_of))]
    pub(crate) fn refusal(self, rows: usize) -> Refusal
        ensures { result ≡ refusal_of self rows }
    {
        match self {
            GridFault::Long => Refusal::Oversize(MAX_ROWS),
            GridFault::Ragged => Refusal::Ragged(rows),
        }
    }
}

// How long a run is.
fn span(run: Run) -> usize
    ensures { result ≡ run.end - run.start }
{
    run.end.saturating_sub(run.start) as usize
}

// Is a run of a list of n sound, and within the limit? `last` is where the last one ended.
#[tactic(auto, unfolding(crate::specs::ElevationSteps::odd_run))]
fn in_order(run: Run, last: u32, n: usize) -> bool
    ensures { result ≡ not (odd_run run last n) }
{
    run.start <= run.end && last <= run.start && run.end as usize <= n && span(run) <= MAX_SIDE
}

impl<'a> Heights<'a> {
    // The longest side of the rows, if they are in order: looks through them once, as far as they are.
    fn longest_side(self) -> Option<usize>
        ensures { let h = self.entry in result ≡ pass_of h.rows.now (length h.left.now) (length h.right.now) }
    {
        let mut most: usize = 0;
        let mut last_left: u32 = 0;
        let mut last_right: u32 = 0;
        let left = self.left.len();
        let right = self.right.len();
        for k in 0..self.rows.len() / 6 {
            let here = self.row(k);
            if !in_order(here.left, last_left, left) || !in_order(here.right, last_right, right) {
                return None;
            }
            most = most.max(span(here.left)).max(span(here.right));
            last_left = here.left.end;
            last_right = here.right.end;
        }
        Some(most)
    }

    // What is at fault with rows that are not all in order.
    #[tactic(auto, unfolding(crate::specs::ElevationSteps::fault_of))]
    fn fault(self) -> GridFault
        ensures { result ≡ fault_of self.entry.rows.now }
    {
        let rows = Records::<6> { words: self.rows };
        if rows.any_long(2, MAX_SIDE) || rows.any_long(4, MAX_SIDE) {
            GridFault::Long
        } else {
            GridFault::Ragged
        }
    }

    // Looks through the rows. What is at fault is only searched for if anything is.
    #[tactic(auto, using(crate::proofs::Surveys::found_long, crate::proofs::Surveys::found_odd, crate::proofs::Surveys::found_uneven, crate::proofs::Surveys::found_widest), unfolding(crate::specs::Lists::longer, crate::specs::Lists::uneven))]
    pub(crate) fn survey(self) -> Result<Survey<'a>, GridFault>
        ensures { let h = self.entry in let found = grid_check h.rows.now (length h.left.now) (length h.right.now) in
            MatchResult result (λ s. (s.heights ≡ h) × (found ≡ Ok s.most)) (λ e. found ≡ Err e) }
    {
        if 6 * MAX_ROWS < self.rows.len() {
            return Err(GridFault::Long);
        }
        let Some(most) = self.longest_side() else {
            return Err(self.fault());
        };
        if self.rows.len() % 6 != 0 {
            return Err(GridFault::Ragged);
        }
        Ok(Survey {
            heights: self,
            most,
        })
    }
}

// The height at (s, t) along and to the left of the reference line, if there is one.
#[tactic(auto, using(crate::proofs::Surveys::says_long, crate::proofs::Surveys::says_ragged, crate::proofs::Surveys::says_widest), unfolding(crate::specs::Refusal::told, crate::specs::Refusal::judge, crate::specs::Refusal::refuse, crate::specs::Elevation::height_answer, crate::specs::Elevation::grid_fault, crate::specs::Refusal::number_of, crate::specs::Refusal::place_of))]
pub fn height(grid: ElevationGrid, heights: Heights, s: f64, t: f64) -> Result<Option<f64>, Refusal>
    ensures { let h = heights.entry in told result ≡ height_answer grid h.rows.now h.left.now h.right.now s t }
{
    let survey = heights.survey().map_err(|fault| fault.refusal(0))?;
    Ok(survey.height(grid, s, t))
}

// Where (x, y) is on the reference line: s along it and t to its left.
#[tactic(auto, unfolding(crate::specs::Elevation::locate_of))]
pub fn locate(grid: ElevationGrid, x: f64, y: f64) -> Station
    ensures { result ≡ locate_of grid x y }
{
    let dx = x - grid.origin_x;
    let dy = y - grid.origin_y;
    Station {
        s: dx * grid.cos + dy * grid.sin,
        t: dy * grid.cos - dx * grid.sin,
    }
}

// The ground's height under (x, y).
#[tactic(auto, unfolding(crate::specs::Elevation::height_at_answer))]
pub fn height_at(
    grid: ElevationGrid,
    heights: Heights,
    x: f64,
    y: f64,
) -> Result<Option<f64>, Refusal>
    ensures { let h = heights.entry in told result ≡ height_at_answer grid h.rows.now h.left.now h.right.now x y }
{
    let at = locate(grid, x, y);
    height(grid, heights, at.s, at.t)
}
