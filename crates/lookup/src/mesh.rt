// Triangles of a mesh, and the plain lookup over them.
#![tactic(auto, unfolding(crate::specs::Mesh::corners_of, crate::specs::Mesh::present, crate::specs::Mesh::normal_at, crate::specs::Cover::det_of, crate::specs::Cover::over_a, crate::specs::Cover::weight_a, crate::specs::Cover::weight_b, crate::specs::Cover::weights_of, crate::specs::Cover::weights_inside, crate::specs::Cover::lift_of, crate::specs::Cover::smooth_of, crate::specs::Cover::flat_of, crate::specs::Cover::face_up, crate::specs::Cover::blend_of, crate::specs::Plain::higher_of, crate::specs::Sixteen::ground_at, vector::specs::Coords::up_vector))]

ghost use Rattle.std.specs.Prelude.{◌≡◌, ◌+◌, ◌*◌, ◌^◌, ◌<◌, ◌≤◌, true, false, length, Some, None};
ghost use Rattle.std.specs.Float.Ieee.{lt};
ghost use Rattle.shape.specs.Lists.{lists_of};
ghost use Rattle.lookup.specs.Mesh.{corners_of, normal_at, triangles};
ghost use Rattle.lookup.specs.Cover.{slack, det_of, over_a, weight_a, weight_b, weights_of, weights_inside, lift_of, face_up, smooth_of, blend_of, flat_of, normal_of};
ghost use Rattle.lookup.specs.Plain.{higher_of, scan_of, read_answer, answer_of};
ghost use Rattle.lookup.specs.Sixteen.{ground_at, Grounded, Gathered, AllLow, Passing, Weighed, Weighs, best_of, scan_on, PeakWeighed, HitOf};

use crate::boxes::EDGE_SLACK;
use crate::build_fast::lower;
use rounding::extremes::abs;
use shape::lists::{Mesh, point_at, vector_at, word_at};
use shape::refusal::Refusal;
use vector::coords::{Point, Vector};

// A triangle by its corners.
#[derive(Clone, Copy)]
pub struct Triangle {
    pub a: Point,
    pub b: Point,
    pub c: Point,
}

// The weights of the three corners at a point, and the determinant that they were divided by.
#[derive(Clone, Copy)]
pub struct Weights {
    pub det: f32,
    pub a: f32,
    pub b: f32,
    pub c: f32,
}

// A triangle, and the weights of its corners at the point.
#[derive(Clone, Copy)]
pub struct WeighedTriangle {
    pub triangle: usize,
    pub weights: Weights,
}

// What a lookup finds: height, normal and triangle.
#[derive(Clone, Copy)]
pub struct Found {
    pub height: f32,
    pub normal: Vector,
    pub triangle: usize,
}

// The corners of triangle t, or none where one lies past the vertices.
pub fn corners(mesh: Mesh, t: usize) -> Option<Triangle>
    ensures { result ≡ corners_of mesh.entry.vertices.now mesh.entry.indices.now t }
{
    if mesh.triangles() <= t {
        return None;
    }
    let n = mesh.points();
    let at = 3 * t;
    let i = mesh.indices[at] as usize;
    if n <= i {
        return None;
    }
    let j = mesh.indices[at + 1] as usize;
    if n <= j {
        return None;
    }
    let k = mesh.indices[at + 2] as usize;
    if n <= k {
        return None;
    }
    Some(Triangle {
        a: point_at(mesh.vertices, i),
        b: point_at(mesh.vertices, j),
        c: point_at(mesh.vertices, k),
    })
}

impl Triangle {
    // Twice its area as seen from above, positive where a, b and c turn left.
    fn det(self) -> f32
        ensures { result ≡ det_of self.a self.b self.c }
    {
        let Triangle { a, b, c } = self;
        (b.y - c.y) * (a.x - c.x) + (c.x - b.x) * (a.y - c.y)
    }

    // The weight of corner a at (x, y), times the determinant.
    fn over_a(self, x: f32, y: f32) -> f32
        ensures { result ≡ over_a self.b self.c x y }
    {
        let Triangle { b, c, .. } = self;
        (b.y - c.y) * (x - c.x) + (c.x - b.x) * (y - c.y)
    }

    // The weight of corner a at (x, y).
    fn weight_a(self, x: f32, y: f32) -> f32
        ensures { result ≡ weight_a self.a self.b self.c x y }
    {
        self.over_a(x, y) / self.det()
    }

    // The weight of corner b at (x, y).
    fn weight_b(self, x: f32, y: f32) -> f32
        ensures { result ≡ weight_b self.a self.b self.c x y }
    {
        let Triangle { a, c, .. } = self;
        ((c.y - a.y) * (x - c.x) + (a.x - c.x) * (y - c.y)) / self.det()
    }

    // The weights of the corners at (x, y), in the view from above.
    pub fn weigh(self, x: f32, y: f32) -> Weights
        ensures { result ≡ weights_of self.a self.b self.c x y }
    {
        let l1 = self.weight_a(x, y);
        let l2 = self.weight_b(x, y);
        Weights {
            det: self.det(),
            a: l1,
            b: l2,
            c: 1.0 - l1 - l2,
        }
    }

    // Is the point so far off that the weight of corner a tells? Above 2 in size it is itself too low, or
    // what it leaves for b and c is. Nearly all triangles of a mesh go by this one test, and all one way.
    // A NaN is left to the full test. Asking for it between the two sums keeps the compiler from weaving
    // them into one, which costs more than it saves.
    #[tactic(auto, using(crate::proofs::Distant::far_outside), unfolding(crate::specs::Cover::weight_a))]
    fn clearly_outside(self, x: f32, y: f32) -> bool
        ensures { result ≡ true → weights_inside (weights_of self.a self.b self.c x y) ≡ false }
    {
        let over = self.over_a(x, y);
        if over != over {
            return false;
        }
        let l1 = over / self.det();
        l1 * l1 > 4.0
    }

    // Its own direction.
    fn flat(self) -> Vector
        ensures { result ≡ flat_of self.a self.b self.c }
    {
        (self.b - self.a)
            .cross(self.c - self.a)
            .normalize_or(Vector::Z)
    }
}

impl Weights {
    // The least weight, or another where a NaN is among them: too low, the point is not inside.
    fn least(self) -> f32
        ensures { lt result slack ≡ true → weights_inside self ≡ false }
    {
        lower(self.c, lower(self.b, self.a))
    }

    // Has the triangle a footprint, and does the point lie in it? A NaN among the weights fails its test.
    pub fn inside(self) -> bool
        ensures { result ≡ weights_inside self }
    {
        !(abs(self.det) < 1e-9)
            && self.a >= -EDGE_SLACK
            && self.b >= -EDGE_SLACK
            && self.c >= -EDGE_SLACK
    }

    // The triangle's height at the point.
    pub fn height(self, t: Triangle) -> f32
        ensures { result ≡ lift_of self t.a.z t.b.z t.c.z }
    {
        self.a * t.a.z + self.b * t.b.z + self.c * t.c.z
    }

    // The direction of the corners' normals by their weights.
    fn smooth(self, na: Vector, nb: Vector, nc: Vector) -> Vector
        ensures { result ≡ smooth_of self na nb nc }
    {
        let sum = na * self.a + nb * self.b + nc * self.c;
        sum.normalize_or(Vector::Z)
    }
}

// The best so far after one more, t of height h: the earlier stays where the heights are equal.
pub fn higher<T: Copy>(best: Option<(f32, T)>, h: f32, t: T) -> Option<(f32, T)>
    ensures { result ≡ higher_of best h t }
{
    match best {
        Some((g, k)) if h <= g => Some((g, k)),
        _ => Some((h, t)),
    }
}

// ---- normals

// The normal of vertex i: up where the normals do not reach so far.
fn normal_at(normals: &[f32], i: usize) -> Vector
    requires { i < 2 ^ 62 }
    ensures { result ≡ normal_at normals.now i }
{
    if i < normals.len() / 3 {
        return vector_at(normals, i);
    }
    Vector::Z
}

// Turned over where it points down, whichever way round the triangle's corners go.
fn face_up(n: Vector) -> Vector
    ensures { result ≡ face_up n }
{
    if n.z < 0.0 {
        return -n;
    }
    n
}

// The direction of the normals of triangle t's corners by their weights. The triangle is there.
fn blend(mesh: Mesh, t: usize, w: Weights) -> Vector
    requires { t < triangles mesh.indices.now }
    ensures { result ≡ blend_of mesh.entry.normals.now mesh.entry.indices.now t w }
{
    let at = 3 * t;
    let na = normal_at(mesh.normals, word_at(mesh.indices, at));
    let nb = normal_at(mesh.normals, word_at(mesh.indices, at + 1));
    let nc = normal_at(mesh.normals, word_at(mesh.indices, at + 2));
    w.smooth(na, nb, nc)
}

// The normal of triangle t at (x, y), from the corners' normals so that it does not snap at an edge. With
// more normals than vertices it is the triangle's own. Up where there is no such triangle.
#[tactic(auto, using(crate::proofs::Laws::Plain::present_below), unfolding(crate::specs::Cover::normal_of, crate::specs::Mesh::corners_of, crate::specs::Cover::weights_at, vector::specs::Coords::up_vector))]
pub fn normal_of(mesh: Mesh, t: usize, x: f32, y: f32) -> Vector
    ensures { let m = lists_of mesh.entry in result ≡ normal_of m.vertices m.normals m.indices t x y }
{
    let Some(triangle) = corners(mesh, t) else {
        return Vector::Z;
    };
    if mesh.points() < mesh.normals.len() / 3 {
        return face_up(triangle.flat());
    }
    face_up(blend(mesh, t, triangle.weigh(x, y)))
}

// The same where w are the weights of the triangle's corners at (x, y), and it is there.
#[tactic(auto, using(crate::proofs::Laws::Plain::present_below), unfolding(crate::specs::Cover::normal_of))]
pub(crate) fn normal_by(mesh: Mesh, t: usize, x: f32, y: f32, w: Weights) -> Vector
    requires { Weighs mesh.vertices.now mesh.indices.now x y t w }
    ensures { let m = lists_of mesh.entry in result ≡ normal_of m.vertices m.normals m.indices t x y }
{
    if mesh.points() < mesh.normals.len() / 3 {
        return normal_of(mesh, t, x, y);
    }
    face_up(blend(mesh, t, w))
}

// ---- the scan of a run, by sixteens

// The highest triangle of a run over the point, if one is, and whether each triangle of the run is there.
#[derive(Clone, Copy)]
pub struct Hit {
    pub peak: Option<(f32, WeighedTriangle)>,
    pub whole: bool,
}

// Place k of a row of points on the ground, two numbers each.
fn ground_at(xs: &[f32], k: usize) -> Point
    requires { 2 * k + 1 < length xs.now }
    ensures { result ≡ ground_at xs.now k }
{
    Point {
        x: xs[2 * k],
        y: xs[2 * k + 1],
        z: 0.0,
    }
}

fn put_ground(xs: &mut [f32], k: usize, p: Point)
    requires { 2 * k + 1 < length xs.old }
    ensures { Grounded xs.old xs.new k p }
{
    xs[2 * k] = p.x;
    xs[2 * k + 1] = p.y;
}

// The corners on the ground of the triangles that a part of a run names, and whether all are there. One that is
// missing is passed over: its place keeps what it holds.
fn gather(
    mesh: Mesh,
    part: &[u32],
    first: &mut [f32],
    second: &mut [f32],
    third: &mut [f32],
) -> bool
    requires { let n = length part.now in (2 * n ≤ length first.old) × (2 * n ≤ length second.old) × (2 * n ≤ length third.old) }
    ensures { Gathered mesh.entry.vertices.now mesh.entry.indices.now part.now (length part.now) first.new second.new third.new result }
{
    let mut whole = true;
    for (k, t) in part.iter().enumerate() {
        let Some(triangle) = corners(mesh, *t as usize) else {
            whole = false;
            continue;
        };
        put_ground(first, k, triangle.a);
        put_ground(second, k, triangle.b);
        put_ground(third, k, triangle.c);
    }
    whole
}

// The least weight of each triangle of three rows. With nothing else in the loop the compiler takes four at a time.
#[tactic(auto, using(crate::proofs::Sixteens::low_step))]
fn weigh_all(a: &[f32], b: &[f32], c: &[f32], x: f32, y: f32, low: &mut [f32])
    requires { let n = length low.old in (2 * n ≤ length a.now) × (2 * n ≤ length b.now) × (2 * n ≤ length c.now) }
    ensures { AllLow a.now b.now c.now x y low.new (length low.new) }
{
    for k in 0..low.len() {
        let triangle = Triangle {
            a: ground_at(a, k),
            b: ground_at(b, k),
            c: ground_at(c, k),
        };
        low[k] = triangle.weigh(x, y).least();
    }
}

// The highest after those of a part of a run, of which those with too low a least weight are passed over.
fn low_turns(
    mesh: Mesh,
    part: &[u32],
    low: &[f32],
    x: f32,
    y: f32,
    before: Option<(f32, WeighedTriangle)>,
) -> Option<(f32, WeighedTriangle)>
    requires low_in_bounds { length part.now ≤ length low.now }
    requires passing { Passing mesh.vertices.now mesh.indices.now x y part.now (length part.now) low.now }
    requires peak_weighed { PeakWeighed mesh.vertices.now mesh.indices.now x y before }
    ensures best_after { best_of result ≡ scan_on mesh.entry.vertices.now mesh.entry.indices.now x y (best_of before) part.now (length part.now) }
    ensures peak_after { PeakWeighed mesh.entry.vertices.now mesh.entry.indices.now x y result }
{
    let mut peak = before;
    for (k, t) in part.iter().enumerate() {
        if low[k] < -EDGE_SLACK {
            continue;
        }
        let number = *t as usize;
        let Some(triangle) = corners(mesh, number) else {
            continue;
        };
        let weights = triangle.weigh(x, y);
        if !weights.inside() {
            continue;
        }
        let height = weights.height(triangle);
        let found = WeighedTriangle {
            triangle: number,
            weights,
        };
        peak = higher(peak, height, found);
    }
    peak
}

// The next multiple of 4: the fours then leave no rest.
fn next_fourth(n: usize) -> usize
    requires { n ≤ 16 }
    ensures { (n ≤ result) × (result ≤ 16) }
{
    (n + 3) / 4 * 4
}

// The least weights of the triangles of a part of a run, and whether all are there. That of a missing one may be
// anything: it covers nothing.
fn weigh_part(
    mesh: Mesh,
    part: &[u32],
    x: f32,
    y: f32,
    a: &mut [f32],
    b: &mut [f32],
    c: &mut [f32],
    low: &mut [f32],
) -> bool
    requires part_few { length part.now ≤ 16 }
    requires in_bounds { (32 ≤ length a.old) × (32 ≤ length b.old) × (32 ≤ length c.old) × (16 ≤ length low.old) }
    ensures { Weighed mesh.entry.vertices.now mesh.entry.indices.now x y part.now (length part.now) low.new result }
{
    let whole = gather(mesh, part, a, b, c);
    let n = next_fourth(part.len());
    weigh_all(a, b, c, x, y, &mut low[..n]);
    whole
}

// The highest of the triangles that a run of triangle numbers names, the first of them among equals. Nearly all
// go by their least weight: it is worked out for sixteen at a time, first the corners and then the weights.
pub(crate) fn highest(mesh: Mesh, run: &[u32], x: f32, y: f32) -> Hit
    ensures hit_of { HitOf mesh.entry.vertices.now mesh.entry.indices.now x y run.now (length run.now) (best_of result.peak) result.whole }
    ensures peak_weighed { PeakWeighed mesh.entry.vertices.now mesh.entry.indices.now x y result.peak }
{
    let mut a = [0f32; 32];
    let mut b = [0f32; 32];
    let mut c = [0f32; 32];
    let mut low = [0f32; 16];
    let mut peak = None;
    let mut whole = true;
    for part in run.chunks(16) {
        let there = weigh_part(mesh, part, x, y, &mut a, &mut b, &mut c, &mut low);
        whole &= there;
        peak = low_turns(mesh, part, &low, x, y, peak);
    }
    Hit { peak, whole }
}

// ---- the plain lookup

// The best of all triangles, by their numbers. A function of its own, since behind the refusals of its caller the
// compiler would take the loop for one that is seldom reached, and lay it out so: about a tenth slower.
#[inline(never)]
#[tactic(auto, unfolding(crate::specs::Plain::scan_of, crate::specs::Plain::scan_by, crate::specs::Fold::fold_of, crate::specs::Cover::covers, crate::specs::Cover::height_of, crate::specs::Cover::weights_at, crate::specs::Mesh::corners_of))]
fn highest_of_all(mesh: Mesh, x: f32, y: f32) -> Option<(f32, usize)>
    ensures { let m = lists_of mesh.entry in result ≡ scan_of m.vertices m.indices x y (λ t. t) (triangles m.indices) }
{
    let mut best = None;
    for t in 0..mesh.triangles() {
        let Some(triangle) = corners(mesh, t) else {
            continue;
        };
        if triangle.clearly_outside(x, y) {
            continue;
        }
        let w = triangle.weigh(x, y);
        if !w.inside() {
            continue;
        }
        best = higher(best, w.height(triangle), t);
    }
    best
}

// The highest triangle over (x, y), of the lowest number among equals: its height, normal and number, if there
// is one.
#[tactic(auto, unfolding(crate::specs::Plain::answer_of, crate::specs::Plain::read_answer, crate::specs::Plain::plain_of, crate::specs::Plain::lookup_of, shape::specs::Refusal::judge, shape::specs::Refusal::found))]
pub fn height_at(mesh: Mesh, x: f32, y: f32) -> Result<Option<Found>, Refusal>
    ensures { read_answer result ≡ answer_of (lists_of mesh.entry) x y }
{
    mesh.check()?;
    let Some((height, triangle)) = highest_of_all(mesh, x, y) else {
        return Ok(None);
    };
    Ok(Some(Found {
        height,
        normal: normal_of(mesh, triangle, x, y),
        triangle,
    }))
}
