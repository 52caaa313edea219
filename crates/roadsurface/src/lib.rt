// The road-surface library for programs in other languages. Each exported function is a thin call of the
// function that it names. A slice is a pointer and a length in C, and a number lent as `&mut` a pointer. What is
// returned is a code: of a call that is turned back the refusal's number * 2^32 + its place, else the call's
// count. A call that is turned back leaves every number and every slice as it was.
#![tactic(auto)]

ghost use Rattle.std.specs.Prelude.{◌≡◌, [], length};
ghost use Rattle.shape.specs.Refusal.{judge, taken, told, leaves};
ghost use Rattle.shape.specs.Lists.{mesh_lists, mesh_fault};
ghost use Rattle.shape.specs.Elevation.{height_answer, height_at_answer};
ghost use Rattle.shape.specs.Outline.{outline_answer};
ghost use Rattle.shape.specs.Ears.{ears_of, ears_answer};
ghost use Rattle.shape.specs.JunctionMesh.{ground, ground_answer, ground_mesh};
ghost use Rattle.shape.specs.MeshMemory.{leaves_mesh};
ghost use Rattle.shape.specs.SurfaceMesh.{given, mesh_of, answer_of};
ghost use Rattle.shape.specs.Verdict.{validity_of, read_verdict};
ghost use Rattle.joining.specs.Join.{join_of, join_answer};
ghost use Rattle.lookup.specs.Index.{index_words, build_of};
ghost use Rattle.lookup.specs.Sampler.{top_of};
ghost use Rattle.lookup.specs.Batch.{word_for, record_of, records_of, tops_of};
ghost use Rattle.lookup.specs.Record.{record_answer};
ghost use Rattle.surface.specs.File.{words_of, bytes_of, read_of, write_of};
ghost use Rattle.surface.specs.Report.{report_of, report_answer};
ghost use Rattle.surface.specs.Sentence.{read_sentence};
ghost use Rattle.roadsurface.specs.Answers.{code_of, left_in, bit_of, found_in, height_put, kind_of, place_put, index_put, vertices_put, grid_of, grid_if, counts_used, verdict_given, written_answer, written_of, ring_floats, plain_answer};

use crate::tell::{tell_count, tell_elevation, tell_mesh, tell_outline, tell_verdict};
use joining::join::join;
use lookup::batch::tops;
use lookup::grid::build;
use lookup::record::{height_record, top_record};
use shape::ears::ear_clip;
use shape::elevation::{ElevationGrid, Heights};
use shape::junction::mesh;
use shape::junction_areas::Boundary;
use shape::lists::Mesh;
use shape::mesh::{Lanes, surface_mesh};
use shape::refusal::{Refusal, refuse_if};
use shape::validate::MeshError;
use shape::{elevation, junction_areas};
use surface::file::{read, write};
use surface::report::report;
use surface::sentence;

mod tell;

// The numbers of an elevation grid as they are lent.
fn grid_of(
    origin_x: f64,
    origin_y: f64,
    sin: f64,
    cos: f64,
    start: f64,
    spacing: f64,
) -> ElevationGrid
    ensures { result ≡ grid_of origin_x origin_y sin cos start spacing }
{
    ElevationGrid {
        origin_x,
        origin_y,
        sin,
        cos,
        start,
        spacing,
    }
}

// The height of an elevation grid at s along and t to the left of its reference line: 1 found or 0 none.
#[unsafe(no_mangle)]
pub extern "C" fn rs_elevation_height(
    origin_x: f64,
    origin_y: f64,
    sin: f64,
    cos: f64,
    start: f64,
    spacing: f64,
    rows: &[u32],
    left: &[f64],
    right: &[f64],
    s: f64,
    t: f64,
    height: &mut f64,
) -> u64
    ensures result_value { let a = height_answer (grid_of origin_x origin_y sin cos start spacing) rows.now left.now right.now s t in result ≡ code_of found_in a }
    ensures height_after { let a = height_answer (grid_of origin_x origin_y sin cos start spacing) rows.now left.now right.now s t in
        height.new ≡ left_in height_put a height.old }
{
    let grid = grid_of(origin_x, origin_y, sin, cos, start, spacing);
    let heights = Heights { rows, left, right };
    let a = elevation::height(grid, heights, s, t);
    tell_elevation(a, height)
}

// The height of an elevation grid under (x, y): 1 found or 0 none.
#[unsafe(no_mangle)]
pub extern "C" fn rs_elevation_height_at(
    origin_x: f64,
    origin_y: f64,
    sin: f64,
    cos: f64,
    start: f64,
    spacing: f64,
    rows: &[u32],
    left: &[f64],
    right: &[f64],
    x: f64,
    y: f64,
    height: &mut f64,
) -> u64
    ensures result_value { let a = height_at_answer (grid_of origin_x origin_y sin cos start spacing) rows.now left.now right.now x y in result ≡ code_of found_in a }
    ensures height_after { let a = height_at_answer (grid_of origin_x origin_y sin cos start spacing) rows.now left.now right.now x y in
        height.new ≡ left_in height_put a height.old }
{
    let grid = grid_of(origin_x, origin_y, sin, cos, start, spacing);
    let heights = Heights { rows, left, right };
    let under = elevation::height_at(grid, heights, x, y);
    tell_elevation(under, height)
}

// Boundary segments joined to a ring: its points. Told beside it: segments dropped, greatest gap, closed, turned.
#[unsafe(no_mangle)]
pub extern "C" fn rs_ring(
    segments: &[u32],
    points: &[f32],
    ring: &mut [f32],
    dropped: &mut u32,
    gap: &mut f32,
    closed: &mut u32,
    turned: &mut u32,
) -> u64
    ensures result_value { let a = outline_answer segments.now points.now (length ring.old) in result ≡ code_of (λ o. o.count) a }
    ensures ring_after { let a = outline_answer segments.now points.now (length ring.old) in
        ring.new ≡ leaves a (ring_floats segments.now points.now) ring.old }
    ensures dropped_after { let a = outline_answer segments.now points.now (length ring.old) in
        dropped.new ≡ left_in (λ o _. word_for o.dropped) a dropped.old }
    ensures gap_after { let a = outline_answer segments.now points.now (length ring.old) in gap.new ≡ left_in (λ o _. o.gap) a gap.old }
    ensures closed_after { let a = outline_answer segments.now points.now (length ring.old) in
        closed.new ≡ left_in (λ o _. bit_of o.closed) a closed.old }
    ensures turned_after { let a = outline_answer segments.now points.now (length ring.old) in
        turned.new ≡ left_in (λ o _. bit_of o.turned) a turned.old }
{
    let a = junction_areas::ring(Boundary { segments, points }, ring);
    tell_outline(a, dropped, gap, closed, turned)
}

// The ears of a ring: how many.
#[unsafe(no_mangle)]
pub extern "C" fn rs_ear_clip(ring: &[f32], ears: &mut [u32]) -> u64
    ensures result_value { let a = ears_answer ring.now (length ears.old) in result ≡ code_of (λ n. n) a }
    ensures ears_after { let a = ears_answer ring.now (length ears.old) in ears.new ≡ leaves a (ears_of ring.now) ears.old }
{
    let clipped = ear_clip(ring, ears);
    tell_count(clipped)
}

// The ground inside a boundary as triangles: how many vertices, and as many normals and indices. The grid is
// there where `has_grid` is, and its numbers are not looked at else.
#[tactic(auto, unfolding(crate::specs::Answers::grid_if))]
#[unsafe(no_mangle)]
pub extern "C" fn rs_junction_mesh(
    ring: &[f32],
    has_grid: bool,
    origin_x: f64,
    origin_y: f64,
    sin: f64,
    cos: f64,
    start: f64,
    spacing: f64,
    rows: &[u32],
    left: &[f64],
    right: &[f64],
    vertices: &mut [f32],
    normals: &mut [f32],
    indices: &mut [u32],
) -> u64
    ensures result_value { let g = ground ring.now (grid_if has_grid (grid_of origin_x origin_y sin cos start spacing)) rows.now left.now right.now in
        let before = mesh_lists vertices.old normals.old indices.old [] in
        result ≡ code_of (λ n. n) (ground_answer g before) }
    ensures mesh_after { let g = ground ring.now (grid_if has_grid (grid_of origin_x origin_y sin cos start spacing)) rows.now left.now right.now in
        let before = mesh_lists vertices.old normals.old indices.old [] in
        let after = mesh_lists vertices.new normals.new indices.new [] in
        after ≡ leaves_mesh (ground_answer g before) (ground_mesh g) before }
{
    let grid = grid_of(origin_x, origin_y, sin, cos, start, spacing);
    let heights = Heights { rows, left, right };
    let there = has_grid.then_some(grid);
    let made = mesh(ring, there, heights, vertices, normals, indices);
    tell_count(made)
}

// The strips of lanes: how many vertices. Told beside it: how many normals, indices and spans.
#[unsafe(no_mangle)]
pub extern "C" fn rs_surface_mesh(
    points: &[f32],
    tangents: &[f32],
    widths: &[f32],
    banks: &[f32],
    lanes: &[u32],
    vertices: &mut [f32],
    normals: &mut [f32],
    indices: &mut [u32],
    spans: &mut [u32],
    normal_count: &mut u32,
    index_count: &mut u32,
    span_count: &mut u32,
) -> u64
    ensures result_value { let g = given points.now tangents.now widths.now banks.now lanes.now in
        let before = mesh_lists vertices.old normals.old indices.old spans.old in
        result ≡ code_of (λ m. m.vertices) (answer_of g before) }
    ensures mesh_after { let g = given points.now tangents.now widths.now banks.now lanes.now in
        let before = mesh_lists vertices.old normals.old indices.old spans.old in
        let after = mesh_lists vertices.new normals.new indices.new spans.new in
        after ≡ leaves_mesh (answer_of g before) (mesh_of g) before }
    ensures normal_count_after { let g = given points.now tangents.now widths.now banks.now lanes.now in
        let before = mesh_lists vertices.old normals.old indices.old spans.old in
        normal_count.new ≡ left_in (λ m _. word_for m.normals) (answer_of g before) normal_count.old }
    ensures index_count_after { let g = given points.now tangents.now widths.now banks.now lanes.now in
        let before = mesh_lists vertices.old normals.old indices.old spans.old in
        index_count.new ≡ left_in (λ m _. word_for m.indices) (answer_of g before) index_count.old }
    ensures span_count_after { let g = given points.now tangents.now widths.now banks.now lanes.now in
        let before = mesh_lists vertices.old normals.old indices.old spans.old in
        span_count.new ≡ left_in (λ m _. word_for m.spans) (answer_of g before) span_count.old }
{
    let given = Lanes {
        points,
        tangents,
        widths,
        banks,
        records: lanes,
    };
    let a = surface_mesh(given, vertices, normals, indices, spans);
    tell_mesh(a, normal_count, index_count, span_count)
}

// Two meshes as one: how many vertices. Told beside it: how many normals, indices and spans.
#[unsafe(no_mangle)]
pub extern "C" fn rs_join(
    first_vertices: &[f32],
    first_normals: &[f32],
    first_indices: &[u32],
    first_spans: &[u32],
    second_vertices: &[f32],
    second_normals: &[f32],
    second_indices: &[u32],
    second_spans: &[u32],
    vertices: &mut [f32],
    normals: &mut [f32],
    indices: &mut [u32],
    spans: &mut [u32],
    normal_count: &mut u32,
    index_count: &mut u32,
    span_count: &mut u32,
) -> u64
    ensures result_value { let a = mesh_lists first_vertices.now first_normals.now first_indices.now first_spans.now in
        let b = mesh_lists second_vertices.now second_normals.now second_indices.now second_spans.now in
        let before = mesh_lists vertices.old normals.old indices.old spans.old in
        result ≡ code_of (λ m. m.vertices) (join_answer a b before) }
    ensures mesh_after { let a = mesh_lists first_vertices.now first_normals.now first_indices.now first_spans.now in
        let b = mesh_lists second_vertices.now second_normals.now second_indices.now second_spans.now in
        let before = mesh_lists vertices.old normals.old indices.old spans.old in
        let after = mesh_lists vertices.new normals.new indices.new spans.new in
        after ≡ leaves_mesh (join_answer a b before) (join_of a b) before }
    ensures normal_count_after { let a = mesh_lists first_vertices.now first_normals.now first_indices.now first_spans.now in
        let b = mesh_lists second_vertices.now second_normals.now second_indices.now second_spans.now in
        let before = mesh_lists vertices.old normals.old indices.old spans.old in
        normal_count.new ≡ left_in (λ m _. word_for m.normals) (join_answer a b before) normal_count.old }
    ensures index_count_after { let a = mesh_lists first_vertices.now first_normals.now first_indices.now first_spans.now in
        let b = mesh_lists second_vertices.now second_normals.now second_indices.now second_spans.now in
        let before = mesh_lists vertices.old normals.old indices.old spans.old in
        index_count.new ≡ left_in (λ m _. word_for m.indices) (join_answer a b before) index_count.old }
    ensures span_count_after { let a = mesh_lists first_vertices.now first_normals.now first_indices.now first_spans.now in
        let b = mesh_lists second_vertices.now second_normals.now second_indices.now second_spans.now in
        let before = mesh_lists vertices.old normals.old indices.old spans.old in
        span_count.new ≡ left_in (λ m _. word_for m.spans) (join_answer a b before) span_count.old }
{
    let first = Mesh {
        vertices: first_vertices,
        normals: first_normals,
        indices: first_indices,
        spans: first_spans,
    };
    let second = Mesh {
        vertices: second_vertices,
        normals: second_normals,
        indices: second_indices,
        spans: second_spans,
    };
    let whole = join(first, second, vertices, normals, indices, spans);
    tell_mesh(whole, normal_count, index_count, span_count)
}

// The plain lookup: 1 found or 0 none, and its record, which names no lane.
#[unsafe(no_mangle)]
pub extern "C" fn rs_height_at(
    vertices: &[f32],
    normals: &[f32],
    indices: &[u32],
    spans: &[u32],
    x: f32,
    y: f32,
    words: &mut [u32],
) -> u64
    ensures result_value { let s = plain_answer (mesh_lists vertices.now normals.now indices.now spans.now) x y in
        let a = record_answer s (length words.old) in
        result ≡ code_of (λ n. n) a }
    ensures words_after { let s = plain_answer (mesh_lists vertices.now normals.now indices.now spans.now) x y in
        let a = record_answer s (length words.old) in
        words.new ≡ leaves a (record_of s) words.old }
{
    let mesh = Mesh {
        vertices,
        normals,
        indices,
        spans,
    };
    let plain = height_record(mesh, x, y, words);
    tell_count(plain)
}

// Builds the index of a mesh: how many words it has.
#[unsafe(no_mangle)]
pub extern "C" fn rs_build_index(
    vertices: &[f32],
    normals: &[f32],
    indices: &[u32],
    spans: &[u32],
    index: &mut [u32],
) -> u64
    ensures result_value { let a = build_of (mesh_lists vertices.now normals.now indices.now spans.now) (length index.old) in result ≡ code_of (λ n. n) a }
    ensures index_after { let a = build_of (mesh_lists vertices.now normals.now indices.now spans.now) (length index.old) in
        index.new ≡ leaves a (index_words vertices.now indices.now) index.old }
{
    let mesh = Mesh {
        vertices,
        normals,
        indices,
        spans,
    };
    let built = build(mesh, index);
    tell_count(built)
}

// The indexed lookup: 1 found or 0 none, and its record.
#[unsafe(no_mangle)]
pub extern "C" fn rs_top(
    vertices: &[f32],
    normals: &[f32],
    indices: &[u32],
    spans: &[u32],
    index: &[u32],
    x: f32,
    y: f32,
    words: &mut [u32],
) -> u64
    ensures result_value { let s = top_of (mesh_lists vertices.now normals.now indices.now spans.now) index.now x y in
        let a = record_answer s (length words.old) in
        result ≡ code_of (λ n. n) a }
    ensures words_after { let s = top_of (mesh_lists vertices.now normals.now indices.now spans.now) index.now x y in
        let a = record_answer s (length words.old) in
        words.new ≡ leaves a (record_of s) words.old }
{
    let mesh = Mesh {
        vertices,
        normals,
        indices,
        spans,
    };
    let one = top_record(mesh, index, x, y, words);
    tell_count(one)
}

// The indexed lookup at many points, eight words a point: how many points.
#[unsafe(no_mangle)]
pub extern "C" fn rs_tops(
    vertices: &[f32],
    normals: &[f32],
    indices: &[u32],
    spans: &[u32],
    index: &[u32],
    points: &[f32],
    records: &mut [u32],
) -> u64
    ensures result_value { let m = mesh_lists vertices.now normals.now indices.now spans.now in
        let a = tops_of m index.now points.now (length records.old) in
        result ≡ code_of (λ n. n) a }
    ensures records_after { let m = mesh_lists vertices.now normals.now indices.now spans.now in
        let a = tops_of m index.now points.now (length records.old) in
        records.new ≡ leaves a (records_of m index.now points.now) records.old }
{
    let mesh = Mesh {
        vertices,
        normals,
        indices,
        spans,
    };
    let many = tops(mesh, index, points, records);
    tell_count(many)
}

// The verdict on a mesh: its kind. Told beside it where that has them: the vertex or the triangle; the index
// that is past the vertices, and how many these are.
#[unsafe(no_mangle)]
pub extern "C" fn rs_validate(
    vertices: &[f32],
    normals: &[f32],
    indices: &[u32],
    spans: &[u32],
    place: &mut u32,
    index: &mut u32,
    vertex_count: &mut u32,
) -> u64
    ensures result_value { let m = mesh_lists vertices.now normals.now indices.now spans.now in
        let a = judge (mesh_fault m) (taken (validity_of vertices.now indices.now)) in
        result ≡ code_of kind_of a }
    ensures place_after { let m = mesh_lists vertices.now normals.now indices.now spans.now in
        let a = judge (mesh_fault m) (taken (validity_of vertices.now indices.now)) in
        place.new ≡ left_in place_put a place.old }
    ensures index_after { let m = mesh_lists vertices.now normals.now indices.now spans.now in
        let a = judge (mesh_fault m) (taken (validity_of vertices.now indices.now)) in
        index.new ≡ left_in index_put a index.old }
    ensures vertex_count_after { let m = mesh_lists vertices.now normals.now indices.now spans.now in
        let a = judge (mesh_fault m) (taken (validity_of vertices.now indices.now)) in
        vertex_count.new ≡ left_in vertices_put a vertex_count.old }
{
    let mesh = Mesh {
        vertices,
        normals,
        indices,
        spans,
    };
    let a = mesh.validate();
    tell_verdict(a, place, index, vertex_count)
}

// A verdict by its kind and counts, as `rs_validate` tells them.
#[tactic(auto, unfolding(shape::specs::Refusal::refuse, shape::specs::Refusal::judge, shape::specs::Refusal::number_of, shape::specs::Refusal::place_of, shape::specs::Refusal::found, shape::specs::Verdict::read_verdict, shape::specs::Verdict::verdict_of, crate::specs::Answers::idle, crate::specs::Answers::verdict_fault, crate::specs::Answers::verdict_by, crate::specs::Answers::verdict_given))]
fn given_verdict(
    kind: u32,
    place: u32,
    index: u32,
    vertex_count: u32,
) -> Result<Result<(), MeshError>, Refusal>
    ensures { read_verdict result ≡ verdict_given kind place index vertex_count }
{
    let used = counts_used(kind);
    refuse_if(4 < kind, Refusal::NotAVerdict(0))?;
    refuse_if(used < 1 && place != 0, Refusal::NotAVerdict(1))?;
    refuse_if(used < 2 && index != 0, Refusal::NotAVerdict(2))?;
    refuse_if(used < 3 && vertex_count != 0, Refusal::NotAVerdict(3))?;
    Ok(match kind {
        0 => Ok(()),
        1 => Err(MeshError::Empty),
        2 => Err(MeshError::NonFiniteVertex(place as usize)),
        3 => Err(MeshError::IndexOutOfRange(place as usize, index as usize, vertex_count as usize)),
        _ => Err(MeshError::DegenerateTriangle(place as usize)),
    })
}

// How many counts a verdict of this kind has.
#[tactic(auto, unfolding(crate::specs::Answers::counts_used))]
fn counts_used(kind: u32) -> u32
    ensures { result ≡ counts_used kind }
{
    match kind {
        3 => 3,
        2 | 4 => 1,
        _ => 0,
    }
}

// The sentence of a verdict; one that is turned back is passed on.
#[tactic(auto, unfolding(shape::specs::Refusal::told, shape::specs::Refusal::leaves, shape::specs::Refusal::number_of, shape::specs::Refusal::place_of, shape::specs::Verdict::read_verdict, crate::specs::Answers::written_answer, crate::specs::Answers::written_of))]
fn write_given(
    verdict: Result<Result<(), MeshError>, Refusal>,
    text: &mut [u8],
) -> Result<usize, Refusal>
    ensures result_value { told result ≡ written_answer (read_verdict verdict) (length text.old) }
    ensures text_after { text.new ≡ leaves (written_answer (read_verdict verdict) (length text.old)) (written_of (read_verdict verdict)) text.old }
{
    sentence::write(verdict?, text)
}

// The sentence of a verdict by its kind and counts: how many bytes.
#[unsafe(no_mangle)]
pub extern "C" fn rs_verdict_write(
    kind: u32,
    place: u32,
    index: u32,
    vertex_count: u32,
    text: &mut [u8],
) -> u64
    ensures result_value { let v = verdict_given kind place index vertex_count in
        let a = written_answer v (length text.old) in
        result ≡ code_of (λ n. n) a }
    ensures text_after { let v = verdict_given kind place index vertex_count in
        let a = written_answer v (length text.old) in
        text.new ≡ leaves a (written_of v) text.old }
{
    let verdict = given_verdict(kind, place, index, vertex_count);
    let logged = write_given(verdict, text);
    tell_count(logged)
}

// The verdict of a sentence: its kind. Told beside it is the same as by `rs_validate`.
#[unsafe(no_mangle)]
pub extern "C" fn rs_verdict_read(
    text: &[u8],
    place: &mut u32,
    index: &mut u32,
    vertex_count: &mut u32,
) -> u64
    ensures result_value { result ≡ code_of kind_of (read_sentence text.now) }
    ensures place_after { place.new ≡ left_in place_put (read_sentence text.now) place.old }
    ensures index_after { index.new ≡ left_in index_put (read_sentence text.now) index.old }
    ensures vertex_count_after { vertex_count.new ≡ left_in vertices_put (read_sentence text.now) vertex_count.old }
{
    let found = sentence::read(text);
    tell_verdict(found, place, index, vertex_count)
}

// The words that are held of a surface file: how many.
#[unsafe(no_mangle)]
pub extern "C" fn rs_surface_read(bytes: &[u8], held: &mut [u32]) -> u64
    ensures result_value { let a = read_of bytes.now (length held.old) in result ≡ code_of (λ n. n) a }
    ensures held_after { let a = read_of bytes.now (length held.old) in held.new ≡ leaves a (words_of bytes.now) held.old }
{
    let copied = read(bytes, held);
    tell_count(copied)
}

// The surface file of held words: how many bytes.
#[unsafe(no_mangle)]
pub extern "C" fn rs_surface_write(held: &[u32], bytes: &mut [u8]) -> u64
    ensures result_value { let a = write_of held.now (length bytes.old) in result ≡ code_of (λ n. n) a }
    ensures bytes_after { let a = write_of held.now (length bytes.old) in bytes.new ≡ leaves a (bytes_of held.now) bytes.old }
{
    let written = write(held, bytes);
    tell_count(written)
}

// The text that `probe` prints of a surface file: how many bytes.
#[unsafe(no_mangle)]
pub extern "C" fn rs_report(bytes: &[u8], text: &mut [u8]) -> u64
    ensures result_value { let a = report_answer bytes.now (length text.old) in result ≡ code_of (λ n. n) a }
    ensures text_after { let a = report_answer bytes.now (length text.old) in text.new ≡ leaves a (report_of bytes.now) text.old }
{
    let reported = report(bytes, text);
    tell_count(reported)
}
