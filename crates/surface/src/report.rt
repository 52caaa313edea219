// The text that `probe` prints of a surface file. All questions are answered by one call of the indexed
// lookup, over an index that is built in memory of this module's own; the length of the text comes from
// the answers, and it is written once, into the memory that is lent for it.
ghost use Rattle.std.specs.Prelude.{◌≡◌, cond, ◌++◌, ◌+◌, ◌*◌, ◌<◌, ◌≤◌, ◌^◌, length, drop};
ghost use Rattle.shape.specs.Memory.{Put};
ghost use Rattle.shape.specs.Lists.{lists_of};
ghost use Rattle.shape.specs.Refusal.{leaves, taken, told, number_of, place_of};
ghost use Rattle.lookup.specs.Index.{build_of};
ghost use Rattle.lookup.specs.Batch.{record_words};
ghost use Rattle.surface.specs.Lent.{words_in};
ghost use Rattle.surface.specs.Held.{how_many, count_kind, points_of};
ghost use Rattle.surface.specs.Text.{refused_line};
ghost use Rattle.surface.specs.Report.{mesh_in, index_in, answered_at, lines_of, report_of, report_answer};
ghost use Rattle.surface.specs.ReportSteps.{Asked, Tells, Totalled, Says, text_of, is_found, surface_text};

use crate::file::file_fault;
use crate::held::Surface;
use crate::text::{FoundLine, PairLine, none_length, put_none};
use lookup::batch::tops;
use lookup::grid::build;
use lookup::record::RECORD_WORDS;
use rounding::bits::from_bits32;
use shape::lists::Mesh;
use shape::refusal::{Refusal, refuse_if};
use vector::coords::Vector;

// ---- a refusal

// A refusal is all that is printed.
fn tell_refusal(r: Refusal, text: &mut [u8]) -> Result<usize, Refusal>
    requires { place_of r < 2 ^ 32 }
    ensures { Says (refused_line (number_of r) (place_of r)) text.old text.new result }
{
    let line = PairLine::refused(r.number(), r.place() as u32);
    let size = line.length();
    refuse_if(text.len() < size, Refusal::ShortOutput(size))?;
    line.put(text, 0);
    Ok(size)
}

// ---- one line

// The line of question k, from `at` on.
#[tactic(auto, using(crate::proofs::Telling::found_long, crate::proofs::Telling::none_long), unfolding(crate::specs::ReportSteps::text_of, crate::specs::ReportSteps::is_found))]
fn put_line(out: &mut [u8], at: usize, k: usize, line: Option<FoundLine>) -> usize
    requires { (k < 2 ^ 32) × (at + length (text_of k line) ≤ length out.old) }
    ensures { Put out.old out.new at (text_of k line) result }
{
    match line {
        Some(found) => found.put(out, at, k as u32),
        None => put_none(out, at, k as u32),
    }
}

// How long lines are together, and how many of them tell an answer.
#[derive(Clone, Copy)]
struct LineTotals {
    size: usize,
    found: u32,
}

// One line more, that of question k.
#[tactic(auto, using(crate::proofs::Telling::found_long, crate::proofs::Telling::none_long), unfolding(crate::specs::ReportSteps::text_of, crate::specs::ReportSteps::is_found))]
fn counted(totals: LineTotals, k: usize, line: Option<FoundLine>) -> LineTotals
    requires { (k < 2048) × (totals.size ≤ 204800) × (totals.found ≤ 2048) }
    ensures { (result.size ≡ totals.size + length (text_of k line)) × (result.found ≡ totals.found + cond (is_found line) 1 0) }
{
    match line {
        Some(found) => LineTotals {
            size: totals.size + found.length(k as u32),
            found: totals.found + 1,
        },
        None => LineTotals {
            size: totals.size + none_length(k as u32),
            found: totals.found,
        },
    }
}

// ---- the answers

// A surface whose questions are answered, by a record for each.
#[derive(Clone, Copy)]
struct Answered<'a> {
    surface: Surface<'a>,
    records: &'a [u32],
    ghost asked: { Asked (words_in surface) surface.sizes records.now },
    ghost whole: { length records.now ≡ record_words * surface.sizes.questions },
}

impl Answered<'_> {
    // What the line of question k tells, by its record, if it has an answer.
    fn line_at(self, k: usize) -> Option<FoundLine>
        requires { k < self.surface.sizes.questions }
        ensures { Tells (words_in self.entry.surface) k result }
    {
        let [found, height, x, y, z, triangle, _, _] = self
            .records
            .as_chunks::<RECORD_WORDS>()
            .0[k];
        if found == 0 {
            return None;
        }
        let normal = Vector {
            x: from_bits32(x),
            y: from_bits32(y),
            z: from_bits32(z),
        };
        let lane = self.surface.lane_of(triangle as usize);
        Some(FoundLine {
            height: from_bits32(height),
            normal,
            triangle,
            lane,
        })
    }

    // The lines of all questions.
    fn tally(self) -> LineTotals
        ensures { Totalled (words_in self.entry.surface) result }
    {
        let mut totals = LineTotals { size: 0, found: 0 };
        for k in 0..self.surface.sizes.questions {
            totals = counted(totals, k, self.line_at(k));
        }
        totals
    }

    // The lines of all questions, and the last line.
    fn put_lines(self, found: u32, out: &mut [u8]) -> usize
        requires found_value { let ws = words_in self.surface in found ≡ how_many (answered_at ws) (count_kind ws 3) }
        requires bytes_in_bounds { length (lines_of (words_in self.surface)) ≤ length out.old }
        ensures { Put out.old out.new 0 (lines_of (words_in self.entry.surface)) result }
    {
        let n = self.surface.sizes.questions;
        let mut at = 0;
        for k in 0..n {
            at = put_line(out, at, k, self.line_at(k));
        }
        PairLine::asked(n as u32, found).put(out, at)
    }

    // The text. Its length is known before any of it is written.
    fn tell(self, text: &mut [u8]) -> Result<usize, Refusal>
        ensures { Says (lines_of (words_in self.entry.surface)) text.old text.new result }
    {
        let totals = self.tally();
        let last = PairLine::asked(self.surface.sizes.questions as u32, totals.found);
        let wanted = totals.size + last.length();
        refuse_if(text.len() < wanted, Refusal::ShortOutput(wanted))?;
        self.put_lines(totals.found, text);
        Ok(wanted)
    }
}

// ---- from the file to the answers

// A surface whose mesh and questions' points stand in lists.
#[derive(Clone, Copy)]
struct Unpacked<'a> {
    surface: Surface<'a>,
    mesh: Mesh<'a>,
    points: &'a [f32],
    ghost meshed: { lists_of mesh ≡ mesh_in (words_in surface) },
    ghost pointed: { points.now ≡ points_of (words_in surface) },
}

impl Unpacked<'_> {
    // The text, by an index that was built of the mesh: all questions are asked at once.
    fn tell_answers(self, index: &[u32], text: &mut [u8]) -> Result<usize, Refusal>
        requires index_value { index.now ≡ index_in (words_in self.surface) }
        requires bytes_value { build_of (mesh_in (words_in self.surface)) 16384 ≡ taken (length index.now) }
        ensures { Says (lines_of (words_in self.entry.surface)) text.old text.new result }
    {
        let mut records = [0u32; 2048 * RECORD_WORDS];
        // An index is never foreign to the mesh that it was built from (`all_taken`).
        let n = tops(self.mesh, index, self.points, &mut records)?;
        let answered = Answered {
            surface: self.surface,
            records: &records[..RECORD_WORDS * n],
        };
        answered.tell(text)
    }

    // The text: the index is built first.
    fn tell(self, text: &mut [u8]) -> Result<usize, Refusal>
        ensures { Says (surface_text (words_in self.entry.surface)) text.old text.new result }
    {
        let mut index = [0u32; 16384];
        match build(self.mesh, &mut index) {
            Err(r) => tell_refusal(r, text),
            Ok(n) => self.tell_answers(&index[..n], text),
        }
    }
}

// The text of a file that is sound.
#[tactic(auto, using(crate::proofs::Reporting::put_part, shape::proofs::Laws::Memory::put_front), unfolding(crate::specs::Report::mesh_in))]
fn tell_surface(surface: Surface, text: &mut [u8]) -> Result<usize, Refusal>
    ensures { Says (surface_text (words_in surface.entry)) text.old text.new result }
{
    let mut vertices = [0.0f32; 6144];
    let mut normals = [0.0f32; 6144];
    let mut indices = [0u32; 6144];
    let mut points = [0.0f32; 4096];
    surface.unpack_vertices(&mut vertices);
    surface.unpack_normals(&mut normals);
    surface.unpack_indices(&mut indices);
    surface.unpack_points(&mut points);
    let v = 3 * surface.sizes.vertices;
    let i = 3 * surface.sizes.triangles;
    let q = 2 * surface.sizes.questions;
    let mesh = Mesh {
        vertices: &vertices[..v],
        normals: &normals[..v],
        indices: &indices[..i],
        spans: &[],
    };
    let unpacked = Unpacked {
        surface,
        mesh,
        points: &points[..q],
    };
    unpacked.tell(text)
}

// ---- the calls

// The text that `probe` prints of a file, into `text`.
pub fn report(bytes: &[u8], text: &mut [u8]) -> Result<usize, Refusal>
    ensures result_value { told result ≡ report_answer bytes.now (length text.old) }
    ensures text_after { text.new ≡ leaves (report_answer bytes.now (length text.old)) (report_of bytes.now) text.old }
{
    match file_fault(bytes) {
        Err(r) => tell_refusal(r, text),
        Ok(()) => tell_surface(Surface::new(bytes), text),
    }
}

// What `probe` does with its memory: the text of a file, at the front of `text`, and how long it is. The
// longest text is 2,048 lines of 100 bytes and a last line of 34.
pub fn probe(bytes: &[u8], text: &mut [u8; 204834]) -> usize
    ensures value { result ≡ length (report_of bytes.now) }
    ensures text_after { text.new ≡ report_of bytes.now ++ drop result text.old }
{
    // There is always room (`report_taken`).
    report(bytes, text).unwrap_or(0)
}
