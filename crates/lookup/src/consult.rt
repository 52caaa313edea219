// Consulting an index, of any words: what its first words tell, where the candidates of a point stand, and which
// entry is no triangle. Nothing is believed of the words that is not looked at.
#![tactic(auto, using(crate::proofs::Fronts::few, crate::proofs::Fronts::framed_at, crate::proofs::Laws::Column::col_lt, crate::proofs::Laws::Heads::head_sided, crate::proofs::Laws::Heads::consult_none, crate::proofs::Laws::Heads::entry_none, crate::proofs::Laws::Heads::entry_bad, crate::proofs::Laws::Heads::entry_next), unfolding(shape::specs::Refusal::found, shape::specs::Refusal::refuse, shape::specs::Refusal::number_of, shape::specs::Refusal::place_of, shape::specs::Refusal::or_else, shape::specs::Refusal::judge, crate::specs::Consult::float_at, crate::specs::Consult::inside, crate::specs::Consult::cell_at, crate::specs::Consult::run_of, crate::specs::Consult::start_fault, crate::specs::Steps::frame_at, crate::specs::Opened::Opens, crate::specs::Steps::cell_or_outside, crate::specs::Steps::Started))]

ghost use Rattle.std.specs.Prelude.{◌≡◌, ◌-◌, ◌^◌, ◌<◌, ◌≤◌, true, length};
ghost use Rattle.shape.specs.Refusal.{fine, found};
ghost use Rattle.lookup.specs.Consult.{float_at, head_fault, entry_fault, run_of, consult_of};
ghost use Rattle.lookup.specs.Steps.{Ready, Started, frame_at, cell_or_outside};

use crate::frame::{Frame, Grid};
use rounding::bits::from_bits32;
use shape::lists::word_at;
use shape::refusal::{Refusal, refuse_if};
use std::ops::Range;

// The most words of an index.
pub const MAX_WORDS: usize = 4194304;

// ---- the first words

// Why the index is not one of a mesh with `count` triangles, before any cell is looked at.
#[tactic(auto, unfolding(crate::specs::Consult::head_fault, crate::specs::Consult::sides, crate::specs::Consult::declares, shape::specs::Refusal::found, shape::specs::Refusal::refuse, shape::specs::Refusal::number_of, shape::specs::Refusal::place_of))]
fn head_fault(index: &[u32], count: usize) -> Result<(), Refusal>
    ensures { found result ≡ head_fault index.now count }
{
    refuse_if(index.len() < 9, Refusal::ForeignIndex(index.len()))?;
    refuse_if(word_at(index, 0) != count, Refusal::ForeignIndex(0))?;
    let cols = word_at(index, 1);
    let rows = word_at(index, 2);
    refuse_if(1024 < cols, Refusal::ForeignIndex(1))?;
    if cols == 0 && rows == 0 {
        return Ok(());
    }
    refuse_if(
        cols == 0 || rows == 0 || 1024 < rows,
        Refusal::ForeignIndex(2),
    )?;
    refuse_if(
        index.len() < 10 + cols * rows + word_at(index, 8),
        Refusal::ForeignIndex(index.len()),
    )
}

// The float at word i of the index.
fn float(index: &[u32], i: usize) -> f32
    ensures { result ≡ float_at index.now i }
{
    from_bits32(word_at(index, i) as u32)
}

// Words 1 to 7.
fn frame_at(index: &[u32]) -> Frame
    ensures { result ≡ frame_at index.now }
{
    Frame {
        cols: word_at(index, 1),
        rows: word_at(index, 2),
        min_x: float(index, 3),
        min_y: float(index, 4),
        max_x: float(index, 5),
        max_y: float(index, 6),
        cell: float(index, 7),
    }
}

// An index that its first words tell to be one of a mesh with `count` triangles and to have cells to consult: its
// grid, and how many entries it has.
#[derive(Clone, Copy)]
pub(crate) struct Index<'a> {
    pub words: &'a [u32],
    pub count: usize,
    pub grid: Grid,
    pub entries: usize,
    ghost ready: { Ready words.now count grid.frame entries },
}

impl<'a> Index<'a> {
    ghost use Rattle.lookup.specs.Opened.{Opens};

    // Looks at the first words of an index of a mesh with `count` triangles, once for all points: none where
    // there are no cells to consult.
    pub(crate) fn open(words: &'a [u32], count: usize) -> Result<Option<Index<'a>>, Refusal>
        ensures { Opens words.now count result }
    {
        head_fault(words, count)?;
        if word_at(words, 1) == 0 {
            return Ok(None);
        }
        Ok(Some(Index {
            words,
            count,
            grid: Grid {
                frame: frame_at(words),
            },
            entries: word_at(words, 8),
        }))
    }

    // ---- the cell of a point

    // The cell that holds (x, y), if the grid does. A NaN is nowhere.
    fn cell(self, x: f32, y: f32) -> Option<usize>
        ensures { result ≡ cell_or_outside self.entry.words.now x y }
    {
        let f = self.grid.frame;
        if f.min_x <= x && x <= f.max_x && f.min_y <= y && y <= f.max_y {
            return Some(self.grid.rows().col(y) * f.cols + self.grid.columns().col(x));
        }
        None
    }

    // The run of cell c: from which place of the index up to which. Its entries are not looked at.
    fn run(self, c: usize) -> Result<Option<Range<usize>>, Refusal>
        requires { c < 2 ^ 20 }
        ensures { let ws = self.entry.words.now in let n = self.entry.count in Started ws n (run_of ws n c) result }
    {
        let a = word_at(self.words, 9 + c);
        let e = word_at(self.words, 10 + c);
        refuse_if(self.entries < a, Refusal::ForeignIndex(9 + c))?;
        refuse_if(e < a || self.entries < e, Refusal::ForeignIndex(10 + c))?;
        let first = 10 + self.grid.frame.cols * self.grid.frame.rows;
        Ok(Some(first + a..first + e))
    }

    // Where the candidates of (x, y) stand, if anywhere. The entries are not looked at.
    pub(crate) fn locate(self, x: f32, y: f32) -> Result<Option<Range<usize>>, Refusal>
        ensures { let ws = self.entry.words.now in let n = self.entry.count in Started ws n (consult_of ws n x y) result }
    {
        let Some(c) = self.cell(x, y) else {
            return Ok(None);
        };
        self.run(c)
    }

    // ---- the entries

    // The first of the entries of a run that is no triangle.
    fn entry_fault(self, run: Range<usize>) -> Result<(), Refusal>
        ensures { found result ≡ entry_fault self.entry.words.now self.entry.count run.start (run.end - run.start) }
    {
        for i in run.start..run.end {
            if self.count <= word_at(self.words, i) {
                return Err(Refusal::ForeignIndex(i));
            }
        }
        Ok(())
    }

    // Why the entries of a run are turned back, if they are. They are not where the scan has found each of them to
    // be a whole triangle.
    pub(crate) fn check_run(self, run: Range<usize>, whole: bool) -> Result<(), Refusal>
        requires { let ws = self.words.now in whole ≡ true → run.end ≤ length ws → entry_fault ws self.count run.start (run.end - run.start) ≡ fine }
        ensures { found result ≡ entry_fault self.entry.words.now self.entry.count run.start (run.end - run.start) }
    {
        if whole && run.end <= self.words.len() {
            return Ok(());
        }
        self.entry_fault(run)
    }
}
