// Works the cases of a stored list and compares with the answers stored beside them. The list is read
// from standard input, in 32-bit words, the low byte first: blocks of an operation's number, the number
// of its cases, and for each case the count of its input words, these, the count of its answer words,
// and these. A line for each block says how many cases differ, and the last line for all.
#![tactic(auto)]

mod bytes;
mod file_ops;
mod grid_ops;
mod join_ops;
mod junction_ops;
mod lists;
mod lookup_ops;
mod mesh_ops;
mod ops;
mod outline_ops;
mod refused;
mod verdict_ops;

use ops::Op;
use std::io;
use std::io::Read;
use stored::answer::Answer;
use stored::stream::Words;
use stored::text::{Block, Tally, Total};

// How a case came out.
#[derive(Clone, Copy)]
enum Outcome {
    Same,
    Differs,
    Skipped,
}

// The tally of this one case.
impl From<Outcome> for Tally {
    fn from(outcome: Outcome) -> Tally {
        match outcome {
            Outcome::Same => Tally {
                cases: 1,
                differ: 0,
                skipped: 0,
            },
            Outcome::Differs => Tally {
                cases: 1,
                differ: 1,
                skipped: 0,
            },
            Outcome::Skipped => Tally {
                cases: 1,
                differ: 0,
                skipped: 1,
            },
        }
    }
}

// Memory for a case: what is given, what is wanted, and what is made.
#[derive(Drop)]
struct Memory {
    given: [u32; 32768],
    wanted: [u32; 32768],
    made: [u32; 32768],
}

// Works one case of an operation, if it is known: the first n words given. Where there is no answer, that is a
// difference.
fn judge(op: Option<Op>, given: &[u32], n: usize, made: &mut [u32], wanted: &[u32]) -> Outcome {
    let Some(op) = op else {
        return Outcome::Differs;
    };
    if op.answer(given, n, made) != Some(wanted) {
        return Outcome::Differs;
    }
    if op.may_panic() && wanted.first() == Some(&0) {
        return Outcome::Skipped;
    }
    Outcome::Same
}

// Reads and works the next case. There is none where the list is broken: it breaks off, or the case has more words
// than there is room for.
fn case<R: Read>(op: Option<Op>, input: &mut Words<R>, memory: &mut Memory) -> Option<Outcome> {
    let Memory {
        given,
        wanted,
        made,
    } = memory;
    let n = input.list(given)?.len();
    let wanted = input.list(wanted)?;
    Some(judge(op, given, n, made, wanted))
}

// The n cases of an operation, or those before the list is broken.
fn cases<R: Read>(op: Option<Op>, n: u32, input: &mut Words<R>, memory: &mut Memory) -> Block {
    let mut block = Block::default();
    for i in 0..n {
        let Some(outcome) = case(op, input, memory) else {
            break;
        };
        block.tally = block.tally + outcome.into();
        if block.tally.differ > 0 && block.first.is_none() {
            block.first = Some(i);
        }
    }
    block
}

// The line of an operation.
fn print_block(out: &impl Print, op: Option<Op>, block: Block) -> io::Result<()> {
    match op {
        Some(op) => println!(out; "{op}: {block}"),
        None => println!(out; "unknown operation: {block}"),
    }
}

// Block after block: all of them, and whether the list is broken. It ends well between two blocks, with no
// bytes left over. A proved loop has to end, and nothing says that the input does, so the turns are counted, up to a
// number that no run comes to.
fn replay<R: Read>(
    out: &impl Print,
    input: &mut Words<R>,
    memory: &mut Memory,
) -> io::Result<Total> {
    let mut tally = Tally::default();
    let mut whole = true;
    for _ in 0..u64::MAX {
        let Some(number) = input.word() else {
            whole = !input.is_torn();
            break;
        };
        let Some(n) = input.word() else {
            whole = false;
            break;
        };
        let op = Op::try_from(number).ok();
        let block = cases(op, n, input, memory);
        print_block(out, op, block)?;
        tally = tally + block.tally;
        if block.tally.cases < n as u64 {
            whole = false;
            break;
        }
    }
    Ok(Total {
        tally,
        broken: (!whole).then_some(input.count()),
    })
}

fn main(rt: HostRuntime) -> io::Result<()> {
    let mut input = Words::new(rt.stdin());
    let mut memory = Memory {
        given: [0; 32768],
        wanted: [0; 32768],
        made: [0; 32768],
    };
    let all = replay(&rt, &mut input, &mut memory)?;
    println!(rt; "all: {all}")
}
