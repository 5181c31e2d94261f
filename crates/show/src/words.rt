//! A schedule's records in words.
ghost use Rattle.std.specs.Prelude.{Some};
ghost use Rattle.std.specs.List.{flat_map};
ghost use Rattle.show.specs.Words.{spaced, in_words, line};

use schedule::call::Call;
use std::fmt;

/// Each cell with a space before it.
#[derive(Clone, Copy)]
struct Spaced<'a>(&'a [u8]);

impl fmt::Display for Spaced<'_> {
    ghost output = { λ s. Some (flat_map spaced s.0.now) };

    fn fmt<W: fmt::Write>(&self, f: &mut fmt::Formatter<W>) -> fmt::Result {
        for cell in self.0 {
            write!(f, " {cell}")?;
        }
        Ok(())
    }
}

/// A call in words: its worker, its name and its fields.
#[derive(Clone, Copy)]
struct InWords(Call);

impl fmt::Display for InWords {
    ghost output = { λ w. Some (in_words w.0) };

    fn fmt<W: fmt::Write>(&self, f: &mut fmt::Formatter<W>) -> fmt::Result {
        match self.0 {
            Call::Create { worker, cell } => write!(f, "worker {worker} create cell {cell}"),
            Call::AddChild {
                worker,
                cell,
                child,
            } => write!(f, "worker {worker} addchild cell {cell} child {child}"),
            Call::GetChild {
                worker,
                cell,
                place,
            } => write!(f, "worker {worker} getchild cell {cell} place {place}"),
            Call::Make { worker, cell, list } => {
                let cells = Spaced(list.as_slice());
                write!(f, "worker {worker} make cell {cell} of{cells}")
            }
            Call::Protect { worker, cell } => write!(f, "worker {worker} protect cell {cell}"),
            Call::UnProtect { worker, cell } => write!(f, "worker {worker} unprotect cell {cell}"),
            Call::Send { worker, cell, to } => write!(
                f,
                "worker {worker} send cell {cell} to worker {to}"
            ),
            Call::Receive { worker, from } => write!(
                f,
                "worker {worker} receive from worker {from}"
            ),
            Call::Begin { worker } => write!(f, "worker {worker} begin"),
            Call::Step { worker } => write!(f, "worker {worker} step"),
            Call::Run { worker, steps } => write!(f, "worker {worker} run {steps}"),
        }
    }
}

/// A record's line: its number, its place and its call.
#[derive(Clone, Copy)]
pub(crate) struct Line {
    pub record: u16,
    pub byte: u16,
    pub call: Call,
}

impl fmt::Display for Line {
    ghost output = { λ l. Some (line l.«record» l.byte l.call) };

    fn fmt<W: fmt::Write>(&self, f: &mut fmt::Formatter<W>) -> fmt::Result {
        let Line { record, byte, call } = *self;
        let words = InWords(call);
        write!(f, "record {record} byte {byte}: {words}")
    }
}
