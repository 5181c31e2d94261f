//! Drawn graphs: what the search answers on them, what it leaves in the scratch strip, and how many arrows it asks for.
#![tactic(auto)]

use drawing::backward::Backward;
use drawing::table::Drawing;
use drawing::{Drawn, arrows_in};
use graph::refusal::SearchRefusal;
use graph::{Graph, search, search_counted};
use std::{fmt, io};

mod shapes;

fn main(rt: HostRuntime) -> io::Result<()> {
    answers(&rt)?;
    leavings(&rt)?;
    counts(&rt)
}

/// What a search answers, as it is printed.
#[derive(Drop)]
struct Answer(Result<bool, SearchRefusal>);

impl fmt::Display for Answer {
    fn fmt<W: fmt::Write>(&self, f: &mut fmt::Formatter<W>) -> fmt::Result {
        match self.0 {
            Ok(true) => write!(f, "yes"),
            Ok(false) => write!(f, "no"),
            Err(refusal) => write!(f, "refused {}", refusal.number()),
        }
    }
}

/// A strip with a one for each of some cells.
fn marking(cells: &[u8]) -> [u8; 255] {
    let mut strip = [0; 255];
    for x in cells {
        if let Some(i) = x.checked_sub(1) {
            strip[usize::from(i)] = 1;
        }
    }
    strip
}

/// Prints whether a path leads from one of some cells to the goal.
fn ask(rt: &HostRuntime, name: &str, graph: &Drawing, from: &[u8], goal: u16) -> io::Result<()> {
    let answer = Answer(search(graph, goal, &marking(from), &mut [7; 255]));
    println!(rt; "{name}, from {from:?} to {goal}: {answer}")
}

fn answers(rt: &HostRuntime) -> io::Result<()> {
    let chain = shapes::chain(5);
    ask(rt, "chain of 5", &chain, &[1], 5)?;
    ask(rt, "chain of 5", &chain, &[2], 1)?;
    ask(rt, "chain of 5", &chain, &[3], 3)?;
    ask(rt, "chain of 5", &chain, &[], 3)?;
    ask(rt, "ring of 5", &shapes::ring(5), &[3], 2)?;
    let islands = shapes::islands();
    ask(rt, "two islands", &islands, &[1], 6)?;
    ask(rt, "two islands", &islands, &[1, 5], 6)?;
    ask(rt, "two islands", &islands, &[4, 5, 6], 3)?;
    ask(rt, "own tail", &shapes::own_tail(), &[1], 1)?;
    ask(rt, "own tail", &shapes::own_tail(), &[1], 2)?;
    ask(rt, "repeats", &shapes::repeats(), &[1], 3)?;
    ask(rt, "repeats", &shapes::repeats(), &[1], 4)
}

/// Prints the answer, and what the scratch strip holds afterwards.
fn leave(
    rt: &HostRuntime,
    graph: &Drawing,
    goal: u16,
    starts: &[u8],
    scratch: &mut [u8],
) -> io::Result<()> {
    let cells = graph.cells();
    let answer = Answer(search(graph, goal, starts, scratch));
    println!(rt; "{cells} cells, goal {goal}, starts {starts:?}: {answer}, scratch {scratch:?}")
}

fn leavings(rt: &HostRuntime) -> io::Result<()> {
    let ring = shapes::ring(3);
    leave(rt, &ring, 3, &[1, 0, 0], &mut [7; 5])?;
    leave(rt, &ring, 3, &[0, 0, 0, 1], &mut [7; 5])?;
    leave(rt, &ring, 0, &[1, 0, 0], &mut [7; 5])?;
    leave(rt, &ring, 4, &[1, 0, 0], &mut [7; 5])?;
    leave(rt, &ring, 257, &[1, 0, 0], &mut [7; 5])?;
    leave(rt, &ring, 3, &[1, 0], &mut [7; 5])?;
    leave(rt, &ring, 3, &[1, 0, 0], &mut [7; 2])?;
    leave(rt, &ring, 0, &[1, 0], &mut [7; 2])?;
    leave(rt, &Drawing::blank(0), 1, &[], &mut [7; 2])
}

/// Prints how many of its arrows a graph is asked for.
fn count<G: Graph<Drawn>>(
    rt: &HostRuntime,
    name: &str,
    graph: &G,
    from: u8,
    goal: u16,
) -> io::Result<()> {
    match search_counted(graph, goal, &marking(&[from]), &mut [7; 255]) {
        Ok(outcome) => {
            let answer = Answer(Ok(outcome.reached));
            let asked = outcome.asked;
            let arrows = arrows_in(graph);
            println!(rt;
                "{name}, from {from} to {goal}: {answer}, {asked} of {arrows} arrows asked for"
            )
        }
        Err(refusal) => println!(rt; "{name}, from {from} to {goal}: {}", Answer(Err(refusal))),
    }
}

fn counts(rt: &HostRuntime) -> io::Result<()> {
    let chain = shapes::chain(255);
    count(rt, "chain of 255", &chain, 1, 255)?;
    count(rt, "chain of 255", &chain, 2, 1)?;
    let star = shapes::star(255);
    count(rt, "star of 255", &star, 1, 255)?;
    count(rt, "star of 255", &star, 255, 1)?;
    let full = shapes::full();
    count(rt, "full graph of 255", &full, 1, 255)?;
    count(rt, "full graph of 255", &full, 1, 2)?;
    count(rt, "full graph of 255", &full, 1, 1)?;
    count(
        rt,
        "full graph of 255 backward",
        &Backward { graph: full },
        1,
        255,
    )
}
