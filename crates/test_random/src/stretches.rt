//! Stretches of random structures, every run of two numbers, held to the definition.
use super::samples::{Sample, bytes_of, structure};
use super::tally::{Count, counted, none, print_sample};
use answer::Place;
use test_brute::nodes::{Nodes, Reader, reading};
use test_brute::stretches::{first_byte, is_stretch, last_byte};
use test_words::plain::part;

// A refusal names ground 15 and no place, and no part of the text is handed back with it.
fn stretch_right(s: &[u8], r: Reader, a: usize, b: usize) -> bool {
    let nodes = r.nodes;
    let spelled = stretch::part(s, a, b);
    match stretch::check(s, a, b) {
        Ok(()) => {
            is_stretch(nodes, a, b) && spelled == part(s, first_byte(r, a, b), last_byte(r, a, b))
        }
        Err(refusal) => {
            !is_stretch(nodes, a, b)
                && refusal.ground.number() == 15
                && refusal.place == Place::Nothing
                && spelled.is_empty()
        }
    }
}

fn ground(t: Nodes, a: usize, b: usize) -> usize {
    if is_stretch(t, a, b) { 0 } else { 15 }
}

// The runs that begin at a node.
fn from_node(rt: &impl Print, count: Count, s: &[u8], a: usize) -> Count {
    let r = reading(s);
    let nodes = r.nodes;
    let mut next = count;
    for b in 0..13 {
        next = counted(rt, next, ground(nodes, a, b), stretch_right(s, r, a, b));
    }
    next
}

fn all_runs(rt: &impl Print, count: Count, sample: Sample) -> Count {
    let mut next = count;
    for a in 0..13 {
        next = from_node(rt, next, bytes_of(&sample), a);
    }
    next
}

fn one(rt: &impl Print, count: Count, sample: Sample) -> Count {
    let next = all_runs(rt, count, sample);
    if count.wrong < next.wrong {
        print_sample(rt, b"  in a stretch of ", sample);
    }
    next
}

pub fn stretches(rt: &impl Print, cases: usize, seed: u64) -> Count {
    let mut state = seed;
    let mut count = none();
    for _ in 0..cases {
        let sample = structure(&mut state);
        count = one(rt, count, sample);
    }
    count
}
