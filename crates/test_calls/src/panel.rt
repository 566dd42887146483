//! The README's example of a queue: it quotes what stands between the two marks word for word.
use super::queues::with_turn;
use answer::Refusal;
use test_words::answers::with_answer;
use test_words::{Text, blank, with_bytes};

// README: begin
use queue::{Kind, Taken};

/// What is answered on the way.
#[derive(Clone, Copy)]
pub struct Served {
    pub offer: Result<(), Refusal>,
    pub third: Option<Taken>,
    pub fourth: Option<Taken>,
    pub fifth: Option<Taken>,
    pub sixth: Option<Taken>,
}

/// Five jobs, each a query number and a structure number, and six turns.
pub fn example() -> Served {
    let mut queue = queue::start();
    let offer = queue.offer(Kind::Ordinary, 7, 300);
    for query in 1..5 {
        let _ = queue.offer(Kind::Urgent, query, 301);
    }
    // Three turns take urgent jobs, each while the ordinary one waits: so the fourth takes that one.
    queue.take_turn();
    queue.take_turn();
    Served {
        offer,
        third: queue.take_turn(),
        fourth: queue.take_turn(),
        fifth: queue.take_turn(),
        // Nobody waits any more.
        sixth: queue.take_turn(),
    }
}
// README: end

/// The answers in words.
pub fn run() -> Text {
    let served = example();
    let turns = [served.third, served.fourth, served.fifth, served.sixth];
    let mut text = with_answer(blank(), served.offer);
    for taken in turns {
        text = with_turn(with_bytes(text, b", "), taken);
    }
    text
}
