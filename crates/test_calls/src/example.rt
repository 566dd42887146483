//! The README's example of a session: it quotes what stands between the two marks word for word.
use super::views::{with_areas, with_best, with_deck, with_row};
use test_words::answers::{with_answer, with_refusal};
use test_words::plain::{fourfold, part};
use test_words::{Text, blank, with_byte, with_bytes, with_spaced};

// README: begin
use answer::Refusal;
use best::{Best, SCRATCH};
use chain::{Added, Changed};
use table::Summary;

/// What is answered on the way.
#[derive(Clone, Copy)]
pub struct Answers {
    pub refused: Result<usize, Refusal>,
    pub row: Summary,
    pub areas: [u8; 1024],
    pub area_count: usize,
    pub deck: [u8; 4484],
    pub deck_length: usize,
    pub without: Best,
    pub best: Best,
    pub text: [u8; 10],
    pub text_length: usize,
}

/// A session from its opening to the best chain, and a score as a text.
pub fn example() -> Result<Answers, Refusal> {
    let mut areas = [0u8; 1024];
    let mut deck = [0u8; 4484];
    let mut scratch = [0u64; SCRATCH];
    let mut text = [0u8; 10];
    let session = chain::open(b"(.(.)).", b"(.)(.)")?;
    // A seed is two lists, the nodes of Q and those of T, and a score in hundredths. An add answers the seed's number.
    let Added { answer, session } = session.added(&[2], &[1], 3);
    let first = answer?;
    let Added { answer, session } = session.added(&[4], &[2], 2);
    let second = answer?;
    // Refused on ground 19 at seed 3, and the session handed back is the one from before.
    let Added { answer, session } = session.added(&[1, 5], &[0, 4], 9);
    let refused = answer;
    let Added { answer, session } = session.added(&[3, 5], &[1, 4], 4);
    let third = answer?;
    // Calls that only look: what seed 3 is, its open areas, and the deck of all three seeds.
    let row = session.row(third)?;
    let area_count = session.areas(third, &mut areas)?;
    let deck_length = session.write_deck(&mut deck)?;
    // Seed 1 gets another score, read from a text, and seed 2 is left out for a while.
    let score = decimal::read(b"0.07")?;
    let Changed { answer, session } = session.rescored(first, score);
    answer?;
    let Changed { answer, session } = session.withdrawn(second);
    answer?;
    let without = session.best_chain(&mut scratch)?;
    let Changed { answer, session } = session.brought_back(second);
    answer?;
    let best = session.best_chain(&mut scratch)?;
    // A score as a text: ten bytes hold every one, and every total.
    let text_length = decimal::write(-50, &mut text)?;
    Ok(Answers {
        refused,
        row,
        areas,
        area_count,
        deck,
        deck_length,
        without,
        best,
        text,
        text_length,
    })
}
// README: end

fn comma(t: Text) -> Text {
    with_bytes(t, b", ")
}

fn accepted(t: Text) -> Text {
    with_bytes(t, b"accepted")
}

// The answers in words.
fn told(e: Answers) -> Text {
    let refused = comma(with_answer(blank(), e.refused));
    let row = comma(with_row(accepted(refused), e.row));
    let boxes = part(&e.areas, 0, fourfold(e.area_count));
    let areas = comma(with_areas(row, e.area_count, boxes));
    let deck = comma(with_deck(areas, part(&e.deck, 0, e.deck_length)));
    let chains = comma(with_best(comma(with_best(deck, e.without)), e.best));
    let length = with_spaced(accepted(chains), e.text_length);
    with_bytes(with_byte(length, b' '), part(&e.text, 0, e.text_length))
}

/// example
pub fn run() -> Text {
    match example() {
        Ok(answers) => told(answers),
        Err(refusal) => with_refusal(blank(), refusal),
    }
}
