//! A fixed generator of numbers, the random inputs that it draws, and random texts and stretches held to the brute force.
#![tactic(auto)]

mod characters;
pub mod lists;
pub mod samples;
pub mod stretches;
pub mod tally;
pub mod texts;

/// A number below n, or 0 if n is 0: the upper bits of a linear congruence.
pub fn draw(state: &mut u64, n: usize) -> usize {
    let low = *state % 2147483648;
    let next = (low * 1103515245 + 12345) % 2147483648;
    *state = next;
    if n == 0 {
        return 0;
    }
    (next / 65536) as usize % n
}
