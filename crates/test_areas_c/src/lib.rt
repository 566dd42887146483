// The two calls on open areas for a comparison in Rust: those of `test_areas` under the same names.
#![tactic(auto)]

// By rising a.
#[unsafe(no_mangle)]
pub extern "C" fn gurandyo_test_areas(
    q: &[u8],
    t: &[u8],
    deck: &[u8],
    number: usize,
    out: &mut [u8],
) -> i64 {
    test_areas::gurandyo_test_areas(q, t, deck, number, out)
}

// In the paper's order of work.
#[unsafe(no_mangle)]
pub extern "C" fn gurandyo_test_areas_in_paper_order(
    q: &[u8],
    t: &[u8],
    deck: &[u8],
    number: usize,
    out: &mut [u8],
) -> i64 {
    test_areas::gurandyo_test_areas_in_paper_order(q, t, deck, number, out)
}
