// The two calls on score texts for a comparison in Rust: those of `test_scores` under the same names.
#![tactic(auto)]

// The score of a text, or 1,000,000,000 and the ground.
#[unsafe(no_mangle)]
pub extern "C" fn gurandyo_test_read_score(text: &[u8]) -> i64 {
    test_scores::exported::gurandyo_test_read_score(text)
}

// The length of a number's text, which is written to the output, or 1,000 and the ground.
#[unsafe(no_mangle)]
pub extern "C" fn gurandyo_test_write_score(number: i64, out: &mut [u8]) -> i64 {
    test_scores::exported::gurandyo_test_write_score(number, out)
}
