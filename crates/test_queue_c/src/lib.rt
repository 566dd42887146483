//! The queue's calls for a comparison in Rust: that of `test_queue` under the same name.
#![tactic(auto)]

/// A list of calls as bytes, and the answer to each: how many calls were made.
#[unsafe(no_mangle)]
pub extern "C" fn gurandyo_test_queue(calls: &[u8], out: &mut [u8]) -> usize {
    test_queue::exported::gurandyo_test_queue(calls, out)
}
