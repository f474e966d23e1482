//! The words of WGSL.
use naga_namer::WGSL;

/// Returns whether each word comes before the next one.
fn rise(words: &[&str]) -> bool {
    let mut last = "";
    for word in words {
        if *word <= last {
            return false;
        }
        last = word;
    }
    true
}

#[test]
fn words_are_in_ascending_order(rt: HostRuntime) {
    assert!(rt; rise(WGSL.keywords) && rise(WGSL.builtins));
    assert!(rt; WGSL.keywords.len() + WGSL.builtins.len() == 401);
}
