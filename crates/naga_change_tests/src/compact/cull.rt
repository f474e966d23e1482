//! Culling a block that is given in its notation.
use naga_compact::cull_unreachable;
use naga_notation::{read_block, write_block};

#[test]
fn what_is_never_reached_is_removed(rt: HostRuntime) {
    let mut left = String::new(rt.alloc());
    let Ok(mut block) = read_block(rt.alloc(), b"i{s([rp]d[k])p}{{cb}p}p") else {
        return assert!(rt; false);
    };
    cull_unreachable(&mut block);
    assert!(rt; write_block(&mut left, &block).is_ok());
    assert!(rt; left.as_str() == "i{s([r]d[k])}{{c}}");
}
