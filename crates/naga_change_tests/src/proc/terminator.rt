//! Inserting returns into blocks, each block given in its notation. `tests/rows/naga_shape` has more blocks.
use naga_arena::Span;
use naga_ir::{Block, Statement};
use naga_proc::{
    Rule, close_block, ensure_block_returns, ensure_block_returns_by, ensure_block_returns_old,
    has_exit, read_block, reserve_returns, write_block,
};
use std::alloc::{AllocError, Global};

/// Returns whether `want` is written for a block.
fn is_written(alloc: Global, block: &Block, want: &str) -> bool {
    let mut text = String::new(alloc);
    write_block(&mut text, block).is_ok() && text.as_str() == want
}

/// Closes a block that has only a switch without cases, by the old rule and then by the new one, and returns whether it
/// gets its return by the new one.
fn is_closed_by_the_new_rule(alloc: Global, block: &mut Block) -> bool {
    ensure_block_returns_old(block).is_ok()
        && is_written(alloc, block, "s()")
        && reserve_returns(block, Rule::New).is_ok()
        && is_written(alloc, block, "s()")
        && ensure_block_returns(block).is_ok()
        && is_written(alloc, block, "s()r")
}

/// Returns whether the spans of the statements of a block are exactly these two.
fn has_spans(block: &Block, first: Span, second: Span) -> bool {
    let mut want = first;
    for (_, place) in block.span_iter() {
        if *place != want {
            return false;
        }
        want = second;
    }
    block.len() == 2
}

#[test]
fn each_rule_has_a_call_and_a_return_has_no_span(rt: HostRuntime) {
    let Ok(mut block) = read_block(rt.alloc(), b"s()") else {
        return assert!(rt; false);
    };
    let span = Span::new(3, 4);
    if let Some(place) = block.get_span_mut(0) {
        *place = span;
    }
    assert!(rt; is_closed_by_the_new_rule(rt.alloc(), &mut block));
    assert!(rt; has_spans(&block, span, Span::UNDEFINED));
    assert!(rt; has_exit(&[]));
}

/// Allocations that fail while blocks are closed, or while space is reserved for that.
mod refusals {
    use super::*;

    /// Returns whether `want` is written for a block, or allocating the text fails.
    fn is_written_or_refused(alloc: Global, block: &Block, want: &str) -> bool {
        let mut text = String::new(alloc);
        match write_block(&mut text, block) {
            Ok(()) => text.as_str() == want,
            Err(AllocError) => true,
        }
    }

    /// Returns whether the block of `text` closes by a rule to the block of `want`, and is unchanged if allocation
    /// fails.
    fn closes_or_stays(alloc: Global, rule: Rule, text: &str, want: &str) -> bool {
        let Ok(mut block) = read_block(alloc, text.as_bytes()) else {
            return true;
        };
        match ensure_block_returns_by(&mut block, rule) {
            Ok(()) => is_written_or_refused(alloc, &block, want),
            Err(AllocError) => {
                is_written_or_refused(alloc, &block, text)
                    && ensure_block_returns_by(&mut block, rule).is_ok()
                    && is_written_or_refused(alloc, &block, want)
            }
        }
    }

    /// Returns whether the block of `text` closes by a rule to the block of `want` without an allocation, once space is
    /// reserved for the returns. If reserving it fails, the block must be unchanged.
    fn closes_in_its_room(alloc: Global, rule: Rule, text: &str, want: &str) -> bool {
        let Ok(mut block) = read_block(alloc, text.as_bytes()) else {
            return true;
        };
        match reserve_returns(&mut block, rule) {
            Ok(()) => {
                reserve_returns(&mut block, rule).is_ok()
                    && ensure_block_returns_by(&mut block, rule).is_ok()
                    && is_written_or_refused(alloc, &block, want)
            }
            Err(AllocError) => is_written_or_refused(alloc, &block, text),
        }
    }

    /// Returns whether the block of `text` closes by a rule to the block of `want`, without a call that can fail, once
    /// space is reserved for the returns.
    fn closes_without_failing(alloc: Global, rule: Rule, text: &str, want: &str) -> bool {
        let Ok(mut block) = read_block(alloc, text.as_bytes()) else {
            return true;
        };
        match reserve_returns(&mut block, rule) {
            Ok(()) => {
                close_block(&mut block, rule);
                is_written_or_refused(alloc, &block, want)
            }
            Err(AllocError) => is_written_or_refused(alloc, &block, text),
        }
    }

    /// Blocks that get returns, each with what it closes to by the old rule and by the new one. The fourth one has exits
    /// at two depths. In those after it, some tail blocks end in a return before they are closed.
    const OPEN: &[(&str, &str, &str)] = &[
        ("i{}{}", "i{r}{r}", "i{r}{r}"),
        ("s(d[s(d[])])", "s(d[s(d[r])])", "s(d[s(d[r])])"),
        (
            "i{s([]d[i{}{}])}{{}}",
            "i{s([r]d[i{r}{r}])}{{r}}",
            "i{s([r]d[i{r}{r}])}{{r}}",
        ),
        (
            "s([b]d[s([]d[>])])",
            "s([b]d[s([r]d[>])])",
            "s([b]d[s([r]d[>])r])r",
        ),
        ("i{i{}{r}}{}", "i{i{r}{r}}{r}", "i{i{r}{r}}{r}"),
        ("i{r}{i{}{}}", "i{r}{i{r}{r}}", "i{r}{i{r}{r}}"),
        ("s([]d[b])", "s([r]d[b])", "s([r]d[b])r"),
        ("s([][r]d[b])", "s([r][r]d[b])", "s([r][r]d[b])r"),
        (
            "i{s([]d[b])}{s(d[r])}",
            "i{s([r]d[b])}{s(d[r])}",
            "i{s([r]d[b])r}{s(d[r])}",
        ),
    ];

    #[test]
    fn a_block_stays_as_it_was(rt: HostRuntime) {
        for (text, old, new) in OPEN {
            assert!(rt; closes_or_stays(rt.alloc(), Rule::Old, text, old), "{text}");
            assert!(rt; closes_or_stays(rt.alloc(), Rule::New, text, new), "{text}");
            assert!(rt;
                closes_in_its_room(rt.alloc(), Rule::Old, text, old),
                "{text}"
            );
            assert!(rt;
                closes_in_its_room(rt.alloc(), Rule::New, text, new),
                "{text}"
            );
            assert!(rt;
                closes_without_failing(rt.alloc(), Rule::New, text, new),
                "{text}"
            );
        }
    }

    /// Gives a span to the return in the second block of the branch that a block starts with.
    fn place_return(block: &mut Block, span: Span) {
        let Some(branch) = block.get_mut(0) else {
            return;
        };
        if let Statement::If { reject, .. } = branch {
            if let Some(place) = reject.get_span_mut(0) {
                *place = span;
            }
        }
    }

    /// Returns whether that return has this span, and is the only statement of its block.
    fn is_placed(block: &Block, span: Span) -> bool {
        let Some(Statement::If { reject, .. }) = block.get(0) else {
            return false;
        };
        let mut has_it = false;
        for (_, place) in reject.span_iter() {
            has_it = *place == span;
        }
        has_it && reject.len() == 1
    }

    /// Returns whether a return with this span stays in its place while the block around it is closed, or while closing
    /// that block fails.
    fn keeps_its_place(alloc: Global, text: &str, want: &str, span: Span) -> bool {
        let Ok(mut block) = read_block(alloc, text.as_bytes()) else {
            return true;
        };
        place_return(&mut block, span);
        let closed = ensure_block_returns(&mut block).is_ok();
        let left = if closed { want } else { text };
        is_placed(&block, span) && is_written_or_refused(alloc, &block, left)
    }

    /// Returns whether a return with this span keeps its place in three blocks.
    fn keeps_each_place(alloc: Global, span: Span) -> bool {
        keeps_its_place(alloc, "i{{}}{r}", "i{{r}}{r}", span)
            && keeps_its_place(alloc, "i{i{}{}}{r}s()", "i{i{}{}}{r}s()r", span)
            && keeps_its_place(alloc, "i{i{}{r}}{r}", "i{i{r}{r}}{r}", span)
    }

    #[test]
    fn a_return_keeps_its_span(rt: HostRuntime) {
        assert!(rt; keeps_each_place(rt.alloc(), Span::UNDEFINED));
        assert!(rt; keeps_each_place(rt.alloc(), Span::new(3, 4)));
    }

    /// Blocks that get no return by the rule.
    const SHUT: &[(Rule, &str)] = &[
        (Rule::New, "r"),
        (Rule::New, "s([k]d[r])"),
        (Rule::New, "{pi{k}{l{}{}c}}"),
        (Rule::Old, "r"),
        (Rule::Old, "s()"),
        (Rule::Old, "s([p>])"),
        (Rule::Old, "s([>]d[b])"),
        (Rule::Old, "s(d[s(d[k])])"),
        (Rule::Old, "s(d[s(d[p>])])"),
    ];

    /// Returns whether the block of a text needs no return, and closing it does not fail.
    fn needs_no_return(alloc: Global, rule: Rule, text: &str) -> bool {
        match read_block(alloc, text.as_bytes()) {
            Ok(mut block) => {
                ensure_block_returns_by(&mut block, rule).is_ok()
                    && is_written_or_refused(alloc, &block, text)
            }
            Err(_) => true,
        }
    }

    #[test]
    fn a_block_that_gets_no_return_asks_for_no_memory(rt: HostRuntime) {
        for (rule, text) in SHUT {
            assert!(rt; needs_no_return(rt.alloc(), *rule, text), "{text}");
        }
    }
}
