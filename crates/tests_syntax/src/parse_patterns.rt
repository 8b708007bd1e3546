// Nested patterns, and such that are no patterns.
use super::nested::nested;
use gh_base::NoMemory;
use gh_parse_patterns::parse_pattern;
use std::alloc::Global;
use std::test::Fail;

fn is_pattern(alloc: Global, opening: u32, closing: u32) -> Result<bool, NoMemory> {
    let syms = nested(alloc, opening, closing)?;
    Ok(parse_pattern(alloc, syms.as_slice()).is_ok())
}

// A parenthesis too many, on either side, is refused.
#[test]
fn nested_parentheses_are_read(rt: HostRuntime) -> Result<(), Fail> {
    for (opening, closing, want) in [(1000, 1000, true), (1, 2, false), (2, 1, false)] {
        assert!(rt;
            is_pattern(rt.alloc(), opening, closing)? == want,
            "{opening} and {closing}"
        );
    }
    Ok(())
}
