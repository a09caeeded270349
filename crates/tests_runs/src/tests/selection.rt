//! Which patterns match.
use libtest_mimic::select::matches;
use std::test::Fail;

// A pattern, whether it has to be the whole name, a kind, a name, and whether the pattern matches.
static VECTORS: [(&str, bool, &str, &str, bool); 22] = [
    ("] ", false, "k", "n", true),
    ("] ", false, "", "n", false),
    ("[k] n", false, "[k", "n", true),
    ("[k] n", true, "", "[k] n", true),
    ("[] n", true, "", "n", false),
    ("", true, "", "", true),
    ("", true, "k", "n", false),
    ("", false, "k", "n", true),
    ("n", true, "k", "n", true),
    ("[k] n", true, "k", "n", true),
    ("k", true, "k", "n", false),
    ("[k]", true, "k", "n", false),
    ("[k] nn", true, "k", "n", false),
    ("k] n", false, "k", "n", true),
    ("[k] n", false, "", "n", false),
    ("N", false, "", "n", false),
    ("é] ü", false, "é", "ü", true),
    // False starts: in the name, in the kind, and in the kind with an end in the name.
    ("aab", false, "", "aaab", true),
    ("] aab", false, "]] a", "aab", true),
    ("] aab", false, "]] a", "aaab", false),
    ("a] a] n", false, "a] a] a", "n", true),
    ("a] a] n", false, "a] a] a", "m", false),
];

#[test]
fn matches_names(rt: HostRuntime) {
    for (pattern, exact, kind, name, want) in &VECTORS {
        assert!(rt;
            matches(pattern, *exact, kind, name) == *want,
            "{pattern:?} of {kind:?} {name:?}"
        );
    }
}

// This ends in time only if the search doesn't begin again at each place of the name.
#[test]
fn searches_long_names(rt: HostRuntime) -> Result<(), Fail> {
    let alloc = rt.alloc();
    let name = "a".repeat(alloc, 1_000_000)?;
    let mut pattern = "a".repeat(alloc, 500_000)?;
    pattern.push_str("b")?;
    for kind in &["", "a"] {
        assert!(rt; !matches(pattern.as_str(), false, kind, name.as_str()));
        assert!(rt; !matches(pattern.as_str(), true, kind, name.as_str()));
    }
    Ok(())
}
