use crate::read_words;
use mt_base::Policy;
use std::alloc::Global;
use std::test::Fail;

/// Words that are no command line.
static OTHER_WORDS: [&str; 41] = [
    "",
    "mergetree",
    "mergetree d",
    "mergetree --path",
    "mergetree --policy head",
    "mergetree --path d e",
    "mergetree e --path d",
    "mergetree --path -d",
    "mergetree --path --",
    "mergetree --path d --",
    "mergetree -- --path d",
    "mergetree --path --path",
    "mergetree --path --policy head",
    "mergetree --path d --path d",
    "mergetree --path d --path=d",
    "mergetree --path d --policy",
    "mergetree --path d --policy=",
    "mergetree --path d --policy ",
    "mergetree --path d --policy -",
    "mergetree --path d --policy heads",
    "mergetree --path d --policy Head",
    "mergetree --path d --policy HEAD",
    "mergetree --path d --policy head --policy head",
    "mergetree --path d --policy=head --policy tail",
    "mergetree --path d --mergers 2",
    "mergetree --path d --mergers=0",
    "mergetree --path d --polic head",
    "mergetree --pat d",
    "mergetree --PATH d",
    "mergetree --paths d",
    "mergetree -path d",
    "mergetree -p d",
    "mergetree path d",
    "mergetree --=d",
    "mergetree --path d -",
    "mergetree --path d ",
    "mergetree --path d --help",
    "mergetree --path d -h",
    "mergetree help",
    "mergetree --path d --version",
    "mergetree --path d -V",
];

/// Whether the words, which stand apart by a blank, say this folder and this policy, or nothing.
fn says(alloc: Global, line: &str, want: Option<(&str, Policy)>) -> Result<bool, Fail> {
    let mut words = Vec::new(alloc);
    for word in line.split(' ') {
        words.push(String::from_str(alloc, word)?)?;
    }
    let got = read_words(alloc, words.as_slice())?;
    Ok(match (got, want) {
        (Some(got), Some((folder, policy))) => got.folder == folder && got.policy == policy,
        (None, None) => true,
        _ => false,
    })
}

#[test]
fn reads_command_lines(rt: HostRuntime) -> Result<(), Fail> {
    for (line, folder, policy) in [
        ("mergetree --path d", "d", Policy::Near),
        ("mergetree --path=d", "d", Policy::Near),
        ("mergetree --path d --policy head", "d", Policy::Head),
        ("mergetree --policy=tail --path=d", "d", Policy::Tail),
        ("mergetree --policy near --path d", "d", Policy::Near),
        ("mergetree --path=a=b --policy tail", "a=b", Policy::Tail),
        ("mergetree --path=--policy", "--policy", Policy::Near),
        ("mergetree --path=-d", "-d", Policy::Near),
        ("mergetree --path=--", "--", Policy::Near),
        ("mergetree --path -", "-", Policy::Near),
        ("mergetree --path ", "", Policy::Near),
        ("mergetree --path=", "", Policy::Near),
        ("-- --path d", "d", Policy::Near),
        ("--path --path d", "d", Policy::Near),
    ] {
        let is_said = says(rt.alloc(), line, Some((folder, policy)))?;
        assert!(rt; is_said, "{line}");
    }
    Ok(())
}

#[test]
fn refuses_other_words(rt: HostRuntime) -> Result<(), Fail> {
    for line in OTHER_WORDS.iter() {
        let is_none = says(rt.alloc(), line, None)?;
        assert!(rt; is_none, "{line}");
    }
    Ok(())
}

#[test]
fn refuses_no_words(rt: HostRuntime) -> Result<(), Fail> {
    let words: Vec<String> = Vec::new(rt.alloc());
    let line = read_words(rt.alloc(), words.as_slice())?;
    assert!(rt; line.is_none());
    Ok(())
}
