//! What the words of a command line come to, where no run shows it.

use fleet_main::{Command, Planned, RevRange, Usage, plan};
use node_base::RevNo;
use std::alloc::Global;
use std::process::Abort;

// Adds a word.
fn add_word(rt: &impl Abort, alloc: Global, all: &mut Vec<String>, word: &str) {
    let word = String::from_str(alloc, word).expect(rt, "memory");
    all.push(word).expect(rt, "memory");
}

fn planned(rt: &impl Abort, alloc: Global, parts: &[&str]) -> Result<Planned, Usage> {
    let mut words = Vec::new(alloc);
    add_word(rt, alloc, &mut words, "svnfleet");
    for part in parts {
        add_word(rt, alloc, &mut words, *part);
    }
    plan(alloc, &words)
}

// Whether words are a dump of the folder `repo` of this range.
fn dumps(rt: &impl Abort, alloc: Global, parts: &[&str], wanted: Option<RevRange>) -> bool {
    match planned(rt, alloc, parts) {
        Ok(Planned::Run(Command::Dump { folder, range })) => {
            folder.as_str() == "repo" && range == wanted
        }
        _ => false,
    }
}

#[test]
fn words_dump_a_range(rt: HostRuntime) {
    let range = RevRange::new(RevNo::new(3), RevNo::new(65_535));
    let words = ["dump", "-r", "3:65535", "repo"];
    assert!(rt; range.is_some() && dumps(&rt, rt.alloc(), &words, range));
}

// Whether words read a dump and take its deltas, if they read one.
fn takes_deltas(rt: &impl Abort, alloc: Global, parts: &[&str]) -> Option<bool> {
    match planned(rt, alloc, parts) {
        Ok(Planned::Run(Command::List { deltas } | Command::Canon { deltas })) => Some(deltas),
        Ok(Planned::Run(Command::Load { deltas, .. })) => Some(deltas),
        _ => None,
    }
}

#[test]
fn words_take_deltas(rt: HostRuntime) {
    let alloc = rt.alloc();
    assert!(rt; takes_deltas(&rt, alloc, &["list", "--deltas"]) == Some(true));
    assert!(rt; takes_deltas(&rt, alloc, &["canon", "--deltas"]) == Some(true));
    assert!(rt; takes_deltas(&rt, alloc, &["load", "repo", "--deltas"]) == Some(true));
    assert!(rt; takes_deltas(&rt, alloc, &["load", "repo"]) == Some(false));
    assert!(rt; takes_deltas(&rt, alloc, &["dump", "repo", "--deltas"]).is_none());
}

// Whether names are these, one by one.
fn are_named(names: &[String], wanted: &[&str]) -> bool {
    if names.len() != wanted.len() {
        return false;
    }
    for place in 0..names.len() {
        if names[place].as_str() != wanted[place] {
            return false;
        }
    }
    true
}

// Whether words are a fleet of the master `m` with these mirrors, by so many workers.
fn brings_up(
    rt: &impl Abort,
    alloc: Global,
    parts: &[&str],
    mirrors: &[&str],
    workers: u16,
) -> bool {
    match planned(rt, alloc, parts) {
        Ok(Planned::Fleet(fleet)) => {
            let named = are_named(fleet.mirrors.as_slice(), mirrors);
            named && fleet.master.as_str() == "m" && fleet.workers == workers
        }
        _ => false,
    }
}

#[test]
fn words_name_a_fleet(rt: HostRuntime) {
    let alloc = rt.alloc();
    let two = ["fleet", "m", "--workers", "2", "m1", "m2"];
    assert!(rt; brings_up(&rt, alloc, &two, &["m1", "m2"], 2));
    let four = ["fleet", "--workers=064", "m", "a", "b", "c", "d"];
    assert!(rt; brings_up(&rt, alloc, &four, &["a", "b", "c", "d"], 64));
}
