//! The words of `fleet`, and what they say.
ghost use Rattle.std.specs.Prelude.{◌≡◌, ◌≤◌, ◌∷◌, ◌++◌, None, Some, IfErr, IfOk, OnOk, bytes_eq, codes, length};
ghost use Rattle.std.specs.Prelude.{map, slice_get, string_bytes};
ghost use Rattle.std.specs.List.{list_any};
ghost use Rattle.std.specs.Option.{option_map};
ghost use Rattle.clap.specs.Words.{all_of, found_of, rows_of};
ghost use Rattle.command_words.specs.Twice.{first_twice};
ghost use Rattle.command_words.specs.Usages.{AreRefused, IsRefusedAt};
ghost use Rattle.command_words.specs.Values.{HasFleetOf, HasNumber, NamesFleet};

use crate::command_line::{Usage, up_to, value, wrong};
use crate::fleet_words::Fleet;
use clap::ArgMatches;
use std::alloc::{AllocError, Global};

/// The fleet that the values of `fleet` name. Usage where the number of workers isn't one from 1 to 64, where there is a
/// fifth mirror, or where a folder is named twice.
pub(crate) fn fleet_named(alloc: Global, given: &ArgMatches<'_>) -> Result<Fleet, Usage>
    ensures named { IfOk result (HasFleetOf (rows_of (found_of given.now))) }
    ensures usage { IfErr result (IsRefusedAt (Some (codes "fleet", rows_of (found_of given.now)))) }
{
    match workers_of(alloc, given) {
        Ok(workers) => folders_named(alloc, given, workers),
        Err(usage) => Err(usage),
    }
}

fn workers_of(alloc: Global, given: &ArgMatches<'_>) -> Result<u16, Usage>
    ensures workers { IfOk result (HasNumber (rows_of (found_of given.now)) (codes "workers") 64) }
    ensures usage { IfErr result (IsRefusedAt (Some (codes "fleet", rows_of (found_of given.now)))) }
{
    let Some(value) = value(given, "workers") else {
        return Err(Usage::OutOfMemory);
    };
    match up_to(value.as_bytes(), 64) {
        Some(workers) => Ok(workers),
        None => Err(wrong(
            alloc,
            "svnfleet fleet",
            value,
            "a number of workers from 1 to 64",
        )),
    }
}

// By its folders.
fn folders_named(alloc: Global, given: &ArgMatches<'_>, workers: u16) -> Result<Fleet, Usage>
    ensures named { HasNumber (rows_of (found_of given.now)) (codes "workers") 64 workers
        → IfOk result (HasFleetOf (rows_of (found_of given.now))) }
    ensures usage { IfErr result (IsRefusedAt (Some (codes "fleet", rows_of (found_of given.now)))) }
{
    let Some(master) = value(given, "MASTER") else {
        return Err(Usage::OutOfMemory);
    };
    let Some(mirrors) = values(given, "MIRROR") else {
        return Err(Usage::OutOfMemory);
    };
    fleet_of(alloc, master, mirrors, workers)
}

// The values of that name, where there is one.
fn values<'a, 'b>(given: &'b ArgMatches<'a>, name: &str) -> Option<&'b [&'a str]>
    ensures { option_map (λ s. map (λ v. v.now) s.now) result ≡ all_of name.now (rows_of (found_of given.now)) }
{
    given.get_strs(name)
}

// The fleet of a master and its mirrors.
fn fleet_of(alloc: Global, master: &str, mirrors: &[&str], workers: u16) -> Result<Fleet, Usage>
    ensures named { IfOk result (NamesFleet master.now (map (λ v. v.now) mirrors.now) workers) }
    ensures usage { IfErr result (AreRefused master.now (map (λ v. v.now) mirrors.now)) }
{
    if let Some(fifth) = fifth(mirrors) {
        return Err(wrong(alloc, "svnfleet fleet", fifth, "one of 1 to 4 mirrors"));
    }
    if let Some(again) = named_twice(master, mirrors) {
        return Err(wrong(alloc, "svnfleet fleet", again, "a folder of its own"));
    }
    if mirrors.is_empty() {
        return Err(Usage::OutOfMemory);
    }
    copied(alloc, master, mirrors, workers)
}

fn fifth<'a>(mirrors: &[&'a str]) -> Option<&'a str>
    ensures { option_map (λ s. s.now) result ≡ slice_get (map (λ v. v.now) mirrors.now) 4 }
{
    mirrors.get(4).copied()
}

// The first of the folders that is named again.
fn named_twice<'a>(master: &'a str, mirrors: &[&'a str]) -> Option<&'a str>
    ensures { option_map (λ s. s.now) result ≡ first_twice (master.now ∷ map (λ v. v.now) mirrors.now) }
{
    if stands_in(mirrors, master) {
        return Some(master);
    }
    first_twice(mirrors)
}

fn first_twice<'a>(names: &[&'a str]) -> Option<&'a str>
    ensures { option_map (λ s. s.now) result ≡ first_twice (map (λ v. v.now) names.now) }
{
    let (name, rest) = names.split_first()?;
    if stands_in(rest, name) {
        return Some(name);
    }
    first_twice(rest)
}

// Whether a name is one of these.
fn stands_in(names: &[&str], name: &str) -> bool
    ensures { result ≡ list_any (bytes_eq name.now) (map (λ v. v.now) names.now) }
{
    match names.split_first() {
        Some((first, rest)) => name == *first || stands_in(rest, name),
        None => false,
    }
}

// The fleet, with copies of its folders' names.
fn copied(alloc: Global, master: &str, mirrors: &[&str], workers: u16) -> Result<Fleet, Usage>
    requires few { length mirrors.now ≤ 4 }
    requires apart { first_twice (master.now ∷ map (λ v. v.now) mirrors.now) ≡ None }
    ensures named { IfOk result (λ f. (string_bytes f.master ≡ master.now)
        × (map string_bytes f.mirrors.items ≡ map (λ v. v.now) mirrors.now) × (f.workers ≡ workers)) }
    ensures memory { IfErr result (λ u. u ≡ Usage.OutOfMemory) }
{
    let mut folders = Vec::new(alloc);
    push_copies(alloc, &mut folders, mirrors)?;
    Ok(Fleet {
        master: String::from_str(alloc, master)?,
        mirrors: folders,
        workers,
    })
}

fn push_copies(alloc: Global, copies: &mut Vec<String>, names: &[&str]) -> Result<(), AllocError>
    ensures { OnOk result (map string_bytes copies.new.items
        ≡ map string_bytes copies.old.items ++ map (λ v. v.now) names.now) }
{
    let Some((name, names)) = names.split_first() else {
        return Ok(());
    };
    copies.push(String::from_str(alloc, name)?)?;
    push_copies(alloc, copies, names)
}
