//! The revision that a date names.

ghost use Rattle.std.specs.Prelude.{◌≡◌};
ghost use Rattle.std.specs.Cmp.Lexicographic.{pointwise};
ghost use Rattle.repo_core.specs.Repository.{props_at};
ghost use Rattle.browse_wire.specs.Asks.{DatedRev};
ghost use Rattle.browse_wire.specs.Urls.{Url};
ghost use Rattle.ra_serve.specs.Tellings.{GivesMore};
ghost use Rattle.ra_denial.specs.Denials.{no_revision};
ghost use Rattle.ra_denial.specs.Stops.{Finds, PortStays};
ghost use Rattle.ra_browse.specs.Answers.{dated, dated_denied};
ghost use Rattle.ra_browse.specs.Dates.{fits_in, is_by, is_date, is_later, newest_by};
ghost use Rattle.ra_browse.specs.Seeking.{FindsIn};
ghost use Rattle.ra_browse.specs.Writing.{Replies};

use node_base::{Props, RevNo};
use ra_denial::{Denial, Stop, stopped, tell};
use ra_serve::{RepoPort, ServeFault, tree_asked};
use ra_wire::reply_writer::write_latest;
use std::cmp::Ordering;
use std::io::Write;

/// Answers `get-dated-rev`: the newest revision that has a date which isn't later. One without a date, or with a text
/// that is none, counts for nothing.
pub fn get_dated_rev<P: RepoPort, W: Write + Drop>(
    port: &mut P,
    date: &[u8],
    out: W,
) -> Result<W, ServeFault>
    ensures told { (at : Url) → Replies P.RepoPort W.Write port.old port.new out at (DatedRev date.now) result }
    ensures adds { GivesMore W.contents out result }
    ensures stays { PortStays P.RepoPort port.old port.new }
{
    match find(port, date) {
        Ok(number) => {
            let mut out = out;
            write_latest(&mut out, number)?;
            Ok(out)
        }
        Err(stop) => tell(stop, out),
    }
}

// That revision.
fn find<P: RepoPort>(port: &mut P, date: &[u8]) -> Result<RevNo, Stop>
    ensures found { Finds P.RepoPort (λ x. dated_denied x date.now) (λ x n. n ≡ dated x date.now)
        port.old port.new result }
    ensures stays { PortStays P.RepoPort port.old port.new }
{
    if !is_date(date) {
        return Err(Stop::Denied(Denial::BadDate));
    }
    match tree_asked(port, None) {
        Ok((head, _tree)) => newest_by(port, date, head),
        Err(fault) => Err(stopped(fault)),
    }
}

// The same of the revisions up to one that is there.
fn newest_by<P: RepoPort>(port: &mut P, date: &[u8], last: RevNo) -> Result<RevNo, Stop>
    ensures found { FindsIn P.RepoPort port.old port.new last
        (λ x n. n ≡ newest_by (props_at x.revisions) date.now last) result }
    ensures stays { PortStays P.RepoPort port.old port.new }
{
    let mut number = last.get();
    while number > 0 {
        match is_by_in(port, date, RevNo::new(number)) {
            Ok(true) => return Ok(RevNo::new(number)),
            Ok(false) => number -= 1,
            Err(stop) => return Err(stop),
        }
    }
    Ok(RevNo::ZERO)
}

// Whether a revision has a date which isn't later.
fn is_by_in<P: RepoPort>(port: &mut P, date: &[u8], number: RevNo) -> Result<bool, Stop>
    ensures found { Finds P.RepoPort (λ x. no_revision x number)
        (λ x b. b ≡ is_by date.now (props_at x.revisions number)) port.old port.new result }
    ensures stays { PortStays P.RepoPort port.old port.new }
{
    match port.props(number) {
        Ok(props) => Ok(is_by(date, &props)),
        Err(fault) => Err(stopped(fault)),
    }
}

// The same by its properties.
fn is_by(date: &[u8], props: &Props) -> bool
    ensures { result ≡ is_by date.now props.now }
{
    match props.get(b"svn:date") {
        Some(own) => is_date(own) && !is_later(own, date),
        None => false,
    }
}

// Whether a date is later than another one.
fn is_later(own: &[u8], date: &[u8]) -> bool
    ensures { result ≡ is_later own.now date.now }
{
    match own.cmp(&date) {
        Ordering::Greater => true,
        _ => false,
    }
}

// Whether a text is a date.
fn is_date(date: &[u8]) -> bool
    ensures { result ≡ is_date date.now }
{
    fits(b"0000-00-00T00:00:00.000000Z", date)
}

// Whether a text has a form.
fn fits(form: &[u8], text: &[u8]) -> bool
    ensures { result ≡ pointwise fits_in form.now text.now }
{
    let Some((f, form)) = form.split_first() else {
        return text.is_empty();
    };
    let Some((b, text)) = text.split_first() else {
        return false;
    };
    fits_in(*f, *b) && fits(form, text)
}

// Whether a byte stands where a form has another one.
fn fits_in(f: u8, b: u8) -> bool
    ensures { result ≡ fits_in f b }
{
    if f == b'0' {
        b >= b'0' && b <= b'9'
    } else {
        b == f
    }
}
