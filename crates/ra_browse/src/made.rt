//! When a revision was made, and by whom.

ghost use Rattle.std.specs.Prelude.{◌≡◌, None, IfOk, MatchResult};
ghost use Rattle.std.specs.Option.{option_map};
ghost use Rattle.std.specs.FinMap as finite;
ghost use Rattle.repo_core.specs.Repository.{Repository};
ghost use Rattle.ra_denial.specs.Stops.{Finds, PortStays};
ghost use Rattle.ra_browse.specs.Answers.{made_of, made_in, date_told};
ghost use Rattle.ra_browse.specs.Seeking.{IsUnmade};
ghost use Rattle.ra_browse.specs.Tellings.{made_as};

use node_base::{Props, RevNo};
use ra_denial::Stop;
use ra_serve::{PortFault, RepoPort};
use std::alloc::{AllocError, Global};

/// When a revision was made, and by whom, where this is known.
#[derive(Drop)]
pub struct Made {
    pub date: Option<Vec<u8>>,
    pub author: Option<Vec<u8>>,
}

impl Made {
    /// Of a revision of which nothing is known.
    pub fn unknown() -> Made
        ensures { made_as result ≡ made_in finite.empty }
    {
        Made {
            date: None,
            author: None,
        }
    }
}

/// The same of a revision. A revision that isn't there has neither.
pub fn made_at<P: RepoPort>(alloc: Global, port: &mut P, number: RevNo) -> Result<Made, Stop>
    ensures found { Finds P.RepoPort (λ x. None) (λ x m. made_as m ≡ made_of x number) port.old port.new result }
    ensures stays { PortStays P.RepoPort port.old port.new }
{
    match port.props(number) {
        Ok(props) => made_by(alloc, &props),
        Err(fault) => unmade(fault),
    }
}

// The same where a port refused to tell the properties.
fn unmade(fault: PortFault) -> Result<Made, Stop>
    ensures { IsUnmade fault result }
{
    match fault {
        PortFault::NoSuchRevision => Ok(Made::unknown()),
        fault => Err(Stop::Port(fault)),
    }
}

// The same by the properties of a revision.
fn made_by(alloc: Global, props: &Props) -> Result<Made, Stop>
    ensures { MatchResult result (λ m. made_as m ≡ made_in props.now) (λ s. s ≡ Stop.OutOfMemory) }
{
    match (
        copied(alloc, props.get(b"svn:date")),
        copied(alloc, props.get(b"svn:author")),
    ) {
        (Ok(date), Ok(author)) => Ok(Made { date, author }),
        _ => Err(Stop::OutOfMemory),
    }
}

// A value that may be missing, copied.
fn copied(alloc: Global, value: Option<&[u8]>) -> Result<Option<Vec<u8>>, AllocError>
    ensures { IfOk result (λ v. option_map (λ t. t.items) v ≡ option_map (λ t. t.now) value.entry) }
{
    match value {
        Some(value) => Ok(Some(Vec::from_slice(alloc, value)?)),
        None => Ok(None),
    }
}

/// A date as a node's is told. Subversion's clients need one: where it isn't known it is the first second of 1970, as
/// `svnserve` tells it.
pub fn date_told(alloc: Global, date: Option<Vec<u8>>) -> Result<Option<Vec<u8>>, AllocError>
    ensures { IfOk result (λ d. option_map (λ t. t.items) d ≡ date_told (option_map (λ t. t.items) date)) }
{
    match date {
        Some(date) => Ok(Some(date)),
        None => Ok(Some(Vec::from_slice(alloc, b"1970-01-01T00:00:00.000000Z")?)),
    }
}
