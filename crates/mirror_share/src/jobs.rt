//! The jobs that run at a mirror.
ghost use Rattle.std.specs.Prelude.{◌≡◌, ◌≢◌, [], true, false, Some, None, IfOk, IfErr, IfSome, IfNone, OnErr};
ghost use Rattle.std.specs.Prelude.{slice_get};
ghost use Rattle.mirror_share.specs.Places.{job_at, IsEntryFault, IsRunningFault, JobsStay, OthersStay, RunsNowhere};

use std::alloc::{AllocError, Global};
use sync_core::{LockToken, SyncFault, Token};

/// The jobs that run at a mirror: the token of each at its place. A place is free again when its job has left.
#[derive(Drop)]
pub(crate) struct RunningJobs {
    pub(crate) places: Vec<Option<Token>>,
}

impl RunningJobs {
    ghost use Rattle.mirror_share.specs.Jobs.{places_of};

    /// Nobody runs.
    pub(crate) fn new(alloc: Global) -> RunningJobs
        ensures { places_of result ≡ [] }
    {
        RunningJobs {
            places: Vec::new(alloc),
        }
    }

    /// A place for the job of that token, at which nobody was. HolderRunning (55) where a job of that token runs,
    /// OutOfMemory (70).
    pub(crate) fn enter(&mut self, alloc: Global, token: &Token) -> Result<usize, SyncFault>
        ensures alone { IfOk result (λ _. RunsNowhere (places_of self.old) token.now) }
        ensures free { IfOk result (λ i. job_at (places_of self.old) i ≡ None) }
        ensures there { IfOk result (λ i. job_at (places_of self.new) i ≡ Some token.now) }
        ensures others { IfOk result (λ i. OthersStay i (places_of self.old) (places_of self.new)) }
        ensures refused { IfErr result (IsEntryFault (places_of self.old) token.now) }
        ensures same { OnErr result (JobsStay (places_of self.old) (places_of self.new)) }
    {
        if place_of(self.places.as_slice(), token).is_some() {
            return Err(running(alloc, token));
        }
        let kept = token.copy(alloc)?;
        let place = self.free_place()?;
        self.places[place] = Some(kept);
        Ok(place)
    }

    /// The job at that place leaves.
    pub(crate) fn leave(&mut self, place: usize)
        ensures left { job_at (places_of self.new) place ≡ None }
        ensures others { OthersStay place (places_of self.old) (places_of self.new) }
    {
        if place < self.places.len() {
            self.places[place] = None;
        }
    }

    // A place that nobody has.
    fn free_place(&mut self) -> Result<usize, AllocError>
        ensures there { IfOk result (λ i. slice_get (places_of self.new) i ≡ Some None) }
        ensures free { IfOk result (λ i. job_at (places_of self.old) i ≡ None) }
        ensures same { JobsStay (places_of self.old) (places_of self.new) }
    {
        match first_free(self.places.as_slice()) {
            Some(place) => Ok(place),
            None => {
                let place = self.places.len();
                self.places.push(None)?;
                Ok(place)
            }
        }
    }
}

// The first place that nobody has.
fn first_free(places: &[Option<Token>]) -> Option<usize>
    ensures { IfSome result (λ i. slice_get places.now i ≡ Some None) }
{
    for i in 0..places.len() {
        if places[i].is_none() {
            return Some(i);
        }
    }
    None
}

// The place of the job of that token.
fn place_of(places: &[Option<Token>], token: &Token) -> Option<usize>
    ensures found { IfSome result (λ i. job_at places.now i ≡ Some token.now) }
    ensures none { IfNone result (RunsNowhere places.now token.now) }
{
    for i in 0..places.len() {
        if is_of(&places[i], token) {
            return Some(i);
        }
    }
    None
}

// Whether it is the job of that token.
fn is_of(job: &Option<Token>, token: &Token) -> bool
    ensures yes { result ≡ true → job.now ≡ Some token.now }
    ensures no { result ≡ false → job.now ≢ Some token.now }
{
    match job {
        Some(other) => other.as_bytes() == token.as_bytes(),
        None => false,
    }
}

// A job of that token runs (55).
fn running(alloc: Global, token: &Token) -> SyncFault
    ensures { IsRunningFault token.now result }
{
    match Vec::from_slice(alloc, token.as_bytes()) {
        Ok(bytes) => SyncFault::HolderRunning(LockToken { bytes }),
        Err(_) => SyncFault::OutOfMemory,
    }
}
