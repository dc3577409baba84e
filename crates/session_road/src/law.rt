//! Laws. Those of all repositories are each the contract of a function that does nothing; one of a repository takes it,
//! since what its types keep is then known.
ghost use Rattle.std.specs.Prelude.{◌<◌, length};
ghost use Rattle.session_road.specs.Told.{ServerTells, MayBeHeard};

use edit_road::law::set_may_be_sent;
use node_base::RevNo;
use repo_core::Repo;

/// What a server answers a client's command is what the client's clauses on what it hears speak of: the number of the
/// newest revision, the properties of a revision that is there, and that revision.
pub fn server_tells_what_is_heard()
    ensures { ServerTells }
{}

/// And a client may hear each revision of a repository over the trees before it: its set may be sent, its properties
/// are within their limits, and the set makes its tree.
pub fn each_revision_may_be_heard(repo: &Repo, number: RevNo)
    ensures heard { number < length repo.now.revisions → MayBeHeard repo.now number }
{
    let Some(set) = repo.set(number) else {
        return;
    };
    let Some(props) = repo.props(number) else {
        return;
    };
    let all = repo.trees();
    let count = number.index();
    if count > all.len() {
        return;
    }
    let before = &all[..count];
    let _entries = props.entries();
    set_may_be_sent(before, set);
}
