//! A repository that is begun while a growth is refused. `rt try --test --fail-alloc 1..` refuses each growth in turn: what was
//! refused for it leaves nothing for which the next call would be refused.
use fleet_disk::{FolderFault, HeldFiles, HostDisk, StdFiles, StdFolders, create_folder};
use repo_store::RepoStore;
use std::alloc::Global;
use std::fs;
use std::test::Fail;
use uuid::Uuid;

// The disk of a folder.
fn made_disk<R: HeldFiles>(
    host: &R,
    alloc: Global,
    folder: &str,
) -> Result<HostDisk<StdFiles<R::File>>, FolderFault> {
    create_folder(&mut StdFolders::new(host), alloc, folder)
}

// Begins a repository in a folder of the host.
fn begins(rt: &HostRuntime, folder: &str) -> bool {
    let Ok(identity) = Uuid::parse_str("6a1f0c3e-0000-4000-8000-000000000001") else {
        return false;
    };
    match made_disk(rt, rt.alloc(), folder) {
        Ok(disk) => match RepoStore::create(rt.alloc(), disk, identity) {
            Ok(store) => {
                let _disk = store.into_disk();
                true
            }
            Err(_refused) => false,
        },
        Err(_) => false,
    }
}

#[test]
fn a_folder_is_begun_behind_a_refused_growth(rt: HostRuntime) -> Result<(), Fail> {
    let folder = "repo_store_begin";
    let _missing = fs::remove_dir_all(&rt, folder);
    fs::create_dir(&rt, folder)?;
    assert!(rt; begins(&rt, folder) || begins(&rt, folder));
    assert!(rt; !begins(&rt, folder));
    fs::remove_dir_all(&rt, folder)?;
    Ok(())
}
