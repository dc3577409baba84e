//! The folder that a folder is in.
ghost use Rattle.fleet_disk.specs.Above.{IsAbove};

// The folder that a folder is in, as its words say it.
pub fn above(folder: &str) -> &str
    ensures { IsAbove folder.now result.now }
{
    let folder = folder.trim_end_matches('/');
    match folder.rsplit_once('/') {
        Some((above, _)) => { if above.is_empty() { "/" } else { above } }
        None => ".",
    }
}
