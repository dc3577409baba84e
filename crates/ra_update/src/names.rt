//! The names of what is told of a node beside its own properties.

ghost use Rattle.std.specs.Prelude.{◌≡◌, IfOk, IfErr, codes};
ghost use Rattle.delta_editor.specs.declared.fault.EditorFault.TheVariants.{OutOfMemory};

use delta_editor::EditorFault;
use node_base::PropName;
use std::alloc::Global;

/// The names of what is told of a node beside its own properties.
#[derive(Drop)]
pub struct EntryNames {
    pub number: PropName,
    pub date: PropName,
    pub author: PropName,
    pub identity: PropName,
    ghost of_number: { number ≡ codes "svn:entry:committed-rev" },
    ghost of_date: { date ≡ codes "svn:entry:committed-date" },
    ghost of_author: { author ≡ codes "svn:entry:last-author" },
    ghost of_identity: { identity ≡ codes "svn:entry:uuid" },
}

// The name that some bytes are.
fn name(alloc: Global, bytes: &[u8]) -> Result<PropName, EditorFault>
    ensures name { IfOk result (λ n. n ≡ bytes.now) }
    ensures memory { IfErr result (λ e. e ≡ OutOfMemory) }
{
    match PropName::parse(alloc, bytes) {
        Ok(name) => Ok(name),
        Err(_) => Err(EditorFault::OutOfMemory),
    }
}

impl EntryNames {
    /// The names.
    pub fn new(alloc: Global) -> Result<EntryNames, EditorFault>
        ensures { IfErr result (λ e. e ≡ OutOfMemory) }
    {
        Ok(EntryNames {
            number: name(alloc, b"svn:entry:committed-rev")?,
            date: name(alloc, b"svn:entry:committed-date")?,
            author: name(alloc, b"svn:entry:last-author")?,
            identity: name(alloc, b"svn:entry:uuid")?,
        })
    }
}
