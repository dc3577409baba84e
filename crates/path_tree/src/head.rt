//! Heads of names: their first bytes as one number.
ghost use Rattle.std.specs.Prelude.{◌≡◌, slice_index};
ghost use Rattle.path_tree.specs.Heads.{IsHeaded};

use node_base::NodeName;

// The byte there, or zero behind the last.
fn byte_at(bytes: &[u8], at: usize) -> u8
    ensures { result ≡ slice_index bytes.now at }
{
    match bytes.get(at) {
        Some(byte) => *byte,
        None => 0,
    }
}

// The first eight bytes as one number, with zeros behind the last.
fn head_of(bytes: &[u8]) -> u64
    ensures { IsHeaded result bytes.now }
{
    u64::from_be_bytes([
        byte_at(bytes, 0),
        byte_at(bytes, 1),
        byte_at(bytes, 2),
        byte_at(bytes, 3),
        byte_at(bytes, 4),
        byte_at(bytes, 5),
        byte_at(bytes, 6),
        byte_at(bytes, 7),
    ])
}

/// The first eight bytes of a name as one number, with zeros behind the last: names are in the order of their heads,
/// where these differ.
pub fn head(name: &NodeName) -> u64
    ensures { IsHeaded result name.now }
{
    head_of(name.as_str().as_bytes())
}
