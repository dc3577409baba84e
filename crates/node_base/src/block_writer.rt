//! Writing property blocks.
ghost use Rattle.std.specs.Prelude.{◌≡◌, ◌≤◌, length};
ghost use Rattle.std.specs.Fmt.{decimal};
ghost use Rattle.byte_streams.specs.Memory.{Adds};
ghost use Rattle.node_base.specs.BlockCanon.{counted, canon_property, canon_block};
ghost use Rattle.node_base.specs.declared.limits.TheConstants.{PROP_VALUE_BYTES};

use crate::{PropName, PropValue, Props};
use byte_streams::VecWriter;
use itoa::Buffer;

// Writes the count of some bytes behind a letter and a blank, and the bytes, each line with its LF.
fn write_counted(out: &mut VecWriter, letter: &[u8], bytes: &[u8])
    ensures { Adds out.old out.new (counted letter.now bytes.now) }
{
    let mut digits = Buffer::new();
    out.write(letter);
    out.write(digits.format(bytes.len()).as_bytes());
    out.write(b"\n");
    out.write(bytes);
    out.write(b"\n");
}

// Writes a property.
fn write_property(out: &mut VecWriter, name: &PropName, value: &PropValue)
    ensures { Adds out.old out.new (canon_property (name.now, value.now)) }
{
    write_counted(out, b"K ", name.as_bytes());
    write_counted(out, b"V ", value.as_slice());
}

// How many digits a number has.
fn decimal_len(n: usize) -> u64
    requires { n ≤ PROP_VALUE_BYTES }
    ensures len { result ≡ length (decimal n) }
    ensures small { result ≤ 5 }
{
    let mut rest = n;
    let mut len = 1;
    while rest >= 10 {
        rest /= 10;
        len += 1;
    }
    len
}

// How many bytes a property has in a block.
fn property_len(name: &PropName, value: &PropValue) -> u64
    ensures len { result ≡ length (canon_property (name.now, value.now)) }
    ensures small { result ≤ 65809 }
{
    let n = name.len();
    let m = value.len();
    decimal_len(n) + n as u64 + decimal_len(m) + m as u64 + 8
}

impl Props {
    /// How many bytes `write_block` writes.
    pub fn block_len(&self) -> u64
        ensures { result ≡ length (canon_block self.now) }
    {
        let mut len = 10;
        for (key, value) in self.entries() {
            len += property_len(key, value);
        }
        len
    }

    /// Writes the properties as a property block: in the byte order of the names, counts without leading zeros.
    pub fn write_block(&self, out: &mut VecWriter)
        ensures { Adds out.old out.new (canon_block self.now) }
    {
        for (name, value) in self.entries() {
            write_property(out, name, value);
        }
        out.write(b"PROPS-END\n");
    }
}
