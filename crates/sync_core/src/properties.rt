//! The properties of a mirror's synchronisation, as they are read from revision 0's map. Reading takes no memory.
ghost use Rattle.std.specs.Prelude.{◌≡◌};
ghost use Rattle.std.specs.Option.{option_copied, option_map_or};
ghost use Rattle.std.specs.FinMap as finite;
ghost use Rattle.node_base.specs.Numbers.{is_digit, all_bytes};
ghost use Rattle.sync_core.specs.Names.{url_name, uuid_name, merged_name, copying_name, lock_name, number_of};
ghost use Rattle.sync_core.specs.Names.{number_at, starts_right, is_spelt, Absent};

use crate::number::Number;
use node_base::{Props, read_decimal};

/// `svn:sync-from-url`.
pub const URL: &[u8] = b"svn:sync-from-url";

/// `svn:sync-from-uuid`.
pub const UUID: &[u8] = b"svn:sync-from-uuid";

/// `svn:sync-last-merged-rev`.
pub const MERGED: &[u8] = b"svn:sync-last-merged-rev";

/// `svn:sync-currently-copying`.
pub const COPYING: &[u8] = b"svn:sync-currently-copying";

/// `svn:sync-lock`.
pub const LOCK: &[u8] = b"svn:sync-lock";

// The names as contracts have them.

#[tactic(auto, unfolding(crate::specs::Names::url_name))]
pub(crate) fn url_name() -> &'static [u8]
    ensures { result.now ≡ url_name }
{
    URL
}

#[tactic(auto, unfolding(crate::specs::Names::uuid_name))]
pub(crate) fn uuid_name() -> &'static [u8]
    ensures { result.now ≡ uuid_name }
{
    UUID
}

#[tactic(auto, unfolding(crate::specs::Names::merged_name))]
pub(crate) fn merged_name() -> &'static [u8]
    ensures { result.now ≡ merged_name }
{
    MERGED
}

#[tactic(auto, unfolding(crate::specs::Names::copying_name))]
pub(crate) fn copying_name() -> &'static [u8]
    ensures { result.now ≡ copying_name }
{
    COPYING
}

#[tactic(auto, unfolding(crate::specs::Names::lock_name))]
pub(crate) fn lock_name() -> &'static [u8]
    ensures { result.now ≡ lock_name }
{
    LOCK
}

/// Where the mirror is copied from; None where it isn't initialized.
pub fn url(props: &Props) -> Option<&[u8]>
    ensures { option_copied result ≡ finite.get props.now url_name }
{
    props.get(url_name())
}

/// The identity of the repository that it is copied from.
pub fn uuid(props: &Props) -> Option<&[u8]>
    ensures { option_copied result ≡ finite.get props.now uuid_name }
{
    props.get(uuid_name())
}

/// The token of the job that took the sync lock.
pub fn lock(props: &Props) -> Option<&[u8]>
    ensures { option_copied result ≡ finite.get props.now lock_name }
{
    props.get(lock_name())
}

/// The last revision that is copied whole.
pub fn merged(props: &Props) -> Number
    ensures { result ≡ number_at props.now merged_name }
{
    number_in(props.get(merged_name()))
}

/// The revision that is being copied.
pub fn copying(props: &Props) -> Number
    ensures { result ≡ number_at props.now copying_name }
{
    number_in(props.get(copying_name()))
}

// What the value of a property says as a number, where there is one.
fn number_in(value: Option<&[u8]>) -> Number
    ensures { result ≡ option_map_or number_of (option_copied value.entry) Absent }
{
    match value {
        None => Number::Absent,
        Some(value) => read_number(value),
    }
}

/// What the value of a property says as a number: decimal digits without leading zeros spell one.
#[tactic(auto, unfolding(crate::specs::Names::number_of))]
pub fn read_number(value: &[u8]) -> Number
    ensures { result ≡ number_of value.now }
{
    if !is_spelt(value) {
        return Number::Misspelt;
    }
    match read_decimal(value) {
        Some(number) => Number::Spelt(number),
        None => Number::Huge,
    }
}

// Whether the value is decimal digits without leading zeros.
fn is_spelt(value: &[u8]) -> bool
    ensures { result ≡ is_spelt value.now }
{
    starts_right(value) && are_digits(value)
}

// Whether no zero stands in front of another digit.
fn starts_right(value: &[u8]) -> bool
    ensures { result ≡ starts_right value.now }
{
    match value {
        [] => false,
        [_] => true,
        [first, ..] => *first != b'0',
    }
}

// Whether each byte is a decimal digit.
fn are_digits(value: &[u8]) -> bool
    ensures { result ≡ all_bytes is_digit value.now }
{
    for b in value {
        if !b.is_ascii_digit() {
            return false;
        }
    }
    true
}
