//! What stands in an answer: a number, a kind, a value.

ghost use Rattle.std.specs.Prelude.{None};
ghost use Rattle.std.specs.Option.{option_map};
ghost use Rattle.ra_wire.specs.Params.{left_of, number_in, text_in, bracketed, ReadsNext, ReadsFirst, Misses};
ghost use Rattle.ra_wire.specs.Prototypes.{IsNumber, IsKind, IsValue, Judges};
ghost use Rattle.ra_wire.specs.Answers.{kind_in, kind_said, node_kind_in};

use crate::fault::WireFault;
use crate::params::Params;
use node_base::NodeKind;

/// The number that an answer to `get-latest-rev` holds. `BadShape` (48) for another form.
pub fn latest(content: Params) -> Result<u64, WireFault>
    ensures read { ReadsFirst number_in (λ n. n) content result }
    ensures none { Misses (number_in (left_of content)) result }
    ensures judged { Judges IsNumber (λ n. n) (left_of content) result }
{
    let mut content = content;
    content.number()
}

/// What an answer to `check-path` says of the path: nothing, a file or a directory. `BadShape` (48) for another form.
pub fn kind(content: Params) -> Result<Option<NodeKind>, WireFault>
    ensures read { ReadsFirst kind_in (λ k. k) content result }
    ensures none { Misses (kind_in (left_of content)) result }
    ensures judged { Judges IsKind (λ k. k) (left_of content) result }
{
    let mut content = content;
    next_kind(&mut content)
}

/// The value that an answer to `rev-prop` holds, or none. `BadShape` (48) for another form.
pub fn value(content: Params) -> Result<Option<Vec<u8>>, WireFault>
    ensures read { ReadsFirst (bracketed text_in) (option_map (λ t. t.items)) content result }
    ensures none { Misses (bracketed text_in (left_of content)) result }
    ensures judged { Judges IsValue (option_map (λ t. t.items)) (left_of content) result }
{
    let mut content = content;
    content.maybe_text()
}

/// The next item, which is one of the words none, file and dir. `BadShape` (48) where it isn't.
pub fn next_kind(params: &mut Params) -> Result<Option<NodeKind>, WireFault>
    ensures read { ReadsNext kind_in (λ k. k) params.old params.new result }
    ensures none { Misses (kind_in (left_of params.old)) result }
{
    let word = params.word()?;
    if word.as_slice() == b"none".as_slice() {
        Ok(None)
    } else if word.as_slice() == b"file".as_slice() {
        Ok(Some(NodeKind::File))
    } else if word.as_slice() == b"dir".as_slice() {
        Ok(Some(NodeKind::Dir))
    } else {
        Err(WireFault::BadShape)
    }
}

/// The next item, which is one of the words file and dir. `BadShape` (48) where it isn't.
pub fn next_node_kind(params: &mut Params) -> Result<NodeKind, WireFault>
    ensures read { ReadsNext node_kind_in (λ k. k) params.old params.new result }
    ensures none { Misses (node_kind_in (left_of params.old)) result }
{
    match next_kind(params)? {
        Some(kind) => Ok(kind),
        None => Err(WireFault::BadShape),
    }
}
