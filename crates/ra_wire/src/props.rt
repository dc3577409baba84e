//! Lists of properties.

ghost use Rattle.std.specs.Prelude.{◌≡◌, IfOk, IfErr, Some, None};
ghost use Rattle.std.specs.FinMap as finite;
ghost use Rattle.ra_item.specs.Items.{row};
ghost use Rattle.ra_wire.specs.Params.{left_of, ReadsNext, ReadsFirst, Misses};
ghost use Rattle.ra_wire.specs.Prototypes.{HasProps, AreRevprops, Judges};
ghost use Rattle.ra_wire.specs.Answers.{short_value, with_property, one_more, properties_of, props_in, revprops_in};
ghost use Rattle.ra_wire.specs.Limits.{named_text, with_text, is_past, stops_past, props_past, NotWithin, IsPast};

use crate::fault::WireFault;
use crate::params::Params;
use crate::props_fault::PropsFault;
use node_base::{PropFault, PropName, PropValue, Props};
use ra_item::item::Item;
use std::alloc::Global;

// A value within the limit.
fn short_value(text: Vec<u8>) -> Result<PropValue, PropsFault>
    ensures read { IfOk result (λ v. short_value text.items ≡ Some v) }
    ensures none { IfErr result (IsPast (short_value text.items)) }
{
    match PropValue::new(text) {
        Ok(value) => Ok(value),
        Err(_) => Err(PropsFault::TooLong),
    }
}

// The property that an item is, `( name value )`, whatever its value's length.
fn named_text(item: Item) -> Result<(PropName, Vec<u8>), WireFault>
    ensures read { IfOk result (λ e. named_text item ≡ Some (e.0, e.1.items)) }
    ensures none { Misses (named_text item) result }
{
    let mut parts = Params::of(item)?;
    let name = parts.prop_name()?;
    let text = parts.text()?;
    Ok((name, text))
}

// Puts a property among others.
fn put(alloc: Global, props: &mut Props, name: PropName, value: PropValue) -> Result<(), PropsFault>
    ensures read { IfOk result (λ _. with_property props.old (name, value) ≡ Some props.new) }
    ensures none { IfErr result (IsPast (with_property props.old (name, value))) }
{
    match props.set(alloc, name, value) {
        Ok(()) => Ok(()),
        Err(PropFault::OutOfMemory) => Err(PropsFault::OutOfMemory),
        Err(_) => Err(PropsFault::TooLong),
    }
}

// The same of a value that may be past its limit.
fn put_text(
    alloc: Global,
    props: &mut Props,
    name: PropName,
    text: Vec<u8>,
) -> Result<(), PropsFault>
    ensures read { IfOk result (λ _. with_text props.old (name, text.items) ≡ Some props.new) }
    ensures none { IfErr result (IsPast (with_text props.old (name, text.items))) }
{
    let value = short_value(text)?;
    put(alloc, props, name, value)
}

// Puts the property that an item is among others.
fn put_next(alloc: Global, props: &mut Props, item: Item) -> Result<(), PropsFault>
    ensures read { IfOk result (λ _. one_more props.old item ≡ Some props.new) }
    ensures none { IfErr result (NotWithin (one_more props.old item) (is_past props.old item)) }
{
    match named_text(item) {
        Ok((name, text)) => put_text(alloc, props, name, text),
        Err(fault) => Err(PropsFault::from(fault)),
    }
}

// The properties that items are.
fn all_props(alloc: Global, items: Vec<Item>) -> Result<Props, PropsFault>
    ensures read { IfOk result (λ m. properties_of finite.empty (row items.items) ≡ Some m) }
    ensures none { IfErr result (NotWithin (properties_of finite.empty (row items.items))
        (stops_past finite.empty (row items.items))) }
{
    let mut props = Props::empty();
    for item in items {
        put_next(alloc, &mut props, item)?;
    }
    Ok(props)
}

/// The next item, which is a list of properties in any order; of two with one name the later counts. `BadShape` where
/// it isn't, and for a name that is no property's; `TooLong` for a value or a number of properties past the limits;
/// `OutOfMemory`.
pub fn props_within(alloc: Global, params: &mut Params) -> Result<Props, PropsFault>
    ensures read { ReadsNext props_in (λ m. m) params.old params.new result }
    ensures none { IfErr result (NotWithin (props_in (left_of params.old)) (props_past (left_of params.old))) }
{
    match params.items() {
        Ok(items) => all_props(alloc, items),
        Err(fault) => Err(PropsFault::from(fault)),
    }
}

/// The same, with `BadShape` (48) past the limits too; `OutOfMemory` (70).
pub fn next_props(alloc: Global, params: &mut Params) -> Result<Props, WireFault>
    ensures read { ReadsNext props_in (λ m. m) params.old params.new result }
    ensures none { Misses (props_in (left_of params.old)) result }
{
    match props_within(alloc, params) {
        Ok(props) => Ok(props),
        Err(PropsFault::OutOfMemory) => Err(WireFault::OutOfMemory),
        Err(PropsFault::TooLong) => Err(WireFault::BadShape),
        Err(PropsFault::BadShape) => Err(WireFault::BadShape),
    }
}

/// The properties that an answer to `rev-proplist` holds. As [`next_props`].
pub fn proplist(alloc: Global, content: Params) -> Result<Props, WireFault>
    ensures read { ReadsFirst props_in (λ m. m) content result }
    ensures none { Misses (props_in (left_of content)) result }
    ensures judged { Judges HasProps (λ m. m) (left_of content) result }
{
    let mut content = content;
    next_props(alloc, &mut content)
}

/// The properties in front of a revision's edit: `( revprops ( .. ) )`. `BadShape` (48) for another form, and as
/// [`next_props`].
pub fn revprops(alloc: Global, item: Item) -> Result<Props, WireFault>
    ensures read { IfOk result (λ m. revprops_in item ≡ Some m) }
    ensures none { Misses (revprops_in item) result }
    ensures judged { Judges AreRevprops (λ m. m) item result }
{
    read_revprops(alloc, item)
}

// The same, by what is read alone.
fn read_revprops(alloc: Global, item: Item) -> Result<Props, WireFault>
    ensures read { IfOk result (λ m. revprops_in item ≡ Some m) }
    ensures none { Misses (revprops_in item) result }
{
    let mut parts = Params::of(item)?;
    if parts.word()?.as_slice() == b"revprops".as_slice() {
        next_props(alloc, &mut parts)
    } else {
        Err(WireFault::BadShape)
    }
}
