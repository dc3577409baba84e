//! Whether two sets of changes are the same.
ghost use Rattle.std.specs.Prelude.{◌≡◌, ◌↔◌, IsTrue};

use dump_load::{Change, ChangeSet};
use node_base::{NodePath, Props, Source, Text};

/// Whether two sets have the same changes.
pub(crate) fn is_same_set(these: &ChangeSet, those: &ChangeSet) -> bool
    ensures { IsTrue result ↔ (these.now ≡ those.now) }
{
    are_same(these.changes(), those.changes())
}

fn are_same(these: &[Change], those: &[Change]) -> bool
    ensures { IsTrue result ↔ (these.now ≡ those.now) }
{
    if these.len() != those.len() {
        return false;
    }
    for i in 0..these.len() {
        if !is_same(&these[i], &those[i]) {
            return false;
        }
    }
    true
}

fn is_same(this: &Change, that: &Change) -> bool
    ensures { IsTrue result ↔ (this.now ≡ that.now) }
{
    if !is_same_path(&this.path, &that.path) {
        return false;
    }
    if this.action != that.action {
        return false;
    }
    if this.kind != that.kind {
        return false;
    }
    if !is_same_source(&this.source, &that.source) {
        return false;
    }
    if !are_same_props(&this.props, &that.props) {
        return false;
    }
    is_same_text(&this.text, &that.text)
}

fn is_same_path(this: &NodePath, that: &NodePath) -> bool
    ensures { IsTrue result ↔ (this.now ≡ that.now) }
{
    this == that
}

fn is_same_source(this: &Option<Source>, that: &Option<Source>) -> bool
    ensures { IsTrue result ↔ (this.now ≡ that.now) }
{
    let Some(this) = this else {
        return that.is_none();
    };
    match that {
        Some(that) => is_one_source(this, that),
        None => false,
    }
}

fn is_one_source(this: &Source, that: &Source) -> bool
    ensures { IsTrue result ↔ (this.now ≡ that.now) }
{
    if !is_same_path(&this.path, &that.path) {
        return false;
    }
    this.revision.get() == that.revision.get()
}

fn are_same_props(these: &Option<Props>, those: &Option<Props>) -> bool
    ensures { IsTrue result ↔ (these.now ≡ those.now) }
{
    let Some(these) = these else {
        return those.is_none();
    };
    match those {
        Some(those) => these.equals(those),
        None => false,
    }
}

fn is_same_text(this: &Option<Text>, that: &Option<Text>) -> bool
    ensures { IsTrue result ↔ (this.now ≡ that.now) }
{
    let Some(this) = this else {
        return that.is_none();
    };
    match that {
        Some(that) => this.as_slice() == that.as_slice(),
        None => false,
    }
}
