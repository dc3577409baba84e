//! One change of a revision.
ghost use Rattle.std.specs.Prelude.{◌≡◌, true, false, IfOk};
ghost use Rattle.dump_load.specs.Changes.{settles, is_delete, is_add, is_plain, brings, has_form, IsDescribed, IsWhole};
ghost use Rattle.dump_load.specs.Records.{change_of, record_of};
ghost use Rattle.dump_text.specs.declared.record.PropPart.TheVariants.{Whole};
ghost use Rattle.std.specs.Option.{option_map};

use dump_text::{NodeRecord, PropPart};
use node_base::{Action, NodeKind, NodePath, Props, Source, Text};
use std::alloc::{AllocError, Global};

/// A change of one path. A part that is missing is left as it was.
#[derive(Drop)]
pub struct Change {
    /// The path that is changed.
    pub path: NodePath,
    /// What is done there.
    pub action: Action,
    /// Whether the node is a file or a directory, where that is said.
    pub kind: Option<NodeKind>,
    /// Where an add or a replace copies from.
    pub source: Option<Source>,
    /// All properties, where they are given.
    pub props: Option<Props>,
    /// The whole text, where it is given.
    pub text: Option<Text>,
}

/// Whether an action settles what is below its path: an add, a delete or a replace does.
pub fn settles(action: Action) -> bool
    ensures { result ≡ settles action }
{
    match action {
        Action::Modify => false,
        Action::Add | Action::Delete | Action::Replace => true,
    }
}

/// Whether an action is a deletion.
pub fn is_delete(action: Action) -> bool
    ensures { result ≡ is_delete action }
{
    match action {
        Action::Delete => true,
        Action::Modify | Action::Add | Action::Replace => false,
    }
}

/// Whether an action is an add.
pub fn is_add(action: Action) -> bool
    ensures { result ≡ is_add action }
{
    match action {
        Action::Add => true,
        Action::Modify | Action::Delete | Action::Replace => false,
    }
}

impl Change {
    /// Whether it is an add or a replace.
    pub fn brings(&self) -> bool
        ensures { result ≡ brings self.now }
    {
        settles(self.action) && !is_delete(self.action)
    }

    /// Whether it is an add or a replace that copies nothing.
    pub fn is_plain(&self) -> bool
        ensures { result ≡ is_plain self.now }
    {
        self.brings() && self.source.is_none()
    }

    /// Whether dump text can say it: it has a source only where it makes a node, and a deletion has no parts.
    pub fn has_form(&self) -> bool
        ensures { result ≡ has_form self.now }
    {
        if is_delete(self.action) {
            return self.source.is_none() && self.props.is_none() && self.text.is_none();
        }
        self.brings() || self.source.is_none()
    }

    // Whether it says all that is there, if it is an add or a replace that copies nothing: a directory has properties,
    // a file a text too.
    fn is_described(&self) -> bool
        ensures holds { result ≡ true → IsDescribed self.now }
        ensures fails { result ≡ false → ¬ IsDescribed self.now }
    {
        let described = match self.kind {
            None => false,
            Some(NodeKind::Dir) => self.props.is_some(),
            Some(NodeKind::File) => self.props.is_some() && self.text.is_some(),
        };
        !self.is_plain() || described
    }

    /// Whether dump text can say it, and it says all that is there, if it is an add or a replace that copies nothing: a
    /// directory has properties, a file a text too.
    pub fn is_whole(&self) -> bool
        ensures holds { result ≡ true → IsWhole self.now }
        ensures fails { result ≡ false → ¬ IsWhole self.now }
    {
        self.is_described() && self.has_form()
    }

    /// The change that a record states, where a delta counts as the list that it makes of an empty one.
    pub fn from_record(stated: NodeRecord) -> Change
        ensures { result ≡ change_of stated }
    {
        let NodeRecord {
            path,
            kind,
            action,
            source,
            props,
            text,
        } = stated;
        let props = match props {
            Some(PropPart::Whole(props)) => Some(props),
            Some(PropPart::Delta(delta)) => Some(delta.sets),
            None => None,
        };
        Change {
            path,
            action,
            kind,
            source,
            props,
            text,
        }
    }

    /// The record that states this change. Properties and text are shared with it.
    pub fn to_record(&self, alloc: Global) -> Result<NodeRecord, AllocError>
        ensures { IfOk result (λ r. r ≡ record_of self.now) }
    {
        let props = match &self.props {
            Some(props) => Some(PropPart::Whole(props.share()?)),
            None => None,
        };
        Ok(NodeRecord {
            path: self.path.copy(alloc)?,
            kind: self.kind,
            action: self.action,
            source: copy_source(alloc, &self.source)?,
            props,
            text: share_text(&self.text)?,
        })
    }

    /// The record that states this change, which it becomes: nothing is copied.
    pub fn into_record(self) -> NodeRecord
        ensures { result ≡ record_of self }
    {
        let Change {
            path,
            action,
            kind,
            source,
            props,
            text,
        } = self;
        NodeRecord {
            path,
            kind,
            action,
            source,
            props: whole_part(props),
            text,
        }
    }

    /// The same change once more. Properties and text are shared with it.
    pub fn share(&self, alloc: Global) -> Result<Change, AllocError>
        ensures { IfOk result (λ c. c ≡ self.now) }
    {
        Ok(Change {
            path: self.path.copy(alloc)?,
            action: self.action,
            kind: self.kind,
            source: copy_source(alloc, &self.source)?,
            props: share_props(&self.props)?,
            text: share_text(&self.text)?,
        })
    }
}

// Properties as a record gives the whole list of them.
fn whole_part(props: Option<Props>) -> Option<PropPart>
    ensures { result ≡ option_map Whole props }
{
    match props {
        Some(props) => Some(PropPart::Whole(props)),
        None => None,
    }
}

fn copy_source(alloc: Global, source: &Option<Source>) -> Result<Option<Source>, AllocError>
    ensures { IfOk result (λ s. s ≡ source.now) }
{
    match source {
        None => Ok(None),
        Some(source) => Ok(Some(Source {
            path: source.path.copy(alloc)?,
            revision: source.revision,
        })),
    }
}

/// The text for another owner, where there is one.
pub fn share_text(text: &Option<Text>) -> Result<Option<Text>, AllocError>
    ensures { IfOk result (λ t. t ≡ text.now) }
{
    match text {
        None => Ok(None),
        Some(text) => Ok(Some(text.share()?)),
    }
}

/// The properties for another owner, where there are some.
pub fn share_props(props: &Option<Props>) -> Result<Option<Props>, AllocError>
    ensures { IfOk result (λ p. p ≡ props.now) }
{
    match props {
        None => Ok(None),
        Some(props) => Ok(Some(props.share()?)),
    }
}
