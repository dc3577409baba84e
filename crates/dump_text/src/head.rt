//! The headers of a record.

ghost use Rattle.std.specs.Prelude.{◌≡◌, ◌≤◌, ◌<◌, Option, Some, None, IfOk, codes};
ghost use Rattle.node_base.specs.Numbers.{decimal};
ghost use Rattle.dump_text.specs.Headers.{known_name};
ghost use Rattle.dump_text.specs.Heads.{line_says, HeadIs, LengthIs, no_head, set_identity, set_number, set_path};
ghost use Rattle.dump_text.specs.Heads.{set_kind, set_action, set_source_revision, set_source_path, set_sum};
ghost use Rattle.dump_text.specs.Heads.{set_base_sum, set_text_delta, set_prop_delta, known_says};

use crate::fault::DumpFault;
use crate::header::{
    HeaderName, action_from, header_named, identity_from, kind_from, path_from, split_line,
    sum_from,
};
use node_base::{Action, NodeKind, NodePath, RevNo, read_decimal};
use std::alloc::Global;
use uuid::Uuid;

/// The headers of a record, as far as they have come.
#[derive(Drop)]
pub struct Head {
    /// Whether texts may be given as deltas. No header changes it.
    pub deltas: bool,
    pub identity: Option<Uuid>,
    pub number: Option<RevNo>,
    pub path: Option<NodePath>,
    pub kind: Option<NodeKind>,
    pub action: Option<Action>,
    pub source_revision: Option<RevNo>,
    pub source_path: Option<NodePath>,
    pub prop_len: Option<u64>,
    pub text_len: Option<u64>,
    pub content_len: Option<u64>,
    pub sum: Option<[u8; 16]>,
    pub base_sum: Option<[u8; 16]>,
    pub text_delta: Option<bool>,
    pub prop_delta: Option<bool>,
}

/// A length, which comes once.
fn length_from(old: Option<u64>, value: &[u8]) -> Result<u64, DumpFault>
    ensures { LengthIs result old (decimal value.now) }
{
    if old.is_some() {
        return Err(DumpFault::BadHeader);
    }
    read_decimal(value).ok_or(DumpFault::BadNumber)
}

impl Head {
    /// No header yet, where texts may or may not be given as deltas.
    pub fn new(deltas: bool) -> Head
        ensures { result ≡ no_head deltas }
    {
        Head {
            deltas,
            identity: None,
            number: None,
            path: None,
            kind: None,
            action: None,
            source_revision: None,
            source_path: None,
            prop_len: None,
            text_len: None,
            content_len: None,
            sum: None,
            base_sum: None,
            text_delta: None,
            prop_delta: None,
        }
    }

    fn set_identity(&mut self, value: &[u8]) -> Result<(), DumpFault>
        ensures { HeadIs result self.new (set_identity self.old value.now) }
    {
        if self.identity.is_some() {
            return Err(DumpFault::BadHeader);
        }
        let Some(identity) = identity_from(value) else {
            return Err(DumpFault::BadHeader);
        };
        self.identity = Some(identity);
        Ok(())
    }

    fn set_number(&mut self, value: &[u8]) -> Result<(), DumpFault>
        ensures { HeadIs result self.new (set_number self.old value.now) }
    {
        if self.number.is_some() {
            return Err(DumpFault::BadHeader);
        }
        let Some(number) = RevNo::parse(value) else {
            return Err(DumpFault::BadNumber);
        };
        self.number = Some(number);
        Ok(())
    }

    fn set_path(&mut self, alloc: Global, value: &[u8]) -> Result<(), DumpFault>
        ensures { HeadIs result self.new (set_path self.old value.now) }
    {
        if self.path.is_some() {
            return Err(DumpFault::BadHeader);
        }
        let path = path_from(alloc, value)?;
        self.path = Some(path);
        Ok(())
    }

    fn set_kind(&mut self, value: &[u8]) -> Result<(), DumpFault>
        ensures { HeadIs result self.new (set_kind self.old value.now) }
    {
        if self.kind.is_some() {
            return Err(DumpFault::BadHeader);
        }
        let Some(kind) = kind_from(value) else {
            return Err(DumpFault::BadHeader);
        };
        self.kind = Some(kind);
        Ok(())
    }

    fn set_action(&mut self, value: &[u8]) -> Result<(), DumpFault>
        ensures { HeadIs result self.new (set_action self.old value.now) }
    {
        if self.action.is_some() {
            return Err(DumpFault::BadHeader);
        }
        let Some(action) = action_from(value) else {
            return Err(DumpFault::BadHeader);
        };
        self.action = Some(action);
        Ok(())
    }

    fn set_source_revision(&mut self, value: &[u8]) -> Result<(), DumpFault>
        ensures { HeadIs result self.new (set_source_revision self.old value.now) }
    {
        if self.source_revision.is_some() {
            return Err(DumpFault::BadHeader);
        }
        let Some(number) = RevNo::parse(value) else {
            return Err(DumpFault::BadNumber);
        };
        self.source_revision = Some(number);
        Ok(())
    }

    fn set_source_path(&mut self, alloc: Global, value: &[u8]) -> Result<(), DumpFault>
        ensures { HeadIs result self.new (set_source_path self.old value.now) }
    {
        if self.source_path.is_some() {
            return Err(DumpFault::BadHeader);
        }
        let path = path_from(alloc, value)?;
        self.source_path = Some(path);
        Ok(())
    }

    fn set_sum(&mut self, value: &[u8]) -> Result<(), DumpFault>
        ensures { HeadIs result self.new (set_sum self.old value.now) }
    {
        if self.sum.is_some() {
            return Err(DumpFault::BadHeader);
        }
        let Some(sum) = sum_from(value) else {
            return Err(DumpFault::BadHeader);
        };
        self.sum = Some(sum);
        Ok(())
    }

    fn set_base_sum(&mut self, value: &[u8]) -> Result<(), DumpFault>
        ensures { HeadIs result self.new (set_base_sum self.old value.now) }
    {
        if !self.deltas {
            return Ok(());
        }
        if self.base_sum.is_some() {
            return Err(DumpFault::BadHeader);
        }
        let Some(sum) = sum_from(value) else {
            return Err(DumpFault::BadHeader);
        };
        self.base_sum = Some(sum);
        Ok(())
    }

    fn set_text_delta(&mut self, value: &[u8]) -> Result<(), DumpFault>
        ensures { HeadIs result self.new (set_text_delta self.old value.now) }
    {
        if self.text_delta.is_some() {
            return Err(DumpFault::BadHeader);
        }
        let is_delta = value == b"true".as_slice();
        if is_delta && !self.deltas {
            return Err(DumpFault::TextDelta);
        }
        self.text_delta = Some(is_delta);
        Ok(())
    }

    fn set_prop_delta(&mut self, value: &[u8]) -> Result<(), DumpFault>
        ensures { HeadIs result self.new (set_prop_delta self.old value.now) }
    {
        if self.prop_delta.is_some() {
            return Err(DumpFault::BadHeader);
        }
        self.prop_delta = Some(value == b"true".as_slice());
        Ok(())
    }

    fn set_header(
        &mut self,
        alloc: Global,
        header: HeaderName,
        value: &[u8],
    ) -> Result<(), DumpFault>
        ensures { HeadIs result self.new (known_says header self.old value.now) }
    {
        match header {
            HeaderName::Identity => self.set_identity(value),
            HeaderName::RevisionNumber => self.set_number(value),
            HeaderName::NodePath => self.set_path(alloc, value),
            HeaderName::NodeKind => self.set_kind(value),
            HeaderName::NodeAction => self.set_action(value),
            HeaderName::SourceRevision => self.set_source_revision(value),
            HeaderName::SourcePath => self.set_source_path(alloc, value),
            HeaderName::PropLength => {
                self.prop_len = Some(length_from(self.prop_len, value)?);
                Ok(())
            }
            HeaderName::TextLength => {
                self.text_len = Some(length_from(self.text_len, value)?);
                Ok(())
            }
            HeaderName::ContentLength => {
                self.content_len = Some(length_from(self.content_len, value)?);
                Ok(())
            }
            HeaderName::TextSum => self.set_sum(value),
            HeaderName::TextDelta => self.set_text_delta(value),
            HeaderName::BaseSum => self.set_base_sum(value),
            HeaderName::PropDelta => self.set_prop_delta(value),
        }
    }

    /// Takes a whole line, without its LF.
    pub fn take_line(&mut self, alloc: Global, line: &[u8]) -> Result<(), DumpFault>
        ensures { HeadIs result self.new (line_says self.old line.now) }
    {
        let Some((name, value)) = split_line(line) else {
            return Err(DumpFault::BadHeader);
        };
        match header_named(name) {
            Some(header) => self.set_header(alloc, header, value),
            None => Ok(()),
        }
    }
}
