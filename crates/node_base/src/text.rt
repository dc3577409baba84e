//! Texts of files.
ghost use Rattle.std.specs.Prelude.{◌≡◌, ◌≤◌, ◌++◌, ◌+◌, [], nat_le, length, IfOk, IfErr, OnOk, OnErr};
ghost use Rattle.md5.specs.Md5.{md5};
ghost use Rattle.node_base.specs.Texts.{text_fault};

use crate::TextFault;
use crate::limits::TEXT_BYTES;
use md5::{Digest, Md5};
use std::alloc::{AllocError, Global};
use std::marker::Model;
use std::sync::Arc;

/// A file's text, at most 1,048,576 bytes, seen by contracts as its bytes. Its owners share the bytes.
#[derive(Drop)]
pub struct Text {
    body: Arc<Body>,
}

#[derive(Drop)]
struct Body {
    bytes: Vec<u8>,
    sum: Option<[u8; 16]>,
}

impl Model for Text {
    ghost use Rattle.std.specs.Prelude.{List, ℕ, ◌≡◌, ◌≤◌, length, IfSome};
    ghost use Rattle.std.specs.Coded.{coded_list, coded_ℕ};
    ghost use Rattle.std.specs.Arc.{arc_value};
    ghost use Rattle.md5.specs.Md5.{md5};
    ghost use Rattle.node_base.specs.declared.limits.TheConstants.{TEXT_BYTES};

    ghost Value = { List ℕ };

    ghost coded = { coded_list coded_ℕ };

    ghost view = { λ a. (arc_value a.body).bytes.items };

    ghost invariant = { λ a. (length (arc_value a.body).bytes.items ≤ TEXT_BYTES)
        × IfSome (arc_value a.body).sum (λ s. s ≡ md5 (arc_value a.body).bytes.items) };
}

impl Text {
    /// The text without a byte.
    pub fn empty(alloc: Global) -> Result<Text, AllocError>
        ensures { IfOk result (λ t. t ≡ []) }
    {
        let bytes = Vec::new(alloc);
        let body = Arc::new(alloc, Body { bytes, sum: None })?;
        Ok(Text { body })
    }

    /// A text of these bytes. TooLong past 1,048,576 bytes.
    pub fn new(alloc: Global, bytes: Vec<u8>) -> Result<Text, TextFault>
        ensures text { IfOk result (λ t. t ≡ bytes.items) }
        ensures small { OnOk result (length bytes.items ≤ TEXT_BYTES) }
        ensures fault { IfErr result (λ e. e ≡ text_fault bytes.items) }
    {
        if !is_within(bytes.len()) {
            return Err(TextFault::TooLong);
        }
        let body = Arc::new(alloc, Body { bytes, sum: None })?;
        Ok(Text { body })
    }

    /// A text of these bytes, which keeps their MD5 (RFC 1321). TooLong past 1,048,576 bytes.
    pub fn with_sum(alloc: Global, bytes: Vec<u8>, sum: [u8; 16]) -> Result<Text, TextFault>
        requires { sum ≡ md5 bytes.items }
        ensures text { IfOk result (λ t. t ≡ bytes.items) }
        ensures small { OnOk result (length bytes.items ≤ TEXT_BYTES) }
        ensures fault { IfErr result (λ e. e ≡ text_fault bytes.items) }
    {
        if !is_within(bytes.len()) {
            return Err(TextFault::TooLong);
        }
        let sum = Some(sum);
        let body = Arc::new(alloc, Body { bytes, sum })?;
        Ok(Text { body })
    }

    /// Its bytes.
    pub fn as_slice(&self) -> &[u8]
        ensures { result.now ≡ self.now }
    {
        self.body.bytes.as_slice()
    }

    /// How many bytes it has, at most 1,048,576.
    pub fn len(&self) -> usize
        ensures len { result ≡ length self.now }
        ensures small { length self.now ≤ TEXT_BYTES }
    {
        self.body.bytes.len()
    }

    /// The MD5 of its bytes (RFC 1321), computed here where it wasn't before.
    pub fn sum(&self) -> [u8; 16]
        ensures { result ≡ md5 self.now }
    {
        match self.body.sum {
            Some(sum) => sum,
            None => {
                let mut hasher = Md5::new();
                hasher.update(self.body.bytes.as_slice());
                hasher.finalize()
            }
        }
    }

    /// Puts bytes behind it. TooLong where it would have more than 1,048,576. At an error it stays. Its bytes are
    /// copied only where they have another owner.
    pub fn append(&mut self, alloc: Global, piece: &[u8]) -> Result<(), TextFault>
        ensures ok { OnOk result (self.new ≡ self.old ++ piece.now) }
        ensures small { OnOk result (length (self.old ++ piece.now) ≤ TEXT_BYTES) }
        ensures fault { IfErr result (λ e. e ≡ text_fault (self.old ++ piece.now)) }
        ensures err { OnErr result (self.new ≡ self.old) }
    {
        if !is_within(self.len().saturating_add(piece.len())) {
            return Err(TextFault::TooLong);
        }
        Ok(self.grow(alloc, piece)?)
    }

    // The same where the limit isn't passed.
    fn grow(&mut self, alloc: Global, piece: &[u8]) -> Result<(), AllocError>
        requires { length (self.old ++ piece.now) ≤ TEXT_BYTES }
        ensures ok { OnOk result (self.new ≡ self.old ++ piece.now) }
        ensures err { OnErr result (self.new ≡ self.old) }
    {
        if let Some(body) = Arc::get_mut(&mut self.body) {
            body.bytes.extend_from_slice(piece)?;
            body.sum = None;
            return Ok(());
        }
        let bytes = joined(alloc, self.as_slice(), piece)?;
        self.body = Arc::new(alloc, Body { bytes, sum: None })?;
        Ok(())
    }

    /// The same text for another owner, with no copy of its bytes.
    pub fn share(&self) -> Result<Text, AllocError>
        ensures { IfOk result (λ t. t ≡ self.now) }
    {
        Ok(Text {
            body: Arc::try_clone(&self.body)?,
        })
    }
}

// Whether so many bytes may be a text.
fn is_within(count: usize) -> bool
    ensures { result ≡ nat_le count TEXT_BYTES }
{
    count as u64 <= TEXT_BYTES
}

// Some bytes, and others behind them.
fn joined(alloc: Global, front: &[u8], back: &[u8]) -> Result<Vec<u8>, AllocError>
    ensures { IfOk result (λ v. v.items ≡ front.now ++ back.now) }
{
    let mut bytes = Vec::with_capacity(alloc, front.len() + back.len())?;
    bytes.extend_from_slice(front)?;
    bytes.extend_from_slice(back)?;
    Ok(bytes)
}
