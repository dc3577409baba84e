//! Where the text of a name stands.
ghost use Rattle.std.specs.Prelude.{◌≡◌, length, IfOk};
ghost use Rattle.node_base.specs.NameTexts.{name_bytes};

use arrayvec::ArrayString;
use std::alloc::{AllocError, Global};

// Most names have no more bytes.
const SHORT: usize = 24;

/// The text of a name: in the value itself where it is short, so that most names take no memory of their own.
#[derive(Drop)]
pub enum NameText {
    Short(ArrayString<SHORT>),
    Long(String),
}

impl NameText {
    /// A copy of a text.
    pub fn of(alloc: Global, text: &str) -> Result<NameText, AllocError>
        ensures { IfOk result (λ t. name_bytes t ≡ text.now) }
    {
        match ArrayString::from(text) {
            Ok(short) => Ok(NameText::Short(short)),
            Err(_) => Ok(NameText::Long(String::from_str(alloc, text)?)),
        }
    }

    /// The text.
    pub fn as_str(&self) -> &str
        ensures { result.now ≡ name_bytes self.now }
    {
        match self {
            NameText::Short(text) => text.as_str(),
            NameText::Long(text) => text.as_str(),
        }
    }

    /// How many bytes it has.
    pub fn len(&self) -> usize
        ensures { result ≡ length (name_bytes self.now) }
    {
        match self {
            NameText::Short(text) => text.len(),
            NameText::Long(text) => text.len(),
        }
    }

    /// The same text once more.
    pub fn copy(&self, alloc: Global) -> Result<NameText, AllocError>
        ensures { IfOk result (λ t. name_bytes t ≡ name_bytes self.now) }
    {
        match self {
            NameText::Short(text) => Ok(NameText::Short(*text)),
            NameText::Long(text) => Ok(NameText::Long(String::from_str(alloc, text.as_str())?)),
        }
    }
}
