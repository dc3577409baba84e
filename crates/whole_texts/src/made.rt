//! The text that a delta makes.
ghost use Rattle.std.specs.Prelude.{◌≡◌, true, false, IfOk, OnOk, IfErr};
ghost use Rattle.md5.specs.Md5.{md5};
ghost use Rattle.svndiff.specs.DeltaGrammar.{IsDelta};
ghost use Rattle.svndiff.specs.DeltaReading.{is_between};
ghost use Rattle.whole_texts.specs.Making.{SumsTo, MakesText, MakesNone, CantMake, HasOtherSum};
ghost use Rattle.whole_texts.specs.Refusals.{UnlessMemory};

use crate::TextRefusal;
use crate::refusal::of_delta;
use dump_text::DeltaText;
use md5::{Digest, Md5};
use node_base::Text;
use std::alloc::Global;
use svndiff::delta_reader::DeltaReader;

// Whether the bytes end between windows.
fn is_ended(reader: DeltaReader) -> bool
    ensures { result ≡ is_between reader.delta.window }
{
    match reader.finish() {
        Ok(()) => true,
        Err(_) => false,
    }
}

// What the bytes of a delta make of a base, window by window. A window past the text's limit is refused before it is
// made.
fn made_of(alloc: Global, base: &[u8], bytes: &[u8]) -> Result<Vec<u8>, TextRefusal>
    ensures made { IfOk result (λ v. IsDelta bytes.now base.now v.items) }
    ensures refused { IfErr result (UnlessMemory (MakesNone bytes.now base.now)) }
{
    let mut reader = DeltaReader::new(alloc);
    let mut text = Vec::new(alloc);
    let mut rest = bytes;
    while !rest.is_empty() {
        match reader.next(base, rest) {
            Ok(behind) => rest = behind,
            Err(fault) => return Err(of_delta(fault)),
        }
        text.extend_from_slice(reader.made())?;
    }
    if !is_ended(reader) {
        return Err(TextRefusal::BadWindow);
    }
    Ok(text)
}

// Whether a text has a sum, where one is given.
fn is_sum(text: &Text, sum: Option<[u8; 16]>) -> bool
    ensures is { result ≡ true → SumsTo sum text.now }
    ensures other { result ≡ false → SumsTo sum text.now → ⊥ }
{
    match sum {
        Some(sum) => sum == text.sum(),
        None => true,
    }
}

// The MD5 of bytes.
fn sum_of(bytes: &[u8]) -> [u8; 16]
    ensures { result ≡ md5 bytes.now }
{
    let mut hasher = Md5::new();
    hasher.update(bytes);
    hasher.finalize()
}

// Whether bytes have a sum.
fn have_sum(bytes: &[u8], sum: [u8; 16]) -> bool
    ensures is { result ≡ true → sum ≡ md5 bytes.now }
    ensures other { result ≡ false → sum ≡ md5 bytes.now → ⊥ }
{
    sum == sum_of(bytes)
}

// The text of bytes that a delta makes, which are no more than a text may have. It keeps the sum, where one is given.
fn summed(alloc: Global, bytes: Vec<u8>, sum: Option<[u8; 16]>) -> Result<Text, TextRefusal>
    ensures made { IfOk result (λ t. (t ≡ bytes.items) × SumsTo sum bytes.items) }
    ensures refused { IfErr result (UnlessMemory (HasOtherSum sum bytes.items)) }
{
    let Some(sum) = sum else {
        return match Text::new(alloc, bytes) {
            Ok(text) => Ok(text),
            Err(_) => Err(TextRefusal::OutOfMemory),
        };
    };
    if !have_sum(bytes.as_slice(), sum) {
        return Err(TextRefusal::BadSum);
    }
    match Text::with_sum(alloc, bytes, sum) {
        Ok(text) => Ok(text),
        Err(_) => Err(TextRefusal::OutOfMemory),
    }
}

/// The text that a delta makes of a base. Refused are another base than the one whose MD5 is given (`BadSum`, 6), then
/// bytes that are no delta of it (`BadWindow`, 44) or go past a limit (`TooLong`, 8), then a text that doesn't have its
/// MD5 (`BadSum`, 6).
pub fn text_over(alloc: Global, base: &Text, delta: &DeltaText) -> Result<Text, TextRefusal>
    ensures made { IfOk result (MakesText delta.now base.now) }
    ensures refused { IfErr result (UnlessMemory (CantMake delta.now base.now)) }
{
    if !is_sum(base, delta.base_sum) {
        return Err(TextRefusal::BadSum);
    }
    match made_of(alloc, base.as_slice(), delta.bytes.as_slice()) {
        Ok(bytes) => summed(alloc, bytes, delta.sum),
        Err(fault) => Err(fault),
    }
}
