//! Tokens of jobs, which stand in a mirror's lock.
ghost use Rattle.std.specs.Prelude.{◌≡◌, ◌≤◌, length, true, false, IfOk, IfSome, None};
ghost use Rattle.std.specs.List.{list_all};
ghost use Rattle.sync_core.specs.Tokens.{is_token, is_token_byte};

use node_base::PropValue;
use std::alloc::{AllocError, Global};
use std::marker::Model;

/// A job's token, seen by contracts as its bytes: 1 to 255 bytes of printable ASCII without blanks (0x21 to 0x7E).
#[derive(Drop)]
pub struct Token {
    bytes: Vec<u8>,
}

impl Model for Token {
    ghost use Rattle.std.specs.Prelude.{◌≡◌, List, ℕ, true};
    ghost use Rattle.std.specs.Coded.{coded_list, coded_ℕ};

    ghost Value = { List ℕ };

    ghost coded = { coded_list coded_ℕ };

    ghost view = { λ a. a.bytes.items };

    ghost use Rattle.sync_core.specs.Tokens.{is_token};

    ghost invariant = { λ a. is_token a.bytes.items ≡ true };
}

impl Token {
    /// The token of these bytes; None where they are none.
    pub fn new(bytes: Vec<u8>) -> Option<Token>
        ensures token { IfSome result (λ t. t ≡ bytes.items) }
        ensures rule { IfSome result (λ t. is_token t ≡ true) }
        ensures none { result ≡ None → is_token bytes.items ≡ false }
    {
        if is_token(bytes.as_slice()) {
            Some(Token { bytes })
        } else {
            None
        }
    }

    /// Its bytes.
    pub fn as_bytes(&self) -> &[u8]
        ensures bytes { result.now ≡ self.now }
        ensures small { length self.now ≤ 255 }
    {
        self.bytes.as_slice()
    }

    /// The same token once more.
    pub fn copy(&self, alloc: Global) -> Result<Token, AllocError>
        ensures { IfOk result (λ t. t ≡ self.now) }
    {
        Ok(Token {
            bytes: Vec::from_slice(alloc, self.bytes.as_slice())?,
        })
    }

    /// The value that it is of the property `svn:sync-lock`.
    pub fn value(&self, alloc: Global) -> Result<PropValue, AllocError>
        ensures { IfOk result (λ v. v ≡ self.now) }
    {
        match PropValue::new(Vec::from_slice(alloc, self.as_bytes())?) {
            Ok(value) => Ok(value),
            Err(_) => unreachable!(),
        }
    }
}

// Whether the bytes are a token.
fn is_token(bytes: &[u8]) -> bool
    ensures { result ≡ is_token bytes.now }
{
    if bytes.is_empty() || bytes.len() > 255 {
        return false;
    }
    are_token_bytes(bytes)
}

// Whether each byte may stand in a token.
fn are_token_bytes(bytes: &[u8]) -> bool
    ensures { result ≡ list_all is_token_byte bytes.now }
{
    bytes.iter().all(|b| is_token_byte(*b))
}

// Whether a byte may stand in a token.
fn is_token_byte(byte: u8) -> bool
    ensures { result ≡ is_token_byte byte }
{
    0x21 <= byte && byte <= 0x7E
}
