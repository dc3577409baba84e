//! The instructions of a window, and what they make.

ghost use Rattle.std.specs.Prelude.{◌≡◌, ◌≤◌, ◌<◌, ◌-◌, [], ◌∷◌, ◌++◌, length, take, drop, IfOk};
ghost use Rattle.svndiff.specs.Making.{Making, after, run, repeat};
ghost use Rattle.svndiff.specs.declared.instructions.Kind.TheVariants as kind;

use std::alloc::{AllocError, Global};
use std::marker::Model;

/// From where an instruction takes bytes.
#[derive(Clone, Copy)]
pub enum Kind {
    /// From the window's view of the base.
    Source,
    /// From what the window has made so far.
    Target,
    /// From its new data.
    New,
}

/// An instruction that is whole.
#[derive(Clone, Copy)]
pub struct Instruction {
    /// From where it takes bytes.
    pub kind: Kind,
    /// The place of the first of them in the view, or in what was made; 0 for new data.
    pub at: u64,
    /// How many there are.
    pub length: u64,
}

/// Bytes, seen as their list.
#[derive(Drop)]
pub struct Bytes {
    bytes: Vec<u8>,
}

impl Model for Bytes {
    ghost use Rattle.std.specs.Prelude.{List, ℕ};
    ghost use Rattle.std.specs.Coded.{coded_list, coded_ℕ};

    ghost Value = { List ℕ };

    ghost coded = { coded_list coded_ℕ };

    ghost view = { λ a. a.bytes.items };
}

impl Bytes {
    pub fn new(alloc: Global) -> Bytes
        ensures { result ≡ [] }
    {
        Bytes {
            bytes: Vec::new(alloc),
        }
    }

    pub fn as_slice(&self) -> &[u8]
        ensures { result.now ≡ self.now }
    {
        self.bytes.as_slice()
    }

    pub fn clear(&mut self)
        ensures { self.new ≡ [] }
    {
        self.bytes.clear();
    }

    pub fn extend(&mut self, piece: &[u8]) -> Result<(), AllocError>
        ensures { IfOk result (λ _. self.new ≡ self.old ++ piece.now) }
    {
        self.bytes.extend_from_slice(piece)?;
        Ok(())
    }

    /// Adds so many bytes, each the one that stands so far back.
    pub fn repeat(&mut self, back: u64, n: u64) -> Result<(), AllocError>
        ensures { IfOk result (λ _. self.new ≡ repeat back n self.old) }
    {
        let mut left = n;
        while left > 0 {
            self.again(back)?;
            left -= 1;
        }
        Ok(())
    }

    // Adds the byte that stands so far back.
    fn again(&mut self, back: u64) -> Result<(), AllocError>
        ensures { IfOk result (λ _. self.new ≡ repeat back 1 self.old) }
    {
        let at = (self.bytes.len() as u64).saturating_sub(back) as usize;
        let byte = self.bytes.get(at).copied().unwrap_or(0);
        self.bytes.push(byte)?;
        Ok(())
    }
}

/// Instructions, seen as their list.
#[derive(Drop)]
pub struct Instructions {
    items: Vec<Instruction>,
}

impl Model for Instructions {
    ghost use Rattle.std.specs.Prelude.{List};
    ghost use Rattle.std.specs.Coded.{coded_list, codes};
    ghost use Rattle.svndiff.specs.declared.instructions.Instruction.{Instruction};

    ghost Value = { List Instruction };

    ghost coded = { coded_list (Prim.hlevel codes) };

    ghost view = { λ a. a.items.items };
}

impl Instructions {
    pub fn new(alloc: Global) -> Instructions
        ensures { result ≡ [] }
    {
        Instructions {
            items: Vec::new(alloc),
        }
    }

    pub fn clear(&mut self)
        ensures { self.new ≡ [] }
    {
        self.items.clear();
    }

    pub fn push(&mut self, instruction: Instruction) -> Result<(), AllocError>
        ensures { IfOk result (λ _. self.new ≡ self.old ++ instruction ∷ []) }
    {
        self.items.push(instruction)?;
        Ok(())
    }

    /// Adds to `made` what the instructions make of a view and of new data.
    pub fn run(&self, view: &[u8], new: &[u8], made: &mut Bytes) -> Result<(), AllocError>
        ensures { IfOk result (λ _. made.new
            ≡ (run view.now (record { made = made.old; new = new.now }) self.now).made) }
    {
        run_all(self.items.as_slice(), view, new, made)
    }
}

// Adds to `made` what instructions make of a view and of new data.
fn run_all(
    instructions: &[Instruction],
    view: &[u8],
    new: &[u8],
    made: &mut Bytes,
) -> Result<(), AllocError>
    ensures { IfOk result (λ _. made.new
        ≡ (run view.now (record { made = made.old; new = new.now }) instructions.now).made) }
{
    let mut rest = new;
    for instruction in instructions {
        rest = follow(instruction, view, rest, made)?;
    }
    Ok(())
}

// Adds to `made` what an instruction makes, and gives the new data behind it.
fn follow<'a>(
    instruction: &Instruction,
    view: &[u8],
    new: &'a [u8],
    made: &mut Bytes,
) -> Result<&'a [u8], AllocError>
    ensures { IfOk result (λ rest. after view.now instruction.now (record { made = made.old; new = new.now })
        ≡ record { made = made.new; new = rest.now }) }
{
    let Instruction { kind, at, length } = *instruction;
    match kind {
        Kind::Source => {
            made.extend(front(behind(view, at), length))?;
            Ok(new)
        }
        Kind::Target => {
            let back = (made.as_slice().len() as u64).saturating_sub(at);
            made.repeat(back, length)?;
            Ok(new)
        }
        Kind::New => {
            made.extend(front(new, length))?;
            Ok(behind(new, length))
        }
    }
}

/// The first so many bytes, or all.
pub fn front(bytes: &[u8], n: u64) -> &[u8]
    ensures { result.now ≡ take n bytes.now }
{
    if n < bytes.len() as u64 {
        &bytes[..n as usize]
    } else {
        bytes
    }
}

/// What is behind the first so many bytes.
pub fn behind(bytes: &[u8], n: u64) -> &[u8]
    ensures { result.now ≡ drop n bytes.now }
{
    if n < bytes.len() as u64 {
        &bytes[n as usize..]
    } else {
        &[]
    }
}
