//! Reading property blocks, as the notes on the dump file format (dump-load-format) describe them.
ghost use Rattle.std.specs.Prelude.{◌≡◌, ◌+◌, ◌<◌, ◌≤◌, ◌^◌, [], ◌∷◌, ◌++◌, length, drop, IfOk, IfSome, MatchOption};
ghost use Rattle.std.specs.Prelude.{◌&&◌, ◌||◌, not, true, false};
ghost use Rattle.std.specs.FinMap as map;
ghost use Rattle.node_base.specs.BlockGrammar.{block_end};
ghost use Rattle.node_base.specs.Numbers.{is_digit, number_of};
ghost use Rattle.node_base.specs.Blocks.{StepIs, BlockIs, EndsHere, MayKeep, held_more, run_block, part_step, block_step, keep};
ghost use Rattle.node_base.specs.Blocks.{go, only, begins, name_is, value_is, begun, new_block};
ghost use Rattle.node_base.specs.BlockKept.{kept_bytes, kept_after, waiting_bytes};
ghost use Rattle.node_base.specs.declared.block_part.Part.TheVariants.{Tag, KeyCount, ValueCount, Ending};
ghost use Rattle.node_base.specs.declared.limits.TheConstants.{PROP_NAME_BYTES};

use crate::block_part::Part;
use crate::bytes::Bytes;
use crate::limits::{PROP_NAME_BYTES, PROP_VALUE_BYTES};
use crate::{PropDelta, PropFault, PropName, PropValue, Props, RemovedNames};
use std::alloc::{AllocError, Global};
use std::mem;

/// A property block that comes in pieces. It keeps its allocator.
#[derive(Drop)]
pub struct BlockReader {
    left: u64,
    part: Part,
    name: Option<PropName>,
    props: Props,
    held: Bytes,
    // Whether names may be removed.
    delta: bool,
    // Whether the entry at hand is a name that is removed.
    removes: bool,
    // The names that are removed.
    removed: RemovedNames,
}

// Whether it is a digit.
fn is_decimal(b: u8) -> bool
    ensures { result ≡ is_digit b }
{
    b >= 48 && b <= 57
}

// The number that decimal digits spell, where it is at most the limit.
fn count_of(digits: &[u8], limit: u32) -> Option<u32>
    requires { limit < 2 ^ 20 }
    ensures number { MatchOption result (limit < number_of digits.now) (λ n. n ≡ number_of digits.now) }
    ensures limit { IfSome result (λ n. n ≤ limit) }
{
    let mut n = 0u32;
    for d in digits {
        n = n * 10 + u32::from(d.saturating_sub(48));
        if n > limit {
            return None;
        }
    }
    Some(n)
}

// Whether bytes begin with the line that ends a block.
fn is_block_end(bytes: &[u8]) -> bool
    ensures { result ≡ true → bytes.now ≡ block_end ++ drop 10 bytes.now }
{
    bytes.starts_with(b"PROPS-END\n")
}

// What follows the first byte of PROPS-END.
const ENDING: [u8; 9] = *b"ROPS-END\n";

impl BlockReader {
    /// The start of a block of so many bytes. Nothing is reserved for them.
    pub fn new(alloc: Global, announced: u64) -> BlockReader
        ensures { result ≡ new_block announced }
    {
        BlockReader {
            left: announced,
            part: Part::Tag,
            name: None,
            props: Props::empty(),
            held: Bytes::new(alloc),
            delta: false,
            removes: false,
            removed: RemovedNames::empty(),
        }
    }

    /// Begins again, with a block of so many bytes. With `delta` it changes a list, and may remove names. Nothing is
    /// reserved for it; the room of the one before serves it.
    pub fn restart(&mut self, delta: bool, announced: u64)
        ensures { self.new ≡ begun delta announced }
    {
        self.left = announced;
        self.part = Part::Tag;
        self.name = None;
        self.props = Props::empty();
        self.held.clear();
        self.delta = delta;
        self.removes = false;
        self.removed = RemovedNames::empty();
    }

    // The byte belongs to the part.
    fn keep(&mut self, b: u8) -> Result<bool, PropFault>
        ensures { StepIs result self.new (keep self.old b) }
    {
        self.held.push(b)?;
        Ok(false)
    }

    // The next part begins.
    fn go(&mut self, part: Part) -> Result<bool, PropFault>
        ensures { StepIs result self.new (go part self.old) }
    {
        self.part = part;
        self.held.clear();
        Ok(false)
    }

    // Only one byte may come.
    fn only(&mut self, wanted: u8, b: u8, part: Part) -> Result<bool, PropFault>
        ensures { StepIs result self.new (only wanted b part self.old) }
    {
        if b == wanted {
            self.go(part)
        } else {
            Err(PropFault::BadProps)
        }
    }

    // An entry begins.
    fn begin(&mut self, removes: bool) -> Result<bool, PropFault>
        ensures { StepIs result self.new (begins removes self.old) }
    {
        self.removes = removes;
        self.go(Part::KeyBlank)
    }

    // At the first byte of an entry or of the end.
    fn tag(&mut self, b: u8) -> Result<bool, PropFault>
        ensures { StepIs result self.new (part_step Tag self.old b) }
    {
        if b == 75 {
            self.begin(false)
        } else if self.delta && b == 68 {
            self.begin(true)
        } else {
            self.only(80, b, Part::Ending)
        }
    }

    // At the count of a name's bytes.
    fn key_count(&mut self, b: u8) -> Result<bool, PropFault>
        ensures { StepIs result self.new (part_step KeyCount self.old b) }
    {
        if is_decimal(b) {
            return self.keep(b);
        }
        if b != 10 {
            return Err(PropFault::BadProps);
        }
        match count_of(self.held.as_slice(), PROP_NAME_BYTES as u32) {
            None => Err(PropFault::TooLong),
            Some(0) => Err(PropFault::BadProps),
            Some(n) => {
                if u64::from(n) + 1 < self.left {
                    self.go(Part::Name(n))
                } else {
                    Err(PropFault::BadProps)
                }
            }
        }
    }

    // At the count of a value's bytes.
    fn value_count(&mut self, b: u8) -> Result<bool, PropFault>
        ensures { StepIs result self.new (part_step ValueCount self.old b) }
    {
        if is_decimal(b) {
            return self.keep(b);
        }
        if b != 10 || self.held.len() == 0 {
            return Err(PropFault::BadProps);
        }
        let Some(n) = count_of(self.held.as_slice(), PROP_VALUE_BYTES as u32) else {
            return Err(PropFault::TooLong);
        };
        if u64::from(n) + 1 >= self.left {
            return Err(PropFault::BadProps);
        }
        if n == 0 {
            self.held.clear();
            self.take_value()
        } else {
            self.go(Part::Value(n))
        }
    }

    // The held bytes are a value.
    fn take_value(&mut self) -> Result<bool, PropFault>
        ensures { StepIs result self.new (value_is self.old self.old.held) }
    {
        let alloc = self.held.alloc();
        let Some(name) = mem::replace(&mut self.name, None) else {
            return Err(PropFault::BadProps);
        };
        let value = PropValue::new(self.held.take()?)?;
        self.props.set(alloc, name, value)?;
        self.part = Part::ValueEnd;
        Ok(false)
    }

    // Whether an entry so far has the name.
    fn has_named(&self, name: &PropName) -> bool
        ensures { result ≡ (map.contains_key self.now.props name.now || map.contains_key self.now.removed name.now) }
    {
        self.props.contains(name.as_bytes()) || self.removed.contains(name)
    }

    // The held bytes are a name.
    fn take_name(&mut self) -> Result<bool, PropFault>
        ensures { StepIs result self.new (name_is self.old self.old.held) }
    {
        let alloc = self.held.alloc();
        let name = PropName::from_bytes(self.held.take()?)?;
        if self.has_named(&name) {
            return Err(PropFault::BadProps);
        }
        if self.removes {
            self.removed.insert(alloc, name)?;
            self.part = Part::ValueEnd;
            return Ok(false);
        }
        if !self.props.fits_with(name.as_bytes()) {
            return Err(PropFault::TooLong);
        }
        self.name = Some(name);
        self.part = Part::NameEnd;
        Ok(false)
    }

    // In PROPS-END and its LF.
    fn ending(&mut self, b: u8) -> Result<bool, PropFault>
        ensures { StepIs result self.new (part_step Ending self.old b) }
    {
        let at = self.held.len();
        if at > 8 || b != ENDING[at] {
            return Err(PropFault::BadProps);
        }
        if at == 8 { Ok(true) } else { self.keep(b) }
    }

    // One byte, apart from the count of the bytes that are left.
    fn part_byte(&mut self, b: u8) -> Result<bool, PropFault>
        ensures { StepIs result self.new (part_step self.old.part self.old b) }
    {
        match self.part {
            Part::Tag => self.tag(b),
            Part::KeyBlank => self.only(32, b, Part::KeyCount),
            Part::KeyCount => self.key_count(b),
            Part::Name(n) => {
                self.held.push(b)?;
                if self.held.len() < n as usize {
                    Ok(false)
                } else {
                    self.take_name()
                }
            }
            Part::NameEnd => self.only(10, b, Part::ValueTag),
            Part::ValueTag => self.only(86, b, Part::ValueBlank),
            Part::ValueBlank => self.only(32, b, Part::ValueCount),
            Part::ValueCount => self.value_count(b),
            Part::Value(n) => {
                self.held.push(b)?;
                if self.held.len() < n as usize {
                    Ok(false)
                } else {
                    self.take_value()
                }
            }
            Part::ValueEnd => self.only(10, b, Part::Tag),
            Part::Ending => self.ending(b),
        }
    }

    // One byte. The answer is whether it ends the block.
    fn take_byte(&mut self, b: u8) -> Result<bool, PropFault>
        ensures { StepIs result self.new (block_step self.old b) }
    {
        let left = self.left;
        let whole = self.part_byte(b)?;
        if whole {
            return if left == 1 {
                Ok(true)
            } else {
                Err(PropFault::BadProps)
            };
        }
        if left <= 1 {
            return Err(PropFault::BadProps);
        }
        self.left = left - 1;
        Ok(false)
    }

    // How many bytes of a text of so many may be taken at once.
    fn room_for(&self, n: u32) -> usize
        ensures part { 0 < result → length self.now.held + result < n }
        ensures left { 0 < result → result < self.now.left }
        ensures small { result < 2 ^ 32 }
    {
        let due = (n as usize)
            .saturating_sub(self.held.len())
            .saturating_sub(1);
        due.min((self.left as usize).saturating_sub(1))
    }

    // How many bytes of a counted text may be taken at once.
    fn room(&self) -> usize
        ensures keep { MayKeep self.now result }
        ensures left { 0 < result → result < self.now.left }
        ensures small { result < 2 ^ 32 }
    {
        match self.part {
            Part::Name(n) | Part::Value(n) => self.room_for(n),
            _ => 0,
        }
    }

    // Keeps bytes of a counted text.
    fn keep_all(&mut self, bytes: &[u8]) -> Result<(), AllocError>
        requires left { length bytes.now < self.old.left }
        ensures { IfOk result (λ _. self.new ≡ held_more self.old bytes.now) }
    {
        self.held.extend(bytes)?;
        self.left -= bytes.len() as u64;
        Ok(())
    }

    // Whether the end of the block comes next, whole, where it is due.
    fn is_ended_by(&self, rest: &[u8]) -> bool
        ensures { result ≡ true → EndsHere self.now rest.now }
    {
        if self.left != 10 {
            return false;
        }
        if self.held.len() != 0 {
            return false;
        }
        match self.part {
            Part::Tag => is_block_end(rest),
            _ => false,
        }
    }

    /// Takes bytes up to the block's end. The answer is how many of them there were up to it, where it came.
    /// BadProps or TooLong in the piece that brings the byte that shows it; after an error the reader isn't to be fed.
    /// What it keeps never grows by more than the bytes that come: nothing is kept for what is announced alone.
    #[tactic(auto, using(crate::proofs::BlockKept::feed_kept))]
    pub fn feed(&mut self, piece: &[u8]) -> Result<Option<usize>, PropFault>
        ensures run { BlockIs result self.new piece.now (run_block self.old piece.now) }
        ensures moves { IfOk result (λ o. IfSome o (λ k. (0 < k) × (k ≤ length piece.now))) }
        ensures kept { IfOk result (λ o. kept_after o self.new ≤ kept_bytes self.old + length piece.now) }
    {
        self.feed_all(piece)
    }

    // Takes bytes up to the block's end.
    fn feed_all(&mut self, piece: &[u8]) -> Result<Option<usize>, PropFault>
        ensures run { BlockIs result self.new piece.now (run_block self.old piece.now) }
        ensures moves { IfOk result (λ o. IfSome o (λ k. (0 < k) × (k ≤ length piece.now))) }
    {
        let mut at = 0;
        while at < piece.len() {
            if self.is_ended_by(&piece[at..]) {
                return Ok(Some(at + 10));
            }
            let stretch = self.room().min(piece.len() - at);
            if stretch > 0 {
                self.keep_all(&piece[at..at + stretch])?;
                at += stretch;
            } else {
                let whole = self.take_byte(piece[at])?;
                at += 1;
                if whole {
                    return Ok(Some(at));
                }
            }
        }
        Ok(None)
    }

    // How many bytes of a name that awaits its value it keeps.
    fn waiting(&self) -> usize
        ensures len { result ≡ waiting_bytes self.now.name }
        ensures small { result ≤ PROP_NAME_BYTES }
    {
        match &self.name {
            Some(name) => name.len(),
            None => 0,
        }
    }

    /// How many bytes it keeps: of the properties so far, the names that are removed, and what is unfinished. Goes over
    /// all of them.
    pub fn held(&self) -> u128
        ensures len { result ≡ kept_bytes self.now }
        ensures small { result < 2 ^ 73 }
    {
        let names = self.removed.byte_len();
        u128::from(self.props.byte_len()) + names + self.waiting() as u128 + self.held.len() as u128
    }

    /// The properties that were read leave the reader, which is otherwise as it was.
    pub fn take(&mut self) -> Props
        ensures read { result ≡ self.old.props }
        ensures left { self.new ≡ record self.old { props = map.empty } }
    {
        mem::replace(&mut self.props, Props::empty())
    }

    /// What the block of a delta said leaves the reader, which is otherwise as it was.
    pub fn take_delta(&mut self) -> PropDelta
        ensures read { result ≡ record { sets = self.old.props; removed = self.old.removed } }
        ensures left { self.new ≡ record self.old { props = map.empty; removed = map.empty } }
    {
        let sets = mem::replace(&mut self.props, Props::empty());
        let removed = mem::replace(&mut self.removed, RemovedNames::empty());
        PropDelta { sets, removed }
    }
}
