//! What has come of a stream, between two bytes.

ghost use Rattle.std.specs.Prelude.{◌≡◌, ◌≤◌, ◌<◌, ◌+◌, ◌++◌, ◌∷◌, [], ◌^◌, length, take, drop, slice_index, Option, Some};
ghost use Rattle.std.specs.Prelude.{None, Ok, Err, IfOk, IfSome, OnErr, true, false, if◌then◌else◌};
ghost use Rattle.md5.specs.Md5.{md5};
ghost use Rattle.node_base.specs.declared.limits.TheConstants.{PATH_BYTES};
ghost use Rattle.dump_text.specs.Streams.{StreamIs, Reads, Refuses, begin, fresh_by, behind_version, spent, has_failed};
ghost use Rattle.dump_text.specs.Streams.{give, whole_text, text_is};
ghost use Rattle.dump_text.specs.Streams.{after_block, content, judged, line_is, reading, sum_holds, is_line_place};
ghost use Rattle.dump_text.specs.Streams.{is_failed, is_between, kept, path_bytes, given_bytes, of_prop_fault, of_text_fault, GoesOn, NoLf};
ghost use Rattle.dump_text.specs.Streams.{IsFront};
ghost use Rattle.dump_text.specs.declared.form.Stage.TheVariants.{First};
ghost use Rattle.dump_text.specs.declared.state.Place.TheVariants as at;

use crate::fault::DumpFault;
use crate::form::{
    Stage, delta_from, gives_delta, has_form, has_small_lengths, has_sum_of_lengths, is_delta,
    part_from, record_from, stage_behind,
};
use crate::head::Head;
use crate::header::version_in;
use crate::held::HeldBytes;
use crate::record::{DumpRecord, PropPart, TextPart};
use md5::{Digest, Md5};
use memchr::memchr;
use node_base::limits::LINE_BYTES;
use node_base::{BlockReader, NodePath, PropFault, Text, TextFault};
use std::alloc::Global;
use std::mem;

/// What is awaited.
#[derive(Clone, Copy)]
pub enum Place {
    /// The version line.
    Version,
    /// The empty line behind it.
    Blank,
    /// A record's first header line, or an empty line.
    Between,
    /// A further header line, or the empty line behind the headers.
    Header,
    /// A property block.
    Block,
    /// A text of so many bytes, or the delta that gives one.
    Text(u64),
    /// Nothing: bytes were refused.
    Failed,
}

/// What has come of a stream, between two bytes.
#[derive(Drop)]
pub struct ReadState {
    /// The format's number that the first line gave, 0 before.
    pub version: u8,
    pub place: Place,
    pub stage: Stage,
    pub head: Head,
    pub block: BlockReader,
    /// What the block gave of properties, where a text is awaited behind it.
    pub props: Option<PropPart>,
    /// The bytes of an unfinished line or text.
    pub held: HeldBytes,
}

/// How many bytes a path has that a header gave.
fn path_len(path: &Option<NodePath>) -> usize
    ensures len { result ≡ path_bytes path.now }
    ensures small { result ≤ PATH_BYTES }
{
    match path {
        Some(path) => path.text_len(),
        None => 0,
    }
}

/// How many bytes a whole block gave.
fn given_len(given: &Option<PropPart>) -> u128
    ensures len { result ≡ given_bytes given.now }
    ensures small { result < 2 ^ 73 }
{
    match given {
        Some(PropPart::Whole(props)) => u128::from(props.byte_len()),
        Some(PropPart::Delta(delta)) => {
            u128::from(delta.sets.byte_len()) + delta.removed.byte_len()
        }
        None => 0,
    }
}

fn md5_of(text: &[u8]) -> [u8; 16]
    ensures { result ≡ md5 text.now }
{
    let mut hasher = Md5::new();
    hasher.update(text);
    hasher.finalize()
}

/// How many bytes stand before the first LF.
fn line_end(piece: &[u8]) -> usize
    ensures free { NoLf (take result piece.now) }
    ensures within { result ≤ length piece.now }
    ensures end { result < length piece.now → slice_index piece.now result ≡ 10 }
{
    match memchr(b'\n', piece) {
        Some(k) => k,
        None => piece.len(),
    }
}

/// The refusal of a block, as a dump's.
fn block_fault(fault: PropFault) -> DumpFault
    ensures { result ≡ of_prop_fault fault }
{
    match fault {
        PropFault::BadProps => DumpFault::BadProps,
        PropFault::TooLong => DumpFault::TooLong,
        PropFault::OutOfMemory => DumpFault::OutOfMemory,
    }
}

/// The refusal of a text, as a dump's.
fn text_fault(fault: TextFault) -> DumpFault
    ensures { result ≡ of_text_fault fault }
{
    match fault {
        TextFault::TooLong => DumpFault::TooLong,
        TextFault::OutOfMemory => DumpFault::OutOfMemory,
    }
}

impl ReadState {
    // Nothing of an element has come.
    fn begin(alloc: Global, deltas: bool, version: u8, place: Place) -> ReadState
        ensures { result ≡ begin deltas version place First }
    {
        ReadState {
            version,
            place,
            stage: Stage::First,
            head: Head::new(deltas),
            block: BlockReader::new(alloc, 0),
            props: None,
            held: HeldBytes::new(alloc),
        }
    }

    /// Before the first byte, where texts may or may not be given as deltas.
    pub fn new(alloc: Global, deltas: bool) -> ReadState
        ensures { result ≡ fresh_by deltas }
    {
        ReadState::begin(alloc, deltas, 0, Place::Version)
    }

    /// Behind the version block of format 2.
    pub fn behind_version(alloc: Global) -> ReadState
        ensures { result ≡ behind_version }
    {
        ReadState::begin(alloc, false, 2, Place::Between)
    }

    /// After a refusal: nothing is kept.
    pub fn spent(alloc: Global) -> ReadState
        ensures { result ≡ spent }
    {
        ReadState::begin(alloc, false, 0, Place::Failed)
    }

    /// Whether bytes were refused.
    pub fn has_failed(&self) -> bool
        ensures { result ≡ has_failed self.now }
    {
        matches!(self.place, Place::Failed)
    }

    /// A record is whole.
    fn give(
        &mut self,
        alloc: Global,
        out: &mut Vec<DumpRecord>,
        props: Option<PropPart>,
        text: Option<TextPart>,
    ) -> Result<(), DumpFault>
        ensures on { StreamIs result self.new out.new.items (give out.old.items self.old props text) }
        ensures out { OnErr result (out.new.items ≡ out.old.items) }
    {
        let deltas = self.head.deltas;
        let head = mem::replace(&mut self.head, Head::new(deltas));
        self.place = Place::Between;
        self.block.restart(false, 0);
        self.props = None;
        self.held = HeldBytes::new(alloc);
        let Some(record) = record_from(head, props, text) else {
            return Err(DumpFault::BadHeader);
        };
        self.stage = stage_behind(self.stage, &record);
        out.push(record)?;
        Ok(())
    }

    /// The bytes of a text have come, or those of the delta that gives it. A delta is handed out as it stands.
    fn take_text(
        &mut self,
        alloc: Global,
        out: &mut Vec<DumpRecord>,
        props: Option<PropPart>,
        bytes: Vec<u8>,
    ) -> Result<(), DumpFault>
        ensures on { StreamIs result self.new out.new.items (text_is out.old.items self.old props bytes.items) }
        ensures out { OnErr result (out.new.items ≡ out.old.items) }
    {
        if gives_delta(&self.head) {
            let delta = delta_from(&self.head, bytes);
            return self.give(alloc, out, props, Some(TextPart::Delta(delta)));
        }
        self.take_whole_text(alloc, out, props, bytes)
    }

    /// The bytes of a whole text have come. Where a sum was announced, it is compared, and kept with the text.
    fn take_whole_text(
        &mut self,
        alloc: Global,
        out: &mut Vec<DumpRecord>,
        props: Option<PropPart>,
        bytes: Vec<u8>,
    ) -> Result<(), DumpFault>
        ensures on { StreamIs result self.new out.new.items (whole_text out.old.items self.old props bytes.items) }
        ensures out { OnErr result (out.new.items ≡ out.old.items) }
    {
        let made = match self.head.sum {
            None => Text::new(alloc, bytes),
            Some(announced) => {
                let sum = md5_of(bytes.as_slice());
                if sum.as_slice() != announced.as_slice() {
                    return Err(DumpFault::BadSum);
                }
                Text::with_sum(alloc, bytes, sum)
            }
        };
        match made {
            Ok(text) => self.give(alloc, out, props, Some(TextPart::Whole(text))),
            Err(fault) => Err(text_fault(fault)),
        }
    }

    /// The block, if any, is whole.
    fn after_block(
        &mut self,
        alloc: Global,
        out: &mut Vec<DumpRecord>,
        props: Option<PropPart>,
    ) -> Result<(), DumpFault>
        ensures on { StreamIs result self.new out.new.items (after_block out.old.items self.old props) }
        ensures out { OnErr result (out.new.items ≡ out.old.items) }
    {
        match self.head.text_len {
            None => self.give(alloc, out, props, None),
            Some(0) => self.take_text(alloc, out, props, Vec::new(alloc)),
            Some(n) => {
                self.place = Place::Text(n);
                self.props = props;
                self.held = HeldBytes::new(alloc);
                Ok(())
            }
        }
    }

    /// The empty line behind a head.
    fn judge(&mut self, alloc: Global, out: &mut Vec<DumpRecord>) -> Result<(), DumpFault>
        ensures on { StreamIs result self.new out.new.items (judged out.old.items self.old) }
        ensures out { OnErr result (out.new.items ≡ out.old.items) }
    {
        if !has_form(self.version, self.stage, &self.head) {
            return Err(DumpFault::BadHeader);
        }
        if !has_sum_of_lengths(&self.head) {
            return Err(DumpFault::BadLength);
        }
        if !has_small_lengths(&self.head) {
            return Err(DumpFault::TooLong);
        }
        match self.head.prop_len {
            None => self.after_block(alloc, out, None),
            Some(0) => Err(DumpFault::BadProps),
            Some(n) => {
                self.place = Place::Block;
                self.block.restart(is_delta(&self.head), n);
                self.held = HeldBytes::new(alloc);
                Ok(())
            }
        }
    }

    /// A whole line, without its LF.
    fn take_line(
        &mut self,
        alloc: Global,
        line: &[u8],
        out: &mut Vec<DumpRecord>,
    ) -> Result<(), DumpFault>
        requires { is_line_place self.old.place ≡ true }
        ensures on { StreamIs result self.new out.new.items (line_is self.old.place out.old.items self.old line.now) }
        ensures out { OnErr result (out.new.items ≡ out.old.items) }
    {
        match self.place {
            Place::Version => {
                let Some(version) = version_in(line) else {
                    return Err(DumpFault::BadVersion);
                };
                self.version = version;
                self.place = Place::Blank;
                Ok(())
            }
            Place::Blank => {
                if !line.is_empty() {
                    return Err(DumpFault::BadHeader);
                }
                self.place = Place::Between;
                Ok(())
            }
            Place::Header if line.is_empty() => self.judge(alloc, out),
            _ => {
                if line.is_empty() {
                    return Ok(());
                }
                self.head.take_line(alloc, line)?;
                self.place = Place::Header;
                Ok(())
            }
        }
    }

    /// Whether the input may end here.
    pub fn is_between(&self) -> bool
        ensures { result ≡ is_between self.now }
    {
        match self.place {
            Place::Between => self.held.len() == 0,
            _ => false,
        }
    }

    /// In a block.
    fn in_block(
        &mut self,
        alloc: Global,
        piece: &[u8],
        out: &mut Vec<DumpRecord>,
    ) -> Result<usize, DumpFault>
        requires some { 0 < length piece.now }
        requires place { self.old.place ≡ at.Block }
        ensures on { GoesOn result self.new out.new.items piece.now (reading (Reads out.old.items self.old) piece.now) }
        ensures moves { IfOk result (λ k. (0 < k) × (k ≤ length piece.now)) }
        ensures out { OnErr result (out.new.items ≡ out.old.items) }
    {
        let k = match self.block.feed(piece) {
            Ok(None) => return Ok(piece.len()),
            Ok(Some(k)) => k,
            Err(fault) => return Err(block_fault(fault)),
        };
        let part = part_from(is_delta(&self.head), &mut self.block);
        self.block.restart(false, 0);
        match self.after_block(alloc, out, Some(part)) {
            Ok(()) => Ok(k),
            Err(fault) => Err(fault),
        }
    }

    /// In a text of so many bytes.
    fn in_text(
        &mut self,
        alloc: Global,
        n: u64,
        piece: &[u8],
        out: &mut Vec<DumpRecord>,
    ) -> Result<usize, DumpFault>
        requires some { 0 < length piece.now }
        requires place { self.old.place ≡ at.Text n }
        ensures on { GoesOn result self.new out.new.items piece.now (reading (Reads out.old.items self.old) piece.now) }
        ensures moves { IfOk result (λ k. (0 < k) × (k ≤ length piece.now)) }
        ensures out { OnErr result (out.new.items ≡ out.old.items) }
    {
        let keep = (n as usize)
            .saturating_sub(self.held.len())
            .saturating_sub(1);
        if piece.len() <= keep {
            self.held.extend(piece)?;
            return Ok(piece.len());
        }
        self.held.extend(&piece[..keep + 1])?;
        let text = self.held.take(alloc);
        let props = mem::replace(&mut self.props, None);
        match self.take_text(alloc, out, props, text) {
            Ok(()) => Ok(keep + 1),
            Err(fault) => Err(fault),
        }
    }

    /// In lines.
    fn in_lines(
        &mut self,
        alloc: Global,
        piece: &[u8],
        out: &mut Vec<DumpRecord>,
    ) -> Result<usize, DumpFault>
        requires some { 0 < length piece.now }
        requires place { is_line_place self.old.place ≡ true }
        ensures on { GoesOn result self.new out.new.items piece.now (reading (Reads out.old.items self.old) piece.now) }
        ensures moves { IfOk result (λ k. (0 < k) × (k ≤ length piece.now)) }
        ensures out { OnErr result (out.new.items ≡ out.old.items) }
    {
        let room = LINE_BYTES.saturating_sub(self.held.len());
        let k = line_end(piece);
        if k > room {
            return Err(DumpFault::TooLong);
        }
        if k == piece.len() {
            self.held.extend(piece)?;
            return Ok(k);
        }
        match self.end_line(alloc, &piece[..k], out) {
            Ok(()) => Ok(k + 1),
            Err(fault) => Err(fault),
        }
    }

    /// The last bytes of a line, behind those that are held.
    fn end_line(
        &mut self,
        alloc: Global,
        last: &[u8],
        out: &mut Vec<DumpRecord>,
    ) -> Result<(), DumpFault>
        requires { is_line_place self.old.place ≡ true }
        ensures on { StreamIs result self.new out.new.items (line_is self.old.place out.old.items
            (record self.old { held = [] }) (self.old.held ++ last.now)) }
        ensures out { OnErr result (out.new.items ≡ out.old.items) }
    {
        if self.held.len() == 0 {
            return self.take_line(alloc, last, out);
        }
        self.held.extend(last)?;
        let line = self.held.take(alloc);
        self.take_line(alloc, line.as_slice(), out)
    }

    /// Takes a byte or more.
    fn advance(
        &mut self,
        alloc: Global,
        piece: &[u8],
        out: &mut Vec<DumpRecord>,
    ) -> Result<usize, DumpFault>
        requires { 0 < length piece.now }
        ensures on { GoesOn result self.new out.new.items piece.now (reading (Reads out.old.items self.old) piece.now) }
        ensures moves { IfOk result (λ k. (0 < k) × (k ≤ length piece.now)) }
        ensures out { OnErr result (out.new.items ≡ out.old.items) }
    {
        match self.place {
            Place::Block => self.in_block(alloc, piece, out),
            Place::Text(n) => self.in_text(alloc, n, piece, out),
            Place::Failed => Err(DumpFault::Failed),
            Place::Version | Place::Blank | Place::Between | Place::Header => {
                self.in_lines(alloc, piece, out)
            }
        }
    }

    /// How many bytes are kept of an unfinished record. Goes over all that its block gave.
    pub fn held(&self) -> u128
        ensures { result ≡ kept self.now }
    {
        let block = self.block.held();
        let given = given_len(&self.props);
        let paths = path_len(&self.head.path) + path_len(&self.head.source_path);
        self.held.len() as u128 + block + given + paths as u128
    }

    /// Takes a whole piece.
    pub fn take_piece(
        &mut self,
        alloc: Global,
        piece: &[u8],
        out: &mut Vec<DumpRecord>,
    ) -> Result<(), DumpFault>
        ensures on { StreamIs result self.new out.new.items (reading (Reads out.old.items self.old) piece.now) }
        ensures front { OnErr result (IsFront out.new.items (reading (Reads out.old.items self.old) piece.now)) }
    {
        let mut at = 0;
        while at < piece.len() {
            match self.advance(alloc, &piece[at..], out) {
                Ok(taken) => at += taken,
                Err(fault) => return Err(fault),
            }
        }
        Ok(())
    }
}
