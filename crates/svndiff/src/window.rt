//! A window that may copy, byte by byte, up to its new data.

ghost use Rattle.std.specs.Prelude.{◌≡◌, ◌<◌, ◌+◌, ◌^◌};
ghost use Rattle.svndiff.specs.DeltaReading.{begin, spent, is_between, is_failed, in_magic, summed, go_on, misfits, new_of, begun};
ghost use Rattle.svndiff.specs.DeltaReading.{slid, judged, filled, head_digit, is_wrong, counted, instructed};
ghost use Rattle.svndiff.specs.DeltaReading.{within, sized, instruction, length_digit, offset_digit, one_less};
ghost use Rattle.svndiff.specs.DeltaReading.{one_step, kept, over, StepIs, is_whole};

use crate::delta_fault::DeltaFault;
use crate::instructions::{Instruction, Kind};
use crate::limits::{TEXT_BYTES, WINDOW_BYTES};
use crate::reading::{Digit, Field, take_digit};

/// What is awaited.
#[derive(Clone, Copy)]
pub enum Awaited {
    /// The version, of which so many bytes have come.
    Magic(u8),
    /// A window may begin.
    Between,
    /// A number in front of a window, of which so many bytes have come, and what they spell.
    Head(Field, u8, u64),
    /// An instruction.
    Instruction,
    /// An instruction's length, of which so many bytes have come, and what they spell.
    Length(Kind, u8, u64),
    /// The place that an instruction of a length takes bytes from, of which so many bytes have come, and what they
    /// spell.
    Offset(Kind, u64, u8, u64),
    /// New data.
    NewData,
    /// Nothing: the window is whole, and its text is to be made.
    Whole,
    /// Bytes were refused.
    Failed,
}

/// The numbers of the window that isn't whole.
#[derive(Clone, Copy)]
pub struct Window {
    /// What is awaited.
    pub place: Awaited,
    /// Where the window's view of the base begins.
    pub offset: u64,
    /// How long the view is.
    pub source: u64,
    /// How many bytes the window makes.
    pub target: u64,
    /// How many bytes of its instructions are to come.
    pub instructions: u64,
    /// How many bytes of new data it has, or has to come.
    pub fresh: u64,
    /// How many bytes its instructions make so far.
    pub sum: u64,
    /// How many of these are new data.
    pub news: u64,
    /// How many bytes the text may still have.
    pub room: u64,
    /// Where the last view that had a byte began.
    pub floor: u64,
    /// Where it ended.
    pub ceiling: u64,
}

// A number itself: its type says how great it may be.
fn same(n: u64) -> u64
    ensures { result ≡ n }
{
    n
}

impl Window {
    /// Before the first byte.
    pub fn new() -> Window
        ensures { result ≡ begin }
    {
        Window {
            place: Awaited::Magic(0),
            offset: 0,
            source: 0,
            target: 0,
            instructions: 0,
            fresh: 0,
            sum: 0,
            news: 0,
            room: TEXT_BYTES,
            floor: 0,
            ceiling: 0,
        }
    }

    /// Behind refused bytes.
    pub fn spent() -> Window
        ensures { result ≡ spent }
    {
        Window {
            place: Awaited::Failed,
            ..Window::new()
        }
    }

    /// Whether a window may begin.
    pub fn is_between(&self) -> bool
        ensures { result ≡ is_between self.now }
    {
        match self.place {
            Awaited::Between => true,
            _ => false,
        }
    }

    /// Whether a window's text is to be made.
    pub fn is_whole(&self) -> bool
        ensures { result ≡ is_whole self.now }
    {
        match self.place {
            Awaited::Whole => true,
            _ => false,
        }
    }

    /// Whether bytes were refused.
    pub fn is_failed(&self) -> bool
        ensures { result ≡ is_failed self.now }
    {
        match self.place {
            Awaited::Failed => true,
            _ => false,
        }
    }

    // A byte of the version.
    fn in_magic(&mut self, k: u8, b: u8) -> Result<Option<Instruction>, DeltaFault>
        ensures { StepIs result self.new (in_magic k self.old b) }
    {
        let wanted = match k {
            0 => b'S',
            1 => b'V',
            2 => b'N',
            _ => 0,
        };
        if b != wanted {
            return Err(DeltaFault::BadWindow);
        }
        self.place = if k < 3 {
            Awaited::Magic(k + 1)
        } else {
            Awaited::Between
        };
        Ok(None)
    }

    // The instructions are over.
    fn summed(&mut self, done: Option<Instruction>) -> Result<Option<Instruction>, DeltaFault>
        ensures { StepIs result self.new (summed done self.old) }
    {
        if self.sum != self.target || self.news != self.fresh {
            return Err(DeltaFault::BadWindow);
        }
        self.place = if self.fresh == 0 {
            Awaited::Whole
        } else {
            Awaited::NewData
        };
        Ok(done)
    }

    // An instruction is awaited, if more are to come.
    fn go_on(&mut self, done: Option<Instruction>) -> Result<Option<Instruction>, DeltaFault>
        ensures { StepIs result self.new (go_on done self.old) }
    {
        if self.instructions == 0 {
            return self.summed(done);
        }
        self.place = Awaited::Instruction;
        Ok(done)
    }

    // Whether the window's view lies past a base of a length, or slides back.
    fn misfits(&self, length: u64) -> bool
        ensures { result ≡ misfits length self.now }
    {
        let Window { offset, source, .. } = *self;
        source > length
            || offset > length - source
            || offset < self.floor
            || offset + source < self.ceiling
    }

    // The window's view is the last one.
    fn slide(&mut self)
        requires { self.old.offset + self.old.source < 2 ^ 64 }
        ensures { self.new ≡ slid self.old }
    {
        self.floor = self.offset;
        self.ceiling = self.offset + self.source;
    }

    // The numbers in front of a window are there.
    fn judged(&mut self, length: u64) -> Result<Option<Instruction>, DeltaFault>
        ensures { StepIs result self.new (judged length self.old) }
    {
        if self.target > WINDOW_BYTES
            || self.fresh > WINDOW_BYTES
            || self.source > WINDOW_BYTES
            || self.target > self.room
        {
            return Err(DeltaFault::TooLong);
        }
        self.sum = 0;
        self.news = 0;
        if self.source == 0 {
            return self.go_on(None);
        }
        if self.misfits(length) {
            return Err(DeltaFault::BadWindow);
        }
        self.slide();
        self.go_on(None)
    }

    // A number in front of a window is there.
    fn filled(
        &mut self,
        length: u64,
        field: Field,
        n: u64,
    ) -> Result<Option<Instruction>, DeltaFault>
        ensures { StepIs result self.new (filled length field self.old n) }
    {
        let next = match field {
            Field::SourceOffset => {
                self.offset = n;
                Field::SourceLength
            }
            Field::SourceLength => {
                self.source = n;
                Field::TargetLength
            }
            Field::TargetLength => {
                self.target = n;
                Field::InstructionLength
            }
            Field::InstructionLength => {
                self.instructions = n;
                Field::NewLength
            }
            Field::NewLength => {
                self.fresh = n;
                return self.judged(length);
            }
        };
        self.place = Awaited::Head(next, 0, 0);
        Ok(None)
    }

    // A byte of a number in front of a window.
    fn head_digit(
        &mut self,
        length: u64,
        field: Field,
        digit: Digit,
    ) -> Result<Option<Instruction>, DeltaFault>
        ensures { StepIs result self.new (head_digit length field self.old digit) }
    {
        match digit {
            Digit::Whole(n) => self.filled(length, field, n),
            Digit::Goes(count, n) => {
                self.place = Awaited::Head(field, count, n);
                Ok(None)
            }
            Digit::Wrong => Err(DeltaFault::BadWindow),
        }
    }

    // Whether an instruction has no length, makes more than the window, or takes what isn't there.
    fn is_wrong(&self, instruction: Instruction) -> bool
        ensures { result ≡ is_wrong instruction self.now }
    {
        let Instruction { kind, at, length } = instruction;
        if length == 0 || length > self.target.saturating_sub(self.sum) {
            return true;
        }
        match kind {
            Kind::Source => length > self.source.saturating_sub(at),
            Kind::Target => at >= self.sum,
            Kind::New => length > self.fresh.saturating_sub(self.news),
        }
    }

    // An instruction is counted.
    fn count(&mut self, kind: Kind, length: u64)
        requires sum { self.old.sum + length < 2 ^ 64 }
        requires news { self.old.news + new_of kind length < 2 ^ 64 }
        ensures { self.new ≡ counted kind length self.old }
    {
        self.sum += length;
        if let Kind::New = kind {
            self.news += length;
        }
    }

    // An instruction is whole.
    fn instructed(&mut self, instruction: Instruction) -> Result<Option<Instruction>, DeltaFault>
        ensures { StepIs result self.new (instructed instruction self.old) }
    {
        let _limits = (same(self.target), same(self.fresh), same(self.news));
        if self.is_wrong(instruction) {
            return Err(DeltaFault::BadWindow);
        }
        self.count(instruction.kind, instruction.length);
        self.go_on(Some(instruction))
    }

    // An instruction goes on.
    fn goes_on(&mut self, place: Awaited) -> Result<Option<Instruction>, DeltaFault>
        ensures { StepIs result self.new (within (record self.old { place = place })) }
    {
        match self.instructions {
            0 => Err(DeltaFault::BadWindow),
            _ => {
                self.place = place;
                Ok(None)
            }
        }
    }

    // The length of an instruction is there.
    fn sized(&mut self, kind: Kind, n: u64) -> Result<Option<Instruction>, DeltaFault>
        ensures { StepIs result self.new (sized kind n self.old) }
    {
        match kind {
            Kind::New => self.instructed(Instruction {
                kind: Kind::New,
                at: 0,
                length: n,
            }),
            _ => self.goes_on(Awaited::Offset(kind, n, 0, 0)),
        }
    }

    // The first byte of an instruction, without its kind.
    fn begun(&mut self, kind: Kind, low: u8) -> Result<Option<Instruction>, DeltaFault>
        ensures { StepIs result self.new (begun kind low self.old) }
    {
        if low == 0 {
            self.goes_on(Awaited::Length(kind, 0, 0))
        } else {
            self.sized(kind, u64::from(low))
        }
    }

    // The first byte of an instruction.
    fn instruction(&mut self, b: u8) -> Result<Option<Instruction>, DeltaFault>
        ensures { StepIs result self.new (instruction self.old b) }
    {
        match b {
            0..64 => self.begun(Kind::Source, b),
            64..128 => self.begun(Kind::Target, b - 64),
            128..192 => self.begun(Kind::New, b - 128),
            _ => Err(DeltaFault::BadWindow),
        }
    }

    // A byte of an instruction's length.
    fn length_digit(&mut self, kind: Kind, digit: Digit) -> Result<Option<Instruction>, DeltaFault>
        ensures { StepIs result self.new (length_digit kind self.old digit) }
    {
        match digit {
            Digit::Whole(n) => self.sized(kind, n),
            Digit::Goes(count, n) => self.goes_on(Awaited::Length(kind, count, n)),
            Digit::Wrong => Err(DeltaFault::BadWindow),
        }
    }

    // A byte of the place that an instruction takes bytes from.
    fn offset_digit(
        &mut self,
        kind: Kind,
        length: u64,
        digit: Digit,
    ) -> Result<Option<Instruction>, DeltaFault>
        ensures { StepIs result self.new (offset_digit kind length self.old digit) }
    {
        match digit {
            Digit::Whole(n) => self.instructed(Instruction {
                kind,
                at: n,
                length,
            }),
            Digit::Goes(count, n) => self.goes_on(Awaited::Offset(kind, length, count, n)),
            Digit::Wrong => Err(DeltaFault::BadWindow),
        }
    }

    // A byte of the instructions.
    fn one_less(&mut self)
        ensures { self.new ≡ one_less self.old }
    {
        self.instructions = self.instructions.saturating_sub(1);
    }

    /// Takes a byte that is no new data, over a base of a length. The answer is the instruction that is whole at it.
    pub fn take_byte(&mut self, length: u64, b: u8) -> Result<Option<Instruction>, DeltaFault>
        ensures { StepIs result self.new (one_step length self.old b) }
    {
        match self.place {
            Awaited::Magic(k) => self.in_magic(k, b),
            Awaited::Between => self.head_digit(length, Field::SourceOffset, take_digit(0, 0, b)),
            Awaited::Head(field, count, n) => self.head_digit(
                length,
                field,
                take_digit(count, n, b),
            ),
            Awaited::Instruction => {
                self.one_less();
                self.instruction(b)
            }
            Awaited::Length(kind, count, n) => {
                self.one_less();
                self.length_digit(kind, take_digit(count, n, b))
            }
            Awaited::Offset(kind, size, count, n) => {
                self.one_less();
                self.offset_digit(kind, size, take_digit(count, n, b))
            }
            Awaited::NewData | Awaited::Whole | Awaited::Failed => Err(DeltaFault::Failed),
        }
    }

    /// Takes so many bytes of new data.
    pub fn keep(&mut self, k: u64)
        ensures { self.new ≡ kept k self.old }
    {
        self.place = if k < self.fresh {
            Awaited::NewData
        } else {
            Awaited::Whole
        };
        self.fresh = self.fresh.saturating_sub(k);
    }

    /// The window's text is made.
    pub fn end(&mut self)
        ensures { self.new ≡ over self.old }
    {
        self.place = Awaited::Between;
        self.room = self.room.saturating_sub(self.target);
    }
}
