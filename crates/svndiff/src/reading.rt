//! A text that comes in windows, byte by byte.

ghost use Rattle.std.specs.Prelude.{◌≡◌, ◌≤◌, ◌<◌, ◌-◌, ◌+◌, ◌*◌, Some, None, length, take};
ghost use Rattle.std.specs.Prelude.{Ok, Err, nat_lt, if◌then◌else◌};
ghost use Rattle.svndiff.specs.Groups.{group, is_last};
ghost use Rattle.svndiff.specs.Reading.{begin, spent, is_between, is_failed, magic, in_magic, digit, summed, judged};
ghost use Rattle.svndiff.specs.Reading.{filled, head_digit, more_data, instructed, within, instruction, length_digit};
ghost use Rattle.svndiff.specs.Reading.{one_less, given, byte_step, one_step, StepIs};
ghost use Rattle.svndiff.specs.declared.reading.Place.TheVariants as at;

use crate::fault::WindowFault;
use crate::limits::{TEXT_BYTES, WINDOW_BYTES};

// The bytes in front of the windows of version 0.
const MAGIC: [u8; 4] = [b'S', b'V', b'N', 0];

/// The numbers in front of a window, in their order.
#[derive(Clone, Copy)]
pub enum Field {
    /// Where the source begins: not used.
    SourceOffset,
    /// How long the source is.
    SourceLength,
    /// How many bytes the window makes.
    TargetLength,
    /// How many bytes the instructions have.
    InstructionLength,
    /// How many bytes of new data there are.
    NewLength,
}

/// What is awaited.
#[derive(Clone, Copy)]
pub enum Place {
    /// The version, of which so many bytes have come.
    Magic(u8),
    /// A window may begin.
    Between,
    /// A number in front of a window, of which so many bytes have come, and what they spell.
    Head(Field, u8, u64),
    /// An instruction.
    Instruction,
    /// An instruction's length, of which so many bytes have come, and what they spell.
    Length(u8, u64),
    /// New data.
    NewData,
    /// Bytes were refused.
    Failed,
}

/// What has come of the window that isn't whole.
#[derive(Clone, Copy)]
pub struct Reading {
    /// What is awaited.
    pub place: Place,
    /// How long the window's source is.
    pub source: u64,
    /// How many bytes the window makes.
    pub target: u64,
    /// How many bytes of its instructions are to come.
    pub instructions: u64,
    /// How many bytes of its new data are to come.
    pub fresh: u64,
    /// How many bytes its instructions make so far.
    pub sum: u64,
    /// How many bytes the text may still have.
    pub room: u64,
}

/// What a byte makes of a number.
#[derive(Clone, Copy)]
pub enum Digit {
    /// It is whole.
    Whole(u64),
    /// It goes on: so many bytes have come, and what they spell.
    Goes(u8, u64),
    /// It is longer than ten bytes, or past 2^64 - 1.
    Wrong,
}

/// One byte more of a number of which so many bytes have come.
pub fn take_digit(count: u8, n: u64, b: u8) -> Digit
    ensures { result ≡ digit count n b }
{
    let last = b < 128;
    let group = u64::from(if last { b } else { b - 128 });
    if n > u64::MAX / 128 {
        return Digit::Wrong;
    }
    let n = n * 128 + group;
    if last {
        return Digit::Whole(n);
    }
    if count < 9 {
        Digit::Goes(count + 1, n)
    } else {
        Digit::Wrong
    }
}

// More new data than a window may make stays more.
fn more_data(sum: u64, n: u64) -> u64
    ensures { result ≡ more_data sum n }
{
    if sum > WINDOW_BYTES || n > WINDOW_BYTES {
        WINDOW_BYTES + 1
    } else {
        sum + n
    }
}

impl Reading {
    /// Before the first byte.
    pub fn new() -> Reading
        ensures { result ≡ begin }
    {
        Reading {
            place: Place::Magic(0),
            source: 0,
            target: 0,
            instructions: 0,
            fresh: 0,
            sum: 0,
            room: TEXT_BYTES,
        }
    }

    /// Behind refused bytes.
    pub fn spent() -> Reading
        ensures { result ≡ spent }
    {
        Reading {
            place: Place::Failed,
            ..Reading::new()
        }
    }

    /// Whether a window may begin.
    pub fn is_between(&self) -> bool
        ensures { result ≡ is_between self.now }
    {
        match self.place {
            Place::Between => true,
            _ => false,
        }
    }

    /// Whether bytes were refused.
    pub fn is_failed(&self) -> bool
        ensures { result ≡ is_failed self.now }
    {
        match self.place {
            Place::Failed => true,
            _ => false,
        }
    }

    // A byte of the version.
    fn in_magic(&mut self, k: u8, b: u8) -> Result<(), WindowFault>
        ensures { StepIs result self.new (in_magic k self.old b) }
    {
        let wanted = match k {
            0 => b'S',
            1 => b'V',
            2 => b'N',
            _ => 0,
        };
        if b != wanted {
            return Err(WindowFault::BadWindow);
        }
        self.place = if k < 3 {
            Place::Magic(k + 1)
        } else {
            Place::Between
        };
        Ok(())
    }

    // The instructions are over.
    fn summed(&mut self) -> Result<(), WindowFault>
        ensures { StepIs result self.new (summed self.old) }
    {
        if self.sum != self.target || self.sum != self.fresh {
            return Err(WindowFault::BadWindow);
        }
        self.place = if self.fresh == 0 {
            Place::Between
        } else {
            Place::NewData
        };
        Ok(())
    }

    // The numbers in front of a window are there.
    fn judged(&mut self) -> Result<(), WindowFault>
        ensures { StepIs result self.new (judged self.old) }
    {
        if self.target > WINDOW_BYTES || self.fresh > WINDOW_BYTES || self.fresh > self.room {
            return Err(WindowFault::TooLong);
        }
        if self.source > 0 {
            return Err(WindowFault::CopyWindow);
        }
        self.sum = 0;
        if self.instructions == 0 {
            return self.summed();
        }
        self.place = Place::Instruction;
        Ok(())
    }

    // A number in front of a window is there.
    fn filled(&mut self, field: Field, n: u64) -> Result<(), WindowFault>
        ensures { StepIs result self.new (filled field self.old n) }
    {
        let next = match field {
            Field::SourceOffset => Field::SourceLength,
            Field::SourceLength => {
                self.source = n;
                Field::TargetLength
            }
            Field::TargetLength => {
                self.target = n;
                Field::InstructionLength
            }
            Field::InstructionLength => {
                self.instructions = n;
                Field::NewLength
            }
            Field::NewLength => {
                self.fresh = n;
                return self.judged();
            }
        };
        self.place = Place::Head(next, 0, 0);
        Ok(())
    }

    // A byte of a number in front of a window.
    fn head_digit(&mut self, field: Field, digit: Digit) -> Result<(), WindowFault>
        ensures { StepIs result self.new (head_digit field self.old digit) }
    {
        match digit {
            Digit::Whole(n) => self.filled(field, n),
            Digit::Goes(count, n) => {
                self.place = Place::Head(field, count, n);
                Ok(())
            }
            Digit::Wrong => Err(WindowFault::BadWindow),
        }
    }

    // An instruction is whole.
    fn instructed(&mut self, n: u64) -> Result<(), WindowFault>
        ensures { StepIs result self.new (instructed self.old n) }
    {
        if n == 0 {
            return Err(WindowFault::BadWindow);
        }
        self.sum = more_data(self.sum, n);
        if self.instructions == 0 {
            return self.summed();
        }
        self.place = Place::Instruction;
        Ok(())
    }

    // An instruction goes on.
    fn goes_on(&mut self, place: Place) -> Result<(), WindowFault>
        ensures { StepIs result self.new (within (record self.old { place = place })) }
    {
        match self.instructions {
            0 => Err(WindowFault::BadWindow),
            _ => {
                self.place = place;
                Ok(())
            }
        }
    }

    // The first byte of an instruction.
    fn instruction(&mut self, b: u8) -> Result<(), WindowFault>
        ensures { StepIs result self.new (instruction self.old b) }
    {
        match b {
            0..128 => Err(WindowFault::CopyWindow),
            128 => self.goes_on(Place::Length(0, 0)),
            129..192 => self.instructed(u64::from(b - 128)),
            _ => Err(WindowFault::BadWindow),
        }
    }

    // A byte of an instruction's length.
    fn length_digit(&mut self, digit: Digit) -> Result<(), WindowFault>
        ensures { StepIs result self.new (length_digit self.old digit) }
    {
        match digit {
            Digit::Whole(n) => self.instructed(n),
            Digit::Goes(count, n) => self.goes_on(Place::Length(count, n)),
            Digit::Wrong => Err(WindowFault::BadWindow),
        }
    }

    // A byte of the instructions.
    fn one_less(&mut self)
        ensures { self.new ≡ one_less self.old }
    {
        self.instructions = self.instructions.saturating_sub(1);
    }

    /// Takes a byte that is none of the text's.
    pub fn take_byte(&mut self, b: u8) -> Result<(), WindowFault>
        requires { self.old.place ≡ at.NewData → ⊥ }
        ensures { StepIs result self.new (one_step self.old b) }
    {
        match self.place {
            Place::Magic(k) => self.in_magic(k, b),
            Place::Between => self.head_digit(Field::SourceOffset, take_digit(0, 0, b)),
            Place::Head(field, count, n) => self.head_digit(field, take_digit(count, n, b)),
            Place::Instruction => {
                self.one_less();
                self.instruction(b)
            }
            Place::Length(count, n) => {
                self.one_less();
                self.length_digit(take_digit(count, n, b))
            }
            Place::NewData | Place::Failed => Err(WindowFault::Failed),
        }
    }

    /// Takes so many bytes of the text.
    pub fn give(&mut self, k: u64)
        ensures { self.new ≡ given k self.old }
    {
        self.place = if k < self.fresh {
            Place::NewData
        } else {
            Place::Between
        };
        self.fresh = self.fresh.saturating_sub(k);
        self.room = self.room.saturating_sub(k);
    }
}
