//! The places in a property block.

/// What is awaited in a property block. A property is `K`, a blank, the count of its name's bytes, LF, the name, LF,
/// `V`, a blank, the count of its value's bytes, LF, the value, LF. In a block of a delta a name that is removed is `D`,
/// a blank, the count of its bytes, LF, the name, LF.
#[derive(Clone, Copy)]
pub enum Part {
    /// `K` or `D`, or the `P` of PROPS-END.
    Tag,
    /// The blank after `K` or `D`.
    KeyBlank,
    /// Digits and their LF.
    KeyCount,
    /// A name of so many bytes.
    Name(u32),
    /// The LF after a name whose value follows.
    NameEnd,
    /// `V`.
    ValueTag,
    /// The blank after `V`.
    ValueBlank,
    /// Digits and their LF.
    ValueCount,
    /// A value of so many bytes.
    Value(u32),
    /// The LF after a value, or after a name that is removed.
    ValueEnd,
    /// The rest of PROPS-END and its LF.
    Ending,
}
