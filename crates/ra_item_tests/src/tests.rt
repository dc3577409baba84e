use crate::checked::none_is_wrong;
use ra_item::fault::ItemFault;
use ra_item::item::{Content, Item};
use ra_item::law;
use ra_item::reader::ItemReader;
use ra_item::writer::{write_close, write_item, write_number, write_open, write_text, write_word};
use std::alloc::Global;
use std::process::Abort;

// The two directions of an opening, each item with its space.
const SERVER: [&[u8]; 4] = [
    b"( success ( 2 2 ( ) ( edit-pipeline atomic-revprops ) ) ) ",
    b"( success ( ( ANONYMOUS ) 36:6a1f0c3e-0000-4000-8000-000000000001 ) ) ",
    b"( success ( ) ) ",
    b"( success ( 36:6a1f0c3e-0000-4000-8000-000000000001 21:svn://127.0.0.1:3690/ ( ) ) ) ",
];

const CLIENT: [&[u8]; 2] = [
    b"( 2 ( edit-pipeline ) 21:svn://127.0.0.1:3690/ ) ",
    b"( ANONYMOUS ( 0: ) ) ",
];

// The editor commands of a revision that adds one file.
const DRIVE: [&[u8]; 10] = [
    b"( target-rev ( 1 ) ) ",
    b"( open-root ( ( 0 ) 2:t0 ) ) ",
    b"( add-file ( 1:a 2:t0 2:t1 ( ) ) ) ",
    b"( apply-textdelta ( 2:t1 ( ) ) ) ",
    b"( textdelta-chunk ( 2:t1 4:SVN\x00 ) ) ",
    b"( textdelta-chunk ( 2:t1 12:\x00\x00\x06\x01\x06\x86hello\n ) ) ",
    b"( textdelta-end ( 2:t1 ) ) ",
    b"( close-file ( 2:t1 ( 32:b1946ac92492d2347c6235b4d2611184 ) ) ) ",
    b"( close-dir ( 2:t0 ) ) ",
    b"( finish-replay ( ) ) ",
];

// What bytes come to: the items, written again, how many they are, and the number of the refusal, or 0.
#[derive(Drop)]
struct Outcome {
    written: Vec<u8>,
    count: usize,
    number: u32,
}

impl Outcome {
    fn is(&self, written: &[u8], count: usize, number: u32) -> bool {
        self.written.as_slice() == written && self.count == count && self.number == number
    }
}

// The number of the first refusal of bytes in pieces of a size, or 0; another one where the reader holds more than came.
fn feed_all(reader: &mut ItemReader, items: &mut Vec<Item>, bytes: &[u8], size: usize) -> u32 {
    let mut fed = 0usize;
    for piece in bytes.chunks(size.max(1)) {
        if let Err(fault) = reader.feed(piece, items) {
            return fault.number();
        }
        fed = fed.saturating_add(piece.len());
        if reader.held() > fed {
            return 1_000;
        }
    }
    0
}

// The number of the refusal at the end, or 0.
fn end_of(reader: ItemReader) -> u32 {
    match reader.finish() {
        Ok(()) => 0,
        Err(fault) => fault.number(),
    }
}

fn write_items(rt: &impl Abort, alloc: Global, items: &[Item]) -> Vec<u8> {
    let mut written = Vec::new(alloc);
    for item in items {
        write_item(&mut written, item).expect(rt, "memory");
    }
    written
}

// What bytes in pieces of a size come to.
fn outcome_of(rt: &impl Abort, alloc: Global, bytes: &[u8], size: usize) -> Outcome {
    let mut reader = ItemReader::new(alloc);
    let mut items = Vec::new(alloc);
    let fed = feed_all(&mut reader, &mut items, bytes, size);
    let ended = end_of(reader);
    Outcome {
        written: write_items(rt, alloc, &items),
        count: items.len(),
        number: if fed == 0 { ended } else { fed },
    }
}

// The first so many parts, joined.
fn joined(rt: &impl Abort, alloc: Global, parts: &[&[u8]], count: usize) -> Vec<u8> {
    let mut bytes = Vec::new(alloc);
    for part in parts.iter().take(count) {
        bytes.extend_from_slice(part).expect(rt, "memory");
    }
    bytes
}

// The number of the refusal, or 0, where bytes come to the same whole and byte by byte.
fn refusal(rt: &impl Abort, alloc: Global, bytes: &[u8]) -> Option<u32> {
    let whole = outcome_of(rt, alloc, bytes, bytes.len());
    let single = outcome_of(rt, alloc, bytes, 1);
    let same = whole.is(&single.written, single.count, single.number);
    same.then_some(whole.number)
}

// Whether bytes are refused so, whole and byte by byte; 0 where they are not.
fn refuses(rt: &impl Abort, alloc: Global, bytes: &[u8], number: u32) -> bool {
    refusal(rt, alloc, bytes) == Some(number)
}

// Whether bytes in pieces of a size come to so many items, which are written so, and are refused so.
fn come_to(
    rt: &impl Abort,
    alloc: Global,
    bytes: &[u8],
    size: usize,
    wanted: (&[u8], usize, u32),
) -> bool {
    let (written, count, number) = wanted;
    let found = outcome_of(rt, alloc, bytes, size);
    found.is(written, count, number)
}

// Whether a front of a part behind so many others gives these alone.
fn is_front(rt: &impl Abort, alloc: Global, before: &[u8], count: usize, front: &[u8]) -> bool {
    let mut bytes = Vec::from_slice(alloc, before).expect(rt, "memory");
    bytes.extend_from_slice(front).expect(rt, "memory");
    let number = if front.is_empty() { 0 } else { 7 };
    come_to(rt, alloc, &bytes, 1, (before, count, number)) && refuses(rt, alloc, &bytes, number)
}

// The length of the first front of a part that gives more or less than the parts before it.
fn wrong_front(
    rt: &impl Abort,
    alloc: Global,
    before: &[u8],
    count: usize,
    part: &[u8],
) -> Option<usize> {
    for end in 0..part.len() {
        if !is_front(rt, alloc, before, count, part.get(..end).unwrap_or(b"")) {
            return Some(end);
        }
    }
    None
}

// The same behind the first so many parts.
fn wrong_behind(
    rt: &impl Abort,
    alloc: Global,
    parts: &[&[u8]],
    count: usize,
    part: &[u8],
) -> Option<usize> {
    let before = joined(rt, alloc, parts, count);
    wrong_front(rt, alloc, &before, count, part)
}

// Whether all parts, in pieces of five bytes, are read whole.
fn is_whole(rt: &impl Abort, alloc: Global, parts: &[&[u8]]) -> bool {
    let bytes = joined(rt, alloc, parts, parts.len());
    come_to(rt, alloc, &bytes, 5, (bytes.as_slice(), parts.len(), 0))
}

// Each front of the parts gives the parts that it has whole, and ends well only behind one: else the number of the part
// and the length of its first front that doesn't.
fn wrong_fronts(rt: &impl Abort, alloc: Global, parts: &[&[u8]]) -> Option<(usize, usize)> {
    for (count, part) in parts.iter().enumerate() {
        if let Some(end) = wrong_behind(rt, alloc, parts, count, part) {
            return Some((count, end));
        }
    }
    if is_whole(rt, alloc, parts) {
        None
    } else {
        Some((parts.len(), 0))
    }
}

// Whether bytes with one of them changed come to the same whole and byte by byte.
fn agrees_with(rt: &impl Abort, alloc: Global, bytes: &[u8], at: usize, value: u8) -> bool {
    let mut changed = Vec::from_slice(alloc, bytes).expect(rt, "memory");
    if let Some(place) = changed.get_mut(at) {
        *place = value;
    }
    refusal(rt, alloc, &changed).is_some()
}

// The first value of one byte for which bytes come to another thing whole than byte by byte.
fn wrong_value(rt: &impl Abort, alloc: Global, bytes: &[u8], at: usize) -> Option<u8> {
    for value in 0..=255u8 {
        if !agrees_with(rt, alloc, bytes, at, value) {
            return Some(value);
        }
    }
    None
}

// Each change of one byte to any value is answered alike, whole and byte by byte: else its place and value.
fn wrong_change(rt: &impl Abort, alloc: Global, bytes: &[u8]) -> Option<(usize, u8)> {
    for at in 0..bytes.len() {
        if let Some(value) = wrong_value(rt, alloc, bytes, at) {
            return Some((at, value));
        }
    }
    None
}

// The same of the parts, joined.
fn wrong_change_of(rt: &impl Abort, alloc: Global, parts: &[&[u8]]) -> Option<(usize, u8)> {
    let bytes = joined(rt, alloc, parts, parts.len());
    wrong_change(rt, alloc, &bytes)
}

#[test]
fn an_opening_and_its_fronts(rt: HostRuntime) {
    none_is_wrong(&rt, wrong_fronts(&rt, rt.alloc(), &SERVER));
    none_is_wrong(&rt, wrong_fronts(&rt, rt.alloc(), &CLIENT));
}

#[test]
fn an_editor_drive_and_its_fronts(rt: HostRuntime) {
    none_is_wrong(&rt, wrong_fronts(&rt, rt.alloc(), &DRIVE));
}

#[test]
fn changed_bytes_of_an_opening(rt: HostRuntime) {
    none_is_wrong(&rt, wrong_change_of(&rt, rt.alloc(), &SERVER));
    none_is_wrong(&rt, wrong_change_of(&rt, rt.alloc(), &CLIENT));
}

#[test]
fn changed_bytes_of_a_drive(rt: HostRuntime) {
    none_is_wrong(&rt, wrong_change_of(&rt, rt.alloc(), &DRIVE));
}

// Bytes, and the number that they are refused with; 0 where they are not.
const REFUSALS: [(&[u8], u32); 26] = [
    (b"", 0),
    (b" \n ", 0),
    (b"\n( )\n 3:ab) x-1 007 ", 0),
    (b"18446744073709551615 ", 0),
    (b"0000000000000000000000018446744073709551615 ", 0),
    (b"18446744073709551616 ", 41),
    (b"18446744073709551616:", 41),
    (b"99999999999999999999 ", 41),
    (b"-1 ", 41),
    (b"3:abcd ", 41),
    (b"3:ab", 7),
    (b"3:abc", 7),
    (b"003:abc ", 0),
    (b"word", 7),
    (b"12", 7),
    (b"( ", 7),
    (b"( )", 7),
    (b"()", 41),
    (b"( a)", 41),
    (b") ", 41),
    (b"12a ", 41),
    (b"a_b ", 41),
    (b"a\tb", 41),
    (b"1048577:", 8),
    (b"1048577 ", 0),
    (b"18446744073709551615:", 8),
];

// The number of the first case that isn't refused as it says.
fn wrong_refusal(rt: &impl Abort, alloc: Global, cases: &[(&[u8], u32)]) -> Option<usize> {
    for (case, (bytes, number)) in cases.iter().enumerate() {
        if !refuses(rt, alloc, bytes, *number) {
            return Some(case);
        }
    }
    None
}

#[test]
fn refusals(rt: HostRuntime) {
    none_is_wrong(&rt, wrong_refusal(&rt, rt.alloc(), &REFUSALS));
}

// So many copies of a byte string, and these bytes behind them.
fn times(rt: &impl Abort, alloc: Global, part: &[u8], count: usize, last: &[u8]) -> Vec<u8> {
    let mut bytes = Vec::new(alloc);
    for _ in 0..count {
        bytes.extend_from_slice(part).expect(rt, "memory");
    }
    bytes.extend_from_slice(last).expect(rt, "memory");
    bytes
}

// So many copies of a byte string, what stands behind them, and the number that all of it is refused with.
type Repeated<'a> = (&'a [u8], usize, &'a [u8], u32);

const LONG_WORDS: [Repeated<'static>; 4] = [
    (b"a", 64, b" ", 0),
    (b"a", 64, b"$", 41),
    (b"a", 65, b" ", 8),
    (b"a", 64, b"a", 8),
];

const DEEP_LISTS: [Repeated<'static>; 4] = [
    (b"( ", 16, b"", 7),
    (b"( ", 16, b"(", 42),
    (b"( ", 15, b"( ", 7),
    (b"( ", 16, b"1 ", 7),
];

// Whether one of these is refused so.
fn is_refused_repeated(rt: &impl Abort, alloc: Global, case: &Repeated<'_>) -> bool {
    let (part, count, last, number) = case;
    let bytes = times(rt, alloc, part, *count, last);
    refuses(rt, alloc, &bytes, *number)
}

// The number of the first that isn't.
fn wrong_repeated(rt: &impl Abort, alloc: Global, cases: &[Repeated<'_>]) -> Option<usize> {
    for (number, case) in cases.iter().enumerate() {
        if !is_refused_repeated(rt, alloc, case) {
            return Some(number);
        }
    }
    None
}

#[test]
fn long_words(rt: HostRuntime) {
    none_is_wrong(&rt, wrong_repeated(&rt, rt.alloc(), &LONG_WORDS));
}

#[test]
fn deep_lists(rt: HostRuntime) {
    none_is_wrong(&rt, wrong_repeated(&rt, rt.alloc(), &DEEP_LISTS));
}

// Whether sixteen lists, each within the one before, are read and written again.
fn is_deepest(rt: &impl Abort, alloc: Global) -> bool {
    let closed = times(rt, alloc, b") ", 16, b"");
    let bytes = times(rt, alloc, b"( ", 16, &closed);
    come_to(rt, alloc, &bytes, 3, (bytes.as_slice(), 1, 0))
}

#[test]
fn the_deepest_list(rt: HostRuntime) {
    assert!(rt; is_deepest(&rt, rt.alloc()));
}

// A length with its colon, so many blanks, and these bytes behind them.
fn long_text(
    rt: &impl Abort,
    alloc: Global,
    announced: &[u8],
    count: usize,
    last: &[u8],
) -> Vec<u8> {
    let blanks = Vec::from_elem(alloc, b' ', count).expect(rt, "memory");
    let mut bytes = Vec::from_slice(alloc, announced).expect(rt, "memory");
    bytes.extend_from_slice(&blanks).expect(rt, "memory");
    bytes.extend_from_slice(last).expect(rt, "memory");
    bytes
}

// The number that bytes in pieces of a size are refused with, or 0.
fn number_of(rt: &impl Abort, alloc: Global, bytes: &[u8], size: usize) -> u32 {
    let found = outcome_of(rt, alloc, bytes, size);
    found.number
}

// The number that such a string is refused with, or 0.
fn number_of_text(
    rt: &impl Abort,
    alloc: Global,
    announced: &[u8],
    count: usize,
    last: &[u8],
) -> u32 {
    let bytes = long_text(rt, alloc, announced, count, last);
    number_of(rt, alloc, &bytes, 65_536)
}

// An announced length, so many blanks, what stands behind them, and the number that it is refused with.
type LongText<'a> = (&'a [u8], usize, &'a [u8], u32);

const LONG_TEXTS: [LongText<'static>; 4] = [
    (b"1048576:", 1_048_576, b"", 7),
    (b"1048576:", 1_048_576, b"\n", 0),
    (b"1048576:", 1_048_576, b"x", 41),
    (b"1048577:", 1_048_577, b" ", 8),
];

// The number of the first of these that is refused with another.
fn wrong_text(rt: &impl Abort, alloc: Global, cases: &[LongText<'_>]) -> Option<usize> {
    for (case, (announced, count, last, number)) in cases.iter().enumerate() {
        if number_of_text(rt, alloc, announced, *count, last) != *number {
            return Some(case);
        }
    }
    None
}

#[test]
fn strings_of_a_mebibyte(rt: HostRuntime) {
    none_is_wrong(&rt, wrong_text(&rt, rt.alloc(), &LONG_TEXTS));
}

// A list with so many bytes before its last bracket, 31 strings of a mebibyte in it.
fn long_list(rt: &impl Abort, alloc: Global, count: usize, last: &[u8]) -> Vec<u8> {
    let text = long_text(rt, alloc, b"1048576:", 1_048_576, b" ");
    let texts = times(rt, alloc, &text, 31, b"");
    let mut bytes = Vec::from_slice(alloc, b"( ").expect(rt, "memory");
    bytes.extend_from_slice(&texts).expect(rt, "memory");
    let rest = count.saturating_sub(bytes.len());
    let blanks = Vec::from_elem(alloc, b'\n', rest).expect(rt, "memory");
    bytes.extend_from_slice(&blanks).expect(rt, "memory");
    bytes.extend_from_slice(last).expect(rt, "memory");
    bytes
}

// The number that such a list is refused with, or 0.
fn number_of_list(rt: &impl Abort, alloc: Global, count: usize, last: &[u8]) -> u32 {
    let bytes = long_list(rt, alloc, count, last);
    number_of(rt, alloc, &bytes, 100_000)
}

#[test]
fn lists_at_the_limit(rt: HostRuntime) {
    assert!(rt; number_of_list(&rt, rt.alloc(), 33_554_431, b") ") == 0);
    assert!(rt; number_of_list(&rt, rt.alloc(), 33_554_432, b")") == 8);
}

// Whether a piece is refused so, with two items before and nothing kept.
fn is_refused(
    reader: &mut ItemReader,
    items: &mut Vec<Item>,
    piece: &[u8],
    fault: ItemFault,
) -> bool {
    let found = reader.feed(piece, items).err();
    found == Some(fault) && items.len() == 2 && reader.held() == 0
}

// Pieces that a reader is given, what each is refused with, and how the end is.
const REFUSED: [(&[u8], ItemFault); 3] = [
    (b"1 2 $ 3 ", ItemFault::BadItem),
    (b"", ItemFault::Failed),
    (b"4 ", ItemFault::Failed),
];

// The number of the first piece that isn't refused so.
fn wrong_piece(reader: &mut ItemReader, items: &mut Vec<Item>) -> Option<usize> {
    for (case, (piece, fault)) in REFUSED.iter().enumerate() {
        if !is_refused(reader, items, piece, *fault) {
            return Some(case);
        }
    }
    None
}

#[test]
fn after_a_refusal(rt: HostRuntime) {
    let mut reader = ItemReader::new(rt.alloc());
    let mut items = Vec::new(rt.alloc());
    none_is_wrong(&rt, wrong_piece(&mut reader, &mut items));
    assert!(rt; reader.finish() == Err(ItemFault::Failed));
}

// Pieces, and how many bytes a reader keeps behind each. An announced length keeps nothing; a word and a number in a
// list keep themselves and their spaces.
const HELD: [(&[u8], usize); 6] = [
    (b"", 0),
    (b"1 ( 5:", 0),
    (b"xyz", 3),
    (b"ab ( abc\n 0012\n ) ", 19),
    (b"1048576:", 19),
    (b"xy", 21),
];

// The number of the first piece behind which a reader keeps another number of bytes than stands beside it.
fn wrong_held(
    rt: &impl Abort,
    reader: &mut ItemReader,
    items: &mut Vec<Item>,
    cases: &[(&[u8], usize)],
) -> Option<usize> {
    for (case, (piece, held)) in cases.iter().enumerate() {
        reader.feed(piece, items).expect(rt, "items");
        if reader.held() != *held {
            return Some(case);
        }
    }
    None
}

#[test]
fn bytes_held(rt: HostRuntime) {
    let mut reader = ItemReader::new(rt.alloc());
    let mut items = Vec::new(rt.alloc());
    none_is_wrong(&rt, wrong_held(&rt, &mut reader, &mut items, &HELD));
}

// A list of a number, a string and a word.
fn three_parts(rt: &impl Abort, alloc: Global) -> Item {
    let text = Item::text(alloc, b"").expect(rt, "a string");
    let word = Item::word(alloc, b"a-1").expect(rt, "a word");
    let mut parts = Vec::new(alloc);
    parts.push(Item::number(0)).expect(rt, "memory");
    parts.push(text).expect(rt, "memory");
    parts.push(word).expect(rt, "memory");
    Item::list(parts).expect(rt, "a list")
}

// Whether an item is one of these three.
fn is_part(item: &Item) -> bool {
    match item.content() {
        Content::Word(word) => word.as_slice() == b"a-1".as_slice(),
        Content::Number(n) => *n == 0,
        Content::Text(text) => text.is_empty(),
        Content::List(_) => false,
    }
}

// How many of these there are among items that are all of these.
fn count_of(parts: &[Item]) -> usize {
    for part in parts {
        if !is_part(part) {
            return 0;
        }
    }
    parts.len()
}

// How many of these there are in a list that has nothing else.
fn count_parts(list: Item) -> usize {
    match list.into_content() {
        Content::List(parts) => count_of(&parts),
        _ => 0,
    }
}

#[test]
fn made_items(rt: HostRuntime) {
    let list = three_parts(&rt, rt.alloc());
    let mut written = Vec::new(rt.alloc());
    write_item(&mut written, &list).expect(&rt, "memory");
    assert!(rt; written.as_slice() == b"( 0 0: a-1 ) ".as_slice());
    assert!(rt; count_parts(list) == 3);
}

// Whether a list of a number, a word and a string is written.
fn are_written(out: &mut Vec<u8>) -> bool {
    write_open(out).is_ok()
        && write_number(out, 18_446_744_073_709_551_615).is_ok()
        && write_word(out, b"w").is_ok()
        && write_text(out, b"( )").is_ok()
        && write_close(out).is_ok()
}

#[test]
fn written_parts(rt: HostRuntime) {
    let mut written = Vec::new(rt.alloc());
    assert!(rt; are_written(&mut written));
    assert!(rt; written.as_slice() == b"( 18446744073709551615 w 3:( ) ) ".as_slice());
}

const NO_WORDS: [&[u8]; 4] = [b"", b"1a", b"a b", b"-"];

// The number of the first of these that isn't refused as no word.
fn wrong_word(alloc: Global) -> Option<usize> {
    for (case, bytes) in NO_WORDS.iter().enumerate() {
        if Item::word(alloc, bytes).err() != Some(ItemFault::BadItem) {
            return Some(case);
        }
    }
    None
}

#[test]
fn refused_makers(rt: HostRuntime) {
    let alloc = rt.alloc();
    none_is_wrong(&rt, wrong_word(alloc));
    let letters = times(&rt, alloc, b"a", 65, b"");
    let text = times(&rt, alloc, b"a", 1_048_577, b"");
    assert!(rt; Item::word(alloc, &letters).err() == Some(ItemFault::TooLong));
    assert!(rt; Item::text(alloc, &text).err() == Some(ItemFault::TooLong));
}

// A list of one item.
fn list_of(rt: &impl Abort, alloc: Global, item: Item) -> Result<Item, ItemFault> {
    let mut items = Vec::new(alloc);
    items.push(item).expect(rt, "memory");
    Item::list(items)
}

// Sixteen lists, each within the one before.
fn deepest(rt: &impl Abort, alloc: Global) -> Item {
    let mut item = Item::number(1);
    for _ in 0..16 {
        item = list_of(rt, alloc, item).expect(rt, "a list");
    }
    item
}

#[test]
fn a_list_made_too_deep(rt: HostRuntime) {
    let item = deepest(&rt, rt.alloc());
    assert!(rt; list_of(&rt, rt.alloc(), item).err() == Some(ItemFault::TooDeep));
}

#[test]
fn laws_are_called() {
    law::pieces_join();
    law::streams_are_read();
    law::whole_at_white();
    law::written_is_spelled();
    law::written_is_read();
    law::one_reading();
    law::read_is_spelled();
    law::ends_whole();
    law::refused_behind_items();
    law::kept_is_fed();
    law::read_goes_on();
    law::refused_is_no_front();
    law::refused_for_cause();
}
