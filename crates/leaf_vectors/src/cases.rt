// One function for each kind of case: whether the proved functions give the answers of the list. The area is filled with MARK.
ghost use Rattle.std.specs.Prelude.{◌≡◌, true, ◌+◌, ◌*◌, ◌≤◌, length};
ghost use Rattle.slope.specs.Column.{ColumnOk};

use crate::pack;
use crate::pack::Widths;
use slope::Column;
use vector_parts::area::framed;

pub const MARK: u8 = 0xa5;

// What a case is tried in. Fixed: its length is a fact of the type, where each function would ask it of a Vec.
pub type Area = [u8; 8192];

// Where what is tried begins in an area of bytes.
const PLACE: usize = 16;

// Where the values begin in an area of numbers, how far apart they stand, and what they are relative to.
const FIRST: usize = 2;

const STRIDE: usize = 3;

const BASE: u64 = 1000003;

// Whether `area` has `front` at PLACE, behind it what `whole` has behind as many bytes, and MARK everywhere else.
fn holds(area: &Area, front: &[u8], whole: &[u8]) -> bool {
    framed(area, PLACE, whole.len(), MARK)
        .and_then(|part| part.strip_prefix(front))
        .is_some_and(|tail| whole.get(front.len()..) == Some(tail))
}

pub fn same_width(numbers: &[u64]) -> bool {
    let [number, width] = *numbers else {
        return false;
    };
    u64::from(bitpacker::compute_num_bits(number)) == width
}

// Writes `value` at PLACE. False where no such width has a writer, or the value is too large for it.
fn write_number(out: &mut Area, width: u64, value: u64) -> bool {
    match (width, u16::try_from(value), u32::try_from(value)) {
        (8, _, _) => serialize::serialize_u64(out, PLACE, value),
        (4, _, Ok(value)) => serialize::serialize_u32(out, PLACE, value),
        (2, Ok(value), _) => serialize::serialize_u16(out, PLACE, value),
        _ => return false,
    }
    true
}

fn read_number(bytes: &Area, width: u64) -> u64 {
    match width {
        8 => serialize::deserialize_u64(bytes, PLACE),
        4 => u64::from(serialize::deserialize_u32(bytes, PLACE)),
        _ => u64::from(serialize::deserialize_u16(bytes, PLACE)),
    }
}

pub fn same_number(numbers: &[u64], bytes: &[u8], area: &mut Area) -> bool {
    let [width, value] = *numbers else {
        return false;
    };
    bytes.len() as u64 == width
        && write_number(area, width, value)
        && holds(area, bytes, bytes)
        && read_number(area, width) == value
}

// Puts the values, plus BASE, a STRIDE apart from FIRST on. False where one is 2^61 or more, or they don't fit.
fn spread(area: &mut [u64], values: &[u64]) -> bool
    requires { 1024 ≤ length area.old }
    ensures { result ≡ true → ColumnOk area.new 2 3 1000003 (length values.now) }
{
    if values.len() > 256 {
        return false;
    }
    // By place, since std says nothing of what an area holds that was written by chunks.
    for (j, value) in values.iter().enumerate() {
        if *value >= 0x2000_0000_0000_0000 {
            return false;
        }
        area[FIRST + STRIDE * j] = *value + BASE;
    }
    true
}

pub fn same_slope(numbers: &[u64]) -> bool {
    let [count, values @ .., slope, nbits] = numbers else {
        return false;
    };
    // An array: a Vec would need an allocator here, and could run out of memory.
    let mut area = [u64::MAX; 1024];
    if *count != values.len() as u64 || !spread(&mut area, values) {
        return false;
    }
    let column = Column {
        area: &area,
        at: FIRST,
        stride: STRIDE,
        base: BASE,
        count: values.len(),
    };
    let found = column.find_best_slope();
    u64::from(found.slope) == *slope && u64::from(found.nbits) == *nbits
}

fn product(a: usize, b: usize) -> usize
    requires { (a ≤ 112) × (b ≤ 512) }
    ensures { (result ≡ a * b) × (result ≤ 57344) }
{
    a * b
}

// Whether the bytes stand at PLACE and read as the fields in turn.
fn is_packed(area: &Area, bytes: &[u8], fields: &[u64], widths: Widths) -> bool {
    holds(area, bytes, bytes) && widths.read_back(bytes, fields)
}

fn packs_fields(width: u8, fields: &[u64], bytes: &[u8], area: &mut Area) -> bool
    requires { (width ≤ 56) × (length fields.now ≤ 512) }
{
    let widths = Widths {
        range: width,
        ordinal: width,
    };
    if !widths.fit(fields) {
        return false;
    }
    let len = product(usize::from(width), fields.len()).div_ceil(8);
    let end = PLACE + len;
    pack::pack_fields(&mut area[PLACE..end], fields, width) == len
        && is_packed(area, bytes, fields, widths)
}

pub fn same_fields(numbers: &[u64], bytes: &[u8], area: &mut Area) -> bool {
    match numbers {
        [width @ ..=56, count @ ..=512, fields @ ..] if *count == fields.len() as u64 => {
            packs_fields(*width as u8, fields, bytes, area)
        }
        _ => false,
    }
}

pub fn same_read(numbers: &[u64], bytes: &[u8]) -> bool {
    match *numbers {
        [at, width @ ..=56, value] => pack::reads(bytes, at as usize, width as u8, value),
        _ => false,
    }
}

fn packs_group(widths: Widths, count: usize, fields: &[u64], bytes: &[u8], area: &mut Area) -> bool
    requires { (count ≤ 255) × (length fields.now ≡ 2 * count + 1) }
{
    if !widths.fit(fields) {
        return false;
    }
    let range = usize::from(widths.range);
    let ordinal = usize::from(widths.ordinal);
    let len = (product(range + ordinal, count) + range).div_ceil(8);
    let end = PLACE + len;
    widths.pack_group(&mut area[PLACE..end], fields, count) == len
        && is_packed(area, bytes, fields, widths)
}

pub fn same_group(numbers: &[u64], bytes: &[u8], area: &mut Area) -> bool {
    match numbers {
        [range @ ..=56, ordinal @ ..=56, count @ ..=255, fields @ ..]
            if fields.len() as u64 == 2 * *count + 1 => {
            let widths = Widths {
                range: *range as u8,
                ordinal: *ordinal as u8,
            };
            packs_group(widths, *count as usize, fields, bytes, area)
        }
        _ => false,
    }
}

// How many bytes of `short` differ from those of `long`.
fn changes(short: &[u8], long: &[u8]) -> usize {
    short.iter().zip(long).filter(|(x, y)| *x != *y).count()
}

pub fn same_shortened(left: &[u8], right: &[u8], short: &[u8], area: &mut Area) -> bool {
    let len = left.len();
    if len > 4096 || !keys::lt(left, right) || keys::lt(right, left) {
        return false;
    }
    let key = &mut area[PLACE..PLACE + len];
    key.copy_from_slice(left);
    keys::find_shorter_str_in_between(key, right) == short.len()
        && holds(area, short, left)
        && changes(short, left) <= 1
}

pub fn same_prefix(numbers: &[u64], left: &[u8], right: &[u8]) -> bool {
    let len = keys::common_prefix_len(left, right);
    numbers == [len as u64].as_slice() && left.get(..len) == Some(keys::common_prefix(left, right))
}
