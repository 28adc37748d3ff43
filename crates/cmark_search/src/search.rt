//! Searches for the first byte of a set, sixteen bytes a step. They are made for short distances: a line has some sixty bytes.

ghost use Rattle.std.specs.Prelude.{◌≡◌, ◌||◌, ◌+◌, ◌<◌, ◌≤◌, if◌then◌else◌, ℕ, Bool, List, ◌++◌, None, IfSome, true, false, length, map, drop, replicate, take, slice_index, slice_index_or};
ghost use Rattle.std.specs.List.{position_or_len};
ghost use Rattle.std.specs.Simd.Lanes.{mask_l};
ghost use Rattle.memchr.specs.Find.{IsFirstByte, is_byte, is_byte2};
ghost use Rattle.cmark_search.specs.Sets.{in_rows, in_keys, row_of};

use std::marker::Model;
use std::simd::prelude::*;

/// The keys of the set that has the backtick alone.
const BACKTICKS: &[u8; 16] = &[96, 0, 0, 0, 0, 0, 0, 0, 0, 0, 0, 0, 0, 0, 0, 0];

/// The keys of the set that has the pipe alone. The key 1 at index 0 matches nothing, since the low digit of the byte 1 is not 0.
const PIPES: &[u8; 16] = &[1, 0, 0, 0, 0, 0, 0, 0, 0, 0, 0, 0, 124, 0, 0, 0];

/// The keys of the set of line feed and carriage return. The key 1 at index 0 matches nothing, since the low digit of the byte 1 is not 0.
const LINE_ENDS: &[u8; 16] = &[1, 0, 0, 0, 0, 0, 0, 0, 0, 0, 10, 0, 0, 13, 0, 0];

/// Bit `n` alone for `n` below 8, and no bit for the others.
const BITS: &[u8; 16] = &[1, 2, 4, 8, 16, 32, 64, 128, 0, 0, 0, 0, 0, 0, 0, 0];

/// The keys of the set of ampersand and backslash. The key 1 at index 0 matches nothing, since the low digit of the byte 1 is not 0.
const ESCAPES: &[u8; 16] = &[1, 0, 0, 0, 0, 0, 38, 0, 0, 0, 0, 0, 92, 0, 0, 0];

/// A set of ASCII bytes. Bit `high` of row `low` says whether the byte `16 * high + low` is in the set. A contract sees the
/// sixteen rows.
#[derive(Clone, Copy)]
pub struct AsciiSet {
    rows: [u8; 16],
}

impl Model for AsciiSet {
    ghost Value = { List ℕ };

    ghost view = { λ set. set.rows };

    ghost inverse = { λ rows. record { rows = rows } };
}

impl AsciiSet {
    /// The set of the ASCII bytes that the table has.
    pub fn new(table: &[bool; 256]) -> AsciiSet
        ensures has { (byte : ℕ) → byte < 128
            → in_rows result byte ≡ slice_index_or table.now byte false }
    {
        let mut rows = [0u8; 16];
        for low in 0..16 {
            rows[low] = row_of(table, low);
        }
        AsciiSet { rows }
    }

    /// The set with these rows.
    #[inline(always)]
    pub fn of_rows(rows: [u8; 16]) -> AsciiSet
        ensures { result ≡ rows }
    {
        AsciiSet { rows }
    }

    /// The bytes of both sets.
    #[inline(always)]
    pub fn union(&self, other: &AsciiSet) -> AsciiSet
        ensures has { (byte : ℕ)
            → in_rows result byte ≡ (in_rows self.now byte || in_rows other.now byte) }
    {
        let rows = u8x16::from_slice(&self.rows) | u8x16::from_slice(&other.rows);
        AsciiSet {
            rows: rows.to_array(),
        }
    }

    /// The offset of the first byte from `from` on and before `to` that is in the set; `to` if there is none.
    ///
    /// A step may load bytes after `to`, which do not count: sixteen bytes that are in memory cost less than a few that have to be copied
    /// together.
    #[inline(always)]
    pub fn find_within(&self, bytes: &[u8], from: usize, to: usize) -> usize
        requires ordered { from ≤ to }
        requires inside { to ≤ length bytes.now }
        ensures value { result
            ≡ from + position_or_len (in_rows self.now) (drop from (take to bytes.now)) }
        ensures within { result ≤ to }
        ensures ascii { result < to → slice_index bytes.now result < 128 }
    {
        find_between(&Rows { rows: &self.rows }, bytes, from, to)
    }
}

/// 1 for true, and 0 for false.
#[inline(always)]
fn one(set: bool) -> u8
    ensures value { result ≡ (if set then 1 else 0) }
    ensures small { result ≤ 1 }
{
    set as u8
}

/// The row of the bytes with this low digit.
fn row_of(table: &[bool; 256], low: usize) -> u8
    requires { low < 16 }
    ensures { result ≡ row_of table.now low }
{
    let upper = one(table[low + 64])
        + 2 * (one(table[low + 80]) + 2 * (one(table[low + 96]) + 2 * one(table[low + 112])));
    let lower = one(table[low + 32]) + 2 * (one(table[low + 48]) + 2 * upper);
    one(table[low]) + 2 * (one(table[low + 16]) + 2 * lower)
}

/// The lanes that are in the set, as bits: bit `k` is lane `k`.
#[inline(always)]
fn marks(rows: &[u8; 16], lanes: u8x16) -> u64
    ensures { result ≡ mask_l (map (in_rows rows.now) lanes) }
{
    let low = u8x16::from_slice(rows).swizzle_dyn(lanes & u8x16::splat(15));
    let high = u8x16::from_slice(BITS).swizzle_dyn(lanes >> u8x16::splat(4));
    (low & high).simd_ne(u8x16::splat(0)).to_bitmask()
}

/// The lanes that are in the set with these keys, as bits: bit `k` is lane `k`. It takes one table look-up, and `AsciiSet` two.
#[inline(always)]
fn marks_of_keys(keys: &[u8; 16], lanes: u8x16) -> u64
    ensures { result ≡ mask_l (map (in_keys keys.now) lanes) }
{
    let sought = u8x16::from_slice(keys).swizzle_dyn(lanes & u8x16::splat(15));
    sought.simd_eq(lanes).to_bitmask()
}

/// A set in which sixteen lanes are looked up at once.
trait LaneSet {
    ghost has: { Self → ℕ → Bool };

    /// The lanes that are in the set, as bits: bit `k` is lane `k`.
    fn marks(&self, lanes: u8x16) -> u64
        ensures { result ≡ mask_l (map (has self.now) lanes) };
}

/// A set given by its rows.
#[derive(Clone, Copy)]
struct Rows<'r> {
    rows: &'r [u8; 16],
}

impl<'r> LaneSet for Rows<'r> {
    ghost has = { λ set. in_rows set.rows.now };

    #[inline(always)]
    fn marks(&self, lanes: u8x16) -> u64 {
        marks(self.rows, lanes)
    }
}

/// A set of bytes with different low digits, given by its keys.
#[derive(Clone, Copy)]
struct Keys<'k> {
    keys: &'k [u8; 16],
}

impl<'k> LaneSet for Keys<'k> {
    ghost has = { λ set. in_keys set.keys.now };

    #[inline(always)]
    fn marks(&self, lanes: u8x16) -> u64 {
        marks_of_keys(self.keys, lanes)
    }
}

/// The index of the first lane that is in the set, if there is one.
#[inline(always)]
fn first_lane<S: LaneSet>(set: &S, lanes: u8x16) -> Option<usize>
    ensures value { IfSome result (λ lane. lane ≡ position_or_len (S.has set.now) lanes) }
    ensures small { IfSome result (λ lane. lane < 16) }
    ensures none { result ≡ None → position_or_len (S.has set.now) lanes ≡ 16 }
{
    let hits = set.marks(lanes);
    if hits == 0 {
        return None;
    }
    Some(hits.trailing_zeros() as usize)
}

/// The number of lanes before the first that is in the set; 16 if no lane is in it.
#[inline(always)]
fn lanes_before<S: LaneSet>(set: &S, lanes: u8x16) -> usize
    ensures value { result ≡ position_or_len (S.has set.now) lanes }
    ensures small { result ≤ 16 }
{
    first_lane(set, lanes).unwrap_or(16)
}

/// The number of bytes before the first that is in the set, among the sixteen bytes from `at` on; `None` if no byte is in it.
#[inline(always)]
fn first_from<S: LaneSet>(set: &S, bytes: &[u8], at: usize) -> Option<usize>
    requires { at + 16 ≤ length bytes.now }
    ensures value { IfSome result
        (λ passed. passed ≡ position_or_len (S.has set.now) (take 16 (drop at bytes.now))) }
    ensures small { IfSome result (λ passed. passed < 16) }
    ensures none { result ≡ None
        → position_or_len (S.has set.now) (take 16 (drop at bytes.now)) ≡ 16 }
{
    first_lane(set, u8x16::from_slice(&bytes[at..]))
}

/// Like `first_from`, but 16 if none of the bytes is in the set.
#[inline(always)]
fn bytes_before<S: LaneSet>(set: &S, bytes: &[u8], at: usize) -> usize
    requires { at + 16 ≤ length bytes.now }
    ensures value { result ≡ position_or_len (S.has set.now) (take 16 (drop at bytes.now)) }
    ensures small { result ≤ 16 }
{
    lanes_before(set, u8x16::from_slice(&bytes[at..]))
}

/// The offset of the first byte that is in the set; the length if there is none. The last step looks at the last sixteen bytes, some of
/// them for the second time.
#[inline(always)]
fn find<S: LaneSet>(set: &S, bytes: &[u8]) -> usize
    ensures value { result ≡ position_or_len (S.has set.now) bytes.now }
    ensures within { result ≤ length bytes.now }
{
    let len = bytes.len();
    if len < 16 {
        return find_in_few(set, bytes);
    }
    let last = len - 16;
    let mut at = 0;
    while at + 16 < last {
        if let Some(passed) = first_from(set, bytes, at) {
            return at + passed;
        }
        if let Some(passed) = first_from(set, bytes, at + 16) {
            return at + 16 + passed;
        }
        at += 32;
    }
    if at < last {
        if let Some(passed) = first_from(set, bytes, at) {
            return at + passed;
        }
    }
    last + bytes_before(set, bytes, last)
}

/// Like `find`, for fewer than sixteen bytes: they are looked at in one step, padded with zeros.
#[inline(always)]
fn find_in_few<S: LaneSet>(set: &S, bytes: &[u8]) -> usize
    requires { length bytes.now < 16 }
    ensures value { result ≡ position_or_len (S.has set.now) bytes.now }
    ensures within { result ≤ length bytes.now }
{
    let lanes = padded(bytes);
    lanes_before(set, u8x16::from_slice(&lanes)).min(bytes.len())
}

/// The bytes, fewer than sixteen, padded with zeros. They are copied in two pieces of a fixed size, which may overlap, since a call that
/// copies any number of bytes costs more.
#[inline(always)]
fn padded(bytes: &[u8]) -> [u8; 16]
    requires { length bytes.now < 16 }
    ensures { result ≡ bytes.now ++ drop (length bytes.now) (replicate 16 0) }
{
    let mut lanes = [0u8; 16];
    if bytes.len() >= 8 {
        copy_ends(&mut lanes, bytes, 8);
    } else if bytes.len() >= 4 {
        copy_ends(&mut lanes, bytes, 4);
    } else if bytes.len() >= 2 {
        copy_ends(&mut lanes, bytes, 2);
    } else if bytes.len() == 1 {
        copy_ends(&mut lanes, bytes, 1);
    }
    lanes
}

/// Copies `bytes` to the start of the lanes: the first `size` of them and the last `size`, which together are all of them.
#[inline(always)]
fn copy_ends(lanes: &mut [u8; 16], bytes: &[u8], size: usize)
    requires size { size ≤ length bytes.now }
    requires all { length bytes.now ≤ size + size }
    requires room { length bytes.now ≤ 16 }
    ensures { lanes.new ≡ bytes.now ++ drop (length bytes.now) lanes.old }
{
    let len = bytes.len();
    lanes[..size].copy_from_slice(&bytes[..size]);
    lanes[len - size..len].copy_from_slice(&bytes[len - size..]);
}

/// The offset of the first byte from `from` on and before `to` that is in the set; `to` if there is none. Each step looks at sixteen bytes,
/// as long as there are sixteen; some of them may be after `to`.
#[inline(always)]
fn find_between<S: LaneSet>(set: &S, bytes: &[u8], from: usize, to: usize) -> usize
    requires ordered { from ≤ to }
    requires inside { to ≤ length bytes.now }
    ensures value { result
        ≡ from + position_or_len (S.has set.now) (drop from (take to bytes.now)) }
    ensures before { from ≤ result }
    ensures within { result ≤ to }
    ensures here { result < to → S.has set.now (slice_index bytes.now result) ≡ true }
{
    // From each offset below `whole` on there are sixteen bytes.
    let whole = to.min(bytes.len().saturating_sub(15));
    let mut at = from;
    while at < whole {
        if let Some(passed) = first_from(set, bytes, at) {
            return to.min(at + passed);
        }
        at += 16;
    }
    if at < to {
        return at + find_in_few(set, &bytes[at..to]);
    }
    to
}

/// The offset of the first byte that is in the set with these keys. A byte is in the set if it equals the key at its low digit.
#[inline(always)]
pub fn find_first(keys: &[u8; 16], bytes: &[u8]) -> Option<usize>
    ensures { IsFirstByte (in_keys keys.now) bytes.now result }
{
    let at = find(&Keys { keys }, bytes);
    if at < bytes.len() { Some(at) } else { None }
}

/// Like `find_first`, for the bytes before `to`. A step may load bytes after `to`; they do not count.
#[inline(always)]
pub fn find_first_within(keys: &[u8; 16], bytes: &[u8], to: usize) -> Option<usize>
    requires { to ≤ length bytes.now }
    ensures { IsFirstByte (in_keys keys.now) (take to bytes.now) result }
{
    let at = find_between(&Keys { keys }, bytes, 0, to);
    if at < to { Some(at) } else { None }
}

/// The offset of the first backtick.
#[inline]
pub fn find_backtick(bytes: &[u8]) -> Option<usize>
    ensures { IsFirstByte (is_byte 96) bytes.now result }
{
    find_first(BACKTICKS, bytes)
}

/// The offset of the first pipe.
#[inline]
pub fn find_pipe(bytes: &[u8]) -> Option<usize>
    ensures { IsFirstByte (is_byte 124) bytes.now result }
{
    find_first(PIPES, bytes)
}

/// The offset of the first line feed or carriage return.
#[inline]
pub fn find_line_end(bytes: &[u8]) -> Option<usize>
    ensures { IsFirstByte (is_byte2 10 13) bytes.now result }
{
    find_first(LINE_ENDS, bytes)
}

/// Like `find_line_end`, for the bytes before `to`. A step may load bytes after `to`; they do not count.
#[inline(always)]
pub fn find_line_end_within(bytes: &[u8], to: usize) -> Option<usize>
    requires { to ≤ length bytes.now }
    ensures { IsFirstByte (is_byte2 10 13) (take to bytes.now) result }
{
    find_first_within(LINE_ENDS, bytes, to)
}

/// The offset of the first ampersand or backslash, with which an entity or an escape begins.
#[inline]
pub fn find_escape(bytes: &[u8]) -> Option<usize>
    ensures { IsFirstByte (is_byte2 38 92) bytes.now result }
{
    find_first(ESCAPES, bytes)
}
