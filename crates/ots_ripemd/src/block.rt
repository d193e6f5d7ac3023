//! The compression function: what one block of 64 bytes makes of the five chaining words.

ghost use Rattle.std.specs.Prelude.{◌≡◌, ◌+◌, ◌<◌, ◌≤◌, length, take, drop};
ghost use Rattle.std.specs.Int.{from_le_bytes, w32};
ghost use Rattle.ots_ripemd.specs.Ripemd160.{after, compressed, left, right, stepped, words};
ghost use Rattle.ots_ripemd.specs.Rounds.{step_of, steps_of};
ghost use Rattle.ots_ripemd.specs.declared.block.Words.{Words};

use crate::rounds::{LEFT, RIGHT, Round};

/// The chaining words h0 to h4, or the words A to E of a line.
#[derive(Clone, Copy)]
pub struct Words {
    pub a: u32,
    pub b: u32,
    pub c: u32,
    pub d: u32,
    pub e: u32,
}

/// Step `j` of a round. The function comes last in the sum, since it waits for the step before.
#[inline(always)]
fn step(round: &Round, j: usize, x: &[u32; 16], v: Words) -> Words
    requires { j < 16 }
    ensures { result ≡ stepped x.now v (step_of round.now j) }
{
    let sum = v
        .a
        .wrapping_add(x[round.places[j]])
        .wrapping_add(round.constant)
        .wrapping_add(round.function.of(v.b, v.c, v.d));
    Words {
        a: v.e,
        b: sum.rotate_left(round.turns[j]).wrapping_add(v.e),
        c: v.b,
        d: v.c.rotate_left(10),
        e: v.d,
    }
}

/// Steps `j` to `j + 3`, after the steps before them from `h` on.
#[inline(always)]
fn four_steps(round: &Round, j: usize, x: &[u32; 16], v: Words) -> Words
    requires { j + 4 ≤ 16 }
    ensures { (h : Words) → v ≡ after x.now (take j (steps_of round.now)) h
        → result ≡ after x.now (take (j + 4) (steps_of round.now)) h }
{
    let v = step(round, j, x, v);
    let v = step(round, j + 1, x, v);
    let v = step(round, j + 2, x, v);
    step(round, j + 3, x, v)
}

#[inline(always)]
fn sixteen_steps(round: &Round, x: &[u32; 16], v: Words) -> Words
    ensures { result ≡ after x.now (steps_of round.now) v }
{
    let first = four_steps(round, 0, x, v);
    let second = four_steps(round, 4, x, first);
    let third = four_steps(round, 8, x, second);
    four_steps(round, 12, x, third)
}

/// A line is one function without a loop, so that LLVM sees each place, turn and constant of its
/// tables. One for both lines would be too large for its calls to be inlined.
fn left_line(x: &[u32; 16], h: Words) -> Words
    ensures { result ≡ after x.now left h }
{
    let first = sixteen_steps(&LEFT.first, x, h);
    let second = sixteen_steps(&LEFT.second, x, first);
    let third = sixteen_steps(&LEFT.third, x, second);
    let fourth = sixteen_steps(&LEFT.fourth, x, third);
    sixteen_steps(&LEFT.fifth, x, fourth)
}

fn right_line(x: &[u32; 16], h: Words) -> Words
    ensures { result ≡ after x.now right h }
{
    let first = sixteen_steps(&RIGHT.first, x, h);
    let second = sixteen_steps(&RIGHT.second, x, first);
    let third = sixteen_steps(&RIGHT.third, x, second);
    let fourth = sixteen_steps(&RIGHT.fourth, x, third);
    sixteen_steps(&RIGHT.fifth, x, fourth)
}

/// The word at byte `i` of a block.
fn word_at(block: &[u8], i: usize) -> u32
    requires { i + 4 ≤ length block.now }
    ensures { result ≡ from_le_bytes w32 (take 4 (drop i block.now)) }
{
    u32::from_le_bytes([block[i], block[i + 1], block[i + 2], block[i + 3]])
}

fn words_of(block: &[u8]) -> [u32; 16]
    requires { length block.now ≡ 64 }
    ensures { result ≡ words block.now }
{
    let mut x = [0; 16];
    for i in 0..16 {
        x[i] = word_at(block, 4 * i);
    }
    x
}

/// The chaining words after one more block, which has 64 bytes.
pub fn compress(h: Words, block: &[u8]) -> Words
    requires { length block.now ≡ 64 }
    ensures { result ≡ compressed h (words block.now) }
{
    let x = words_of(block);
    let left = left_line(&x, h);
    let right = right_line(&x, h);
    Words {
        a: h.b.wrapping_add(left.c).wrapping_add(right.d),
        b: h.c.wrapping_add(left.d).wrapping_add(right.e),
        c: h.d.wrapping_add(left.e).wrapping_add(right.a),
        d: h.e.wrapping_add(left.a).wrapping_add(right.b),
        e: h.a.wrapping_add(left.b).wrapping_add(right.c),
    }
}
