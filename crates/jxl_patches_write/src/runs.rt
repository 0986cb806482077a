//! Rectangles, each with the places where it is put.

ghost use Rattle.std.specs.Prelude.{◌≡◌, ℕ, ◌+◌, ◌-◌, ◌<◌, ◌≤◌, ◌^◌, take, get_or, length, IfOk, IsTrue};
ghost use Rattle.std.specs.List.{All};
ghost use Rattle.jxl_patches.specs.Patches.{nowhere};
ghost use Rattle.jxl_patches_write.specs.Written.{IsWritable};
ghost use Rattle.jxl_patches_write.specs.Inner.Given.{AddsTokens, HaveSource, IsNthPlace, GivePlaces, GiveRectangle, GiveRectangles};

use crate::coordinates::coded;
use crate::tokens::{COUNTS, add_place, add_source};
use jxl_patches::dictionary::{Place, Rectangle};
use jxlm_bit_writer::token::Token;
use std::alloc::AllocError;

/// Whether two rectangles are the same.
fn are_same(a: Rectangle, b: Rectangle) -> bool
    ensures { IsTrue result → a ≡ b }
{
    if a.slot != b.slot || a.x0 != b.x0 || a.y0 != b.y0 {
        return false;
    }
    a.width == b.width && a.height == b.height
}

/// How many of these places, from the first on, have its rectangle.
fn run_of(places: &[Place]) -> usize
    requires { 0 < length places.now }
    ensures some { 0 < result }
    ensures inside { result ≤ length places.now }
    ensures same { (k : ℕ) → k < result
        → (get_or places.now k nowhere).source ≡ (get_or places.now 0 nowhere).source }
{
    let first = places[0].source;
    for n in 1..places.len() {
        if !are_same(places[n].source, first) {
            return n;
        }
    }
    places.len()
}

/// Adds the tokens of a place of a run, with this number of modes.
fn add_nth(tokens: &mut Vec<Token>, run: &[Place], n: usize, kinds: usize) -> Result<(), AllocError>
    requires inside { n < length run.now }
    requires writable { All IsWritable run.now }
    ensures { IfOk result (λ _. AddsTokens tokens.old.items tokens.new.items (IsNthPlace run.now n kinds)) }
{
    let place = run[n];
    let before = run[n.saturating_sub(1)];
    let x = coded(n > 0, before.x, place.x);
    let y = coded(n > 0, before.y, place.y);
    add_place(tokens, n > 0, x, y, kinds)?;
    Ok(())
}

/// Adds the tokens of the places of a rectangle, with this number of modes each.
fn add_places(tokens: &mut Vec<Token>, run: &[Place], kinds: usize) -> Result<(), AllocError>
    requires writable { All IsWritable run.now }
    requires same { HaveSource run.now }
    ensures { IfOk result (λ _. AddsTokens tokens.old.items tokens.new.items
        (GivePlaces kinds (get_or run.now 0 nowhere).source (length run.now) run.now)) }
{
    for n in 0..run.len() {
        add_nth(tokens, run, n, kinds)?;
    }
    Ok(())
}

/// The first place of a run.
fn first_of(run: &[Place]) -> Place
    requires some { 0 < length run.now }
    requires writable { All IsWritable run.now }
    ensures is { result ≡ get_or run.now 0 nowhere }
    ensures writable { IsWritable result }
{
    run[0]
}

/// How many places a run has after the first.
fn later_count(run: &[Place]) -> u32
    requires some { 0 < length run.now }
    requires few { length run.now < 2 ^ 31 }
    ensures { result ≡ length run.now - 1 }
{
    (run.len() - 1) as u32
}

/// Adds the tokens of a rectangle and its places, with this number of modes each.
fn add_run(tokens: &mut Vec<Token>, run: &[Place], kinds: usize) -> Result<(), AllocError>
    requires some { 0 < length run.now }
    requires few { length run.now < 2 ^ 31 }
    requires writable { All IsWritable run.now }
    requires same { HaveSource run.now }
    ensures { IfOk result (λ _. AddsTokens tokens.old.items tokens.new.items (GiveRectangle kinds run.now)) }
{
    let first = first_of(run);
    let value = later_count(run);
    add_source(tokens, first.source)?;
    tokens.push(Token {
        cluster: COUNTS,
        value,
    })?;
    add_places(tokens, run, kinds)?;
    Ok(())
}

/// Adds the tokens of the first rectangle of these places. Returns the number of its places.
fn add_first(tokens: &mut Vec<Token>, places: &[Place], kinds: usize) -> Result<usize, AllocError>
    requires some { 0 < length places.now }
    requires few { length places.now < 2 ^ 31 }
    requires writable { All IsWritable places.now }
    ensures some { IfOk result (λ n. 0 < n) }
    ensures inside { IfOk result (λ n. n ≤ length places.now) }
    ensures read_as { IfOk result (λ n. AddsTokens tokens.old.items tokens.new.items
        (GiveRectangle kinds (take n places.now))) }
{
    let count = run_of(places);
    add_run(tokens, &places[..count], kinds)?;
    Ok(count)
}

/// Adds the tokens of the rectangles of these places, with this number of modes each. Returns the number of rectangles.
pub(crate) fn add_rectangles(
    tokens: &mut Vec<Token>,
    places: &[Place],
    kinds: usize,
) -> Result<u32, AllocError>
    requires few { length places.now < 2 ^ 31 }
    requires writable { All IsWritable places.now }
    ensures few { IfOk result (λ n. n ≤ length places.now) }
    ensures read_as { IfOk result (λ n. AddsTokens tokens.old.items tokens.new.items
        (GiveRectangles kinds n places.now places.now)) }
{
    let mut start = 0;
    let mut count = 0;
    for _ in 0..places.len() {
        if start >= places.len() {
            return Ok(count);
        }
        start += add_first(tokens, &places[start..], kinds)?;
        count += 1;
    }
    Ok(count)
}
