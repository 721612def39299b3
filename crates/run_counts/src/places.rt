//! `PlaceCounts`, what is counted at the instructions of a node.
ghost use Rattle.std.specs.Prelude.{◌≡◌, ◌≤◌, length, replicate, IfOk};
ghost use Rattle.profile_model.specs.Counts.{place_of, is_one_of};
ghost use Rattle.run_counts.specs.Tallies.{HasPlaces, IsPlace, HasPlaceRoom, CountsPlace, AreNoPlaces};

use crate::counting::count_if;
use profile_model::{ISSUES, PAUSES, WAITS};
use std::alloc::{AllocError, Global};
use xs_base::numbers::CODE_START;
use xs_instructions::Image;

/// What is counted at the places of a code, and at that past the last one, for threads that are where no instruction stands.
#[derive(Drop)]
pub struct PlaceCounts {
    /// How often a thread issued there.
    pub issues: Vec<u64>,
    /// How often it paused then.
    pub pauses: Vec<u64>,
    /// In how many slots, of all threads together, it waited there: it was paused, or at sync.
    pub waits: Vec<u64>,
}

impl PlaceCounts {
    /// Nothing, at so many places. The error is want of memory.
    pub(crate) fn new(alloc: Global, places: usize) -> Result<PlaceCounts, AllocError>
        ensures none { IfOk result (λ counts. AreNoPlaces counts) }
        ensures places { IfOk result (λ counts. HasPlaces counts places) }
    {
        Ok(PlaceCounts {
            issues: zeros(alloc, places)?,
            pauses: zeros(alloc, places)?,
            waits: zeros(alloc, places)?,
        })
    }

    /// Counts a slot of a thread that is at a place, and that a chart shows by a character.
    pub(crate) fn count(&mut self, place: usize, c: u8)
        requires place { IsPlace self.old place }
        requires room { HasPlaceRoom self.old place }
        ensures counted { CountsPlace place c self.old self.new }
    {
        count_if(&mut self.issues, place, is_one_of(&ISSUES, c));
        count_if(&mut self.pauses, place, is_one_of(&PAUSES, c));
        count_if(&mut self.waits, place, is_one_of(&WAITS, c));
    }
}

// So many zeros. The error is want of memory.
fn zeros(alloc: Global, count: usize) -> Result<Vec<u64>, AllocError>
    ensures { IfOk result (λ zeros. zeros.items ≡ replicate count 0) }
{
    let mut zeros = Vec::new(alloc);
    for _ in 0..count {
        zeros.push(0)?;
    }
    Ok(zeros)
}

fn is_one_of(chars: &[u8], c: u8) -> bool
    ensures { result ≡ is_one_of chars.now c }
{
    chars.contains(&c)
}

/// The place of the instruction at an address, counted from 0: that past the last one where none stands there.
pub(crate) fn place_of(image: &Image, pc: u32) -> usize
    ensures value { result ≡ place_of image.now.code pc }
    ensures within { result ≤ length image.now.code }
{
    let count = image.code().len();
    if pc < CODE_START || (pc - CODE_START) % 4 != 0 {
        return count;
    }
    let place = ((pc - CODE_START) / 4) as usize;
    if place < count { place } else { count }
}
