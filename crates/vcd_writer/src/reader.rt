//! Reading a wave text line by line.
ghost use Rattle.std.specs.Prelude.{◌≡◌, ◌<◌, ◌+◌, ◌^◌, length, IfOk};
ghost use Rattle.wave_model.specs.Reads.{Begin, after_line, at_end, wave_of};
ghost use Rattle.vcd_writer.specs.Takes.{GivesWave, Takes};

use crate::place::{Place, place_after};
use crate::read_wave::ReadWave;
use crate::wave_error::{WaveError, fault};
use std::alloc::{AllocError, Global};
use std::marker::Model;
use wave_model::WaveKind;
use xs_text::Lines;

/// The wave of a text of fewer than 2^32 bytes. A fault comes exactly at the first line with which no wave text goes on, or at the line after
/// the last where the text ends early; want of memory may come in place of any answer. See docs/WAVES.md.
#[tactic(auto, unfolding(wave_model::specs::Reads::wave_from))]
pub(crate) fn read_wave(alloc: Global, text: &[u8]) -> Result<ReadWave, WaveError>
    requires { length text.now < 2 ^ 32 }
    ensures { GivesWave (wave_of text.now) result }
{
    let mut reader = Reader::new(alloc);
    let mut lines = Lines::new(text);
    let mut last: u32 = 0;
    while let Some(line) = lines.next_line() {
        last = line.number;
        if !reader.take(alloc, &text[line.from..line.to])? {
            return Err(fault(last, WaveKind::BadLine));
        }
    }
    reader.end(last)
}

// What has been read of a wave text. Contracts see the `Reading` of `Rattle.wave_model.specs.Reads`.
#[derive(Drop)]
struct Reader {
    wave: ReadWave,
    place: Place,
}

impl Model for Reader {
    ghost use Rattle.wave_model.specs.Reads.{Reading};
    ghost use Rattle.vcd_writer.specs.Takes.{IsWaveAt, reading_of};

    ghost Value = { Reading };

    ghost view = { λ r. reading_of r.wave r.place };

    ghost invariant = { λ r. IsWaveAt r.wave r.place };
}

impl Reader {
    // Before the first line.
    fn new(alloc: Global) -> Reader
        ensures { result ≡ Begin }
    {
        Reader {
            wave: ReadWave::new(alloc),
            place: Place::Begin,
        }
    }

    // Takes a line, if the text goes on with it. The error is want of memory.
    fn take(&mut self, alloc: Global, line: &[u8]) -> Result<bool, AllocError>
        ensures { IfOk result (λ taken. Takes (after_line self.old line.now) taken self.new) }
    {
        match place_after(alloc, &mut self.wave, self.place, line)? {
            None => Ok(false),
            Some(next) => {
                self.place = next;
                Ok(true)
            }
        }
    }

    // The wave, where the text ends after a line.
    fn end(self, last: u32) -> Result<ReadWave, WaveError>
        ensures { GivesWave (at_end (last + 1) self) result }
    {
        if let Place::Changes(0) = self.place {
            return Ok(self.wave);
        }
        match last.checked_add(1) {
            Some(next) => Err(fault(next, WaveKind::BadLine)),
            // After 2^32 - 1 lines the next one has no number.
            None => Err(WaveError::Memory),
        }
    }
}
