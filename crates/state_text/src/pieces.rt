//! Pieces that lines are put together from.
ghost use Rattle.std.specs.Prelude.{◌≡◌, ◌++◌, ℕ, List, OnOk};
ghost use Rattle.std.specs.List.{flat_map};
ghost use Rattle.look_model.specs.Network.{input_name};
ghost use Rattle.state_text.specs.PieceTexts.{piece_text, pieces_text, pieces_before};

use decimal_text::append_decimal;
use line_text::append_hex_word;
use look_words::{
    append_chan_name, append_lock_name, append_sync_name, append_thread_name, append_timer_name,
};
use std::alloc::AllocError;
use xs_base::Text;
use xs_base::numbers::LINK_ENDS;

/// A piece of a line.
#[derive(Clone, Copy)]
pub(crate) enum Piece<'a> {
    /// These bytes.
    Words(&'a [u8]),
    /// A number in decimal.
    Number(u64),
    /// A word: `0x` and eight hex digits.
    Hex(u32),
    /// `tK`.
    Thread(u8),
    /// `channel end ID`, of the node with an id.
    Chan { id: u16, chan: u8 },
    /// `timer ID`.
    Timer(u8),
    /// `synchroniser ID`.
    Sync(u8),
    /// `lock ID`.
    Lock(u8),
    /// `link E`, or `channel end ID`: an input of the switch of the node with an id.
    Input { id: u16, input: u8 },
}

/// Puts pieces at the end, one behind the other. Where more is appended, the whole is these pieces and then that. The error is want of
/// memory, here and in all of this crate.
pub(crate) fn append_pieces(out: &mut Text, pieces: &[Piece]) -> Result<(), AllocError>
    ensures text { OnOk result (out.new ≡ out.old ++ pieces_text pieces.now) }
    ensures before { OnOk result ((rest : List ℕ) → out.new ++ rest ≡ out.old ++ pieces_before pieces.now rest) }
{
    append_each(out, pieces)?;
    Ok(())
}

fn append_each(out: &mut Text, pieces: &[Piece]) -> Result<(), AllocError>
    ensures { OnOk result (out.new ≡ out.old ++ flat_map piece_text pieces.now) }
{
    for piece in pieces {
        append_piece(out, *piece)?;
    }
    Ok(())
}

fn append_piece(out: &mut Text, piece: Piece) -> Result<(), AllocError>
    ensures { OnOk result (out.new ≡ out.old ++ piece_text piece.entry) }
{
    match piece {
        Piece::Words(words) => out.append(words),
        Piece::Number(n) => append_decimal(out, n),
        Piece::Hex(word) => append_hex_word(out, word),
        Piece::Thread(k) => append_thread_name(out, k),
        Piece::Chan { id, chan } => append_chan_name(out, id, chan),
        Piece::Timer(n) => append_timer_name(out, n),
        Piece::Sync(n) => append_sync_name(out, n),
        Piece::Lock(n) => append_lock_name(out, n),
        Piece::Input { id, input } => append_input_name(out, id, input),
    }
}

fn append_input_name(out: &mut Text, id: u16, i: u8) -> Result<(), AllocError>
    ensures { OnOk result (out.new ≡ out.old ++ input_name id i) }
{
    if i < LINK_ENDS {
        out.append(b"link ")?;
        append_decimal(out, u64::from(i))
    } else {
        append_chan_name(out, id, i - LINK_ENDS)
    }
}
