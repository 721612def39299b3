//! What threads and resources are called.
ghost use Rattle.std.specs.Prelude.{◌≡◌, ◌++◌, codes, OnOk};
ghost use Rattle.look_model.specs.Resources.{chan_name, timer_name, sync_name, lock_name};
ghost use Rattle.look_model.specs.Waits.{thread_name};

use decimal_text::append_decimal;
use line_text::append_hex_word;
use std::alloc::AllocError;
use xs_base::numbers::{LOCK_KIND, SYNCHRONISER_KIND, TIMER_KIND};
use xs_base::{Text, chan_id, res_id};

/// `tK`. The error is want of memory, here and below.
pub fn append_thread_name(out: &mut Text, k: u8) -> Result<(), AllocError>
    ensures { OnOk result (out.new ≡ out.old ++ thread_name k) }
{
    out.append(b"t")?;
    append_decimal(out, u64::from(k))
}

/// `channel end ID`, of the node with this id.
pub fn append_chan_name(out: &mut Text, id: u16, c: u8) -> Result<(), AllocError>
    ensures { OnOk result (out.new ≡ out.old ++ chan_name id c) }
{
    out.append(channel_end())?;
    append_hex_word(out, chan_id(id, c))
}

/// `timer ID`.
pub fn append_timer_name(out: &mut Text, n: u8) -> Result<(), AllocError>
    ensures { OnOk result (out.new ≡ out.old ++ timer_name n) }
{
    out.append(b"timer ")?;
    append_hex_word(out, res_id(n, TIMER_KIND))
}

/// `synchroniser ID`.
pub fn append_sync_name(out: &mut Text, n: u8) -> Result<(), AllocError>
    ensures { OnOk result (out.new ≡ out.old ++ sync_name n) }
{
    out.append(synchroniser())?;
    append_hex_word(out, res_id(n, SYNCHRONISER_KIND))
}

/// `lock ID`.
pub fn append_lock_name(out: &mut Text, n: u8) -> Result<(), AllocError>
    ensures { OnOk result (out.new ≡ out.old ++ lock_name n) }
{
    out.append(b"lock ")?;
    append_hex_word(out, res_id(n, LOCK_KIND))
}

fn channel_end() -> &'static [u8]
    ensures { result.now ≡ codes "channel end " }
{
    b"channel end "
}

fn synchroniser() -> &'static [u8]
    ensures { result.now ≡ codes "synchroniser " }
{
    b"synchroniser "
}
