//! The lines of a load.
ghost use Rattle.std.specs.Prelude.{◌≡◌, ◌<◌, ◌++◌, [], ◌∷◌, OnOk, decimal};
ghost use Rattle.load_model.specs.Load.{bit_text, data_text, link_line, link_text, node_text, program, node_section, source_text, destination_at, text_of_lines, first_word_at};

use crate::ring;
use decimal_text::append_decimal;
use line_text::append_hex_word;
use std::alloc::AllocError;
use xs_base::Text;

/// `node I id I`.
pub(crate) fn append_node(out: &mut Text, i: u32) -> Result<(), AllocError>
    ensures { OnOk result (out.new ≡ out.old ++ (node_text i ++ (10 ∷ []))) }
{
    out.append(b"node ")?;
    append_number(out, i)?;
    out.append(b" id ")?;
    append_number(out, i)?;
    out.append(b"\n")
}

/// `link I:0 J:1 delay D gap G`.
pub(crate) fn append_link(out: &mut Text, number: u32, i: u32) -> Result<(), AllocError>
    requires node { i < 16 }
    ensures { OnOk result (out.new ≡ out.old ++ (link_text number i ++ (10 ∷ []))) }
{
    let next = ring::next_node(number, i);
    let delay = ring::delay_at(number, i);
    let gap = ring::gap_at(i);
    append_link_line(out, i, next, delay, gap)?;
    out.append(b"\n")
}

// The line of a link between two nodes, without its end.
fn append_link_line(out: &mut Text, i: u32, j: u32, delay: u32, gap: u32) -> Result<(), AllocError>
    ensures { OnOk result (out.new ≡ out.old ++ link_line i j delay gap) }
{
    out.append(b"link ")?;
    append_number(out, i)?;
    out.append(b":0 ")?;
    append_number(out, j)?;
    out.append(b":1 delay ")?;
    append_number(out, delay)?;
    out.append(b" gap ")?;
    append_number(out, gap)
}

/// `bit I B 0`.
pub(crate) fn append_bit(out: &mut Text, number: u32, i: u32) -> Result<(), AllocError>
    requires node { i < 16 }
    ensures { OnOk result (out.new ≡ out.old ++ (bit_text number i ++ (10 ∷ []))) }
{
    out.append(b"bit ")?;
    append_number(out, i)?;
    out.append(b" ")?;
    append_number(out, ring::route_bit_at(number, i))?;
    out.append(b" 0\n")
}

/// The section of node i's source.
pub(crate) fn append_section(out: &mut Text, number: u32, i: u32) -> Result<(), AllocError>
    requires node { i < 16 }
    ensures { OnOk result (out.new ≡ out.old ++ text_of_lines (node_section number i)) }
{
    append_source_line(out, i)?;
    out.append(program_text())?;
    append_data(
        out,
        ring::destination_at(number, i),
        ring::first_word_at(number, i),
    )?;
    out.append(b"end\n")
}

// `source I`.
fn append_source_line(out: &mut Text, i: u32) -> Result<(), AllocError>
    ensures { OnOk result (out.new ≡ out.old ++ (source_text i ++ (10 ∷ []))) }
{
    out.append(b"source ")?;
    append_number(out, i)?;
    out.append(b"\n")
}

const PROGRAM: &[u8] = b"main:
  getr r0, 2
  ldw r1, dp[0]
  setd res[r0], r1
  ldw r2, dp[1]
  ldw r3, dp[2]
  ldw r4, dp[3]
  ldw r5, dp[4]
loop:
  out res[r0], r2
  outct res[r0], 1
  in r6, res[r0]
  chkct res[r0], 1
  add r7, r7, r6
  mul r2, r2, r4
  add r2, r2, r5
  sub r3, r3, 1
  bt r3, loop
  stw r7, dp[5]
  freet
.data
";

// What all sources have in common.
fn program_text() -> &'static [u8]
    ensures { result.now ≡ text_of_lines program }
{
    PROGRAM
}

// The line of data with these two words.
fn append_data(out: &mut Text, destination: u32, first: u32) -> Result<(), AllocError>
    ensures { OnOk result (out.new ≡ out.old ++ (data_text destination first ++ (10 ∷ []))) }
{
    append_data_text(out, destination, first)?;
    out.append(b"\n")
}

// The line without its end.
fn append_data_text(out: &mut Text, destination: u32, first: u32) -> Result<(), AllocError>
    ensures { OnOk result (out.new ≡ out.old ++ data_text destination first) }
{
    out.append(b"  .word ")?;
    append_hex_word(out, destination)?;
    out.append(b", ")?;
    append_hex_word(out, first)?;
    out.append(b", 200, 1664525, 1013904223")?;
    Ok(())
}

// A number in decimal.
fn append_number(out: &mut Text, n: u32) -> Result<(), AllocError>
    ensures { OnOk result (out.new ≡ out.old ++ decimal n) }
{
    append_decimal(out, u64::from(n))
}
