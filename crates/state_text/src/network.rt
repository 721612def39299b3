//! What the network of a node holds.
ghost use Rattle.std.specs.Prelude.{◌≡◌, ◌<◌, ◌++◌, Option, OnOk, length, slice_get, codes, decimal};
ghost use Rattle.std.specs.List.{list_any};
ghost use Rattle.net_model.specs.Switch.{ends_packet};
ghost use Rattle.trace_model.specs.Trace.{by_position, number_at};
ghost use Rattle.look_model.specs.Network.{other_end, to_text, has_tokens, end_text, end_line};
ghost use Rattle.look_model.specs.Network.{holds_tokens, held_text, chan_text, chan_line};
ghost use Rattle.look_model.specs.Network.{buffer_count, buffer_tokens, output_tokens, tokens_at, ending_text, input_text, is_idle, input_line};

use crate::phrases::{
    a_packet_into, a_packet_to, looks_for_a_way, lost_packet, to_be_taken, tokens_wait,
    tokens_wait_and, without_credit,
};
use crate::pieces::Piece::{Input, Number, Words};
use crate::pieces::append_pieces;
use chan_ends::ChanState;
use core_step::NodeState;
use decimal_text::append_decimal;
use line_text::append_hex_word;
use link_ends::EndState;
use look_words::append_chan_name;
use std::alloc::AllocError;
use switch_routes::InputState;
use sys_plan::{LinkPlan, NodePlan, Plan};
use xs_base::numbers::{END, LINK_ENDS, PAUSE};
use xs_base::{Text, Token};

// ---- Link ends

/// The node, by position, and the link end at the other end of the link that a link end is in.
pub(crate) fn other_end(links: &[LinkPlan], node: u8, end: u8) -> Option<(u8, u8)>
    ensures { result ≡ other_end links.now node end }
{
    for link in links {
        if link.a == node && link.a_end == end {
            return Some((link.b, link.b_end));
        }
        if link.b == node && link.b_end == end {
            return Some((link.a, link.a_end));
        }
    }
    None
}

/// The lines of the link ends of the node at a position. The error is want of memory.
#[tactic(auto, unfolding(trace_model::specs::Trace::by_position))]
pub(crate) fn append_ends(
    out: &mut Text,
    plan: &Plan,
    n: u8,
    node: &NodePlan,
    ends: &[EndState; 8],
) -> Result<(), AllocError>
    ensures { OnOk result (out.new ≡ out.old ++ by_position (end_line plan.now n node.now) 0 ends.now) }
{
    for e in 0..8u8 {
        append_end(out, plan, n, node, e, &ends[e as usize])?;
    }
    Ok(())
}

// The line of a link end, where something is there.
fn append_end(
    out: &mut Text,
    plan: &Plan,
    n: u8,
    node: &NodePlan,
    e: u8,
    end: &EndState,
) -> Result<(), AllocError>
    ensures { OnOk result (out.new ≡ out.old ++ end_line plan.now n node.now e end.now) }
{
    if !has_tokens(end) {
        return Ok(());
    }
    append_pieces(
        out,
        &[
            Words(b"n"),
            Number(u64::from(node.number)),
            Words(b" link "),
            Number(u64::from(e)),
        ],
    )?;
    append_to(out, plan, other_end(plan.links(), n, e))?;
    out.append(b": ")?;
    append_counts(out, end)
}

// Whether something is at a link end.
fn has_tokens(end: &EndState) -> bool
    ensures { result ≡ has_tokens end.now }
{
    end.buffer.len() > 0 || end.window > 0
}

// `B tokens wait, W of 8 sent without credit`.
fn append_counts(out: &mut Text, end: &EndState) -> Result<(), AllocError>
    ensures { OnOk result (out.new ≡ out.old ++ end_text end.now) }
{
    append_decimal(out, end.buffer.len() as u64)?;
    out.append(tokens_wait_and())?;
    append_decimal(out, u64::from(end.window))?;
    out.append(without_credit())
}

// ` to nN link E`.
fn append_to(out: &mut Text, plan: &Plan, other: Option<(u8, u8)>) -> Result<(), AllocError>
    ensures { OnOk result (out.new ≡ out.old ++ to_text plan.now.nodes other) }
{
    let Some((node, end)) = other else {
        return Ok(());
    };
    append_pieces(
        out,
        &[
            Words(b" to n"),
            Number(u64::from(number_at(plan.nodes(), node))),
            Words(b" link "),
            Number(u64::from(end)),
        ],
    )
}

// The number of the node at a position.
fn number_at(nodes: &[NodePlan], n: u8) -> u8
    ensures { result ≡ number_at nodes.now n }
{
    match nodes.get(n as usize) {
        None => 0,
        Some(node) => node.number,
    }
}

// ---- Channel ends

/// The lines of the channel ends at which tokens wait to be taken. The error is want of memory.
#[tactic(auto, unfolding(trace_model::specs::Trace::by_position))]
pub(crate) fn append_chans(
    out: &mut Text,
    node: &NodePlan,
    chans: &[ChanState; 32],
) -> Result<(), AllocError>
    ensures { OnOk result (out.new ≡ out.old ++ by_position (chan_line node.now) 0 chans.now) }
{
    for c in 0..32u8 {
        append_chan(out, node, c, &chans[c as usize])?;
    }
    Ok(())
}

// The line of a channel end.
fn append_chan(out: &mut Text, node: &NodePlan, c: u8, chan: &ChanState) -> Result<(), AllocError>
    ensures { OnOk result (out.new ≡ out.old ++ chan_line node.now c chan.now) }
{
    if !holds_tokens(chan) {
        return Ok(());
    }
    append_held_chan(out, node, c, chan.input.len() as u64)
}

// `nN channel end ID: H of 8 tokens wait to be taken`.
fn append_held_chan(out: &mut Text, node: &NodePlan, c: u8, held: u64) -> Result<(), AllocError>
    ensures { OnOk result (out.new ≡ out.old ++ chan_text node.now c held) }
{
    out.append(b"n")?;
    append_decimal(out, u64::from(node.number))?;
    out.append(b" ")?;
    append_chan_name(out, node.id, c)?;
    out.append(b": ")?;
    append_held(out, held)?;
    Ok(())
}

// Whether tokens wait at a channel end to be taken.
fn holds_tokens(chan: &ChanState) -> bool
    ensures { result ≡ holds_tokens chan.now }
{
    chan.input.len() > 0
}

// `H of 8 tokens wait to be taken`.
fn append_held(out: &mut Text, held: u64) -> Result<(), AllocError>
    ensures { OnOk result (out.new ≡ out.old ++ held_text held) }
{
    append_decimal(out, held)?;
    out.append(to_be_taken())
}

// ---- Inputs of the switch

/// How many tokens wait in the buffer of a link end.
pub(crate) fn buffer_count(ends: &[EndState], end: u8) -> u64
    ensures { result ≡ buffer_count (slice_get ends.now end) }
{
    match ends.get(end as usize) {
        None => 0,
        Some(end) => end.buffer.len() as u64,
    }
}

// The tokens that wait at an input.
fn tokens_at(state: &NodeState, i: u8) -> &[Token]
    ensures { result.now ≡ tokens_at state.now i }
{
    if i < LINK_ENDS {
        buffer_tokens(&state.ends, i)
    } else {
        output_tokens(&state.chans, i - LINK_ENDS)
    }
}

// Those that wait at a link end.
fn buffer_tokens(ends: &[EndState], end: u8) -> &[Token]
    ensures { result.now ≡ buffer_tokens (slice_get ends.now end) }
{
    match ends.get(end as usize) {
        None => &[],
        Some(end) => end.buffer.as_slice(),
    }
}

// Those that wait at a channel end to be sent.
fn output_tokens(chans: &[ChanState], c: u8) -> &[Token]
    ensures { result.now ≡ output_tokens (slice_get chans.now c) }
{
    match chans.get(c as usize) {
        None => &[],
        Some(chan) => chan.output.as_slice(),
    }
}

/// The lines of the inputs of a node's switch. The error is want of memory.
#[tactic(auto, unfolding(trace_model::specs::Trace::by_position))]
pub(crate) fn append_inputs(
    out: &mut Text,
    node: &NodePlan,
    state: &NodeState,
    inputs: &[InputState; 40],
) -> Result<(), AllocError>
    ensures { OnOk result (out.new ≡ out.old ++ by_position (input_line node.now state.now) 0 inputs.now) }
{
    for i in 0..40u8 {
        append_input(out, node, state, i, inputs[i as usize])?;
    }
    Ok(())
}

// The line of an input, where it is not idle.
fn append_input(
    out: &mut Text,
    node: &NodePlan,
    state: &NodeState,
    i: u8,
    now: InputState,
) -> Result<(), AllocError>
    ensures { OnOk result (out.new ≡ out.old ++ input_line node.now state.now i now) }
{
    if is_idle(now) {
        return Ok(());
    }
    append_pieces(
        out,
        &[
            Words(b"n"),
            Number(u64::from(node.number)),
            Words(b" "),
            Input {
                id: node.id,
                input: i,
            },
            Words(b": "),
        ],
    )?;
    append_work(out, node.id, now)?;
    append_waiting(out, tokens_at(state, i))
}

// `, no END yet, W tokens wait`.
fn append_waiting(out: &mut Text, tokens: &[Token]) -> Result<(), AllocError>
    ensures { OnOk result (out.new ≡ out.old
        ++ (ending_text tokens.now ++ (codes ", " ++ (decimal (length tokens.now) ++ codes " tokens wait\n")))) }
{
    out.append(ending(tokens))?;
    out.append(b", ")?;
    append_decimal(out, tokens.len() as u64)?;
    out.append(tokens_wait())
}

// `, END waits`, or `, no END yet`.
fn ending(tokens: &[Token]) -> &'static [u8]
    ensures { result.now ≡ ending_text tokens.now }
{
    if has_end(tokens) {
        b", END waits"
    } else {
        b", no END yet"
    }
}

// Whether one of some tokens ends a packet.
fn has_end(tokens: &[Token]) -> bool
    ensures { result ≡ list_any ends_packet tokens.now }
{
    tokens.iter().any(|token| ends_packet(*token))
}

// Whether a token ends a packet.
fn ends_packet(token: Token) -> bool
    ensures { result ≡ ends_packet token }
{
    match token {
        Token::Byte(_) => false,
        Token::Ctrl(c) => c == END || c == PAUSE,
    }
}

// Whether an input is at nothing.
fn is_idle(now: InputState) -> bool
    ensures { result ≡ is_idle now }
{
    matches!(now, InputState::Idle)
}

// What an input is at.
fn append_work(out: &mut Text, id: u16, now: InputState) -> Result<(), AllocError>
    ensures { OnOk result (out.new ≡ out.old ++ input_text id now) }
{
    match now {
        InputState::Idle => Ok(()),
        InputState::Head1 { .. } => out.append(b"1 of 3 header bytes came"),
        InputState::Head2 { .. } => out.append(b"2 of 3 header bytes came"),
        InputState::Want { dest, net } => {
            out.append(a_packet_to())?;
            append_hex_word(out, dest)?;
            out.append(looks_for_a_way())?;
            append_decimal(out, u64::from(net))
        }
        InputState::Local { chan } => {
            out.append(a_packet_into())?;
            append_chan_name(out, id, chan)
        }
        InputState::Out { end, dest, .. } => {
            out.append(a_packet_to())?;
            append_hex_word(out, dest)?;
            out.append(b" by link ")?;
            append_decimal(out, u64::from(end))
        }
        InputState::Lost => out.append(lost_packet()),
    }
}
