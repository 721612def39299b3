//! A line for each store to a word that is watched.
ghost use Rattle.std.specs.Prelude.{◌≡◌, ◌+◌, ◌-◌, ◌*◌, ◌^◌, ◌<◌, ◌≤◌, List, ℕ, Some, length, map, IfOk, OnOk};
ghost use Rattle.issue_model.specs.Watch.{slot_watched, watch_of};
ghost use Rattle.issue_model.specs.Issues.{lines_from};
ghost use Rattle.issue_text.specs.Kept.{Adds};
ghost use Rattle.issue_text.specs.NodeSlots.{AreSources, numbers_of};
ghost use Rattle.issue_text.specs.Words.{AreKept};

use crate::lines::Lines;
use crate::sources::{Sources, printers_of};
use crate::words::{Word, keep_words};
use std::alloc::{AllocError, Global};
use sys_plan::Plan;
use told_run::ToldRun;
use xs_base::Text;

/// A line for each store, in a run of so many slots by a plan, to the words in which these addresses lie. `lines` has, for each node by position,
/// the line of its source that each of its instructions comes from. The error is want of memory. See docs/LOOK.md.
pub fn watch<'a>(
    alloc: Global,
    plan: &'a Plan,
    lines: &'a [Vec<u32>],
    slots: u32,
    addresses: &[u32],
) -> Result<Text, AllocError>
    ensures text { IfOk result (λ text. text ≡ watch_of plan.now (map (λ numbers. numbers.items) lines.now) slots addresses.now) }
{
    let printers = printers_of(alloc, plan)?;
    let printers = printers.as_slice();
    let sources = Sources {
        plan,
        printers,
        lines,
    };
    let mut run = ToldRun::new(alloc, plan)?;
    let words = no_words(alloc, plan.nodes().len())?;
    let mut watched = Watched { addresses, words };
    let mut kept = Lines::new(alloc);
    watch_slots(&mut run, &sources, slots, &mut watched, &mut kept)?;
    let text = kept.into_text(slots)?;
    Ok(text)
}

// What is watched: addresses, and for each node, by position, what the words were in which they lie.
#[derive(Drop)]
struct Watched<'a> {
    addresses: &'a [u32],
    words: Vec<Vec<Word>>,
}

// Room for the words of so many nodes. The error is want of memory.
fn no_words(alloc: Global, count: usize) -> Result<Vec<Vec<Word>>, AllocError>
    ensures { IfOk result (λ words. length words.items ≡ count) }
{
    let mut words = Vec::new(alloc);
    for _ in 0..count {
        words.push(Vec::new(alloc))?;
    }
    Ok(words)
}

// All slots before one.
fn watch_slots(
    run: &mut ToldRun,
    sources: &Sources,
    slots: u32,
    watched: &mut Watched,
    kept: &mut Lines,
) -> Result<(), AllocError>
    requires start { run.old.now ≡ 0 }
    requires sources { AreSources run.old.plan sources.now }
    requires words { length watched.old.words.items ≡ length run.old.plan.nodes }
    requires count { kept.old.count ≡ 0 }
    ensures lines { OnOk result (Adds kept.old kept.new (lines_from (slot_watched run.old.plan (numbers_of sources.now) watched.old.addresses.now) 0 slots)) }
{
    while run.now() < slots {
        watch_slot(run, sources, watched, kept)?;
    }
    Ok(())
}

// The next slot.
fn watch_slot(
    run: &mut ToldRun,
    sources: &Sources,
    watched: &mut Watched,
    kept: &mut Lines,
) -> Result<(), AllocError>
    requires slot { run.old.now < 2 ^ 32 - 1 }
    requires sources { AreSources run.old.plan sources.now }
    requires words { length watched.old.words.items ≡ length run.old.plan.nodes }
    requires count { kept.old.count ≤ 16 * run.old.now }
    ensures lines { OnOk result (Adds kept.old kept.new (slot_watched run.old.plan (numbers_of sources.now) watched.old.addresses.now run.old.now)) }
    ensures count { OnOk result (kept.new.count ≤ 16 * run.new.now) }
    ensures plan { run.new.plan ≡ run.old.plan }
    ensures passed { OnOk result (run.new.now ≡ run.old.now + 1) }
    ensures addresses { watched.new.addresses.now ≡ watched.old.addresses.now }
    ensures words { length watched.new.words.items ≡ length watched.old.words.items }
{
    let slot = run.now();
    keep_all(run, watched.addresses, &mut watched.words)?;
    run.step()?;
    add_watched(run, sources, slot, &watched.words, kept)?;
    Ok(())
}

// Keeps what the words of each node are now.
fn keep_all(run: &ToldRun, addresses: &[u32], words: &mut [Vec<Word>]) -> Result<(), AllocError>
    requires words { length words.old ≡ length run.now.plan.nodes }
    ensures kept { OnOk result (AreKept run.now.plan run.now.now addresses.now words.new) }
    ensures words { length words.new ≡ length words.old }
{
    for n in 0..run.nodes() {
        keep_words(run.core(n as u8), addresses, &mut words[n])?;
    }
    Ok(())
}

// The lines of all nodes in a slot that was told, before which their words were these.
fn add_watched<'a>(
    run: &'a ToldRun,
    sources: &'a Sources<'a>,
    slot: u32,
    words: &[Vec<Word>],
    kept: &mut Lines,
) -> Result<(), AllocError>
    requires sources { AreSources run.now.plan sources.now }
    requires told { run.now.slot ≡ Some slot }
    requires passed { run.now.now ≡ slot + 1 }
    requires words { length words.now ≡ length run.now.plan.nodes }
    requires count { kept.old.count ≤ 16 * slot }
    ensures lines { OnOk result ((addresses : List ℕ) → AreKept run.now.plan slot addresses words.now →
        Adds kept.old kept.new (slot_watched run.now.plan (numbers_of sources.now) addresses slot)) }
    ensures count { OnOk result (kept.new.count ≤ 16 * (slot + 1)) }
{
    for n in 0..run.nodes() {
        let place = n as u8;
        let at = sources.node_slot(run, slot, place);
        kept.add_change(&at, run.told(place), &words[n], run.core(place))?;
    }
    Ok(())
}
