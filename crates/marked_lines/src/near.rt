//! Names that are near a name.
ghost use Rattle.std.specs.Prelude.{ℕ, List, ◌≡◌, ◌<◌, ◌+◌, ◌∷◌, [], ◌++◌, length, drop, map, flat_map, codes, OnOk};
ghost use Rattle.std.specs.List.{list_any};
ghost use Rattle.xs_instructions.specs.Image.{same_name};
ghost use Rattle.xs_instructions.specs.Rows.{name_of};
ghost use Rattle.xs_instructions.specs.declared.rows.TheConstants.{ROWS};
ghost use Rattle.explain_model.specs.Near.{is_swapped, is_edit_here, is_one_edit, begins_name, nearness, is_found, add_near, near_from, nearness_text, near_text, near_line};
ghost use Rattle.explain_model.specs.Values.{directive_names};
ghost use Rattle.explain_model.specs.Wants.{word_text};
ghost use Rattle.explain_model.specs.Labels.{names_of};
ghost use Rattle.marked_lines.specs.Near.{near_of_kept};

use crate::wants::word_text;
use crate::words;
use explain_model::{DIRECTIVES, FixedWord, MOST_NEAR, Nearness};
use std::alloc::{AllocError, Global};
use xs_base::Text;
use xs_instructions::{ROWS, Row, Symbols, same_name};

// A name that is near another one.
#[derive(Clone, Copy)]
struct Near<'a> {
    name: &'a [u8],
    how: Nearness,
}

// Two neighbours swapped, where two names differ first at these bytes.
fn is_swapped(a: u8, name: &[u8], b: u8, other: &[u8]) -> bool
    ensures { result ≡ is_swapped a name.now b other.now }
{
    match (name, other) {
        ([c, name @ ..], [d, other @ ..]) => a == *d && *c == b && same_name(name, other),
        _ => false,
    }
}

// One edit where two names differ first.
fn is_edit_here(name: &[u8], other: &[u8]) -> bool
    ensures { (a b : ℕ) (cs ds : List ℕ) → name.now ≡ a ∷ cs → other.now ≡ b ∷ ds → result ≡ is_edit_here a cs b ds }
{
    match (name, other) {
        ([a, cs @ ..], [b, ds @ ..]) => {
            same_name(cs, ds)
                || same_name(name, ds)
                || same_name(cs, other)
                || is_swapped(*a, cs, *b, ds)
        }
        _ => false,
    }
}

// Whether names that are not the same differ by one edit.
#[tactic(auto, unfolding(explain_model::specs::Near::is_one_edit))]
fn is_one_edit(name: &[u8], other: &[u8]) -> bool
    ensures { result ≡ is_one_edit name.now other.now }
{
    let mut name = name;
    let mut other = other;
    while let [a, cs @ ..] = name {
        match other {
            [] => return name.len() == 1,
            [b, _ds @ ..] if a != b => return is_edit_here(name, other),
            [_b, ds @ ..] => {
                name = cs;
                other = ds;
            }
        }
    }
    other.len() == 1
}

// Whether a name of two bytes at least begins the other.
fn begins_name(front: &[u8], name: &[u8]) -> bool
    ensures { result ≡ begins_name front.now name.now }
{
    let most = front.len().min(name.len());
    front.len() > 1 && same_name(front, &name[..most])
}

fn nearness(name: &[u8], other: &[u8]) -> Option<Nearness>
    ensures { result ≡ nearness name.now other.now }
{
    if name.eq_ignore_ascii_case(other) {
        Some(Nearness::Case)
    } else if is_one_edit(name, other) {
        Some(Nearness::Edit)
    } else if begins_name(name, other) || begins_name(other, name) {
        Some(Nearness::Beginning)
    } else {
        None
    }
}

fn is_found(found: &[Near], name: &[u8]) -> bool
    ensures { result ≡ is_found (map near_of_kept found.now) name.now }
{
    match found {
        [] => false,
        [near, found @ ..] => same_name(near.name, name) || is_found(found, name),
    }
}

// Adds another name, if it is near, and if there are not enough yet. The error is want of memory, here and below.
fn add_near<'a>(name: &[u8], found: &mut Vec<Near<'a>>, other: &'a [u8]) -> Result<(), AllocError>
    ensures { OnOk result (map near_of_kept found.new.items ≡ add_near name.now (map near_of_kept found.old.items) other.now) }
{
    if found.len() >= MOST_NEAR {
        return Ok(());
    }
    let Some(how) = nearness(name, other) else {
        return Ok(());
    };
    if !is_found(found, other) {
        found.push(Near { name: other, how })?;
    }
    Ok(())
}

fn nearness_text(how: Nearness) -> &'static [u8]
    ensures { result.now ≡ nearness_text how }
{
    match how {
        Nearness::Case => words::case_counts(),
        Nearness::Edit => words::one_edit(),
        Nearness::Beginning => words::begins_alike(),
    }
}

fn append_near(out: &mut Text, near: Near) -> Result<(), AllocError>
    ensures { OnOk result (out.new ≡ out.old ++ near_text (near_of_kept near.entry)) }
{
    out.append(near.name)?;
    out.append(nearness_text(near.how))
}

// Each behind a comma.
fn append_others(out: &mut Text, found: &[Near]) -> Result<(), AllocError>
    ensures { OnOk result (out.new ≡ out.old ++ flat_map (λ n. codes ", " ++ near_text n) (map near_of_kept found.now)) }
{
    for near in found {
        out.append(b", ")?;
        append_near(out, *near)?;
    }
    Ok(())
}

fn append_near_line(out: &mut Text, found: &[Near]) -> Result<(), AllocError>
    ensures { OnOk result (out.new ≡ out.old ++ near_line (map near_of_kept found.now)) }
{
    match found {
        [] => out.append(words::near_none()),
        [near, others @ ..] => {
            out.append(b"; near: ")?;
            append_near(out, *near)?;
            append_others(out, others)?;
            out.append(b"\n")
        }
    }
}

// Adds the names of rows.
#[tactic(auto, unfolding(explain_model::specs::Near::near_from))]
fn add_rows(name: &[u8], found: &mut Vec<Near>, rows: &[Row]) -> Result<(), AllocError>
    ensures { OnOk result (map near_of_kept found.new.items ≡ near_from name.now (map near_of_kept found.old.items) (map name_of rows.now)) }
{
    for row in rows {
        add_near(name, found, row.name().as_bytes())?;
    }
    Ok(())
}

// Adds names.
#[tactic(auto, unfolding(explain_model::specs::Near::near_from))]
fn add_names(name: &[u8], found: &mut Vec<Near>, names: &[&'static str]) -> Result<(), AllocError>
    ensures { OnOk result (map near_of_kept found.new.items ≡ near_from name.now (map near_of_kept found.old.items) (map (λ n. n.now) names.now)) }
{
    for other in names {
        add_near(name, found, other.as_bytes())?;
    }
    Ok(())
}

// Adds words of a frame.
#[tactic(auto, unfolding(explain_model::specs::Near::near_from))]
fn add_words(name: &[u8], found: &mut Vec<Near>, words: &[FixedWord]) -> Result<(), AllocError>
    ensures { OnOk result (map near_of_kept found.new.items ≡ near_from name.now (map near_of_kept found.old.items) (map word_text words.now)) }
{
    for word in words {
        add_near(name, found, word_text(*word))?;
    }
    Ok(())
}

/// `; near: ..` of words of a frame, and the end of the line: those of them that are near a name. The error is want of memory. See docs/LOOK.md.
pub fn append_near_words(
    alloc: Global,
    out: &mut Text,
    name: &[u8],
    words: &[FixedWord],
) -> Result<(), AllocError>
    ensures { OnOk result (out.new ≡ out.old ++ near_line (near_from name.now [] (map word_text words.now))) }
{
    let mut found = Vec::new(alloc);
    add_words(name, &mut found, words)?;
    append_near_line(out, &found)
}

/// `; near: ..` of the names of instructions, and the end of the line: those of them that are near a name. The error is want of memory. See docs/LOOK.md.
pub fn append_near_rows(alloc: Global, out: &mut Text, name: &[u8]) -> Result<(), AllocError>
    ensures { OnOk result (out.new ≡ out.old ++ near_line (near_from name.now [] (map name_of ROWS))) }
{
    let mut found = Vec::new(alloc);
    add_rows(name, &mut found, &ROWS)?;
    append_near_line(out, &found)
}

/// The same of the names of directives. See docs/LOOK.md.
pub fn append_near_directives(alloc: Global, out: &mut Text, name: &[u8]) -> Result<(), AllocError>
    ensures { OnOk result (out.new ≡ out.old ++ near_line (near_from name.now [] directive_names)) }
{
    let mut found = Vec::new(alloc);
    add_names(name, &mut found, &DIRECTIVES)?;
    append_near_line(out, &found)
}

// The name of the label with a number.
fn label_name(labels: &Symbols, k: usize) -> &[u8]
    requires { k < length labels.now.labels }
    ensures { names_of (drop k labels.now.labels) ≡ result.now ∷ names_of (drop (k + 1) labels.now.labels) }
{
    let (name, _) = labels.at(k).unwrap();
    name.as_bytes()
}

/// The same of labels, in their order. See docs/LOOK.md.
#[tactic(auto, unfolding(explain_model::specs::Near::near_from))]
pub fn append_near_labels(
    alloc: Global,
    out: &mut Text,
    name: &[u8],
    labels: &Symbols,
) -> Result<(), AllocError>
    ensures { OnOk result (out.new ≡ out.old ++ near_line (near_from name.now [] (names_of labels.now.labels))) }
{
    let mut found = Vec::new(alloc);
    for k in 0..labels.count() {
        add_near(name, &mut found, label_name(labels, k))?;
    }
    append_near_line(out, &found)
}
