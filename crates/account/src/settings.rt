// The lines that set a script up, read. None where a line is none of them.
ghost use Rattle.std.specs.Prelude.{◌≡◌, IfOk, vec_items};
ghost use Rattle.std.specs.Option.{option_map};
ghost use Rattle.account.specs.Settings.{kind_of, kind_in, words_of, masks_of, even_in, even_base, form_in, base_in, base_figures, stretch_in, closed_in};

use crate::numbers::{mask, number};
use crate::terms::{Base, Closed};
use crate::words::{cut, is_word};
use sheets::kind::Kind;
use std::alloc::{AllocError, Global};

// The kind of that name. No FromStr: a script is bytes, and a wrong name is no command rather than a refusal.
fn kind_named(name: &[u8]) -> Option<Kind>
    ensures { result ≡ kind_of name.now }
{
    match name {
        b"points" => Some(Kind::Points),
        b"classed" => Some(Kind::Classed),
        b"share" => Some(Kind::Share),
        _ => None,
    }
}

// `kind` and its name.
pub(crate) fn kind(line: &[u8]) -> Option<Kind>
    ensures { result ≡ kind_in line.now }
{
    match cut(line, b' ')? {
        (b"kind", name) => kind_named(name),
        _ => None,
    }
}

// Links and end, with a space between.
fn even(text: &[u8]) -> Option<Base>
    ensures { option_map base_figures result ≡ even_base (even_in text.now) }
{
    let (links, end) = cut(text, b' ')?;
    let links = number(links)?;
    let end = number(end)?;
    Some(Base::Even { links, end })
}

// One mask or more, with a space between.
fn masks(heap: Global, text: &[u8]) -> Result<Option<Vec<u8>>, AllocError>
    ensures { IfOk result (λ o. option_map vec_items o ≡ masks_of (words_of text.now)) }
{
    let mut masks = Vec::new(heap);
    for word in text.split(|byte| *byte == b' ') {
        let Some(mask) = mask(word) else {
            return Ok(None);
        };
        masks.push(mask)?;
    }
    Ok(Some(masks))
}

// What follows `calendar`.
fn form(heap: Global, text: &[u8]) -> Result<Option<Base>, AllocError>
    ensures { IfOk result (λ o. option_map base_figures o ≡ form_in text.now) }
{
    if is_word(text, "listed") {
        return Ok(Some(Base::Listed(Vec::new(heap))));
    }
    // Guards: b"even" and b"listed" in the patterns were tried, and the proof of the last arm did not close.
    match cut(text, b' ') {
        Some((name, rest)) if is_word(name, "even") => Ok(even(rest)),
        Some((name, rest)) if is_word(name, "listed") => Ok(masks(heap, rest)?.map(Base::Listed)),
        _ => Ok(None),
    }
}

// `calendar`, even or listed.
pub(crate) fn base(heap: Global, line: &[u8]) -> Result<Option<Base>, AllocError>
    ensures { IfOk result (λ o. option_map base_figures o ≡ base_in line.now) }
{
    match cut(line, b' ') {
        Some((b"calendar", text)) => form(heap, text),
        _ => Ok(None),
    }
}

// First slot, the slot after the last, and the mask.
fn stretch(text: &[u8]) -> Option<Closed>
    ensures { result ≡ stretch_in text.now }
{
    let (first, rest) = cut(text, b' ')?;
    let (past, links) = cut(rest, b' ')?;
    let first = number(first)?;
    let past = number(past)?;
    let links = mask(links)?;
    Some(Closed { first, past, links })
}

// `closed` and a stretch.
pub(crate) fn closed(line: &[u8]) -> Option<Closed>
    ensures { result ≡ closed_in line.now }
{
    match cut(line, b' ')? {
        (b"closed", text) => stretch(text),
        _ => None,
    }
}
