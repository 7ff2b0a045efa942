//! What a data set holds, as text: `TAG VR VALUE` for each element. For one with items the value is their lengths
//! and what they hold, and for one with fragments the bytes of each.

use dd_set::{DataSet, Element, Item, Value};
use dd_vectors::text_of;
use std::alloc::Global;
use std::test::Fail;

/// Gives the text of a data set whose items hold no items.
pub(crate) fn outline(alloc: Global, set: &DataSet<'_>) -> Result<String, Fail> {
    let mut text = String::new(alloc);
    for element in &set.elements {
        push_head(&mut text, element)?;
        match &element.value {
            Value::Bytes(bytes) => text.push_str(text_of(alloc, bytes)?.as_str())?,
            Value::Items { length, items } => {
                write!(text, "{length:?}")?;
                push_items(alloc, &mut text, items)?;
            }
            Value::Fragments(fragments) => push_fragments(alloc, &mut text, fragments)?,
        }
    }
    Ok(text)
}

fn push_head(text: &mut String, element: &Element<'_>) -> Result<(), Fail> {
    if !text.is_empty() && !text.as_str().ends_with('[') {
        text.push_str("; ")?;
    }
    let (tag, vr) = (element.tag, element.vr);
    match vr {
        Some(vr) => write!(text, "{tag} {vr:?} ")?,
        None => write!(text, "{tag} - ")?,
    }
    Ok(())
}

fn push_fragments(alloc: Global, text: &mut String, fragments: &[&[u8]]) -> Result<(), Fail> {
    text.push_str("Fragments")?;
    for fragment in fragments {
        let bytes = hex::encode(alloc, *fragment)?;
        write!(text, " [{bytes}]")?;
    }
    Ok(())
}

fn push_items(alloc: Global, text: &mut String, items: &[Item<'_>]) -> Result<(), Fail> {
    for item in items {
        let length = item.length;
        write!(text, " {length:?} [")?;
        push_plain(alloc, text, &item.set)?;
        text.push(']')?;
    }
    Ok(())
}

fn push_plain(alloc: Global, text: &mut String, set: &DataSet<'_>) -> Result<(), Fail> {
    for element in &set.elements {
        push_head(text, element)?;
        match &element.value {
            Value::Bytes(bytes) => text.push_str(text_of(alloc, bytes)?.as_str())?,
            Value::Items { .. } => return Err("items within items".into()),
            Value::Fragments(fragments) => push_fragments(alloc, text, fragments)?,
        }
    }
    Ok(())
}
