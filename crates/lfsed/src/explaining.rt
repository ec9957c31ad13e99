//! The pages that explain faults, as text and as JSON.

use lfs_host::Quoted;
use lfs_json::Form;
use lfs_texts::{Explanation, explained, explanations};
use std::alloc::{AllocError, Global};
use std::fmt::Write;

/// Adds the object of a fault: its number, its name and what is said of it.
fn push_object(text: &mut String, fault: &Explanation, said: &str) -> Result<(), AllocError> {
    let said = Quoted { text: said };
    write!(
        text,
        "{{\"fault\":{},\"name\":\"{}\",\"text\":{said}}}\n",
        fault.number, fault.name
    )
}

/// Adds the page of a fault, after an empty line unless it is the first.
fn push_page(text: &mut String, fault: &Explanation, is_first: bool) -> Result<(), AllocError> {
    if !is_first {
        text.push_str("\n")?;
    }
    write!(text, "{} {}\n{}\n", fault.number, fault.name, fault.text)
}

/// The pages of faults, with an empty line between them, or an object each. One that is named twice in a row, as by its number and its name,
/// has one page.
pub fn pages(alloc: Global, form: Form, faults: &[&str]) -> Result<String, AllocError> {
    let mut pages = String::new(alloc);
    let mut last = None;
    for found in faults.iter().filter_map(|fault| explained(fault)) {
        if last == Some(found.number) {
            continue;
        }
        match form {
            Form::Text => push_page(&mut pages, found, last.is_none())?,
            Form::Json => push_object(&mut pages, found, found.text)?,
        }
        last = Some(found.number);
    }
    Ok(pages)
}

/// All faults, a line each.
pub fn list(alloc: Global, form: Form) -> Result<String, AllocError> {
    let mut list = String::new(alloc);
    for known in explanations() {
        match form {
            Form::Text => write!(list, "{} {}: {}\n", known.number, known.name, known.gist())?,
            Form::Json => push_object(&mut list, known, known.gist())?,
        }
    }
    Ok(list)
}
