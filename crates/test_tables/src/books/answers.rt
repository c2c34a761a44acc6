//! The texts of answers.

use quantity::Resources;
use std::alloc::Global;
use std::fmt::Display;

pub fn word(alloc: Global, text: &str) -> Option<String> {
    text.to_string(alloc).ok()
}

pub fn yes_or_no(alloc: Global, is: bool) -> Option<String> {
    word(alloc, if is { "yes" } else { "no" })
}

pub fn shown<T: Display>(alloc: Global, value: &T) -> Option<String> {
    format!(in alloc; "{value}").ok()
}

/// How much there is of cpus and of mem.
pub fn amounts_text(alloc: Global, resources: &Resources) -> Option<String> {
    let (cpus, mem) = (resources.get("cpus"), resources.get("mem"));
    format!(in alloc; "cpus:{cpus} mem:{mem}").ok()
}

/// `ok`, or the refusal.
pub fn answer_text<E: Display>(alloc: Global, answer: &Result<(), E>) -> Option<String> {
    match answer {
        Ok(()) => word(alloc, "ok"),
        Err(fault) => shown(alloc, fault),
    }
}
