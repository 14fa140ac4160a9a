//! The texts of what a space holds.

ghost use Rattle.space_model.specs.Sound.{Sound};

use plain_machine::plain_counts;
use space_model::{Part, Region, Space, Span};
use std::alloc::{AllocError as NoMemory, Global};

/// Adds a text behind others, with a comma between.
fn add(list: &mut String, text: &str) -> Result<(), NoMemory> {
    if !list.is_empty() {
        list.push_str(", ")?;
    }
    list.push_str(text)?;
    Ok(())
}

/// The text of a list, or `none`.
fn or_none(alloc: Global, list: String) -> Result<String, NoMemory> {
    if list.is_empty() {
        return Ok(String::from_str(alloc, "none")?);
    }
    Ok(list)
}

/// The extents in their order.
pub(crate) fn extents(alloc: Global, parts: &[Part]) -> Result<String, NoMemory> {
    let mut list = String::new(alloc);
    for part in parts {
        let Span { first, pages } = part.span;
        let text = format!(in alloc; "{first}+{pages} {:?} {}", part.state, part.committed)?;
        add(&mut list, text.as_str())?;
    }
    or_none(alloc, list)
}

/// The regions in their order.
pub(crate) fn regions(alloc: Global, regions: &[Region]) -> Result<String, NoMemory> {
    let mut list = String::new(alloc);
    for region in regions {
        let text = format!(in alloc; "{} {} {:?}", region.addr, region.class, region.holder)?;
        add(&mut list, text.as_str())?;
    }
    or_none(alloc, list)
}

/// The addresses of a reply.
pub(crate) fn places(alloc: Global, addrs: &[u64]) -> Result<String, NoMemory> {
    let mut list = String::new(alloc);
    for addr in addrs {
        let text = format!(in alloc; "{addr}")?;
        add(&mut list, text.as_str())?;
    }
    Ok(format!(in alloc; "Regions({list})")?)
}

/// The bytes by use.
pub(crate) fn counts(alloc: Global, space: &Space) -> Result<String, NoMemory>
    requires { Sound space.now }
{
    let n = plain_counts(space);
    let used = format!(in alloc;
        "allocated {} active {} dirty {} muzzy {}",
        n.allocated, n.active, n.dirty, n.muzzy
    )?;
    Ok(format!(in alloc;
        "{used} retained {} flight {} mapped {}",
        n.retained, n.flight, n.mapped
    )?)
}

/// Adds the numbers that aren't 0, by class.
fn add_by_class(alloc: Global, list: &mut String, numbers: &[u64]) -> Result<(), NoMemory> {
    let bare = list.len();
    for (class, number) in numbers.iter().enumerate() {
        if *number > 0 {
            let text = format!(in alloc; " {class}:{number}")?;
            list.push_str(text.as_str())?;
        }
    }
    if list.len() == bare {
        list.push_str(" none")?;
    }
    Ok(())
}

/// The regions and slabs by class.
pub(crate) fn classes(alloc: Global, space: &Space) -> Result<String, NoMemory>
    requires { Sound space.now }
{
    let n = plain_counts(space);
    let mut list = format!(in alloc; "small {} large {} regs", n.small, n.large)?;
    add_by_class(alloc, &mut list, n.regs.as_slice())?;
    list.push_str(" slabs")?;
    add_by_class(alloc, &mut list, n.slabs.as_slice())?;
    list.push_str(" lextents")?;
    add_by_class(alloc, &mut list, n.lextents.as_slice())?;
    Ok(list)
}
