//! Cases of tables of names.
use cgl_text::NameTable;
use std::alloc::Global;

/// Tells where the table has the name, and takes it in. Tells its place then, and whether it was new.
fn take_in(rt: &impl Print, names: &mut NameTable, name: &[u8]) -> Option<()> {
    let found = names.find(name);
    let (place, is_new) = names.find_or_push(name).ok()?;
    println!(rt; "  {found:?} {place} {is_new}").ok()
}

fn push_absent(names: &mut NameTable, name: &[u8]) -> Option<()> {
    if names.has(name) {
        return None;
    }
    names.push(name).ok()
}

/// Tells for each word its place among the different words before it, if it is one of them, and its place among them
/// all; and then these, and one that is put behind them.
pub fn tell_names(rt: &impl Print, alloc: Global, text: &str) -> Option<()> {
    let mut names = NameTable::new(alloc);
    for word in text.split(' ') {
        take_in(rt, &mut names, word.as_bytes())?;
    }
    push_absent(&mut names, b"behind all")?;
    let count = names.len();
    println!(rt; "  {count} {:?}", names.get(count).is_some()).ok()?;
    for name in names.into_names(alloc).ok()? {
        println!(rt; "  {}", name.escape_ascii()).ok()?;
    }
    Some(())
}
