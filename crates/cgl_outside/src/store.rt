//! Files in memory, by their names.
ghost use Rattle.std.specs.Prelude.{◌≡◌, ◌<◌, ◌≤◌, ◌↔◌, length, IfOk, OnOk, OnErr, IsSome, IsTrue, Some, false};
ghost use Rattle.std.specs.Option.{option_copied};
ghost use Rattle.std.specs.FinMap as map;
ghost use Rattle.cgl_outside.specs.Shelf.{IsPiece, IsLongestPiece, with_more};
ghost use Rattle.cgl_outside.specs.Files.{files_of};

use cgl_num::Memory;
use std::alloc::{AllocError, Global};
use std::collections::BTreeMap;

/// Gives a name a copy of these bytes.
pub(crate) fn put(
    alloc: Global,
    files: &mut BTreeMap<String, Vec<u8>>,
    name: &str,
    bytes: &[u8],
) -> Result<(), Memory>
    ensures ok { OnOk result (files_of files.new ≡ map.insert (files_of files.old) name.now bytes.now) }
    ensures err { OnErr result (files_of files.new ≡ files_of files.old) }
{
    let Ok(copy) = Vec::from_slice(alloc, bytes) else {
        return Err(Memory);
    };
    let Ok(key) = String::from_str(alloc, name) else {
        return Err(Memory);
    };
    match files.insert(key, copy) {
        Ok(_) => Ok(()),
        Err(_) => Err(Memory),
    }
}

/// Puts bytes at the end of a file. Says whether there is such a file.
pub(crate) fn extend(
    files: &mut BTreeMap<String, Vec<u8>>,
    name: &str,
    bytes: &[u8],
) -> Result<bool, AllocError>
    ensures held { IfOk result (λ held. IsTrue held ↔ IsSome (map.get (files_of files.old) name.now)) }
    ensures ok { OnOk result (Some (files_of files.new) ≡ with_more (Some (files_of files.old)) name.now bytes.now) }
    ensures none { IfOk result (λ held. held ≡ false → files_of files.new ≡ files_of files.old) }
    ensures err { OnErr result (files_of files.new ≡ files_of files.old) }
    ensures err_held { OnErr result (IsSome (map.get (files_of files.old) name.now)) }
{
    let Some(file) = files.get_mut(name) else {
        return Ok(false);
    };
    let Ok(()) = file.extend_from_slice(bytes) else {
        return Err(AllocError);
    };
    Ok(true)
}

#[tactic(auto, using(crate::proofs::FilesRules::found_file, crate::proofs::FilesRules::no_file))]
pub(crate) fn look_up<'a>(files: &'a BTreeMap<String, Vec<u8>>, name: &str) -> Option<&'a [u8]>
    ensures { option_copied result ≡ map.get (files_of files.now) name.now }
{
    match files.get(name) {
        Some(file) => Some(file),
        None => None,
    }
}

/// Copies what stands in a file from a place on, as far as the buffer goes. What stands behind it in the
/// buffer stays.
pub(crate) fn copy_piece(file: &[u8], at: u64, buf: &mut [u8]) -> usize
    requires { 0 < length buf.old }
    ensures within { result ≤ length buf.new }
    ensures piece { IsPiece file.now at buf.new result }
    ensures longest { IsLongestPiece file.now at buf.old buf.new result }
{
    if at >= file.len() as u64 {
        return 0;
    }
    let rest = &file[at as usize..];
    let count = rest.len().min(buf.len());
    buf[..count].copy_from_slice(&rest[..count]);
    count
}
