//! Calls of each device that fail while an index is opened again, and what a crash then leaves.

use crate::check::checks;
use crate::places::{AGAIN_FOUND, AGAIN_TOLD, answers, merged_again};
use crate::store::{Failing, Store, looked_into, numbers, reopened, seal};
use ann_log::Files;
use ann_recover::RecoverWhy;
use ann_vault::{MemoryEye, MemoryVault, Vault};
use std::alloc::Global;
use std::test::Fail;

// A vault with what another has sealed.
fn copy(alloc: Global, vault: &mut MemoryVault) -> Result<MemoryVault, Fail> {
    let mut copy = MemoryVault::new(alloc, &[])?;
    for number in &numbers(alloc, vault)? {
        let held = vault.open(*number)?.ok_or("not sealed")?;
        seal(&mut copy, (*number, held.bytes()))?;
    }
    Ok(copy)
}

// What a crash may leave of an index.
fn image(alloc: Global, store: &mut Store, chooser: u64) -> Result<Store, Fail> {
    Ok(Store {
        files: Files {
            first: store.files.first.images(chooser)?,
            second: store.files.second.images(chooser)?,
        },
        vault: copy(alloc, &mut store.vault)?,
        eyes: vec![in alloc; MemoryEye::new(alloc, &[])?]?,
    })
}

// Whether each of some images of an index opens, and answers as before.
fn images_answer(alloc: Global, store: &mut Store) -> Result<bool, Fail> {
    for chooser in [0, 5, 10, 15, 20, 25] {
        let image = image(alloc, store, chooser)?;
        let (found, _left) = answers(alloc, image, AGAIN_FOUND)?;
        if !found {
            return Ok(false);
        }
    }
    Ok(true)
}

// The call of this number fails of the device with this one: of the files, the vault or the eye.
fn failing(device: u64, call: u64) -> Failing {
    match device {
        0 => (call, 0, 0, 0),
        1 => (0, call, 0, 0),
        2 => (0, 0, call, 0),
        _ => (0, 0, 0, call),
    }
}

// Whether a call fails: opening the index is then refused for it, each image answers as before, and the index opens.
fn is_refused(alloc: Global, device: u64, call: u64) -> Result<bool, Fail> {
    let store = merged_again(alloc, failing(device, call))?;
    let (told, left) = reopened(alloc, store)?;
    if told == AGAIN_TOLD {
        return Ok(false);
    }
    let mut left = left;
    let answered = images_answer(alloc, &mut left)?;
    let (again, _left) = reopened(alloc, left)?;
    if told != Err(RecoverWhy::Disk) || !answered || again != AGAIN_TOLD {
        return Err("lost by a fault".into());
    }
    Ok(true)
}

// The first call of a device from this one on that may fail without a refusal.
fn calls(alloc: Global, device: u64, first: u64) -> Result<u64, Fail> {
    for call in first..100 {
        if !is_refused(alloc, device, call)? {
            return Ok(call);
        }
    }
    Ok(0)
}

// The first file is synced, measured and read, and at the end cut and synced. The second is synced and measured, cut and
// synced; its made byte, its rest and its made byte once more are written and synced. The vault opens the two segments,
// tells its numbers, and opens and removes three of them. The eye measures each segment, and reads the headers, the
// directories and the base's nodes.
#[test]
fn each_call_may_fail(rt: HostRuntime) -> Result<(), Fail> {
    let alloc = rt.alloc();
    let files = (calls(alloc, 0, 1)?, calls(alloc, 1, 1)?);
    let others = (calls(alloc, 2, 5)?, calls(alloc, 3, 1)?);
    assert_eq!(rt; (files, others), ((6, 14), (14, 8)));
    Ok(())
}

// Whether looking into an index is refused for a call that fails, and not once more.
fn is_unseen(alloc: Global, device: u64, call: u64) -> Result<bool, Fail> {
    let mut store = merged_again(alloc, failing(device, call))?;
    let told = looked_into(alloc, &mut store)?;
    if told == AGAIN_TOLD {
        return Ok(false);
    }
    let again = looked_into(alloc, &mut store)?;
    if told != Err(RecoverWhy::Disk) || again != AGAIN_TOLD {
        return Err("lost by a fault".into());
    }
    Ok(true)
}

// The first call of a device from this one on that may fail without a refusal.
fn looks(alloc: Global, device: u64, first: u64) -> Result<u64, Fail> {
    for call in first..100 {
        if !is_unseen(alloc, device, call)? {
            return Ok(call);
        }
    }
    Ok(0)
}

// Whether the command `check` tells a call of this device that fails.
fn is_told(alloc: Global, device: u64) -> Result<bool, Fail> {
    let store = merged_again(alloc, failing(device, 1))?;
    checks(alloc, store, &Err(RecoverWhy::Disk))
}

#[test]
fn a_call_of_a_check_may_fail(rt: HostRuntime) -> Result<(), Fail> {
    let alloc = rt.alloc();
    let told = (is_told(alloc, 0)?, is_told(alloc, 1)?);
    assert_eq!(rt; told, (true, true));
    Ok(())
}

// Each file is measured, and the first read; the two segments are opened, and each of seven node blocks read.
#[test]
fn each_call_of_looking_may_fail(rt: HostRuntime) -> Result<(), Fail> {
    let alloc = rt.alloc();
    let files = (looks(alloc, 0, 1)?, looks(alloc, 1, 1)?);
    let others = (looks(alloc, 2, 5)?, looks(alloc, 3, 1)?);
    assert_eq!(rt; (files, others), ((3, 3), (7, 15)));
    Ok(())
}
